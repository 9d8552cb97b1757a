//! What has come of a connection's next line, in memory of its own.
ghost use Rattle.std.specs.Prelude.{◌≡◌, ◌<◌, ◌≤◌, length, take, IsNone, IfOk};
ghost use Rattle.irc_line.specs.Framed.{found_in};
ghost use Rattle.irc_line.specs.Lines.{nothing_begun, Takes};

use irc_line::{Framer, Line};
use std::alloc::{AllocError, Global};
use std::marker::Model;

/// A framer in memory of its own. It keeps half a kilobyte, and a line that goes to many reaches
/// none of it: so connections are small, and lie close together.
#[derive(Drop)]
pub struct BoxedFramer {
    framer: Box<Framer, Global>,
}

/// In a clause it is the framer.
impl Model for BoxedFramer {
    ghost use Rattle.irc_line.specs.Lines.{Begun};

    ghost Value = { Begun };

    ghost view = { λ boxed. boxed.framer.value };
}

impl BoxedFramer {
    /// That of a stream that begins.
    ///
    /// # Errors
    /// Where memory runs out.
    pub(crate) fn new(alloc: Global) -> Result<Self, AllocError>
        ensures { IfOk result (λ framer. framer ≡ nothing_begun) }
    {
        let framer = Box::new(alloc, Framer::new())?;
        Ok(BoxedFramer { framer })
    }

    /// Takes bytes of a piece up to the end of the next line, as [`Framer::take`] does: how many.
    /// Whether that line has ended, and the line, is put into `line`.
    pub(crate) fn take(&mut self, piece: &[u8], line: &mut Option<Line>) -> usize
        ensures takes { Takes self.old (take result piece.now) (found_in line.new) self.new }
        ensures used { result ≤ length piece.now }
        ensures some { 0 < length piece.now → 0 < result }
        ensures whole { IsNone line.new → result ≡ length piece.now }
    {
        let (used, found) = self.framer.take(piece);
        *line = found;
        used
    }
}
