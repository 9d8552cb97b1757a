//! What an effect shows: a line, and who sees it.
ghost use Rattle.std.specs.Prelude.{◌≡◌, []};

use irc_line::Text;
use irc_names::Nick;
use std::alloc::Global;

/// A line, and the users of one server who see it, in folded order. Where nobody does, the line is
/// any.
#[derive(Drop)]
pub struct ShownLine {
    /// The line, with its CR LF (RFC 2812 section 2.3).
    pub line: Text,
    /// The users who see it.
    pub viewers: Vec<Nick, Global>,
}

impl ShownLine {
    /// A line that nobody sees.
    pub fn new(alloc: Global) -> Self
        ensures { result.viewers.items ≡ [] }
    {
        ShownLine {
            line: Text::new(),
            viewers: Vec::new(alloc),
        }
    }
}
