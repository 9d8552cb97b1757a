//! A message of the day, as it is read from a text.
ghost use Rattle.std.specs.Prelude.{◌≡◌, ◌++◌, ◌∷◌, [], IfOk, OnOk, map, nat_le, string_bytes};
ghost use Rattle.std.specs.Prelude.{sum_by};
ghost use Rattle.std.specs.List.{list_all};
ghost use Rattle.std.specs.Str.Lines.{lines};
ghost use Rattle.irc_door.specs.declared.motd.MotdFault.TheVariants.{Memory};
ghost use Rattle.irc_door.specs.MessagesOfTheDay.{has_room, is_told, line_room, lines_of};
ghost use Rattle.irc_door.specs.MessagesOfTheDay.{IsReadMotd};

use std::alloc::{AllocError, Global};
use thiserror::Error;

/// The most bytes of a text that is a message of the day (our own choice).
pub const MOST_BYTES: usize = 8_192;

/// The most lines that it may have (our own choice).
pub const MOST_LINES: usize = 100;

/// How many bytes of an outbox are kept for what a new user is told beside the lines of a message.
const WELCOME_ROOM: usize = 2_048;

/// The most bytes that stand around a line of a message: a server's name, a nickname, and
/// `: 372  :- ` with CR LF.
const AROUND_LINE: usize = 105;

/// Why a text is no message of the day.
#[derive(Clone, Copy, Debug, Drop, PartialEq, Eq, Error)]
pub enum MotdFault {
    /// It has more than [`MOST_BYTES`] bytes or [`MOST_LINES`] lines, or a NUL, or a CR that ends
    /// no line.
    #[error("bad message of the day")]
    Bad,
    /// Memory ran out.
    #[error("out of memory")]
    Memory,
}

impl From<AllocError> for MotdFault {
    ghost from_gives = { λ _ fault. fault ≡ Memory };

    fn from(_error: AllocError) -> Self {
        MotdFault::Memory
    }
}

/// A message of the day.
#[derive(Drop)]
pub struct Motd {
    pub(crate) lines: Vec<String, Global>,
}

impl Motd {
    /// The message that a text is, line by line; a text without lines is one without lines.
    ///
    /// # Errors
    /// [`MotdFault::Bad`] where the text is none; [`MotdFault::Memory`] where memory runs out.
    pub fn read(alloc: Global, text: &str) -> Result<Self, MotdFault>
        ensures { IsReadMotd text.now result }
    {
        if text.len() > MOST_BYTES {
            return Err(MotdFault::Bad);
        }
        let lines = lines_in(alloc, text)?;
        if lines.len() > MOST_LINES {
            return Err(MotdFault::Bad);
        }
        if !are_told(&lines) {
            return Err(MotdFault::Bad);
        }
        Ok(Motd {
            lines: owned(alloc, &lines)?,
        })
    }

    /// Whether an outbox that has room for so many bytes takes the message, and what else a new
    /// user is told.
    pub fn fits(&self, room: usize) -> bool
        ensures { result ≡ has_room room (lines_of self.now) }
    {
        match room.checked_sub(WELCOME_ROOM) {
            Some(left) => lines_fit(&self.lines, left),
            None => false,
        }
    }
}

/// The lines of a text.
fn lines_in(alloc: Global, text: &str) -> Result<Vec<&str, Global>, AllocError>
    ensures { IfOk result (λ found. map (λ line. line.now) found.items ≡ lines text.now) }
{
    text.lines().collect(alloc)
}

/// Whether all lines may be told.
fn are_told(lines: &[&str]) -> bool
    ensures { result ≡ list_all is_told (map (λ line. line.now) lines.now) }
{
    for line in lines {
        if !is_told(line) {
            return false;
        }
    }
    true
}

/// Whether a line may be told: it has no NUL and no CR.
fn is_told(line: &str) -> bool
    ensures { result ≡ is_told line.now }
{
    line.as_bytes()
        .iter()
        .all(|byte| !(*byte == b'\0' || *byte == b'\r'))
}

/// The same lines, in memory of their own.
fn owned(alloc: Global, lines: &[&str]) -> Result<Vec<String, Global>, AllocError>
    ensures { IfOk result (λ own. map string_bytes own.items ≡ map (λ line. line.now) lines.now) }
{
    let mut own = Vec::new(alloc);
    for line in lines {
        add(&mut own, String::from_str(alloc, line)?)?;
    }
    Ok(own)
}

/// Appends a line.
fn add(lines: &mut Vec<String, Global>, line: String) -> Result<(), AllocError>
    ensures { OnOk result (lines.new.items ≡ lines.old.items ++ line ∷ []) }
{
    lines.push(line)?;
    Ok(())
}

/// Whether lines, with what stands around each, come to no more than so many bytes.
fn lines_fit(lines: &[String], room: usize) -> bool
    ensures { result ≡ nat_le (sum_by line_room (map string_bytes lines.now)) room }
{
    let mut left = room;
    for line in lines {
        let wanted = line.len() + AROUND_LINE;
        if left < wanted {
            return false;
        }
        left -= wanted;
    }
    true
}
