//! What becomes of a line of a client that is no user yet.
ghost use Rattle.std.specs.Prelude.{◌≡◌};
ghost use Rattle.irc_line.specs.MessageViews.{parsed};
ghost use Rattle.irc_hold.specs.Lines.{fate_behind, first_word, is_cap, is_whole_user};
ghost use Rattle.irc_hold.specs.Lines.{line_fate, starts_negotiation};

use irc_line::{Message, parse};
use irc_link_words::is_command;

/// How many parameters USER needs (RFC 2812 section 3.1.3).
const USER_PARAMETERS: usize = 4;

/// What becomes of an event.
#[derive(Clone, Copy, Drop)]
pub(crate) enum Fate {
    /// The machine is given it.
    Passes,
    /// So it is, and from then on USER is held.
    Begins,
    /// It is held.
    Keeps,
    /// The machine is given what was held in its place, and nothing is held any more.
    Ends,
}

/// What becomes of a line of a client whose USER is held, or is not.
pub(crate) fn line_fate(is_held: bool, line: &[u8]) -> Fate
    ensures { result ≡ line_fate is_held line.now }
{
    match parse(line) {
        Ok(message) => fate_behind(is_held, &message),
        Err(_) => Fate::Passes,
    }
}

fn fate_behind(is_held: bool, message: &Message<'_>) -> Fate
    ensures { result ≡ fate_behind is_held (parsed message.now) }
{
    if message.prefix.is_some() {
        Fate::Passes
    } else if starts_negotiation(message) {
        Fate::Begins
    } else if is_held && is_cap(message, b"END") {
        Fate::Ends
    } else if is_held && is_whole_user(message) {
        Fate::Keeps
    } else {
        Fate::Passes
    }
}

/// Whether a line asks for capabilities.
fn starts_negotiation(message: &Message<'_>) -> bool
    ensures { result ≡ starts_negotiation (parsed message.now) }
{
    is_cap(message, b"REQ")
}

/// Whether a line is CAP with this word.
fn is_cap(message: &Message<'_>, word: &[u8]) -> bool
    ensures { result ≡ is_cap word.now (parsed message.now) }
{
    is_command(b"CAP", message.command) && is_command(word, first_word(message))
}

/// The first word of a line; no bytes where it has none.
fn first_word<'a>(message: &Message<'a>) -> &'a [u8]
    ensures { result.now ≡ first_word (parsed message.now) }
{
    match message.params.as_slice().get(0) {
        Some(word) => word,
        None => &[],
    }
}

/// Whether a line is USER with all that it needs.
fn is_whole_user(message: &Message<'_>) -> bool
    ensures { result ≡ is_whole_user (parsed message.now) }
{
    is_command(b"USER", message.command) && USER_PARAMETERS <= message.params.len()
}
