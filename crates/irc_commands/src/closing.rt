//! The line that a client is sent before it is closed.
ghost use Rattle.std.specs.Prelude.{◌≡◌};
ghost use Rattle.irc_commands.specs.Closing.{closing_line, error_line};

use arrayvec::ArrayVec;
use irc_channels::Words;
use irc_line::{Parts, Prefix, Text, write_message};

const BEFORE_REASON: &[u8] = b"Closing link (";

const AFTER_REASON: &[u8] = b")";

/// The longest text of an ERROR line: a reason, and what stands round it.
const MAX_CLOSING: usize = 175;

/// The line that a client is sent before it is closed (RFC 2812 section 3.7.4).
pub fn error(reason: &Words) -> Text
    ensures { result.items ≡ error_line reason.now }
{
    let mut closing: ArrayVec<u8, MAX_CLOSING> = ArrayVec::new();
    let _ = closing.try_extend_from_slice(BEFORE_REASON);
    let _ = closing.try_extend_from_slice(reason.as_bytes());
    let _ = closing.try_extend_from_slice(AFTER_REASON);
    error_of(closing.as_slice())
}

fn error_of(closing: &[u8]) -> Text
    ensures { result.items ≡ closing_line closing.now }
{
    write_message(&Parts {
        prefix: Prefix::Nothing,
        command: b"ERROR",
        middle: &[],
        last: Some(closing),
    })
}
