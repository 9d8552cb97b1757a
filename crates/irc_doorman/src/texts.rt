//! What a doorman says, and the line that it gives for who is silent.
ghost use Rattle.std.specs.Prelude.{◌≡◌, codes};
ghost use Rattle.irc_line.specs.Messages.{text};
ghost use Rattle.irc_line.specs.PartViews.{words_now};
ghost use Rattle.irc_doorman.specs.Texts.{bad_password, closing, lacking, ping, reply_parts};

use irc_line::{Line, Parts, Prefix, Text, write_message};
use irc_names::{ServerName, copied};

/// How a client is named that has no nickname.
const NO_NAME: &[u8] = b"*";

/// That a PASS wants a password (RFC 2812 section 5.2, 461).
pub(crate) fn lacking_text(server: &ServerName) -> Text
    ensures { result.items ≡ text (lacking server.now) }
{
    reply(
        server.as_bytes(),
        b"461",
        &[NO_NAME, b"PASS"],
        b"Not enough parameters",
    )
}

/// That the password is not right (RFC 2812 section 5.2, 464).
pub(crate) fn bad_password_text(server: &ServerName) -> Text
    ensures { result.items ≡ text (bad_password server.now) }
{
    reply(server.as_bytes(), b"464", &[NO_NAME], b"Password incorrect")
}

fn reply<'x>(server: &'x [u8], number: &'x [u8], words: &'x [&'x [u8]], last: &'x [u8]) -> Text
    ensures { result.items
        ≡ text (reply_parts server.now number.now (words_now words.now) last.now) }
{
    write_message(&Parts {
        prefix: Prefix::Name(server),
        command: number,
        middle: words,
        last: Some(last),
    })
}

/// The last line for who is turned away (RFC 2812 section 3.7.4; the words are our own).
pub(crate) fn closing_text() -> Text
    ensures { result.items ≡ text closing }
{
    write_message(&Parts {
        prefix: Prefix::Nothing,
        command: b"ERROR",
        middle: &[],
        last: Some(b"Closing link (Bad password)"),
    })
}

/// What asks a client whether it is there (RFC 2812 section 3.7.2).
pub(crate) fn ping_text(server: &ServerName) -> Text
    ensures { result.items ≡ text (ping server.now) }
{
    write_message(&Parts {
        prefix: Prefix::Nothing,
        command: b"PING",
        middle: &[],
        last: Some(server.as_bytes()),
    })
}

/// The line that the server is given of a client that does not answer (RFC 2812 section 3.1.7).
pub(crate) fn quit_line() -> Line
    ensures { result.items ≡ codes "QUIT :Ping timeout" }
{
    copied(b"QUIT :Ping timeout")
}
