//! Who claims to be at the other end of a link.
ghost use Rattle.std.specs.Prelude.{◌≡◌};
ghost use Rattle.irc_line.specs.MessageViews.{parsed};
ghost use Rattle.irc_line.specs.PartViews.{words_now};
ghost use Rattle.irc_journal.specs.Claims.{claim_of, claimed_in, first_name, name_in, names_server};

use irc_line::{Message, parse};
use irc_names::ServerName;

/// The name that is claimed in a line, if one is.
#[tactic(auto, unfolding(crate::specs::Claims::claimed_in))]
pub(crate) fn claimed_in(line: &[u8]) -> Option<ServerName>
    ensures { result ≡ claimed_in line.now }
{
    match parse(line) {
        Ok(message) => claim_of(&message),
        Err(_) => None,
    }
}

/// The name that is claimed in a message: it is a SERVER, and its first word is a server's name
/// (RFC 2813 section 4.1.2).
fn claim_of(message: &Message<'_>) -> Option<ServerName>
    ensures { result ≡ claim_of (parsed message.now) }
{
    if names_server(message.command) {
        first_name(message.params.as_slice())
    } else {
        None
    }
}

/// Whether a command is SERVER, in any case of letters.
fn names_server(command: &[u8]) -> bool
    ensures { result ≡ names_server command.now }
{
    command.eq_ignore_ascii_case(b"SERVER")
}

/// The name that the first of these words is, if it is a server's.
fn first_name(words: &[&[u8]]) -> Option<ServerName>
    ensures { result ≡ first_name (words_now words.now) }
{
    match words {
        [word, ..] => name_in(word),
        [] => None,
    }
}

/// The name that a word is, if it is a server's.
fn name_in(word: &[u8]) -> Option<ServerName>
    ensures { result ≡ name_in word.now }
{
    ServerName::read(word)
}
