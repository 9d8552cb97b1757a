//! The two lines with which a link begins, read (RFC 2813 section 4.1). Nothing here takes memory.
ghost use Rattle.std.specs.Prelude.{◌≡◌, ◌&&◌, codes};
ghost use Rattle.std.specs.Option.{option_map};
ghost use Rattle.std.specs.Str.{bytes_eq};
ghost use Rattle.irc_line.specs.MessageViews.{parsed};
ghost use Rattle.irc_line.specs.PartViews.{words_now};
ghost use Rattle.irc_link_words.specs.GreetingLines.{agreement, version};
ghost use Rattle.irc_link_words.specs.Loops.Readings.{greeting_told};
ghost use Rattle.irc_link_words.specs.Openings.{greeting_if, greeting_named, greeting_of};
ghost use Rattle.irc_link_words.specs.Openings.{greeting_opens, opening_of, pass_opens};
ghost use Rattle.irc_link_words.specs.Openings.{password_of};
ghost use Rattle.irc_link_words.specs.Openings.{told_first};

use crate::password::Password;
use crate::{AGREEMENT, VERSION, is_command};
use irc_batch::CloseReason;
use irc_line::Message;
use irc_names::ServerName;
use irc_routes::Info;

/// What a line says with which a link begins.
#[derive(Drop)]
pub enum Opening {
    /// PASS: the password that the neighbour gives.
    Password(Password),
    /// SERVER: the neighbour names itself.
    Greeting {
        /// Its name.
        name: ServerName,
        /// How it describes itself.
        info: Info,
    },
}

/// The words by which a neighbour names itself.
#[derive(Drop)]
pub struct Greeting<'a> {
    /// Its name, which may be no server's.
    pub name: &'a [u8],
    /// How it describes itself.
    pub info: Info,
}

/// What a line comes to while the neighbour has not named itself, if it is one with which a link
/// begins: what it says, or why it closes the link.
/// `has_password` is whether the neighbour has given a password.
#[tactic(auto, unfolding(crate::specs::Openings::opening_of))]
pub fn read_opening(
    message: &Message<'_>,
    has_password: bool,
) -> Option<Result<Opening, CloseReason>>
    ensures { result ≡ opening_of has_password (parsed message.now) }
{
    if message.prefix.is_some() {
        None
    } else if is_command(b"PASS", message.command) {
        Some(pass_opening(message.params.as_slice(), has_password))
    } else if is_command(b"SERVER", message.command) {
        Some(greeting_opening(message.params.as_slice(), has_password))
    } else {
        None
    }
}

/// What a PASS of these words comes to: a password is given once.
fn pass_opening(words: &[&[u8]], has_password: bool) -> Result<Opening, CloseReason>
    ensures { result ≡ pass_opens has_password (password_of (words_now words.now)) }
{
    match read_password(words) {
        None => Err(CloseReason::Parameters),
        Some(_) if has_password => Err(CloseReason::Order),
        Some(password) => Ok(Opening::Password(password)),
    }
}

/// The password that the words of a PASS give.
pub fn read_password(words: &[&[u8]]) -> Option<Password>
    ensures { result ≡ password_of (words_now words.now) }
{
    match words {
        [password, version, agreement] if is_agreed(version, agreement) => Password::read(password),
        _ => None,
    }
}

/// Whether a version, and what is agreed on, are ours.
fn is_agreed(given: &[u8], agreed: &[u8]) -> bool
    ensures { result ≡ (bytes_eq given.now version && bytes_eq agreed.now agreement) }
{
    given == VERSION && agreed == AGREEMENT
}

/// What a SERVER of these words comes to, by which the neighbour names itself: it has to have given
/// a password.
fn greeting_opening(words: &[&[u8]], has_password: bool) -> Result<Opening, CloseReason>
    ensures { result ≡ greeting_opens has_password (greeting_of (words_now words.now)) }
{
    match read_greeting(words) {
        None => Err(CloseReason::Parameters),
        Some(greeting) if has_password => named(greeting),
        Some(_) => Err(CloseReason::Order),
    }
}

/// The neighbour names itself; what is no server's name is no peer's.
fn named(greeting: Greeting<'_>) -> Result<Opening, CloseReason>
    ensures { result ≡ greeting_named (greeting_told greeting.entry) }
{
    match ServerName::read(greeting.name) {
        Some(name) => Ok(Opening::Greeting {
            name,
            info: greeting.info,
        }),
        None => Err(CloseReason::UnknownPeer),
    }
}

/// The name and the description that the words of a SERVER give, by which a neighbour names itself.
pub fn read_greeting<'a>(words: &[&'a [u8]]) -> Option<Greeting<'a>>
    ensures { option_map greeting_told result ≡ greeting_of (words_now words.now) }
{
    match words {
        [name, distance, token, info] if is_one(distance) && is_one(token) => {
            described(name, info)
        }
        _ => None,
    }
}

/// The same, where the description keeps its rule.
fn described<'a>(name: &'a [u8], info: &[u8]) -> Option<Greeting<'a>>
    ensures { option_map greeting_told result ≡ greeting_if (name.now, info.now) }
{
    match Info::read(info) {
        Some(info) => Some(Greeting { name, info }),
        None => None,
    }
}

fn is_one(word: &[u8]) -> bool
    ensures { result ≡ bytes_eq word.now (codes "1") }
{
    word == b"1".as_slice()
}

/// A reason that is told before that a line is out of its place, or this.
pub fn told_first(reason: CloseReason) -> CloseReason
    ensures { result ≡ told_first reason }
{
    match reason {
        CloseReason::UnknownCommand => CloseReason::UnknownCommand,
        CloseReason::Parameters => CloseReason::Parameters,
        _ => CloseReason::Order,
    }
}
