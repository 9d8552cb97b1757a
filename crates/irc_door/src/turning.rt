//! A text for a client, as it is written to it.
ghost use Rattle.std.specs.Prelude.{◌≡◌, ◌-◌, ◌++◌};
ghost use Rattle.irc_line.specs.Bytes.{crlf, cut};
ghost use Rattle.irc_line.specs.MessageViews.{optional_now, parsed};
ghost use Rattle.irc_line.specs.Messages.{text};
ghost use Rattle.irc_line.specs.PartViews.{words_now};
ghost use Rattle.irc_door.specs.Turning.{body, cut_at_letter, from, invited_by, invited_parts};
ghost use Rattle.irc_door.specs.Turning.{has_name_last, is_full, last_word};
ghost use Rattle.irc_door.specs.Turning.{nick_parts, refused, turned, turned_by, turned_message};
ghost use Rattle.irc_door.specs.Turning.{says, version_parts, word_at};

use crate::letters::whole_letters;
use crate::supported::supported_text;
use irc_line::limits::MAX_LINE;
use irc_line::{Message, Parts, Prefix, Text, parse, push_cut, write_message};
use irc_link_words::is_command;
use irc_names::{MAX_REAL_NAME, MAX_WORDS};

/// What this program calls itself, as 004 has it.
const VERSION: &[u8] = b"treeircd-1";

/// The least length of the last parameter of a 352 whose real name may have been cut: a digit, a
/// space, and the real name.
const LEAST_WITH_NAME: usize = MAX_REAL_NAME + 2;

/// What is written to a client in place of a text.
#[derive(Drop)]
pub(crate) enum Turned {
    /// The text as it is.
    AsItIs,
    /// This one, with its CR LF.
    Instead(Text),
    /// The text, and this one behind it.
    Behind(Text),
}

/// What is written in place of a text, which is whole with its CR LF.
pub(crate) fn turn(line: &[u8]) -> Turned
    ensures { result ≡ turned line.now }
{
    let line = body(line);
    match parse(line) {
        Ok(message) => turn_message(line, &message),
        Err(_) => Turned::AsItIs,
    }
}

fn turn_message(line: &[u8], message: &Message<'_>) -> Turned
    ensures { result ≡ turned_message line.now (parsed message.now) }
{
    match message.prefix {
        Some(sender) => turn_from(line, message, sender),
        None => Turned::AsItIs,
    }
}

/// What is written in place of what somebody says.
fn turn_from(line: &[u8], message: &Message<'_>, sender: &[u8]) -> Turned
    ensures { result ≡ turned_by line.now (parsed message.now) sender.now }
{
    if says(b"004", message) {
        Turned::Behind(supported_text(sender, word_at(message, 0)))
    } else if says(b"341", message) {
        Turned::Instead(invited_text(sender, message))
    } else if says(b"NICK", message) {
        Turned::Instead(nick_text(sender, word_at(message, 0)))
    } else if says(b"421", message) {
        refused(sender, message)
    } else if is_full(line, message) {
        cut_at_letter(line)
    } else {
        Turned::AsItIs
    }
}

/// 341 with the nickname first, as programs read it.
fn invited_text(sender: &[u8], message: &Message<'_>) -> Text
    ensures { result.items ≡ text (invited_parts sender.now (parsed message.now)) }
{
    invited(
        sender,
        word_at(message, 0),
        word_at(message, 2),
        word_at(message, 1),
    )
}

fn invited<'x>(sender: &'x [u8], doer: &'x [u8], nick: &'x [u8], channel: &'x [u8]) -> Text
    ensures { result.items ≡ text (invited_by sender.now doer.now nick.now channel.now) }
{
    reply(sender, b"341", &[doer, nick, channel], None)
}

/// NICK with a colon before the nickname.
fn nick_text(sender: &[u8], nick: &[u8]) -> Text
    ensures { result.items ≡ text (nick_parts sender.now nick.now) }
{
    reply(sender, b"NICK", &[], Some(nick))
}

/// A line from somebody, with its CR LF.
pub(crate) fn reply(sender: &[u8], command: &[u8], middle: &[&[u8]], last: Option<&[u8]>) -> Text
    ensures { result.items ≡ text (from sender.now command.now (words_now middle.now)
        (optional_now last.entry)) }
{
    write_message(&Parts {
        prefix: Prefix::Name(sender),
        command,
        middle,
        last,
    })
}

/// What is written in place of a refusal: of VERSION what was asked for.
fn refused(sender: &[u8], message: &Message<'_>) -> Turned
    ensures { result ≡ refused sender.now (parsed message.now) }
{
    if is_command(b"VERSION", word_at(message, 1)) {
        Turned::Instead(version_text(sender, word_at(message, 0)))
    } else {
        Turned::AsItIs
    }
}

fn version_text<'x>(server: &'x [u8], nick: &'x [u8]) -> Text
    ensures { result.items ≡ text (version_parts server.now nick.now) }
{
    reply(
        server,
        b"351",
        &[nick, VERSION, server],
        Some(b"RFC 2811, 2812 and 2813 in a profile"),
    )
}

/// Whether a line may have been cut: it is as long as one may be, or ends in words as long as those
/// are kept.
fn is_full(line: &[u8], message: &Message<'_>) -> bool
    ensures { result ≡ is_full line.now (parsed message.now) }
{
    let last = last_word(message).len();
    line.len() == MAX_LINE
        || last == MAX_WORDS
        || (has_name_last(message) && last == MAX_REAL_NAME)
        || (says(b"352", message) && last >= LEAST_WITH_NAME)
}

/// Whether a line ends in a real name: the first of what WHOIS is answered.
fn has_name_last(message: &Message<'_>) -> bool
    ensures { result ≡ has_name_last (parsed message.now) }
{
    says(b"311", message)
}

/// A line up to the letter within which it ends, if it ends within one.
fn cut_at_letter(line: &[u8]) -> Turned
    ensures { result ≡ cut_at_letter line.now }
{
    let kept = whole_letters(line);
    if kept.len() < line.len() {
        Turned::Instead(line_of(kept))
    } else {
        Turned::AsItIs
    }
}

/// A line with its CR LF.
fn line_of(line: &[u8]) -> Text
    ensures { result.items ≡ cut line.now ++ crlf }
{
    let mut text = Text::new();
    push_cut(&mut text, line);
    let _ = text.try_extend_from_slice(b"\r\n");
    text
}

/// Whether a line has this number, or this word in its place.
pub(crate) fn says(command: &[u8], message: &Message<'_>) -> bool
    ensures { result ≡ says command.now (parsed message.now) }
{
    message.command == command
}

/// A word of a line; no bytes where the line has fewer.
pub(crate) fn word_at<'a>(message: &Message<'a>, place: usize) -> &'a [u8]
    ensures { result.now ≡ word_at place (parsed message.now) }
{
    match message.params.as_slice().get(place) {
        Some(word) => word,
        None => &[],
    }
}

/// The last word of a line; no bytes where it has none.
fn last_word<'a>(message: &Message<'a>) -> &'a [u8]
    ensures { result.now ≡ last_word (parsed message.now) }
{
    word_at(message, message.params.len().saturating_sub(1))
}

/// A line without its CR LF.
pub(crate) fn body(line: &[u8]) -> &[u8]
    ensures { result.now ≡ body line.now }
{
    &line[..line.len().saturating_sub(2)]
}
