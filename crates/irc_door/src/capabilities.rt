//! What a program is answered that negotiates capabilities.
ghost use Rattle.std.specs.Prelude.{◌≡◌, ◌++◌, ◌∷◌, [], OnOk, Some, option_map};
ghost use Rattle.irc_line.specs.MessageViews.{parsed};
ghost use Rattle.irc_line.specs.Messages.{text};
ghost use Rattle.irc_line.specs.Reading.{read_of};
ghost use Rattle.irc_door.specs.Capabilities.{asked_by, asked_in, asked_now, asked_of};
ghost use Rattle.irc_door.specs.Capabilities.{asked_read, cap_answer, cap_answers, cap_other};
ghost use Rattle.irc_door.specs.Capabilities.{cap_reply, refused_from, refused_told};
ghost use Rattle.irc_door.specs.Doors.{to_client};
ghost use Rattle.irc_door.specs.MessagesOfTheDay.{told_of};
ghost use Rattle.irc_door.specs.Turning.{from};

use crate::telling::Hearer;
use crate::turning::{body, reply, says, word_at};
use irc_batch::Batch;
use irc_line::{Line, Message, Text, parse};
use irc_link_words::is_command;
use irc_routes::Programs;
use irc_server::Event;
use std::alloc::AllocError;

/// A line CAP of a client.
#[derive(Clone, Copy)]
pub(crate) struct CapLine<'a> {
    pub conn: u64,
    /// Its first word; no bytes where it has none.
    pub word: &'a [u8],
    /// Its second, likewise.
    pub words: &'a [u8],
}

/// The line CAP that an event is, where programs are told what they expect.
pub(crate) fn asked_of(programs: Programs, event: &Event) -> Option<CapLine<'_>>
    ensures { option_map asked_now result ≡ asked_of programs event.now }
{
    match programs {
        Programs::Off => None,
        Programs::On => asked_in(event),
    }
}

fn asked_in(event: &Event) -> Option<CapLine<'_>>
    ensures { option_map asked_now result ≡ asked_in event.now }
{
    match event {
        Event::Line(conn, line) => asked_read(*conn, line),
        Event::Connect(_, _)
        | Event::Gone(_)
        | Event::LinkUp(_, _)
        | Event::LinkLine(_, _)
        | Event::LinkDown(_) => None,
    }
}

fn asked_read(conn: u64, line: &Line) -> Option<CapLine<'_>>
    ensures { option_map asked_now result ≡ asked_read conn (read_of line.now.items) }
{
    match parse(line.as_slice()) {
        Ok(message) => asked_by(conn, &message),
        Err(_) => None,
    }
}

fn asked_by<'a>(conn: u64, message: &Message<'a>) -> Option<CapLine<'a>>
    ensures { option_map asked_now result ≡ asked_by conn (parsed message.now) }
{
    if is_command(b"CAP", message.command) {
        Some(CapLine {
            conn,
            word: word_at(message, 0),
            words: word_at(message, 1),
        })
    } else {
        None
    }
}

/// To whom a text says that its line is refused, if it does.
pub(crate) fn refused_told(line: &[u8]) -> Option<Hearer<'_>>
    ensures { option_map told_of result ≡ refused_told line.now }
{
    match parse(body(line)) {
        Ok(message) => refused_from(&message),
        Err(_) => None,
    }
}

fn refused_from<'a>(message: &Message<'a>) -> Option<Hearer<'a>>
    ensures { option_map told_of result
        ≡ refused_from (parsed message.now) (parsed message.now).prefix }
{
    let server = message.prefix?;
    if says(b"421", message) || says(b"451", message) {
        Some(Hearer {
            server,
            nick: word_at(message, 0),
        })
    } else {
        None
    }
}

/// Answers a line CAP.
pub(crate) fn answer(
    hearer: &Hearer<'_>,
    asked: &CapLine<'_>,
    out: &mut Batch,
) -> Result<(), AllocError>
    ensures { OnOk result (out.new.outs ≡ out.old.outs
        ++ to_client asked.now.conn (cap_answers (told_of hearer.now) (asked_now asked.now))) }
{
    if is_command(b"END", asked.word) {
        return Ok(());
    }
    out.put(asked.conn, cap_answer(hearer, asked).as_slice())
}

fn cap_answer(hearer: &Hearer<'_>, asked: &CapLine<'_>) -> Text
    ensures { result.items ≡ text (cap_answer (told_of hearer.now) (asked_now asked.now)) }
{
    if is_command(b"LS", asked.word) {
        cap_reply(hearer, b"LS", b"")
    } else if is_command(b"LIST", asked.word) {
        cap_reply(hearer, b"LIST", b"")
    } else if is_command(b"REQ", asked.word) {
        cap_reply(hearer, b"NAK", asked.words)
    } else {
        cap_other(hearer, asked.word)
    }
}

fn cap_reply(hearer: &Hearer<'_>, word: &[u8], words: &[u8]) -> Text
    ensures { result.items ≡ text (cap_reply (told_of hearer.now) word.now words.now) }
{
    said_to(hearer.server, b"CAP", hearer.nick, word, words)
}

fn cap_other(hearer: &Hearer<'_>, word: &[u8]) -> Text
    ensures { result.items ≡ text (cap_other (told_of hearer.now) word.now) }
{
    if word.is_empty() {
        said_to(
            hearer.server,
            b"461",
            hearer.nick,
            b"CAP",
            b"Not enough parameters",
        )
    } else {
        said_to(
            hearer.server,
            b"410",
            hearer.nick,
            word,
            b"Invalid CAP command",
        )
    }
}

fn said_to<'x>(
    server: &'x [u8],
    command: &'x [u8],
    nick: &'x [u8],
    word: &'x [u8],
    words: &'x [u8],
) -> Text
    ensures { result.items ≡ text (from server.now command.now (nick.now ∷ word.now ∷ [])
        (Some words.now)) }
{
    reply(server, command, &[nick, word], Some(words))
}
