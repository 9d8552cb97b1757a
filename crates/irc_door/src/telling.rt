//! A message of the day, as it is told in place of 422.
ghost use Rattle.std.specs.Prelude.{◌≡◌, ◌++◌, OnOk, codes, map, option_map, string_bytes};
ghost use Rattle.irc_line.specs.Bytes.{cut};
ghost use Rattle.irc_line.specs.MessageViews.{parsed};
ghost use Rattle.irc_line.specs.Messages.{text};
ghost use Rattle.irc_door.specs.Doors.{to_client};
ghost use Rattle.irc_door.specs.MessagesOfTheDay.{beginning, ending, line_told, lines_of};
ghost use Rattle.irc_door.specs.MessagesOfTheDay.{message_told, missing_told, missing_from};
ghost use Rattle.irc_door.specs.MessagesOfTheDay.{reply_to, told_of};

use crate::motd::Motd;
use crate::turning::{body, reply, says, word_at};
use irc_batch::Batch;
use irc_line::{Message, Text, parse, push_cut};
use std::alloc::AllocError;

/// To whom a server says something.
#[derive(Clone, Copy)]
pub(crate) struct Hearer<'a> {
    pub server: &'a [u8],
    pub nick: &'a [u8],
}

/// To whom a text says that there is no message, if it is 422.
pub(crate) fn missing_told(line: &[u8]) -> Option<Hearer<'_>>
    ensures { option_map told_of result ≡ missing_told line.now }
{
    match parse(body(line)) {
        Ok(message) => missing_from(&message),
        Err(_) => None,
    }
}

fn missing_from<'a>(message: &Message<'a>) -> Option<Hearer<'a>>
    ensures { option_map told_of result
        ≡ missing_from (parsed message.now) (parsed message.now).prefix }
{
    let server = message.prefix?;
    if says(b"422", message) {
        Some(Hearer {
            server,
            nick: word_at(message, 0),
        })
    } else {
        None
    }
}

/// Tells a message to a client, line by line.
pub(crate) fn tell(
    motd: &Motd,
    hearer: &Hearer<'_>,
    conn: u64,
    out: &mut Batch,
) -> Result<(), AllocError>
    ensures { OnOk result (out.new.outs ≡ out.old.outs
        ++ to_client conn (message_told (told_of hearer.now) (lines_of motd.now))) }
{
    out.put(conn, beginning(hearer).as_slice())?;
    tell_lines(&motd.lines, hearer, conn, out)?;
    out.put(conn, ending(hearer).as_slice())
}

fn tell_lines(
    lines: &[String],
    hearer: &Hearer<'_>,
    conn: u64,
    out: &mut Batch,
) -> Result<(), AllocError>
    ensures { OnOk result (out.new.outs ≡ out.old.outs
        ++ to_client conn (map (line_told (told_of hearer.now)) (map string_bytes lines.now))) }
{
    for line in lines {
        out.put(conn, line_told(hearer, line.as_bytes()).as_slice())?;
    }
    Ok(())
}

/// 375.
fn beginning(hearer: &Hearer<'_>) -> Text
    ensures { result.items ≡ beginning (told_of hearer.now) }
{
    let words = behind_dash(hearer.server, b" Message of the day - ");
    numbered(hearer, b"375", words.as_slice())
}

/// 372.
fn line_told(hearer: &Hearer<'_>, line: &[u8]) -> Text
    ensures { result.items ≡ line_told (told_of hearer.now) line.now }
{
    let words = behind_dash(line, b"");
    numbered(hearer, b"372", words.as_slice())
}

/// 376.
fn ending(hearer: &Hearer<'_>) -> Text
    ensures { result.items ≡ ending (told_of hearer.now) }
{
    numbered(hearer, b"376", b"End of MOTD command")
}

/// A reply of that server to that client.
fn numbered(hearer: &Hearer<'_>, number: &[u8], last: &[u8]) -> Text
    ensures { result.items ≡ text (reply_to (told_of hearer.now) number.now last.now) }
{
    reply(hearer.server, number, &[hearer.nick], Some(last))
}

/// Words behind a dash, as far as a line has room.
fn behind_dash(words: &[u8], more: &[u8]) -> Text
    ensures { result.items ≡ cut (codes "- " ++ (words.now ++ more.now)) }
{
    let mut text = Text::new();
    push_cut(&mut text, b"- ");
    push_cut(&mut text, words);
    push_cut(&mut text, more);
    text
}
