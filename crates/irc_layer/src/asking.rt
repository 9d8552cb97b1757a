//! The line by which one end asks the other to tell of a channel: `TELL #c`.
ghost use Rattle.std.specs.Prelude.{◌≡◌};
ghost use Rattle.irc_line.specs.MessageViews.{parsed};
ghost use Rattle.irc_line.specs.Messages.{text};
ghost use Rattle.irc_line.specs.PartViews.{words_now};
ghost use Rattle.irc_line.specs.Reading.{read_of};
ghost use Rattle.irc_layer.specs.Asking.{asked_by, asked_in, tell_line, tell_parts};

use crate::holding::first_word;
use irc_line::{Message, Parts, Prefix, Text, parse, write_message};
use irc_link_words::is_command;
use irc_names::ChannelName;

/// The line that asks of a channel, with its CR LF.
pub(crate) fn tell_text(channel: &ChannelName) -> Text
    ensures { result.items ≡ text (tell_parts channel.now) }
{
    tell_line(&[channel.as_bytes()])
}

fn tell_line(words: &[&[u8]]) -> Text
    ensures { result.items ≡ text (tell_line (words_now words.now)) }
{
    write_message(&Parts {
        prefix: Prefix::Nothing,
        command: b"TELL",
        middle: words,
        last: None,
    })
}

/// The channel that a line asks of, if it is such a line.
pub(crate) fn asked_by(line: &[u8]) -> Option<ChannelName>
    ensures { result ≡ asked_by (read_of line.now) }
{
    match parse(line) {
        Ok(message) => asked_in(&message),
        Err(_) => None,
    }
}

fn asked_in(message: &Message<'_>) -> Option<ChannelName>
    ensures { result ≡ asked_in (parsed message.now) }
{
    if message.prefix.is_none() && is_command(b"TELL", message.command) {
        ChannelName::read(first_word(message))
    } else {
        None
    }
}
