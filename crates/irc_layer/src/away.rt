//! Lines that tell who is away.
ghost use Rattle.std.specs.Prelude.{◌≡◌};
ghost use Rattle.irc_line.specs.MessageViews.{parsed};
ghost use Rattle.irc_line.specs.Reading.{read_of};
ghost use Rattle.irc_crossing.specs.Lines.{word_at};
ghost use Rattle.irc_layer.specs.Away.{is_away_line, is_away_read, is_away_word};

use crate::holding::first_word;
use irc_line::{Message, parse};
use irc_link_words::{is_command, is_for_channel};

/// Whether a line tells who is away, or is back.
pub(crate) fn tells_away(line: &[u8]) -> bool
    ensures { result ≡ is_away_read (read_of line.now) }
{
    match parse(line) {
        Ok(message) => is_away_line(&message),
        Err(_) => false,
    }
}

fn is_away_line(message: &Message<'_>) -> bool
    ensures { result ≡ is_away_line (parsed message.now) }
{
    is_command(b"MODE", message.command)
        && !is_for_channel(first_word(message))
        && is_away_word(second_word(message))
}

fn second_word<'a>(message: &Message<'a>) -> &'a [u8]
    ensures { result.now ≡ word_at 1 (parsed message.now) }
{
    match message.params.as_slice().get(1) {
        Some(word) => word,
        None => &[],
    }
}

/// Whether a word is of the letters that say so.
fn is_away_word(word: &[u8]) -> bool
    ensures { result ≡ is_away_word word.now }
{
    word == b"+a".as_slice() || word == b"-a".as_slice()
}
