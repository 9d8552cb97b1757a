//! The line in front of a piece.
ghost use Rattle.std.specs.Prelude.{◌≡◌, ◌&&◌, is_some, nat_le};
ghost use Rattle.irc_line.specs.Messages.{text};
ghost use Rattle.irc_line.specs.MessageViews.{parsed};
ghost use Rattle.irc_line.specs.PartViews.{words_now};
ghost use Rattle.irc_pieces.specs.Counting.{count_in, count_of, count_of_words, count_parts};
ghost use Rattle.irc_pieces.specs.Counting.{from_nobody, mark_of, mark_word, may_have};

use irc_batch::CloseReason;
use irc_decimals::read_number;
use irc_line::{Message, Parts, Prefix, Text, write_message};
use itoa::Buffer;

/// The most lines of a piece: so it has no more than 8 KiB (our own choice).
pub const MOST_LINES: u64 = 16;

const COMMAND: &[u8] = b"COUNT";

const SET: &[u8] = b"set";

/// What a piece says beside its lines.
#[derive(Clone, Copy, Debug, Drop, PartialEq, Eq)]
pub enum Mark {
    /// Its lines are of a server, and set what they say, where a MODE and a TOPIC of a server
    /// raise without it: they are of what somebody did who is gone.
    Set,
}

/// The line in front of a piece:
///
///     COUNT 7 2          seven pieces of the other end were read; two lines are one piece
///     COUNT 7 1 set      a piece of one line, which sets what it says
///     COUNT 7 0          nothing comes but the count
#[derive(Clone, Copy, Debug, Drop, PartialEq, Eq)]
pub struct Count {
    /// How many pieces of the other end its writer has read.
    pub read: u64,
    /// How many lines follow: at most [`MOST_LINES`].
    pub lines: u64,
    /// What the piece says beside its lines.
    pub mark: Option<Mark>,
}

impl Mark {
    /// The word for it.
    fn word(self) -> &'static [u8]
        ensures { result.now ≡ mark_word self }
    {
        match self {
            Mark::Set => SET,
        }
    }

    /// What a word is for.
    fn read(word: &[u8]) -> Option<Self>
        ensures { result ≡ mark_of word.now }
    {
        if word == SET { Some(Mark::Set) } else { None }
    }
}

/// The line, with its CR LF.
pub fn count_text(count: Count) -> Text
    ensures { result.items ≡ text (count_parts count) }
{
    let mut read = Buffer::new();
    let mut lines = Buffer::new();
    let read = read.format(count.read).as_bytes();
    let lines = lines.format(count.lines).as_bytes();
    match count.mark {
        Some(mark) => line_of(&[read, lines, mark.word()]),
        None => line_of(&[read, lines]),
    }
}

fn line_of(words: &[&[u8]]) -> Text
    ensures { result.items ≡ text (from_nobody (words_now words.now)) }
{
    write_message(&Parts {
        prefix: Prefix::Nothing,
        command: COMMAND,
        middle: words,
        last: None,
    })
}

/// What a line says as one in front of a piece, if it is meant as one; or the reason for which it
/// closes the link.
pub fn read_count(message: &Message<'_>) -> Option<Result<Count, CloseReason>>
    ensures { result ≡ count_of (parsed message.now) }
{
    if message.prefix.is_some() || message.command != COMMAND {
        return None;
    }
    match words_count(message.params.as_slice()) {
        Some(count) => Some(Ok(count)),
        None => Some(Err(CloseReason::Parameters)),
    }
}

fn words_count(words: &[&[u8]]) -> Option<Count>
    ensures { result ≡ count_of_words (words_now words.now) }
{
    match words {
        [read, lines] => numbers_count(read, lines, None),
        [read, lines, word] => {
            let mark = Mark::read(word)?;
            numbers_count(read, lines, Some(mark))
        }
        _ => None,
    }
}

fn numbers_count(read: &[u8], lines: &[u8], mark: Option<Mark>) -> Option<Count>
    ensures { result ≡ count_in read.now lines.now mark }
{
    let read = read_number(read)?;
    let lines = read_number(lines)?;
    let count = Count { read, lines, mark };
    count.may_be().then_some(count)
}

impl Count {
    /// Whether a piece may have so many lines, and this mark.
    fn may_be(&self) -> bool
        ensures { result ≡ may_have self.now }
    {
        self.lines <= MOST_LINES && (self.mark.is_none() || self.lines > 0)
    }
}
