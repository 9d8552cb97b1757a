//! One direction of a link: bytes on their way, and what becomes of them at the far end.
ghost use Rattle.std.specs.Prelude.{◌≡◌, ◌<◌, ◌≤◌, ◌+◌, true, ◌++◌, drop, length, IfOk, OnErr};
ghost use Rattle.std.specs.Prelude.{OnOk};
ghost use Rattle.irc_line.specs.Bytes.{crlf};
ghost use Rattle.irc_line.specs.Limits.{max_line, max_text};
ghost use Rattle.irc_line.specs.Lines.{HasTaken, stream_for};
ghost use Rattle.irc_line.specs.Framed.{bytes_of, found_in};
ghost use Rattle.irc_pipes.specs.Pipes.{Yields, advanced, come_by, has_byte, is_still, lines_by};
ghost use Rattle.irc_pipes.specs.Pipes.{new_pipe, through_line_feed, written};
ghost use Rattle.irc_pipes.specs.Loops.Parts.{IsPartOfOldest, IsWithinOldest, all_end_in_feed};
ghost use Rattle.irc_pipes.specs.Loops.Parts.{joined, rest_of_oldest};

use irc_line::laws::pieces_complete_the_same;
use irc_line::{Framer, Line, Text};
use irc_names::{copied, first_bytes};
use std::alloc::{AllocError, Global};
use std::collections::LinkedList;
use std::marker::Model;

const LINE_END: &[u8] = b"\r\n";

const LINE_FEED: u8 = b'\n';

/// One direction of a link: what is on its way, and the framer at its far end.
#[derive(Drop)]
pub struct LinkPipe {
    /// What was written, each a line with its CR LF, the oldest first.
    texts: LinkedList<Text, Global>,
    /// How many bytes of the oldest have come to the far end.
    come: usize,
    framer: Framer,
}

/// In a clause it is the bytes that are on their way, and what the framer has of a line.
impl Model for LinkPipe {
    ghost use Rattle.std.specs.Prelude.{drop};
    ghost use Rattle.irc_pipes.specs.Pipes.{LinkPipe};
    ghost use Rattle.irc_pipes.specs.Loops.Parts.{joined, IsOnItsWay};

    ghost Value = { LinkPipe };

    ghost view = { λ pipe. record {
      begun = pipe.framer;
      bytes = drop pipe.come (joined pipe.texts);
    } };

    ghost invariant = { λ pipe. IsOnItsWay pipe.come pipe.texts pipe.framer };
}

impl LinkPipe {
    /// One along which nothing was written yet.
    pub fn new(alloc: Global) -> Self
        ensures { result ≡ new_pipe }
    {
        LinkPipe {
            texts: LinkedList::new(alloc),
            come: 0,
            framer: Framer::new(),
        }
    }

    /// A line without its CR LF is written behind what is on its way, with its CR LF.
    ///
    /// # Errors
    /// Where memory runs out; nothing has changed then.
    pub fn write(&mut self, line: &[u8]) -> Result<(), AllocError>
        requires fits { length line.now ≤ max_line }
        ensures ok { OnOk result (self.new ≡ written line.now self.old) }
        ensures refused { OnErr result (self.new ≡ self.old) }
    {
        match self.texts.push_back(ended(line)) {
            Ok(()) => Ok(()),
            Err(_) => Err(AllocError),
        }
    }

    /// Whether a byte is on its way.
    pub fn has_byte(&self) -> bool
        ensures { result ≡ has_byte self.now }
    {
        !self.texts.is_empty()
    }

    /// Whether no byte is on its way, and no part of a line has come.
    pub fn is_still(&self) -> bool
        ensures { result ≡ is_still self.now }
    {
        self.texts.is_empty() && self.framer.is_empty()
    }

    /// How many bytes are on their way up to and with the next LF; none where no byte is.
    pub fn through_line_feed(&self) -> usize
        ensures { result ≡ through_line_feed self.now.bytes }
    {
        through_first_feed(rest_of_oldest(&self.texts, self.come))
    }

    /// So many bytes come to the far end, or all where there are fewer, and each line that they
    /// complete is put behind the others. The number is how many have come.
    ///
    /// # Errors
    /// Where memory runs out.
    pub fn take(&mut self, count: usize, lines: &mut Vec<Line, Global>) -> Result<usize, AllocError>
        ensures taken { IfOk result (λ taken. taken ≡ come_by count self.old) }
        ensures pipe { OnOk result (self.new ≡ advanced count self.old) }
        ensures lines { OnOk result (Yields count self.old lines.old lines.new) }
    {
        let mut taken = 0;
        self.is_of_some_stream();
        pieces_complete_the_same();
        while taken < count && self.has_byte() {
            let (used, line) = self.take_part(count - taken);
            taken += used;
            push_found(lines, line)?;
        }
        Ok(taken)
    }

    /// Says what the framer of each pipe keeps, and does nothing: some stream leads to it.
    fn is_of_some_stream(&self)
        ensures { HasTaken self.now.begun (stream_for self.now.begun) }
    {
        let _come = self.come;
    }

    /// At most so many bytes of the oldest text come to the far end, up to the end of the next
    /// line, and this is that line. The number is how many have come.
    fn take_part(&mut self, most: usize) -> (usize, Option<Line>)
        ensures at_most { result.0 ≤ most }
        ensures within { result.0 ≤ length self.old.bytes }
        ensures some { 0 < most → 0 < length self.old.bytes → 0 < result.0 }
        ensures pipe { self.new ≡ advanced result.0 self.old }
        ensures lines { found_in result.1 ≡ lines_by result.0 self.old }
    {
        pieces_complete_the_same();
        let piece = first_bytes(rest_of_oldest(&self.texts, self.come), most);
        let (used, line) = self.framer.take(piece);
        self.come = without_come(&mut self.texts, self.come + used);
        (used, line)
    }
}

/// What has not come of the oldest text, where so many of its bytes have.
fn rest_of_oldest(texts: &LinkedList<Text, Global>, come: usize) -> &[u8]
    requires within { IsWithinOldest come texts.now }
    ensures value { result.now ≡ rest_of_oldest come texts.now }
    ensures fits { come + length result.now ≤ max_text }
{
    match texts.front() {
        Some(text) => &text[come..],
        None => &[],
    }
}

/// The oldest text goes where all of it has come, of which so many bytes have. The number is how
/// many have come of that which is the oldest then.
fn without_come(texts: &mut LinkedList<Text, Global>, come: usize) -> usize
    requires within { IsWithinOldest come texts.old }
    requires feeds { all_end_in_feed texts.old ≡ true }
    ensures bytes { drop result (joined texts.new) ≡ drop come (joined texts.old) }
    ensures part { IsPartOfOldest result texts.new }
    ensures feeds { all_end_in_feed texts.new ≡ true }
{
    if come < rest_of_oldest(texts, 0).len() {
        return come;
    }
    texts.pop_front();
    0
}

/// How many bytes there are up to and with the first LF, or in all.
fn through_first_feed(bytes: &[u8]) -> usize
    ensures { result ≡ through_line_feed bytes.now }
{
    for (i, byte) in bytes.iter().enumerate() {
        if *byte == LINE_FEED {
            return i + 1;
        }
    }
    bytes.len()
}

/// Puts the line behind the others, if there is one.
fn push_found(lines: &mut Vec<Line, Global>, line: Option<Line>) -> Result<(), AllocError>
    ensures { OnOk result (bytes_of lines.new.items ≡ bytes_of lines.old.items ++ found_in line) }
{
    if let Some(line) = line {
        lines.push(line)?;
    }
    Ok(())
}

/// A line with its CR LF.
fn ended(line: &[u8]) -> Text
    requires fits { length line.now ≤ max_line }
    ensures { result.items ≡ line.now ++ crlf }
{
    let mut text: Text = copied(line);
    let Ok(()) = text.try_extend_from_slice(LINE_END) else {
        unreachable!();
    };
    text
}
