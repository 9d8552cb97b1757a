//! One end of a link on which lines go in pieces.
ghost use Rattle.std.specs.Prelude.{◌≡◌, ◌-◌, IfOk, OnOk};
ghost use Rattle.irc_line.specs.MessageViews.{parsed_result};
ghost use Rattle.irc_pieces.specs.Ends.{after_count, after_line, after_text, ended, heard_count};
ghost use Rattle.irc_pieces.specs.Ends.{heard_line, heard_text, may_begin, nothing_begun, whole};
ghost use Rattle.irc_pieces.specs.Ends.{has_put_out, has_told, with_line};
ghost use Rattle.irc_pieces.specs.Counting.{count_line};
ghost use Rattle.irc_pieces.specs.Tallies.{count_alone, count_for, unread};

use crate::count::{Count, Mark, read_count};
use crate::counts::Counts;
use irc_batch::CloseReason;
use irc_line::{Line, parse};
use std::alloc::{AllocError, Global};
use std::marker::Model;
use std::mem::replace;

/// Lines that go as one.
#[derive(Drop)]
pub struct Piece {
    /// The lines, in order, without their CR LF.
    pub lines: Vec<Line, Global>,
    /// What it says beside them.
    pub mark: Option<Mark>,
}

impl Model for Piece {
    ghost use Rattle.irc_pieces.specs.Pieces.{lines_of, WholePiece};

    ghost Value = { WholePiece };

    ghost view = { λ piece. record { lines = lines_of piece.lines.items; mark = piece.mark } };
}

/// What a line that has come completes.
#[derive(Drop)]
pub enum Heard {
    /// Nothing yet, or it was a count alone.
    Nothing,
    /// A piece.
    Piece(Piece),
    /// It closes the link: what stands in front of a piece has other words, or comes within a
    /// piece, or says that more was read than was put out, or less than before.
    Fault(CloseReason),
}

/// One end of a link: the lines that have come of a piece, and how many pieces there were.
#[derive(Drop)]
pub struct PieceEnd {
    counts: Counts,
    /// How many lines of the piece are still to come; 0 where none has begun.
    left: u64,
    mark: Option<Mark>,
    lines: Vec<Line, Global>,
    /// How many bytes these have.
    bytes: u64,
    alloc: Global,
}

impl Model for PieceEnd {
    ghost use Rattle.irc_pieces.specs.Pieces.{lines_of, CountedEnd};

    ghost Value = { CountedEnd };

    ghost view = { λ end. record {
      counts = end.counts;
      left = end.left;
      mark = end.mark;
      lines = lines_of end.lines.items;
      bytes = end.bytes;
    } };
}

impl PieceEnd {
    /// That of a link on which nothing has gone.
    pub fn new(alloc: Global) -> Self
        ensures { result ≡ nothing_begun }
    {
        PieceEnd {
            counts: Counts::new(),
            left: 0,
            mark: None,
            lines: Vec::new(alloc),
            bytes: 0,
            alloc,
        }
    }

    /// How many pieces there were.
    pub fn counts(&self) -> &Counts
        ensures { result.now ≡ self.now.counts }
    {
        &self.counts
    }

    /// How many pieces the other end had not read when it wrote its last count.
    pub fn unread(&self) -> u64
        ensures { result ≡ unread self.now.counts }
    {
        self.counts.unread()
    }

    /// A piece of so many lines is put out: what is to stand in front of it. Nothing is where all
    /// that was read is told, and the piece is one line and says no more.
    pub fn put_out(&mut self, lines: u64, mark: Option<Mark>) -> Option<Count>
        ensures count { result ≡ count_for lines mark self.old.counts }
        ensures counted { self.new ≡ has_put_out self.old }
    {
        self.counts.put_out(lines, mark)
    }

    /// The count alone, where so much was read and not told that it is to be.
    pub fn put_out_alone(&mut self) -> Option<Count>
        ensures count { result ≡ count_alone self.old.counts }
        ensures counted { self.new ≡ has_told self.old }
    {
        self.counts.put_out_alone()
    }

    /// Takes a line that has come, without its CR LF: what it completes.
    ///
    /// # Errors
    /// Where memory runs out.
    pub fn hear(&mut self, line: Line) -> Result<Heard, AllocError>
        ensures heard { IfOk result (λ heard. heard ≡ heard_line line.items self.old) }
        ensures after { OnOk result (self.new ≡ after_line line.items self.old) }
    {
        match count_of(&line) {
            Some(count) => Ok(self.begin(count)),
            None => self.take(line),
        }
    }

    /// A piece begins, if it may.
    fn begin(&mut self, count: Result<Count, CloseReason>) -> Heard
        ensures heard { result ≡ heard_count count self.old }
        ensures after { self.new ≡ after_count count self.old }
    {
        match count {
            Err(reason) => Heard::Fault(reason),
            Ok(count) if !self.may_begin(&count) => Heard::Fault(CloseReason::Parameters),
            Ok(count) => {
                self.counts.take(count.read);
                self.left = count.lines;
                self.mark = count.mark;
                Heard::Nothing
            }
        }
    }

    /// Whether a piece may begin here, and the other end may have read so many.
    fn may_begin(&self, count: &Count) -> bool
        ensures { result ≡ may_begin count.now self.now }
    {
        self.left == 0 && self.counts.is_possible(count.read)
    }

    /// Takes a line of a piece.
    fn take(&mut self, line: Line) -> Result<Heard, AllocError>
        ensures heard { IfOk result
            (λ heard. heard ≡ heard_text self.old.left line.items self.old) }
        ensures after { OnOk result (self.new ≡ after_text self.old.left line.items self.old) }
    {
        self.push(line)?;
        if self.left > 0 {
            Ok(Heard::Nothing)
        } else {
            Ok(Heard::Piece(self.end()))
        }
    }

    /// One line more is there.
    fn push(&mut self, line: Line) -> Result<(), AllocError>
        ensures { OnOk result (self.new ≡ with_line (self.old.left - 1) line.items self.old) }
    {
        self.left = self.left.saturating_sub(1);
        self.bytes = self.bytes.saturating_add(line.len() as u64);
        match self.lines.push(line) {
            Ok(()) => Ok(()),
            Err(_) => Err(AllocError),
        }
    }

    /// The piece is whole.
    fn end(&mut self) -> Piece
        ensures piece { result ≡ record { lines = self.old.lines; mark = self.old.mark } }
        ensures after { self.new ≡ ended self.old }
    {
        self.counts.read_one(self.bytes);
        self.left = 0;
        self.bytes = 0;
        Piece {
            lines: replace(&mut self.lines, Vec::new(self.alloc)),
            mark: self.mark.take(),
        }
    }
}

/// The count that a line is, if it is meant as one.
fn count_of(line: &[u8]) -> Option<Result<Count, CloseReason>>
    ensures { result ≡ count_line line.now }
{
    match parse(line) {
        Ok(message) => read_count(&message),
        Err(_) => None,
    }
}
