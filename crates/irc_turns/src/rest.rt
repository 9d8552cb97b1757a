//! Bytes that were read and wait for their turn.
ghost use Rattle.std.specs.Prelude.{◌≡◌, ◌-◌, ◌≤◌, ◌++◌, nat_eq, [], take, drop, length};
ghost use Rattle.std.specs.Prelude.{OnOk, OnErr};
ghost use Rattle.std.specs.List.{prefix_len};
ghost use Rattle.irc_line.specs.Bytes.{is_line_end};
ghost use Rattle.irc_line.specs.Framed.{found_in};
ghost use Rattle.irc_turns.specs.Fronts.{EndsLines, GivesLines, IsFront};

use irc_line::{Framer, Line, laws};
use std::alloc::{AllocError, Global};
use std::marker::Model;

/// Bytes that were read of a socket, and were not given on yet.
#[derive(Drop)]
pub(crate) struct Rest {
    bytes: Vec<u8, Global>,
    /// How many of them were given on.
    given: usize,
}

/// In a clause it is the bytes that are left.
impl Model for Rest {
    ghost use Rattle.std.specs.Prelude.{List, ℕ, ◌≤◌, drop, length};

    ghost Value = { List ℕ };

    ghost view = { λ rest. drop rest.given rest.bytes.items };

    ghost invariant = { λ rest. rest.given ≤ length rest.bytes.items };
}

impl Rest {
    /// Nothing.
    pub fn new(alloc: Global) -> Self
        ensures { result ≡ [] }
    {
        Rest {
            bytes: Vec::new(alloc),
            given: 0,
        }
    }

    /// Whether nothing is left.
    pub fn is_empty(&self) -> bool
        ensures { result ≡ nat_eq 0 (length self.now) }
    {
        self.given >= self.bytes.len()
    }

    /// Keeps bytes, in place of what there was.
    ///
    /// # Errors
    /// Where memory runs out: then nothing is kept.
    pub fn keep(&mut self, bytes: &[u8]) -> Result<(), AllocError>
        ensures kept { OnOk result (self.new ≡ bytes.now) }
        ensures none { OnErr result (self.new ≡ []) }
    {
        self.given = 0;
        self.bytes.clear();
        self.bytes.extend_from_slice(bytes)
    }

    /// Gives so many lines on, as far as they fit, to the front of a buffer, and tells how many
    /// bytes they are: as [`front_of`] counts them.
    pub fn give(&mut self, buffer: &mut [u8], lines: usize) -> usize
        ensures count { GivesLines lines (length buffer.old) self.old result }
        ensures given { buffer.new ≡ take result self.old ++ drop result buffer.old }
        ensures left { self.new ≡ drop result self.old }
    {
        let left = &self.bytes[self.given..];
        let count = front_of(left, lines).min(buffer.len());
        buffer[..count].copy_from_slice(&left[..count]);
        self.take_off(count);
        count
    }

    /// So many bytes were given on.
    fn take_off(&mut self, count: usize)
        requires { count ≤ length self.old }
        ensures { self.new ≡ drop count self.old }
    {
        self.given += count;
        if self.is_empty() {
            self.forget();
        }
    }

    /// Nothing is left, and takes no memory.
    fn forget(&mut self)
        ensures { self.new ≡ [] }
    {
        self.given = 0;
        self.bytes.clear();
        self.bytes.shrink_to_fit();
    }
}

/// How many bytes at the front are so many lines, or one, or all where they are fewer. Lines are
/// those of the protocol: a CR and an LF end one each, and where no byte, or a NUL, stands before
/// that it counts for nothing. All line ends behind the last line are of it.
pub(crate) fn front_of(bytes: &[u8], lines: usize) -> usize
    ensures { IsFront lines bytes.now result }
{
    laws::pieces_complete_the_same();
    let ended = ended_at(bytes, lines.max(1));
    ended + ends_in_front(&bytes[ended..])
}

/// Where so many lines have ended; behind all bytes, where they are fewer.
fn ended_at(bytes: &[u8], lines: usize) -> usize
    ensures { EndsLines lines bytes.now result }
{
    let mut framer = Framer::new();
    let mut used = 0;
    let mut left = lines;
    while used < bytes.len() && left > 0 {
        let (more, line) = framer.take(&bytes[used..]);
        used += more;
        left = less_one(left, &line);
    }
    used
}

/// One less where a line was found.
fn less_one(left: usize, line: &Option<Line>) -> usize
    ensures { result ≡ left - length (found_in line.now) }
{
    match line {
        Some(_) => left.saturating_sub(1),
        None => left,
    }
}

/// How many line ends stand in front.
fn ends_in_front(bytes: &[u8]) -> usize
    ensures within { result ≤ length bytes.now }
    ensures ends { result ≡ prefix_len is_line_end bytes.now }
{
    for (place, byte) in bytes.iter().enumerate() {
        if *byte != b'\r' && *byte != b'\n' {
            return place;
        }
    }
    bytes.len()
}
