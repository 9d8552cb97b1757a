//! The lines of a byte stream that comes in pieces.
ghost use Rattle.std.specs.Prelude.{◌≡◌, ℕ, ◌<◌, ◌≤◌, Bool, true, false, [], ◌++◌, length, take};
ghost use Rattle.std.specs.Prelude.{slice_index, map, IsNone, IfSome, IfOk, OnOk};
ghost use Rattle.std.specs.List.{list_any, flat_map};
ghost use Rattle.irc_line.specs.Bytes.{is_line_end, has_nul};
ghost use Rattle.irc_line.specs.Lines.{lines, has_nothing, nothing_begun, stream_for, HasTaken};
ghost use Rattle.irc_line.specs.Lines.{Takes, TellsTail, EndsNoLine, IsLine};
ghost use Rattle.irc_line.specs.Loops.Framing.{go_on, HasEnded, IsReady, TakesRun, TakesPiece};
ghost use Rattle.irc_line.specs.Framed.{found_in, bytes_of};

use crate::cutting::push_cut;
use crate::limits::MAX_LINE;
use arrayvec::ArrayVec;
use std::alloc::{AllocError, Global};
use std::marker::Model;

/// A line without its line end. Those that a [`Framer`] gives have 1 to [`MAX_LINE`] bytes, and no
/// NUL, CR or LF.
pub type Line = ArrayVec<u8, MAX_LINE>;

const CARRIAGE_RETURN: u8 = b'\r';

const LINE_FEED: u8 = b'\n';

const NUL: u8 = 0;

/// Cuts a byte stream into lines, whatever pieces it comes in (RFC 2812 section 2.3, read
/// leniently: each CR and each LF ends a line, empty lines and lines with a NUL are dropped, and a
/// longer line is cut at [`MAX_LINE`] bytes).
///
/// It takes no memory, and holds at most one line.
#[derive(Drop)]
pub struct Framer {
    kept: Line,
    nul_seen: bool,
}

impl Model for Framer {
    ghost use Rattle.irc_line.specs.Lines.{Begun, HasTaken, stream_for};

    ghost Value = { Begun };

    ghost view = { λ f. record { kept = f.kept.items; nul_seen = f.nul_seen } };

    ghost invariant = { λ f. HasTaken (record { kept = f.kept.items; nul_seen = f.nul_seen })
        (stream_for (record { kept = f.kept.items; nul_seen = f.nul_seen })) };
}

impl Framer {
    /// A framer at the start of a stream.
    pub fn new() -> Self
        ensures value { result ≡ nothing_begun }
        ensures start { HasTaken result [] }
    {
        Framer {
            kept: ArrayVec::new(),
            nul_seen: false,
        }
    }

    /// Takes bytes of a piece up to the end of the next line, and gives that line; without one it
    /// takes the whole piece.
    /// The first number is how many bytes it took.
    pub fn take(&mut self, piece: &[u8]) -> (usize, Option<Line>)
        // For each stream that can have led here, the framer is now that of the longer one, and
        // just this line is new.
        ensures takes { Takes self.old (take result.0 piece.now) (found_in result.1) self.new }
        ensures of_some_stream { HasTaken self.old (stream_for self.old) }
        ensures used { result.0 ≤ length piece.now }
        ensures some { 0 < length piece.now → 0 < result.0 }
        ensures whole { IsNone result.1 → result.0 ≡ length piece.now }
        // It stops at the first line that ends.
        ensures first { (k : ℕ) → k < result.0 → EndsNoLine self.old (take k piece.now) }
        ensures line { IfSome result.1 (λ line. IsLine line.items) }
    {
        let mut used = 0;
        self.is_of_some_stream();
        while used < piece.len() {
            let (more, ended) = self.take_run(&piece[used..]);
            used += more;
            if ended {
                return (used, Some(self.kept.take()));
            }
        }
        (used, None)
    }

    /// Whether no part of a line has come: the bytes so far are none, or the last of them ended a
    /// line.
    pub fn is_empty(&self) -> bool
        ensures value { result ≡ has_nothing self.now }
        ensures tail { TellsTail self.now result }
    {
        self.kept.is_empty() && !self.nul_seen
    }

    /// Says what each framer keeps, and does nothing: some stream leads to it.
    fn is_of_some_stream(&self)
        ensures { HasTaken self.now (stream_for self.now) }
    {
        let _kept = &self.kept;
    }

    /// Takes the bytes up to the next line end, and that. Says whether a line has ended, which then
    /// still is kept: as it is half a kilobyte, only `take` moves it.
    fn take_run(&mut self, bytes: &[u8]) -> (usize, bool)
        requires { 0 < length bytes.now }
        ensures takes { TakesRun self.old (take result.0 bytes.now) result.1 self.new }
        ensures some { 0 < result.0 }
        ensures used { result.0 ≤ length bytes.now }
        ensures first { (k : ℕ) → k < result.0 → EndsNoLine self.old (take k bytes.now) }
    {
        let (run, nul_seen) = run_before_end(bytes);
        self.go_on(&bytes[..run], nul_seen);
        if run == bytes.len() {
            return (run, false);
        }
        (run + 1, self.end_line())
    }

    /// Takes bytes that end no line.
    fn go_on(&mut self, run: &[u8], nul_seen: bool)
        requires no_end { list_any is_line_end run.now ≡ false }
        requires nul { nul_seen ≡ has_nul run.now }
        ensures { self.new ≡ go_on self.old run.now }
    {
        push_cut(&mut self.kept, run);
        self.nul_seen |= nul_seen;
    }

    /// Ends the line that has begun. Says whether it is one to give, which then still is kept;
    /// otherwise another begins.
    fn end_line(&mut self) -> bool
        ensures { HasEnded self.old result self.new }
    {
        if self.nul_seen {
            self.kept.clear();
            self.nul_seen = false;
        }
        !self.kept.is_empty()
    }
}

/// How many bytes come before the first line end, and whether a NUL is among them.
fn run_before_end(bytes: &[u8]) -> (usize, bool)
    ensures within { result.0 ≤ length bytes.now }
    ensures no_end { list_any is_line_end (take result.0 bytes.now) ≡ false }
    ensures ends { result.0 < length bytes.now
        → is_line_end (slice_index bytes.now result.0) ≡ true }
    ensures nul { result.1 ≡ has_nul (take result.0 bytes.now) }
{
    let mut nul_seen = false;
    for (i, byte) in bytes.iter().enumerate() {
        if *byte == CARRIAGE_RETURN || *byte == LINE_FEED {
            return (i, nul_seen);
        }
        nul_seen |= *byte == NUL;
    }
    (bytes.len(), nul_seen)
}

/// The lines of a stream that comes in these pieces. However a stream is cut, its lines are the
/// same.
///
/// # Errors
/// Where memory runs out.
pub fn lines_of_pieces(alloc: Global, pieces: &[&[u8]]) -> Result<Vec<Line>, AllocError>
    ensures { IfOk result
        (λ found. bytes_of found.items ≡ lines (flat_map (λ piece. piece.now) pieces.now)) }
{
    let mut framer = Framer::new();
    let mut found = Vec::new(alloc);
    for piece in pieces {
        take_all(&mut framer, piece, &mut found)?;
    }
    Ok(found)
}

/// Takes a whole piece, and appends each line that ends in it.
fn take_all(framer: &mut Framer, piece: &[u8], found: &mut Vec<Line>) -> Result<(), AllocError>
    ensures { OnOk result (TakesPiece framer.old piece.now found.old framer.new found.new) }
{
    let mut rest = piece;
    while !rest.is_empty() {
        let (used, line) = framer.take(rest);
        rest = &rest[used..];
        push_found(found, line)?;
    }
    Ok(())
}

/// Appends the line, if there is one.
fn push_found(found: &mut Vec<Line>, line: Option<Line>) -> Result<(), AllocError>
    ensures { OnOk result (bytes_of found.new.items ≡ bytes_of found.old.items ++ found_in line) }
{
    if let Some(line) = line {
        found.push(line)?;
    }
    Ok(())
}
