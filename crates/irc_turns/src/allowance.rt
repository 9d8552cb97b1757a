//! How many lines a client may say by time.
//!
//! Lines are counted as they begin, and not as they end: who sends the end of each line with the
//! next one says as much as who sends line by line.
ghost use Rattle.std.specs.Prelude.{◌≡◌};
ghost use Rattle.irc_turns.specs.Allowances.{most_of, gained, first_of, allowance_of};
ghost use Rattle.irc_turns.specs.Allowances.{thousandths_at, lines_at, said_byte, said, spent};
ghost use Rattle.irc_turns.specs.Allowances.{LinesAreCounted, NoneEndsUnbegun, SaidInPieces};
ghost use Rattle.irc_turns.specs.Allowances.{PaceIsKept, FrontBegins};

use irc_moments::Moment;

/// So many parts has a line: then what a millisecond gives is a whole number, and nothing is lost
/// however often it is counted.
const LINE: u64 = 1000;

/// A pace of lines, which clients keep to.
#[derive(Clone, Copy, Drop)]
pub struct LinesPace {
    /// How many lines a second one may say in the long run; 0 counts as 1.
    pub per_second: u16,
    /// How many lines one may say at once who has said none for long; 0 counts as 1.
    pub burst: u16,
}

/// How much one may say, as of a moment.
#[derive(Drop)]
pub(crate) struct Allowance {
    /// How many thousandths of a line.
    thousandths: u64,
    /// As of when.
    counted_at: Moment,
    /// Whether a line has begun that has not ended. It is counted.
    is_begun: bool,
}

impl LinesPace {
    /// The most that one may say at once, in thousandths of a line.
    fn most(self) -> u64
        ensures { result ≡ most_of self }
    {
        u64::from(self.burst.max(1)) * LINE
    }

    /// What one gains in so many milliseconds, in thousandths of a line.
    fn gained(self, milliseconds: u64) -> u64
        ensures { result ≡ gained self milliseconds }
    {
        milliseconds.saturating_mul(u64::from(self.per_second.max(1)))
    }
}

impl Allowance {
    /// That of one who has come at this moment: all that may be said at once.
    pub fn new(pace: Option<LinesPace>, now: Moment) -> Self
        ensures { result ≡ allowance_of pace now }
    {
        Allowance {
            thousandths: first_of(pace),
            counted_at: now,
            is_begun: false,
        }
    }

    /// How many lines may begin at this moment.
    pub fn allowed(&self, pace: LinesPace, now: Moment) -> usize
        ensures { result ≡ lines_at pace now self.now }
    {
        (self.thousandths_at(pace, now) / LINE) as usize
    }

    /// What it is at this moment, in thousandths of a line.
    fn thousandths_at(&self, pace: LinesPace, now: Moment) -> u64
        ensures { result ≡ thousandths_at pace now self.now }
    {
        let gained = pace.gained(now.since(self.counted_at));
        self.thousandths.saturating_add(gained).min(pace.most())
    }

    /// These bytes are said at this moment.
    pub fn spend(&mut self, pace: LinesPace, given: &[u8], now: Moment)
        ensures { self.new ≡ spent pace now given.now self.old }
    {
        self.thousandths = self.thousandths_at(pace, now);
        self.counted_at = now;
        self.say(given);
    }

    /// Bytes are said.
    fn say(&mut self, given: &[u8])
        ensures { self.new ≡ said given.now self.old }
    {
        for byte in given {
            self.say_byte(*byte);
        }
    }

    /// One is.
    fn say_byte(&mut self, byte: u8)
        ensures { self.new ≡ said_byte self.old byte }
    {
        let is_end = byte == b'\r' || byte == b'\n';
        if !is_end && !self.is_begun {
            self.thousandths = self.thousandths.saturating_sub(LINE);
        }
        self.is_begun = !is_end;
    }
}

/// What one may say at first, in thousandths of a line.
fn first_of(pace: Option<LinesPace>) -> u64
    ensures { result ≡ first_of pace }
{
    match pace {
        Some(pace) => pace.most(),
        None => 0,
    }
}

/// Each line that a stream has was counted, in whatever pieces it has come.
pub fn lines_are_counted()
    ensures counted { LinesAreCounted }
    ensures pieces { SaidInPieces }
    ensures begun { NoneEndsUnbegun }
{}

/// Of what a turn takes no more lines begin than it is to have.
pub fn fronts_begin_so_many()
    ensures { FrontBegins }
{}

/// Who has begun no more lines each time than it might has kept to the pace.
pub fn pace_is_kept()
    ensures { PaceIsKept }
{}
