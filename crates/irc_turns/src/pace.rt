//! How many lines of a client one turn takes.
//!
//! What a line costs the server does not show at the wire, neither by its bytes nor by the clock,
//! which tells what the machine did meanwhile as well. What shows is whether somebody has come.
//! So a client gets few lines a turn, and more of them only while nobody comes: who comes then
//! waits for a small part of the time in which nobody did.
ghost use Rattle.std.specs.Prelude.{◌≡◌};
ghost use Rattle.irc_turns.specs.Pacing.{at_first, at_rest, slowed, paced_lines, at_turn};
ghost use Rattle.irc_turns.specs.Pacing.{behind_turn};

use std::marker::Model;

/// How many lines a turn takes of one who has sent nothing that is left.
const FIRST_LINES: usize = 2;

/// How many it takes at most.
const MOST_LINES: usize = 32;

/// Behind how many turns in which nobody came a turn takes twice as many.
const QUIET_TURNS: usize = 32;

/// So many bytes for a line show that a turn's time goes into what it puts out: the next one takes
/// twice as many at once.
const SHOWN_BYTES: usize = 512;

/// Who is answered so many bytes in a turn is asked line by line, so that they can be taken before
/// the next are made.
const ANSWERED_BYTES: usize = 4096;

/// How many lines of a client one turn takes.
#[derive(Drop)]
pub(crate) struct Pace {
    lines: usize,
    /// How many turns have taken so many.
    turns: usize,
    /// How often somebody had come by then.
    visits: u64,
    /// Whether nothing of it is left.
    is_idle: bool,
}

impl Model for Pace {
    ghost use Rattle.irc_turns.specs.Pacing.{Paced, paced};

    ghost Value = { Paced };

    ghost view = { λ p. paced p.lines p.turns p.visits p.is_idle };
}

impl Pace {
    /// That of a client who has sent nothing.
    pub fn new() -> Self
        ensures { result ≡ at_first }
    {
        Pace {
            lines: FIRST_LINES,
            turns: 0,
            visits: 0,
            is_idle: true,
        }
    }

    /// Nothing of it is left.
    pub fn rest(&mut self)
        ensures { self.new ≡ at_rest self.old }
    {
        self.is_idle = true;
    }

    /// How many lines the turn at hand takes, where somebody has come so often so far: just one,
    /// where somebody has come since the last.
    pub fn lines(&mut self, visits: u64) -> usize
        ensures lines { result ≡ paced_lines self.old visits }
        ensures turn { self.new ≡ at_turn self.old visits }
    {
        if self.is_idle {
            self.lines = FIRST_LINES;
            self.turns = 0;
        } else if self.visits != visits {
            self.slow();
        }
        self.is_idle = false;
        self.visits = visits;
        self.lines
    }

    /// A turn has taken all the lines that it might: the client was answered so many bytes, and so
    /// many were put out to others.
    pub fn note(&mut self, answered: usize, shown: usize)
        ensures { self.new ≡ behind_turn self.old answered shown }
    {
        self.turns = self.turns.saturating_add(1);
        if answered >= ANSWERED_BYTES {
            self.slow();
        } else if self.turns >= QUIET_TURNS || shown / SHOWN_BYTES >= self.lines {
            self.lines = self.lines.saturating_mul(2).min(MOST_LINES);
            self.turns = 0;
        }
    }

    /// One line a turn, for now.
    pub fn slow(&mut self)
        ensures { self.new ≡ slowed self.old }
    {
        self.lines = 1;
        self.turns = 0;
    }
}
