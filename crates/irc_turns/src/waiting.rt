//! What waits for a socket that was put off.
ghost use Rattle.std.specs.Prelude.{◌≡◌, ◌-◌, nat_lt};
ghost use Rattle.irc_turns.specs.Gathering.{nothing_waits, is_put_off, waits_behind};

use std::marker::Model;

/// So many bytes are written at once, so that nobody's outbox fills by the wait.
const MANY_BYTES: usize = 4096;

/// So much waits for a client where a client who adds to it is held back: a quarter of the smallest
/// outbox that is any use.
const MUCH_BYTES: usize = 8192;

/// How many turns without anything new a write waits at most: as many as cost no more than it does.
const PATIENCE_TURNS: u64 = 16;

/// How many turns a write waits at most.
const LONGEST_TURNS: u64 = 64;

/// What waits for a socket.
#[derive(Drop)]
pub(crate) struct WaitingWrite {
    /// How many bytes did behind the last turn.
    pub bytes: usize,
    /// The last turn in which there were more.
    grown_at: u64,
    /// The turn since which they wait.
    since: u64,
}

impl Model for WaitingWrite {
    ghost use Rattle.irc_turns.specs.Gathering.{Gathered, gathered};

    ghost Value = { Gathered };

    ghost view = { λ w. gathered w.bytes w.grown_at w.since };
}

impl WaitingWrite {
    /// Nothing waits.
    pub fn new() -> Self
        ensures { result ≡ nothing_waits }
    {
        WaitingWrite {
            bytes: 0,
            grown_at: 0,
            since: 0,
        }
    }

    /// How many bytes there are more than behind the last turn, where there are so many now.
    pub fn more(&self, bytes: usize) -> usize
        ensures { result ≡ bytes - self.now.bytes }
    {
        bytes.saturating_sub(self.bytes)
    }

    /// Whether something waits.
    pub fn is_some(&self) -> bool
        ensures { result ≡ nat_lt 0 self.now.bytes }
    {
        self.bytes > 0
    }

    /// Whether so much waits for a client that a client who adds to it is held back.
    pub fn is_much(&self) -> bool
        ensures { result ≡ nat_lt 8192 self.now.bytes }
    {
        self.bytes > MUCH_BYTES
    }

    /// Whether a write of so many bytes waits in this turn. The first behind a pause does not.
    pub fn is_put_off(&self, turn: u64, bytes: usize) -> bool
        ensures { result ≡ is_put_off self.now turn bytes }
    {
        bytes < MANY_BYTES
            && turn.saturating_sub(self.grown_at) <= PATIENCE_TURNS
            && (self.bytes == 0 || turn.saturating_sub(self.since) < LONGEST_TURNS)
    }

    /// So many bytes wait behind this turn, of those there were in it.
    pub fn note(&mut self, turn: u64, bytes: usize, left: usize)
        ensures { self.new ≡ waits_behind self.old turn bytes left }
    {
        if bytes > self.bytes {
            self.grown_at = turn;
        }
        if self.bytes == 0 || left < bytes {
            self.since = turn;
        }
        self.bytes = left;
    }
}
