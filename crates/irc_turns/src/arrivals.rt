//! Who waits at a door, and how many are taken there before others have their turn.
ghost use Rattle.std.specs.Prelude.{◌≡◌};

use irc_moments::Moment;

/// How many connections are taken at a door before those that are there, and the other door, have
/// their turn again.
const ARRIVALS_A_ROUND: usize = 16;

/// Behind how many milliseconds one is asked for again that could not be taken.
const REST_MS: u64 = 100;

/// Whether connections wait at a door. It is asked for one only while some may.
#[derive(Drop)]
pub struct Arrivals {
    /// Whether some may wait.
    pub may_have: bool,
    /// How many are left of this round.
    pub left: usize,
    /// Where one could not be taken, as where the process has no descriptor left, when it is asked
    /// for again: to ask at once would spin.
    pub until: Option<Moment>,
}

impl Arrivals {
    ghost use Rattle.irc_turns.specs.Arriving.{nobody_waits, may_be_taken, round_of_arrivals};
    ghost use Rattle.irc_turns.specs.Arriving.{knocked, woken, woken_at, is_rested, one_taken};
    ghost use Rattle.irc_turns.specs.Arriving.{none_waits, none_can_be_taken};

    /// Nobody is known to wait, and no round has begun.
    pub fn new() -> Self
        ensures { result ≡ nobody_waits }
    {
        Arrivals {
            may_have: false,
            left: 0,
            until: None,
        }
    }

    /// Whether connections may wait that are to be taken in this round.
    pub fn may_be_taken(&self) -> bool
        ensures { result ≡ may_be_taken self.now }
    {
        self.may_have && self.left > 0
    }

    /// A round begins.
    pub fn begin_round(&mut self)
        ensures { self.new ≡ round_of_arrivals self.old }
    {
        self.left = ARRIVALS_A_ROUND;
    }

    /// Connections may wait.
    pub fn knock(&mut self)
        ensures { self.new ≡ knocked self.old }
    {
        self.may_have = true;
    }

    /// What was in the way may be gone.
    pub fn wake(&mut self)
        ensures { self.new ≡ woken self.old }
    {
        self.may_have |= self.until.is_some();
        self.until = None;
    }

    /// Whether one could not be taken, and its time has come.
    fn is_rested(&self, now: Moment) -> bool
        ensures { result ≡ is_rested self.now.until now }
    {
        match self.until {
            Some(until) => !now.is_before(until),
            None => false,
        }
    }

    /// Who could not be taken is asked for again, if its time has come.
    pub fn wake_at(&mut self, now: Moment)
        ensures { self.new ≡ woken_at now self.old }
    {
        if self.is_rested(now) {
            self.wake();
        }
    }

    /// One is asked for.
    pub fn take(&mut self)
        ensures { self.new ≡ one_taken self.old }
    {
        self.left = self.left.saturating_sub(1);
    }

    /// None is there any more.
    pub fn end(&mut self)
        ensures { self.new ≡ none_waits self.old }
    {
        self.may_have = false;
    }

    /// None can be taken at this moment, for want of a descriptor or of memory.
    pub fn rest(&mut self, now: Moment)
        ensures { self.new ≡ none_can_be_taken now self.old }
    {
        self.may_have = false;
        self.until = Some(now.later(REST_MS));
    }
}
