//! When those who are kept waiting are given a sign of life.
ghost use Rattle.std.specs.Prelude.{◌≡◌};
ghost use Rattle.irc_turns.specs.Signs.{are_due, last_given};

use irc_moments::Moment;

/// For how many milliseconds no sign is given: a few times in the 30 seconds behind which a link
/// that says nothing is given up at its other end.
const PAUSE_MS: u64 = 5_000;

/// Signs of life, which go to all who wait at once.
#[derive(Drop)]
pub struct Signals {
    /// When they were given last.
    last: Moment,
}

impl Signals {
    /// None was given before this moment.
    pub fn new(now: Moment) -> Self
        ensures { result.last ≡ now }
    {
        Signals { last: now }
    }

    /// Whether signs are due at this moment. They count as given then.
    pub fn are_due(&mut self, now: Moment) -> bool
        ensures due { result ≡ are_due now self.old.last }
        ensures given { self.new.last ≡ last_given now self.old.last }
    {
        let is_due = now.since(self.last) >= PAUSE_MS;
        if is_due {
            self.last = now;
        }
        is_due
    }
}
