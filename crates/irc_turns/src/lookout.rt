//! When to look whether something was asked for that nothing tells of.
ghost use Rattle.std.specs.Prelude.{◌≡◌};
ghost use Rattle.irc_turns.specs.Lookouts.{is_time, next_look};

use irc_moments::Moment;

/// How many milliseconds lie between two looks at least.
const PAUSE_MS: u64 = 1_000;

/// Looks, of which one comes a second behind another.
#[derive(Drop)]
pub struct Lookout {
    /// Before this there is none.
    next: Moment,
}

impl Lookout {
    /// The first look may come at this moment.
    pub fn new(now: Moment) -> Self
        ensures { result.next ≡ now }
    {
        Lookout { next: now }
    }

    /// Whether to look at this moment. The next look comes a second behind it.
    pub fn is_time(&mut self, now: Moment) -> bool
        ensures time { result ≡ is_time now self.old.next }
        ensures next { self.new.next ≡ next_look now self.old.next }
    {
        if now.is_before(self.next) {
            return false;
        }
        self.next = now.later(PAUSE_MS);
        true
    }
}
