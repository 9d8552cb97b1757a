//! Whether connections can be taken, and what was told of it.
ghost use Rattle.std.specs.Prelude.{◌≡◌};
ghost use Rattle.irc_turns.specs.Shortages.{no_shortage, shortage_at, none_wanting, change_at};
ghost use Rattle.irc_turns.specs.Shortages.{change_told};

use irc_moments::Moment;

/// For how many milliseconds nothing has to be wanting before that is told: where each who leaves
/// makes room for one who waits, it is wanting again at once.
const PAUSE_MS: u64 = 1_000;

/// Whether there is want of what a connection takes, descriptors or memory.
#[derive(Drop)]
pub struct Shortage {
    /// Whether the last one could not be taken for it.
    is_there: bool,
    /// When one could not be last.
    last: Moment,
    /// Whether that was told last.
    is_told: bool,
}

impl Shortage {
    /// None, and none was told of.
    pub fn new() -> Self
        ensures { result ≡ no_shortage }
    {
        Shortage {
            is_there: false,
            last: Moment::of(0),
            is_told: false,
        }
    }

    /// A connection could not be taken at this moment, for want of these.
    pub fn note(&mut self, now: Moment)
        ensures { self.new ≡ shortage_at now self.old }
    {
        self.is_there = true;
        self.last = now;
    }

    /// A connection could be taken, or none waits.
    pub fn end(&mut self)
        ensures { self.new ≡ none_wanting self.old }
    {
        self.is_there = false;
    }

    /// Whether there is want, where something else was told last: that there is, at once; that
    /// there is none, a second behind the last.
    pub fn tell(&mut self, now: Moment) -> Option<bool>
        ensures told { result ≡ change_at now self.old }
        ensures left { self.new ≡ change_told now self.old }
    {
        let is_over = !self.is_there && now.since(self.last) >= PAUSE_MS;
        if self.is_told && is_over {
            self.is_told = false;
            return Some(false);
        }
        if !self.is_told && self.is_there {
            self.is_told = true;
            return Some(true);
        }
        None
    }
}
