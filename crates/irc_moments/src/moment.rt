//! Moments of a clock.
ghost use Rattle.std.specs.Prelude.{◌≡◌, ◌-◌, nat_lt};

use std::marker::Model;

/// A moment: how many milliseconds a clock has counted that never goes back. What it began with is
/// not known, so moments of one clock alone are told apart.
#[derive(Clone, Copy, Drop, Eq, PartialEq)]
pub struct Moment(u64);

/// What a clock tells: how many seconds it has counted, and how many nanoseconds behind these.
#[derive(Clone, Copy, Drop)]
pub struct ClockTime {
    pub seconds: i64,
    pub nanoseconds: i64,
}

/// In a clause it is the number of milliseconds.
impl Model for Moment {
    ghost use Rattle.std.specs.Prelude.{ℕ};

    ghost Value = { ℕ };

    ghost view = { λ moment. moment.0 };

    ghost inverse = { λ milliseconds. record { 0 = milliseconds } };
}

impl Moment {
    ghost use Rattle.irc_moments.specs.Moments.{later, moment_behind};

    /// The moment at which so many milliseconds are counted.
    pub fn of(milliseconds: u64) -> Self
        ensures { result ≡ milliseconds }
    {
        Moment(milliseconds)
    }

    /// The moment that a clock tells behind this one. It is this one again where the clock cannot
    /// be read, or tells an earlier one.
    pub fn behind(self, told: Option<ClockTime>) -> Self
        ensures { result ≡ moment_behind self told }
    {
        match told {
            Some(time) => Moment(self.0.max(time.milliseconds())),
            None => self,
        }
    }

    /// The moment so many milliseconds later.
    pub fn later(self, milliseconds: u64) -> Self
        ensures { result ≡ later self milliseconds }
    {
        Moment(self.0.saturating_add(milliseconds))
    }

    /// How many milliseconds this one is behind another; none, where it is not behind it.
    pub fn since(self, other: Moment) -> u64
        ensures { result ≡ self - other }
    {
        self.0.saturating_sub(other.0)
    }

    /// Whether it is before another.
    pub fn is_before(self, other: Moment) -> bool
        ensures { result ≡ nat_lt self other }
    {
        self.0 < other.0
    }
}

impl ClockTime {
    ghost use Rattle.irc_moments.specs.Moments.{milliseconds_of};

    /// How many whole milliseconds it has counted; none, where it tells less than none.
    fn milliseconds(self) -> u64
        ensures { result ≡ milliseconds_of self.seconds self.nanoseconds }
    {
        if self.seconds < 0 || self.nanoseconds < 0 {
            return 0;
        }
        let whole = self.seconds.unsigned_abs().saturating_mul(1000);
        whole.saturating_add(self.nanoseconds.unsigned_abs() / 1_000_000)
    }
}
