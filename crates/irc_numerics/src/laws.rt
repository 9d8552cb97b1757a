//! What holds of replies. Each law is a function that does nothing, and its contract is the law:
//! the check proves it, and a crate above may cite it.
ghost use Rattle.std.specs.Prelude.{◌≡◌};
ghost use Rattle.irc_numerics.specs.Laws.{NamesAreShort, WithinLimitsIsWhole};
ghost use Rattle.irc_numerics.specs.Limits.{max_names, max_whois_channels, max_mode_letters};

use crate::limits::{MAX_MODE_LETTERS, MAX_NAMES, MAX_WHOIS_CHANNELS};

/// A reply whose names and texts are within their limits is written whole: its line has at most
/// [`MAX_LINE`](irc_line::limits::MAX_LINE) bytes. The longest is a 353 with
/// [`MAX_NAMES`](crate::limits::MAX_NAMES) names. A reply that repeats a client's own words may be
/// cut.
pub fn within_limits_is_whole()
    ensures { WithinLimitsIsWhole }
{}

/// The longest of these lines: a 353 with [`MAX_NAMES`](crate::limits::MAX_NAMES) names has 473
/// bytes at most, and its CR LF.
pub fn names_are_short()
    ensures { NamesAreShort }
{}

/// The constants of [`limits`](crate::limits) are the numbers that the definitions name.
pub fn limits_are_so()
    ensures names { MAX_NAMES ≡ max_names }
    ensures channels { MAX_WHOIS_CHANNELS ≡ max_whois_channels }
    ensures letters { MAX_MODE_LETTERS ≡ max_mode_letters }
{}
