//! The limit of a channel's members, as it is written.
ghost use Rattle.std.specs.Prelude.{◌≡◌, ◌&&◌, nat_le, IsTrue};
ghost use Rattle.std.specs.Option.{SomeIff};
ghost use Rattle.irc_names.specs.Digits.{number_of};
ghost use Rattle.irc_modes.specs.Modes.{is_limit};

use crate::{MAX_LIMIT, MAX_LIMIT_DIGITS};
use irc_names::{are_digits, number_of};

/// The limit that these bytes write: 1 to [`MAX_LIMIT`], in at most [`MAX_LIMIT_DIGITS`] digits
/// (our own choice).
#[tactic(auto, using(crate::specs::Lemmas::LimitFacts::limit_facts))]
pub fn read_limit(bytes: &[u8]) -> Option<u16>
    ensures { SomeIff result (IsTrue (is_limit bytes.now)) (number_of bytes.now) }
{
    if is_limit(bytes) {
        Some(number_of(bytes) as u16)
    } else {
        None
    }
}

/// Whether these bytes write a limit.
#[tactic(auto, unfolding(crate::specs::Modes::is_limit))]
fn is_limit(bytes: &[u8]) -> bool
    ensures { result ≡ is_limit bytes.now }
{
    are_digits(bytes) && bytes.len() <= MAX_LIMIT_DIGITS && is_in_range(number_of(bytes))
}

fn is_in_range(number: u64) -> bool
    ensures { result ≡ (nat_le 1 number && nat_le number MAX_LIMIT) }
{
    1 <= number && number <= u64::from(MAX_LIMIT)
}
