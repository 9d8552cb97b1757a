//! Numbers in lines of a link (RFC 2813 section 4.1.2).
ghost use Rattle.std.specs.Prelude.{◌≡◌, ◌&&◌, nat_le, Ok, Err, if◌then◌else◌};
ghost use Rattle.irc_batch.specs.declared.close_reason.CloseReason.TheVariants.{Parameters};
ghost use Rattle.irc_names.specs.Digits.{number_of};
ghost use Rattle.irc_link_words.specs.Numbers.{begins_with_zero, is_number};

use crate::{MAX_NUMBER, MAX_NUMBER_DIGITS};
use irc_batch::CloseReason;
use irc_names::{are_digits, number_of};

/// A number, as a distance or as a token: 1 to [`MAX_NUMBER`], without leading zeros.
///
/// # Errors
/// [`CloseReason::Parameters`] where it is none.
#[tactic(auto, using(crate::proofs::NumberFacts::number_facts))]
pub fn read_number(bytes: &[u8]) -> Result<u32, CloseReason>
    ensures { result ≡ (if is_number bytes.now then Ok (number_of bytes.now) else Err Parameters) }
{
    if is_number(bytes) {
        Ok(number_of(bytes) as u32)
    } else {
        Err(CloseReason::Parameters)
    }
}

/// Whether these bytes write a number.
#[tactic(auto, unfolding(crate::specs::Numbers::is_number))]
fn is_number(bytes: &[u8]) -> bool
    ensures { result ≡ is_number bytes.now }
{
    are_digits(bytes)
        && bytes.len() <= MAX_NUMBER_DIGITS
        && !begins_with_zero(bytes)
        && is_in_range(number_of(bytes))
}

fn is_in_range(number: u64) -> bool
    ensures { result ≡ (nat_le 1 number && nat_le number MAX_NUMBER) }
{
    1 <= number && number <= u64::from(MAX_NUMBER)
}

fn begins_with_zero(bytes: &[u8]) -> bool
    ensures { result ≡ begins_with_zero bytes.now }
{
    match bytes.first() {
        Some(first) => *first == b'0',
        None => false,
    }
}
