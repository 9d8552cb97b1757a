//! Numbers written in decimal digits.
ghost use Rattle.std.specs.Prelude.{◌≡◌, ◌≤◌, length, IsTrue};
ghost use Rattle.std.specs.List.{list_all};
ghost use Rattle.std.specs.Char.{is_ascii_digit};
ghost use Rattle.irc_names.specs.Digits.{number_of};

use crate::MAX_DIGITS;

/// Whether each of these bytes is a digit.
pub fn are_digits(bytes: &[u8]) -> bool
    ensures { result ≡ list_all is_ascii_digit bytes.now }
{
    bytes.iter().all(u8::is_ascii_digit)
}

/// The number that at most [`MAX_DIGITS`] digits write.
pub fn number_of(digits: &[u8]) -> u64
    requires digits { IsTrue (list_all is_ascii_digit digits.now) }
    requires few { length digits.now ≤ MAX_DIGITS }
    ensures { result ≡ number_of digits.now }
{
    let mut number = 0;
    for digit in digits {
        number = 10 * number + u64::from(*digit - b'0');
    }
    number
}
