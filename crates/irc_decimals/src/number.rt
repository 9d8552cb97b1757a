//! Numbers in decimal digits.
ghost use Rattle.std.specs.Prelude.{◌≡◌};
ghost use Rattle.irc_decimals.specs.Numbers.{written_number, writes};

use itoa::Buffer;
use std::str::from_utf8;

/// The number that a word is, of at most 64 bits, as it is written here: no sign, and no zero in
/// front of other digits.
pub fn read_number(word: &[u8]) -> Option<u64>
    ensures { result ≡ written_number word.now }
{
    let Ok(text) = from_utf8(word) else {
        return None;
    };
    let Ok(number) = text.parse::<u64>() else {
        return None;
    };
    if writes(number, word) {
        Some(number)
    } else {
        None
    }
}

/// Whether a word is how a number is written.
fn writes(number: u64, word: &[u8]) -> bool
    ensures { result ≡ writes number word.now }
{
    Buffer::new().format(number).as_bytes() == word
}
