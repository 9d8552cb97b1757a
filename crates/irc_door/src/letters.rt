//! Texts that were cut within a letter (RFC 3629).
ghost use Rattle.std.specs.Prelude.{◌≡◌};
ghost use Rattle.irc_door.specs.Letters.{whole_letters};

use std::str::from_utf8;

/// A text without the letter within which it ends, where what stands before is well formed; any
/// other as it is.
pub(crate) fn whole_letters(text: &[u8]) -> &[u8]
    ensures { result.now ≡ whole_letters text.now }
{
    match from_utf8(text) {
        Err(error) if error.error_len().is_none() => &text[..error.valid_up_to()],
        _ => text,
    }
}
