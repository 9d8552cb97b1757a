//! User names.
ghost use Rattle.std.specs.Prelude.{◌≡◌, ◌≤◌, length};
ghost use Rattle.irc_names.specs.UserTexts.{clean_user, clean_user_byte, is_user_byte, IsUserName};

use crate::{MAX_USER_NAME, copied, cut_copy, is_user_byte};
use arrayvec::ArrayVec;
use std::marker::Model;

/// A user name: at most [`MAX_USER_NAME`] bytes that are letters, digits, `-`, `.`, `_` or `~` (our
/// own choice; RFC 2812 section 2.3.1 takes more).
#[derive(Drop)]
pub struct UserName(ArrayVec<u8, MAX_USER_NAME>);

/// In a clause it is the list of its bytes.
impl Model for UserName {
    ghost use Rattle.std.specs.Prelude.{ℕ, List};
    ghost use Rattle.irc_names.specs.UserTexts.{IsUserName};

    ghost Value = { List ℕ };

    ghost view = { λ name. name.0.items };

    ghost invariant = { λ name. IsUserName name.0.items };

    ghost inverse = { λ bytes. record { 0 = record { items = bytes } } };
}

impl UserName {
    /// The user name made of any bytes: those past [`MAX_USER_NAME`] are cut off, and each that may
    /// not stand in it becomes `_`.
    pub fn clean(bytes: &[u8]) -> Self
        ensures { result ≡ clean_user bytes.now }
    {
        let kept: ArrayVec<u8, MAX_USER_NAME> = cut_copy(bytes);
        let mut name = ArrayVec::new();
        for byte in kept.as_slice() {
            name.push(clean_byte(*byte));
        }
        UserName(name)
    }

    /// Its bytes.
    pub fn as_bytes(&self) -> &[u8]
        ensures value { result.now ≡ self.now }
        ensures rule { IsUserName self.now }
        ensures fits { length result.now ≤ MAX_USER_NAME }
    {
        self.0.as_slice()
    }

    /// The same name once more.
    pub fn copy(&self) -> Self
        ensures { result ≡ self.now }
    {
        UserName(copied(self.as_bytes()))
    }
}

fn clean_byte(byte: u8) -> u8
    ensures { result ≡ clean_user_byte byte }
{
    if is_user_byte(byte) { byte } else { b'_' }
}
