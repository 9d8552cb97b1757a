//! The password that two servers give each other.
ghost use Rattle.std.specs.Prelude.{◌≡◌};
ghost use Rattle.std.specs.List.{list_all};
ghost use Rattle.std.specs.Char.{is_ascii_graphic};
ghost use Rattle.std.specs.Option.{SomeIff};
ghost use Rattle.irc_link_words.specs.Passwords.{is_password, IsPassword};

use crate::MAX_PASSWORD;
use arrayvec::ArrayVec;
use irc_names::copied;
use std::marker::Model;

const COLON: u8 = b':';

/// The password that two servers give each other: 1 to [`MAX_PASSWORD`] bytes from 0x21 to 0x7E,
/// the first no `:` (our own choice).
#[derive(Drop)]
pub struct Password(ArrayVec<u8, MAX_PASSWORD>);

/// In a clause it is the list of its bytes, of which its rule holds always.
impl Model for Password {
    ghost use Rattle.std.specs.Prelude.{ℕ, List};
    ghost use Rattle.irc_link_words.specs.Passwords.{IsPassword};

    ghost Value = { List ℕ };

    ghost view = { λ password. password.0.items };

    ghost invariant = { λ password. IsPassword password.0.items };

    ghost inverse = { λ bytes. record { 0 = record { items = bytes } } };
}

impl Password {
    /// The password that these bytes are, where they keep its rule.
    pub fn read(bytes: &[u8]) -> Option<Self>
        ensures { SomeIff result (IsPassword bytes.now) bytes.now }
    {
        if is_password(bytes) {
            Some(Password(copied(bytes)))
        } else {
            None
        }
    }

    /// Its bytes.
    pub fn as_bytes(&self) -> &[u8]
        ensures value { result.now ≡ self.now }
        ensures rule { IsPassword self.now }
    {
        self.0.as_slice()
    }
}

/// Whether bytes are a password (our own choice: so it can stand as a middle parameter).
pub fn is_password(bytes: &[u8]) -> bool
    ensures { result ≡ is_password bytes.now }
{
    match bytes.first() {
        None => false,
        Some(first) => {
            *first != COLON && are_password_bytes(bytes) && bytes.len() <= MAX_PASSWORD
        }
    }
}

/// Whether all bytes may stand in a password.
fn are_password_bytes(bytes: &[u8]) -> bool
    ensures { result ≡ list_all is_ascii_graphic bytes.now }
{
    bytes.iter().all(|byte| byte.is_ascii_graphic())
}
