//! The password that clients give.
ghost use Rattle.std.specs.Prelude.{◌≡◌, length};
ghost use Rattle.std.specs.List.{list_all};
ghost use Rattle.std.specs.Option.{SomeIff};
ghost use Rattle.std.specs.Str.{bytes_eq};
ghost use Rattle.irc_doorman.specs.Passwords.{can_be_said, is_client_password, IsClientPassword};

use arrayvec::ArrayVec;
use irc_names::copied;
use std::marker::Model;

/// The longest password of a client, in bytes (our own choice).
pub const MAX_CLIENT_PASSWORD: usize = 64;

/// A password that clients are to give: 1 to [`MAX_CLIENT_PASSWORD`] bytes, none a NUL, a CR or an
/// LF, which no line has (RFC 2812 section 2.3.1).
#[derive(Drop)]
pub struct ClientPassword(ArrayVec<u8, MAX_CLIENT_PASSWORD>);

/// In a clause it is the list of its bytes, of which its rule holds always.
impl Model for ClientPassword {
    ghost use Rattle.std.specs.Prelude.{ℕ, List};
    ghost use Rattle.irc_doorman.specs.Passwords.{IsClientPassword};

    ghost Value = { List ℕ };

    ghost view = { λ password. password.0.items };

    ghost invariant = { λ password. IsClientPassword password.0.items };

    ghost inverse = { λ bytes. record { 0 = record { items = bytes } } };
}

impl ClientPassword {
    /// The password that these bytes are, where they keep its rule.
    pub fn read(bytes: &[u8]) -> Option<Self>
        ensures { SomeIff result (IsClientPassword bytes.now) bytes.now }
    {
        if is_client_password(bytes) {
            Some(ClientPassword(copied(bytes)))
        } else {
            None
        }
    }

    /// Whether a word is it. How long that takes does not tell at which byte they differ.
    pub fn is(&self, word: &[u8]) -> bool
        ensures { result ≡ bytes_eq word.now self.now }
    {
        let own = self.0.as_slice();
        own.len() == word.len() && are_alike(own, word)
    }
}

/// Whether bytes can be a client's password.
fn is_client_password(bytes: &[u8]) -> bool
    ensures { result ≡ is_client_password bytes.now }
{
    !bytes.is_empty() && bytes.len() <= MAX_CLIENT_PASSWORD && are_said(bytes)
}

/// Whether a line can have these bytes.
fn are_said(bytes: &[u8]) -> bool
    ensures { result ≡ list_all can_be_said bytes.now }
{
    bytes.iter().all(|byte| can_be_said(*byte))
}

/// Whether a line can have a byte.
fn can_be_said(byte: u8) -> bool
    ensures { result ≡ can_be_said byte }
{
    byte != b'\0' && byte != b'\r' && byte != b'\n'
}

/// Whether two texts of one length are the same: all bytes are looked at.
fn are_alike(own: &[u8], word: &[u8]) -> bool
    requires { length own.now ≡ length word.now }
    ensures { result ≡ bytes_eq word.now own.now }
{
    let mut alike = true;
    for place in 0..own.len() {
        alike &= word[place] == own[place];
    }
    alike
}
