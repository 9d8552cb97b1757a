//! How a server describes itself.
ghost use Rattle.std.specs.Prelude.{◌≡◌, ◌≤◌, length};
ghost use Rattle.std.specs.List.{list_all};
ghost use Rattle.std.specs.Option.{SomeIff};
ghost use Rattle.irc_routes.specs.Info.{is_text_byte, is_info, IsInfo};

use arrayvec::ArrayVec;
use irc_names::{MAX_INFO, copied};
use std::marker::Model;

const NUL: u8 = 0;

const CR: u8 = b'\r';

const LF: u8 = b'\n';

/// How a server describes itself: at most [`MAX_INFO`] bytes, none of them NUL, CR or LF (RFC 2813
/// section 4.1.2; the limits are our own choice).
#[derive(Drop)]
pub struct Info(ArrayVec<u8, MAX_INFO>);

/// In a clause it is the list of its bytes, of which its rule holds always.
impl Model for Info {
    ghost use Rattle.std.specs.Prelude.{ℕ, List};
    ghost use Rattle.irc_routes.specs.Info.{IsInfo};

    ghost Value = { List ℕ };

    ghost view = { λ info. info.0.items };

    ghost invariant = { λ info. IsInfo info.0.items };

    ghost inverse = { λ bytes. record { 0 = record { items = bytes } } };
}

impl Info {
    /// The description that these bytes are, where they keep the limits.
    pub fn read(bytes: &[u8]) -> Option<Self>
        ensures { SomeIff result (IsInfo bytes.now) bytes.now }
    {
        if is_info(bytes) {
            Some(Info(copied(bytes)))
        } else {
            None
        }
    }

    /// Its bytes.
    pub fn as_bytes(&self) -> &[u8]
        ensures value { result.now ≡ self.now }
        ensures rule { IsInfo self.now }
        ensures fits { length result.now ≤ MAX_INFO }
    {
        self.0.as_slice()
    }

    /// The same description once more. It takes no memory and cannot fail.
    pub fn copy(&self) -> Self
        ensures value { result ≡ self.now }
        ensures rule { IsInfo self.now }
    {
        Info(copied(self.as_bytes()))
    }
}

/// Whether bytes keep the limits of a description.
fn is_info(bytes: &[u8]) -> bool
    ensures { result ≡ is_info bytes.now }
{
    is_text(bytes) && bytes.len() <= MAX_INFO
}

/// Whether none of some bytes is NUL, CR or LF.
fn is_text(bytes: &[u8]) -> bool
    ensures { result ≡ list_all is_text_byte bytes.now }
{
    bytes.iter().all(|byte| is_text_byte(*byte))
}

/// Whether a byte is none of NUL, CR and LF.
fn is_text_byte(byte: u8) -> bool
    ensures { result ≡ is_text_byte byte }
{
    byte != NUL && byte != CR && byte != LF
}
