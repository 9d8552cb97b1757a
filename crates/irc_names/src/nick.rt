//! Nicknames.
ghost use Rattle.std.specs.Prelude.{◌≡◌, ◌≤◌, length, ⊤};
ghost use Rattle.std.specs.Option.{SomeIff};
ghost use Rattle.irc_names.specs.Names.{IsNick};

use crate::name_bytes::NameBytes;
use crate::{MAX_NICK, is_nick};
use std::alloc::AllocError;
use std::marker::Model;

/// A nickname: at most [`MAX_NICK`] bytes that [`is_nick`] takes, as spelled. Two are equal where
/// their folds are, and stand in the order of their folds.
#[derive(Drop, Eq, Hash, Ord, PartialEq, PartialOrd)]
pub struct Nick(NameBytes<MAX_NICK>);

/// In a clause it is the list of its bytes, of which its rule holds always.
impl Model for Nick {
    ghost use Rattle.std.specs.Prelude.{ℕ, List};
    ghost use Rattle.irc_names.specs.Names.{IsNick};

    ghost Value = { List ℕ };

    ghost view = { λ nick. nick.0 };

    ghost invariant = { λ nick. IsNick nick.0 };

    ghost inverse = { λ bytes. record { 0 = bytes } };
}

impl Nick {
    /// The nickname that these bytes are, where [`is_nick`] takes them.
    #[tactic(auto, using(crate::specs::Lemmas::RuleFacts::lengths))]
    pub fn read(bytes: &[u8]) -> Option<Self>
        ensures { SomeIff result (IsNick bytes.now) bytes.now }
    {
        if is_nick(bytes) {
            Some(Nick(NameBytes::of(bytes)))
        } else {
            None
        }
    }

    /// The bytes of the nickname.
    pub fn as_bytes(&self) -> &[u8]
        ensures value { result.now ≡ self.now }
        ensures rule { IsNick self.now }
        ensures fits { length result.now ≤ MAX_NICK }
    {
        self.0.as_bytes()
    }

    /// The same nickname once more. It takes no memory and cannot fail.
    pub fn copy(&self) -> Self
        ensures { result ≡ self.now }
    {
        Nick(NameBytes::of(self.as_bytes()))
    }
}

impl Clone for Nick {
    ghost is_clone = { λ nick clone. clone ≡ nick };

    ghost is_infallible = { λ _. ⊤ };

    fn clone(&self) -> Result<Self, AllocError> {
        Ok(self.copy())
    }
}
