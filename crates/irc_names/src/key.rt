//! Keys of channels.
ghost use Rattle.std.specs.Prelude.{◌≡◌, ◌≤◌, length};
ghost use Rattle.std.specs.Option.{SomeIff};
ghost use Rattle.irc_names.specs.Names.{IsKey};

use crate::{MAX_KEY, copied, is_key};
use arrayvec::ArrayVec;
use std::marker::Model;

/// A channel's key, which [`is_key`] takes.
#[derive(Drop)]
pub struct Key(ArrayVec<u8, MAX_KEY>);

/// In a clause it is the list of its bytes.
impl Model for Key {
    ghost use Rattle.std.specs.Prelude.{ℕ, List};
    ghost use Rattle.irc_names.specs.Names.{IsKey};

    ghost Value = { List ℕ };

    ghost view = { λ key. key.0.items };

    ghost invariant = { λ key. IsKey key.0.items };

    ghost inverse = { λ bytes. record { 0 = record { items = bytes } } };
}

impl Key {
    /// The key that these bytes are, where [`is_key`] takes them.
    #[tactic(auto, using(crate::specs::Lemmas::RuleFacts::lengths))]
    pub fn read(bytes: &[u8]) -> Option<Self>
        ensures { SomeIff result (IsKey bytes.now) bytes.now }
    {
        if is_key(bytes) {
            Some(Key(copied(bytes)))
        } else {
            None
        }
    }

    /// The bytes of the key.
    pub fn as_bytes(&self) -> &[u8]
        ensures value { result.now ≡ self.now }
        ensures rule { IsKey self.now }
        ensures fits { length result.now ≤ MAX_KEY }
    {
        self.0.as_slice()
    }

    /// The same key once more. It takes no memory and cannot fail.
    pub fn copy(&self) -> Self
        ensures { result ≡ self.now }
    {
        Key(copied(self.as_bytes()))
    }
}
