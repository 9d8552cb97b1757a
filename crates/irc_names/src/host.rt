//! Hosts.
ghost use Rattle.std.specs.Prelude.{◌≡◌, ◌≤◌, length, ⊤};
ghost use Rattle.std.specs.Option.{SomeIff};
ghost use Rattle.irc_names.specs.Names.{IsHost};

use crate::{MAX_HOST, copied, is_host};
use arrayvec::ArrayVec;
use std::alloc::AllocError;
use std::marker::Model;

/// A host, by name or by address: at most [`MAX_HOST`] bytes that [`is_host`] takes. Two are
/// compared byte by byte.
#[derive(Drop, Eq, Hash, Ord, PartialEq, PartialOrd)]
pub struct Host(ArrayVec<u8, MAX_HOST>);

/// In a clause it is the list of its bytes, of which its rule holds always.
impl Model for Host {
    ghost use Rattle.std.specs.Prelude.{ℕ, List};
    ghost use Rattle.irc_names.specs.Names.{IsHost};

    ghost Value = { List ℕ };

    ghost view = { λ host. host.0.items };

    ghost invariant = { λ host. IsHost host.0.items };

    ghost inverse = { λ bytes. record { 0 = record { items = bytes } } };
}

impl Host {
    /// The host that these bytes are, where [`is_host`] takes them.
    #[tactic(auto, using(crate::specs::Lemmas::RuleFacts::lengths))]
    pub fn read(bytes: &[u8]) -> Option<Self>
        ensures { SomeIff result (IsHost bytes.now) bytes.now }
    {
        if is_host(bytes) {
            Some(Host(copied(bytes)))
        } else {
            None
        }
    }

    /// The bytes of the host.
    pub fn as_bytes(&self) -> &[u8]
        ensures value { result.now ≡ self.now }
        ensures rule { IsHost self.now }
        ensures fits { length result.now ≤ MAX_HOST }
    {
        self.0.as_slice()
    }

    /// The same host once more. It takes no memory and cannot fail.
    pub fn copy(&self) -> Self
        ensures { result ≡ self.now }
    {
        Host(copied(self.as_bytes()))
    }
}

impl Clone for Host {
    ghost is_clone = { λ host clone. clone ≡ host };

    ghost is_infallible = { λ _. ⊤ };

    fn clone(&self) -> Result<Self, AllocError> {
        Ok(self.copy())
    }
}
