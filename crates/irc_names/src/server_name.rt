//! Names of servers.
ghost use Rattle.std.specs.Prelude.{◌≡◌, ◌≤◌, length, ⊤};
ghost use Rattle.std.specs.Option.{SomeIff};
ghost use Rattle.irc_names.specs.Names.{IsServer};

use crate::{MAX_SERVER, copied, is_server};
use arrayvec::ArrayVec;
use std::alloc::AllocError;
use std::marker::Model;

/// The name of a server: at most [`MAX_SERVER`] bytes that [`is_server`] takes. Two are compared
/// byte by byte.
#[derive(Drop, Eq, Hash, Ord, PartialEq, PartialOrd)]
pub struct ServerName(ArrayVec<u8, MAX_SERVER>);

/// In a clause it is the list of its bytes, of which its rule holds always.
impl Model for ServerName {
    ghost use Rattle.std.specs.Prelude.{ℕ, List};
    ghost use Rattle.irc_names.specs.Names.{IsServer};

    ghost Value = { List ℕ };

    ghost view = { λ server. server.0.items };

    ghost invariant = { λ server. IsServer server.0.items };

    ghost inverse = { λ bytes. record { 0 = record { items = bytes } } };
}

impl ServerName {
    /// The server's name that these bytes are, where [`is_server`] takes them.
    #[tactic(auto, using(crate::specs::Lemmas::RuleFacts::lengths))]
    pub fn read(bytes: &[u8]) -> Option<Self>
        ensures { SomeIff result (IsServer bytes.now) bytes.now }
    {
        if is_server(bytes) {
            Some(ServerName(copied(bytes)))
        } else {
            None
        }
    }

    /// The bytes of the server's name.
    pub fn as_bytes(&self) -> &[u8]
        ensures value { result.now ≡ self.now }
        ensures rule { IsServer self.now }
        ensures fits { length result.now ≤ MAX_SERVER }
    {
        self.0.as_slice()
    }

    /// The same server's name once more. It takes no memory and cannot fail.
    pub fn copy(&self) -> Self
        ensures { result ≡ self.now }
    {
        ServerName(copied(self.as_bytes()))
    }
}

impl Clone for ServerName {
    ghost is_clone = { λ server clone. clone ≡ server };

    ghost is_infallible = { λ _. ⊤ };

    fn clone(&self) -> Result<Self, AllocError> {
        Ok(self.copy())
    }
}
