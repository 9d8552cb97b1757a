//! The numbers of a network's clients.
ghost use Rattle.std.specs.Prelude.{◌≡◌, ◌+◌, length};
ghost use Rattle.irc_network.specs.Loops.Progress.{IsEarlier};

use irc_names::ServerName;
use std::marker::Model;

/// The number of a client. They are numbered from 1, in the order in which they connect; 0 is
/// nobody's.
#[derive(Clone, Copy, Drop, Eq, PartialEq)]
pub struct ClientNumber(u64);

/// In a clause it is the number.
impl Model for ClientNumber {
    ghost use Rattle.std.specs.Prelude.{ℕ};

    ghost Value = { ℕ };

    ghost view = { λ client. client.0 };

    ghost inverse = { λ number. record { 0 = number } };
}

impl ClientNumber {
    /// The client of this number.
    pub fn of(number: u64) -> Self
        ensures { result ≡ number }
    {
        ClientNumber(number)
    }

    /// Its number.
    pub fn number(self) -> u64
        ensures { result ≡ self }
    {
        self.0
    }

    /// The client that connects behind those that have connected to these servers.
    pub(crate) fn behind(homes: &[ServerName]) -> Self
        ensures { result ≡ length homes.now + 1 }
    {
        ClientNumber(homes.len() as u64 + 1)
    }

    /// How many clients have connected before it; none for nobody.
    pub(crate) fn earlier(self) -> Option<usize>
        ensures { IsEarlier self result }
    {
        Some(self.0.checked_sub(1)? as usize)
    }
}
