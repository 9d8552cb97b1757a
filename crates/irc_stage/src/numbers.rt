//! The numbers of a server's links and of its clients' connections. Who calls a server numbers
//! both, each by itself: so each has a type, and none is taken for the other.
ghost use Rattle.std.specs.Prelude.{◌≡◌};

use std::marker::Model;

/// The number of a link.
#[derive(Clone, Copy, Eq, Ord, PartialEq, PartialOrd)]
pub struct Link(u64);

/// In a clause it is the number.
impl Model for Link {
    ghost use Rattle.std.specs.Prelude.{ℕ};

    ghost Value = { ℕ };

    ghost view = { λ link. link.0 };

    ghost inverse = { λ number. record { 0 = number } };
}

impl Link {
    /// The link of this number.
    pub fn of(number: u64) -> Self
        ensures { result ≡ number }
    {
        Link(number)
    }

    /// Its number.
    pub fn number(self) -> u64
        ensures { result ≡ self }
    {
        self.0
    }
}

/// The number of a client's connection.
#[derive(Clone, Copy, Eq, Ord, PartialEq, PartialOrd)]
pub struct Conn(u64);

/// In a clause it is the number.
impl Model for Conn {
    ghost use Rattle.std.specs.Prelude.{ℕ};

    ghost Value = { ℕ };

    ghost view = { λ conn. conn.0 };

    ghost inverse = { λ number. record { 0 = number } };
}

impl Conn {
    /// The connection of this number.
    pub fn of(number: u64) -> Self
        ensures { result ≡ number }
    {
        Conn(number)
    }

    /// Its number.
    pub fn number(self) -> u64
        ensures { result ≡ self }
    {
        self.0
    }
}
