//! Why a network refuses what it is asked for.
ghost use Rattle.std.specs.Prelude.{◌≡◌};
ghost use Rattle.irc_net.specs.Faults.{is_refusal};

use irc_network::Refusal;
use std::alloc::AllocError;
use thiserror::Error;

/// Why a network refuses what it is asked for, in the order in which causes are looked for after
/// [`NetFault::Failed`]; each has its number, and 6 is none. The first five change nothing.
#[derive(Clone, Copy, Debug, Drop, Error, PartialEq, Eq)]
pub enum NetFault {
    /// A byte is on its way between servers, or a part of a line has come.
    #[error("a line is on its way")]
    NotAtRest = 1,
    /// No server has this name.
    #[error("no such server")]
    NoSuchServer = 2,
    /// No client of this number is connected.
    #[error("no such client")]
    NoSuchClient = 3,
    /// No link is between the two servers.
    #[error("the servers are not linked")]
    NotLinked = 4,
    /// The two servers are in one part already, or do not keep one password for each other.
    #[error("the servers cannot be linked")]
    LinkRefused = 5,
    /// Memory ran out. The network answers [`NetFault::Failed`] from then on.
    #[error("out of memory")]
    Memory = 7,
    /// Memory ran out before.
    #[error("the network has failed")]
    Failed = 8,
}

impl From<AllocError> for NetFault {
    ghost use Rattle.std.specs.Prelude.{◌≡◌};
    ghost use Rattle.irc_net.specs.declared.fault.NetFault.TheVariants.{Memory};

    ghost from_gives = { λ _ fault. fault ≡ Memory };

    fn from(_: AllocError) -> Self {
        NetFault::Memory
    }
}

impl From<Refusal> for NetFault {
    ghost use Rattle.std.specs.Prelude.{◌≡◌};
    ghost use Rattle.irc_net.specs.Faults.{fault_by};
    ghost use Rattle.irc_network.specs.Views.{refusal_of};

    ghost from_gives = { λ refusal fault. fault ≡ fault_by (refusal_of refusal) };

    fn from(refusal: Refusal) -> Self {
        match refusal {
            Refusal::NoSuchServer => NetFault::NoSuchServer,
            Refusal::NoSuchClient => NetFault::NoSuchClient,
            Refusal::NotLinked => NetFault::NotLinked,
            Refusal::LinkRefused => NetFault::LinkRefused,
        }
    }
}

impl NetFault {
    /// Whether it is a refusal, which changes nothing, rather than want of memory.
    pub fn is_refusal(self) -> bool
        ensures { result ≡ is_refusal self }
    {
        !matches!(self, NetFault::Memory | NetFault::Failed)
    }
}
