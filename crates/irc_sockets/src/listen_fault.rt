//! Why nobody can come.
ghost use Rattle.std.specs.Prelude.{◌≡◌};
ghost use Rattle.irc_sockets.specs.declared.listen_fault.ListenFault.TheVariants.{Memory, Other};

use std::alloc::AllocError;
use std::io;
use std::net::SocketAddr;
use thiserror::Error;

/// Why nobody can come.
#[derive(Debug, Drop, Error)]
pub enum ListenFault {
    /// The system does not let this server listen at this address.
    #[error("cannot listen on {0}: {1}")]
    Address(SocketAddr, io::Error),
    /// The system refuses what has no address, for want of a descriptor or of memory.
    #[error("{0}")]
    Other(io::Error),
    /// Memory ran out.
    #[error("out of memory")]
    Memory,
}

impl From<io::Error> for ListenFault {
    ghost from_gives = { λ error fault. fault ≡ Other error };

    fn from(error: io::Error) -> Self {
        ListenFault::Other(error)
    }
}

impl From<AllocError> for ListenFault {
    ghost from_gives = { λ _ fault. fault ≡ Memory };

    fn from(_error: AllocError) -> Self {
        ListenFault::Memory
    }
}
