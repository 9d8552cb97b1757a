//! Why a line behind the handshake is not read.
use irc_batch::CloseReason;
use thiserror::Error;

/// Why a line behind the handshake, of a user or of a server, is not read.
#[derive(Clone, Copy, Debug, Drop, PartialEq, Eq, Error)]
pub enum BurstFault {
    /// The line closes the link.
    #[error("the line closes the link")]
    Closes(CloseReason),
    /// Memory ran out.
    #[error("out of memory")]
    Memory,
}
