//! Why a server is not added.
use thiserror::Error;

/// Why a server is not added to those that are known, in the order in which causes are looked for.
#[derive(Clone, Copy, Debug, PartialEq, Eq, Error)]
pub enum RoutesFault {
    /// A server of that name is known, or it is the server itself.
    #[error("the server is known")]
    Known,
    /// The name is no server's name.
    #[error("no server's name")]
    BadName,
    /// There are as many servers as there may be.
    #[error("too many servers")]
    Full,
    /// Memory ran out.
    #[error("out of memory")]
    Memory,
}
