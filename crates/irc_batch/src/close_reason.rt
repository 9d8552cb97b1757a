//! Why a server ends a link.
use thiserror::Error;

/// Why a server ends a link (our own choice: RFC 2813 names no such numbers), in the order in which
/// causes are looked for in a line of a linked server; each has its number. Its text is told to
/// whoever runs the server.
#[derive(Clone, Copy, Debug, Drop, PartialEq, Eq, Error)]
pub enum CloseReason {
    /// No line of a link has this command.
    #[error("a line with an unknown command")]
    UnknownCommand = 1,
    /// There are too few or too many parameters, or one breaks its rule.
    #[error("a line with wrong parameters")]
    Parameters = 2,
    /// The number stands for no server (RFC 2813 section 4.1.2).
    #[error("a number of no server")]
    BadToken = 3,
    /// Whoever the line is from is not behind the link.
    #[error("a line from the wrong direction")]
    WrongDirection = 4,
    /// A word that should be a name is none.
    #[error("a word that is no name")]
    BadName = 5,
    /// The password is not that of the peer.
    #[error("a wrong password")]
    Password = 6,
    /// No peer of the server has this name.
    #[error("an unknown peer")]
    UnknownPeer = 7,
    /// A server that is introduced is known (RFC 2813 section 4.1.2).
    #[error("a server that is known already")]
    AlreadyKnown = 8,
    /// The line comes before its time, or after it: a handshake is first, and once (RFC 2813
    /// section 4.1).
    #[error("a line out of its time")]
    Order = 9,
    /// There is no room for one more server.
    #[error("no room for one more server")]
    Full = 10,
}
