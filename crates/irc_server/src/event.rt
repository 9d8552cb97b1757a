//! What happens to a server, and what it refuses.
use irc_line::Line;
use irc_names::{Host, ServerName};
use std::alloc::AllocError;
use thiserror::Error;

/// What happens to a server. Connections and links are numbered by the caller.
#[derive(Drop)]
pub enum Event {
    /// A client connects from a host.
    Connect(u64, Host),
    /// A line of a client, without its line end.
    Line(u64, Line),
    /// A client is gone.
    Gone(u64),
    /// A link is open: this end calls the peer of this name, or is called (RFC 2813 section 4.1).
    LinkUp(u64, Option<ServerName>),
    /// A line of the server at the other end of a link, without its line end.
    LinkLine(u64, Line),
    /// A link is lost.
    LinkDown(u64),
}

/// Why an event is refused. [`ServerFault::Failed`] is looked for first, whatever the event; then
/// the one cause that this kind of event can have, as [`crate::Server::handle`] names it for each;
/// [`ServerFault::Memory`] comes of an event that is being handled.
#[derive(Clone, Copy, Debug, Drop, Error, PartialEq, Eq)]
pub enum ServerFault {
    /// Memory ran out. The server answers [`ServerFault::Failed`] from then on.
    #[error("out of memory")]
    Memory,
    /// Memory ran out before.
    #[error("the server has failed")]
    Failed,
    /// No connection has this number.
    #[error("no such connection")]
    NoSuchConnection,
    /// A connection has this number already.
    #[error("the connection is there")]
    ConnectionThere,
    /// No link has this number.
    #[error("no such link")]
    NoSuchLink,
    /// A link has this number already.
    #[error("the link is there")]
    LinkThere,
}

impl From<AllocError> for ServerFault {
    ghost use Rattle.std.specs.Prelude.{◌≡◌};
    ghost use Rattle.irc_server.specs.declared.event.ServerFault.TheVariants.{Memory};

    ghost from_gives = { λ _ fault. fault ≡ Memory };

    fn from(_: AllocError) -> Self {
        ServerFault::Memory
    }
}
