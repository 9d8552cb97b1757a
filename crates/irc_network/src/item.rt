//! What is given to a network.
ghost use Rattle.std.specs.Prelude.{◌≡◌};
ghost use Rattle.irc_network.specs.Views.{item_of};

use crate::client_number::ClientNumber;
use irc_line::Line;
use irc_names::{Host, ServerName, copied};

/// What is given to a network, one after another, each where no line is on its way.
#[derive(Drop)]
pub enum Item {
    /// Somebody connects to a server, from a host.
    Connect(ServerName, Host),
    /// A client says a line, without its line end.
    Line(ClientNumber, Line),
    /// A client is gone.
    Gone(ClientNumber),
    /// Two servers are linked; the first calls the second (RFC 2813 section 4.1).
    Link(ServerName, ServerName),
    /// The link between two servers is lost, at the first of them first.
    Cut(ServerName, ServerName),
}

impl Item {
    /// The same once more. It takes no memory.
    pub fn copy(&self) -> Self
        ensures { item_of result ≡ item_of self.now }
    {
        match self {
            Item::Connect(server, host) => Item::Connect(server.copy(), host.copy()),
            Item::Line(client, line) => Item::Line(*client, copied(line.as_slice())),
            Item::Gone(client) => Item::Gone(*client),
            Item::Link(near, far) => Item::Link(near.copy(), far.copy()),
            Item::Cut(near, far) => Item::Cut(near.copy(), far.copy()),
        }
    }
}
