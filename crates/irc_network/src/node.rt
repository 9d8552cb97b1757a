//! A server of a network, and the ways from it.
ghost use Rattle.std.specs.Prelude.{◌≡◌, [], is_some, OnOk};
ghost use Rattle.std.specs.FinMap.{empty, get};
ghost use Rattle.std.specs.Option.{option_copied, option_map};
ghost use Rattle.irc_server.specs.ReadEvents.{read_event_of};
ghost use Rattle.irc_server.specs.Loops.Acting.{room_kept, room_of};
ghost use Rattle.irc_network.specs.Node.{is_connected, kept_for, with_way, without_way, Replies};
ghost use Rattle.irc_network.specs.Loops.Nodes.{is_want};

use irc_batch::Batch;
use irc_room::Room;
use irc_server::{Event, Server, ServerFault};
use std::alloc::{AllocError, Global};
use std::collections::BTreeMap;
use std::marker::Model;

/// A server of a network, and the ways from it, under the place of the server that each goes to.
#[derive(Drop)]
pub struct Node {
    server: Server,
    ways: BTreeMap<u64, OpenWay, Global>,
}

/// A way to another server. What goes there is on a pipe.
#[derive(Drop)]
struct OpenWay {}

/// In a clause it is the lines that wait on it: none.
impl Model for OpenWay {
    ghost use Rattle.std.specs.Prelude.{ℕ, List, []};

    ghost Value = { List (List ℕ) };

    ghost view = { λ way. [] };
}

/// In a clause it is what the server is to those above, and its ways.
impl Model for Node {
    ghost use Rattle.irc_stage.specs.Loops.Numbered.{numbered};
    ghost use Rattle.irc_network.specs.Node.{Node};
    ghost use Rattle.irc_network.specs.Loops.NodeCodes.{node_code};
    ghost use Rattle.irc_server.specs.contracts.server.Server.{the_row as server_row};

    ghost Value = { Node };

    ghost coded = { node_code server_row.coded };

    ghost view = { λ node. record { server = node.server; queues = numbered node.ways } };
}

impl Node {
    /// A server from which no way goes.
    pub fn new(alloc: Global, server: Server) -> Self
        ensures { result ≡ record { server = server; queues = empty } }
    {
        Node {
            server,
            ways: BTreeMap::new(alloc),
        }
    }

    /// The server's room; none once memory ran out for it.
    pub fn room(&self) -> Option<&Room>
        ensures { option_map room_kept (option_copied result) ≡ option_map room_of self.now.server }
    {
        self.server.room()
    }

    /// The password that the server and the peer of a name give each other.
    pub fn password_for(&self, name: &[u8]) -> Option<&[u8]>
        ensures { option_copied result ≡ kept_for self.now name.now }
    {
        self.server.password_for(name)
    }

    /// Whether a client is connected to the server.
    pub fn has_client(&self, client: u64) -> bool
        ensures { result ≡ is_connected self.now client }
    {
        self.server.has_client(client)
    }

    /// Asks the server for an event. What it puts out is in `out`; an event that it refuses changes
    /// nothing.
    ///
    /// # Errors
    /// Where memory runs out, or ran out for this server before.
    pub fn serve(&mut self, event: &Event, out: &mut Batch) -> Result<(), AllocError>
        requires none { out.old.outs ≡ [] }
        ensures { OnOk result
            (Replies self.old (read_event_of event.now) self.new out.new.outs) }
    {
        let handled = self.server.handle(event, out);
        if is_want_of_memory(handled) {
            return Err(AllocError);
        }
        Ok(())
    }

    /// Whether a way goes to this place.
    pub fn has_way(&self, to: u64) -> bool
        ensures { result ≡ is_some (get self.now.queues to) }
    {
        self.ways.get(&to).is_some()
    }

    /// From now on a way goes to this place.
    ///
    /// # Errors
    /// Where memory runs out.
    pub fn open_way(&mut self, to: u64) -> Result<(), AllocError>
        ensures { OnOk result (self.new ≡ with_way to self.old) }
    {
        match self.ways.insert(to, OpenWay {}) {
            Ok(_) => Ok(()),
            Err(_) => Err(AllocError),
        }
    }

    /// No way goes to this place any more.
    pub fn close_way(&mut self, to: u64)
        ensures { self.new ≡ without_way to self.old }
    {
        self.ways.remove(&to);
    }
}

/// Whether memory ran out for a server, now or before.
fn is_want_of_memory(handled: Result<(), ServerFault>) -> bool
    ensures { result ≡ is_want handled }
{
    matches!(handled, Err(ServerFault::Memory | ServerFault::Failed))
}
