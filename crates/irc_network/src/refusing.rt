//! What a network refuses.
ghost use Rattle.std.specs.Prelude.{◌≡◌};
ghost use Rattle.std.specs.Option.{option_copied, option_map};
ghost use Rattle.irc_network.specs.Refusing.{are_agreed, client_fault, fault_at_rest, is_there};
ghost use Rattle.irc_network.specs.Refusing.{server_fault, way_fault};
ghost use Rattle.irc_network.specs.Loops.Parties.{home_node, linking_fault, parties_fault};
ghost use Rattle.irc_network.specs.Loops.Parties.{have_one_password, IsParty, IsPartyOf};
ghost use Rattle.irc_network.specs.Network.{node_view};
ghost use Rattle.irc_network.specs.Views.{item_of, refusal_of};

use crate::client_number::ClientNumber;
use crate::history::History;
use crate::item::Item;
use crate::network::Network;
use crate::node::Node;
use crate::refusal::Refusal;
use irc_forest::{ServerPlace, agree};
use irc_names::ServerName;
use irc_room::Room;

/// A server that is to be an end of a link.
#[derive(Clone, Copy, Drop)]
struct Party<'a> {
    name: &'a ServerName,
    place: usize,
    node: &'a Node,
    room: &'a Room,
}

impl<H: History> Network<H> {
    /// Why an item is not taken where no line is on its way, if it is not: the first cause that
    /// there is.
    pub fn refusal(&self, item: &Item) -> Option<Refusal>
        ensures { option_map refusal_of result ≡ fault_at_rest self.now.network (item_of item.now) }
    {
        match item {
            Item::Connect(server, _) => self.server_fault(server),
            Item::Line(client, _) | Item::Gone(client) => self.client_fault(*client),
            Item::Link(near, far) => self.link_fault(near, far),
            Item::Cut(near, far) => self.way_refusal(near, far),
        }
    }

    /// No server has this name.
    fn server_fault(&self, server: &ServerName) -> Option<Refusal>
        ensures { option_map refusal_of result ≡ server_fault self.now.network server.now }
    {
        match self.forest.place_of(server) {
            Some(_) => None,
            None => Some(Refusal::NoSuchServer),
        }
    }

    /// No client of this number is connected.
    fn client_fault(&self, client: ClientNumber) -> Option<Refusal>
        ensures { option_map refusal_of result ≡ client_fault self.now.network client }
    {
        if self.is_there(client) {
            None
        } else {
            Some(Refusal::NoSuchClient)
        }
    }

    /// Whether a client of this number is connected.
    pub(crate) fn is_there(&self, client: ClientNumber) -> bool
        ensures { result ≡ is_there self.now.network client }
    {
        match self.home_node(client) {
            Some(node) => node.has_client(client.number()),
            None => false,
        }
    }

    /// The server that a client has connected to.
    fn home_node(&self, client: ClientNumber) -> Option<&Node>
        ensures { option_copied result ≡ home_node self.now.network client }
    {
        self.nodes.get(self.home_place(client)?.index())
    }

    /// Why no line goes from one server to another, if none does: one of them is not there, or no
    /// link is between them.
    pub fn way_refusal(&self, from: &ServerName, to: &ServerName) -> Option<Refusal>
        ensures { option_map refusal_of result ≡ way_fault self.now.network from.now to.now }
    {
        match self.ends_of(from, to) {
            Some(ends) if self.forest.are_linked(ends.near, ends.far) => None,
            Some(_) => Some(Refusal::NotLinked),
            None => Some(Refusal::NoSuchServer),
        }
    }

    /// Two servers are not there, or are not to be linked.
    fn link_fault(&self, near: &ServerName, far: &ServerName) -> Option<Refusal>
        ensures { option_map refusal_of result ≡ linking_fault self.now.network near.now far.now }
    {
        match self.party(near) {
            Some(one) => match self.party(far) {
                Some(other) => self.meeting_fault(one, other),
                None => Some(Refusal::NoSuchServer),
            },
            None => Some(Refusal::NoSuchServer),
        }
    }

    /// Two servers are in one part, or are no peers.
    fn meeting_fault(&self, one: Party<'_>, other: Party<'_>) -> Option<Refusal>
        requires one { IsPartyOf self.now.network one.name.now one }
        requires other { IsPartyOf self.now.network other.name.now other }
        ensures { option_map refusal_of result
            ≡ parties_fault self.now.network one.entry other.entry }
    {
        let (near, far) = (ServerPlace::at(one.place), ServerPlace::at(other.place));
        if self.forest.are_joined(near, far) || !are_peers(one, other) {
            Some(Refusal::LinkRefused)
        } else {
            None
        }
    }

    /// Whether two servers are there, and agree on all channels that both would have if they were
    /// linked. Nothing is refused for it.
    pub fn agrees(&self, one: &ServerName, other: &ServerName) -> bool
        ensures { result ≡ are_agreed (node_view self.now.network one.now)
            (node_view self.now.network other.now) }
    {
        match self.party(one) {
            Some(one) => match self.party(other) {
                Some(other) => agree(one.room, other.room),
                None => false,
            },
            None => false,
        }
    }

    /// A server that is there, with its room.
    fn party<'a>(&'a self, name: &'a ServerName) -> Option<Party<'a>>
        ensures { IsParty self.now.network name.now result }
    {
        let place = self.place_of(name)?;
        let node = self.node_at(place)?;
        let room = node.room()?;
        Some(Party {
            name,
            place: place.index(),
            node,
            room,
        })
    }
}

/// Whether two servers keep one password for each other.
fn are_peers(one: Party<'_>, other: Party<'_>) -> bool
    ensures { result ≡ have_one_password one.entry other.entry }
{
    match one.node.password_for(other.name.as_bytes()) {
        Some(password) => other.node.password_for(one.name.as_bytes()) == Some(password),
        None => false,
    }
}
