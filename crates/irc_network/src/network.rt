//! A network: its servers, what is done to it, and what is refused.
ghost use Rattle.std.specs.Prelude.{◌≡◌, ◌<◌, length, map, IfOk, IfSome};
ghost use Rattle.std.specs.Option.{option_copied, option_map};
ghost use Rattle.irc_forest.specs.Forests.{name_at};
ghost use Rattle.irc_network.specs.Loops.Progress.{AreNamed, AreWithin};
ghost use Rattle.irc_network.specs.Loops.Progress.{ends_now, inbox_of};
ghost use Rattle.irc_network.specs.Views.{line_bytes};
ghost use Rattle.irc_network.specs.Network.{home_place, link_places, new_network, next_client};
ghost use Rattle.irc_network.specs.Network.{number_given, received_by, server_place, node_at};
ghost use Rattle.irc_network.specs.Views.{item_of, items_of};
ghost use Rattle.irc_network.specs.Whole.{no_pipes};
ghost use Rattle.irc_world.specs.World.{home_in};

use crate::client_number::ClientNumber;
use crate::history::History;
use crate::inbox::Inbox;
use crate::item::Item;
use crate::kept::Kept;
use crate::node::Node;
use irc_forest::{EndPlaces, Forest, ServerPlace};
use irc_line::Text;
use irc_names::ServerName;
use irc_pipes::Pipes;
use std::alloc::{AllocError, Global};
use std::marker::Model;

/// A network of servers, the bytes that are on their way along its links, and its history: what was
/// given to it, and what each client has received. What a server puts out on a link is written
/// there at once.
#[derive(Drop)]
pub struct Network<H: History> {
    pub(crate) alloc: Global,
    pub(crate) forest: Forest,
    /// In the order of their names.
    pub(crate) nodes: Vec<Node, Global>,
    pub(crate) pipes: Pipes,
    /// The home of each client, in the order of their numbers.
    pub(crate) homes: Vec<ServerName, Global>,
    pub(crate) history: H,
    /// How many lines were taken since the last item.
    pub(crate) taken: u64,
}

/// In a clause it is its names, servers, links, clients, items and what clients have received, and
/// what is on its way.
impl<H: History> Model for Network<H> {
    ghost use Rattle.std.specs.Prelude.{◌≡◌, length};
    ghost use Rattle.irc_network.specs.ByteNetwork.{ByteNetwork};
    ghost use Rattle.irc_network.specs.Loops.Codes.{byte_network_code};

    ghost Value = { ByteNetwork };

    ghost coded = { byte_network_code };

    ghost view = { λ n. record {
      network = record {
        names = n.forest.names;
        nodes = n.nodes.items;
        links = n.forest.links;
        homes = n.homes.items;
        received = (H.past n.history).received;
        items = (H.past n.history).items;
        taken = n.taken;
      };
      pipes = n.pipes;
    } };

    ghost invariant = { λ n. length (H.past n.history).received ≡ length n.homes.items };
}

impl Network<Kept> {
    /// What was given, in turn.
    pub fn items(&self) -> &[Item]
        ensures { items_of result.now ≡ self.now.network.items }
    {
        self.history.items.as_slice()
    }

    /// What a client has received, whole lines, the oldest first; also once it is closed. Nothing
    /// for a number that was never given.
    pub fn received(&self, client: ClientNumber) -> &[Text]
        ensures { map line_bytes result.now ≡ received_by self.now.network client }
    {
        match self.inbox(client) {
            Some(inbox) => inbox.as_slice(),
            None => &[],
        }
    }

    fn inbox(&self, client: ClientNumber) -> Option<&Inbox>
        ensures { option_copied result ≡ inbox_of self.now.network client }
    {
        self.history.received.get(client.earlier()?)
    }
}

impl<H: History> Network<H> {
    /// Servers that are not linked, and no client. The nodes are in turn those of the forest's
    /// names, in the order of the names.
    ///
    /// # Errors
    /// Where memory runs out.
    pub fn new(alloc: Global, forest: Forest, nodes: Vec<Node, Global>) -> Result<Self, AllocError>
        ensures { IfOk result (λ net. net ≡ no_pipes (new_network forest nodes.items)) }
    {
        let pipes = Pipes::new(alloc, nodes.len())?;
        Ok(Network {
            alloc,
            forest,
            nodes,
            pipes,
            homes: Vec::new(alloc),
            history: H::new(alloc),
            taken: 0,
        })
    }

    /// How many lines were taken since the last item, at most 2^64 - 1.
    pub fn lines_taken(&self) -> u64
        ensures { result ≡ self.now.network.taken }
    {
        self.taken
    }

    /// The number for the next client.
    pub(crate) fn next_client(&self) -> ClientNumber
        ensures { result ≡ next_client self.now.network }
    {
        ClientNumber::behind(&self.homes)
    }

    /// The number that an item gives to a client, which is the one that connects by it; none where
    /// nobody does.
    pub fn number_given(&self, item: &Item) -> Option<ClientNumber>
        ensures { result ≡ number_given self.now.network (item_of item.now) }
    {
        match item {
            Item::Connect(_, _) => Some(self.next_client()),
            _ => None,
        }
    }

    /// Where the server is that a client has connected to.
    pub(crate) fn home_place(&self, client: ClientNumber) -> Option<ServerPlace>
        ensures { result ≡ home_place self.now.network client }
    {
        self.forest.place_of(self.home(client)?)
    }

    fn home(&self, client: ClientNumber) -> Option<&ServerName>
        ensures { option_copied result ≡ home_in self.now.network.homes client }
    {
        self.homes.get(client.earlier()?)
    }

    /// Where the server of a name is.
    pub(crate) fn place_of(&self, name: &ServerName) -> Option<ServerPlace>
        ensures value { result ≡ server_place self.now.network name.now }
        ensures within { IfSome result (λ place. place < length self.now.network.names) }
        ensures named { IfSome result (λ place. name_at self.now.network.names place ≡ name.now) }
    {
        self.forest.place_of(name)
    }

    /// The server at a place.
    pub(crate) fn node_at(&self, place: ServerPlace) -> Option<&Node>
        ensures { option_copied result ≡ node_at self.now.network place }
    {
        self.nodes.get(place.index())
    }

    /// Where two servers are, if both are there.
    pub fn ends_of(&self, near: &ServerName, far: &ServerName) -> Option<EndPlaces>
        ensures ends { option_map ends_now result ≡ link_places self.now.network near.now far.now }
        ensures within { IfSome result (λ ends. AreWithin self.now.network ends) }
        ensures named { IfSome result (λ ends. AreNamed self.now.network ends near.now far.now) }
    {
        Some(EndPlaces {
            near: self.place_of(near)?,
            far: self.place_of(far)?,
        })
    }
}
