//! What a server is at a moment, to who asks.
ghost use Rattle.std.specs.Prelude.{◌≡◌};
ghost use Rattle.std.specs.FinMap.{get};
ghost use Rattle.std.specs.Option.{option_copied};
ghost use Rattle.irc_stage.specs.View.{password_for};
ghost use Rattle.irc_stage.specs.Loops.Parts.{view_of};

use crate::clients::Client;
use crate::link_end::LinkEnd;
use crate::numbers::{Conn, Link};
use crate::parts::ServerParts;
use irc_room::Room;
use irc_routes::Routes;
use std::alloc::Global;
use std::marker::Model;

/// What a server is at a moment: nothing is changed by it.
#[derive(Drop)]
pub struct View<'a> {
    parts: &'a ServerParts,
}

/// In a clause it is what the server is to those above.
impl<'a> Model for View<'a> {
    ghost use Rattle.irc_users.specs.UserTable.{users_code};
    ghost use Rattle.irc_channels.specs.contracts.channel.Channel.{the_row as channel_row};
    ghost use Rattle.irc_routes.specs.contracts.routes.Routes.{the_row as routes_row};
    ghost use Rattle.irc_stage.specs.contracts.clients.Client.{the_row as client_row};
    ghost use Rattle.irc_stage.specs.View.{View};
    ghost use Rattle.irc_stage.specs.Loops.Codes.{view_code};
    ghost use Rattle.irc_stage.specs.Loops.Parts.{view_of};

    ghost Value = { View };

    ghost coded = { view_code routes_row.coded client_row.coded users_code channel_row.coded };

    ghost view = { λ v. view_of v.parts.now };
}

impl<'a> View<'a> {
    /// That of a server.
    pub(crate) fn of(parts: &'a ServerParts) -> Self
        ensures { result ≡ view_of parts.now }
    {
        View { parts }
    }

    /// Where the server takes memory from.
    pub fn alloc(&self) -> Global {
        self.parts.alloc()
    }

    /// Its own row, and the servers that it knows.
    pub fn routes(&self) -> &'a Routes
        ensures { result.now ≡ self.now.routes }
    {
        self.parts.routes()
    }

    /// Its room.
    pub fn room(&self) -> &'a Room
        ensures { result.now.room ≡ self.now.room }
    {
        self.parts.room()
    }

    /// The password that it and the peer of a name give each other, if it has such a peer.
    pub fn password_for(&self, name: &[u8]) -> Option<&'a [u8]>
        ensures { option_copied result ≡ password_for self.now name.now }
    {
        self.parts.password_for(name)
    }

    /// The client of a connection, if there is one.
    pub fn client_of(&self, conn: Conn) -> Option<&'a Client>
        ensures { option_copied result ≡ get self.now.clients conn }
    {
        self.parts.client_of(conn)
    }

    /// The end of a link, if it is open.
    pub fn end(&self, link: Link) -> Option<&'a LinkEnd>
        ensures { option_copied result ≡ get self.now.ends link }
    {
        self.parts.end(link)
    }
}
