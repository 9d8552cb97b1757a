//! Who acts.
ghost use Rattle.std.specs.Prelude.{◌≡◌, Some};
ghost use Rattle.irc_stage.specs.Loops.Speaking.{arrival_of, conn_of};

use crate::numbers::{Conn, Link};
use irc_names::Nick;

/// A client that acts: it is looked up once, and named by this from then on.
#[derive(Clone, Copy)]
pub struct Speaker<'a> {
    conn: u64,
    /// The nickname that it has, or has chosen so far: replies are sent to it.
    pub(crate) nick: Option<&'a Nick>,
}

impl<'a> Speaker<'a> {
    /// The client of a connection, and the nickname that it has, or has chosen so far.
    pub fn new(conn: Conn, nick: Option<&'a Nick>) -> Self
        ensures { result ≡ record { conn = conn; nick = nick.entry } }
    {
        Speaker {
            conn: conn.number(),
            nick,
        }
    }

    /// The number of its connection.
    pub(crate) fn conn(self) -> Conn
        ensures { result ≡ self.entry.conn }
    {
        Conn::of(self.conn)
    }
}

/// Who acts.
#[derive(Clone, Copy)]
pub enum Origin<'a> {
    /// A client of the server.
    Client(Speaker<'a>),
    /// The server at the other end of the link of this number: see [`Origin::link`].
    Link(u64),
    /// The server itself.
    Own,
}

impl Origin<'_> {
    /// The server at the other end of a link.
    pub fn link(link: Link) -> Self
        ensures { arrival_of result ≡ Some link }
    {
        Origin::Link(link.number())
    }

    /// The connection of who acts, where it is a client: what it says in a channel is not passed on
    /// to it.
    pub(crate) fn conn(self) -> Option<Conn>
        ensures { result ≡ conn_of self.entry }
    {
        match self {
            Origin::Client(speaker) => Some(speaker.conn()),
            Origin::Link(_) => None,
            Origin::Own => None,
        }
    }

    /// The link by which an effect came, where it came by one.
    pub(crate) fn arrival(self) -> Option<Link>
        ensures { result ≡ arrival_of self.entry }
    {
        match self {
            Origin::Client(_) => None,
            Origin::Link(link) => Some(Link::of(link)),
            Origin::Own => None,
        }
    }
}
