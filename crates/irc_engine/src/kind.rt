//! The two kinds of connection: what the server is told of each.
ghost use Rattle.std.specs.Prelude.{◌≡◌};
ghost use Rattle.irc_engine.specs.Hearing.{end_event_of, line_event_of};

use irc_line::Line;
use irc_server::Event;

/// What is at the other end of a connection.
#[derive(Clone, Copy, Drop)]
pub enum ConnectionKind {
    /// A client.
    Client,
    /// A server: the connection is a link.
    Link,
}

impl ConnectionKind {
    /// The event by which the server is told a line of a connection of this kind.
    pub(crate) fn line_event(self, conn: u64, line: Line) -> Event
        ensures { result ≡ line_event_of self conn line }
    {
        match self {
            ConnectionKind::Client => Event::Line(conn, line),
            ConnectionKind::Link => Event::LinkLine(conn, line),
        }
    }

    /// The event by which the server is told that a connection of this kind is gone.
    pub(crate) fn end_event(self, conn: u64) -> Event
        ensures { result ≡ end_event_of self conn }
    {
        match self {
            ConnectionKind::Client => Event::Gone(conn),
            ConnectionKind::Link => Event::LinkDown(conn),
        }
    }
}
