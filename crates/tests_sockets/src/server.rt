//! The server of the tests.
ghost use Rattle.std.specs.Prelude.{IfSome};
ghost use Rattle.irc_engine.specs.Knowing.{HasNobody};

use irc_batch::{Batch, Out};
use irc_names::{Host, copied};
use irc_routes::Own;
use irc_server::{Config, Event, Peer, Server};
use std::alloc::Global;

/// A server a.net that nobody is connected to. It may be linked to b.net and c.net; these give the
/// passwords pw and pq.
pub(crate) fn server(alloc: Global) -> Option<Server>
    ensures { IfSome result HasNobody }
{
    made(alloc, config(alloc))
}

fn made(alloc: Global, config: Config) -> Option<Server>
    ensures { IfSome result HasNobody }
{
    match Server::new(alloc, config) {
        Ok(server) => Some(server),
        Err(_fault) => None,
    }
}

/// A text; an empty one, where memory runs out, and no server is made of that.
fn text(alloc: Global, bytes: &[u8]) -> Vec<u8, Global> {
    Vec::from_slice(alloc, bytes).unwrap_or(Vec::new(alloc))
}

fn peer(alloc: Global, name: &[u8], password: &[u8]) -> Peer {
    Peer {
        name: text(alloc, name),
        password: text(alloc, password),
    }
}

fn own(alloc: Global) -> Own {
    Own {
        name: text(alloc, b"a.net"),
        info: text(alloc, b"Test server"),
        created: text(alloc, b"2024-01-01"),
    }
}

fn peers(alloc: Global) -> Vec<Peer, Global> {
    let mut peers = Vec::new(alloc);
    let _ = peers.push(peer(alloc, b"b.net", b"pw"));
    let _ = peers.push(peer(alloc, b"c.net", b"pq"));
    peers
}

fn config(alloc: Global) -> Config {
    Config {
        own: own(alloc),
        peers: peers(alloc),
    }
}

/// One event more.
fn add(events: &mut Vec<Event, Global>, event: Event) {
    let _ = events.push(event);
}

/// Client 1 connects from a host, and becomes the user al.
fn coming(alloc: Global, host: Host) -> Vec<Event, Global> {
    let mut events = Vec::new(alloc);
    add(&mut events, Event::Connect(1, host));
    add(&mut events, Event::Line(1, copied(b"NICK al")));
    add(&mut events, Event::Line(1, copied(b"USER u 0 * :Al")));
    events
}

/// Whether something is a line to client 1 that begins so.
fn begins(out: Option<Out<'_>>, words: &[u8]) -> bool {
    match out {
        Some(Out::Line(1, line)) => line.starts_with(words),
        _ => false,
    }
}

/// Whether a server handles that client 1 comes, from a host, and welcomes it.
fn welcomes(alloc: Global, server: &mut Server, host: Host) -> bool {
    let mut out = Batch::new(alloc);
    let is_handled = server.handle_all(coming(alloc, host), &mut out).is_ok();
    is_handled & begins(out.get(0), b":a.net 001 al ")
}

/// Whether the server has client 1 then, and no client 2.
fn has_one(alloc: Global, server: &mut Server) -> bool {
    match Host::read(b"h") {
        Some(host) => {
            welcomes(alloc, server, host) && server.has_client(1) && !server.has_client(2)
        }
        None => false,
    }
}

fn handles_all(alloc: Global) -> bool {
    match server(alloc) {
        Some(mut server) => has_one(alloc, &mut server),
        None => false,
    }
}

#[test]
fn events_are_handled_in_turn(rt: HostRuntime) {
    assert!(rt; handles_all(rt.alloc()));
}
