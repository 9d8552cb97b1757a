//! A wire of TCP sockets that lets so many in from one address.
use crate::loopback::{LOOPBACK, TIMES, connected, end, is_idle, is_patient, listens, reported};
use irc_outbox::{Ready, Wire};
use irc_sockets::MioWire;
use std::alloc::{AllocError, Global};
use std::io::Read;
use std::net::TcpStream;

/// A wire, and sockets that have connected to it, one after another.
#[derive(Drop)]
struct Visited {
    wire: MioWire,
    sockets: Vec<TcpStream, Global>,
}

/// A wire that lets so many in.
fn opened(rt: &HostRuntime, connections_per_address: Option<u16>) -> Option<Visited> {
    match listens(rt, LOOPBACK, connections_per_address) {
        Some(wire) => Some(Visited {
            wire,
            sockets: Vec::new(rt.alloc()),
        }),
        None => None,
    }
}

fn add(sockets: &mut Vec<TcpStream, Global>, socket: TcpStream) -> Result<(), AllocError> {
    sockets.push(socket)?;
    Ok(())
}

/// Whether a socket is closed at the other end, which has said nothing.
fn is_closed(socket: &mut TcpStream) -> bool {
    let mut buffer = [0u8; 1];
    is_patient(socket) && matches!(socket.read(&mut buffer), Ok(0))
}

impl Visited {
    /// Lets all go.
    fn end(self) {
        end(self.wire);
    }

    /// Whether one more socket has connected.
    fn connects(&mut self, rt: &HostRuntime) -> bool {
        match connected(rt, &self.wire) {
            Some(socket) => add(&mut self.sockets, socket).is_ok(),
            None => false,
        }
    }

    /// The number of a client that is reported.
    fn come(&mut self) -> Option<u64> {
        match reported(&mut self.wire, TIMES)? {
            Ready::Client(conn, _) => Some(conn),
            _ => None,
        }
    }

    /// Whether nobody is reported, and the socket at a place is closed.
    fn refuses(&mut self, place: usize) -> bool {
        match self.sockets.get_mut(place) {
            Some(socket) => is_idle(&mut self.wire) && is_closed(socket),
            None => false,
        }
    }
}

/// Whether of three clients the last is closed unreported, where two may come. The second's number.
fn lets_two_in(rt: &HostRuntime, visited: &mut Visited) -> Option<u64> {
    if !(visited.connects(rt) && visited.connects(rt) && visited.connects(rt)) {
        return None;
    }
    let first = visited.come()?;
    let second = visited.come()?;
    let is_refused = visited.refuses(2);
    visited.wire.close(first);
    is_refused.then_some(second)
}

/// Whether of two more one comes once the first is gone, with a number of its own.
fn lets_one_in(rt: &HostRuntime, visited: &mut Visited, second: u64) -> bool {
    visited.connects(rt)
        && visited.connects(rt)
        && visited.come().is_some_and(|third| second != third)
        && is_idle(&mut visited.wire)
}

fn limits(rt: &HostRuntime, visited: &mut Visited) -> bool {
    match lets_two_in(rt, visited) {
        Some(second) => lets_one_in(rt, visited, second),
        None => false,
    }
}

fn is_limited(rt: &HostRuntime) -> bool {
    match opened(rt, Some(2)) {
        Some(mut visited) => {
            let is_so = limits(rt, &mut visited);
            visited.end();
            is_so
        }
        None => false,
    }
}

#[test]
fn two_are_let_in_where_two_may(rt: HostRuntime) {
    assert!(rt; is_limited(&rt));
}

/// Whether four clients come, the last of which has the number 3.
fn lets_all_in(rt: &HostRuntime, visited: &mut Visited) -> bool {
    let mut are_here = true;
    for _client in 0..4 {
        are_here &= visited.connects(rt);
    }
    let mut last = None;
    for _client in 0..4 {
        last = visited.come();
        are_here &= last.is_some();
    }
    are_here && last == Some(3)
}

/// Whether all of four clients come, where there is no limit.
fn are_all_let_in(rt: &HostRuntime) -> bool {
    match opened(rt, None) {
        Some(mut visited) => {
            let is_so = lets_all_in(rt, &mut visited);
            visited.end();
            is_so
        }
        None => false,
    }
}

#[test]
fn all_are_let_in_without_a_limit(rt: HostRuntime) {
    assert!(rt; are_all_let_in(&rt));
}
