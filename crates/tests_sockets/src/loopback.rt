//! Wires of TCP sockets on the loopback address, and what they report.
use irc_names::ServerName;
use irc_outbox::{Ready, Wire};
use irc_sockets::{Callee, Limits, Listening, MioWire};
use std::alloc::Global;
use std::net::{SocketAddr, TcpStream};
use std::time::Duration;

/// A free port of the loopback address.
pub(crate) const LOOPBACK: &str = "127.0.0.1:0";

/// How many bytes may wait for a client or a link.
const ROOM: usize = 65536;

/// How often a wire is asked for a report that has to come. It waits at most 100 ms each time.
pub(crate) const TIMES: u64 = 50;

/// How often one is asked from which no report may come.
pub(crate) const IDLE_TIMES: u64 = 3;

fn opens(rt: &HostRuntime, listening: Listening, callees: Vec<Callee, Global>) -> Option<MioWire> {
    MioWire::listen(rt, rt.alloc(), listening, callees, 0).ok()
}

/// Where a wire listens, and how many it lets in from one address. Nobody here meets another limit.
fn listening(
    alloc: Global,
    clients: SocketAddr,
    links: Option<SocketAddr>,
    connections_per_address: Option<u16>,
) -> Listening {
    Listening {
        clients,
        links,
        client_room: ROOM,
        link_room: ROOM,
        name_within: None,
        register_within: None,
        limits: Limits {
            connections_per_address,
            links_per_address: None,
            pace: None,
            deny: Vec::new(alloc),
            proxies: Vec::new(alloc),
        },
    }
}

/// A wire that listens for clients at an address, and lets so many in from one.
pub(crate) fn listens(
    rt: &HostRuntime,
    address: &str,
    connections_per_address: Option<u16>,
) -> Option<MioWire> {
    let clients = address.parse::<SocketAddr>().ok()?;
    let listening = listening(rt.alloc(), clients, None, connections_per_address);
    opens(rt, listening, Vec::new(rt.alloc()))
}

/// A wire that listens for links, too.
fn is_called(rt: &HostRuntime) -> Option<MioWire> {
    let free = LOOPBACK.parse::<SocketAddr>().ok()?;
    let listening = listening(rt.alloc(), free, Some(free), None);
    opens(rt, listening, Vec::new(rt.alloc()))
}

/// b.net, which is called at an address, and again after so many seconds.
fn callees(alloc: Global, address: SocketAddr, retry: Option<u16>) -> Option<Vec<Callee, Global>> {
    let name = ServerName::read(b"b.net")?;
    let mut callees = Vec::new(alloc);
    let _ = callees.push(Callee {
        name,
        address,
        retry,
    });
    Some(callees)
}

/// A wire that calls b.net there.
pub(crate) fn calls(rt: &HostRuntime, address: SocketAddr, retry: Option<u16>) -> Option<MioWire> {
    let free = LOOPBACK.parse::<SocketAddr>().ok()?;
    let callees = callees(rt.alloc(), address, retry)?;
    let listening = listening(rt.alloc(), free, None, None);
    opens(rt, listening, callees)
}

/// Two wires of which one has called the other by the name b.net.
#[derive(Drop)]
pub(crate) struct LinkEnds {
    pub called: MioWire,
    pub caller: MioWire,
}

/// Lets a wire go. It has many parts, each of which is let go where the wire is: so that is done
/// here, and nowhere else.
pub(crate) fn end(wire: MioWire) {
    let _ended = wire;
}

impl LinkEnds {
    /// Lets both go.
    pub(crate) fn end(self) {
        end(self.called);
        end(self.caller);
    }
}

/// Such wires; it is called again after so many seconds.
pub(crate) fn ends(rt: &HostRuntime, retry: Option<u16>) -> Option<LinkEnds> {
    let called = is_called(rt)?;
    match calls_it(rt, &called, retry) {
        Some(caller) => Some(LinkEnds { called, caller }),
        None => {
            end(called);
            None
        }
    }
}

fn calls_it(rt: &HostRuntime, called: &MioWire, retry: Option<u16>) -> Option<MioWire> {
    match called.address_for_links() {
        Ok(Some(address)) => calls(rt, address, retry),
        _ => None,
    }
}

/// A socket that has connected to a wire's door for clients.
pub(crate) fn connected(rt: &HostRuntime, wire: &MioWire) -> Option<TcpStream> {
    let address = wire.address().ok()?;
    TcpStream::connect(rt, address).ok()
}

/// Whether a socket waits no longer than this for what it reads.
pub(crate) fn is_patient(socket: &mut TcpStream) -> bool {
    socket
        .set_read_timeout(Some(Duration::from_secs(10)))
        .is_ok()
}

/// The next thing that a wire reports, so many times asked; nothing where it stays idle.
pub(crate) fn reported(wire: &mut MioWire, times: u64) -> Option<Ready> {
    for _time in 0..times {
        match wire.ready() {
            Ok(Ready::Idle) => (),
            Ok(ready) => return Some(ready),
            Err(_fault) => return None,
        }
    }
    None
}

/// Whether a wire reports nothing.
pub(crate) fn is_idle(wire: &mut MioWire) -> bool {
    reported(wire, IDLE_TIMES).is_none()
}
