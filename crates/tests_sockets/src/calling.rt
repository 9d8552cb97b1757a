//! Wires of TCP sockets that call each other.
use crate::loopback::{LOOPBACK, LinkEnds, TIMES, calls, end, ends, is_idle, reported};
use irc_names::ServerName;
use irc_outbox::{Got, Ready, Wire};
use irc_sockets::MioWire;
use std::net::{SocketAddr, TcpListener};

/// The number of a link that was called by this name, or that has come, where there is none.
fn linked(wire: &mut MioWire, called: Option<&[u8]>) -> Option<u64> {
    match reported(wire, TIMES)? {
        Ready::Linked(conn, name) if name.as_ref().map(ServerName::as_bytes) == called => Some(
            conn,
        ),
        _ => None,
    }
}

/// The numbers of the link at the end that has called, and at the other.
fn numbers(ends: &mut LinkEnds) -> Option<(u64, u64)> {
    let near = linked(&mut ends.caller, Some(b"b.net".as_slice()))?;
    let far = linked(&mut ends.called, None)?;
    Some((near, far))
}

/// Whether a wire reports that a link is readable.
fn is_readable(wire: &mut MioWire, conn: u64) -> bool {
    match reported(wire, TIMES) {
        Some(Ready::Readable(number)) => number == conn,
        _ => false,
    }
}

/// Whether a read of a link gives these bytes.
fn reads(wire: &mut MioWire, conn: u64, wanted: &[u8]) -> bool {
    let mut buffer = [0u8; 64];
    match wire.read(conn, &mut buffer) {
        Ok(Got::Bytes(count)) => &buffer[..count] == wanted,
        _ => false,
    }
}

/// Whether bytes are taken at one end of a link, and come at the other.
fn carries(from: &mut MioWire, near: u64, to: &mut MioWire, far: u64, bytes: &[u8]) -> bool {
    from.write(near, bytes, 0) == Ok(bytes.len()) && is_readable(to, far) && reads(to, far, bytes)
}

/// Whether a call is reported as a link at both ends, and bytes go both ways.
fn talk(ends: &mut LinkEnds) -> bool {
    match numbers(ends) {
        Some((near, far)) => {
            carries(&mut ends.caller, near, &mut ends.called, far, b"PASS\r\n")
                && carries(&mut ends.called, far, &mut ends.caller, near, b"SERVER\r\n")
        }
        None => false,
    }
}

fn is_link_at_both_ends(rt: &HostRuntime) -> bool {
    match ends(rt, None) {
        Some(mut ends) => {
            let is_so = talk(&mut ends);
            ends.end();
            is_so
        }
        None => false,
    }
}

#[test]
fn a_call_is_a_link_at_both_ends(rt: HostRuntime) {
    assert!(rt; is_link_at_both_ends(&rt));
}

/// An address at which nobody listens any more.
fn left(rt: &HostRuntime) -> Option<SocketAddr> {
    let free = LOOPBACK.parse::<SocketAddr>().ok()?;
    let listener = TcpListener::bind(rt, free).ok()?;
    listener.local_addr().ok()
}

/// A wire that calls a server that is not there.
fn calls_nobody(rt: &HostRuntime) -> Option<MioWire> {
    calls(rt, left(rt)?, None)
}

/// Whether nothing is reported of it.
fn is_passed_over(rt: &HostRuntime) -> bool {
    match calls_nobody(rt) {
        Some(mut caller) => {
            let is_so = is_idle(&mut caller);
            end(caller);
            is_so
        }
        None => false,
    }
}

#[test]
fn who_is_not_there_is_passed_over(rt: HostRuntime) {
    assert!(rt; is_passed_over(&rt));
}

/// Whether a read of a link finds its end.
fn reads_end(wire: &mut MioWire, conn: u64) -> bool {
    let mut buffer = [0u8; 64];
    wire.read(conn, &mut buffer) == Ok(Got::End)
}

/// Whether a link goes down at the end that was called, as the other end closes it.
fn goes_down(ends: &mut LinkEnds) -> bool {
    match numbers(ends) {
        Some((near, far)) => {
            ends.caller.close(near);
            is_readable(&mut ends.called, far) && reads_end(&mut ends.called, far)
        }
        None => false,
    }
}

fn is_end_seen(rt: &HostRuntime) -> bool {
    match ends(rt, None) {
        Some(mut ends) => {
            let is_so = goes_down(&mut ends);
            ends.end();
            is_so
        }
        None => false,
    }
}

#[test]
fn the_end_of_a_link_is_seen(rt: HostRuntime) {
    assert!(rt; is_end_seen(&rt));
}
