//! An engine over TCP sockets of this process.
use crate::loopback::{LOOPBACK, connected, end, is_patient, listens};
use crate::running::{EngineLimits, serves};
use irc_sockets::MioWire;
use std::alloc::Global;
use std::io::{Read, Write};
use std::net::{Shutdown, TcpStream};

const SAID: &[u8] = b"NICK al\r\nUSER u 0 * :Al\r\nPRIVMSG al :hi\r\n";

/// The replies of RFC 2812 section 5.1 as docs/PROFILE.md words them, then al's own text.
const HEARD: &[u8] = b":a.net 001 al :Welcome to the Internet Relay Network al!u@127.0.0.1\r
:a.net 002 al :Your host is a.net, running version treeircd-1\r
:a.net 003 al :This server was created 2024-01-01\r
:a.net 004 al a.net treeircd-1 i biklmnopstv\r
:a.net 422 al :MOTD File is missing\r
:al!u@127.0.0.1 PRIVMSG al :hi\r
";

/// How many turns are taken. The sockets have written before the first.
const LIMITS: EngineLimits = EngineLimits {
    turns: 20,
    client_room: 4096,
    link_room: 4096,
};

/// Whether a socket has said some lines.
fn says(socket: &mut TcpStream, lines: &[u8]) -> bool {
    is_patient(socket) && socket.write_all(lines).is_ok()
}

/// Whether turns are taken over a wire. The sockets are closed behind them.
fn runs(rt: &HostRuntime, wire: MioWire) -> bool {
    serves(rt.alloc(), wire, LIMITS)
}

/// Whether this is the last that a socket hears, of so many bytes in all where a number is given.
fn hears(rt: &HostRuntime, socket: &mut TcpStream, wanted: &[u8], count: Option<usize>) -> bool {
    let mut heard = Vec::new(rt.alloc());
    socket.read_to_end(&mut heard).is_ok()
        && heard.as_slice().ends_with(wanted)
        && count.unwrap_or(heard.len()) == heard.len()
}

/// Whether turns are taken over a wire to which al, a socket, has said its lines.
fn serves_al(rt: &HostRuntime, wire: MioWire, socket: &mut TcpStream) -> bool {
    let is_said = says(socket, SAID);
    runs(rt, wire) & is_said
}

/// Whether al is served over a wire, and this is the last that it hears.
fn is_served(rt: &HostRuntime, wire: MioWire, wanted: &[u8], count: Option<usize>) -> bool {
    match connected(rt, &wire) {
        Some(mut al) => serves_al(rt, wire, &mut al) && hears(rt, &mut al, wanted, count),
        None => {
            end(wire);
            false
        }
    }
}

fn is_answered(rt: &HostRuntime) -> bool {
    match listens(rt, LOOPBACK, None) {
        Some(wire) => is_served(rt, wire, HEARD, Some(HEARD.len())),
        None => false,
    }
}

#[test]
fn a_client_on_loopback_is_served(rt: HostRuntime) {
    assert!(rt; is_answered(&rt));
}

/// Whether a client is served whose address begins with a colon: its host begins with a zero. A
/// machine without such addresses shows nothing.
fn is_served_behind_a_colon(rt: &HostRuntime) -> bool {
    match listens(rt, "[::1]:0", None) {
        Some(wire) => is_served(rt, wire, b":al!u@0::1 PRIVMSG al :hi\r\n", None),
        None => true,
    }
}

#[test]
fn an_address_may_begin_with_a_colon(rt: HostRuntime) {
    assert!(rt; is_served_behind_a_colon(&rt));
}

const AL_JOINS: &[u8] = b"NICK al\r\nUSER u 0 * :Al\r\nJOIN #c\r\n";

const BO_JOINS: &[u8] = b"NICK bo\r\nUSER u 0 * :Bo\r\nJOIN #c\r\n";

/// What al is told of bo's end.
const BO_QUITS: &[u8] = b":bo!u@127.0.0.1 QUIT :Connection closed\r\n";

/// Whether bo, a second socket, has said its lines, and says no more.
fn says_and_ends(bo: &mut TcpStream) -> bool {
    says(bo, BO_JOINS) && bo.shutdown(Shutdown::Write).is_ok()
}

/// Whether turns are taken over a wire to which bo has connected behind al.
fn serves_both(rt: &HostRuntime, wire: MioWire, al: &mut TcpStream) -> bool {
    match connected(rt, &wire) {
        Some(mut bo) => {
            let are_said = says(al, AL_JOINS) && says_and_ends(&mut bo);
            runs(rt, wire) & are_said
        }
        None => {
            end(wire);
            false
        }
    }
}

/// Whether al is told that bo is gone, who ended right behind its lines.
fn is_told(rt: &HostRuntime, wire: MioWire) -> bool {
    match connected(rt, &wire) {
        Some(mut al) => serves_both(rt, wire, &mut al) && hears(rt, &mut al, BO_QUITS, None),
        None => {
            end(wire);
            false
        }
    }
}

fn is_seen_to_end(rt: &HostRuntime) -> bool {
    match listens(rt, LOOPBACK, None) {
        Some(wire) => is_told(rt, wire),
        None => false,
    }
}

#[test]
fn an_end_right_behind_lines_is_seen(rt: HostRuntime) {
    assert!(rt; is_seen_to_end(&rt));
}
