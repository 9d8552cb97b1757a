//! Calls that are made again: a wire calls who is not known once it was so for long enough, and
//! nobody who is.
use crate::loopback::ends;
use irc_outbox::{Ready, Wire};
use irc_sockets::MioWire;

/// How often a wire is asked while a second has to pass: it waits ten milliseconds each time, and
/// one behind whatever has come.
const TIMES: u64 = 20_000;

/// How often one is asked which may not call. In so many waits of 100 ms two seconds pass.
const IDLE_TIMES: u64 = 20;

/// The number of the next link of a wire that is told each time whether the server that it would
/// call is known.
fn linked(wire: &mut MioWire, times: u64, is_known: bool) -> Option<u64> {
    for _time in 0..times {
        if wire.would_call().is_some() {
            wire.know(is_known, false);
        }
        if let Ok(Ready::Linked(conn, _)) = wire.ready() {
            return Some(conn);
        }
    }
    None
}

/// Whether a wire whose first link was closed has another, where it is told this of the server, so
/// many times asked.
fn has_another(caller: &mut MioWire, times: u64, is_known: bool) -> Option<bool> {
    let first = linked(caller, TIMES, false)?;
    caller.close(first);
    Some(linked(caller, times, is_known).is_some())
}

fn calls_again(rt: &HostRuntime, retry: Option<u16>, times: u64, is_known: bool) -> Option<bool> {
    match ends(rt, retry) {
        Some(mut ends) => {
            let has = has_another(&mut ends.caller, times, is_known);
            ends.end();
            has
        }
        None => None,
    }
}

#[test]
fn who_is_not_known_is_called_again(rt: HostRuntime) {
    assert!(rt; calls_again(&rt, Some(1), TIMES, false) == Some(true));
}

#[test]
fn who_is_known_is_not_called_again(rt: HostRuntime) {
    assert!(rt; calls_again(&rt, Some(1), IDLE_TIMES, true) == Some(false));
}

#[test]
fn who_has_no_retry_is_not_called_again(rt: HostRuntime) {
    assert!(rt; calls_again(&rt, None, IDLE_TIMES, false) == Some(false));
}
