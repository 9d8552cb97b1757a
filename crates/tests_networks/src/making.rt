//! Networks that are made, linked and settled.
use crate::configs::config;
use irc_names::ServerName;
use irc_net::{Config, Item, Kept, Net, NetConfigFault, NetFault};
use std::alloc::{AllocError, Global};
use std::io::Write;

/// The name of a server, by its number.
fn name(number: usize) -> Option<ServerName> {
    let mut text = [0; 8];
    let mut rest: &mut [u8] = &mut text;
    let _ = write!(rest, "s{number:03}.net");
    ServerName::read(&text)
}

/// A server that has one peer, with a password of its own. The names are empty where a number has
/// none.
fn numbered(
    alloc: Global,
    number: usize,
    peer: usize,
    password: &[u8],
) -> Result<Config, AllocError> {
    match (name(number), name(peer)) {
        (Some(own), Some(other)) => config(alloc, own.as_bytes(), other.as_bytes(), password),
        _ => config(alloc, b"", b"", password),
    }
}

/// So many servers, the second first; each has the one before it as its peer, and the first the
/// second.
fn configs(
    alloc: Global,
    count: usize,
    password: &[u8],
) -> Result<Vec<Config, Global>, AllocError> {
    let mut configs = Vec::new(alloc);
    for number in 1..count {
        configs.push(numbered(alloc, number, number - 1, password)?)?;
    }
    configs.push(numbered(alloc, 0, 1, b"pw")?)?;
    Ok(configs)
}

fn network(
    alloc: Global,
    count: usize,
    password: &[u8],
) -> Option<Result<Net<Kept>, NetConfigFault>> {
    match configs(alloc, count, password) {
        Ok(configs) => Some(Net::new(alloc, configs)),
        Err(_) => None,
    }
}

fn is_fault(alloc: Global, count: usize, fault: NetConfigFault) -> bool {
    match network(alloc, count, b"pw") {
        Some(Err(found)) => found == fault,
        _ => false,
    }
}

fn links(net: &mut Net<Kept>) -> Option<(u64, bool)> {
    let item = Item::Link(name(1)?, name(0)?);
    net.item(item).ok()?;
    let (count, _) = net.settle().ok()?;
    Some((count, net.at_rest()))
}

#[test]
fn two_hundred_and_fifty_seven_are_too_many(rt: HostRuntime) {
    assert!(rt; is_fault(rt.alloc(), 257, NetConfigFault::TooMany));
}

fn two_link(alloc: Global) -> bool {
    match network(alloc, 2, b"pw") {
        Some(Ok(mut net)) => links(&mut net) == Some((4, true)),
        _ => false,
    }
}

#[test]
fn two_servers_link(rt: HostRuntime) {
    assert!(rt; two_link(rt.alloc()));
}

fn refuses(alloc: Global) -> bool {
    match network(alloc, 2, b"other") {
        Some(Ok(mut net)) => is_refused(&mut net) == Some(true),
        _ => false,
    }
}

/// Whether the first server may not call the second.
fn is_refused(net: &mut Net<Kept>) -> Option<bool> {
    let item = Item::Link(name(0)?, name(1)?);
    Some(matches!(net.item(item), Err(NetFault::LinkRefused)))
}

#[test]
fn passwords_that_differ(rt: HostRuntime) {
    assert!(rt; refuses(rt.alloc()));
}
