//! Configurations of servers.
use irc_net::{Config, Peer};
use irc_routes::Own;
use std::alloc::{AllocError, Global};

/// A server that has another as its peer, with this password.
pub fn config(
    alloc: Global,
    name: &[u8],
    peer: &[u8],
    password: &[u8],
) -> Result<Config, AllocError> {
    let own = Own {
        name: Vec::from_slice(alloc, name)?,
        info: Vec::from_slice(alloc, b"Test server")?,
        created: Vec::from_slice(alloc, b"2024-01-01")?,
    };
    let mut peers = Vec::new(alloc);
    peers.push(Peer {
        name: Vec::from_slice(alloc, peer)?,
        password: Vec::from_slice(alloc, password)?,
    })?;
    Ok(Config { own, peers })
}

/// The servers a.net and b.net, each the peer of the other.
pub fn two(alloc: Global) -> Result<Vec<Config, Global>, AllocError> {
    let mut configs = Vec::new(alloc);
    configs.push(config(alloc, b"a.net", b"b.net", b"pw")?)?;
    configs.push(config(alloc, b"b.net", b"a.net", b"pw")?)?;
    Ok(configs)
}
