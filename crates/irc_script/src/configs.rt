//! How the servers of a script are configured.
ghost use Rattle.std.specs.Prelude.{◌≡◌, map, IfOk, OnOk};
ghost use Rattle.irc_net.specs.View.{known_peer};
ghost use Rattle.irc_script.specs.Networks.{peers_for};
ghost use Rattle.irc_script.specs.Loops.Configs.{AddsOther, AreConfigured, IsConfigured};

use irc_names::ServerName;
use irc_net::{Config, Peer};
use irc_routes::Own;
use std::alloc::{AllocError, Global};

/// How each server of a script describes itself.
const INFO: &[u8] = b"Test server";

/// When each server of a script says that it was created.
const CREATED: &[u8] = b"2024-01-01";

/// The password that any two servers of a script keep for each other.
const PASSWORD: &[u8] = b"pw";

/// The configurations of servers with these names, in this order: each has all others for its
/// peers.
///
/// # Errors
/// Here and below: where memory runs out.
pub fn configs_of(alloc: Global, servers: &[ServerName]) -> Result<Vec<Config, Global>, AllocError>
    ensures { IfOk result (λ configs. AreConfigured servers.now servers.now configs.items) }
{
    let mut configs = Vec::new(alloc);
    for server in servers {
        configs.push(config(alloc, servers, server)?)?;
    }
    Ok(configs)
}

/// The configuration of one of them.
fn config(alloc: Global, servers: &[ServerName], server: &ServerName) -> Result<Config, AllocError>
    ensures { IfOk result (λ config. IsConfigured servers.now server.now config) }
{
    let own = Own {
        name: Vec::from_slice(alloc, server.as_bytes())?,
        info: Vec::from_slice(alloc, INFO)?,
        created: Vec::from_slice(alloc, CREATED)?,
    };
    Ok(Config {
        own,
        peers: peers_of(alloc, servers, server)?,
    })
}

/// The peers of one of them: all others.
fn peers_of(
    alloc: Global,
    servers: &[ServerName],
    server: &ServerName,
) -> Result<Vec<Peer, Global>, AllocError>
    ensures { IfOk result (λ peers. map known_peer peers.items ≡ peers_for server.now servers.now) }
{
    let mut peers = Vec::new(alloc);
    for other in servers {
        push_other(alloc, server, other, &mut peers)?;
    }
    Ok(peers)
}

/// Appends a server to the peers of another one, if the two are not the same.
fn push_other(
    alloc: Global,
    server: &ServerName,
    other: &ServerName,
    peers: &mut Vec<Peer, Global>,
) -> Result<(), AllocError>
    ensures { OnOk result (AddsOther server.now other.now peers.old peers.new) }
{
    if other.as_bytes() == server.as_bytes() {
        return Ok(());
    }
    peers.push(Peer {
        name: Vec::from_slice(alloc, other.as_bytes())?,
        password: Vec::from_slice(alloc, PASSWORD)?,
    })?;
    Ok(())
}
