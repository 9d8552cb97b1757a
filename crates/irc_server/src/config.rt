//! What a server is configured to be.
ghost use Rattle.std.specs.Prelude.{◌≡◌};
ghost use Rattle.std.specs.List.{list_all};
ghost use Rattle.irc_routes.specs.Info.{is_text_byte};
ghost use Rattle.irc_routes.specs.About.{about_of};
ghost use Rattle.irc_server.specs.Configuring.{
  config_fault,
  has_double,
  is_about,
  is_among,
  is_own,
  is_peer,
};

use irc_link_words::is_password;
use irc_names::{MAX_CREATED, MAX_INFO, is_server};
use irc_routes::Own;
use irc_stage::Peer;
use std::alloc::Global;
use thiserror::Error;

const NUL: u8 = 0;

const CR: u8 = b'\r';

const LF: u8 = b'\n';

/// What a server is configured to be.
#[derive(Drop)]
pub struct Config {
    /// The server itself.
    pub own: Own,
    /// The servers that may be linked to.
    pub peers: Vec<Peer, Global>,
}

/// Why no server is made of a configuration, in the order in which causes are looked for.
#[derive(Clone, Copy, Debug, Drop, Error, PartialEq, Eq)]
pub enum ConfigFault {
    /// A name, a text or a password is outside its limits.
    #[error("a name, text or password outside its limits")]
    BadName,
    /// A peer is there twice, or the server is its own peer.
    #[error("a peer is there twice")]
    DoubleName,
    /// Memory ran out. Making a server takes none, so this is never answered.
    #[error("out of memory")]
    Memory,
}

/// Whether a byte may stand in a text.
fn is_text_byte(byte: u8) -> bool
    ensures { result ≡ is_text_byte byte }
{
    byte != NUL && byte != CR && byte != LF
}

/// Whether bytes are a text.
fn is_text(bytes: &[u8]) -> bool
    ensures { result ≡ list_all is_text_byte bytes.now }
{
    bytes.iter().all(|byte| is_text_byte(*byte))
}

/// Whether what a server says of itself keeps its limits.
fn is_about(own: &Own) -> bool
    ensures { result ≡ is_about (about_of own.now) }
{
    is_text(&own.info)
        && own.info.len() <= MAX_INFO
        && is_text(&own.created)
        && !own.created.is_empty()
        && own.created.len() <= MAX_CREATED
}

/// Whether a server's own row keeps its limits.
fn is_own(own: &Own) -> bool
    ensures { result ≡ is_own own.now }
{
    is_server(&own.name) && is_about(own)
}

/// Whether a peer keeps its limits.
fn is_peer(peer: &Peer) -> bool
    ensures { result ≡ is_peer peer.now }
{
    is_server(&peer.name) && is_password(&peer.password)
}

/// Whether all peers keep their limits.
fn are_peers(peers: &[Peer]) -> bool
    ensures { result ≡ list_all is_peer peers.now }
{
    peers.iter().all(is_peer)
}

/// Whether a peer has a name.
fn is_among(name: &[u8], peers: &[Peer]) -> bool
    ensures { result ≡ is_among name.now peers.now }
{
    peers.iter().any(|peer| peer.name.as_slice() == name)
}

/// Whether two peers have one name.
fn has_double(peers: &[Peer]) -> bool
    ensures { result ≡ has_double peers.now }
{
    let mut rest = peers;
    while let Some((peer, more)) = rest.split_first() {
        if is_among(&peer.name, more) {
            return true;
        }
        rest = more;
    }
    false
}

/// Why no server is made of a configuration, if none is.
pub fn config_fault(config: &Config) -> Option<ConfigFault>
    ensures { result ≡ config_fault config.now }
{
    if !(is_own(&config.own) && are_peers(&config.peers)) {
        Some(ConfigFault::BadName)
    } else if is_among(&config.own.name, &config.peers) || has_double(&config.peers) {
        Some(ConfigFault::DoubleName)
    } else {
        None
    }
}
