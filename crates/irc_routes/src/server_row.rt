//! What a server knows of another.
use crate::info::Info;
use irc_names::ServerName;

/// A server that is known, and the numbers that stand for it on links (RFC 2813 section 4.1.2).
#[derive(Drop)]
pub struct ServerRow {
    /// The link that it is behind.
    pub link: u64,
    /// The server that it is linked to, on the side toward this one.
    pub uplink: ServerName,
    /// Its name.
    pub name: ServerName,
    /// How many links away it is.
    pub distance: u32,
    /// The number that the neighbour on the link has for it.
    pub token: u32,
    /// Our own number for it, on every link.
    pub ours: u32,
    /// How it describes itself.
    pub info: Info,
}
