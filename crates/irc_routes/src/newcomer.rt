//! A server that comes.
use crate::Info;
use irc_names::ServerName;

/// A server more, as its neighbour tells of it (RFC 2813 section 4.1.2).
#[derive(Clone, Copy)]
pub struct Newcomer<'a> {
    /// The server that it is linked to, on the side toward this one.
    pub uplink: &'a ServerName,
    /// Its name.
    pub name: &'a [u8],
    /// How many links away it is.
    pub distance: u32,
    /// The neighbour's number for it.
    pub token: u32,
    /// How it describes itself.
    pub info: &'a Info,
}
