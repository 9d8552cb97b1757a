//! The servers that a server may be linked to.
use std::alloc::Global;

/// A server that may be linked to.
#[derive(Drop)]
pub struct Peer {
    /// Its name, which [`irc_names::is_server`] takes.
    pub name: Vec<u8, Global>,
    /// The password that both give each other: 1 to 20 bytes from 0x21 to 0x7E, the first no `:`.
    pub password: Vec<u8, Global>,
}
