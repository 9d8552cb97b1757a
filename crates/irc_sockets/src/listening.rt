//! Where a wire of sockets is to listen.
use crate::limits::Limits;
use std::net::SocketAddr;

/// Where a wire of sockets is to listen, and how many it takes there.
#[derive(Drop)]
pub struct Listening {
    /// Where clients come.
    pub clients: SocketAddr,
    /// Where links come, if anywhere.
    pub links: Option<SocketAddr>,
    /// How many bytes may wait for a client.
    pub client_room: usize,
    /// How many bytes may wait for a link.
    pub link_room: usize,
    /// For how many seconds who connects for links may stay without naming itself, if there is a
    /// limit.
    pub name_within: Option<u16>,
    /// For how many seconds a client may stay without becoming a user, if there is a limit.
    pub register_within: Option<u16>,
    /// Who comes in, and how much of each is taken.
    pub limits: Limits,
}
