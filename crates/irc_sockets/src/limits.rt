//! Who comes in over a wire of sockets, and how much of each is taken.
use irc_entrance::AddressRange;
use irc_turns::LinesPace;
use std::alloc::Global;

/// Who comes in, and how much of each is taken. It may change while a wire listens.
#[derive(Drop)]
pub struct Limits {
    /// How many clients may be connected from one address, if there is a limit.
    pub connections_per_address: Option<u16>,
    /// How many connections for links that have not named themselves may be there from one address,
    /// if there is a limit.
    pub links_per_address: Option<u16>,
    /// The pace of lines to which each client keeps, if there is one. What it sends beyond waits.
    pub pace: Option<LinesPace>,
    /// From where no client comes in.
    pub deny: Vec<AddressRange, Global>,
    /// From where proxies come, which say first for whom.
    pub proxies: Vec<AddressRange, Global>,
}
