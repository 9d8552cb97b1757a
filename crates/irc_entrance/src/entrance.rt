//! Who is let through the door of clients, and as whom.
ghost use Rattle.std.specs.Prelude.{◌≡◌};

use crate::address_range::{AddressRange, is_within_any};
use std::alloc::Global;
use std::net::IpAddr;

/// What becomes of who connects.
#[derive(Clone, Copy, Drop)]
pub enum Entry {
    /// It comes in, from its own address.
    In,
    /// It is a proxy: it is to say first for whom it comes.
    Proxied,
    /// It is closed.
    Closed,
}

/// From where nobody comes in, and from where proxies come, who name another address.
#[derive(Drop)]
pub struct Entrance {
    /// Who is from there is closed.
    pub deny: Vec<AddressRange, Global>,
    /// Who is from there comes for somebody else.
    pub proxies: Vec<AddressRange, Global>,
}

impl Entrance {
    ghost use Rattle.irc_entrance.specs.Entering.{entry_of, is_denied, is_proxy};

    /// What becomes of who connects from an address. That of a proxy counts for nothing else.
    pub fn entry(&self, address: IpAddr) -> Entry
        ensures { result ≡ entry_of self.now address }
    {
        if self.is_proxy(address) {
            Entry::Proxied
        } else if self.is_denied(address) {
            Entry::Closed
        } else {
            Entry::In
        }
    }

    /// Whether nobody comes in from an address, be it its own or the one that a proxy names.
    pub fn is_denied(&self, address: IpAddr) -> bool
        ensures { result ≡ is_denied self.now address }
    {
        is_within_any(address, &self.deny)
    }

    /// Whether proxies come from an address.
    fn is_proxy(&self, address: IpAddr) -> bool
        ensures { result ≡ is_proxy self.now address }
    {
        is_within_any(address, &self.proxies)
    }
}
