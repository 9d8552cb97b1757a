//! How many connections are open from one address.
ghost use Rattle.std.specs.Prelude.{◌≡◌, OnOk, OnErr};
ghost use Rattle.irc_entrance.specs.Crowds.{address_number, open_from};

use std::alloc::{AllocError, Global};
use std::marker::Model;
use std::net::IpAddr;

/// A connection that is open, and the number of the address from which it is.
#[derive(Drop)]
pub struct Comer {
    pub number: u64,
    pub address: u128,
}

/// Which connections are open from which addresses, where there is a limit for an address.
#[derive(Drop)]
pub struct Crowd {
    /// Those that are open; none, where there is no limit.
    comers: Vec<Comer, Global>,
    /// How many may be open from one address.
    most: Option<u16>,
}

impl Model for Crowd {
    ghost use Rattle.irc_entrance.specs.Crowds.{Crowded};

    ghost Value = { Crowded };

    ghost view = { λ crowd. record { comers = crowd.comers.items; most = crowd.most } };
}

impl Crowd {
    ghost use Rattle.irc_entrance.specs.Crowds.{nobody_open, is_let_in, one_more_open};
    ghost use Rattle.irc_entrance.specs.Crowds.{limited_to, open_without};

    /// Nobody, where so many may be open from one address, or any number.
    pub fn new(alloc: Global, most: Option<u16>) -> Self
        ensures { result ≡ nobody_open most }
    {
        Crowd {
            comers: Vec::new(alloc),
            most,
        }
    }

    /// So many may be open from one address from now on, or any number; whoever is there stays.
    pub fn limit_to(&mut self, most: Option<u16>)
        ensures { self.new ≡ limited_to most self.old }
    {
        self.most = most;
    }

    /// Nobody is open as far as it knows, where so many may be from now on, or any number.
    pub fn begin_anew(&mut self, most: Option<u16>)
        ensures { self.new ≡ nobody_open most }
    {
        self.comers.clear();
        self.most = most;
    }

    /// Whether one more connection from an address is let in.
    pub fn lets_in(&self, address: IpAddr) -> bool
        ensures { result ≡ is_let_in self.now address }
    {
        match self.most {
            Some(most) => self.count(number_of(address)) < usize::from(most),
            None => true,
        }
    }

    /// How many connections are open from an address.
    fn count(&self, address: u128) -> usize
        ensures { result ≡ open_from address self.now.comers }
    {
        self.comers
            .iter()
            .filter(|comer| comer.address == address)
            .count()
    }

    /// A connection from an address is open, under a number. Without a limit it is not noted.
    ///
    /// # Errors
    /// Where memory runs out.
    pub fn note(&mut self, number: u64, address: IpAddr) -> Result<(), AllocError>
        ensures noted { OnOk result (self.new ≡ one_more_open number address self.old) }
        ensures none { OnErr result (self.new ≡ self.old) }
        ensures most { self.new.most ≡ self.old.most }
    {
        if self.most.is_none() {
            return Ok(());
        }
        let address = number_of(address);
        match self.comers.push(Comer { number, address }) {
            Ok(()) => Ok(()),
            Err(_) => Err(AllocError),
        }
    }

    /// The connection under a number is open no more.
    pub fn forget(&mut self, number: u64)
        ensures { self.new ≡ open_without number self.old }
    {
        self.comers.retain(|comer| comer.number != number);
    }
}

/// The number of an address. One of IPv4 has that of its mapped address of IPv6 (RFC 4291 section
/// 2.5.5.2), and so counts as this.
pub(crate) fn number_of(address: IpAddr) -> u128
    ensures { result ≡ address_number address }
{
    match address {
        IpAddr::V4(address) => address.to_ipv6_mapped().to_bits(),
        IpAddr::V6(address) => address.to_bits(),
    }
}
