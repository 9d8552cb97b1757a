//! Connections of proxies that have yet to say for whom they come.
ghost use Rattle.std.specs.Prelude.{◌≡◌, ◌≤◌, nat_lt};

use crate::tokens::{FIRST_PROXIED, FIRST_SOCKET};
use irc_entrance::{AwaitedHeader, ProxyHeader, may_await_one_more};
use irc_moments::Moment;
use irc_turns::Arrivals;
use mio::net::TcpStream;
use mio::{Interest, Registry, Token};
use std::alloc::Global;
use std::io::{ErrorKind, Read};
use std::net::IpAddr;

/// How many bytes are read of a header at once. Each is wanted, so nothing of what follows is read.
const AT_ONCE: usize = 512;

/// How often a header is read, in one turn: no header has so many bytes.
const READS: usize = 1024;

/// A connection of a proxy.
#[derive(Drop)]
struct Awaited {
    stream: TcpStream,
    header: AwaitedHeader,
    /// Whether more may have come of it.
    may_have: bool,
}

/// What a look at a connection has come to.
enum Look {
    /// Its header is not whole.
    Later,
    /// It is nobody's.
    Gone,
    /// It is that of somebody.
    Named(IpAddr),
}

/// Connections of proxies whose headers are awaited, by their places.
#[derive(Drop)]
pub(crate) struct Proxied {
    alloc: Global,
    awaited: Vec<Option<Awaited>, Global>,
    /// How many are there.
    count: usize,
    /// Whether some may be looked at, and how many in this round.
    pub arrivals: Arrivals,
}

impl Proxied {
    /// Nobody.
    pub fn new(alloc: Global) -> Self
        ensures { result.count ≡ 0 }
    {
        Proxied {
            alloc,
            awaited: Vec::new(alloc),
            count: 0,
            arrivals: Arrivals::new(),
        }
    }

    /// Whether headers are awaited.
    pub fn are_awaited(&self) -> bool
        ensures { result ≡ nat_lt 0 self.now.count }
    {
        self.count > 0
    }

    /// Takes a connection in that has come at this moment. Where as many are awaited as may be, or
    /// memory runs out, it is closed: who comes without a proxy is not to wait for one.
    pub fn add(&mut self, stream: TcpStream, registry: &Registry, now: Moment)
        ensures { self.old.count ≤ 256 → self.new.count ≤ 256 }
    {
        if !may_await_one_more(self.count) {
            return;
        }
        let one = Awaited {
            stream,
            header: AwaitedHeader::new(self.alloc, now),
            may_have: true,
        };
        let Some(place) = self.put(one) else {
            return;
        };
        self.count = self.count.saturating_add(1);
        self.arrivals.knock();
        if self.register(place, registry).is_none() {
            let _gone = self.take(place);
        }
    }

    /// Puts one at the first place that is free.
    fn put(&mut self, one: Awaited) -> Option<usize>
        ensures { self.new.count ≡ self.old.count }
    {
        let free = self.awaited.iter().position(|one| one.is_none());
        let Some(place) = free else {
            let place = self.awaited.len();
            self.awaited.push(Some(one)).ok()?;
            return Some(place);
        };
        *self.awaited.get_mut(place)? = Some(one);
        Some(place)
    }

    /// Has the system report one by its place.
    fn register(&mut self, place: usize, registry: &Registry) -> Option<()>
        ensures { self.new.count ≡ self.old.count }
    {
        let token = place.checked_add(FIRST_PROXIED)?;
        if token >= FIRST_SOCKET {
            return None;
        }
        let one = self.awaited.get_mut(place)?.as_mut()?;
        registry
            .register(&mut one.stream, Token(token), Interest::READABLE)
            .ok()
    }

    /// One leaves its place.
    fn take(&mut self, place: usize) -> Option<Awaited>
        ensures { self.new.count ≤ self.old.count }
    {
        let one = self.awaited.get_mut(place)?.take()?;
        self.count = self.count.saturating_sub(1);
        Some(one)
    }

    /// More may have come of a header. So somebody has come.
    pub fn knock(&mut self, place: usize) -> bool {
        if let Some(Some(one)) = self.awaited.get_mut(place) {
            one.may_have = true;
            self.arrivals.knock();
        }
        true
    }

    /// Those whose time is over at this moment are closed.
    pub fn end_times(&mut self, now: Moment) {
        for place in 0..self.awaited.len() {
            if self.is_over(place, now) {
                let _gone = self.take(place);
            }
        }
    }

    fn is_over(&self, place: usize, now: Moment) -> bool {
        match self.awaited.get(place) {
            Some(Some(one)) => one.header.is_over(now),
            _ => false,
        }
    }

    /// The connection and the address of the next whose header is whole and names one. Whose is
    /// none, or names nobody, is closed.
    pub fn next(&mut self, registry: &Registry) -> Option<(TcpStream, IpAddr)> {
        self.arrivals.take();
        let Some(place) = self.knocking() else {
            self.arrivals.end();
            return None;
        };
        match self.look(place) {
            Look::Later => None,
            Look::Gone => {
                let _gone = self.take(place);
                None
            }
            Look::Named(address) => {
                let mut stream = self.take(place)?.stream;
                registry.deregister(&mut stream).ok()?;
                Some((stream, address))
            }
        }
    }

    /// The place of the first of whom more may have come.
    fn knocking(&self) -> Option<usize> {
        self.awaited.iter().position(may_have)
    }

    /// Reads on what has come of a header.
    fn look(&mut self, place: usize) -> Look {
        match self.awaited.get_mut(place) {
            Some(Some(one)) => look_at(one),
            _ => Look::Gone,
        }
    }
}

/// Whether more may have come of somebody's header.
fn may_have(one: &Option<Awaited>) -> bool {
    match one {
        Some(one) => one.may_have,
        None => false,
    }
}

/// Reads on what has come of a header, and no byte behind it.
fn look_at(one: &mut Awaited) -> Look {
    one.may_have = false;
    for _read in 0..READS {
        let look = match one.header.read() {
            ProxyHeader::Wants(count) => read_more(one, count),
            ProxyHeader::Names(address) => Some(Look::Named(address)),
            ProxyHeader::Bad | ProxyHeader::Unnamed => Some(Look::Gone),
        };
        if let Some(look) = look {
            return look;
        }
    }
    Look::Gone
}

/// Reads so many bytes more, or fewer. Tells what has come of it where it is not to be read on.
fn read_more(one: &mut Awaited, count: usize) -> Option<Look> {
    let mut buffer = [0; AT_ONCE];
    let most = count.min(AT_ONCE);
    match one.stream.read(&mut buffer[..most]) {
        Ok(0) => Some(Look::Gone),
        Ok(count) => match one.header.add(&buffer[..count]) {
            Ok(()) => None,
            Err(_) => Some(Look::Gone),
        },
        Err(error) => match error.kind() {
            ErrorKind::WouldBlock => Some(Look::Later),
            ErrorKind::Interrupted => None,
            _ => Some(Look::Gone),
        },
    }
}
