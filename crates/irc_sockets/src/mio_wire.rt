//! A wire of TCP sockets.
ghost use Rattle.std.specs.Prelude.{◌≡◌, ⊤, ◌≤◌, length, IfErr, IfOk};
ghost use Rattle.irc_outbox.specs.Calls.{Call, asks, reads, writes, closes, bytes_got, Adds};
ghost use Rattle.irc_outbox.specs.Calls.{FitsIn, Keeps};
ghost use Rattle.irc_sockets.specs.Listening.{IsFaultOf, IsLimited, ListensAt};

use crate::calls::{Callee, Calls};
use crate::clock::clock_time;
use crate::door::Door;
use crate::host::host_of;
use crate::keep_alive::{ask_after, narrow};
use crate::limits::Limits;
use crate::listen_fault::ListenFault;
use crate::listening::Listening;
use crate::proxied::Proxied;
use crate::sockets::Sockets;
use crate::tokens::{CALLS, CLIENTS, FIRST_PROXIED, FIRST_SOCKET, LINKS};
use irc_entrance::{Crowd, Entrance, Entry};
use irc_moments::Moment;
use irc_names::{Host, ServerName};
use irc_outbox::{Got, IoFault, Notice, Ready, Wire};
use irc_turns::{Marks, Newcomers, Round, Signals, Strangers, wait_for};
use mio::net::TcpStream;
use mio::{Events, Interest, Poll, Token};
use std::alloc::Global;
use std::io;
use std::io::ErrorKind;
use std::net::{IpAddr, Net, SocketAddr};
use std::time::Duration;

/// How many things the system reports at once.
const EVENTS: usize = 1024;

/// TCP sockets: one that listens for clients, one that may listen for links, and one for each
/// connection; and one for each call of a server that is under way, which becomes a connection, and
/// gets its number, once it is through, as one of a proxy does once it has said for whom it comes.
///
/// What is ready is served in rounds. In each a few new connections are taken, and then each socket
/// that is ready is reported once; only then is the system asked again. So one who sends without
/// end, or many who connect, keep nobody else waiting for more than a round. The clock is read once
/// in a round, and all that is decided in it goes by that moment.
#[derive(Drop)]
pub struct MioWire {
    poll: Poll,
    events: Events,
    clients: Door,
    links: Option<Door>,
    calls: Calls,
    /// Who comes in as a client, and as whom.
    entrance: Entrance,
    proxied: Proxied,
    sockets: Sockets,
    /// How many clients are connected from which addresses.
    crowd: Crowd,
    /// How many connections at the door for links have not named themselves, likewise.
    unnamed: Crowd,
    /// Links that are to name themselves in time, also such as were called.
    strangers: Strangers,
    /// Clients that are to become users in time.
    newcomers: Newcomers,
    signals: Signals,
    round: Round,
}

impl MioWire {
    /// Listens for clients, and for links if there is an address for them, and then calls each of
    /// these servers. No call is waited for. One that cannot be reached, or whose link ends, is
    /// called again where it is to be, while it is not known; by this server's own spread
    /// ([`irc_turns::name_spread`]) not when others call it.
    ///
    /// # Errors
    /// Where the system does not let it listen; where memory runs out.
    pub fn listen<T: Net>(
        net: &T,
        alloc: Global,
        listening: Listening,
        callees: Vec<Callee, Global>,
        spread: u64,
    ) -> Result<Self, ListenFault>
        ensures faults { IfErr result (IsFaultOf listening) }
        ensures listens { IfOk result (λ wire. ListensAt listening wire) }
        ensures callees { IfOk result (λ wire. wire.calls.asked ≡ callees) }
        ensures spread { IfOk result (λ wire. wire.calls.retries.spread ≡ spread) }
    {
        let poll = Poll::new(net)?;
        let events = Events::with_capacity(alloc, EVENTS)?;
        let clients = Door::open(net, listening.clients, poll.registry(), Token(CLIENTS))?;
        let links = match listening.links {
            Some(address) => Some(Door::open(net, address, poll.registry(), Token(LINKS))?),
            None => None,
        };
        let limits = listening.limits;
        let now = Moment::of(0).behind(clock_time());
        let calls = Calls::begin(alloc, callees, spread, poll.registry(), now)?;
        Ok(MioWire {
            poll,
            events,
            clients,
            links,
            calls,
            entrance: Entrance {
                deny: limits.deny,
                proxies: limits.proxies,
            },
            proxied: Proxied::new(alloc),
            sockets: Sockets::new(
                alloc,
                Marks::of(listening.client_room, listening.link_room),
                limits.pace,
            ),
            crowd: Crowd::new(alloc, limits.connections_per_address),
            unnamed: Crowd::new(alloc, limits.links_per_address),
            strangers: Strangers::new(alloc, listening.name_within),
            newcomers: Newcomers::new(alloc, listening.register_within),
            signals: Signals::new(now),
            round: Round::new(now),
        })
    }

    /// From now on this is who comes in, and how much of each is taken. Nobody is closed, and the
    /// clients that are connected count; one for which there is no memory does not.
    pub fn limit_to(&mut self, limits: Limits)
        ensures { IsLimited limits self.old self.new }
    {
        self.entrance = Entrance {
            deny: limits.deny,
            proxies: limits.proxies,
        };
        self.unnamed.limit_to(limits.links_per_address);
        self.sockets.talkers.keep_to(limits.pace);
        self.crowd.begin_anew(limits.connections_per_address);
        count_clients(&self.sockets, &mut self.crowd);
    }

    /// The address on which it listens for clients.
    ///
    /// # Errors
    /// Where the system does not tell.
    pub fn address(&self) -> io::Result<SocketAddr> {
        self.clients.address()
    }

    /// The address on which it listens for links, if it does.
    ///
    /// # Errors
    /// Where the system does not tell.
    pub fn address_for_links(&self) -> io::Result<Option<SocketAddr>> {
        match &self.links {
            Some(links) => Ok(Some(links.address()?)),
            None => Ok(None),
        }
    }

    /// Begins a round. It waits only where nothing is left to be done.
    ///
    /// # Errors
    /// Where the system fails.
    fn begin_round(&mut self) -> io::Result<()> {
        self.begin_arrivals();
        let wait = self.wait();
        self.poll
            .poll(&mut self.events, Some(Duration::from_millis(wait)))?;
        let now = self.round.began.behind(clock_time());
        self.wake_doors_at(now);
        self.calls.retries.look();
        let has_come = self.take_events(now);
        self.end_times(now);
        self.proxied.end_times(now);
        self.sockets.talkers.let_go(now);
        if self.signals.are_due(now) {
            self.sockets.give_signs();
        }
        self.round
            .begin(now, self.sockets.talkers.waiting(), has_come);
        Ok(())
    }

    /// How many milliseconds to wait for something to do.
    fn wait(&self) -> u64 {
        let talkers = &self.sockets.talkers;
        let has_more = self.round.has_more || self.newcomers.asks();
        let is_busy = talkers.waiting() > 0 || self.has_arrivals() || has_more;
        let has_awaited = self.proxied.are_awaited();
        let is_awaited = !talkers.holds_nobody() || self.calls.retries.are_waiting() || has_awaited;
        wait_for(is_busy, is_awaited)
    }

    /// Who has not named itself in time is reported, so that its read fails.
    fn end_times(&mut self, now: Moment) {
        for _one in 0..self.strangers.len() {
            let Some(mark) = self.strangers.next_over(now) else {
                return;
            };
            self.sockets.talkers.end_time(mark);
        }
    }

    /// Takes in what the system tells, and whether somebody has come who was not waiting.
    fn take_events(&mut self, now: Moment) -> bool {
        let before = self.sockets.talkers.waiting();
        let mut has_come = false;
        for event in &self.events {
            has_come |= match event.token() {
                Token(CLIENTS) => knock(&mut self.clients),
                Token(LINKS) => self.links.as_mut().is_some_and(knock),
                Token(CALLS) => self.calls.knock(),
                Token(number) if number < FIRST_SOCKET => {
                    self.proxied.knock(number.saturating_sub(FIRST_PROXIED))
                }
                Token(number) => self
                    .sockets
                    .note(number.saturating_sub(FIRST_SOCKET), event, now),
            };
        }
        self.sockets.talkers.put_behind(before);
        has_come
    }

    /// A round of arrivals begins at the doors.
    fn begin_arrivals(&mut self) {
        self.clients.arrivals.begin_round();
        self.proxied.arrivals.begin_round();
        if let Some(links) = &mut self.links {
            links.arrivals.begin_round();
        }
    }

    /// Whether connections may wait that are to be taken in this round.
    fn has_arrivals(&self) -> bool {
        self.calls.may_have() || self.has_clients() || self.has_links()
    }

    /// Whether clients may wait, or headers of proxies.
    fn has_clients(&self) -> bool {
        self.clients.arrivals.may_be_taken() || self.proxied.arrivals.may_be_taken()
    }

    /// Whether servers may wait at the door for links.
    fn has_links(&self) -> bool {
        self.links
            .as_ref()
            .is_some_and(|links| links.arrivals.may_be_taken())
    }

    /// Who could not be taken at a door is asked for again, where its time has come.
    fn wake_doors_at(&mut self, now: Moment) {
        self.clients.arrivals.wake_at(now);
        if let Some(links) = &mut self.links {
            links.arrivals.wake_at(now);
        }
    }

    /// Who could not be taken at a door is asked for again: a descriptor is free.
    fn wake_doors(&mut self) {
        self.clients.arrivals.wake();
        if let Some(links) = &mut self.links {
            links.arrivals.wake();
        }
    }

    /// That connections cannot be taken any more, or again, at one of the doors.
    fn shortage(&mut self) -> Option<Notice> {
        let now = self.round.began;
        let told = match self.clients.shortage.tell(now) {
            Some(told) => Some(told),
            None => self.links.as_mut()?.shortage.tell(now),
        };
        if told? {
            Some(Notice::DescriptorsGone)
        } else {
            Some(Notice::DescriptorsBack)
        }
    }

    /// The report of the next arrival of this round.
    fn arrival(&mut self) -> Option<Ready> {
        if self.calls.may_have() {
            self.called()
        } else if self.has_links() {
            self.link()
        } else if self.proxied.arrivals.may_be_taken() {
            self.named_client()
        } else if self.clients.arrivals.may_be_taken() {
            self.client()
        } else {
            None
        }
    }

    /// The report of a new client. Where there is no memory, or no number, for it, nobody comes in
    /// from its address, or too many are connected from there, it is closed unreported. That of a
    /// proxy is to say first for whom it comes.
    fn client(&mut self) -> Option<Ready> {
        let now = self.round.began;
        let (stream, address) = self.clients.accept(now)?;
        match self.entrance.entry(address.ip()) {
            Entry::In => self.enter(stream, address.ip()),
            Entry::Proxied => {
                let registry = self.poll.registry();
                self.proxied.add(stream, registry, now);
                None
            }
            Entry::Closed => None,
        }
    }

    /// The report of a client for whom a proxy has come, likewise.
    fn named_client(&mut self) -> Option<Ready> {
        let (stream, address) = self.proxied.next(self.poll.registry())?;
        if self.entrance.is_denied(address) {
            return None;
        }
        self.enter(stream, address)
    }

    /// The report of a client that is let in as one from an address.
    fn enter(&mut self, stream: TcpStream, address: IpAddr) -> Option<Ready> {
        let host = host_of(address)?;
        let number = self.admit_client(stream, address)?;
        Some(Ready::Client(number, host))
    }

    /// Takes a connection of a client in, if its address may have one more.
    fn admit_client(&mut self, stream: TcpStream, address: IpAddr) -> Option<u64> {
        if !self.crowd.lets_in(address) {
            return None;
        }
        let number = self.admit(stream, address, true)?;
        if self.crowd.note(number, address).is_err() {
            self.sockets.remove(number as usize);
            return None;
        }
        self.note_newcomer(number)
    }

    /// A client is to become a user in time. Where there is no memory to know when, it is closed.
    fn note_newcomer(&mut self, number: u64) -> Option<u64> {
        let mark = self.sockets.talkers.mark(number as usize)?;
        if self.newcomers.add(mark, self.round.began).is_err() {
            self.sockets.remove(number as usize);
            self.crowd.forget(number);
            return None;
        }
        Some(number)
    }

    /// The report of a server that has connected, likewise.
    fn link(&mut self) -> Option<Ready> {
        let (stream, address) = self.links.as_mut()?.accept(self.round.began)?;
        self.calls.retries.come();
        let number = self.admit_stranger(stream, address.ip())?;
        Some(Ready::Linked(number, None))
    }

    /// Takes a connection of a server in, if its address may have one more that has not named
    /// itself.
    fn admit_stranger(&mut self, stream: TcpStream, address: IpAddr) -> Option<u64> {
        if !self.unnamed.lets_in(address) {
            return None;
        }
        let number = self.admit(stream, address, false)?;
        if self.unnamed.note(number, address).is_err() {
            self.sockets.remove(number as usize);
            return None;
        }
        self.note_stranger(number)
    }

    /// A link is to name itself in time. Where there is no memory to know when, it is closed.
    fn note_stranger(&mut self, number: u64) -> Option<u64> {
        let mark = self.sockets.talkers.mark(number as usize)?;
        if self.strangers.add(mark, self.round.began).is_err() {
            self.sockets.remove(number as usize);
            self.unnamed.forget(number);
            return None;
        }
        Some(number)
    }

    /// The report of a server that was called and is reached, likewise.
    fn called(&mut self) -> Option<Ready> {
        let now = self.round.began;
        let (stream, place) = self.calls.next(now)?;
        let Some(number) = self.admit_called(stream, place) else {
            self.calls
                .fail(place, io::Error::from(ErrorKind::OutOfMemory), now);
            return None;
        };
        let name = self.calls.reach(place, number)?;
        Some(Ready::Linked(number, Some(name)))
    }

    /// Takes in the connection of a call. From now on the system is to report it as that, under its
    /// number.
    fn admit_called(&mut self, mut stream: TcpStream, place: usize) -> Option<u64> {
        self.poll.registry().deregister(&mut stream).ok()?;
        let address = self.calls.address(place)?;
        let number = self.admit(stream, address, false)?;
        self.note_stranger(number)
    }

    /// Takes a connection of a client or a link in, and gives it a number.
    fn admit(&mut self, stream: TcpStream, address: IpAddr, is_client: bool) -> Option<u64> {
        // lines are short, and each is to go out at once; a socket that cannot be told so serves
        // too
        let _set = stream.set_nodelay(true);
        ask_after(&stream);
        if !is_client {
            narrow(&stream);
        }
        let number = self
            .sockets
            .add(stream, address, is_client, self.round.began)?;
        if self.register(number).is_none() {
            self.sockets.remove(number);
            return None;
        }
        Some(number as u64)
    }

    /// Has the system report a socket.
    fn register(&mut self, number: usize) -> Option<()> {
        let token = Token(number.checked_add(FIRST_SOCKET)?);
        let stream = self.sockets.stream(number)?;
        self.poll
            .registry()
            .register(stream, token, Interest::READABLE | Interest::WRITABLE)
            .ok()
    }

    /// The next report of this round; nothing where what was ready is gone.
    fn report(&mut self) -> Ready {
        if let Some(report) = self.arrival() {
            return report;
        }
        self.round.report_one();
        self.sockets.report(&mut self.round).unwrap_or(Ready::Idle)
    }
}

/// Each client that is connected is noted as open from its address, as long as there is memory.
fn count_clients(sockets: &Sockets, crowd: &mut Crowd)
    ensures { crowd.new.most ≡ crowd.old.most }
{
    for number in 0..sockets.len() {
        count_client(sockets, number, crowd);
    }
}

/// So is the client under a number, if there is one.
fn count_client(sockets: &Sockets, number: usize, crowd: &mut Crowd)
    ensures { crowd.new.most ≡ crowd.old.most }
{
    if let Some(address) = sockets.client_address(number) {
        let _uncounted = crowd.note(number as u64, address);
    }
}

/// Connections may wait at a door. So somebody has come.
fn knock(door: &mut Door) -> bool {
    door.arrivals.knock();
    true
}

/// It keeps no account of what was asked. A number is that of one connection from its report until
/// it is closed.
///
/// No write that was put off is forgotten. It waits in an outbox, from which the engine writes in
/// each turn; it was put off because another turn follows, and as one was, no wait comes before
/// that (`has_more`).
impl Wire for MioWire {
    ghost is_after = { λ wire calls. ⊤ };

    fn ready(&mut self) -> Result<Ready, IoFault> {
        self.sockets.talkers.end_turn(&self.round);
        self.sockets.begin_turn();
        let is_over = self.round.is_over(self.has_arrivals());
        if is_over && self.begin_round().is_err() {
            return Err(IoFault::Failed);
        }
        self.round.begin_turn();
        let now = self.round.began;
        self.newcomers.look(now);
        Ok(self.report())
    }

    fn read(&mut self, conn: u64, buffer: &mut [u8]) -> Result<Got, IoFault> {
        self.sockets.read(conn as usize, buffer, &self.round)
    }

    fn write(&mut self, conn: u64, bytes: &[u8], behind: usize) -> Result<usize, IoFault> {
        let has_arrivals = self.has_arrivals();
        let is_waiting = self.sockets.talkers.waiting() > 0;
        self.round.note_next_turn(has_arrivals, is_waiting);
        self.sockets
            .write(conn as usize, bytes, behind, &mut self.round)
    }

    fn close(&mut self, conn: u64) {
        self.sockets.remove(conn as usize);
        self.crowd.forget(conn);
        self.unnamed.forget(conn);
        self.calls.close(conn, self.round.began);
        self.wake_doors();
    }

    fn would_call(&self) -> Option<&ServerName> {
        self.calls.would_call()
    }

    fn know(&mut self, is_known: bool, yields: bool) {
        let registry = self.poll.registry();
        self.calls
            .know(is_known, yields, registry, self.round.began);
    }

    fn would_give_up(&self) -> Option<u64> {
        self.newcomers.late()
    }

    fn know_user(&mut self, is_user: bool) {
        if let Some(mark) = self.newcomers.end_late()
            && !is_user
        {
            self.sockets.talkers.end_time(mark);
        }
    }

    fn named(&mut self, conn: u64) {
        self.sockets.talkers.name(conn as usize);
        self.unnamed.forget(conn);
    }

    fn whence(&self, conn: u64) -> Option<Host> {
        host_of(self.sockets.address(conn as usize)?)
    }

    fn moment(&self) -> Moment {
        self.round.began
    }

    fn notice(&mut self) -> Option<Notice> {
        self.shortage()
            .or(self.calls.unreached().map(Notice::Unreached))
    }
}
