//! Calls of other servers.
ghost use Rattle.std.specs.Prelude.{◌≡◌, if◌then◌else◌, IfOk, OnOk, Some};
ghost use Rattle.std.specs.List.{slice_get};
ghost use Rattle.std.specs.Option.{option_copied};
ghost use Rattle.irc_turns.specs.Spreads.{spread_on};

use crate::tokens::CALLS;
use irc_moments::Moment;
use irc_names::ServerName;
use irc_outbox::Unreached;
use irc_turns::Retries;
use mio::net::TcpStream;
use mio::{Interest, Registry, Token};
use std::alloc::{AllocError, Global};
use std::collections::VecDeque;
use std::io::ErrorKind;
use std::net::{IpAddr, Net, SocketAddr};
use std::{io, net};

/// A server that is to be called.
#[derive(Drop)]
pub struct Callee {
    /// Its name.
    pub name: ServerName,
    /// Where it listens for servers.
    pub address: SocketAddr,
    /// For how many seconds it is unknown at least before it is called again; none where it is
    /// called once.
    pub retry: Option<u16>,
}

/// A call that has begun, by its place among those that were asked for.
#[derive(Drop)]
struct Calling {
    stream: TcpStream,
    place: usize,
}

/// How a call stands.
enum CallState {
    UnderWay,
    Through,
    Failed(io::Error),
}

/// What a wire was opened with: mio asks for a `Net` with each call, and uses none. It opens
/// nothing itself.
struct Granted;

/// Calls of other servers: which is due, `irc_turns` tells.
#[derive(Drop)]
pub(crate) struct Calls {
    /// Who was to be called.
    pub asked: Vec<Callee, Global>,
    /// The calls that are neither through nor given up.
    under_way: Vec<Calling, Global>,
    /// Whether some of them may be.
    may_have: bool,
    /// When each is called again.
    pub retries: Retries,
    /// Which calls have failed, by their places, and why, where that was not told yet.
    failed: VecDeque<(usize, io::Error), Global>,
}

impl Calls {
    ghost use Rattle.irc_sockets.specs.Calling.{IsCalled, Knows, name_at, name_of, rows_closed};
    ghost use Rattle.irc_sockets.specs.Calling.{rows_ended, rows_reached};

    /// Calls each of these, and waits for none of them: the system reports under [`CALLS`] when one
    /// is through or has failed. A server that the system refuses to call is passed over.
    ///
    /// # Errors
    /// Where memory runs out.
    pub fn begin(
        alloc: Global,
        asked: Vec<Callee, Global>,
        spread: u64,
        registry: &Registry,
        now: Moment,
    ) -> Result<Self, AllocError>
        ensures asked { IfOk result (λ calls. calls.asked ≡ asked) }
        ensures spread { IfOk result (λ calls. calls.retries.spread ≡ spread) }
    {
        let mut calls = Calls {
            under_way: Vec::with_capacity(alloc, asked.len())?,
            retries: Retries::new(alloc, spread),
            asked,
            may_have: false,
            failed: VecDeque::new(alloc),
        };
        calls.begin_all(registry, now)?;
        Ok(calls)
    }

    fn begin_all(&mut self, registry: &Registry, now: Moment) -> Result<(), AllocError>
        ensures asked { OnOk result (self.new.asked ≡ self.old.asked) }
        ensures spread { OnOk result (self.new.retries.spread ≡ self.old.retries.spread) }
    {
        for place in 0..self.asked.len() {
            let retry = self.retry_of(place);
            self.retries.add(retry)?;
            self.call(place, false, registry, now);
        }
        Ok(())
    }

    /// After how many seconds the one at a place is called again, if it is.
    fn retry_of(&self, place: usize) -> Option<u16> {
        self.asked.get(place)?.retry
    }

    /// Calls the one at a place, the first time or again.
    fn call(&mut self, place: usize, is_again: bool, registry: &Registry, now: Moment)
        ensures asked { self.new.asked ≡ self.old.asked }
        ensures spread { self.new.retries.spread ≡ (if is_again
            then spread_on self.old.retries.spread 1 else self.old.retries.spread) }
        ensures rows { IsCalled place self.old.retries.visits now self.old.retries.rows.items
            self.new.retries.rows.items }
        ensures called { self.new.retries.called_at
            ≡ (if is_again then Some now else self.old.retries.called_at) }
        ensures looked { self.new.retries.looked_at ≡ self.old.retries.looked_at }
        ensures visits { self.new.retries.visits ≡ self.old.retries.visits }
    {
        self.retries.begin(place, is_again, now);
        if let Err(error) = self.try_call(place, registry) {
            self.fail(place, error, now);
        }
    }

    /// The call of the one at a place has failed. Where there is no memory for it, that is not
    /// told.
    pub fn fail(&mut self, place: usize, error: io::Error, now: Moment)
        ensures asked { self.new.asked ≡ self.old.asked }
        ensures under_way { self.new.under_way ≡ self.old.under_way }
        ensures rows { self.new.retries.rows.items
            ≡ rows_ended place self.old.retries.visits now self.old.retries.rows.items }
        ensures retries { self.new.retries
            ≡ record self.old.retries { rows = self.new.retries.rows } }
    {
        self.retries.end(place, now);
        let _noted = self.failed.push_back((place, error));
    }

    /// A call that has failed and was not told yet.
    pub fn unreached(&mut self) -> Option<Unreached> {
        let (place, error) = self.failed.pop_front()?;
        let name = self.asked.get(place)?.name.copy();
        Some(Unreached { name, error })
    }

    /// Begins a call.
    ///
    /// # Errors
    /// Where the system refuses, or memory runs out.
    fn try_call(&mut self, place: usize, registry: &Registry) -> io::Result<()>
        ensures asked { self.new.asked ≡ self.old.asked }
        ensures retries { self.new.retries ≡ self.old.retries }
    {
        let Some(callee) = self.asked.get(place) else {
            return Ok(());
        };
        let stream = begin_call(callee.address, registry)?;
        self.under_way.push(Calling { stream, place })?;
        Ok(())
    }

    /// Where the one at a place is called.
    pub fn address(&self, place: usize) -> Option<IpAddr> {
        Some(self.asked.get(place)?.address.ip())
    }

    /// Whether some may be through, or have failed.
    pub fn may_have(&self) -> bool {
        self.may_have
    }

    /// Some may be through, or have failed. So somebody has come.
    pub fn knock(&mut self) -> bool {
        self.may_have = true;
        true
    }

    /// A call that is through, and the place of whom it has reached. Those that have failed are
    /// given up.
    pub fn next(&mut self, now: Moment) -> Option<(TcpStream, usize)> {
        let mut at = 0;
        while at < self.under_way.len() {
            match self.under_way[at].standing() {
                CallState::UnderWay => at += 1,
                CallState::Through => {
                    let calling = self.under_way.swap_remove(at);
                    return Some((calling.stream, calling.place));
                }
                CallState::Failed(error) => {
                    let calling = self.under_way.swap_remove(at);
                    self.fail(calling.place, error, now);
                }
            }
        }
        self.may_have = false;
        None
    }

    /// The call of the one at a place is a link of this number now, and has this name.
    pub fn reach(&mut self, place: usize, link: u64) -> Option<ServerName>
        ensures name { result ≡ name_of (slice_get self.old.asked.items place) }
        ensures rows { self.new.retries.rows.items
            ≡ rows_reached place link self.old.retries.rows.items }
        ensures retries { self.new.retries
            ≡ record self.old.retries { rows = self.new.retries.rows } }
        ensures others { self.new ≡ record self.old { retries = self.new.retries } }
    {
        self.retries.reach(place, link);
        Some(self.asked.get(place)?.name.copy())
    }

    /// A connection was closed, which may be a link that a call has become.
    pub fn close(&mut self, link: u64, now: Moment)
        ensures rows { self.new.retries.rows.items ≡ rows_closed link now self.old.retries }
        ensures retries { self.new.retries
            ≡ record self.old.retries { rows = self.new.retries.rows } }
        ensures others { self.new ≡ record self.old { retries = self.new.retries } }
    {
        if let Some(place) = self.retries.place_of(link) {
            self.retries.end(place, now);
        }
    }

    /// The one that would be called, if it is not known.
    pub fn would_call(&self) -> Option<&ServerName>
        ensures { option_copied result ≡ name_at self.now.asked.items self.now.retries.looked_at }
    {
        let place = self.retries.looked_at?;
        Some(&self.asked.get(place)?.name)
    }

    /// Takes in whether that one is known at this moment, and calls it where that is due.
    pub fn know(&mut self, is_known: bool, yields: bool, registry: &Registry, now: Moment)
        ensures asked { self.new.asked ≡ self.old.asked }
        ensures known { Knows is_known yields now self.old.retries self.new.retries }
    {
        if let Some(place) = self.retries.know(now, is_known, yields) {
            self.call(place, true, registry, now);
        }
    }
}

impl Calling {
    /// How the call stands. The system tells an error once.
    fn standing(&self) -> CallState {
        match self.stream.take_error() {
            Ok(None) => self.reached(),
            Ok(Some(error)) | Err(error) => CallState::Failed(error),
        }
    }

    /// Whether a call without an error has reached anybody: only then there is an address at the
    /// other end.
    fn reached(&self) -> CallState {
        match self.stream.peer_addr() {
            Ok(_) => CallState::Through,
            Err(error) if error.kind() == ErrorKind::NotConnected => CallState::UnderWay,
            Err(error) => CallState::Failed(error),
        }
    }
}

/// It opens nothing.
impl Net for Granted {
    type Stream = net::TcpStream;

    type Listener = net::TcpListener;

    fn bind(&self, _address: SocketAddr) -> io::Result<net::TcpListener> {
        Err(io::Error::from(ErrorKind::Unsupported))
    }

    fn connect(&self, _address: SocketAddr) -> io::Result<net::TcpStream> {
        Err(io::Error::from(ErrorKind::Unsupported))
    }
}

/// Begins to call.
///
/// # Errors
/// Where the system refuses.
fn begin_call(address: SocketAddr, registry: &Registry) -> io::Result<TcpStream> {
    let mut stream = TcpStream::connect(&Granted, address)?;
    registry.register(&mut stream, Token(CALLS), Interest::WRITABLE)?;
    Ok(stream)
}
