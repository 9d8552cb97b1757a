//! A listening socket.
ghost use Rattle.std.specs.Prelude.{◌≡◌, IfErr, IfOk};
ghost use Rattle.irc_sockets.specs.Listening.{IsFaultAt};

use crate::listen_fault::ListenFault;
use irc_moments::Moment;
use irc_turns::{Arrivals, Shortage};
use mio::net::{TcpListener, TcpStream};
use mio::{Interest, Registry, Token};
use std::io;
use std::io::ErrorKind;
use std::net::{Net, SocketAddr};

/// A listening socket.
#[derive(Drop)]
pub(crate) struct Door {
    listener: TcpListener,
    /// Where it was asked to listen.
    pub asked: SocketAddr,
    /// Who waits there.
    pub arrivals: Arrivals,
    /// Whether descriptors or memory are wanting for who does.
    pub shortage: Shortage,
}

impl Door {
    /// Listens on an address. The system reports it under the token.
    ///
    /// # Errors
    /// Where the system refuses.
    pub fn open<T: Net>(
        net: &T,
        address: SocketAddr,
        registry: &Registry,
        token: Token,
    ) -> Result<Self, ListenFault>
        ensures asked { IfOk result (λ door. door.asked ≡ address) }
        ensures fault { IfErr result (IsFaultAt address) }
    {
        match listener(net, address, registry, token) {
            Ok(listener) => Ok(Door {
                listener,
                asked: address,
                arrivals: Arrivals::new(),
                shortage: Shortage::new(),
            }),
            Err(error) => Err(ListenFault::Address(address, error)),
        }
    }

    /// The address on which it listens.
    ///
    /// # Errors
    /// Where the system does not tell.
    pub fn address(&self) -> io::Result<SocketAddr> {
        self.listener.local_addr()
    }

    /// The next connection, and where it comes from, if one waits and can be taken at this moment.
    pub fn accept(&mut self, now: Moment) -> Option<(TcpStream, SocketAddr)> {
        self.arrivals.take();
        match self.listener.accept() {
            Ok(taken) => {
                self.shortage.end();
                Some(taken)
            }
            Err(error) => {
                self.refuse(error.kind(), now);
                None
            }
        }
    }

    /// No connection was taken: because none is there, because that one is gone, or for want of a
    /// descriptor or of memory.
    fn refuse(&mut self, kind: ErrorKind, now: Moment) {
        match kind {
            ErrorKind::ConnectionAborted | ErrorKind::Interrupted => {}
            ErrorKind::WouldBlock => {
                self.shortage.end();
                self.arrivals.end();
            }
            _ => {
                self.shortage.note(now);
                self.arrivals.rest(now);
            }
        }
    }
}

/// A socket that listens on an address, and that the system reports under the token.
fn listener<T: Net>(
    net: &T,
    address: SocketAddr,
    registry: &Registry,
    token: Token,
) -> io::Result<TcpListener> {
    let mut listener = TcpListener::bind(net, address)?;
    registry.register(&mut listener, token, Interest::READABLE)?;
    Ok(listener)
}
