//! What carries bytes, as sockets do: it tells what is ready, reads, writes and closes.
ghost use Rattle.std.specs.Prelude.{List, ◌≤◌, length, IfOk};
ghost use Rattle.irc_outbox.specs.Calls.{Call, asks, read_into, writes, closes, Adds, FitsIn};
ghost use Rattle.irc_outbox.specs.Calls.{Keeps};

use irc_moments::Moment;
use irc_names::{Host, ServerName};
use std::io;
use thiserror::Error;

/// What is ready on a wire.
#[derive(Drop)]
pub enum Ready {
    /// Nothing.
    Idle,
    /// A client has connected, from a host; its connection has this number from now on.
    Client(u64, Host),
    /// A server is connected, by this number. The name is the one that was called, where this side
    /// called it.
    Linked(u64, Option<ServerName>),
    /// A connection has bytes, or has ended.
    Readable(u64),
    /// A connection takes bytes again.
    Writable(u64),
}

/// What comes of a read that does not fail.
#[derive(Clone, Copy, Debug, Drop, PartialEq, Eq)]
pub enum Got {
    /// So many bytes, at the front of the buffer.
    Bytes(usize),
    /// None are there yet.
    Later,
    /// None will come any more.
    End,
}

/// The device failed, in the call that answers this.
#[derive(Clone, Copy, Debug, Drop, Error, PartialEq, Eq)]
pub enum IoFault {
    /// The one kind that is told.
    #[error("the device failed")]
    Failed,
}

/// A call that has reached nobody.
#[derive(Drop)]
pub struct Unreached {
    /// The server that was called.
    pub name: ServerName,
    /// Why the system says it has not.
    pub error: io::Error,
}

/// What a device has to tell beside what is ready.
#[derive(Drop)]
pub enum Notice {
    /// A call has reached nobody.
    Unreached(Unreached),
    /// No connection could be taken for want of a descriptor or of memory.
    DescriptorsGone,
    /// Connections can be taken again.
    DescriptorsBack,
}

/// A device with connections, each under a number. Each call is one step in the account of what was
/// asked and answered.
pub trait Wire {
    /// Whether these may be the calls so far, with their answers. A device that keeps no account of
    /// them takes any for possible.
    ghost is_after: { Self → List Call → Type 0 };

    /// Tells one thing that is ready.
    ///
    /// # Errors
    /// Where the device failed in this call.
    fn ready(&mut self) -> Result<Ready, IoFault>
        ensures { Adds is_after self.old (asks result) self.new };

    /// Reads bytes of a connection to the front of a buffer.
    ///
    /// # Errors
    /// Where the device failed in this call.
    fn read(&mut self, conn: u64, buffer: &mut [u8]) -> Result<Got, IoFault>
        ensures account { Adds is_after self.old
            (read_into conn buffer.old result buffer.new) self.new }
        ensures within { FitsIn result (length buffer.old) };

    /// Writes bytes to a connection, from their front on, and tells how many it took: 0 where it
    /// takes none yet. So many more wait `behind` them, which is for a device that slows whoever
    /// fills one: it is no part of the account.
    ///
    /// # Errors
    /// Where the device failed in this call: it took none.
    fn write(&mut self, conn: u64, bytes: &[u8], behind: usize) -> Result<usize, IoFault>
        ensures account { Adds is_after self.old (writes conn bytes.now result) self.new }
        ensures within { IfOk result (λ n. n ≤ length bytes.now) };

    /// Closes a connection.
    fn close(&mut self, conn: u64)
        ensures { Adds is_after self.old (closes conn) self.new };

    /// The server that the device would call, if it would call one. Whether that server is known
    /// here is to be told by [`Wire::know`], before `ready` is asked again.
    fn would_call(&self) -> Option<&ServerName>;

    /// Tells whether the server that the device would call is known here, by any way: if it is, it
    /// is not called. This side yields where the other one should call first. It is no part of the
    /// account.
    fn know(&mut self, is_known: bool, yields: bool)
        ensures { Keeps is_after self.old self.new };

    /// The client that the device would give up, if there is one: the time within which it was to
    /// become a user is over. Whether it is a user by now is to be told by [`Wire::know_user`],
    /// before `ready` is asked again.
    fn would_give_up(&self) -> Option<u64>;

    /// Tells whether the client that the device would give up is a user: if it is, it is not given
    /// up. It is no part of the account.
    fn know_user(&mut self, is_user: bool)
        ensures { Keeps is_after self.old self.new };

    /// A connection has named itself: a link is met. It is no part of the account.
    fn named(&mut self, conn: u64)
        ensures { Keeps is_after self.old self.new };

    /// From which host a connection comes, also one that was closed since `ready` was asked last;
    /// none where that is not known. It is no part of the account.
    fn whence(&self, conn: u64) -> Option<Host>;

    /// The moment at which the turn at hand began, by the device's clock. It is no part of the
    /// account.
    fn moment(&self) -> Moment;

    /// What the device has to tell and has not told yet, if there is something. It is no part of
    /// the account.
    fn notice(&mut self) -> Option<Notice>
        ensures { Keeps is_after self.old self.new };
}
