//! Bytes that wait for a connection to take them.
ghost use Rattle.std.specs.Prelude.{◌≡◌, ◌+◌, ◌≤◌, ◌++◌, [], length, drop, vec_capacity, IfOk};
ghost use Rattle.irc_outbox.specs.Outboxes.{holding, IsPushed, WritesSome};

use crate::wire::{IoFault, Wire};
use std::alloc::{AllocError, Global};
use std::marker::Model;
use thiserror::Error;

/// Why bytes are not taken into an outbox.
#[derive(Clone, Copy, Debug, Drop, Error, PartialEq, Eq)]
pub enum Overflow {
    /// They do not fit.
    #[error("the bytes do not fit")]
    TooLong,
}

/// Bytes that wait for a connection to take them, in order. There is room for a fixed number of
/// them.
///
/// They lie in one piece, so one write offers all of them, and in front of them lie at most as
/// many that were written. So the next ones begin at the front of the memory where none wait, and
/// of the memory no more is ever touched than twice the most that waited at one time.
#[derive(Drop)]
pub struct Outbox {
    /// Bytes that were written, and behind them those that wait.
    bytes: Vec<u8, Global>,
    /// How many of them were written.
    written: usize,
    /// How many there may be.
    room: usize,
}

/// In a clause it is the bytes that it holds, and its room.
impl Model for Outbox {
    ghost use Rattle.std.specs.Prelude.{◌+◌, ◌≤◌, length, drop, vec_capacity};
    ghost use Rattle.irc_outbox.specs.Outboxes.{Held, holding};

    ghost Value = { Held };

    ghost view = { λ o. holding (drop o.written o.bytes.items) o.room };

    ghost invariant = { λ o. (o.written + o.written ≤ length o.bytes.items)
        × (length o.bytes.items ≤ o.room) × (o.room ≤ vec_capacity o.bytes) };
}

impl Outbox {
    /// An empty outbox with room for so many bytes.
    ///
    /// # Errors
    /// Where memory runs out.
    pub fn with_capacity(alloc: Global, room: usize) -> Result<Self, AllocError>
        ensures { IfOk result (λ outbox. outbox ≡ holding [] room) }
    {
        let bytes = Vec::with_capacity(alloc, room)?;
        Ok(Outbox {
            bytes,
            written: 0,
            room,
        })
    }

    /// How many bytes it holds.
    pub fn len(&self) -> usize
        ensures { result ≡ length self.now.bytes }
    {
        self.bytes.len() - self.written
    }

    /// Appends bytes, all of them or none.
    ///
    /// # Errors
    /// Just where they do not fit. Nothing has changed then.
    pub fn push(&mut self, bytes: &[u8]) -> Result<(), Overflow>
        ensures { IsPushed self.old bytes.now result self.new }
    {
        if bytes.len() > self.room - self.len() {
            return Err(Overflow::TooLong);
        }
        // Between two such moves as many bytes are pushed as were free at the first: they are dear
        // only where an outbox stays all but full.
        if bytes.len() > self.room - self.bytes.len() {
            close_up(&mut self.bytes, self.written);
            self.written = 0;
        }
        append(&mut self.bytes, bytes);
        Ok(())
    }

    /// Writes once to a connection, from the front on, and tells how many bytes the wire took: just
    /// these leave the outbox.
    ///
    /// # Errors
    /// Where the device failed in this write. The outbox is as it was.
    pub fn write_some<W: Wire>(&mut self, wire: &mut W, conn: u64) -> Result<usize, IoFault>
        ensures { WritesSome W.is_after conn self.old wire.old result self.new wire.new }
    {
        let taken = wire.write(conn, self.waiting(), 0)?;
        self.take_off(taken);
        Ok(taken)
    }

    /// The bytes that it holds.
    fn waiting(&self) -> &[u8]
        ensures { result.now ≡ self.now.bytes }
    {
        &self.bytes[self.written..]
    }

    /// So many of the first bytes are written. What is left moves to the front once it is no more
    /// than was written since it last did: so at most one byte moves for each that is written.
    fn take_off(&mut self, count: usize)
        ensures { self.new ≡ holding (drop count self.old.bytes) self.old.room }
    {
        let written = self.written + count.min(self.len());
        if written >= self.bytes.len() - written {
            close_up(&mut self.bytes, written);
            self.written = 0;
        } else {
            self.written = written;
        }
    }
}

/// Moves all but so many of the first bytes to the front.
fn close_up(bytes: &mut Vec<u8, Global>, written: usize)
    requires { written ≤ length bytes.old.items }
    ensures items { bytes.new.items ≡ drop written bytes.old.items }
    ensures capacity { vec_capacity bytes.new ≡ vec_capacity bytes.old }
{
    let left = bytes.len() - written;
    bytes.copy_within(written.., 0);
    bytes.truncate(left);
}

/// Appends bytes for which there is memory.
pub(crate) fn append(to: &mut Vec<u8, Global>, bytes: &[u8])
    requires { length to.old.items + length bytes.now ≤ vec_capacity to.old }
    ensures items { to.new.items ≡ to.old.items ++ bytes.now }
    ensures memory { vec_capacity to.old ≤ vec_capacity to.new }
{
    let Ok(()) = to.extend_from_slice(bytes) else {
        unreachable!()
    };
}
