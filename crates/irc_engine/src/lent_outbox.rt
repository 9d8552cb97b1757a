//! The outbox of one connection, which is there only while bytes wait.
ghost use Rattle.std.specs.Prelude.{◌≡◌, ◌<◌, [], length, IfOk, IfSome};
ghost use Rattle.irc_outbox.specs.Outboxes.{holding, IsPushed, WritesSome};
ghost use Rattle.irc_engine.specs.Lending.{waiting_in, IsInUse};

use crate::outbox_pool::OutboxPool;
use irc_outbox::{IoFault, Outbox, Overflow, Wire};
use std::alloc::AllocError;
use std::marker::Model;

/// What waits to be written to one connection. The memory for it comes from a pool with the first
/// byte, and goes back as none is left: so who is idle has none.
#[derive(Drop)]
pub struct LentOutbox {
    /// The outbox, as long as bytes wait in it.
    lent: Option<Outbox>,
    /// How many bytes there is room for.
    room: usize,
}

/// In a clause it is what an outbox is: the bytes that wait, and the room.
impl Model for LentOutbox {
    ghost use Rattle.std.specs.Prelude.{IfSome};
    ghost use Rattle.irc_outbox.specs.Outboxes.{Held};
    ghost use Rattle.irc_engine.specs.Lending.{waiting_in, IsInUse};

    ghost Value = { Held };

    ghost view = { λ outbox. waiting_in outbox.lent outbox.room };

    ghost invariant = { λ outbox. IfSome outbox.lent (IsInUse outbox.room) };
}

impl LentOutbox {
    /// Nothing waits. There is room for so many bytes, for which no memory is taken yet.
    pub(crate) fn new(room: usize) -> Self
        ensures { result ≡ holding [] room }
    {
        LentOutbox { lent: None, room }
    }

    /// How many bytes wait.
    pub(crate) fn len(&self) -> usize
        ensures { result ≡ length self.now.bytes }
    {
        match &self.lent {
            Some(outbox) => outbox.len(),
            None => 0,
        }
    }

    /// Appends bytes, all of them or none, as [`Outbox::push`] does.
    ///
    /// # Errors
    /// Where memory runs out. Whether the bytes fit is told within.
    pub(crate) fn push(
        &mut self,
        pool: &mut OutboxPool,
        bytes: &[u8],
    ) -> Result<Result<(), Overflow>, AllocError>
        requires { 0 < length bytes.now }
        ensures { IfOk result (λ pushed. IsPushed self.old bytes.now pushed self.new) }
    {
        if let Some(outbox) = &mut self.lent {
            return Ok(outbox.push(bytes));
        }
        let mut outbox = pool.take(self.room)?;
        let pushed = outbox.push(bytes);
        self.lent = put_away(outbox, pool, self.room);
        Ok(pushed)
    }

    /// Writes once to a connection, from the front on, as [`Outbox::write_some`] does.
    ///
    /// # Errors
    /// Where the device failed in this write. What waits is as it was.
    pub(crate) fn write_some<W: Wire>(
        &mut self,
        pool: &mut OutboxPool,
        wire: &mut W,
        conn: u64,
    ) -> Result<usize, IoFault>
        ensures { WritesSome W.is_after conn self.old wire.old result self.new wire.new }
    {
        let Some(mut outbox) = self.lent.take() else {
            return wire.write(conn, &[], 0);
        };
        let result = outbox.write_some(wire, conn);
        self.lent = put_away(outbox, pool, self.room);
        result
    }
}

/// An outbox of so much room, if bytes wait in it; else it goes back.
fn put_away(outbox: Outbox, pool: &mut OutboxPool, room: usize) -> Option<Outbox>
    requires { outbox.room ≡ room }
    ensures same { waiting_in result room ≡ outbox }
    ensures lent { IfSome result (IsInUse room) }
{
    if outbox.len() > 0 {
        return Some(outbox);
    }
    pool.give_back(outbox, room);
    None
}
