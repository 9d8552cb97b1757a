//! The connections that are there, by number: the outbox of each, and what has come of its next
//! line.
ghost use Rattle.std.specs.Prelude.{◌≡◌, ◌<◌, ℕ, Some, None, is_some, length, IfOk, OnOk};
ghost use Rattle.std.specs.Option.{option_copied};
ghost use Rattle.irc_engine.specs.Loops.Tables.{fresh_connection, has_some_at, is_done_at};
ghost use Rattle.irc_engine.specs.Loops.Tables.{is_open_at, open_kind_at, connection_count};
ghost use Rattle.irc_engine.specs.Loops.Tables.{AreSame, CountsWithout, Sets, IsPushedTo};
ghost use Rattle.irc_engine.specs.Moments.{connection_of};
ghost use Rattle.irc_engine.specs.Loops.Tables.{IsPushedAt, IsPushedIn, IsClosedAt, IsWrittenAt};
ghost use Rattle.irc_engine.specs.Loops.Tables.{IsWrittenIn, with_line, Frames, FramesAt, FramesIn};
ghost use Rattle.irc_engine.specs.Loops.Tables.{Within};

use crate::boxed_framer::BoxedFramer;
use crate::kind::ConnectionKind;
use crate::lent_outbox::LentOutbox;
use crate::outbox_pool::OutboxPool;
use irc_line::Line;
use irc_outbox::{IoFault, Overflow, Wire};
use std::alloc::{AllocError, Global};

/// A connection.
#[derive(Drop)]
pub struct Connection {
    /// Whether it is a client's or a link's.
    pub kind: ConnectionKind,
    /// What is still to be written to it.
    pub outbox: LentOutbox,
    /// What has come of its next line; none once the server has closed the connection.
    pub framer: Option<BoxedFramer>,
}

/// What has come of bytes that were pushed to a connection.
#[derive(Clone, Copy)]
pub(crate) enum Pushed {
    /// None are to be written.
    Nothing,
    /// They are the first that wait to be written.
    First,
    /// They wait behind others.
    More,
}

impl Connection {
    /// That of a connection that has just been made.
    pub(crate) fn fresh(
        alloc: Global,
        kind: ConnectionKind,
        room: usize,
    ) -> Result<Self, AllocError>
        ensures { IfOk result (λ connection. connection ≡ fresh_connection kind room) }
    {
        let framer = BoxedFramer::new(alloc)?;
        Ok(Connection {
            kind,
            outbox: LentOutbox::new(room),
            framer: Some(framer),
        })
    }

    /// Whether the server has closed the connection, and nothing is left to write.
    fn is_done(&self) -> bool
        ensures { result ≡ is_done_at (Some self.now) }
    {
        self.framer.is_none() && self.outbox.len() == 0
    }

    /// The kind of the connection, unless the server has closed it.
    fn open_kind(&self) -> Option<ConnectionKind>
        ensures { result ≡ open_kind_at (Some self.now) }
    {
        if self.framer.is_some() {
            Some(self.kind)
        } else {
            None
        }
    }

    /// Takes bytes that are to be written, unless the server has closed the connection.
    ///
    /// # Errors
    /// Where memory runs out. Whether they fit is told within.
    fn push(
        &mut self,
        pool: &mut OutboxPool,
        bytes: &[u8],
    ) -> Result<Result<Pushed, Overflow>, AllocError>
        ensures { IfOk result (λ pushed. IsPushedTo self.old bytes.now pushed self.new) }
    {
        if self.framer.is_none() || bytes.is_empty() {
            return Ok(Ok(Pushed::Nothing));
        }
        let held = self.outbox.len();
        if let Err(overflow) = self.outbox.push(pool, bytes)? {
            return Ok(Err(overflow));
        }
        if held == 0 {
            Ok(Ok(Pushed::First))
        } else {
            Ok(Ok(Pushed::More))
        }
    }

    /// Takes bytes that have come, up to the end of the next line, which is put into `line`: how
    /// many, and of which kind the connection is; nothing, where the server has closed it.
    fn take(&mut self, piece: &[u8], line: &mut Option<Line>) -> Option<(usize, ConnectionKind)>
        ensures { Frames self.old piece.now (with_line result line.new) self.new }
    {
        match &mut self.framer {
            Some(framer) => Some((framer.take(piece, line), self.kind)),
            None => None,
        }
    }
}

/// The connections, by their numbers: what goes to many is pushed at each of their numbers in turn,
/// and none is searched for. A wire gives the lowest number that is free, so few places are empty.
#[derive(Drop)]
pub(crate) struct ConnectionTable {
    /// Each at its number.
    slots: Vec<Option<Connection>, Global>,
    /// Outboxes for those to which bytes wait.
    pool: OutboxPool,
}

impl ConnectionTable {
    /// No connections. Those of clients will have room for `client_room` bytes each that wait, and
    /// those of links for `link_room`; for others no memory is kept.
    pub(crate) fn new(alloc: Global, client_room: usize, link_room: usize) -> Self
        ensures { (conn : ℕ) → connection_of result conn ≡ None }
    {
        ConnectionTable {
            slots: Vec::new(alloc),
            pool: OutboxPool::new(alloc, client_room, link_room),
        }
    }

    /// The connection of a number, if there is one.
    fn find(&self, conn: u64) -> Option<&Connection>
        ensures { option_copied result ≡ connection_of self.now conn }
    {
        match self.slots.get(conn as usize) {
            Some(slot) => slot.as_ref(),
            None => None,
        }
    }

    /// Whether a connection is there.
    pub(crate) fn contains(&self, conn: u64) -> bool
        ensures { result ≡ is_some (connection_of self.now conn) }
    {
        self.find(conn).is_some()
    }

    /// Whether a connection is there that the server has not closed.
    pub(crate) fn is_open(&self, conn: u64) -> bool
        ensures { result ≡ is_open_at (connection_of self.now conn) }
    {
        match self.find(conn) {
            Some(connection) => connection.framer.is_some(),
            None => false,
        }
    }

    /// The kind of a connection that is there and that the server has not closed.
    pub(crate) fn open_kind(&self, conn: u64) -> Option<ConnectionKind>
        ensures { result ≡ open_kind_at (connection_of self.now conn) }
    {
        match self.find(conn) {
            Some(connection) => connection.open_kind(),
            None => None,
        }
    }

    /// Whether a connection is one that the server has closed, with nothing left to write.
    pub(crate) fn is_done(&self, conn: u64) -> bool
        ensures { result ≡ is_done_at (connection_of self.now conn) }
    {
        match self.find(conn) {
            Some(connection) => connection.is_done(),
            None => false,
        }
    }

    /// Whether a connection has bytes to write.
    pub(crate) fn has_some(&self, conn: u64) -> bool
        ensures { result ≡ has_some_at (connection_of self.now conn) }
    {
        match self.find(conn) {
            Some(connection) => connection.outbox.len() > 0,
            None => false,
        }
    }

    /// A connection is there from now on, where none of its number was.
    pub(crate) fn insert(
        &mut self,
        alloc: Global,
        conn: u64,
        kind: ConnectionKind,
        room: usize,
    ) -> Result<(), AllocError>
        ensures { OnOk result (Sets self.old conn (Some (fresh_connection kind room)) self.new) }
    {
        let fresh = Connection::fresh(alloc, kind, room)?;
        self.reach(conn)?;
        match self.slots.get_mut(conn as usize) {
            Some(slot) => {
                *slot = Some(fresh);
                Ok(())
            }
            None => unreachable!(),
        }
    }

    /// There is a place for this number from now on.
    fn reach(&mut self, conn: u64) -> Result<(), AllocError>
        ensures same { OnOk result (AreSame (connection_of self.old) (connection_of self.new)) }
        ensures reached { OnOk result (conn < length self.new.slots.items) }
    {
        while self.slots.len() <= conn as usize {
            self.slots.push(None)?;
        }
        Ok(())
    }

    /// A connection is there no more.
    pub(crate) fn remove(&mut self, conn: u64)
        ensures at { Sets self.old conn None self.new }
        ensures len { CountsWithout conn self.old self.new }
    {
        match self.slots.get_mut(conn as usize) {
            Some(slot) => *slot = None,
            None => {}
        }
    }

    /// Pushes bytes to a connection.
    ///
    /// # Errors
    /// Where memory runs out. Whether they fit is told within.
    pub(crate) fn push(
        &mut self,
        conn: u64,
        bytes: &[u8],
    ) -> Result<Result<Pushed, Overflow>, AllocError>
        ensures at { IfOk result (λ pushed. IsPushedAt conn bytes.now self.old pushed self.new) }
        ensures len { IfOk result
            (λ pushed. connection_count self.new ≡ connection_count self.old) }
    {
        match self.slots.get_mut(conn as usize) {
            Some(slot) => push(slot, &mut self.pool, bytes),
            None => Ok(Ok(Pushed::Nothing)),
        }
    }

    /// The server has closed a connection.
    pub(crate) fn close_when_written(&mut self, conn: u64)
        ensures at { IsClosedAt conn self.old self.new }
        ensures len { connection_count self.new ≡ connection_count self.old }
    {
        match self.slots.get_mut(conn as usize) {
            Some(slot) => close_when_written(slot),
            None => {}
        }
    }

    /// Takes bytes that have come from a connection, up to the end of its next line, which is put
    /// into `line`: how many, and of which kind it is; nothing, where it is not open. (A line is
    /// half a kilobyte, and each result with a line in it would be one more copy.)
    pub(crate) fn take(
        &mut self,
        conn: u64,
        piece: &[u8],
        line: &mut Option<Line>,
    ) -> Option<(usize, ConnectionKind)>
        ensures at { FramesAt conn piece.now self.old (with_line result line.new) self.new }
        ensures len { connection_count self.new ≡ connection_count self.old }
    {
        match self.slots.get_mut(conn as usize) {
            Some(slot) => take(slot, piece, line),
            None => None,
        }
    }

    /// Writes once to a connection, if it is there.
    ///
    /// # Errors
    /// Where the device failed.
    pub(crate) fn write<W: Wire>(&mut self, wire: &mut W, conn: u64) -> Result<usize, IoFault>
        ensures at { IsWrittenAt W.is_after conn self.old wire.old result self.new wire.new }
        ensures len { connection_count self.new ≡ connection_count self.old }
    {
        match self.slots.get_mut(conn as usize) {
            Some(slot) => write(slot, &mut self.pool, wire, conn),
            None => Ok(0),
        }
    }
}

/// Pushes bytes to the connection of this place, if there is one.
fn push(
    slot: &mut Option<Connection>,
    pool: &mut OutboxPool,
    bytes: &[u8],
) -> Result<Result<Pushed, Overflow>, AllocError>
    ensures { IfOk result (λ pushed. IsPushedIn bytes.now slot.old pushed slot.new) }
{
    match slot {
        Some(connection) => connection.push(pool, bytes),
        None => Ok(Ok(Pushed::Nothing)),
    }
}

/// The server has closed the connection of this place, if there is one.
fn close_when_written(slot: &mut Option<Connection>)
    ensures { Within (λ s t. t ≡ record s { framer = None }) (Unit {0}) slot.old slot.new }
{
    if let Some(connection) = slot {
        connection.framer = None;
    }
}

/// Takes bytes that have come from the connection of this place, if there is one.
fn take(
    slot: &mut Option<Connection>,
    piece: &[u8],
    line: &mut Option<Line>,
) -> Option<(usize, ConnectionKind)>
    ensures { FramesIn piece.now slot.old (with_line result line.new) slot.new }
{
    match slot {
        Some(connection) => connection.take(piece, line),
        None => None,
    }
}

/// Writes once to the connection of this place, if there is one.
fn write<W: Wire>(
    slot: &mut Option<Connection>,
    pool: &mut OutboxPool,
    wire: &mut W,
    conn: u64,
) -> Result<usize, IoFault>
    ensures { IsWrittenIn W.is_after conn slot.old wire.old result slot.new wire.new }
{
    match slot {
        Some(connection) => connection.outbox.write_some(pool, wire, conn),
        None => Ok(0),
    }
}
