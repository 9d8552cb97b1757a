//! An engine: one server, or a machine around one, over a wire.
ghost use Rattle.std.specs.Prelude.{◌≡◌, ◌≤◌, true, false, Ok, [], ◌∷◌, length, IfOk, OnOk};
ghost use Rattle.irc_outbox.specs.Calls.{Keeps};
ghost use Rattle.irc_engine.specs.Loops.Counts.{count_of};
ghost use Rattle.irc_engine.specs.Hearing.{end_event_of};
ghost use Rattle.irc_engine.specs.Knowing.{HasNobody, IsArrival, IsSettled};
ghost use Rattle.irc_engine.specs.Loops.Moments.{came, knows_at, yields_at, passed_on};
ghost use Rattle.irc_engine.specs.Moments.{moment_of, connection_of, lost_at};
ghost use Rattle.irc_engine.specs.Loops.Moments.{AsksFor, HearsFrom, IsAtOneIn, IsNobodyNoted};
ghost use Rattle.irc_engine.specs.Loops.Moments.{IsOpenAs, IsSettledIn, IsToHearIn, KeepsOrder};
ghost use Rattle.irc_engine.specs.Loops.Moments.{KeepsTold, Spans};
ghost use Rattle.irc_engine.specs.Machines.{is_never, is_out_of_memory};
ghost use Rattle.irc_engine.specs.Loops.Connections.{KeepsMarks, KeepsNotes};
ghost use Rattle.irc_engine.specs.Running.{AllTold, AnswersBy, AsksOnceBy, DoesBy, FlushesBy};
ghost use Rattle.irc_engine.specs.Running.{IsDoneBy};
ghost use Rattle.irc_engine.specs.Running.{PassesOnBy, RanOnBy, ReadsBy, StartsBy, TellsLossesBy};

use crate::connection_table::ConnectionTable;
use crate::connections::{Connections, take_lowest};
use crate::kind::ConnectionKind;
use crate::machine::Machine;
use crate::noting::note;
use irc_batch::Batch;
use irc_journal::Journal;
use irc_line::Line;
use irc_names::{Host, ServerName, compare};
use irc_outbox::{Got, IoFault, Ready, Wire};
use irc_server::{Event, Server, ServerFault};
use std::alloc::{AllocError, Global};
use std::collections::{BTreeMap, BTreeSet};
use std::mem::replace;
use thiserror::Error;

/// The most bytes that a turn reads.
const READ_SIZE: usize = 4096;

/// Why a turn is not done.
#[derive(Clone, Copy, Debug, Drop, Error, PartialEq, Eq)]
pub enum EngineFault {
    /// Memory ran out. The engine answers [`EngineFault::Failed`] from then on.
    #[error("out of memory")]
    Memory,
    /// Memory ran out before.
    #[error("the engine has failed")]
    Failed,
    /// The wire could not tell what is ready. Nothing else has happened, and the engine goes on.
    #[error("the device failed")]
    Device,
}

/// How many bytes an outbox holds.
#[derive(Clone, Copy, Drop)]
pub struct OutboxSizes {
    /// That of a client.
    pub client: usize,
    /// That of a link.
    pub link: usize,
}

/// One server, or a machine around one, and the wire that it runs over.
#[derive(Drop)]
pub struct Engine<W, M: Machine = Server> {
    failed: bool,
    sizes: OutboxSizes,
    pub(crate) core: Core<W, M>,
    /// The server has just the connections that are open.
    ghost settled: { failed ≡ false → IsSettled (M.server_of core.machine)
        (connection_of core.connections.table) (lost_at core.connections.lost) },
}

/// What an engine is made of.
#[derive(Drop)]
pub(crate) struct Core<W, M> {
    /// What handles the events.
    pub machine: M,
    /// What comes to light of its links.
    pub journal: Journal,
    pub connections: Connections<W>,
    /// What was put out by the event at hand.
    pub out: Batch,
    /// Where bytes are read to.
    pub buffer: Vec<u8, Global>,
    pub alloc: Global,
}

impl<W: Wire + Drop, M: Machine + Drop> Engine<W, M> {
    ghost use Rattle.irc_engine.specs.EngineView.{engine_view};
    ghost use Rattle.irc_engine.specs.Turning.{IsNew};

    /// An engine for a machine whose server has no connection and no link, over a wire that has
    /// reported nothing. An outbox of a client has room for `client_room` bytes, and that of a link
    /// for `link_room`.
    ///
    /// # Errors
    /// Where memory runs out.
    pub fn new(
        alloc: Global,
        machine: M,
        wire: W,
        client_room: usize,
        link_room: usize,
    ) -> Result<Self, AllocError>
        requires nobody { HasNobody (M.server_of machine) }
        ensures { IfOk result
            (λ engine. IsNew machine wire client_room link_room (engine_view engine)) }
    {
        let buffer = vec![in alloc; 0u8; READ_SIZE]?;
        Ok(Engine {
            failed: false,
            sizes: OutboxSizes {
                client: client_room,
                link: link_room,
            },
            core: Core {
                machine,
                journal: Journal::new(alloc),
                connections: Connections {
                    wire,
                    table: ConnectionTable::new(alloc, client_room, link_room),
                    waiting: BTreeSet::new(alloc),
                    lost: BTreeMap::new(alloc),
                },
                out: Batch::new(alloc),
                buffer,
                alloc,
            },
        })
    }
}

impl<W: Wire, M: Machine> Engine<W, M> {
    ghost use Rattle.irc_engine.specs.EngineView.{engine_view, ChangesWireAlone};
    ghost use Rattle.irc_engine.specs.Turning.{HasFailed, RunsBy, TakenBy, TurnedBy};

    /// Takes one turn: asks what is ready and does it, then writes once from each outbox that is
    /// not empty, in order of number.
    ///
    /// # Errors
    /// - [`EngineFault::Failed`] where memory ran out before.
    /// - [`EngineFault::Device`] else, where the wire could not tell what is ready. Nothing has
    ///   changed then.
    /// - [`EngineFault::Memory`] where memory runs out.
    pub fn turn(&mut self) -> Result<(), EngineFault>
        ensures turned { TurnedBy W.is_after M.server_of M.handles M.dues (engine_view self.old)
            (engine_view self.new) result }
        ensures failed_before { HasFailed (engine_view self.old) → self.new ≡ self.old }
        ensures device { ChangesWireAlone result self.old self.new }
    {
        if self.failed {
            return Err(EngineFault::Failed);
        }
        tell_known(&mut self.core.connections.wire, self.core.machine.server());
        tell_user(&mut self.core.connections.wire, self.core.machine.server());
        match self.core.connections.wire.ready() {
            Ok(ready) => self.take(ready),
            Err(_) => Err(EngineFault::Device),
        }
    }

    /// Does what is ready, and writes.
    fn take(&mut self, ready: Ready) -> Result<(), EngineFault>
        requires { self.old.failed ≡ false }
        ensures { TakenBy W.is_after M.server_of M.handles M.dues ready (engine_view self.old)
            (engine_view self.new) result }
    {
        self.failed = true;
        match self.core.turn(ready, self.sizes) {
            Ok(()) => {
                self.failed = false;
                Ok(())
            }
            Err(_) => Err(EngineFault::Memory),
        }
    }

    /// Takes so many turns, up to the first that is not done; that one is the last.
    ///
    /// # Errors
    /// As [`Engine::turn`], for that turn.
    pub fn run(&mut self, turns: u64) -> Result<(), EngineFault>
        ensures ran { RunsBy W.is_after M.server_of M.handles M.dues (engine_view self.old) turns
            (engine_view self.new) result }
        ensures failed_before { HasFailed (engine_view self.old) → self.new ≡ self.old }
    {
        for _turn in 0..turns {
            self.turn()?;
        }
        Ok(())
    }
}

impl<W: Wire, M: Machine> Core<W, M> {
    ghost use Rattle.irc_engine.specs.Turning.{brings_nothing};

    /// Does what is ready, and what is due, and writes.
    fn turn(&mut self, ready: Ready, sizes: OutboxSizes) -> Result<(), AllocError>
        requires { IsSettledIn M.server_of self.old }
        ensures settled { OnOk result (IsSettledIn M.server_of self.new) }
        ensures done { OnOk result
            (Spans (DoesBy W.is_after M.server_of M.handles M.dues sizes ready)
            self.old self.new) }
        ensures quiet { is_never M.dues ≡ true → brings_nothing ready ≡ true
            → IsNobodyNoted self.old → result ≡ Ok tt }
    {
        self.answer(ready, sizes)?;
        self.do_due()?;
        self.flush()
    }

    /// Does what is due now, and tells the server of each connection that was lost by this.
    fn do_due(&mut self) -> Result<(), AllocError>
        requires { IsAtOneIn M.server_of self.old }
        ensures at_one { OnOk result (IsAtOneIn M.server_of self.new) }
        ensures done { OnOk result (Spans (IsDoneBy W.is_after M.server_of M.handles M.dues)
            self.old self.new) }
        ensures told { OnOk result (KeepsTold self.old self.new) }
        ensures marks { OnOk result (KeepsMarks self.old.connections self.new.connections) }
        ensures quiet { is_never M.dues ≡ true
            → (result ≡ Ok tt) × (self.new.connections ≡ self.old.connections) }
    {
        self.out.clear();
        let moment = self.connections.wire.moment();
        if let Err(fault) = self.machine.due(moment, &mut self.out) {
            return Err(want_of_memory(fault));
        }
        if self.out.len() == 0 {
            return Ok(());
        }
        self.connections.dispatch(&self.out, &mut self.journal)?;
        self.tell_losses()
    }

    /// Does what is ready.
    fn answer(&mut self, ready: Ready, sizes: OutboxSizes) -> Result<(), AllocError>
        requires at_one { IsAtOneIn M.server_of self.old }
        requires told { AllTold (moment_of self.old) }
        ensures at_one { OnOk result (IsAtOneIn M.server_of self.new) }
        ensures done { OnOk result (Spans (AnswersBy W.is_after M.server_of M.handles sizes ready)
            self.old self.new) }
        ensures told { OnOk result (KeepsTold self.old self.new) }
        ensures notes { OnOk result (KeepsNotes self.old.connections self.new.connections) }
        ensures quiet { brings_nothing ready ≡ true → (result ≡ Ok tt) × (self.new ≡ self.old) }
    {
        match ready {
            Ready::Idle | Ready::Writable(_) => Ok(()),
            Ready::Client(conn, host) => self.start_client(conn, host, sizes.client),
            Ready::Linked(conn, starts) => self.start_link(conn, starts, sizes.link),
            Ready::Readable(conn) => self.read(conn),
        }
    }

    /// A client has connected, from a host. An event is half a kilobyte, which is cleared as the
    /// function that makes it begins: so each is made in one that runs for it alone.
    fn start_client(&mut self, conn: u64, host: Host, room: usize) -> Result<(), AllocError>
        requires at_one { IsAtOneIn M.server_of self.old }
        requires told { AllTold (moment_of self.old) }
        ensures at_one { OnOk result (IsAtOneIn M.server_of self.new) }
        ensures done { OnOk result (Spans (StartsBy W.is_after M.server_of M.handles
            ConnectionKind.Client room conn
            (Event.Connect conn host)) self.old self.new) }
        ensures told { OnOk result (KeepsTold self.old self.new) }
        ensures notes { OnOk result (KeepsNotes self.old.connections self.new.connections) }
    {
        self.start(
            conn,
            ConnectionKind::Client,
            room,
            &Event::Connect(conn, host),
        )
    }

    /// A link is open: this end calls the server of this name, or is called.
    fn start_link(
        &mut self,
        conn: u64,
        starts: Option<ServerName>,
        room: usize,
    ) -> Result<(), AllocError>
        requires at_one { IsAtOneIn M.server_of self.old }
        requires told { AllTold (moment_of self.old) }
        ensures at_one { OnOk result (IsAtOneIn M.server_of self.new) }
        ensures done { OnOk result (Spans (StartsBy W.is_after M.server_of M.handles
            ConnectionKind.Link room conn
            (Event.LinkUp conn starts)) self.old self.new) }
        ensures told { OnOk result (KeepsTold self.old self.new) }
        ensures notes { OnOk result (KeepsNotes self.old.connections self.new.connections) }
    {
        self.start(
            conn,
            ConnectionKind::Link,
            room,
            &Event::LinkUp(conn, starts),
        )
    }

    /// A client has connected, or a link is open, and the server is told. A number that is in use
    /// is passed over.
    fn start(
        &mut self,
        conn: u64,
        kind: ConnectionKind,
        room: usize,
        event: &Event,
    ) -> Result<(), AllocError>
        requires at_one { IsAtOneIn M.server_of self.old }
        requires told { AllTold (moment_of self.old) }
        requires arrival { IsArrival kind conn event.now }
        ensures at_one { OnOk result (IsAtOneIn M.server_of self.new) }
        ensures done { OnOk result
            (Spans (StartsBy W.is_after M.server_of M.handles kind room conn event.now) self.old
            self.new) }
        ensures told { OnOk result (KeepsTold self.old self.new) }
        ensures notes { OnOk result (KeepsNotes self.old.connections self.new.connections) }
    {
        if self.connections.table.contains(conn) {
            return Ok(());
        }
        self.connections.table.insert(self.alloc, conn, kind, room)?;
        self.pass(event)
    }

    /// A connection has bytes, or has ended. One that the server has closed is read no more.
    fn read(&mut self, conn: u64) -> Result<(), AllocError>
        requires { IsAtOneIn M.server_of self.old }
        ensures at_one { OnOk result (IsAtOneIn M.server_of self.new) }
        ensures done { OnOk result (Spans (ReadsBy W.is_after M.server_of M.handles conn) self.old
            self.new) }
        ensures told { OnOk result (KeepsTold self.old self.new) }
        ensures marks { OnOk result (KeepsMarks self.old.connections self.new.connections) }
    {
        if !self.connections.table.is_open(conn) {
            return Ok(());
        }
        match came(self.connections.wire.read(conn, &mut self.buffer)) {
            Some(count) => self.take_lines(conn, count),
            None => {
                self.connections.lose(conn)?;
                self.tell_losses()
            }
        }
    }

    /// Passes on each line that so many bytes at the front of the buffer complete, as long as the
    /// connection is open.
    fn take_lines(&mut self, conn: u64, count: usize) -> Result<(), AllocError>
        requires within { count ≤ length self.old.buffer.items }
        requires at_one { IsAtOneIn M.server_of self.old }
        ensures at_one { OnOk result (IsAtOneIn M.server_of self.new) }
        ensures ran { OnOk result (HearsFrom W.is_after M.server_of M.handles conn count self.old
            self.new) }
        ensures told { OnOk result (KeepsTold self.old self.new) }
        ensures marks { OnOk result (KeepsMarks self.old.connections self.new.connections) }
    {
        let mut used = 0;
        while used < count {
            let mut line = None;
            let Some((more, kind)) = self
                .connections
                .table
                .take(conn, &self.buffer[used..count], &mut line)
            else {
                return Ok(());
            };
            used += more;
            self.pass_line(conn, kind, line)?;
        }
        Ok(())
    }

    /// Passes on a line, if there is one.
    fn pass_line(
        &mut self,
        conn: u64,
        kind: ConnectionKind,
        line: Option<Line>,
    ) -> Result<(), AllocError>
        requires at_one { IsAtOneIn M.server_of self.old }
        requires open { IsOpenAs conn kind self.old }
        ensures at_one { OnOk result (IsAtOneIn M.server_of self.new) }
        ensures ran { OnOk result
            (AsksFor W.is_after M.server_of M.handles (passed_on kind conn line)
            self.old self.new) }
        ensures told { OnOk result (KeepsTold self.old self.new) }
        ensures marks { OnOk result (KeepsMarks self.old.connections self.new.connections) }
        ensures same { self.new.buffer ≡ self.old.buffer }
    {
        match line {
            Some(line) => self.pass(&kind.line_event(conn, line)),
            None => Ok(()),
        }
    }

    /// Passes an event on to the server, and does what it puts out. Then it is told of each
    /// connection that was lost by this.
    fn pass(&mut self, event: &Event) -> Result<(), AllocError>
        requires { IsToHearIn M.server_of event.now self.old }
        ensures at_one { OnOk result (IsAtOneIn M.server_of self.new) }
        ensures ran { OnOk result (AsksFor W.is_after M.server_of M.handles (event.now ∷ [])
            self.old self.new) }
        ensures in_order { OnOk result (Spans (PassesOnBy W.is_after M.server_of M.handles
            event.now) self.old self.new) }
        ensures told { OnOk result (AllTold (moment_of self.new)) }
        ensures marks { OnOk result (KeepsMarks self.old.connections self.new.connections) }
        ensures same { self.new.buffer ≡ self.old.buffer }
    {
        self.handle(event)?;
        self.tell_losses()
    }

    /// Tells the server of each connection that was lost, the lowest number first, until there is
    /// none.
    fn tell_losses(&mut self) -> Result<(), AllocError>
        requires { IsAtOneIn M.server_of self.old }
        ensures at_one { OnOk result (IsAtOneIn M.server_of self.new) }
        ensures ran { OnOk result (Spans (RanOnBy W.is_after M.server_of M.handles) self.old
            self.new) }
        ensures in_order { OnOk result (Spans (TellsLossesBy W.is_after M.server_of M.handles)
            self.old self.new) }
        ensures told { OnOk result (AllTold (moment_of self.new)) }
        ensures marks { OnOk result (KeepsMarks self.old.connections self.new.connections) }
        ensures same { self.new.buffer ≡ self.old.buffer }
    {
        while let Some((conn, kind)) = take_lowest(&mut self.connections.lost) {
            self.handle_end(conn, kind)?;
        }
        Ok(())
    }

    /// Tells the server that a connection of this kind is gone, and does what it puts out.
    fn handle_end(&mut self, conn: u64, kind: ConnectionKind) -> Result<(), AllocError>
        requires { IsToHearIn M.server_of (end_event_of kind conn) self.old }
        ensures at_one { OnOk result (IsAtOneIn M.server_of self.new) }
        ensures count { OnOk result
            (count_of self.new.connections ≤ count_of self.old.connections) }
        ensures asks { OnOk result
            (Spans (AsksOnceBy W.is_after M.server_of M.handles (end_event_of kind conn)) self.old
            self.new) }
        ensures marks { OnOk result (KeepsMarks self.old.connections self.new.connections) }
        ensures same { self.new.buffer ≡ self.old.buffer }
    {
        self.handle(&kind.end_event(conn))
    }

    /// Passes an event on to the server, which does not refuse it, and does what it puts out.
    fn handle(&mut self, event: &Event) -> Result<(), AllocError>
        requires { IsToHearIn M.server_of event.now self.old }
        ensures at_one { OnOk result (IsAtOneIn M.server_of self.new) }
        ensures count { OnOk result
            (count_of self.new.connections ≤ count_of self.old.connections) }
        ensures asks { OnOk result (Spans (AsksOnceBy W.is_after M.server_of M.handles event.now)
            self.old self.new) }
        ensures marks { OnOk result (KeepsMarks self.old.connections self.new.connections) }
        ensures same { self.new.buffer ≡ self.old.buffer }
    {
        self.out.clear();
        match self.machine.handle(event, &mut self.out) {
            Ok(()) => {
                note(&mut self.journal, event, self.machine.server())?;
                self.connections.dispatch(&self.out, &mut self.journal)
            }
            Err(fault) => Err(want_of_memory(fault)),
        }
    }

    /// Writes once from each outbox that is not empty, in order of number.
    fn flush(&mut self) -> Result<(), AllocError>
        requires { IsAtOneIn M.server_of self.old }
        ensures at_one { OnOk result (IsAtOneIn M.server_of self.new) }
        ensures done { OnOk result (Spans (FlushesBy W.is_after M.server_of M.handles) self.old
            self.new) }
        ensures told { OnOk result (KeepsTold self.old self.new) }
        ensures in_order { OnOk result (KeepsOrder self.old self.new) }
        ensures quiet { IsNobodyNoted self.old → result ≡ Ok tt }
    {
        let mut waiting = replace(&mut self.connections.waiting, BTreeSet::new(self.alloc));
        while let Some(conn) = waiting.pop_first() {
            self.connections.write(conn)?;
            self.tell_losses()?;
        }
        Ok(())
    }
}

/// Tells a wire whether the server that it would call is known, if it would call one. Of two that
/// call each other the one with the lesser name yields.
fn tell_known<W: Wire>(wire: &mut W, server: &Server)
    ensures { Keeps W.is_after wire.old wire.new }
{
    if let Some(name) = wire.would_call() {
        let is_known = knows(server, name);
        let yields = yields_to(server, name);
        wire.know(is_known, yields);
    }
}

/// Tells a wire whether the client that it would give up is a user, if it would give up one.
fn tell_user<W: Wire>(wire: &mut W, server: &Server)
    ensures { Keeps W.is_after wire.old wire.new }
{
    if let Some(conn) = wire.would_give_up() {
        wire.know_user(server.has_user(conn));
    }
}

/// Whether a server knows another, by any way, or is that one. One for which memory ran out calls
/// nobody any more.
fn knows(server: &Server, name: &ServerName) -> bool
    ensures { result ≡ knows_at server.now name.now }
{
    match server.routes() {
        Some(routes) => routes.is_known(name.as_bytes()),
        None => true,
    }
}

/// Whether a server's name is less than another's.
fn yields_to(server: &Server, name: &ServerName) -> bool
    ensures { result ≡ yields_at server.now name.now }
{
    match server.routes() {
        Some(routes) => compare(routes.name().as_bytes(), name.as_bytes()).is_lt(),
        None => true,
    }
}

/// How many bytes a read gave; none, where it ended or failed.
fn came(answer: Result<Got, IoFault>) -> Option<usize>
    ensures { result ≡ came answer }
{
    match answer {
        Ok(Got::Bytes(count)) => Some(count),
        Ok(Got::Later) => Some(0),
        Ok(Got::End) | Err(_) => None,
    }
}

/// What a server that refuses no event may answer else: that memory ran out, now or before.
fn want_of_memory(fault: ServerFault) -> AllocError
    requires { is_out_of_memory fault ≡ true }
{
    match fault {
        ServerFault::Memory | ServerFault::Failed => AllocError,
        _ => unreachable!(),
    }
}
