//! A wire in memory: it serves a list of steps, and keeps what each connection gave and took.
ghost use Rattle.std.specs.Prelude.{◌≡◌, ◌+◌, ◌≤◌, ◌++◌, [], drop, length, false, min, take};
ghost use Rattle.std.specs.Prelude.{vec_capacity, IfOk, IsSome, OnOk};
ghost use Rattle.irc_outbox.specs.Ample.{ArePlanned, HasMemoryFor, HasMemoryOut, IsAmple, Plans};
ghost use Rattle.irc_outbox.specs.Ample.{PlansAt, StayPlanned};
ghost use Rattle.irc_outbox.specs.Memory.{ended_at, far_at, fresh_told, same_told, told_by_far};
ghost use Rattle.irc_outbox.specs.Memory.{told_at, told_or_none, with_close, with_taken};
ghost use Rattle.irc_outbox.specs.Memory.{with_written, AllFresh, Changes, IsFarAdded, KeepsMemory};
ghost use Rattle.irc_outbox.specs.Steps.{step_bytes, step_conn, failed_once, fails, fails_at};
ghost use Rattle.irc_outbox.specs.Steps.{giver_of, is_reported, is_reported_at, meets, step_report};

use crate::outbox::append;
use crate::wire::{Got, IoFault, Notice, Ready, Wire};
use circular_buffer::HeapCircularBuffer;
use irc_moments::Moment;
use irc_names::{Host, ServerName, first_bytes};
use std::alloc::{AllocError, Global};
use std::collections::BTreeMap;
use std::mem::replace;

/// One thing that happens on a wire in memory.
#[derive(Drop)]
pub enum WireStep {
    /// A client connects, from a host, under a number that is new.
    Client(u64, Host),
    /// A server is connected, under a number that is new; the name is the one that was called,
    /// where this side called it.
    Linked(u64, Option<ServerName>),
    /// Bytes come from a connection.
    Bytes(u64, Vec<u8, Global>),
    /// A connection ends: no more bytes will come.
    End(u64),
    /// The next read of a connection fails.
    ReadFails(u64),
    /// A connection takes so many bytes more.
    Room(u64, usize),
    /// The next write to a connection fails.
    WriteFails(u64),
}

/// The far end of a connection.
#[derive(Drop)]
struct Far {
    /// Whether its number has been reported.
    known: bool,
    /// What was read from it.
    taken: Vec<u8, Global>,
    /// What was written to it.
    written: Vec<u8, Global>,
    /// How many bytes all steps give, and how many they let be written.
    inward: usize,
    outward: usize,
    /// How many bytes more it takes.
    room: usize,
    closed: bool,
    ended: bool,
    read_fails: bool,
    write_fails: bool,
}

/// A wire in memory. It serves its steps in order, one for each report. It passes over steps of a
/// number that was not reported yet, or that is closed, and over those that report a number again.
/// The memory for all that they let it hold is taken at the start.
#[derive(Drop)]
pub struct MemoryWire {
    steps: Vec<WireStep, Global>,
    /// How many steps were looked at.
    at: usize,
    /// The connection of the step that gives bytes, and which of these were not read.
    hand: Option<u64>,
    pending: HeapCircularBuffer<u8, Global>,
    /// Whether that connection was read since the last report.
    was_read: bool,
    fars: BTreeMap<u64, Far, Global>,
    ghost ample: { IsAmple fars hand pending.items (drop at steps.items) },
}

impl WireStep {
    /// The connection that it is about.
    fn conn(&self) -> u64
        ensures { result ≡ step_conn self.now }
    {
        match self {
            WireStep::Client(conn, _)
            | WireStep::Linked(conn, _)
            | WireStep::Bytes(conn, _)
            | WireStep::End(conn)
            | WireStep::ReadFails(conn)
            | WireStep::Room(conn, _)
            | WireStep::WriteFails(conn) => *conn,
        }
    }

    /// The bytes that it gives.
    fn bytes(&self) -> &[u8]
        ensures { result.now ≡ step_bytes self.now }
    {
        match self {
            WireStep::Bytes(_, bytes) => bytes,
            _ => &[],
        }
    }

    /// The connection that gives them, if it is a step that gives some.
    fn giver(&self) -> Option<u64>
        ensures { result ≡ giver_of self.now }
    {
        match self {
            WireStep::Bytes(conn, _) => Some(*conn),
            _ => None,
        }
    }

    /// What it is reported as.
    fn report(&self) -> Ready
        ensures { result ≡ step_report self.now }
    {
        match self {
            WireStep::Client(conn, host) => Ready::Client(*conn, host.copy()),
            WireStep::Linked(conn, Some(name)) => Ready::Linked(*conn, Some(name.copy())),
            WireStep::Linked(conn, None) => Ready::Linked(*conn, None),
            WireStep::Bytes(conn, _) | WireStep::End(conn) | WireStep::ReadFails(conn) => {
                Ready::Readable(*conn)
            }
            WireStep::Room(conn, _) | WireStep::WriteFails(conn) => Ready::Writable(*conn),
        }
    }
}

/// The ways in which a connection may fail.
#[derive(Clone, Copy, Drop)]
enum Way {
    In,
    Out,
}

/// The sum of two lengths. For one that is no length there is no memory.
fn sum_of(length: usize, more: usize) -> Result<usize, AllocError>
    ensures { IfOk result (λ sum. sum ≡ length + more) }
{
    length.checked_add(more).ok_or(AllocError)
}

impl Far {
    /// One that was not reported yet, and has given and taken nothing.
    fn new(alloc: Global) -> Self
        ensures told { told_by_far result ≡ fresh_told }
        ensures inward { result.inward ≡ 0 }
        ensures outward { result.outward ≡ 0 }
    {
        Far {
            known: false,
            taken: Vec::new(alloc),
            written: Vec::new(alloc),
            inward: 0,
            outward: 0,
            room: 0,
            closed: false,
            ended: false,
            read_fails: false,
            write_fails: false,
        }
    }

    /// Takes the memory for what a step gives or lets be written.
    fn plan(&mut self, step: &WireStep) -> Result<(), AllocError>
        ensures told { told_by_far self.new ≡ told_by_far self.old }
        ensures planned { OnOk result (Plans step.now (step_conn step.now) self.old self.new) }
        ensures memory { KeepsMemory self.old self.new }
    {
        match step {
            WireStep::Bytes(_, bytes) => {
                self.inward = sum_of(self.inward, bytes.len())?;
                self.taken.reserve(self.inward)
            }
            WireStep::Room(_, room) => {
                self.outward = sum_of(self.outward, *room)?;
                self.written.reserve(self.outward)
            }
            _ => Ok(()),
        }
    }

    /// A step comes. Tells whether it is one to report.
    fn meet(&mut self, step: &WireStep) -> bool
        ensures reported { result ≡ is_reported step.now (told_by_far self.old) }
        ensures met { told_by_far self.new ≡ meets step.now (told_by_far self.old) }
        ensures memory { KeepsMemory self.old self.new }
    {
        if let WireStep::Client(_, _) | WireStep::Linked(_, _) = step {
            return !replace(&mut self.known, true);
        }
        if !self.known || self.closed {
            return false;
        }
        match step {
            WireStep::End(_) => self.ended = true,
            WireStep::ReadFails(_) => self.read_fails = true,
            WireStep::Room(_, room) => self.room = self.room.saturating_add(*room),
            WireStep::WriteFails(_) => self.write_fails = true,
            _ => (),
        }
        true
    }

    /// Whether it fails now, as a step has said; it does so once.
    fn fails_now(&mut self, way: Way) -> bool
        ensures fails { result ≡ fails way (told_by_far self.old) }
        ensures once { told_by_far self.new ≡ failed_once way (told_by_far self.old) }
        ensures memory { KeepsMemory self.old self.new }
    {
        match way {
            Way::In => replace(&mut self.read_fails, false),
            Way::Out => replace(&mut self.write_fails, false),
        }
    }

    /// Takes what it can of bytes that are written to it, and tells how many.
    fn take(&mut self, bytes: &[u8]) -> usize
        requires { length self.old.written.items + self.old.room ≤ vec_capacity self.old.written }
        ensures told { told_by_far self.new ≡ with_written (take result bytes.now)
            (told_by_far self.old) }
        ensures count { result ≡ min self.old.room (length bytes.now) }
        ensures memory { KeepsMemory self.old self.new }
    {
        let front = first_bytes(bytes, self.room);
        append(&mut self.written, front);
        self.room -= front.len();
        front.len()
    }
}

impl MemoryWire {
    ghost use Rattle.irc_outbox.specs.Memory.{AllWiresTold, Gives, StillTold};
    ghost use Rattle.irc_outbox.specs.Serving.{again_of, given_now, is_at_hand, left_of};
    ghost use Rattle.irc_outbox.specs.Serving.{GivesFirst, Reports, ServesNext};
    ghost use Rattle.irc_outbox.specs.Steps.{longest_of};

    /// A wire that serves these steps, with the room for all that they let it hold.
    ///
    /// # Errors
    /// Where memory runs out.
    pub fn new(alloc: Global, steps: Vec<WireStep, Global>) -> Result<Self, AllocError>
        ensures told { IfOk result (λ wire. AllWiresTold wire.fars []) }
        ensures fresh { IfOk result (λ wire. AllFresh wire.fars) }
        ensures left { IfOk result (λ wire. left_of wire ≡ steps.items) }
        ensures room { IfOk result (λ wire. wire.pending.capacity ≡ longest_of wire.steps.items) }
    {
        let mut fars = no_fars(alloc);
        let mut longest = 0usize;
        for step in &steps {
            longest = longest.max(step.bytes().len());
            plan(alloc, &mut fars, step)?;
        }
        let pending = HeapCircularBuffer::with_capacity(alloc, longest)?;
        Ok(MemoryWire::at_first(steps, pending, fars))
    }

    /// A wire that has served no step.
    fn at_first(
        steps: Vec<WireStep, Global>,
        pending: HeapCircularBuffer<u8, Global>,
        fars: BTreeMap<u64, Far, Global>,
    ) -> Self
        requires fresh { AllFresh fars }
        requires planned { ArePlanned steps.items fars }
        ensures steps { result.steps ≡ steps }
        ensures at { result.at ≡ 0 }
        ensures pending { result.pending ≡ pending }
        ensures fars { result.fars ≡ fars }
    {
        MemoryWire {
            steps,
            at: 0,
            hand: None,
            pending,
            was_read: false,
            fars,
        }
    }

    /// What was read from a connection; nothing, where no step names it.
    pub fn taken(&self, conn: u64) -> &[u8]
        ensures { result.now ≡ (told_or_none (told_at self.now.fars conn)).taken }
    {
        match self.fars.get(&conn) {
            Some(far) => &far.taken,
            None => &[],
        }
    }

    /// What was written to a connection; nothing, where no step names it.
    pub fn written(&self, conn: u64) -> &[u8]
        ensures { result.now ≡ (told_or_none (told_at self.now.fars conn)).written }
    {
        match self.fars.get(&conn) {
            Some(far) => &far.written,
            None => &[],
        }
    }

    /// Whether a connection that a step names was closed.
    pub fn closed(&self, conn: u64) -> bool
        ensures { result ≡ (told_or_none (told_at self.now.fars conn)).closed }
    {
        match self.fars.get(&conn) {
            Some(far) => far.closed,
            None => false,
        }
    }

    /// Whether the step at hand is reported once more: it was read since, and bytes of it are left.
    fn goes_on(&self, conn: u64) -> bool
        ensures { result ≡ is_at_hand conn self.now }
    {
        self.was_read && !self.pending.is_empty() && !self.closed(conn)
    }

    /// Tells what is ready: the step at hand once more, or the next one that is to be reported.
    fn report(&mut self) -> Ready
        ensures told { StillTold self.old.fars self.new.fars }
        ensures reports { Reports self.old self.new result }
    {
        match self.again() {
            Some(conn) => {
                self.was_read = false;
                Ready::Readable(conn)
            }
            None => self.step_on(),
        }
    }

    /// The connection of the step at hand, if that is reported once more.
    fn again(&self) -> Option<u64>
        ensures { result ≡ again_of self.now }
    {
        match self.hand {
            Some(conn) if self.goes_on(conn) => Some(conn),
            _ => None,
        }
    }

    /// Goes on to the next step that is one to report.
    fn step_on(&mut self) -> Ready
        ensures told { StillTold self.old.fars self.new.fars }
        ensures serves { ServesNext self.old self.new result }
        ensures was_read { self.new.was_read ≡ false }
    {
        self.was_read = false;
        while self.at < self.steps.len() {
            let step = &self.steps[self.at];
            self.at += 1;
            if meet(&mut self.fars, step.conn(), step) {
                self.hand = step.giver();
                take_up(&mut self.pending, step.bytes());
                return step.report();
            }
        }
        self.hand = None;
        self.pending.clear();
        Ready::Idle
    }

    /// Gives bytes of the step at hand, if it is one of this connection.
    fn give(&mut self, conn: u64, buffer: &mut [u8]) -> usize
        ensures gives { Gives conn (take result buffer.new) self.old.fars self.new.fars }
        ensures count { result ≡ given_now conn (length buffer.old) self.old }
        ensures first { GivesFirst conn result self.old self.new buffer.new }
        ensures ended { ended_at self.new.fars conn ≡ ended_at self.old.fars conn }
    {
        if self.hand != Some(conn) {
            return 0;
        }
        self.was_read = true;
        let count = self.pending.read_into(buffer);
        keep(&mut self.fars, conn, &buffer[..count]);
        count
    }
}

/// These bytes are at hand from now on, in place of others.
fn take_up(pending: &mut HeapCircularBuffer<u8, Global>, bytes: &[u8])
    ensures bytes { length bytes.now ≤ pending.old.capacity → pending.new.items ≡ bytes.now }
    ensures within { length pending.new.items ≤ length bytes.now }
    ensures same_room { pending.new.capacity ≡ pending.old.capacity }
{
    pending.clear();
    pending.fill_from_slice(bytes);
}

/// No connections.
fn no_fars(alloc: Global) -> BTreeMap<u64, Far, Global>
    ensures fresh { AllFresh result }
    ensures planned { ArePlanned [] result }
{
    BTreeMap::new(alloc)
}

/// Takes the memory for what a step gives or lets be written.
fn plan(
    alloc: Global,
    fars: &mut BTreeMap<u64, Far, Global>,
    step: &WireStep,
) -> Result<(), AllocError>
    ensures fresh { OnOk result (AllFresh fars.old → AllFresh fars.new) }
    ensures planned { OnOk result (PlansAt step.now fars.old fars.new) }
{
    let conn = step.conn();
    ensure(alloc, fars, conn)?;
    reserve(fars, conn, step)
}

/// A connection is there from now on, if it was not.
fn ensure(alloc: Global, fars: &mut BTreeMap<u64, Far, Global>, conn: u64) -> Result<(), AllocError>
    ensures fresh { OnOk result (AllFresh fars.old → AllFresh fars.new) }
    ensures there { OnOk result (IsSome (far_at fars.new conn)) }
    ensures planned { OnOk result (StayPlanned fars.old fars.new) }
{
    if fars.contains_key(&conn) {
        return Ok(());
    }
    add(fars, conn, Far::new(alloc))
}

/// Takes the memory for what a step of a connection gives or lets be written.
fn reserve(
    fars: &mut BTreeMap<u64, Far, Global>,
    conn: u64,
    step: &WireStep,
) -> Result<(), AllocError>
    requires there { IsSome (far_at fars.old conn) }
    requires its_own { conn ≡ step_conn step.now }
    ensures same { Changes conn same_told fars.old fars.new }
    ensures planned { OnOk result (PlansAt step.now fars.old fars.new) }
{
    let Some(far) = fars.get_mut(&conn) else {
        unreachable!();
    };
    far.plan(step)
}

/// A connection is there from now on.
fn add(fars: &mut BTreeMap<u64, Far, Global>, conn: u64, far: Far) -> Result<(), AllocError>
    ensures { OnOk result (IsFarAdded fars.old conn far fars.new) }
{
    match fars.insert(conn, far) {
        Ok(_) => Ok(()),
        Err(_) => Err(AllocError),
    }
}

/// A step comes. Tells whether it is one to report.
fn meet(fars: &mut BTreeMap<u64, Far, Global>, conn: u64, step: &WireStep) -> bool
    ensures reported { result ≡ is_reported_at step.now (told_at fars.old conn) }
    ensures met { Changes conn (meets step.now) fars.old fars.new }
{
    match fars.get_mut(&conn) {
        Some(far) => far.meet(step),
        None => false,
    }
}

/// Whether a connection fails now, as a step has said; it does so once.
fn fails_now(fars: &mut BTreeMap<u64, Far, Global>, conn: u64, way: Way) -> bool
    ensures fails { result ≡ fails_at way (told_at fars.old conn) }
    ensures once { Changes conn (failed_once way) fars.old fars.new }
{
    match fars.get_mut(&conn) {
        Some(far) => far.fails_now(way),
        None => false,
    }
}

/// Keeps bytes that were read from a connection.
fn keep(fars: &mut BTreeMap<u64, Far, Global>, conn: u64, bytes: &[u8])
    requires { HasMemoryFor (length bytes.now) conn fars.old }
    ensures { Changes conn (with_taken bytes.now) fars.old fars.new }
{
    if let Some(far) = fars.get_mut(&conn) {
        append(&mut far.taken, bytes);
    }
}

/// A connection takes what it can of bytes, and tells how many.
fn take(fars: &mut BTreeMap<u64, Far, Global>, conn: u64, bytes: &[u8]) -> usize
    requires { HasMemoryOut conn fars.old }
    ensures taken { Changes conn (with_written (take result bytes.now)) fars.old fars.new }
    ensures count { result ≡ min (told_or_none (told_at fars.old conn)).room (length bytes.now) }
{
    match fars.get_mut(&conn) {
        Some(far) => far.take(bytes),
        None => 0,
    }
}

/// A connection is closed.
fn shut(fars: &mut BTreeMap<u64, Far, Global>, conn: u64)
    ensures { Changes conn with_close fars.old fars.new }
{
    if let Some(far) = fars.get_mut(&conn) {
        far.closed = true;
    }
}

/// Whether a connection has ended.
fn has_ended(fars: &BTreeMap<u64, Far, Global>, conn: u64) -> bool
    ensures { result ≡ ended_at fars.now conn }
{
    match fars.get(&conn) {
        Some(far) => far.ended,
        None => false,
    }
}

impl Wire for MemoryWire {
    ghost use Rattle.irc_outbox.specs.Calls.{read_into, writes, Adds, FitsIn};
    ghost use Rattle.irc_outbox.specs.Serving.{answer_of_read, answer_of_write, MayHaveAnswered};

    ghost is_after = { MayHaveAnswered };

    fn ready(&mut self) -> Result<Ready, IoFault> {
        Ok(self.report())
    }

    fn read(&mut self, conn: u64, buffer: &mut [u8]) -> Result<Got, IoFault>
        ensures account { Adds MayHaveAnswered self.old
            (read_into conn buffer.old result buffer.new) self.new }
        ensures within { FitsIn result (length buffer.old) }
        ensures answer { result ≡ answer_of_read conn (length buffer.old) self.old }
    {
        if fails_now(&mut self.fars, conn, Way::In) {
            return Err(IoFault::Failed);
        }
        match self.give(conn, buffer) {
            0 if has_ended(&self.fars, conn) => Ok(Got::End),
            0 => Ok(Got::Later),
            count => Ok(Got::Bytes(count)),
        }
    }

    fn write(&mut self, conn: u64, bytes: &[u8], _behind: usize) -> Result<usize, IoFault>
        ensures account { Adds MayHaveAnswered self.old (writes conn bytes.now result) self.new }
        ensures within { IfOk result (λ n. n ≤ length bytes.now) }
        ensures answer { result ≡ answer_of_write conn (length bytes.now) self.old }
    {
        if fails_now(&mut self.fars, conn, Way::Out) {
            return Err(IoFault::Failed);
        }
        Ok(take(&mut self.fars, conn, bytes))
    }

    fn close(&mut self, conn: u64) {
        shut(&mut self.fars, conn);
    }

    fn would_call(&self) -> Option<&ServerName> {
        None
    }

    fn know(&mut self, _is_known: bool, _yields: bool) {}

    fn would_give_up(&self) -> Option<u64> {
        None
    }

    fn know_user(&mut self, _is_user: bool) {}

    fn named(&mut self, _conn: u64) {}

    fn whence(&self, _conn: u64) -> Option<Host> {
        None
    }

    fn moment(&self) -> Moment {
        Moment::of(0)
    }

    fn notice(&mut self) -> Option<Notice> {
        None
    }
}
