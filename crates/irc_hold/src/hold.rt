//! A hold in front of a machine.
ghost use Rattle.std.specs.Prelude.{◌≡◌, IfErr, OnErr, OnOk, Some, true};
ghost use Rattle.irc_engine.specs.Machines.{IsConnectedBy, IsRefusal};
ghost use Rattle.irc_hold.specs.declared.line.Fate.TheVariants.{Ends, Keeps};
ghost use Rattle.irc_hold.specs.Holds.{awaits, begun, conn_of, fate_at, held_at, held_behind};
ghost use Rattle.irc_hold.specs.Holds.{held_line, in_place_of, is_free, is_waiting};
ghost use Rattle.irc_hold.specs.Holds.{kept_of, takes_memory, with_held, IsGiven, IsKept};

use crate::line::{Fate, line_fate};
use irc_batch::Batch;
use irc_engine::Machine;
use irc_line::Line;
use irc_moments::Moment;
use irc_names::copied;
use irc_server::{Event, Server, ServerFault};
use std::alloc::{AllocError, Global};
use std::collections::BTreeMap;

/// Whether USER waits for the end of a negotiation.
#[derive(Clone, Copy, Drop)]
pub enum Negotiations {
    /// Nothing waits.
    Off,
    /// It waits for CAP END.
    Awaited,
}

/// What is held of a client.
#[derive(Drop)]
pub(crate) enum Held {
    /// Its USER, which has not come yet.
    Waits,
    /// This line, the last USER that came.
    Kept(Line),
}

/// What is held of clients, by their numbers.
type Helds = BTreeMap<u64, Held, Global>;

/// A hold in front of a machine: what it is given is the machine's as it comes, but for the USER of
/// a client that negotiates, which waits.
#[derive(Drop)]
pub struct Hold<M: Machine> {
    machine: M,
    negotiations: Negotiations,
    helds: Helds,
}

impl<M: Machine> Hold<M> {
    ghost use Rattle.irc_hold.specs.Holds.{IsNewHold};

    /// A hold that holds nothing.
    pub fn new(alloc: Global, machine: M, negotiations: Negotiations) -> Self
        ensures { IsNewHold machine negotiations result }
    {
        Hold {
            machine,
            negotiations,
            helds: BTreeMap::new(alloc),
        }
    }

    /// What becomes of an event.
    fn fate(&self, event: &Event) -> Fate
        ensures { result ≡ fate_at self.now.negotiations (M.server_of self.now.machine)
            (held_at self.now.helds) event.now }
    {
        match event {
            Event::Line(conn, line) if self.awaits(*conn) => {
                line_fate(self.helds.contains_key(conn), line.as_slice())
            }
            _ => Fate::Passes,
        }
    }

    /// Whether the USER of a client may be held.
    fn awaits(&self, conn: u64) -> bool
        ensures { result ≡ awaits self.now.negotiations (M.server_of self.now.machine) conn }
    {
        match self.negotiations {
            Negotiations::Off => false,
            Negotiations::Awaited => is_waiting(self.machine.server(), conn),
        }
    }

    /// The machine is given an event that has this fate, or stands in its place.
    fn pass(&mut self, fate: Fate, event: &Event, out: &mut Batch) -> Result<(), ServerFault>
        ensures given { IsGiven M.server_of M.handles fate self.old event.now out.old.outs result
            self.new out.new.outs }
        ensures connected { OnOk result (IsConnectedBy (M.server_of self.old.machine) event.now
            out.old.outs (M.server_of self.new.machine) out.new.outs) }
        ensures refused { IfErr result (IsRefusal (M.server_of self.old.machine) event.now) }
    {
        self.machine.handle(event, out)?;
        note(&mut self.helds, fate, self.machine.server(), event)?;
        Ok(())
    }

    /// The machine is given what was kept in place of an event, where something was. A line is half
    /// a kilobyte, which is cleared as the function begins: so this is one that runs for it alone.
    fn release(&mut self, event: &Event, out: &mut Batch) -> Result<(), ServerFault>
        ensures given { IsGiven M.server_of M.handles Ends self.old
            (in_place_of event.now (kept_of (held_at self.old.helds (conn_of event.now))))
            out.old.outs result self.new out.new.outs }
        ensures connected { OnOk result (IsConnectedBy (M.server_of self.old.machine)
            (in_place_of event.now (kept_of (held_at self.old.helds (conn_of event.now))))
            out.old.outs (M.server_of self.new.machine) out.new.outs) }
        ensures refused { IfErr result (IsRefusal (M.server_of self.old.machine)
            (in_place_of event.now (kept_of (held_at self.old.helds (conn_of event.now))))) }
    {
        match kept_of(&self.helds, conn_of(event)) {
            Some(line) => self.pass(Fate::Ends, &Event::Line(conn_of(event), line), out),
            None => self.pass(Fate::Ends, event, out),
        }
    }

    /// A line is kept, and the machine is given nothing.
    fn keep(&mut self, event: &Event) -> Result<(), ServerFault>
        ensures { IsKept M.server_of Keeps self.old event.now result self.new }
    {
        note(&mut self.helds, Fate::Keeps, self.machine.server(), event)?;
        Ok(())
    }
}

/// The client that an event is of; any number, where it is of a link.
fn conn_of(event: &Event) -> u64
    ensures { result ≡ conn_of event.now }
{
    match event {
        Event::Connect(conn, _) | Event::Line(conn, _) | Event::Gone(conn) => *conn,
        Event::LinkUp(_, _) | Event::LinkLine(_, _) | Event::LinkDown(_) => 0,
    }
}

/// Whether a client is there that is no user.
fn is_waiting(server: &Server, conn: u64) -> bool
    ensures { result ≡ is_waiting server.now conn }
{
    server.has_client(conn) && !server.has_user(conn)
}

/// The line that is kept of a client, if one is.
fn kept_of(helds: &Helds, conn: u64) -> Option<Line>
    ensures { result ≡ kept_of (held_at helds.now conn) }
{
    match helds.get(&conn) {
        Some(Held::Kept(line)) => Some(copied(line.as_slice())),
        Some(Held::Waits) => None,
        None => None,
    }
}

/// Whether a line changes nothing of what is held, whatever the server is behind it.
fn is_free(helds: &Helds, fate: Fate, conn: u64) -> bool
    ensures { result ≡ is_free fate (held_at helds.now conn) }
{
    match fate {
        Fate::Passes => !helds.contains_key(&conn),
        Fate::Begins | Fate::Keeps | Fate::Ends => false,
    }
}

/// What is held goes by what the machine was given, and by who is a user then. Most lines are of
/// clients of whom nothing is held: of these no server is asked.
fn note(helds: &mut Helds, fate: Fate, server: &Server, event: &Event) -> Result<(), AllocError>
    ensures ok { OnOk result
        (held_at helds.new ≡ held_behind fate server.now event.now (held_at helds.old)) }
    ensures memory { OnErr result (takes_memory fate ≡ true) }
{
    match event {
        Event::Line(conn, _) if is_free(helds, fate, *conn) => Ok(()),
        Event::Line(conn, line) if is_waiting(server, *conn) => note_line(helds, fate, *conn, line),
        Event::Line(conn, _) => {
            helds.remove(conn);
            Ok(())
        }
        Event::Connect(conn, _) => {
            helds.remove(conn);
            Ok(())
        }
        Event::Gone(conn) => {
            helds.remove(conn);
            Ok(())
        }
        Event::LinkUp(_, _) | Event::LinkLine(_, _) | Event::LinkDown(_) => Ok(()),
    }
}

/// What is held of a client goes by its line.
fn note_line(helds: &mut Helds, fate: Fate, conn: u64, line: &Line) -> Result<(), AllocError>
    ensures ok { OnOk result (held_at helds.new
        ≡ with_held conn (held_line fate line.now (held_at helds.old conn)) (held_at helds.old)) }
    ensures memory { OnErr result (takes_memory fate ≡ true) }
{
    match fate {
        Fate::Passes => Ok(()),
        Fate::Begins => begin(helds, conn),
        Fate::Keeps => put(helds, conn, Held::Kept(copied(line.as_slice()))),
        Fate::Ends => {
            helds.remove(&conn);
            Ok(())
        }
    }
}

/// From now on USER of a client is held; what is kept of it stays.
fn begin(helds: &mut Helds, conn: u64) -> Result<(), AllocError>
    ensures { OnOk result (held_at helds.new
        ≡ with_held conn (begun (held_at helds.old conn)) (held_at helds.old)) }
{
    if helds.contains_key(&conn) {
        return Ok(());
    }
    put(helds, conn, Held::Waits)
}

/// This is held of a client from now on.
fn put(helds: &mut Helds, conn: u64, held: Held) -> Result<(), AllocError>
    ensures { OnOk result (held_at helds.new ≡ with_held conn (Some held) (held_at helds.old)) }
{
    match helds.insert(conn, held) {
        Ok(_before) => Ok(()),
        Err(_) => Err(AllocError),
    }
}

impl<M: Machine> Machine for Hold<M> {
    ghost use Rattle.irc_hold.specs.Holds.{dues_by, server_behind, IsHeldBack};

    ghost server_of = { server_behind M.server_of };

    ghost handles = { IsHeldBack M.server_of M.handles };

    ghost dues = { dues_by M.dues };

    fn handle(&mut self, event: &Event, out: &mut Batch) -> Result<(), ServerFault> {
        match self.fate(event) {
            Fate::Passes => self.pass(Fate::Passes, event, out),
            Fate::Begins => self.pass(Fate::Begins, event, out),
            Fate::Keeps => self.keep(event),
            Fate::Ends => self.release(event, out),
        }
    }

    fn due(&mut self, moment: Moment, out: &mut Batch) -> Result<(), ServerFault> {
        self.machine.due(moment, out)
    }

    fn server(&self) -> &Server {
        self.machine.server()
    }
}
