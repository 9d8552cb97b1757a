//! A doorman in front of a machine.
ghost use Rattle.std.specs.Prelude.{◌≡◌, ◌*◌, ◌++◌, IfErr, IfOk, OnOk, None, Ok, true};
ghost use Rattle.std.specs.Option.{option_copied, option_map};
ghost use Rattle.irc_engine.specs.Machines.{is_out_of_memory, IsConnectedBy, IsRefusal};
ghost use Rattle.irc_engine.specs.Machines.{IsStillConnected};
ghost use Rattle.irc_doorman.specs.Doormen.{change_guest, conn_of, fate_at, given, guest_at};
ghost use Rattle.irc_doorman.specs.Doormen.{guests_behind, is_there, line_fate, next_look_behind};
ghost use Rattle.irc_doorman.specs.Doormen.{quits, silent_at, silent_of, state_with, told};
ghost use Rattle.irc_doorman.specs.Doormen.{with_guest, with_new, AreAsked, IsAsked, IsPassed};
ghost use Rattle.irc_doorman.specs.Doormen.{IsSameDoorman};
ghost use Rattle.irc_doorman.specs.Guests.{guest_asked};

use crate::asks::Asks;
use crate::guest::{Fate, Guest};
use crate::texts::{bad_password_text, closing_text, lacking_text, ping_text, quit_line};
use irc_batch::Batch;
use irc_engine::Machine;
use irc_moments::Moment;
use irc_server::{Event, Server, ServerFault};
use std::alloc::{AllocError, Global};
use std::collections::BTreeMap;

/// How often those who say nothing are looked for, in milliseconds (our own choice).
const LOOK_MS: u64 = 1000;

/// What is known of clients, by their numbers.
type Guests = BTreeMap<u64, Guest, Global>;

/// A doorman in front of a machine.
#[derive(Drop)]
pub struct Doorman<M: Machine> {
    machine: M,
    asks: Asks,
    guests: Guests,
    /// The moment that was handed in last.
    moment: Moment,
    /// When those who say nothing are looked for again.
    next_look: Moment,
    alloc: Global,
}

impl<M: Machine> Doorman<M> {
    ghost use Rattle.irc_doorman.specs.Doormen.{IsNewDoorman};

    /// A doorman in front of a machine whose server has no client.
    pub fn new(alloc: Global, machine: M, asks: Asks) -> Self
        ensures { IsNewDoorman machine asks result }
    {
        Doorman {
            machine,
            asks,
            guests: BTreeMap::new(alloc),
            moment: Moment::of(0),
            next_look: Moment::of(0),
            alloc,
        }
    }

    /// What becomes of an event.
    fn fate(&self, event: &Event) -> Fate
        ensures { result
            ≡ fate_at (M.server_of self.now.machine) (guest_at self.now.guests) event.now }
    {
        match event {
            Event::Line(conn, line) if self.machine.server().has_client(*conn) => {
                fate_of(self.guests.get(conn), line.as_slice())
            }
            _ => Fate::Passes,
        }
    }

    /// The machine is given an event.
    fn pass(&mut self, event: &Event, out: &mut Batch) -> Result<(), ServerFault>
        ensures passed { IsPassed M.handles self.old event.now out.old.outs result self.new
            out.new.outs }
        ensures connected { OnOk result (IsConnectedBy (M.server_of self.old.machine) event.now
            out.old.outs (M.server_of self.new.machine) out.new.outs) }
        ensures refused { IfErr result (IsRefusal (M.server_of self.old.machine) event.now) }
    {
        self.machine.handle(event, out)?;
        note(&mut self.guests, &self.asks, self.moment, event)?;
        Ok(())
    }

    /// The machine is told that a client is gone. An event is half a kilobyte, which is cleared as
    /// the function that makes it begins: so this is made in one that runs for it alone.
    fn leave(&mut self, conn: u64, out: &mut Batch) -> Result<(), ServerFault>
        ensures passed { IsPassed M.handles self.old (Event.Gone conn) out.old.outs result self.new
            out.new.outs }
        ensures connected { OnOk result (IsConnectedBy (M.server_of self.old.machine)
            (Event.Gone conn) out.old.outs (M.server_of self.new.machine) out.new.outs) }
        ensures refused { IfErr result
            (IsRefusal (M.server_of self.old.machine) (Event.Gone conn)) }
    {
        self.pass(&Event::Gone(conn), out)
    }

    /// The machine is given what becomes of an event.
    fn give(&mut self, fate: Fate, event: &Event, out: &mut Batch) -> Result<(), ServerFault>
        ensures passed { IsPassed M.handles self.old (given fate event.now) out.old.outs result
            self.new out.new.outs }
        ensures connected { OnOk result (IsConnectedBy (M.server_of self.old.machine)
            (given fate event.now) out.old.outs (M.server_of self.new.machine) out.new.outs) }
        ensures refused { IfErr result
            (IsRefusal (M.server_of self.old.machine) (given fate event.now)) }
    {
        match fate {
            Fate::Passes => self.pass(event, out),
            Fate::LacksWord => self.pass(event, out),
            Fate::TurnedAway => self.leave(conn_of(event), out),
        }
    }

    /// Asks those who are silent at a moment, if they are looked for then.
    fn watch(&mut self, moment: Moment, out: &mut Batch) -> Result<(), AllocError>
        ensures asked { OnOk result (AreAsked M.server_of M.handles self.old.asks moment
            (silent_at self.old.asks.ping_after self.old.next_look moment self.old.guests)
            (state_with self.old out.old.outs) (state_with self.new out.new.outs)) }
        ensures asks { self.new.asks ≡ self.old.asks }
        ensures moment { self.new.moment ≡ moment }
        ensures look { self.new.next_look ≡ next_look_behind self.old moment }
        ensures connected { OnOk result (IsStillConnected (M.server_of self.old.machine)
            out.old.outs (M.server_of self.new.machine) out.new.outs) }
    {
        self.moment = moment;
        let Some(seconds) = self.asks.ping_after else {
            return Ok(());
        };
        if moment.is_before(self.next_look) {
            return Ok(());
        }
        self.next_look = moment.later(LOOK_MS);
        self.look(milliseconds(seconds), moment, out)
    }

    /// Asks those who have said nothing for so many milliseconds.
    fn look(&mut self, silence: u64, moment: Moment, out: &mut Batch) -> Result<(), AllocError>
        ensures asked { OnOk result (AreAsked M.server_of M.handles self.old.asks moment
            (silent_of silence moment self.old.guests) (state_with self.old out.old.outs)
            (state_with self.new out.new.outs)) }
        ensures same { IsSameDoorman self.old self.new }
        ensures connected { OnOk result (IsStillConnected (M.server_of self.old.machine)
            out.old.outs (M.server_of self.new.machine) out.new.outs) }
    {
        let conns = silent(self.alloc, &self.guests, silence, moment)?;
        let mut rest = conns.into_iter();
        while let Some(conn) = rest.next() {
            self.ask(conn, moment, out)?;
        }
        Ok(())
    }

    /// Asks a client that is silent whether it is there; one that was asked has its QUIT.
    fn ask(&mut self, conn: u64, moment: Moment, out: &mut Batch) -> Result<(), AllocError>
        ensures asked { OnOk result (IsAsked M.server_of M.handles self.old.asks moment conn
            (state_with self.old out.old.outs) (state_with self.new out.new.outs)) }
        ensures same { IsSameDoorman self.old self.new }
        ensures connected { OnOk result (IsStillConnected (M.server_of self.old.machine)
            out.old.outs (M.server_of self.new.machine) out.new.outs) }
    {
        if !self.machine.server().has_client(conn) {
            forget(&mut self.guests, conn);
            return Ok(());
        }
        match is_asked(self.guests.get(&conn)) {
            Some(true) => self.end(conn, out),
            Some(false) => {
                mark_asked(&mut self.guests, conn, moment);
                out.put(conn, ping_text(&self.asks.server).as_slice())
            }
            None => Ok(()),
        }
    }

    /// The machine is given the QUIT of a client that does not answer.
    fn end(&mut self, conn: u64, out: &mut Batch) -> Result<(), AllocError>
        requires there { is_there (M.server_of self.old.machine) conn ≡ true }
        ensures ended { OnOk result (M.handles self.old.machine (quits conn) out.old.outs (Ok tt)
            self.new.machine out.new.outs) }
        ensures guests { guest_at self.new.guests
            ≡ with_guest conn None (guest_at self.old.guests) }
        ensures same { IsSameDoorman self.old self.new }
        ensures connected { OnOk result (IsStillConnected (M.server_of self.old.machine)
            out.old.outs (M.server_of self.new.machine) out.new.outs) }
    {
        forget(&mut self.guests, conn);
        match self.machine.handle(&Event::Line(conn, quit_line()), out) {
            Ok(()) => Ok(()),
            Err(_) => Err(AllocError),
        }
    }
}

/// So many seconds.
fn milliseconds(seconds: u16) -> u64
    ensures { result ≡ seconds * 1000 }
{
    u64::from(seconds) * 1000
}

/// Nothing is known of a client any more.
fn forget(guests: &mut Guests, conn: u64)
    ensures { guest_at guests.new ≡ with_guest conn None (guest_at guests.old) }
{
    guests.remove(&conn);
}

/// Whether a client was asked, if it is known.
fn is_asked(guest: Option<&Guest>) -> Option<bool>
    ensures { result ≡ option_map (λ (guest : Guest). guest.is_asked) (option_copied guest.entry) }
{
    match guest {
        Some(guest) => Some(guest.is_asked),
        None => None,
    }
}

/// A client is asked at a moment.
fn mark_asked(guests: &mut Guests, conn: u64, moment: Moment)
    ensures { guest_at guests.new
        ≡ change_guest conn (guest_asked moment) (guest_at guests.old) }
{
    if let Some(guest) = guests.get_mut(&conn) {
        guest.since = moment;
        guest.is_asked = true;
    }
}

/// The client that an event is of; any number, where it is of a link.
fn conn_of(event: &Event) -> u64
    ensures { result ≡ conn_of event.now }
{
    match event {
        Event::Connect(conn, _) | Event::Line(conn, _) | Event::Gone(conn) => *conn,
        Event::LinkUp(_, _) | Event::LinkLine(_, _) | Event::LinkDown(_) => 0,
    }
}

/// Says what a doorman says of itself.
fn tell(asks: &Asks, fate: Fate, conn: u64, out: &mut Batch) -> Result<(), AllocError>
    ensures { OnOk result (out.new.outs ≡ out.old.outs ++ told asks.now fate conn) }
{
    match fate {
        Fate::Passes => Ok(()),
        Fate::LacksWord => out.put(conn, lacking_text(&asks.server).as_slice()),
        Fate::TurnedAway => {
            out.put(conn, bad_password_text(&asks.server).as_slice())?;
            out.put(conn, closing_text().as_slice())?;
            out.close(conn)
        }
    }
}

/// What becomes of a line of a client that is there, and of which this is known.
fn fate_of(guest: Option<&Guest>, line: &[u8]) -> Fate
    ensures { result ≡ line_fate true (option_copied guest.entry) line.now }
{
    match guest {
        Some(guest) => guest.standing.fate(line),
        None => Fate::Passes,
    }
}

/// What is known of a client goes by what it does.
fn note(guests: &mut Guests, asks: &Asks, moment: Moment, event: &Event) -> Result<(), AllocError>
    ensures { OnOk result
        (guest_at guests.new ≡ guests_behind asks.now moment event.now (guest_at guests.old)) }
{
    match event {
        Event::Connect(conn, _) => note_new(guests, asks, moment, *conn),
        Event::Line(conn, line) => {
            if let Some(guest) = guests.get_mut(conn) {
                *guest = guest.hearing(asks, line.as_slice(), moment);
            }
            Ok(())
        }
        Event::Gone(conn) => {
            forget(guests, *conn);
            Ok(())
        }
        Event::LinkUp(_, _) | Event::LinkLine(_, _) | Event::LinkDown(_) => Ok(()),
    }
}

/// One that comes is known where anything is asked.
fn note_new(guests: &mut Guests, asks: &Asks, moment: Moment, conn: u64) -> Result<(), AllocError>
    ensures { OnOk result
        (guest_at guests.new ≡ with_new asks.now moment conn (guest_at guests.old)) }
{
    if !asks.asks_anything() {
        return Ok(());
    }
    match guests.insert(conn, Guest::new(asks, moment)) {
        Ok(_before) => Ok(()),
        Err(_) => Err(AllocError),
    }
}

/// The clients that have said nothing for so many milliseconds.
fn silent(
    alloc: Global,
    guests: &Guests,
    silence: u64,
    moment: Moment,
) -> Result<Vec<u64, Global>, AllocError>
    ensures { IfOk result (λ conns. conns.items ≡ silent_of silence moment guests.now) }
{
    let mut conns = Vec::new(alloc);
    for (conn, guest) in guests.iter() {
        if guest.is_silent(silence, moment) {
            conns.push(*conn)?;
        }
    }
    Ok(conns)
}

impl<M: Machine> Machine for Doorman<M> {
    ghost use Rattle.irc_doorman.specs.Doormen.{server_behind, watched_by, IsAdmitted};

    ghost server_of = { server_behind M.server_of };

    ghost handles = { IsAdmitted M.server_of M.handles };

    ghost dues = { watched_by M.server_of M.handles M.dues };

    fn handle(&mut self, event: &Event, out: &mut Batch) -> Result<(), ServerFault> {
        let fate = self.fate(event);
        self.give(fate, event, out)?;
        tell(&self.asks, fate, conn_of(event), out)?;
        Ok(())
    }

    fn due(&mut self, moment: Moment, out: &mut Batch) -> Result<(), ServerFault> {
        self.machine.due(moment, out)?;
        self.watch(moment, out)?;
        Ok(())
    }

    fn server(&self) -> &Server {
        self.machine.server()
    }
}
