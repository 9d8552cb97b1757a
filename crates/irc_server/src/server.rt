//! One server.
ghost use Rattle.std.specs.Prelude.{◌≡◌, [], Ok, Some, false, is_some, IfOk, OnOk};
ghost use Rattle.std.specs.FinMap.{get};
ghost use Rattle.std.specs.Option.{option_and_then, option_copied, option_map, option_map_or};
ghost use Rattle.irc_routes.specs.Known.{others};
ghost use Rattle.irc_server.specs.Configuring.{IsMade, IsMadeServing};
ghost use Rattle.irc_server.specs.Connected.{has_user, is_user};
ghost use Rattle.irc_server.specs.LinesThatSet.{IsSetBy};
ghost use Rattle.irc_server.specs.ReadEvents.{AreHandled, IsHandled};
ghost use Rattle.irc_server.specs.Owed.{AllReceive};
ghost use Rattle.irc_server.specs.Loops.Acting.{room_kept, room_of};
ghost use Rattle.irc_server.specs.Loops.Settings.{fault_at};
ghost use Rattle.irc_server.specs.Loops.States.{view_in};
ghost use Rattle.irc_server.specs.declared.server.State.TheVariants.{Failed, Running};
ghost use Rattle.irc_stage.specs.View.{new_view, password_for, View};

use crate::acting::{act, refusal, unless_open};
use crate::config::{Config, ConfigFault, config_fault};
use crate::event::{Event, ServerFault};
use crate::setting_done::set_line;
use irc_batch::Batch;
use irc_line::Line;
use irc_room::Room;
use irc_routes::{Programs, Routes};
use irc_stage::{Client, Conn, FirstStage, Link, Peer, Stage, View};
use std::alloc::{AllocError, Global};
use std::marker::Model;
use std::mem;

/// What has become of a server.
#[derive(Drop)]
enum State {
    /// It has taken no event yet, and has no memory of its own.
    First(FirstStage),
    /// It has taken one.
    Running(Stage),
    /// Memory ran out.
    Failed,
}

/// One server.
#[derive(Drop)]
pub struct Server {
    state: State,
}

/// In a clause it is what a server is to those above, or nothing once memory ran out.
impl Model for Server {
    ghost use Rattle.std.specs.Prelude.{Option};
    ghost use Rattle.std.specs.Coded.{coded_option};
    ghost use Rattle.irc_users.specs.UserTable.{users_code};
    ghost use Rattle.irc_channels.specs.contracts.channel.Channel.{the_row as channel_row};
    ghost use Rattle.irc_routes.specs.contracts.routes.Routes.{the_row as routes_row};
    ghost use Rattle.irc_stage.specs.contracts.clients.Client.{the_row as client_row};
    ghost use Rattle.irc_stage.specs.View.{View};
    ghost use Rattle.irc_stage.specs.Loops.Codes.{view_code};
    ghost use Rattle.irc_server.specs.Loops.States.{view_in};

    ghost Value = { Option View };

    ghost coded = { coded_option
        (view_code routes_row.coded client_row.coded users_code channel_row.coded) };

    ghost view = { λ s. view_in s.state };
}

/// Takes out what a server is: it has failed until something is put back. Before the first event
/// that it takes it gets memory of its own; from then on none is wanted.
///
/// # Errors
/// Where memory runs out, or ran out before.
fn taken(state: &mut State) -> Result<Stage, AllocError>
    ensures taken { IfOk result (λ stage. view_in state.old ≡ Some stage) }
    ensures failed { state.new ≡ Failed }
    ensures running { (stage : View) → state.old ≡ Running stage → result ≡ Ok stage }
{
    match mem::replace(state, State::Failed) {
        State::First(first) => first.boxed(),
        State::Running(stage) => Ok(stage),
        State::Failed => Err(AllocError),
    }
}

/// Whether a client is a user.
fn is_user(client: Option<&Client>) -> bool
    ensures { result ≡ is_user (option_copied client.entry) }
{
    match client {
        Some(Client::Registered(_)) => true,
        Some(Client::Registering(_)) | None => false,
    }
}

impl Server {
    /// A server without clients, linked to none, with the commands of the profile alone. It closes
    /// a link by which a line tells that a user is away.
    ///
    /// # Errors
    /// [`ConfigFault::BadName`] where a name, a text or a password is outside its limits; then
    /// [`ConfigFault::DoubleName`] where two peers have one name, or one has the server's own. It
    /// takes no memory, so that it never answers [`ConfigFault::Memory`].
    pub fn new(alloc: Global, config: Config) -> Result<Self, ConfigFault>
        ensures { IsMade config result }
    {
        if let Some(fault) = config_fault(&config) {
            return Err(fault);
        }
        let routes = Routes::new(config.own);
        Ok(Server::begun(alloc, routes, config.peers))
    }

    /// The same of a server whose links tell who is away, and whose clients have what programs
    /// expect or not. A neighbour has to be such a server, or not to be told who is away.
    ///
    /// # Errors
    /// Those of [`Server::new`].
    pub fn serving(alloc: Global, config: Config, programs: Programs) -> Result<Self, ConfigFault>
        ensures { IsMadeServing programs config result }
    {
        match config_fault(&config) {
            Some(fault) => Err(fault),
            None => {
                let routes = Routes::serving(config.own, programs);
                Ok(Server::begun(alloc, routes, config.peers))
            }
        }
    }

    /// A server that knows no other, with these peers.
    fn begun(alloc: Global, routes: Routes, peers: Vec<Peer, Global>) -> Self
        requires alone { others routes ≡ [] }
        ensures { result ≡ Some (new_view routes peers.items) }
    {
        Server {
            state: State::First(FirstStage::new(alloc, routes, peers)),
        }
    }

    /// What it is now; nothing once memory ran out.
    fn view(&self) -> Option<View<'_>>
        ensures { result ≡ self.now }
    {
        match &self.state {
            State::First(first) => Some(first.view()),
            State::Running(stage) => Some(stage.view()),
            State::Failed => None,
        }
    }

    /// Its room; none once memory ran out.
    pub fn room(&self) -> Option<&Room>
        ensures { option_map room_kept (option_copied result) ≡ option_map room_of self.now }
    {
        match self.view() {
            Some(view) => Some(view.room()),
            None => None,
        }
    }

    /// Its own row, and the servers that it knows; none once memory ran out.
    pub fn routes(&self) -> Option<&Routes>
        ensures { option_copied result ≡ option_map (λ (view : View). view.routes) self.now }
    {
        match self.view() {
            Some(view) => Some(view.routes()),
            None => None,
        }
    }

    /// The password that it and the peer of a name give each other, if it has such a peer; none
    /// once memory ran out.
    pub fn password_for(&self, name: &[u8]) -> Option<&[u8]>
        ensures { option_copied result ≡ option_and_then
            (λ (view : View). password_for view name.now) self.now }
    {
        match self.view() {
            Some(view) => view.password_for(name),
            None => None,
        }
    }

    /// Whether a client has this connection; none does once memory ran out.
    pub fn has_client(&self, conn: u64) -> bool
        ensures { result ≡ option_map_or
            (λ (view : View). is_some (get view.clients conn)) self.now false }
    {
        match self.view() {
            Some(view) => view.client_of(Conn::of(conn)).is_some(),
            None => false,
        }
    }

    /// Whether a connection is a client that is a user: it has given NICK and USER (RFC 2812
    /// section 3.1), and was taken in. None is once memory ran out.
    pub fn has_user(&self, conn: u64) -> bool
        ensures { result ≡ option_map_or
            (λ (view : View). has_user view conn) self.now false }
    {
        match self.view() {
            Some(view) => is_user(view.client_of(Conn::of(conn))),
            None => false,
        }
    }

    /// Handles an event: what it puts out is appended to `out`, in order.
    ///
    /// # Errors
    /// [`ServerFault::Failed`] where memory ran out before; then, with nothing changed,
    /// [`ServerFault::NoSuchConnection`] for a line of, or the loss of, a connection that is not
    /// there, [`ServerFault::ConnectionThere`] for one that connects and is there,
    /// [`ServerFault::NoSuchLink`] and [`ServerFault::LinkThere`] alike for links.
    /// [`ServerFault::Memory`] where memory runs out: `out` is as it was, and the server answers
    /// Failed from then on.
    pub fn handle(&mut self, event: &Event, out: &mut Batch) -> Result<(), ServerFault>
        ensures { IsHandled self.old event.now out.old.outs result self.new out.new.outs }
    {
        let Some(view) = self.view() else {
            return Err(ServerFault::Failed);
        };
        if let Some(fault) = refusal(&view, event) {
            return Err(fault);
        }
        let stage = taken(&mut self.state)?;
        self.state = State::Running(act(stage, event)?.end(out)?);
        Ok(())
    }

    /// Why a line of a link is refused, if it is.
    fn refusal_at(&self, link: Link) -> Option<ServerFault>
        ensures { result ≡ fault_at self.now link }
    {
        match self.view() {
            Some(view) => unless_open(&view, link),
            None => Some(ServerFault::Failed),
        }
    }

    /// Handles a line of a link by which a server sets: as a line that comes by a link
    /// ([`Event::LinkLine`]), but a MODE and a TOPIC with a server in front are done as they are
    /// written, be what they set greater or not than what is there, and a KICK with a server in
    /// front takes a member out of a channel.
    ///
    /// # Errors
    /// As [`Server::handle`] for such an event: [`ServerFault::Failed`] where memory ran out
    /// before; then, with nothing changed, [`ServerFault::NoSuchLink`]; [`ServerFault::Memory`]
    /// where memory runs out, with `out` as it was.
    pub fn set(&mut self, link: u64, line: &Line, out: &mut Batch) -> Result<(), ServerFault>
        ensures { IsSetBy self.old link line.now.items out.old.outs
            result self.new out.new.outs }
    {
        let number = Link::of(link);
        if let Some(fault) = self.refusal_at(number) {
            return Err(fault);
        }
        let stage = taken(&mut self.state)?;
        self.state = State::Running(set_line(stage, number, line)?.end(out)?);
        Ok(())
    }

    /// Handles events one after another, up to the first that is refused. Where they are clients'
    /// alone, each client receives what the server owes it.
    ///
    /// # Errors
    /// As [`Server::handle`], for the first event that is refused: those before it are handled, and
    /// those behind it are not.
    pub fn handle_all(
        &mut self,
        events: Vec<Event, Global>,
        out: &mut Batch,
    ) -> Result<(), ServerFault>
        ensures handled { AreHandled self.old events.items out.old.outs
            result self.new out.new.outs }
        ensures owed { OnOk result
            (AllReceive self.old events.items out.old.outs self.new out.new.outs) }
    {
        let mut rest = events.into_iter();
        while let Some(event) = rest.next() {
            self.handle(&event, out)?;
        }
        Ok(())
    }
}
