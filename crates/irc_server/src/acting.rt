//! What each event does to a server.
ghost use Rattle.std.specs.Prelude.{◌≡◌, None, Some, IfOk};
ghost use Rattle.std.specs.FinMap.{get};
ghost use Rattle.irc_line.specs.MessageViews.{parsed};
ghost use Rattle.irc_line.specs.Reading.{read_of};
ghost use Rattle.irc_commands.specs.RegisteringViews.{registered_of};
ghost use Rattle.irc_names.specs.Fold.{key};
ghost use Rattle.irc_names.specs.Tables.{row};
ghost use Rattle.irc_stage.specs.ClientTold.{given_told, gone_told, line_told, message_told};
ghost use Rattle.irc_stage.specs.ClientTold.{seated, user_told};
ghost use Rattle.irc_stage.specs.EffectTold.{in_silence};
ghost use Rattle.irc_stage.specs.Handle.{fresh, user_of};
ghost use Rattle.irc_stage.specs.Loops.Speaking.{AreSpokenAt};
ghost use Rattle.irc_stage.specs.Loops.Parts.{AreFitAt, IsFreeOf, IsNoUser};
ghost use Rattle.irc_stage.specs.declared.clients.Client.TheVariants.{Registered};
ghost use Rattle.irc_server.specs.ReadEvents.{read_event_of};
ghost use Rattle.irc_server.specs.Served.{fault_of, link_there, no_link, not_there, served, there};
ghost use Rattle.irc_server.specs.Loops.Acting.{given_client, given_view, nick_of};

use crate::event::{Event, ServerFault};
use crate::laws as server_laws;
use crate::losing::lose_link;
use crate::serving::{hear_line, open_link};
use irc_channels::Words;
use irc_commands::{Pending, Registration, decide, laws, register};
use irc_line::{Line, Message, parse};
use irc_names::{Host, Nick, ServerName};
use irc_room::{Effect, invitation_laws};
use irc_stage::{Client, Conn, Handling, Link, Origin, Serving, Speaker, Stage, View, Waiting};
use std::alloc::{AllocError, Global};

/// The text of a registered user's Quit whose connection is lost (our own).
const LOST: &[u8] = b"Connection closed";

/// A client connects, and has given nothing.
fn on_connect(stage: Stage, conn: Conn, host: Host) -> Result<Handling, AllocError>
    requires new { get stage.clients conn ≡ None }
    ensures { IfOk result (λ done. done ≡ in_silence (seated conn (fresh host) stage)) }
{
    let waiting = Waiting::new(stage.view().alloc(), Pending::new(host))?;
    stage
        .begin()
        .handling()
        .seat(conn, Client::Registering(waiting))
}

/// What a connection is after a line before registration.
///
/// # Errors
/// Where memory runs out.
fn client_after(alloc: Global, given: &Registration) -> Result<Client, AllocError>
    ensures { IfOk result (λ client. client ≡ given_client given.now) }
{
    match &given.pending.nick {
        Some(nick) if given.registered => Ok(Client::Registered(nick.copy())),
        _ => {
            let waiting = Waiting::new(alloc, given.pending.copy())?;
            Ok(Client::Registering(waiting))
        }
    }
}

/// What a line of a connection does that is not registered.
fn on_registration(stage: Stage, conn: Conn, given: &Registration) -> Result<Handling, AllocError>
    requires no_user { IsNoUser (get stage.clients conn) }
    requires free { IsFreeOf (given_client given.now) stage.clients }
    requires fit { AreFitAt (given_view stage conn given.now) given.now.steps.items }
    requires spoken { AreSpokenAt conn (given_view stage conn given.now) given.now.steps.items }
    ensures { IfOk result (λ done. done ≡ given_told conn (registered_of given.now) stage) }
{
    let client = client_after(stage.view().alloc(), given)?;
    let nick = given.pending.nick.as_ref();
    let handling = stage.begin().handling().seat(conn, client)?;
    handling.carry_out(Speaker::new(conn, nick), &given.steps, given.close)
}

/// What a line of a user does, by the nickname that its client is known by. What it asks of the
/// room is answered from the room as it is.
fn on_user_message(
    stage: Stage,
    conn: Conn,
    nick: &Nick,
    message: &Message<'_>,
) -> Result<Handling, AllocError>
    requires speaks { get stage.clients conn ≡ Some (Registered nick.now) }
    ensures { IfOk result (λ done. done
        ≡ user_told stage conn (row stage.room.users (key nick.now)) (parsed message.now)) }
{
    invitation_laws::alike_take_alike();
    invitation_laws::alike_stay_alike();
    laws::decided_is_possible();
    laws::decided_by_itself();
    laws::who_stays_is_user();
    laws::who_is_closed_quits();
    stage.know_serving();
    let view = stage.view();
    let decision = decide(view.alloc(), view.room(), view.routes(), nick, message)?;
    let speaker = Speaker::new(conn, Some(nick));
    let handling = stage.begin().handling();
    let handling = handling.answer(speaker, decision.query, message.params.as_slice())?;
    handling.carry_out(speaker, &decision.steps, decision.close)
}

/// What a message of a client does. Who is on its connection is looked up here.
fn on_message(stage: Stage, conn: Conn, message: &Message<'_>) -> Result<Handling, AllocError>
    ensures { IfOk result (λ done. done
        ≡ message_told stage conn (get stage.clients conn) (parsed message.now)) }
{
    invitation_laws::alike_take_alike();
    invitation_laws::alike_stay_alike();
    laws::registering_is_possible();
    laws::registered_is_added();
    laws::unregistered_changes_nothing();
    laws::registered_stays();
    stage.know_serving();
    let view = stage.view();
    match view.client_of(conn) {
        None => Ok(stage.begin().handling()),
        Some(Client::Registering(waiting)) => {
            let pending = waiting.pending();
            let given = register(view.alloc(), view.room(), view.routes(), pending, message)?;
            on_registration(stage, conn, &given)
        }
        Some(Client::Registered(nick)) => {
            let nick = nick.copy();
            on_user_message(stage, conn, &nick, message)
        }
    }
}

/// What a line of a client does. One that says nothing, as an empty one or a prefix alone, does
/// nothing.
fn on_line(stage: Stage, conn: Conn, line: &Line) -> Result<Handling, AllocError>
    ensures { IfOk result (λ done. done ≡ line_told stage conn (read_of line.now.items)) }
{
    match parse(line) {
        Ok(message) => on_message(stage, conn, &message),
        Err(_) => Ok(stage.begin().handling()),
    }
}

/// The nickname of the user that a client is, if it is one.
fn nick_of(client: &Client) -> Option<Nick>
    ensures { result ≡ nick_of client.now }
{
    match client {
        Client::Registered(nick) => Some(nick.copy()),
        Client::Registering(_) => None,
    }
}

/// The nickname of the user that whoever is on a connection is, if it is one.
fn user_on(stage: &Stage, conn: Conn) -> Option<Nick>
    ensures { result ≡ user_of stage.now.room (get stage.now.clients conn) }
{
    stage.know_serving();
    match stage.view().client_of(conn) {
        Some(client) => nick_of(client),
        None => None,
    }
}

/// A client is gone: the user that it is quits, and it is told nothing.
fn on_gone(stage: Stage, conn: Conn) -> Result<Handling, AllocError>
    ensures { IfOk result (λ done. done ≡ gone_told stage conn) }
{
    stage.know_serving();
    let user = user_on(&stage, conn);
    let handling = stage.begin().handling().take_out(conn);
    let Some(nick) = user else {
        return Ok(handling);
    };
    let text = Words::cut(LOST);
    let leaver = Origin::Client(Speaker::new(conn, None));
    handling.apply(leaver, &Effect::Quit { nick, text })
}

/// The same server's name once more, where there is one.
fn copied(name: &Option<ServerName>) -> Option<ServerName>
    ensures { result ≡ name.now }
{
    match name {
        Some(name) => Some(name.copy()),
        None => None,
    }
}

/// What an event does that is not refused.
///
/// # Errors
/// Where memory runs out.
pub(crate) fn act(stage: Stage, event: &Event) -> Result<Serving, AllocError>
    requires granted { fault_of stage event.now ≡ None }
    ensures { IfOk result (λ done. done ≡ served stage (read_event_of event.now)) }
{
    server_laws::stays_matched();
    stage.know_serving();
    match event {
        Event::Connect(conn, host) => {
            Ok(on_connect(stage, Conn::of(*conn), host.copy())?.settle())
        }
        Event::Line(conn, line) => Ok(on_line(stage, Conn::of(*conn), line)?.settle()),
        Event::Gone(conn) => Ok(on_gone(stage, Conn::of(*conn))?.settle()),
        Event::LinkUp(link, starts) => open_link(stage, Link::of(*link), copied(starts)),
        Event::LinkLine(link, line) => hear_line(stage, Link::of(*link), line),
        Event::LinkDown(link) => lose_link(stage.begin(), Link::of(*link)),
    }
}

/// Why an event is refused, if it is.
pub(crate) fn refusal(view: &View<'_>, event: &Event) -> Option<ServerFault>
    ensures { result ≡ fault_of view.now event.now }
{
    match event {
        Event::Connect(conn, _) => if_there(view, Conn::of(*conn)),
        Event::Line(conn, _) => unless_there(view, Conn::of(*conn)),
        Event::Gone(conn) => unless_there(view, Conn::of(*conn)),
        Event::LinkUp(link, _) => if_open(view, Link::of(*link)),
        Event::LinkLine(link, _) => unless_open(view, Link::of(*link)),
        Event::LinkDown(link) => unless_open(view, Link::of(*link)),
    }
}

/// A connection that connects is not to be there yet.
fn if_there(view: &View<'_>, conn: Conn) -> Option<ServerFault>
    ensures { result ≡ there (get view.now.clients conn) }
{
    match view.client_of(conn) {
        Some(_) => Some(ServerFault::ConnectionThere),
        None => None,
    }
}

/// A connection that says something or is lost is to be there.
fn unless_there(view: &View<'_>, conn: Conn) -> Option<ServerFault>
    ensures { result ≡ not_there (get view.now.clients conn) }
{
    match view.client_of(conn) {
        Some(_) => None,
        None => Some(ServerFault::NoSuchConnection),
    }
}

/// A link that is opened is not to be open yet.
fn if_open(view: &View<'_>, link: Link) -> Option<ServerFault>
    ensures { result ≡ link_there (get view.now.ends link) }
{
    match view.end(link) {
        Some(_) => Some(ServerFault::LinkThere),
        None => None,
    }
}

/// A link by which something comes, or that is lost, is to be open.
pub(crate) fn unless_open(view: &View<'_>, link: Link) -> Option<ServerFault>
    ensures { result ≡ no_link (get view.now.ends link) }
{
    match view.end(link) {
        Some(_) => None,
        None => Some(ServerFault::NoSuchLink),
    }
}
