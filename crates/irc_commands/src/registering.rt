//! What a line of a connection does that is not registered.
ghost use Rattle.std.specs.Prelude.{◌≡◌, List, [], ◌∷◌, ◌++◌, IfOk, OnOk};
ghost use Rattle.irc_line.specs.MessageViews.{parsed};
ghost use Rattle.irc_line.specs.PartViews.{words_now};
ghost use Rattle.irc_routes.specs.Known.{place_of};
ghost use Rattle.irc_acts.specs.declared.act.Act.{Act};
ghost use Rattle.irc_commands.specs.Register.{
  complete,
  nick_chosen,
  nick_row,
  pending_row,
  quit_row,
  register,
  replies,
  server_told,
  user_row,
  welcomed,
};
ghost use Rattle.irc_commands.specs.RegisteringViews.{registered_of, AreDecided};

use crate::closing::error;
use crate::command_names::Command;
use crate::own_lines::is_own;
use crate::pending::{Pending, Registration};
use crate::ping;
use irc_acts::refusals::need_more_params;
use irc_acts::words::{client_words, reason_given};
use irc_acts::{Act, only, put};
use irc_line::Message;
use irc_names::{Nick, copied};
use irc_numerics::Reply;
use irc_room::{Effect, Room};
use irc_routes::Routes;
use irc_users::{RealName, User, UserName};
use std::alloc::{AllocError, Global};

/// How many parameters USER needs (RFC 2812 section 3.1.3).
const USER_PARAMETERS: usize = 4;

/// Whatever the steps are, nothing else changes.
fn replied(
    pending: Pending,
    steps: Result<Vec<Act, Global>, AllocError>,
) -> Result<Registration, AllocError>
    ensures { (want : List Act)
        → IfOk steps (AreDecided want) → IfOk result (λ r. registered_of r ≡ replies pending want) }
{
    let steps = steps?;
    Ok(Registration {
        pending,
        steps,
        registered: false,
        close: false,
    })
}

/// No step, and nothing else changes.
fn ignored(alloc: Global, pending: Pending) -> Registration
    ensures { registered_of result ≡ replies pending [] }
{
    Registration {
        pending,
        steps: Vec::new(alloc),
        registered: false,
        close: false,
    }
}

/// One step, and nothing else changes.
fn answered(alloc: Global, pending: Pending, answer: Act) -> Result<Registration, AllocError>
    ensures { IfOk result (λ r. registered_of r ≡ replies pending (answer ∷ [])) }
{
    replied(pending, only(alloc, answer))
}

/// The steps of somebody who is a user now (RFC 2812 section 5.1).
fn welcome(alloc: Global, routes: &Routes, user: User) -> Result<Vec<Act, Global>, AllocError>
    ensures { IfOk result (λ steps. steps.items ≡ welcomed (place_of routes.now) user) }
{
    let told = Act::Answer(Reply::Welcome {
        nick: user.nick.copy(),
        user: user.user.copy(),
        host: user.host.copy(),
    });
    let mut steps = Vec::with_capacity(alloc, 6)?;
    put(&mut steps, Act::Do(Effect::AddUser(user)))?;
    put(&mut steps, told)?;
    tell_of_server(&mut steps, routes)?;
    Ok(steps)
}

/// Appends what a new user is told of the server.
fn tell_of_server(steps: &mut Vec<Act, Global>, routes: &Routes) -> Result<(), AllocError>
    ensures { OnOk result (steps.new.items ≡ steps.old.items ++ server_told (place_of routes.now)) }
{
    let server = routes.name();
    let your_host = Reply::YourHost {
        server: server.copy(),
    };
    let created = Reply::Created {
        created: copied(routes.created()),
    };
    let my_info = Reply::MyInfo {
        server: server.copy(),
    };
    put(steps, Act::Answer(your_host))?;
    put(steps, Act::Answer(created))?;
    put(steps, Act::Answer(my_info))?;
    put(steps, Act::Answer(Reply::NoMotd))
}

/// Registers a connection that has given a nickname and a user name, unless a registered user has
/// the nickname by now: then the connection has none.
fn complete(
    alloc: Global,
    room: &Room,
    routes: &Routes,
    pending: Pending,
) -> Result<Registration, AllocError>
    ensures { IfOk result (λ r. registered_of r
        ≡ complete room.now.room (place_of routes.now) pending) }
{
    let (Some(nick), Some(user)) = (&pending.nick, &pending.user) else {
        return Ok(ignored(alloc, pending));
    };
    if room.user(nick.as_bytes()).is_some() {
        let taken = nick.copy();
        let without = Pending {
            nick: None,
            ..pending.copy()
        };
        let refusal = Act::Answer(Reply::NicknameInUse { nick: taken });
        return answered(alloc, without, refusal);
    }
    let user = User::new(
        nick.copy(),
        user.copy(),
        pending.host.copy(),
        pending.real.copy(),
        routes.name().copy(),
    );
    Ok(Registration {
        pending,
        steps: welcome(alloc, routes, user)?,
        registered: true,
        close: false,
    })
}

/// Takes a nickname that is not empty.
fn choose_nick(
    alloc: Global,
    room: &Room,
    routes: &Routes,
    pending: Pending,
    given: &[u8],
) -> Result<Registration, AllocError>
    ensures { IfOk result (λ r. registered_of r
        ≡ nick_chosen room.now.room (place_of routes.now) pending given.now) }
{
    let Some(nick) = Nick::read(given) else {
        let nick = client_words(given);
        let refusal = Act::Answer(Reply::ErroneousNickname { nick });
        return answered(alloc, pending, refusal);
    };
    if room.user(given).is_some() {
        let refusal = Act::Answer(Reply::NicknameInUse { nick });
        return answered(alloc, pending, refusal);
    }
    let chosen = Pending {
        nick: Some(nick),
        ..pending
    };
    complete(alloc, room, routes, chosen)
}

/// NICK: a nickname, which may be in use.
fn take_nick(
    alloc: Global,
    room: &Room,
    routes: &Routes,
    pending: Pending,
    params: &[&[u8]],
) -> Result<Registration, AllocError>
    ensures { IfOk result (λ r. registered_of r
        ≡ nick_row room.now.room (place_of routes.now) pending (words_now params.now)) }
{
    match params.first() {
        Some(given) if !given.is_empty() => choose_nick(alloc, room, routes, pending, given),
        _ => answered(alloc, pending, Act::Answer(Reply::NoNicknameGiven)),
    }
}

/// USER: a user name and a real name. An earlier USER is replaced. Too few parameters are answered
/// here and not by the command table's number, which is of registered users: they are refused
/// before their parameters are counted.
fn take_user(
    alloc: Global,
    room: &Room,
    routes: &Routes,
    pending: Pending,
    params: &[&[u8]],
) -> Result<Registration, AllocError>
    ensures { IfOk result (λ r. registered_of r
        ≡ user_row room.now.room (place_of routes.now) pending (words_now params.now)) }
{
    if params.len() < USER_PARAMETERS {
        return answered(alloc, pending, need_more_params(b"USER"));
    }
    let named = Pending {
        user: Some(UserName::clean(params[0])),
        real: RealName::cut(params[3]),
        ..pending
    };
    complete(alloc, room, routes, named)
}

/// QUIT before registration: nobody sees it.
fn give_up(alloc: Global, pending: Pending, params: &[&[u8]]) -> Result<Registration, AllocError>
    ensures { IfOk result (λ r. registered_of r ≡ quit_row pending (words_now params.now)) }
{
    let name = match &pending.nick {
        Some(nick) => nick.as_bytes(),
        None => b"*",
    };
    let reason = reason_given(params, name);
    let steps = only(alloc, Act::Raw(error(&reason)))?;
    Ok(Registration {
        pending,
        steps,
        registered: false,
        close: true,
    })
}

/// What a line of a connection does that is not registered (RFC 2812 section 3.1). Nothing is
/// changed.
///
/// # Errors
/// Where memory runs out.
#[tactic(auto, unfolding(crate::specs::Register::register))]
pub fn register(
    alloc: Global,
    room: &Room,
    routes: &Routes,
    pending: &Pending,
    message: &Message<'_>,
) -> Result<Registration, AllocError>
    ensures { IfOk result (λ r. registered_of r
        ≡ register room.now.room (place_of routes.now) pending.now (parsed message.now)) }
{
    let now = pending.copy();
    if is_own(message.prefix, pending.nick.as_ref()) {
        register_for(alloc, room, routes, now, message)
    } else {
        Ok(ignored(alloc, now))
    }
}

/// The row of the table that the line of such a connection fits.
fn register_for(
    alloc: Global,
    room: &Room,
    routes: &Routes,
    now: Pending,
    message: &Message<'_>,
) -> Result<Registration, AllocError>
    ensures { IfOk result (λ r. registered_of r
        ≡ pending_row room.now.room (place_of routes.now) now (parsed message.now)) }
{
    let params = message.params.as_slice();
    match Command::read(routes.programs(), message.command) {
        Some(Command::Pass | Command::Pong) => Ok(ignored(alloc, now)),
        Some(Command::Nick) => take_nick(alloc, room, routes, now, params),
        Some(Command::User) => take_user(alloc, room, routes, now, params),
        Some(Command::Ping) => replied(now, ping::steps(alloc, routes, params)),
        Some(Command::Quit) => give_up(alloc, now, params),
        _ => answered(alloc, now, Act::Answer(Reply::NotRegistered)),
    }
}
