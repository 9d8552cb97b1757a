//! Lines of a link, read as what they mean (RFC 2813 section 4, RFC 2812 section 3.7.1).
ghost use Rattle.std.specs.Prelude.{◌≡◌, Some, IfOk, IsOk, OnErr};
ghost use Rattle.irc_line.specs.MessageViews.{parsed};
ghost use Rattle.irc_burst.specs.Loops.Deeds.{
  deeds_read,
  effect_line_at,
  meant_at,
  told_found,
  IsReadIn,
  MayWant,
  MayWantOf,
};
ghost use Rattle.irc_burst.specs.Loops.Commands.{comes_to};

use crate::effect_deeds::{collided, listed};
use crate::fault::BurstFault;
use crate::kill_line::kill_line;
use crate::njoin_line::njoin_line;
use crate::server_lines::{pass_line, server_line, squit_line};
use irc_batch::CloseReason;
use irc_line::Message;
use irc_link_reader::{Arrival, Deed, tell_effect};
use irc_link_words::{EffectCommand, LinkCommand, Params, ServerCommand, command_of};
use irc_room::Room;
use irc_routes::Routes;
use std::alloc::{AllocError, Global};

/// What a line means that came by a link after its handshake: the deeds that it tells of, in order.
///
/// # Errors
/// [`BurstFault::Closes`] with the first reason, in this order: UnknownCommand, Parameters,
/// BadToken, WrongDirection, BadName, then AlreadyKnown, Full or Order. [`BurstFault::Memory`]
/// where memory runs out, which takes a line that means something, or a MODE: it is never told in
/// place of another line's fault.
pub fn read_burst_line(
    alloc: Global,
    message: &Message<'_>,
    room: &Room,
    routes: &Routes,
    link: u64,
) -> Result<Vec<Deed, Global>, BurstFault>
    ensures { IsReadIn room.now.room routes.now link (parsed message.now) result }
{
    let at = Arrival { room, routes, link };
    match read_line(alloc, at, message) {
        Ok(Ok(deeds)) => Ok(deeds),
        Ok(Err(reason)) => Err(BurstFault::Closes(reason)),
        Err(_) => Err(BurstFault::Memory),
    }
}

/// What a line means that came by a link after its handshake: the deeds that it tells of, in order,
/// or why it closes the link. Reasons are looked for in this order: UnknownCommand, Parameters,
/// BadToken, WrongDirection, BadName, then AlreadyKnown, Full or Order.
///
/// # Errors
/// Where memory runs out, which takes a line that means something, or a MODE: it is never told in
/// place of another line's reason.
#[tactic(auto, using(crate::proofs::EffectsRead::whole_lines))]
pub fn read_line(
    alloc: Global,
    at: Arrival<'_>,
    message: &Message<'_>,
) -> Result<Result<Vec<Deed, Global>, CloseReason>, AllocError>
    ensures meant { IfOk result (λ read. deeds_read read ≡ meant_at at.entry (parsed message.now)) }
    ensures memory { OnErr result (MayWant (parsed message.now)
        (meant_at at.entry (parsed message.now))) }
{
    match command_of(message.command) {
        Some(LinkCommand::OfEffects(command)) => effect_line(alloc, at, command, message),
        Some(LinkCommand::OfServers(command)) => server_deeds(alloc, at, command, message),
        None => Ok(Err(CloseReason::UnknownCommand)),
    }
}

/// What a line means that tells of an effect.
fn effect_line(
    alloc: Global,
    at: Arrival<'_>,
    command: EffectCommand,
    message: &Message<'_>,
) -> Result<Result<Vec<Deed, Global>, CloseReason>, AllocError>
    ensures meant { IfOk result (λ read. deeds_read read ≡ effect_line_at command at.entry
        (parsed message.now)) }
    ensures memory { OnErr result (MayWantOf command
        (effect_line_at command at.entry (parsed message.now))) }
{
    match tell_effect(alloc, at, command, message)? {
        Ok(deed) => Ok(Ok(collided(alloc, at, deed)?)),
        Err(reason) => Ok(Err(reason)),
    }
}

/// The deeds that a line of a server tells of: one, or none.
fn server_deeds(
    alloc: Global,
    at: Arrival<'_>,
    command: ServerCommand,
    message: &Message<'_>,
) -> Result<Result<Vec<Deed, Global>, CloseReason>, AllocError>
    ensures meant { IfOk result (λ read. deeds_read read ≡ comes_to command at.entry
        (parsed message.now).prefix (parsed message.now).params) }
    ensures memory { OnErr result (IsOk (comes_to command at.entry
        (parsed message.now).prefix (parsed message.now).params)) }
{
    match tell_server(alloc, at, command, message)? {
        Ok(deed) => Ok(Ok(listed(alloc, deed)?)),
        Err(reason) => Ok(Err(reason)),
    }
}

/// What a line of a server tells, if it tells anything. Only SERVER and PASS may be without a name
/// in front.
fn tell_server(
    alloc: Global,
    at: Arrival<'_>,
    command: ServerCommand,
    message: &Message<'_>,
) -> Result<Result<Option<Deed>, CloseReason>, AllocError>
    ensures told { IfOk result (λ told. told_found told ≡ comes_to command at.entry
        (parsed message.now).prefix (parsed message.now).params) }
    ensures memory { OnErr result (IsOk (comes_to command at.entry
        (parsed message.now).prefix (parsed message.now).params)) }
{
    let params = Params::new(message.params.as_slice());
    match (command, message.prefix) {
        (ServerCommand::Server, prefix) => Ok(server_line(at, prefix, params)),
        (ServerCommand::Pass, prefix) => Ok(pass_line(prefix, params)),
        (_, None) => Ok(Err(CloseReason::Parameters)),
        (ServerCommand::Squit, Some(server)) => Ok(squit_line(at, server, params)),
        (ServerCommand::Kill, Some(server)) => Ok(kill_line(at, server, params)),
        (ServerCommand::Njoin, Some(server)) => njoin_line(alloc, at, server, params),
    }
}
