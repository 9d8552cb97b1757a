//! Lines of a link read as what a server sets by them.
ghost use Rattle.std.specs.Prelude.{◌≡◌, ◌∷◌, Some, IfOk, if◌then◌else◌, is_some, true};
ghost use Rattle.irc_line.specs.MessageViews.{parsed};
ghost use Rattle.irc_line.specs.Reading.{read_of};
ghost use Rattle.irc_link_reader.specs.Loops.Readings.{reader};
ghost use Rattle.irc_link_words.specs.Commands.{command_of};
ghost use Rattle.irc_server.specs.LinesThatSet.{by_command, by_prefix, if_channel, kick_line};
ghost use Rattle.irc_server.specs.LinesThatSet.{member_nick, mode_line, setting_read};
ghost use Rattle.irc_server.specs.LinesThatSet.{spelling, spelling_line, topic_line};
ghost use Rattle.irc_server.specs.Loops.Settings.{changes_read, removal_of};

use crate::setting::Setting;
use irc_batch::CloseReason;
use irc_channels::Words;
use irc_line::{Message, parse};
use irc_link_reader::{Arrival, expect_from};
use irc_link_words::{
    EffectCommand, LinkCommand, Params, ServerCommand, command_of, expect_members, is_for_channel,
    read_changes, read_channel, read_nick, read_words,
};
use irc_names::{ChannelName, Nick, ServerName};
use irc_room::{ModeChanges, Room};
use irc_stage::{Link, LinkEnd, View};
use std::alloc::{AllocError, Global};

/// What a line that came by a link sets, where it is one that sets.
///
/// # Errors
/// Where memory runs out.
#[tactic(auto, unfolding(crate::specs::LinesThatSet::setting_read))]
pub(crate) fn read_setting(
    view: &View<'_>,
    link: Link,
    end: &LinkEnd,
    line: &[u8],
) -> Result<Option<Result<Option<Setting>, CloseReason>>, AllocError>
    ensures { IfOk result (λ read. read ≡ setting_read view.now link end.now (read_of line.now)) }
{
    match parse(line) {
        Ok(message) if end.is_met() => read_message(view, link, &message),
        Ok(_) | Err(_) => Ok(None),
    }
}

/// What a message sets that came by a link which counts.
fn read_message(
    view: &View<'_>,
    link: Link,
    message: &Message<'_>,
) -> Result<Option<Result<Option<Setting>, CloseReason>>, AllocError>
    ensures { IfOk result (λ read. read
        ≡ by_prefix view.now link (parsed message.now) (parsed message.now).prefix) }
{
    let at = Arrival {
        room: view.room(),
        routes: view.routes(),
        link: link.number(),
    };
    let Some(name) = message.prefix else {
        return Ok(None);
    };
    match ServerName::read(name) {
        Some(server) => read_command(view.alloc(), at, &server, message),
        None => Ok(None),
    }
}

/// What a message of a server sets.
fn read_command(
    alloc: Global,
    at: Arrival<'_>,
    server: &ServerName,
    message: &Message<'_>,
) -> Result<Option<Result<Option<Setting>, CloseReason>>, AllocError>
    ensures { IfOk result (λ read. read ≡ by_command at.entry.room.now.room (reader at.entry)
        server.now (parsed message.now).params (command_of (parsed message.now).command)) }
{
    let params = Params::new(message.params.as_slice());
    match command_of(message.command) {
        Some(LinkCommand::OfEffects(EffectCommand::Mode)) => mode_line(alloc, at, server, params),
        Some(LinkCommand::OfEffects(EffectCommand::Topic)) => {
            Ok(Some(topic_line(at, server, params)))
        }
        Some(LinkCommand::OfEffects(EffectCommand::Kick)) => {
            Ok(Some(kick_line(at, server, params)))
        }
        Some(LinkCommand::OfServers(ServerCommand::Njoin)) => {
            Ok(spelling_line(at, server, params))
        }
        _ => Ok(None),
    }
}

/// Modes of a channel are set.
fn mode_line(
    alloc: Global,
    at: Arrival<'_>,
    server: &ServerName,
    mut params: Params<'_>,
) -> Result<Option<Result<Option<Setting>, CloseReason>>, AllocError>
    ensures { IfOk result (λ read. read
        ≡ mode_line at.entry.room.now.room (reader at.entry) server.now params.entry) }
{
    let Ok(target) = params.next() else {
        return Ok(None);
    };
    if !is_for_channel(target) {
        return Ok(None);
    }
    match read_changes(alloc, params.rest())? {
        Some(changes) => Ok(Some(set_modes(at, server, target, changes))),
        None => Ok(Some(Err(CloseReason::Parameters))),
    }
}

/// The changes that are set, once they are read.
fn set_modes(
    at: Arrival<'_>,
    server: &ServerName,
    target: &[u8],
    changes: ModeChanges,
) -> Result<Option<Setting>, CloseReason>
    ensures { result ≡ changes_read at.entry.room.now.room (reader at.entry) server.now
        target.now changes }
{
    expect_from(at, server.as_bytes())?;
    let channel = read_channel(target)?;
    expect_members(changes.as_slice())?;
    let server = server.copy();
    let setting = Setting::Modes {
        server,
        channel,
        changes,
    };
    Ok(if_channel(at.room, target, setting))
}

/// What is set of a channel, where that is there.
fn if_channel(room: &Room, channel: &[u8], setting: Setting) -> Option<Setting>
    ensures { result ≡ if_channel room.now.room channel.now setting }
{
    if room.channel(channel).is_some() {
        Some(setting)
    } else {
        None
    }
}

/// A channel is spelled, by a line that brings nobody.
fn spelling_line(
    at: Arrival<'_>,
    server: &ServerName,
    mut params: Params<'_>,
) -> Option<Result<Option<Setting>, CloseReason>>
    ensures { result ≡ spelling_line at.entry.room.now.room (reader at.entry) server.now
        params.entry }
{
    let Ok(channel) = params.next() else {
        return None;
    };
    let Ok(members) = params.next() else {
        return None;
    };
    if !members.is_empty() || params.end().is_err() {
        return None;
    }
    Some(spelling(at, server, channel))
}

/// The spelling that is set, of a channel that is there.
fn spelling(
    at: Arrival<'_>,
    server: &ServerName,
    target: &[u8],
) -> Result<Option<Setting>, CloseReason>
    ensures { result ≡ spelling at.entry.room.now.room (reader at.entry) server.now target.now }
{
    expect_from(at, server.as_bytes())?;
    let channel = read_channel(target)?;
    let server = server.copy();
    Ok(if_channel(at.room, target, Setting::Spelling { server, channel }))
}

/// A topic is set.
fn topic_line(
    at: Arrival<'_>,
    server: &ServerName,
    mut params: Params<'_>,
) -> Result<Option<Setting>, CloseReason>
    ensures { result ≡ topic_line at.entry.room.now.room (reader at.entry) server.now
        params.entry }
{
    let target = params.next()?;
    let text = params.next()?;
    params.end()?;
    let text = read_words(text)?;
    expect_from(at, server.as_bytes())?;
    let channel = read_channel(target)?;
    let server = server.copy();
    let setting = Setting::Topic {
        server,
        channel,
        text,
    };
    Ok(if_channel(at.room, target, setting))
}

/// A member is taken out of a channel.
fn kick_line(
    at: Arrival<'_>,
    server: &ServerName,
    mut params: Params<'_>,
) -> Result<Option<Setting>, CloseReason>
    ensures { result ≡ kick_line at.entry.room.now.room (reader at.entry) server.now
        params.entry }
{
    let channel = params.next()?;
    let nick = params.next()?;
    let text = params.next()?;
    params.end()?;
    let text = read_words(text)?;
    expect_from(at, server.as_bytes())?;
    let channel = read_channel(channel)?;
    let nick = read_nick(nick)?;
    Ok(removal(at.room, server, channel, &nick, text))
}

/// What takes the user of a nickname out of a channel, where it is a member.
fn removal(
    room: &Room,
    server: &ServerName,
    channel: ChannelName,
    nick: &Nick,
    text: Words,
) -> Option<Setting>
    ensures { result ≡ removal_of room.now.room server.now channel nick.now text }
{
    let nick = member_nick(room, &channel, nick)?;
    let server = server.copy();
    Some(Setting::Removal {
        server,
        channel,
        nick,
        text,
    })
}

/// The nickname of a member of a channel, as it is stored.
fn member_nick(room: &Room, channel: &ChannelName, nick: &Nick) -> Option<Nick>
    ensures { result ≡ member_nick room.now.room channel.now nick.now }
{
    if room.member(nick.as_bytes(), channel.as_bytes()).is_none() {
        return None;
    }
    match room.spelling(nick.as_bytes()) {
        Some(nick) => Some(nick.copy()),
        None => None,
    }
}
