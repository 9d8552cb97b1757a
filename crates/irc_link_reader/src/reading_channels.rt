//! Lines about a channel (RFC 2813 section 4).
ghost use Rattle.std.specs.Prelude.{◌≡◌, Some, map};
ghost use Rattle.irc_link_reader.specs.Loops.Readings.{ReadsEffect, TellsOf, doer_or_reason};
ghost use Rattle.irc_link_reader.specs.Loops.Readings.{modes_counted, reader, topic_counted};
ghost use Rattle.irc_link_reader.specs.Loops.Tellings.{told_if};
ghost use Rattle.irc_link_reader.specs.Means.{if_there, join_line, kick_line, part_line};
ghost use Rattle.irc_link_reader.specs.Means.{topic_line};
ghost use Rattle.irc_link_reader.specs.Told.{a_doing};

use crate::arrival::{Arrival, expect_from, has_far, if_there};
use crate::deed::{Deed, ModeSetting, Topic};
use irc_batch::CloseReason;
use irc_channels::Words;
use irc_link_words::{Params, is_marked, read_channel, read_nick, read_words, unmarked};
use irc_names::{ChannelName, Nick, ServerName};
use irc_room::{By, Effect, ModeChanges};

/// A user joins a channel.
pub(crate) fn join_line(
    at: Arrival<'_>,
    nick: &[u8],
    mut params: Params<'_>,
) -> Result<Option<Effect>, CloseReason>
    ensures { ReadsEffect join_line at.entry (Some nick.now) params.entry result }
{
    let word = params.next()?;
    params.end()?;
    expect_from(at, nick)?;
    let nick = read_nick(nick)?;
    let channel = read_channel(unmarked(word))?;
    Ok(if_there(
        at,
        Effect::Join {
            nick,
            channel,
            op: is_marked(word),
        },
    ))
}

/// A member leaves a channel.
pub(crate) fn part_line(
    at: Arrival<'_>,
    nick: &[u8],
    mut params: Params<'_>,
) -> Result<Option<Effect>, CloseReason>
    ensures { ReadsEffect part_line at.entry (Some nick.now) params.entry result }
{
    let channel = params.next()?;
    let text = params.next()?;
    params.end()?;
    let text = read_words(text)?;
    expect_from(at, nick)?;
    let nick = read_nick(nick)?;
    let channel = read_channel(channel)?;
    Ok(if_there(
        at,
        Effect::Part {
            nick,
            channel,
            text,
        },
    ))
}

/// A member is made to leave a channel.
pub(crate) fn kick_line(
    at: Arrival<'_>,
    by: &[u8],
    mut params: Params<'_>,
) -> Result<Option<Effect>, CloseReason>
    ensures { ReadsEffect kick_line at.entry (Some by.now) params.entry result }
{
    let channel = params.next()?;
    let nick = params.next()?;
    let text = params.next()?;
    params.end()?;
    let text = read_words(text)?;
    expect_from(at, by)?;
    let by = read_nick(by)?;
    let channel = read_channel(channel)?;
    let nick = read_nick(nick)?;
    Ok(if_there(
        at,
        Effect::Kick {
            by,
            channel,
            nick,
            text,
        },
    ))
}

/// Whoever changes a channel: a user, or a server.
#[derive(Drop)]
pub(crate) enum Doer {
    /// The user of this nickname.
    User(Nick),
    /// The server of this name.
    Server(ServerName),
}

/// A channel's topic changes.
pub(crate) fn topic_line(
    at: Arrival<'_>,
    name: &[u8],
    mut params: Params<'_>,
) -> Result<Option<Deed>, CloseReason>
    ensures { TellsOf topic_line at.entry (Some name.now) params.entry result }
{
    let channel = params.next()?;
    let text = params.next()?;
    params.end()?;
    let text = read_words(text)?;
    expect_from(at, name)?;
    let doer = read_doer(name)?;
    let channel = read_channel(channel)?;
    Ok(topic_told(at, doer, channel, text))
}

/// Whoever changes a channel.
pub(crate) fn read_doer(name: &[u8]) -> Result<Doer, CloseReason>
    ensures { result ≡ doer_or_reason name.now }
{
    match ServerName::read(name) {
        Some(server) => Ok(Doer::Server(server)),
        None => Ok(Doer::User(read_nick(name)?)),
    }
}

/// A topic that is set, where it counts: a user's if that is there, a server's if the channel has
/// a member behind the link.
fn topic_told(at: Arrival<'_>, doer: Doer, channel: ChannelName, text: Words) -> Option<Deed>
    ensures { told_if result ≡ topic_counted (reader at.entry) doer channel text }
{
    match doer {
        Doer::User(nick) => {
            let by = By::User(nick);
            does_if_there(at, Effect::SetTopic { by, channel, text })
        }
        Doer::Server(server) => {
            if has_far(at, channel.as_bytes()) {
                Some(Deed::Topic(Topic {
                    server,
                    channel,
                    text,
                }))
            } else {
                None
            }
        }
    }
}

/// Modes that are set, where they count: as a topic does.
pub(crate) fn modes_told(
    at: Arrival<'_>,
    doer: Doer,
    channel: ChannelName,
    changes: ModeChanges,
) -> Option<Deed>
    ensures { told_if result ≡ modes_counted (reader at.entry) doer channel changes }
{
    match doer {
        Doer::User(nick) => {
            let by = By::User(nick);
            does_if_there(
                at,
                Effect::ChangeModes {
                    by,
                    channel,
                    changes,
                },
            )
        }
        Doer::Server(server) => {
            if has_far(at, channel.as_bytes()) {
                Some(Deed::Modes(ModeSetting {
                    server,
                    channel,
                    changes,
                }))
            } else {
                None
            }
        }
    }
}

/// What is done, where all users are there that it names.
fn does_if_there(at: Arrival<'_>, effect: Effect) -> Option<Deed>
    ensures { told_if result ≡ map a_doing (if_there (reader at.entry) effect) }
{
    match if_there(at, effect) {
        Some(effect) => Some(Deed::Does(effect)),
        None => None,
    }
}
