//! What a channel is told by.
ghost use Rattle.std.specs.Prelude.{◌≡◌, ◌++◌, ◌∷◌, [], drop, take, OnOk};
ghost use Rattle.irc_burst_lines.specs.Loops.Telling.{Tells, ban_lines, lines_of_bans};
ghost use Rattle.irc_burst_lines.specs.Loops.Telling.{lines_of_channel, lines_of_members};
ghost use Rattle.irc_burst_lines.specs.Loops.Telling.{lines_of_modes, topic_lines};

use crate::mode_line::mode_text;
use crate::njoin_line::njoin_text;
use crate::server_lines::topic_text;
use crate::set_modes::{ban_changes, set_changes};
use crate::{BANS_A_LINE, MEMBERS_A_LINE};
use irc_channels::{Channel, Words};
use irc_line::Text;
use irc_link_reader::NewMember;
use irc_modes::ModeChange;
use irc_names::{ChannelName, ServerName};
use std::alloc::{AllocError, Global};

/// Puts a line behind others.
pub(crate) fn put(lines: &mut Vec<Text, Global>, line: Text) -> Result<(), AllocError>
    ensures { OnOk result (lines.new.items ≡ lines.old.items ++ line ∷ []) }
{
    lines.push(line)?;
    Ok(())
}

/// Tells of a channel: these of its members, its modes, its bans, its topic. Without a member there
/// is nothing to tell.
pub(crate) fn tell_channel(
    lines: &mut Vec<Text, Global>,
    server: &ServerName,
    channel: &Channel,
    members: &[NewMember],
) -> Result<(), AllocError>
    ensures { OnOk result
        (Tells (lines_of_channel server.now channel.now members.now) lines.old lines.new) }
{
    if members.is_empty() {
        return Ok(());
    }
    tell_members(lines, server, &channel.name, members)?;
    tell_settings(lines, server, channel)?;
    tell_bans(lines, server, channel)?;
    tell_topic(lines, server, &channel.name, &channel.topic)
}

/// Tells of members, ten a line.
fn tell_members(
    lines: &mut Vec<Text, Global>,
    server: &ServerName,
    channel: &ChannelName,
    members: &[NewMember],
) -> Result<(), AllocError>
    ensures { OnOk result
        (Tells (lines_of_members server.now channel.now members.now) lines.old lines.new) }
{
    let mut rest = members;
    while !rest.is_empty() {
        put(
            lines,
            njoin_text(server, channel, front(rest, MEMBERS_A_LINE)),
        )?;
        rest = behind(rest, MEMBERS_A_LINE);
    }
    Ok(())
}

/// Tells in one line of the modes but bans, where any is set.
fn tell_settings(
    lines: &mut Vec<Text, Global>,
    server: &ServerName,
    channel: &Channel,
) -> Result<(), AllocError>
    ensures { OnOk result (Tells (lines_of_modes server.now channel.now) lines.old lines.new) }
{
    let changes = set_changes(*lines.allocator(), &channel.modes)?;
    if changes.is_empty() {
        return Ok(());
    }
    put(lines, mode_text(server.as_bytes(), &channel.name, &changes))
}

/// Tells of the bans, three a line.
fn tell_bans(
    lines: &mut Vec<Text, Global>,
    server: &ServerName,
    channel: &Channel,
) -> Result<(), AllocError>
    ensures { OnOk result (Tells (lines_of_bans server.now channel.now) lines.old lines.new) }
{
    let changes = ban_changes(*lines.allocator(), channel.modes.bans.as_slice())?;
    tell_changes(lines, server, &channel.name, &changes)
}

/// Tells of changes, three a line.
fn tell_changes(
    lines: &mut Vec<Text, Global>,
    server: &ServerName,
    channel: &ChannelName,
    changes: &[ModeChange],
) -> Result<(), AllocError>
    ensures { OnOk result
        (Tells (ban_lines server.now channel.now changes.now) lines.old lines.new) }
{
    let mut rest = changes;
    while !rest.is_empty() {
        put(
            lines,
            mode_text(server.as_bytes(), channel, front(rest, BANS_A_LINE)),
        )?;
        rest = behind(rest, BANS_A_LINE);
    }
    Ok(())
}

/// Tells of the topic, where there is one.
fn tell_topic(
    lines: &mut Vec<Text, Global>,
    server: &ServerName,
    channel: &ChannelName,
    topic: &Words,
) -> Result<(), AllocError>
    ensures { OnOk result
        (Tells (topic_lines server.now channel.now topic.now) lines.old lines.new) }
{
    if topic.as_bytes().is_empty() {
        return Ok(());
    }
    put(lines, topic_text(server, channel, topic))
}

/// The first so many of some things, or all where there are fewer.
fn front<T>(things: &[T], most: usize) -> &[T]
    ensures { result.now ≡ take most things.now }
{
    if things.len() <= most {
        things
    } else {
        &things[..most]
    }
}

/// What is behind the first so many of some things.
fn behind<T>(things: &[T], most: usize) -> &[T]
    ensures { result.now ≡ drop most things.now }
{
    if things.len() <= most {
        &[]
    } else {
        &things[most..]
    }
}
