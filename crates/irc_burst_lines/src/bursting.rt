//! The burst: what a server writes to a neighbour that is new (RFC 2813 section 5.3.2).
//!
//! The neighbour has to know a server before what is linked to it and before its users, and users
//! before what they have set and before the channels that they are in. So the order is: the servers
//! that are not behind the link, the nearer first; their users; what these have set beside what
//! their introductions tell; channel by channel the members, the modes, the bans and the topic.
ghost use Rattle.std.specs.Prelude.{◌≡◌, IfOk, OnOk};
ghost use Rattle.std.specs.Option.{option_copied, option_map};
ghost use Rattle.irc_line.specs.Messages.{text};
ghost use Rattle.irc_burst_lines.specs.BurstLines.{burst_parts, channel_parts, is_near};
ghost use Rattle.irc_burst_lines.specs.Loops.Telling.{
  change_lines,
  channels_told,
  near_row,
  near_rows,
  own_lines,
  own_parts,
  row_parts,
  rows_told,
  server_rows,
  told_if,
  told_in,
  told_member,
  told_members,
  user_lines,
  users_now,
  users_told,
  AreLines,
  Gains,
  Tells,
};

use crate::server_lines::server_text;
use crate::telling::{put, tell_channel};
use irc_channels::{Channel, Flags, Stored};
use irc_line::Text;
use irc_link_reader::NewMember;
use irc_link_writer::{introduction_line, write_effect};
use irc_names::ServerName;
use irc_room::{Effect, Room};
use irc_routes::{Routes, ServerRow};
use irc_tables::Row;
use irc_users::{User, UserChange};
use std::alloc::{AllocError, Global};

/// The lines that tell a new neighbour of the network on this side: of all that is not behind the
/// link.
///
/// # Errors
/// Where memory runs out.
pub fn burst(room: &Room, routes: &Routes, link: u64) -> Result<Vec<Text, Global>, AllocError>
    ensures { IfOk result (λ lines. AreLines (burst_parts room.now.room routes.now link) lines) }
{
    let servers = routes.told_on(link)?;
    let mut lines = Vec::new(*servers.allocator());
    tell_servers(&mut lines, routes, servers.as_slice())?;
    tell_users(&mut lines, room, routes, link)?;
    tell_channels(&mut lines, room, routes, link)?;
    Ok(lines)
}

/// The lines that tell a neighbour of one channel, as a burst tells it: none where the channel is
/// not there, or has no member on this side.
///
/// # Errors
/// Where memory runs out.
pub fn channel_burst(
    alloc: Global,
    room: &Room,
    routes: &Routes,
    link: u64,
    name: &[u8],
) -> Result<Vec<Text, Global>, AllocError>
    ensures { IfOk result
        (λ lines. AreLines (channel_parts room.now.room routes.now link name.now) lines) }
{
    let mut lines = Vec::new(alloc);
    tell_if(&mut lines, room, routes, link, room.channel(name))?;
    Ok(lines)
}

/// Tells of a channel, if it is there.
fn tell_if(
    lines: &mut Vec<Text, Global>,
    room: &Room,
    routes: &Routes,
    link: u64,
    channel: Option<&Channel>,
) -> Result<(), AllocError>
    ensures { OnOk result (Tells (told_if routes.now link room.now.room (option_copied
        channel.entry)) lines.old lines.new) }
{
    match channel {
        Some(channel) => tell_one_channel(lines, room, routes, link, channel),
        None => Ok(()),
    }
}

/// Tells of servers, in their order.
fn tell_servers(
    lines: &mut Vec<Text, Global>,
    routes: &Routes,
    servers: &[&ServerRow],
) -> Result<(), AllocError>
    ensures { OnOk result (Tells (server_rows routes.now servers.now) lines.old lines.new) }
{
    for server in servers {
        put(lines, row_text(routes, server))?;
    }
    Ok(())
}

/// The line of a server.
fn row_text(routes: &Routes, server: &ServerRow) -> Text
    ensures { result.items ≡ text (row_parts routes.now server.now) }
{
    server_text(routes, &server.uplink, &server.name, &server.info)
}

/// Tells of the users on this side, in folded order.
fn tell_users(
    lines: &mut Vec<Text, Global>,
    room: &Room,
    routes: &Routes,
    link: u64,
) -> Result<(), AllocError>
    ensures { OnOk result (Tells (users_told routes.now link room.now.room) lines.old lines.new) }
{
    let users = room.users()?;
    tell_each_user(lines, routes, link, users.as_slice())?;
    tell_each_change(lines, room, routes, link, users.as_slice())
}

/// Tells of those of some users that are on this side.
fn tell_each_user(
    lines: &mut Vec<Text, Global>,
    routes: &Routes,
    link: u64,
    users: &[&User],
) -> Result<(), AllocError>
    ensures { OnOk result
        (Tells (user_lines routes.now link (users_now users.now)) lines.old lines.new) }
{
    for user in users {
        if is_near(routes, link, &user.home) {
            put(lines, introduction_line(routes, user))?;
        }
    }
    Ok(())
}

/// Tells what those of some users that are on this side have set.
fn tell_each_change(
    lines: &mut Vec<Text, Global>,
    room: &Room,
    routes: &Routes,
    link: u64,
    users: &[&User],
) -> Result<(), AllocError>
    ensures { OnOk result (Tells (change_lines room.now.room routes.now link (users_now users.now))
        lines.old lines.new) }
{
    for user in users {
        if is_near(routes, link, &user.home) {
            tell_set(lines, room, routes, link, user)?;
        }
    }
    Ok(())
}

/// Tells what a user has set beside what the line that introduces it tells.
fn tell_set(
    lines: &mut Vec<Text, Global>,
    room: &Room,
    routes: &Routes,
    link: u64,
    user: &User,
) -> Result<(), AllocError>
    ensures { OnOk result
        (Tells (own_lines room.now.room routes.now user.now) lines.old lines.new) }
{
    match &user.set.away {
        Some(text) => {
            let away = UserChange::Away(Some(text.copy()));
            put(lines, own_text(room, routes, link, user, away))
        }
        None => Ok(()),
    }
}

/// The line of a change of a user's own.
fn own_text(room: &Room, routes: &Routes, link: u64, user: &User, change: UserChange) -> Text
    ensures { result.items ≡ text (own_parts room.now.room routes.now user.now change) }
{
    let nick = user.nick.copy();
    write_effect(&Effect::ChangeUser { nick, change }, room, routes, link)
}

/// Whether a server is on this side: not behind the link.
fn is_near(routes: &Routes, link: u64, home: &ServerName) -> bool
    ensures { result ≡ is_near routes.now link home.now }
{
    match routes.next_hop(home.as_bytes()) {
        Some(hop) => link != hop,
        None => true,
    }
}

/// Tells of the channels that have a member on this side, in folded order.
fn tell_channels(
    lines: &mut Vec<Text, Global>,
    room: &Room,
    routes: &Routes,
    link: u64,
) -> Result<(), AllocError>
    ensures { OnOk result
        (Tells (channels_told routes.now link room.now.room) lines.old lines.new) }
{
    tell_each_channel(lines, room, routes, link, room.channels())
}

/// Tells of some channels.
fn tell_each_channel(
    lines: &mut Vec<Text, Global>,
    room: &Room,
    routes: &Routes,
    link: u64,
    channels: &[Row<Stored>],
) -> Result<(), AllocError>
    ensures { OnOk result
        (Tells (rows_told routes.now link room.now.room channels.now) lines.old lines.new) }
{
    for row in channels {
        tell_one_channel(lines, room, routes, link, row.value.channel())?;
    }
    Ok(())
}

/// Tells of a channel.
fn tell_one_channel(
    lines: &mut Vec<Text, Global>,
    room: &Room,
    routes: &Routes,
    link: u64,
    channel: &Channel,
) -> Result<(), AllocError>
    ensures { OnOk result
        (Tells (told_in routes.now link room.now.room channel.now) lines.old lines.new) }
{
    let rows = channel.members.as_slice();
    let members = near_members(*lines.allocator(), room, routes, link, rows)?;
    tell_channel(lines, routes.name(), channel, members.as_slice())
}

/// Those of some members that are on this side.
fn near_members(
    alloc: Global,
    room: &Room,
    routes: &Routes,
    link: u64,
    rows: &[Row<Flags>],
) -> Result<Vec<NewMember, Global>, AllocError>
    ensures { IfOk result (λ members. told_members members.items
        ≡ near_rows routes.now link room.now.room rows.now) }
{
    let mut members = Vec::new(alloc);
    for row in rows {
        push_if(&mut members, near_member(room, routes, link, row))?;
    }
    Ok(members)
}

/// Appends the member, if there is one.
fn push_if(
    members: &mut Vec<NewMember, Global>,
    member: Option<NewMember>,
) -> Result<(), AllocError>
    ensures { OnOk result (Gains members.old member members.new) }
{
    if let Some(member) = member {
        members.push(member)?;
    }
    Ok(())
}

/// A member, if it is on this side, with its nickname as it is stored.
fn near_member(room: &Room, routes: &Routes, link: u64, row: &Row<Flags>) -> Option<NewMember>
    ensures { option_map told_member result ≡ near_row routes.now link room.now.room row.now }
{
    match room.user(row.name.as_slice()) {
        Some(user) if is_near(routes, link, &user.home) => Some(NewMember {
            nick: user.nick.copy(),
            flags: row.value,
        }),
        _ => None,
    }
}
