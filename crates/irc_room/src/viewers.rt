//! The users that see an effect, in folded order.
ghost use Rattle.std.specs.Prelude.{◌≡◌, ◌≤◌, ◌++◌, not, length, map, filter, IfOk, OnOk};
ghost use Rattle.irc_names.specs.Fold.{key, same};
ghost use Rattle.irc_names.specs.TableLaws.{same_fold};
ghost use Rattle.irc_tables.specs.RowViews.{row_entry};
ghost use Rattle.irc_channels.specs.Channels.{has_member};
ghost use Rattle.irc_effects.specs.Effects.{is_member};
ghost use Rattle.irc_room.specs.Indexes.{holds, own_names};
ghost use Rattle.irc_room.specs.Loops.Viewing.{hears, hears_text, is_in_any, is_one_of, is_sharer};
ghost use Rattle.irc_room.specs.Loops.Viewing.{sees_change, sees_join, sees_quit, sees_rename};
ghost use Rattle.irc_room.specs.Loops.Viewing.{user_named, AreSharers, Finds, Gains};
ghost use Rattle.irc_effects.specs.Found.{users_under};
ghost use Rattle.irc_effects.specs.Readers.{users_now};
ghost use Rattle.irc_effects.specs.Seen.{sees};

use crate::{Effect, IndexedChannels, Tables, Target};
use irc_channels::Flags;
use irc_names::{ChannelName, MAX_CHANNEL, Nick};
use irc_tables::{NameTable, Row};
use irc_users::{User, UserChange, Users};
use std::alloc::{AllocError, Global};

/// The users that see an effect, found by the names that stand in the channels it is about: besides
/// them only its doer is looked at.
pub(crate) fn viewers<'a>(
    alloc: Global,
    tables: &'a Tables,
    effect: &Effect,
) -> Result<Vec<&'a User, Global>, AllocError>
    ensures { IfOk result (λ found. Finds tables.now (λ room. sees room effect.now) found.items) }
{
    match effect {
        Effect::AddUser(_) => Ok(Vec::new(alloc)),
        Effect::Rename { nick, .. } => with_sharers(alloc, tables, nick),
        Effect::Quit { nick, .. } => sharers(alloc, tables, nick),
        Effect::Join { nick, channel, .. } => with_joiner(alloc, tables, nick, channel),
        Effect::Part { channel, .. }
        | Effect::Kick { channel, .. }
        | Effect::ChangeModes { channel, .. }
        | Effect::SetTopic { channel, .. } => members(alloc, tables, channel),
        Effect::Say { by, target, .. } => hearers(alloc, tables, by, target),
        Effect::Invite { nick, .. } => only(alloc, tables, nick),
        Effect::ChangeUser { nick, change } => told_itself(alloc, tables, nick, change),
    }
}

/// Those that are shown what a user says.
fn hearers<'a>(
    alloc: Global,
    tables: &'a Tables,
    by: &Nick,
    target: &Target,
) -> Result<Vec<&'a User, Global>, AllocError>
    ensures { IfOk result
        (λ found. Finds tables.now (λ room. hears_text room by.now target.now) found.items) }
{
    match target {
        Target::User(nick) => only(alloc, tables, nick),
        Target::Channel(channel) => others(alloc, tables, by, channel),
    }
}

/// The user that changes what it has set of itself, where it is told of the change.
fn told_itself<'a>(
    alloc: Global,
    tables: &'a Tables,
    nick: &Nick,
    change: &UserChange,
) -> Result<Vec<&'a User, Global>, AllocError>
    ensures { IfOk result
        (λ found. Finds tables.now (λ room. sees_change nick.now change.now) found.items) }
{
    if !change.is_shown() {
        return Ok(Vec::new(alloc));
    }
    only(alloc, tables, nick)
}

/// The user of a nickname, if it is there.
fn only<'a>(
    alloc: Global,
    tables: &'a Tables,
    nick: &Nick,
) -> Result<Vec<&'a User, Global>, AllocError>
    ensures { IfOk result (λ found. Finds tables.now (λ room. same nick.now) found.items) }
{
    let mut found = Vec::new(alloc);
    add_named(&tables.users, nick.as_bytes(), &mut found)?;
    Ok(found)
}

/// The members of a channel.
pub(crate) fn members<'a>(
    alloc: Global,
    tables: &'a Tables,
    channel: &ChannelName,
) -> Result<Vec<&'a User, Global>, AllocError>
    ensures { IfOk result (λ found. Finds tables.now
        (λ room viewer. is_member room viewer channel.now) found.items) }
{
    users_of(
        alloc,
        &tables.users,
        tables.channels.members(channel.as_bytes()),
    )
}

/// The members of a channel but for one user.
fn others<'a>(
    alloc: Global,
    tables: &'a Tables,
    by: &Nick,
    channel: &ChannelName,
) -> Result<Vec<&'a User, Global>, AllocError>
    ensures { IfOk result
        (λ found. Finds tables.now (λ room. hears room by.now channel.now) found.items) }
{
    let mut found = members(alloc, tables, channel)?;
    leave_out(&mut found, by);
    Ok(found)
}

/// Takes the user of a nickname out of those that were found.
fn leave_out(found: &mut Vec<&User, Global>, nick: &Nick)
    ensures { found.new.items ≡ filter (λ user. not (same nick.now user.now.nick)) found.old.items }
{
    found.retain(|user| *nick != user.nick);
}

/// The members of a channel, and a user that joins it.
fn with_joiner<'a>(
    alloc: Global,
    tables: &'a Tables,
    nick: &Nick,
    channel: &ChannelName,
) -> Result<Vec<&'a User, Global>, AllocError>
    ensures { IfOk result
        (λ found. Finds tables.now (λ room. sees_join room nick.now channel.now) found.items) }
{
    let mut names = NameTable::new(alloc);
    put_rows(&mut names, tables.channels.members(channel.as_bytes()))?;
    put_name(&mut names, nick.as_bytes())?;
    users_of(alloc, &tables.users, names.as_slice())
}

/// A user, and those that share a channel with it.
fn with_sharers<'a>(
    alloc: Global,
    tables: &'a Tables,
    nick: &Nick,
) -> Result<Vec<&'a User, Global>, AllocError>
    ensures { IfOk result
        (λ found. Finds tables.now (λ room. sees_rename room nick.now) found.items) }
{
    let mut names = names_sharing(alloc, tables, nick)?;
    put_name(&mut names, nick.as_bytes())?;
    users_of(alloc, &tables.users, names.as_slice())
}

/// Those that share a channel with a user, but for the user.
fn sharers<'a>(
    alloc: Global,
    tables: &'a Tables,
    nick: &Nick,
) -> Result<Vec<&'a User, Global>, AllocError>
    ensures { IfOk result
        (λ found. Finds tables.now (λ room. sees_quit room nick.now) found.items) }
{
    let mut names = names_sharing(alloc, tables, nick)?;
    names.remove(nick.as_bytes());
    users_of(alloc, &tables.users, names.as_slice())
}

/// The nicknames of all members of the channels that a user is in, each once.
fn names_sharing(
    alloc: Global,
    tables: &Tables,
    nick: &Nick,
) -> Result<NameTable<Flags>, AllocError>
    ensures { IfOk result (λ names. AreSharers names tables.now.channels nick.now) }
{
    let mut names = NameTable::new(alloc);
    put_shared(&mut names, &tables.channels, nick)?;
    Ok(names)
}

/// The users that stand under the names of some rows.
fn users_of<'a>(
    alloc: Global,
    users: &'a Users,
    rows: &[Row<Flags>],
) -> Result<Vec<&'a User, Global>, AllocError>
    ensures { IfOk result
        (λ found. users_now found.items ≡ users_under users.now.users (map row_entry rows.now)) }
{
    let mut found = Vec::new(alloc);
    for row in rows {
        add_named(users, row.name.as_slice(), &mut found)?;
    }
    Ok(found)
}

/// Appends the user of a nickname, if it is there.
fn add_named<'a>(
    users: &'a Users,
    name: &[u8],
    found: &mut Vec<&'a User, Global>,
) -> Result<(), AllocError>
    ensures { OnOk result (users_now found.new.items ≡ users_now found.old.items
        ++ user_named users.now.users name.now) }
{
    if let Some(user) = users.find_named(name) {
        found.push(user)?;
    }
    Ok(())
}

/// Adds the members of those channels that a user is in.
fn put_shared(
    names: &mut NameTable<Flags>,
    channels: &IndexedChannels,
    nick: &Nick,
) -> Result<(), AllocError>
    ensures { OnOk result (Gains names.old names.new (is_sharer channels.now nick.now)) }
{
    put_all(names, channels, channels_of_user(channels, nick))
}

/// The names of the channels that a user is in, in folded order.
fn channels_of_user<'a>(channels: &'a IndexedChannels, nick: &Nick) -> &'a [Row<()>]
    ensures { map row_entry result.now ≡ own_names (key nick.now) channels.now }
{
    channels.names_of(nick.as_bytes())
}

/// Adds the members of the channels of some names.
fn put_all(
    names: &mut NameTable<Flags>,
    channels: &IndexedChannels,
    rows: &[Row<()>],
) -> Result<(), AllocError>
    ensures { OnOk result (Gains names.old names.new (is_in_any channels.now rows.now)) }
{
    for row in rows {
        put_members(names, channels, row.name.as_slice())?;
    }
    Ok(())
}

/// Adds the members of the channel of a name, if it is there.
fn put_members(
    names: &mut NameTable<Flags>,
    channels: &IndexedChannels,
    name: &[u8],
) -> Result<(), AllocError>
    ensures { OnOk result
        (Gains names.old names.new (λ fold. holds has_member channels.now fold (key name.now))) }
{
    put_rows(names, channels.members(name))
}

/// Adds the names of some rows.
fn put_rows(names: &mut NameTable<Flags>, rows: &[Row<Flags>]) -> Result<(), AllocError>
    ensures { OnOk result (Gains names.old names.new (is_one_of rows.now)) }
{
    for row in rows {
        put_name(names, row.name.as_slice())?;
    }
    Ok(())
}

/// Adds a name.
fn put_name(names: &mut NameTable<Flags>, name: &[u8]) -> Result<(), AllocError>
    requires { length name.now ≤ MAX_CHANNEL }
    ensures { OnOk result (Gains names.old names.new (λ fold. same_fold fold (key name.now))) }
{
    let flags = Flags {
        op: false,
        voice: false,
    };
    names.insert(name, flags)
}
