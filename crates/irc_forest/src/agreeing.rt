//! Whether two halves of a network agree.
ghost use Rattle.std.specs.Prelude.{◌≡◌};
ghost use Rattle.std.specs.List.{list_all, list_any};
ghost use Rattle.irc_tables.specs.RowViews.{row_entry};
ghost use Rattle.irc_room.specs.Room.{IsWellFormed};
ghost use Rattle.irc_merge.specs.Agreeing.{agree};
ghost use Rattle.irc_forest.specs.Loops.AsTheyAre.{agrees_on, alike_if_left, is_left, survives};

use crate::alike::are_alike;
use irc_channels::{Channel, Flags, Stored};
use irc_room::Room;
use irc_tables::Row;

/// Whether two halves of a network agree: where each channel that both would still have, once every
/// user whose nickname is on both sides has quit (RFC 2812 section 3.7.1), has one name by bytes,
/// the same modes with key, limit and bans, and one topic. It makes no difference then which half
/// is named first where they become one. It takes no memory, and neither room changes.
pub fn agree(one: &Room, other: &Room) -> bool
    ensures { result ≡ agree one.now.room other.now.room }
{
    know_well_formed(one);
    know_well_formed(other);
    agree_on_all(one, other, one.channels())
}

/// Each room is well formed.
fn know_well_formed(room: &Room)
    ensures { IsWellFormed room.now.room }
{
    room.own();
}

/// Whether they agree on each of these channels of the first.
fn agree_on_all(one: &Room, other: &Room, channels: &[Row<Stored>]) -> bool
    ensures { result
        ≡ list_all (λ row. agrees_on one.now.room other.now.room (row_entry row)) channels.now }
{
    for row in channels {
        if !agrees_on(one, other, row) {
            return false;
        }
    }
    true
}

/// Whether they agree on a channel of the first.
fn agrees_on(one: &Room, other: &Room, row: &Row<Stored>) -> bool
    ensures { result ≡ agrees_on one.now.room other.now.room (row_entry row.now) }
{
    match other.channel(row.name.as_slice()) {
        Some(there) => alike_if_left(one, other, row.value.channel(), there),
        None => true,
    }
}

/// Whether two channels of one name are alike, if each of them is left where it is.
fn alike_if_left(one: &Room, other: &Room, here: &Channel, there: &Channel) -> bool
    ensures { result ≡ alike_if_left one.now.room other.now.room here.now there.now }
{
    if is_left(other, here) && is_left(one, there) {
        are_alike(here, there)
    } else {
        true
    }
}

/// Whether a channel is left once all of its members have quit whose nicknames the other half has
/// too.
fn is_left(other: &Room, channel: &Channel) -> bool
    ensures { result ≡ is_left other.now.room channel.now }
{
    some_survives(other, channel.members.as_slice())
}

/// Whether some of these members stays.
fn some_survives(other: &Room, members: &[Row<Flags>]) -> bool
    ensures { result ≡ list_any (λ row. survives other.now.room (row_entry row)) members.now }
{
    for member in members {
        if survives(other, member) {
            return true;
        }
    }
    false
}

/// Whether a member stays: the other half has nobody of its nickname.
fn survives(other: &Room, member: &Row<Flags>) -> bool
    ensures { result ≡ survives other.now.room (row_entry member.now) }
{
    other.user(member.name.as_slice()).is_none()
}
