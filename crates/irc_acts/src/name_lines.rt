//! The lines that name a channel's members (RFC 2812 section 5.1, reply 353).
ghost use Rattle.std.specs.Prelude.{◌≡◌, false, [], ◌∷◌, IfOk};
ghost use Rattle.irc_names.specs.Fold.{key};
ghost use Rattle.irc_tables.specs.FoldedRows.{IsInFoldedOrder, IsPlaceOf};
ghost use Rattle.irc_tables.specs.RowViews.{row_entry};
ghost use Rattle.irc_channels.specs.Channels.{has_member};
ghost use Rattle.irc_acts.specs.Steps.{AddsTo};
ghost use Rattle.irc_acts.specs.Names.{listed, name_line, name_lines};
ghost use Rattle.irc_acts.specs.Loops.NameLines.{is_shown, ArePartedAt, Fills, FillsEach};
ghost use Rattle.irc_acts.specs.Loops.NameLines.{FillsOne};

use crate::standing::{mark_of, visibility_of};
use crate::{Act, put};
use arrayvec::ArrayVec;
use irc_channels::{Channel, Flags};
use irc_names::{Nick, compare};
use irc_numerics::limits::MAX_NAMES;
use irc_numerics::{Listed, NameList, Reply};
use irc_room::Room;
use irc_tables::Row;
use std::alloc::{AllocError, Global};

/// The names of the line that is being filled.
pub(crate) type LineNames = ArrayVec<Listed, MAX_NAMES>;

/// Whose names are put into lines: those of a channel's members, of all or of those without mode i.
#[derive(Clone, Copy)]
pub(crate) struct Naming<'a> {
    pub(crate) room: &'a Room,
    pub(crate) channel: &'a Channel,
    pub(crate) all: bool,
}

/// A line of names.
fn name_line(alloc: Global, channel: &Channel, names: LineNames) -> Result<Act, AllocError>
    ensures { IfOk result (λ act. act ≡ name_line channel.now names.items) }
{
    let names = NameList::new(alloc, names)?;
    Ok(Act::Answer(Reply::NamReply {
        visibility: visibility_of(channel.modes.privacy),
        channel: channel.name.copy(),
        names,
    }))
}

/// Adds a name to the line; one that is full is sent before.
fn add_name(
    steps: &mut Vec<Act, Global>,
    held: &mut LineNames,
    channel: &Channel,
    name: Listed,
) -> Result<(), AllocError>
    ensures { Fills result channel.now (name ∷ []) steps.old held.old steps.new held.new }
{
    if held.is_full() {
        let act = name_line(*steps.allocator(), channel, held.take())?;
        put(steps, act)?;
    }
    held.push(name);
    Ok(())
}

/// Sends the last line, if there is a name for it.
pub(crate) fn finish(
    steps: &mut Vec<Act, Global>,
    held: LineNames,
    channel: &Channel,
) -> Result<(), AllocError>
    ensures { AddsTo result steps.old steps.new (name_lines channel.now held.items) }
{
    if held.as_slice().is_empty() {
        return Ok(());
    }
    let act = name_line(*steps.allocator(), channel, held)?;
    put(steps, act)
}

/// A member as it is listed, where all are named or it has no mode i.
fn listed(room: &Room, all: bool, name: &[u8], flags: Flags) -> Option<Listed>
    ensures { result ≡ listed room.now.room.users (is_shown all) (key name.now, flags) }
{
    match room.user(name) {
        Some(user) if all || !user.invisible => Some(Listed {
            mark: mark_of(flags),
            nick: user.nick.copy(),
        }),
        _ => None,
    }
}

/// Adds the name of the member with a nickname, if it is named.
pub(crate) fn add_member(
    steps: &mut Vec<Act, Global>,
    held: &mut LineNames,
    naming: &Naming<'_>,
    name: &[u8],
    flags: Flags,
) -> Result<(), AllocError>
    ensures { FillsOne result naming.now name.now flags steps.old held.old steps.new held.new }
{
    match listed(naming.room, naming.all, name, flags) {
        Some(name) => add_name(steps, held, naming.channel, name),
        None => Ok(()),
    }
}

/// Adds the names of some members.
pub(crate) fn add_members(
    steps: &mut Vec<Act, Global>,
    held: &mut LineNames,
    naming: &Naming<'_>,
    rows: &[Row<Flags>],
) -> Result<(), AllocError>
    ensures { FillsEach result naming.now rows.now steps.old held.old steps.new held.new }
{
    for row in rows {
        let name = row.name.as_slice();
        add_member(steps, held, naming, name, row.value)?;
    }
    Ok(())
}

/// The members before a nickname that none of them has and those behind it, in folded order.
pub(crate) fn parted_at<'a>(
    channel: &'a Channel,
    nick: &Nick,
) -> (&'a [Row<Flags>], &'a [Row<Flags>])
    requires { has_member (key nick.now) channel.now ≡ false }
    ensures { ArePartedAt (key nick.now) channel.now result.0.now result.1.now }
{
    let rows = channel.members.as_slice();
    match place_of(rows, nick.as_bytes()) {
        Ok(_) => unreachable!(),
        Err(place) => (&rows[..place], &rows[place..]),
    }
}

/// Where the member with a nickname stands, or where it would stand.
fn place_of(rows: &[Row<Flags>], nick: &[u8]) -> Result<usize, usize>
    requires { IsInFoldedOrder row_entry rows.now }
    ensures { IsPlaceOf row_entry rows.now (key nick.now) result }
{
    rows.binary_search_by(|row| compare(row.name.as_slice(), nick))
}
