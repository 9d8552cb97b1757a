//! What goes with a user that is gone from its channels, or has another nickname in them.
ghost use Rattle.std.specs.Prelude.{◌≡◌, Some, not, map};
ghost use Rattle.std.specs.List.{list_any};
ghost use Rattle.irc_names.specs.Fold.{key, same};
ghost use Rattle.irc_tables.specs.declared.table.Row.{Row};
ghost use Rattle.irc_tables.specs.RowViews.{row_entry};
ghost use Rattle.irc_channels.specs.declared.flags.Flags.{Flags};
ghost use Rattle.irc_channels.specs.Channels.{renamed, without_user};
ghost use Rattle.irc_room.specs.Indexes.{folds_of, holds, is_alone, is_ended_with, is_named};
ghost use Rattle.irc_room.specs.Indexes.{names_in, DropsWhere, TellsOfOthers};
ghost use Rattle.irc_room.specs.Loops.InTurn.{changed_at, in_turn};

use crate::name_index::NameIndex;
use irc_channels::{Channel, Channels, Flags};
use irc_names::{Nick, same};
use irc_tables::{NameTable, Row};

/// The names that are there, in folded order.
pub(crate) fn rows_of(names: &Option<NameTable<()>>) -> &[Row<()>]
    ensures { map row_entry result.now ≡ names_in names.now }
{
    match names {
        Some(names) => names.as_slice(),
        None => &[],
    }
}

/// A user has another nickname in the channels of some names. It takes no memory.
pub(crate) fn rename_in_each(channels: &mut Channels, nick: &Nick, new: &Nick, names: &[Row<()>])
    ensures { channels.new
        ≡ in_turn (λ c. Some (renamed (key nick.now) (key new.now) c))
        (folds_of (map row_entry names.now)) channels.old }
{
    for name in names {
        channels.rename_in(nick, new, name.name.as_slice());
    }
}

/// A user is gone from the channels of some names. Those that it was the last member of end, and
/// nobody is invited to them any longer. The index tells of the invitations of all other users. It
/// takes no memory.
pub(crate) fn remove_from_each(
    channels: &mut Channels,
    invited: &mut NameIndex,
    nick: &Nick,
    names: &[Row<()>],
)
    requires { TellsOfOthers (key nick.now) channels.old invited.old.rows }
    ensures after { channels.new
        ≡ in_turn (without_user (key nick.now)) (folds_of (map row_entry names.now)) channels.old }
    ensures others { TellsOfOthers (key nick.now) channels.new invited.new.rows }
{
    for name in names {
        remove_from(channels, invited, nick, name.name.as_slice());
    }
}

/// A user is gone from one channel, as [`remove_from_each`] has it.
fn remove_from(channels: &mut Channels, invited: &mut NameIndex, nick: &Nick, name: &[u8])
    requires { TellsOfOthers (key nick.now) channels.old invited.old.rows }
    ensures after { channels.new ≡ changed_at (without_user (key nick.now)) channels.old
        (key name.now) }
    ensures others { TellsOfOthers (key nick.now) channels.new invited.new.rows }
{
    forget_if_alone(channels, invited, nick, name);
    channels.remove_from(nick, name);
}

/// Where nobody but a user is a member of a channel, all invitations to it are forgotten. It takes
/// no memory.
pub(crate) fn forget_if_alone(
    channels: &Channels,
    invited: &mut NameIndex,
    nick: &Nick,
    name: &[u8],
)
    ensures { DropsWhere (λ n. holds (is_ended_with (key nick.now)) channels.now n (key name.now))
        invited.old.rows invited.new.rows (key name.now) }
{
    match channels.find(name) {
        Some(channel) => {
            if is_alone(channel, nick) {
                forget_each(invited, channel.invited.as_slice(), name);
            }
        }
        None => {}
    }
}

/// Whether nobody but a user is a member of a channel.
fn is_alone(channel: &Channel, nick: &Nick) -> bool
    ensures { result ≡ is_alone (key nick.now) channel.now }
{
    !has_another(channel.members.as_slice(), nick.as_bytes())
}

/// Whether there is a member of another nickname.
fn has_another(members: &[Row<Flags>], nick: &[u8]) -> bool
    ensures { result ≡ list_any
        (λ (member : Row Flags). not (same member.name.items nick.now)) members.now }
{
    members
        .iter()
        .any(|member| !same(member.name.as_slice(), nick))
}

/// Takes a name out by each of some nicknames. It takes no memory.
fn forget_each(invited: &mut NameIndex, nicks: &[Row<()>], name: &[u8])
    ensures { DropsWhere (is_named (folds_of (map row_entry nicks.now))) invited.old.rows
        invited.new.rows (key name.now) }
{
    for nick in nicks {
        invited.remove(nick.name.as_slice(), name);
    }
}
