//! The channels of a room, and in which of them each user is, and to which it is invited.
ghost use Rattle.std.specs.Prelude.{◌≡◌, None, Some, OnOk, OnErr, is_some, map};
ghost use Rattle.std.specs.Option.{option_copied, option_map, option_and_then};
ghost use Rattle.std.specs.FinMap.{empty, entries};
ghost use Rattle.irc_names.specs.Fold.{key};
ghost use Rattle.irc_names.specs.Tables.{row, alter, each};
ghost use Rattle.irc_tables.specs.RowViews.{row_entry};
ghost use Rattle.irc_users.specs.UserTable.{moved_to, rename_fault};
ghost use Rattle.irc_channels.specs.ChannelTable.{members_in};
ghost use Rattle.irc_channels.specs.Channels.{has_member, left, without_user, renamed, invited_too};
ghost use Rattle.irc_channels.specs.Channels.{with_topic, respelled, all_changed};
ghost use Rattle.irc_room.specs.Indexes.{entry_at, holds, is_uninvited, own_names};
ghost use Rattle.irc_room.specs.Indexes.{row_joined, with_row, AreInhabited, IsFreeOf};

use crate::gone::{forget_if_alone, remove_from_each, rename_in_each, rows_of};
use crate::name_index::NameIndex;
use irc_channels::{Channel, Channels, ChannelsFault, Flags, Stored, Words};
use irc_effects::ModeChanges;
use irc_names::{ChannelName, Nick};
use irc_tables::Row;
use irc_users::{RenameFault, Users};
use std::alloc::{AllocError, Global};
use std::marker::Model;

/// Channels, and by each user's nickname the names of those that it is a member of, and of those
/// that it is invited to.
#[derive(Drop)]
pub struct IndexedChannels {
    rows: Channels,
    joined: NameIndex,
    invited: NameIndex,
}

/// In a clause it is the table of its channels, each under the fold of its name.
impl Model for IndexedChannels {
    ghost use Rattle.irc_names.specs.Tables.{Table};
    ghost use Rattle.irc_tables.specs.FoldedRows.{coded_name};
    ghost use Rattle.irc_channels.specs.declared.channel.Channel.{Channel};
    ghost use Rattle.irc_channels.specs.contracts.channel.Channel.{the_row as channel_row};
    ghost use Rattle.irc_room.specs.Indexes.{AreIndexed};
    ghost use Rattle.std.specs.FinMap.{code};

    ghost Value = { Table Channel };

    ghost coded = { code coded_name channel_row.coded };

    ghost view = { λ channels. channels.rows };

    ghost invariant = { λ channels.
        AreIndexed channels.rows channels.joined.rows channels.invited.rows };
}

impl IndexedChannels {
    /// No channels.
    pub fn new(alloc: Global) -> Self
        ensures { result ≡ empty }
    {
        IndexedChannels {
            rows: Channels::new(alloc),
            joined: NameIndex::new(alloc),
            invited: NameIndex::new(alloc),
        }
    }

    /// The channel of a name, if there is one.
    pub fn find(&self, name: &[u8]) -> Option<&Channel>
        ensures { option_copied result ≡ row self.now (key name.now) }
    {
        self.rows.find(name)
    }

    /// The row of a channel's name, if there is such a channel.
    pub fn find_row(&self, name: &[u8]) -> Option<&Row<Stored>>
        ensures { option_map row_entry (option_copied result) ≡ entry_at self.now (key name.now) }
    {
        self.rows.find_row(name)
    }

    /// Whether there is a channel of a name.
    pub fn has(&self, name: &ChannelName) -> bool
        ensures { result ≡ is_some (row self.now (key name.now)) }
    {
        self.rows.has(name)
    }

    /// All channels, in folded order of their names.
    pub fn as_slice(&self) -> &[Row<Stored>]
        ensures { map row_entry result.now ≡ entries self.now }
    {
        self.rows.as_slice()
    }

    /// The members of a channel, in folded order of their nicknames; none where there is no such
    /// channel.
    pub fn members(&self, name: &[u8]) -> &[Row<Flags>]
        ensures { map row_entry result.now ≡ members_in (row self.now (key name.now)) }
    {
        self.rows.members(name)
    }

    /// The names of the channels that the user of a nickname is a member of, in folded order. No
    /// other channel is looked at.
    pub fn names_of(&self, nick: &[u8]) -> &[Row<()>]
        ensures { map row_entry result.now ≡ own_names (key nick.now) self.now }
    {
        self.joined.names(nick)
    }

    /// A user joins a channel, which is made where it is not there.
    ///
    /// # Errors
    /// Where memory runs out; no channel has changed then.
    pub fn join(&mut self, nick: &Nick, channel: &ChannelName, op: bool) -> Result<(), AllocError>
        ensures ok { OnOk result
            (self.new ≡ alter (key channel.now) (row_joined nick.now op channel.now) self.old) }
        ensures refused { OnErr result (self.new ≡ self.old) }
    {
        if is_in(&self.rows, nick, channel) {
            return Ok(());
        }
        self.joined.add(nick, channel)?;
        match self.rows.join(nick, channel, op) {
            Ok(()) => {
                self.invited.remove(nick.as_bytes(), channel.as_bytes());
                Ok(())
            }
            Err(_) => {
                self.joined.remove(nick.as_bytes(), channel.as_bytes());
                Err(AllocError)
            }
        }
    }

    /// A member leaves a channel. Where the user is no member, or the channel is not there, nothing
    /// changes. It takes no memory.
    pub fn leave(&mut self, nick: &Nick, channel: &ChannelName)
        ensures { self.new ≡ alter (key channel.now)
            (option_and_then (left (key nick.now))) self.old }
    {
        if !is_in(&self.rows, nick, channel) {
            return;
        }
        forget_if_alone(&self.rows, &mut self.invited, nick, channel.as_bytes());
        leave(&mut self.rows, nick, channel);
        self.joined.remove(nick.as_bytes(), channel.as_bytes());
    }

    /// A channel's modes change. Where the channel is not there nothing changes.
    ///
    /// # Errors
    /// Where memory runs out; nothing has changed then.
    pub fn change_modes(
        &mut self,
        channel: &ChannelName,
        changes: &ModeChanges,
    ) -> Result<(), AllocError>
        ensures ok { OnOk result
            (self.new ≡ with_row channel.now (all_changed changes.now) self.old) }
        ensures refused { OnErr result (self.new ≡ self.old) }
    {
        change_modes(&mut self.rows, channel, changes)
    }

    /// A channel's topic changes. Where the channel is not there nothing changes. It takes no
    /// memory.
    pub fn set_topic(&mut self, channel: &ChannelName, topic: &Words)
        ensures { self.new ≡ with_row channel.now (with_topic topic.now) self.old }
    {
        set_topic(&mut self.rows, channel, topic);
    }

    /// A channel's name is spelled as given, where that is greater by bytes. Where the channel is
    /// not there nothing changes. It takes no memory.
    pub fn respell(&mut self, channel: &ChannelName)
        ensures { self.new ≡ with_row channel.now (respelled channel.now) self.old }
    {
        respell(&mut self.rows, channel);
    }

    /// A user is invited. Where the channel is not there nothing changes.
    ///
    /// # Errors
    /// Where memory runs out; nothing has changed then.
    pub fn invite(&mut self, nick: &Nick, channel: &ChannelName) -> Result<(), AllocError>
        ensures ok { OnOk result
            (self.new ≡ with_row channel.now (invited_too (key nick.now)) self.old) }
        ensures refused { OnErr result (self.new ≡ self.old) }
    {
        if !can_be_invited(&self.rows, nick, channel) {
            return Ok(());
        }
        self.invited.add(nick, channel)?;
        match invite(&mut self.rows, nick, channel) {
            Ok(()) => Ok(()),
            Err(_) => {
                self.invited.remove(nick.as_bytes(), channel.as_bytes());
                Err(AllocError)
            }
        }
    }

    /// A user has another nickname, which nobody else has who is in a channel or invited to one,
    /// among all users and in its memberships and invitations. No other channel is looked at.
    ///
    /// # Errors
    /// Where memory runs out; nothing has changed then.
    pub fn rename_user(
        &mut self,
        users: &mut Users,
        nick: &Nick,
        new: &Nick,
    ) -> Result<(), AllocError>
        requires user { rename_fault users.old.users nick.now new.now ≡ None }
        requires free { IsFreeOf self.old (key nick.now) (key new.now) }
        ensures users { OnOk result (users.new.users ≡ moved_to nick.now new.now users.old.users) }
        ensures channels { OnOk result
            (self.new ≡ each (λ c. Some (renamed (key nick.now) (key new.now) c)) self.old) }
        ensures refused { OnErr result ((users.new ≡ users.old) × (self.new ≡ self.old)) }
    {
        self.joined.make_way(nick, new)?;
        self.invited.make_way(nick, new)?;
        rename(users, nick, new)?;
        rename_in_each(
            &mut self.rows,
            nick,
            new,
            self.joined.names(nick.as_bytes()),
        );
        rename_in_each(
            &mut self.rows,
            nick,
            new,
            self.invited.names(nick.as_bytes()),
        );
        self.joined.rename(nick, new);
        self.invited.rename(nick, new);
        Ok(())
    }

    /// A user is gone from all channels, and its invitations with it; each channel that it was the
    /// last member of ends. No other channel is looked at. It takes no memory.
    pub fn remove_user(&mut self, nick: &Nick)
        requires { AreInhabited self.old }
        ensures { self.new ≡ each (without_user (key nick.now)) self.old }
    {
        let joined = self.joined.take(nick.as_bytes());
        let invited = self.invited.take(nick.as_bytes());
        remove_from_each(&mut self.rows, &mut self.invited, nick, rows_of(&joined));
        remove_from_each(&mut self.rows, &mut self.invited, nick, rows_of(&invited));
    }
}

/// Whether a user is a member of a channel.
fn is_in(channels: &Channels, nick: &Nick, channel: &ChannelName) -> bool
    ensures { result ≡ holds has_member channels.now (key nick.now) (key channel.now) }
{
    match channels.find(channel.as_bytes()) {
        Some(channel) => channel.has_member(nick),
        None => false,
    }
}

/// Whether there is a channel, and a user is not invited to it.
fn can_be_invited(channels: &Channels, nick: &Nick, channel: &ChannelName) -> bool
    ensures { result ≡ holds is_uninvited channels.now (key nick.now) (key channel.now) }
{
    match channels.find(channel.as_bytes()) {
        Some(channel) => channel.invited.get(nick.as_bytes()).is_none(),
        None => false,
    }
}

/// A member leaves a channel. Where the user is no member, or the channel is not there, nothing
/// changes.
fn leave(channels: &mut Channels, nick: &Nick, channel: &ChannelName)
    ensures { channels.new ≡ alter (key channel.now)
        (option_and_then (left (key nick.now))) channels.old }
{
    let _ = channels.part(nick, channel);
}

/// A channel's modes change. Where the channel is not there nothing changes.
fn change_modes(
    channels: &mut Channels,
    channel: &ChannelName,
    changes: &ModeChanges,
) -> Result<(), AllocError>
    ensures ok { OnOk result
        (channels.new ≡ with_row channel.now (all_changed changes.now) channels.old) }
    ensures refused { OnErr result (channels.new ≡ channels.old) }
{
    match channels.change(channel, changes.as_slice()) {
        Ok(()) => Ok(()),
        Err(ChannelsFault::NoSuchChannel) => Ok(()),
        Err(ChannelsFault::NotMember) => Ok(()),
        Err(ChannelsFault::Memory) => Err(AllocError),
    }
}

/// A channel's topic changes. Where the channel is not there nothing changes.
fn set_topic(channels: &mut Channels, channel: &ChannelName, topic: &Words)
    ensures { channels.new ≡ with_row channel.now (with_topic topic.now) channels.old }
{
    let _ = channels.set_topic(channel, topic);
}

/// A channel's name is spelled in the greater of two ways. Where the channel is not there nothing
/// changes.
fn respell(channels: &mut Channels, channel: &ChannelName)
    ensures { channels.new ≡ with_row channel.now (respelled channel.now) channels.old }
{
    let _ = channels.respell(channel);
}

/// A user is invited. Where the channel is not there nothing changes.
fn invite(channels: &mut Channels, nick: &Nick, channel: &ChannelName) -> Result<(), AllocError>
    ensures ok { OnOk result
        (channels.new ≡ with_row channel.now (invited_too (key nick.now)) channels.old) }
    ensures refused { OnErr result (channels.new ≡ channels.old) }
{
    match channels.invite(nick, channel) {
        Ok(()) => Ok(()),
        Err(ChannelsFault::NoSuchChannel) => Ok(()),
        Err(ChannelsFault::NotMember) => Ok(()),
        Err(ChannelsFault::Memory) => Err(AllocError),
    }
}

/// Gives a user that is there another nickname, which no other user has. Where there is no memory
/// nothing has changed.
fn rename(users: &mut Users, nick: &Nick, new: &Nick) -> Result<(), AllocError>
    requires { rename_fault users.old.users nick.now new.now ≡ None }
    ensures ok { OnOk result (users.new.users ≡ moved_to nick.now new.now users.old.users) }
    ensures refused { OnErr result (users.new ≡ users.old) }
{
    match users.rename(nick, new) {
        Ok(()) => Ok(()),
        Err(RenameFault::Taken) => unreachable!(),
        Err(RenameFault::NoSuchUser) => unreachable!(),
        Err(RenameFault::Memory) => Err(AllocError),
    }
}
