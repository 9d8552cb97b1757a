//! The channels of a room, by name.
ghost use Rattle.std.specs.Prelude.{◌≡◌, Some, None, OnErr, is_some, map};
ghost use Rattle.std.specs.Option.{option_copied, option_map, option_and_then};
ghost use Rattle.std.specs.Result.{result_err};
ghost use Rattle.std.specs.FinMap.{empty, entries};
ghost use Rattle.irc_names.specs.Fold.{key};
ghost use Rattle.irc_names.specs.Tables.{alter, row, each};
ghost use Rattle.irc_tables.specs.RowViews.{row_entry};
ghost use Rattle.irc_channels.specs.Channels.{adds_none, has_member, is_invited, left};
ghost use Rattle.irc_channels.specs.Channels.{without_user, renamed, invited_too, uninvited};
ghost use Rattle.irc_channels.specs.Channels.{with_topic, respelled, all_changed};
ghost use Rattle.irc_channels.specs.ChannelTable.{entry_at, fault_at, joined_or_made};
ghost use Rattle.irc_channels.specs.ChannelTable.{leaving_fault_at, members_in, Alters};
ghost use Rattle.irc_channels.specs.ChannelTable.{GoesWellWhere, IsOwedOrMemory};

use crate::channel::Channel;
use crate::fault::ChannelsFault;
use crate::flags::Flags;
use crate::row_changes::{
    Changing, Forgetting, Inviting, Joining, Leaving, Renaming, Respelling, TopicSetting,
    Uninviting,
};
use crate::stored::Stored;
use crate::words::Words;
use irc_modes::ModeChange;
use irc_names::{ChannelName, Nick};
use irc_tables::{NameTable, Row};
use std::alloc::{AllocError, Global};
use std::marker::Model;

/// Channels, no two of which have one name by the fold.
#[derive(Drop)]
pub struct Channels {
    alloc: Global,
    rows: NameTable<Stored>,
}

/// In a clause it is the table of its channels, each under the fold of its name.
impl Model for Channels {
    ghost use Rattle.irc_names.specs.Tables.{Table};
    ghost use Rattle.irc_tables.specs.FoldedRows.{coded_name};
    ghost use Rattle.irc_channels.specs.declared.channel.Channel.{Channel};
    ghost use Rattle.irc_channels.specs.contracts.channel.Channel as channel;
    ghost use Rattle.std.specs.FinMap.{code};

    ghost Value = { Table Channel };

    ghost coded = { code coded_name channel.the_row.coded };

    ghost view = { λ channels. channels.rows };
}

impl Channels {
    /// No channels.
    pub fn new(alloc: Global) -> Self
        ensures { result ≡ empty }
    {
        Channels {
            alloc,
            rows: NameTable::new(alloc),
        }
    }

    /// The channel of a name, if there is one.
    pub fn find(&self, name: &[u8]) -> Option<&Channel>
        ensures { option_copied result ≡ row self.now (key name.now) }
    {
        match self.rows.get(name) {
            Some(stored) => Some(stored.channel()),
            None => None,
        }
    }

    /// The row of a channel's name, if there is such a channel.
    pub fn find_row(&self, name: &[u8]) -> Option<&Row<Stored>>
        ensures { option_map row_entry (option_copied result) ≡ entry_at self.now name.now }
    {
        self.rows.get_row(name)
    }

    /// Whether there is a channel of a name.
    pub fn has(&self, name: &ChannelName) -> bool
        ensures { result ≡ is_some (row self.now (key name.now)) }
    {
        self.find(name.as_bytes()).is_some()
    }

    /// All channels, in folded order of their names.
    pub fn as_slice(&self) -> &[Row<Stored>]
        ensures { map row_entry result.now ≡ entries self.now }
    {
        self.rows.as_slice()
    }

    /// The members of a channel, in folded order of their nicknames; none where there is no such
    /// channel.
    pub fn members(&self, name: &[u8]) -> &[Row<Flags>]
        ensures { map row_entry result.now ≡ members_in (row self.now (key name.now)) }
    {
        match self.find(name) {
            Some(channel) => channel.members.as_slice(),
            None => &[],
        }
    }

    /// A user joins a channel, which is made where it is not there, as it is spelled here (RFC 2812
    /// section 3.2.1). One who is a member already changes nothing, and takes no memory.
    ///
    /// # Errors
    /// [`ChannelsFault::Memory`] where memory runs out. Nothing has changed then.
    pub fn join(
        &mut self,
        nick: &Nick,
        channel: &ChannelName,
        op: bool,
    ) -> Result<(), ChannelsFault>
        ensures fault { IsOwedOrMemory None (result_err result) }
        ensures ok { Alters result channel.now
            (joined_or_made nick.now op channel.now) self.old self.new }
        ensures refused { OnErr result (self.new ≡ self.old) }
        ensures member { GoesWellWhere (has_member (key nick.now)) channel.now self.old result }
    {
        if self.has(channel) {
            self.rows.try_at(channel.as_bytes(), &Joining { nick, op })?;
            return Ok(());
        }
        let mut made = Channel::new(self.alloc, channel);
        made.join(nick, op)?;
        let stored = Stored::new(self.alloc, made)?;
        self.rows.insert(channel.as_bytes(), stored)?;
        Ok(())
    }

    /// A member leaves a channel, which ends with its last member (RFC 2811 section 3). It takes no
    /// memory.
    ///
    /// # Errors
    /// [`ChannelsFault::NoSuchChannel`] where the channel is not there, then
    /// [`ChannelsFault::NotMember`] where the user is no member of it. Nothing has changed then.
    pub fn part(&mut self, nick: &Nick, channel: &ChannelName) -> Result<(), ChannelsFault>
        ensures fault { result_err result ≡ leaving_fault_at nick.now self.old channel.now }
        ensures ok { Alters result channel.now
            (option_and_then (left (key nick.now))) self.old self.new }
        ensures refused { OnErr result (self.new ≡ self.old) }
    {
        let Some(found) = self.find(channel.as_bytes()) else {
            return Err(ChannelsFault::NoSuchChannel);
        };
        if !found.has_member(nick) {
            return Err(ChannelsFault::NotMember);
        }
        self.rows.change_at(channel.as_bytes(), &Leaving { nick });
        Ok(())
    }

    /// Changes modes of a channel and of its members, one after another (RFC 2811 section 4). Only
    /// a ban that is added takes memory.
    ///
    /// # Errors
    /// [`ChannelsFault::NoSuchChannel`] where the channel is not there,
    /// [`ChannelsFault::Memory`] where memory runs out. Nothing has changed then.
    pub fn change(
        &mut self,
        channel: &ChannelName,
        changes: &[ModeChange],
    ) -> Result<(), ChannelsFault>
        ensures fault { IsOwedOrMemory (fault_at self.old channel.now) (result_err result) }
        ensures ok { Alters result channel.now
            (option_map (all_changed changes.now)) self.old self.new }
        ensures refused { OnErr result (self.new ≡ self.old) }
        ensures none_added { GoesWellWhere (adds_none changes.now) channel.now self.old result }
    {
        if !self.has(channel) {
            return Err(ChannelsFault::NoSuchChannel);
        }
        self.rows.try_at(channel.as_bytes(), &Changing { changes })?;
        Ok(())
    }

    /// Gives a channel another topic. It takes no memory.
    ///
    /// # Errors
    /// [`ChannelsFault::NoSuchChannel`] where the channel is not there. Nothing has changed then.
    pub fn set_topic(&mut self, channel: &ChannelName, topic: &Words) -> Result<(), ChannelsFault>
        ensures fault { result_err result ≡ fault_at self.old channel.now }
        ensures ok { Alters result channel.now
            (option_map (with_topic topic.now)) self.old self.new }
        ensures refused { OnErr result (self.new ≡ self.old) }
    {
        if !self.has(channel) {
            return Err(ChannelsFault::NoSuchChannel);
        }
        self.rows
            .change_at(channel.as_bytes(), &TopicSetting { topic });
        Ok(())
    }

    /// A channel's name is spelled as given, where that is greater by bytes than the stored
    /// spelling. So of two spellings the greater stays, whichever was there first. It takes no
    /// memory.
    ///
    /// # Errors
    /// [`ChannelsFault::NoSuchChannel`] where the channel is not there. Nothing has changed then.
    pub fn respell(&mut self, channel: &ChannelName) -> Result<(), ChannelsFault>
        ensures fault { result_err result ≡ fault_at self.old channel.now }
        ensures ok { Alters result channel.now (option_map (respelled channel.now))
            self.old self.new }
        ensures refused { OnErr result (self.new ≡ self.old) }
    {
        if !self.has(channel) {
            return Err(ChannelsFault::NoSuchChannel);
        }
        self.rows
            .change_at(channel.as_bytes(), &Respelling { name: channel });
        Ok(())
    }

    /// Invites a user to a channel. One who is invited already takes no memory.
    ///
    /// # Errors
    /// [`ChannelsFault::NoSuchChannel`] where the channel is not there,
    /// [`ChannelsFault::Memory`] where memory runs out. Nothing has changed then.
    pub fn invite(&mut self, nick: &Nick, channel: &ChannelName) -> Result<(), ChannelsFault>
        ensures fault { IsOwedOrMemory (fault_at self.old channel.now) (result_err result) }
        ensures ok { Alters result channel.now
            (option_map (invited_too (key nick.now))) self.old self.new }
        ensures refused { OnErr result (self.new ≡ self.old) }
        ensures there { GoesWellWhere (is_invited (key nick.now)) channel.now self.old result }
    {
        if !self.has(channel) {
            return Err(ChannelsFault::NoSuchChannel);
        }
        self.rows.try_at(channel.as_bytes(), &Inviting { nick })?;
        Ok(())
    }

    /// Takes the invitation of a user to a channel back; where there is none nothing changes. It
    /// takes no memory.
    ///
    /// # Errors
    /// [`ChannelsFault::NoSuchChannel`] where the channel is not there. Nothing has changed then.
    pub fn uninvite(&mut self, nick: &Nick, channel: &ChannelName) -> Result<(), ChannelsFault>
        ensures fault { result_err result ≡ fault_at self.old channel.now }
        ensures ok { Alters result channel.now
            (option_map (uninvited (key nick.now))) self.old self.new }
        ensures refused { OnErr result (self.new ≡ self.old) }
    {
        if !self.has(channel) {
            return Err(ChannelsFault::NoSuchChannel);
        }
        self.rows
            .change_at(channel.as_bytes(), &Uninviting { nick });
        Ok(())
    }

    /// A user has another nickname, and its memberships and invitations with it. It takes no
    /// memory.
    pub fn rename_member(&mut self, nick: &Nick, new: &Nick)
        ensures { self.new ≡ each (λ c. Some (renamed (key nick.now) (key new.now) c)) self.old }
    {
        self.rows.change_each(&Renaming { nick, new });
    }

    /// A member of one channel, or one invited to it, has another nickname. Where the channel is
    /// not there nothing changes. It takes no memory.
    pub fn rename_in(&mut self, nick: &Nick, new: &Nick, channel: &[u8])
        ensures { self.new ≡ alter (key channel.now)
            (option_and_then (λ c. Some (renamed (key nick.now) (key new.now) c))) self.old }
    {
        self.rows.change_at(channel, &Renaming { nick, new });
    }

    /// A user is gone from all channels, and its invitations with it; each channel that it was the
    /// last member of ends. It takes no memory.
    pub fn remove_user(&mut self, nick: &Nick)
        ensures { self.new ≡ each (without_user (key nick.now)) self.old }
    {
        self.rows.change_each(&Forgetting { nick });
    }

    /// A user is gone from one channel, and its invitation with it; the channel ends where it has
    /// no member then. Where the channel is not there nothing changes. It takes no memory.
    pub fn remove_from(&mut self, nick: &Nick, channel: &[u8])
        ensures { self.new ≡ alter (key channel.now)
            (option_and_then (without_user (key nick.now))) self.old }
    {
        self.rows.change_at(channel, &Forgetting { nick });
    }
}
