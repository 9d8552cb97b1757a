//! The two tables of a room, and what a line or a viewer asks of them.
ghost use Rattle.std.specs.Prelude.{◌≡◌, ◌≤◌, length};
ghost use Rattle.std.specs.FinMap.{values};
ghost use Rattle.irc_line.specs.PartViews.{sender};
ghost use Rattle.irc_names.specs.Fold.{key};
ghost use Rattle.irc_names.specs.Limits.{max_channel};
ghost use Rattle.irc_users.specs.declared.user.User.{User};
ghost use Rattle.irc_channels.specs.Channels.{has_member};
ghost use Rattle.irc_effects.specs.Effects.{has_channel};
ghost use Rattle.irc_effects.specs.Laws.{no_room};
ghost use Rattle.irc_effects.specs.Room.{IsWellFormed};
ghost use Rattle.irc_effects.specs.Seen.{full_sender, stored_channel, stored_nick, target_name};

use crate::indexed_channels::IndexedChannels;
use irc_channels::Channel;
use irc_effects::Target;
use irc_line::Prefix;
use irc_names::{ChannelName, Nick};
use irc_users::{User, Users};
use std::alloc::Global;
use std::marker::Model;

/// The users of a room by nickname, and its channels by name.
#[derive(Drop)]
pub struct Tables {
    /// The users.
    pub users: Users,
    /// The channels.
    pub channels: IndexedChannels,
}

/// In a clause it is the room, which is well formed.
impl Model for Tables {
    ghost use Rattle.irc_room.specs.Codes.{room_code};
    ghost use Rattle.irc_effects.specs.Room.{Room, IsWellFormed};
    ghost use Rattle.irc_users.specs.UserTable.{users_code};
    ghost use Rattle.irc_channels.specs.contracts.channel.Channel.{the_row as channel_row};

    ghost Value = { Room };

    ghost coded = { room_code users_code channel_row.coded };

    ghost view = { λ tables. record { users = tables.users.users; channels = tables.channels } };

    ghost invariant = { λ tables. IsWellFormed
        (record { users = tables.users.users; channels = tables.channels }) };
}

impl Tables {
    /// No users and no channels.
    pub fn new(alloc: Global) -> Self
        ensures { result ≡ no_room }
    {
        Tables {
            users: Users::new(alloc),
            channels: IndexedChannels::new(alloc),
        }
    }

    /// How many users there are.
    pub fn user_count(&self) -> usize
        ensures { result ≡ length (values self.now.users) }
    {
        self.users.len()
    }

    /// That the room is well formed.
    pub fn know_well_formed(&self)
        ensures { IsWellFormed self.now }
    {
        let _users = &self.users;
    }

    /// The nickname that these bytes are under the fold, as it is stored, or the bytes as given
    /// where there is no such user.
    pub fn stored_nick<'a>(&'a self, nick: &'a [u8]) -> &'a [u8]
        ensures { result.now ≡ stored_nick self.now nick.now }
    {
        match self.users.find_named(nick) {
            Some(user) => user.nick.as_bytes(),
            None => nick,
        }
    }

    /// A channel's name as it is stored, or as it was given where there is no such channel.
    pub fn stored_channel<'a>(&'a self, channel: &'a ChannelName) -> &'a [u8]
        ensures name { result.now ≡ stored_channel self.now channel.now }
        ensures fits { length result.now ≤ max_channel }
    {
        match self.channels.find(channel.as_bytes()) {
            Some(found) => found.name.as_bytes(),
            None => channel.as_bytes(),
        }
    }

    /// The name of whom a text is for, as it is stored.
    pub fn target_name<'a>(&'a self, target: &'a Target) -> &'a [u8]
        ensures { result.now ≡ target_name self.now target.now }
    {
        match target {
            Target::User(nick) => self.stored_nick(nick.as_bytes()),
            Target::Channel(channel) => self.stored_channel(channel),
        }
    }

    /// Whether there is such a channel.
    pub fn has_channel(&self, channel: &ChannelName) -> bool
        ensures { result ≡ has_channel self.now channel.now }
    {
        self.channels.has(channel)
    }
}

/// Whether a channel has this member.
pub(crate) fn has_member(channel: &Channel, nick: &Nick) -> bool
    ensures { result ≡ has_member (key nick.now) channel.now }
{
    channel.members.get(nick.as_bytes()).is_some()
}

/// The prefix of a line that a user causes: `nick!user@host` (RFC 2812 section 2.3.1).
pub(crate) fn full_prefix(user: &User) -> Prefix<'_>
    ensures { sender result ≡ full_sender user.now }
{
    Prefix::Full {
        nick: user.nick.as_bytes(),
        user: user.user.as_bytes(),
        host: user.host.as_bytes(),
    }
}
