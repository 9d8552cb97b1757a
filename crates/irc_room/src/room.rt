//! One room.
ghost use Rattle.std.specs.Prelude.{◌≡◌, ◌≤◌, ◌++◌, false, true, Some, None, length, map, IfOk};
ghost use Rattle.std.specs.Prelude.{[], OnOk, OnErr, if◌then◌else◌};
ghost use Rattle.std.specs.Option.{option_copied};
ghost use Rattle.std.specs.Result.{result_err};
ghost use Rattle.std.specs.FinMap.{entries, values};
ghost use Rattle.arrayvec.specs.ArrayVec.{array_vec_len};
ghost use Rattle.irc_line.specs.Bytes.{cut};
ghost use Rattle.irc_line.specs.Limits.{max_line};
ghost use Rattle.irc_names.specs.Fold.{key};
ghost use Rattle.irc_names.specs.Limits.{max_channel};
ghost use Rattle.irc_names.specs.Tables.{row};
ghost use Rattle.irc_tables.specs.RowViews.{row_entry};
ghost use Rattle.irc_channels.specs.ChannelTable.{members_in};
ghost use Rattle.irc_effects.specs.After.{after, titled_by};
ghost use Rattle.irc_effects.specs.Applying.{ServerRoom, Applied, Changed, IdleKeeps, IdleStays};
ghost use Rattle.irc_effects.specs.Applying.{ShowsHere};
ghost use Rattle.irc_effects.specs.Applying.{does, pairs_of, respelling_fault, room_fault};
ghost use Rattle.irc_effects.specs.Applying.{shown_here};
ghost use Rattle.irc_effects.specs.Effects.{brings_free, IsPossible};
ghost use Rattle.irc_effects.specs.Laws.{no_room};
ghost use Rattle.irc_room.specs.Loops.Naming.{IsNamed};
ghost use Rattle.irc_room.specs.Loops.Telling.{IsTold};
ghost use Rattle.irc_effects.specs.Readers.{user_at, channel_at, channels_of, flags_at};
ghost use Rattle.irc_effects.specs.Readers.{is_invited_at, is_visible_at, names_of, nicks_in};
ghost use Rattle.irc_effects.specs.Readers.{rows_now, spelling_at, users_now, users_of, viewers_of};
ghost use Rattle.irc_effects.specs.Room.{IsWellFormed};
ghost use Rattle.irc_effects.specs.Seen.{changes_text, stored_channel, stored_nick, target_name};

use crate::home_count::{staying, with_newcomer};
use crate::performing::put_out;
use crate::refusing::refusal;
use crate::{
    Effect, Named, RoomFault, ShownLine, Tables, Target, audience, does, effect_line, is_idle,
    member_nicks, push_changes,
};
use irc_channels::{Channel, Flags, Stored};
use irc_line::Text;
use irc_modes::ModeChange;
use irc_names::{ChannelName, Nick, ServerName};
use irc_tables::Row;
use irc_users::User;
use std::alloc::{AllocError, Global};
use std::marker::Model;

/// One room, as a server keeps it.
#[derive(Drop)]
pub struct Room {
    own: ServerName,
    failed: bool,
    tables: Tables,
    at_home: usize,
    alloc: Global,
}

/// In a clause it is whose room it is, whether memory ran out, and the room, which is well formed.
impl Model for Room {
    ghost use Rattle.irc_effects.specs.Applying.{ServerRoom};
    ghost use Rattle.irc_room.specs.Loops.HomeCount.{IsCounted};
    ghost use Rattle.irc_room.specs.ServerRoomCodes.{server_room_code};
    ghost use Rattle.irc_users.specs.UserTable.{users_code};
    ghost use Rattle.irc_channels.specs.contracts.channel.Channel.{the_row as channel_row};

    ghost Value = { ServerRoom };

    ghost coded = { server_room_code users_code channel_row.coded };

    ghost view = { λ r. record { own = r.own; failed = r.failed; room = r.tables } };

    ghost invariant = { λ r. IsCounted r.own r.at_home r.tables };
}

impl Room {
    /// The room of a server, with nobody in it.
    pub fn new(alloc: Global, own: ServerName) -> Self
        ensures { result ≡ record { own = own; failed = false; room = no_room } }
    {
        Room {
            own,
            failed: false,
            tables: Tables::new(alloc),
            at_home: 0,
            alloc,
        }
    }

    /// The server that keeps it.
    pub fn own(&self) -> &ServerName
        ensures name { result.now ≡ self.now.own }
        ensures well_formed { IsWellFormed self.now.room }
    {
        self.tables.know_well_formed();
        &self.own
    }

    /// The user whose nickname is the same as these bytes under the fold, which may be no nickname
    /// themselves.
    pub fn user(&self, name: &[u8]) -> Option<&User>
        ensures { option_copied result ≡ user_at self.now.room (key name.now) }
    {
        self.tables.users.find_named(name)
    }

    /// The nickname, as it is spelled, of the user that [`Room::user`] finds for these bytes.
    pub fn spelling(&self, name: &[u8]) -> Option<&Nick>
        ensures { option_copied result ≡ spelling_at self.now.room (key name.now) }
    {
        self.tables.users.spelling(name)
    }

    /// Whether the user that [`Room::user`] finds for these bytes is without mode i.
    pub fn is_visible(&self, name: &[u8]) -> Option<bool>
        ensures { result ≡ is_visible_at self.now.room (key name.now) }
    {
        self.tables.users.is_visible(name)
    }

    /// The channel whose name is the same as these bytes under the fold, which may be no channel's
    /// name themselves.
    pub fn channel(&self, name: &[u8]) -> Option<&Channel>
        ensures { option_copied result ≡ channel_at self.now.room (key name.now) }
    {
        self.tables.channels.find(name)
    }

    /// The flags of the user of a nickname in the channel of a name, where it is a member.
    pub fn member(&self, nick: &[u8], channel: &[u8]) -> Option<Flags>
        ensures { result ≡ flags_at self.now.room (key nick.now) (key channel.now) }
    {
        match self.tables.channels.find(channel) {
            Some(channel) => flags_in(channel, nick),
            None => None,
        }
    }

    /// Whether the user of a nickname is invited to the channel of a name.
    pub fn invited(&self, nick: &[u8], channel: &[u8]) -> bool
        ensures { result ≡ is_invited_at self.now.room (key nick.now) (key channel.now) }
    {
        match self.tables.channels.find(channel) {
            Some(channel) => channel.invited.get(nick).is_some(),
            None => false,
        }
    }

    /// All users, in folded order of their nicknames.
    ///
    /// # Errors
    /// Where memory runs out.
    pub fn users(&self) -> Result<Vec<&User, Global>, AllocError>
        ensures { IfOk result (λ found. users_now found.items ≡ values self.now.room.users) }
    {
        self.tables.users.in_order()
    }

    /// The users that are connected to a server, in folded order of their nicknames.
    ///
    /// # Errors
    /// Where memory runs out.
    pub fn users_at(&self, home: &ServerName) -> Result<Vec<&User, Global>, AllocError>
        ensures { IfOk result (λ found. users_now found.items ≡ users_of self.now.room home.now) }
    {
        self.tables.users.by_home(home)
    }

    /// How many users there are.
    pub fn user_count(&self) -> usize
        ensures { result ≡ length (values self.now.room.users) }
    {
        self.tables.user_count()
    }

    /// How many users are connected to a server. For the one that keeps the room no user is looked
    /// at.
    pub fn home_count(&self, home: &ServerName) -> usize
        ensures { result ≡ length (users_of self.now.room home.now) }
    {
        if self.own.as_bytes() == home.as_bytes() {
            self.at_home
        } else {
            self.tables.users.home_count(home)
        }
    }

    /// All channels, in folded order of their names.
    pub fn channels(&self) -> &[Row<Stored>]
        ensures { map row_entry result.now ≡ entries self.now.room.channels }
    {
        self.tables.channels.as_slice()
    }

    /// The channels that the user of a nickname is a member of, in folded order of their names.
    ///
    /// # Errors
    /// Where memory runs out.
    pub fn channels_of(&self, nick: &[u8]) -> Result<Vec<&Row<Stored>, Global>, AllocError>
        ensures { IfOk result (λ found. rows_now found.items ≡ channels_of self.now.room nick.now) }
    {
        self.tables.channels_of(self.alloc, nick)
    }

    /// The names of the channels that the user of a nickname is a member of, in folded order. No
    /// channel is looked at, so a name may be spelled otherwise than its channel.
    pub fn names_of(&self, nick: &[u8]) -> &[Row<()>]
        ensures { map (λ row. key row.name.items) result.now ≡ names_of self.now.room nick.now }
    {
        self.tables.channels.names_of(nick)
    }

    /// How many channels the user of a nickname is a member of. No channel is looked at.
    pub fn channel_count(&self, nick: &[u8]) -> usize
        ensures { result ≡ length (channels_of self.now.room nick.now) }
    {
        self.names_of(nick).len()
    }

    /// The members of the channel of a name with their flags, in folded order of their nicknames;
    /// none where there is no such channel.
    pub fn members_of(&self, channel: &[u8]) -> &[Row<Flags>]
        ensures { map row_entry result.now ≡ members_in
            (channel_at self.now.room (key channel.now)) }
    {
        self.tables.channels.members(channel)
    }

    /// Whether an effect does anything: whom and what it names is there, and it is no Join by a
    /// member, and no Part or Kick of somebody who is none. That is asked of the users and channels
    /// alone, also where memory ran out before.
    pub fn does(&self, effect: &Effect) -> bool
        ensures { result ≡ does self.now.room effect.now }
    {
        does(effect, self.tables.named(effect))
    }

    /// Finds what an effect names in the room.
    pub fn named(&self, effect: &Effect) -> Named<'_>
        ensures { IsNamed self.now.room effect.now result }
    {
        self.tables.named(effect)
    }

    /// The nicknames of all who see an effect, on whichever server, in folded order (RFC 2812
    /// section 3).
    ///
    /// # Errors
    /// Where memory runs out.
    pub fn audience(&self, effect: &Effect) -> Result<Vec<Nick, Global>, AllocError>
        ensures { IfOk result (λ viewers. viewers.items ≡ viewers_of self.now.room effect.now) }
    {
        audience(self.alloc, &self.tables, effect)
    }

    /// The nicknames of the members of a channel, on whichever server, in folded order; none where
    /// there is no such channel.
    ///
    /// # Errors
    /// Where memory runs out.
    pub fn member_nicks(&self, channel: &ChannelName) -> Result<Vec<Nick, Global>, AllocError>
        ensures { IfOk result (λ nicks. nicks.items ≡ nicks_in self.now.room channel.now) }
    {
        member_nicks(self.alloc, &self.tables, channel)
    }

    /// Writes the line that an effect shows to each user of the room's own server who sees it, with
    /// its CR LF (RFC 2812 section 2.3), and tells whether it shows one at all. Where it does not,
    /// the line is any. It takes no memory.
    pub fn write_line(&self, effect: &Effect, line: &mut Text) -> bool
        ensures { ShowsHere self.now effect.now (if result then Some line.new.items else None) }
    {
        self.write_named(effect, self.tables.named(effect), line)
    }

    /// The same line, of an effect that is known to name this in the room.
    pub fn write_named(&self, effect: &Effect, named: Named<'_>, line: &mut Text) -> bool
        ensures { IsNamed self.now.room effect.now named.entry
            → ShowsHere self.now effect.now (if result then Some line.new.items else None) }
    {
        effect_line(self.own.as_bytes(), &self.tables, effect, named, line)
    }

    /// The nickname that these bytes are under the fold, as it is stored, or the bytes as given
    /// where there is no such user.
    pub fn stored_nick<'a>(&'a self, nick: &'a [u8]) -> &'a [u8]
        ensures { result.now ≡ stored_nick self.now.room nick.now }
    {
        self.tables.stored_nick(nick)
    }

    /// A channel's name as it is stored, or as it was given where there is no such channel.
    pub fn stored_channel<'a>(&'a self, channel: &'a ChannelName) -> &'a [u8]
        ensures name { result.now ≡ stored_channel self.now.room channel.now }
        ensures fits { length result.now ≤ max_channel }
    {
        self.tables.stored_channel(channel)
    }

    /// The name of whom a text is for, as it is stored.
    pub fn target_name<'a>(&'a self, target: &'a Target) -> &'a [u8]
        ensures { result.now ≡ target_name self.now.room target.now }
    {
        self.tables.target_name(target)
    }

    /// Appends changes of modes as this room writes them (RFC 2812 section 3.2.3): the letters, and
    /// then each parameter behind a space, a member's nickname as it is stored. It takes no memory.
    pub fn push_changes(&self, line: &mut Text, changes: &[ModeChange])
        requires { array_vec_len line.old ≤ max_line }
        ensures pushed { line.new.items
            ≡ cut (line.old.items ++ changes_text self.now.room changes.now) }
        ensures still_cut { array_vec_len line.new ≤ max_line }
    {
        push_changes(&self.tables, line, changes);
    }

    /// Applies an effect: the room is the one after it, and `shown` is what it shows to the
    /// server's own users.
    ///
    /// The nickname of a user that is added is free, and so is the new one of a Rename, save that
    /// it may be the renamer's own.
    ///
    /// # Errors
    /// [`RoomFault::Failed`] where memory ran out before; [`RoomFault::NoSuchUser`] where a user
    /// that it names is not there; [`RoomFault::NoSuchChannel`] where the channel that it names is
    /// not there, but for a Join, which makes it, and an Invite.
    /// Nothing has changed then. [`RoomFault::Memory`] where memory runs out, which an effect that
    /// does nothing takes none of: the room answers Failed from then on. Nobody is shown anything
    /// in any of these.
    pub fn apply(&mut self, effect: &Effect, shown: &mut ShownLine) -> Result<(), RoomFault>
        requires { brings_free self.old.room effect.now ≡ true }
        ensures applied { Applied self.old effect.now result self.new shown.new }
        ensures idle { IdleStays self.old effect.now result self.new shown.new }
    {
        shown.viewers.clear();
        match self.tell(effect, shown) {
            Ok(true) => self.make_shown(effect, shown),
            Ok(false) => Ok(()),
            Err(RoomFault::Memory) => {
                shown.viewers.clear();
                self.failed = true;
                Err(RoomFault::Memory)
            }
            Err(fault) => Err(fault),
        }
    }

    /// Makes the change of an effect, and shows it to nobody: for a caller who knows who sees it.
    ///
    /// The nickname of a user that is added is free, and so is the new one of a Rename, save that
    /// it may be the renamer's own.
    ///
    /// # Errors
    /// [`RoomFault::Failed`] where memory ran out before; [`RoomFault::NoSuchUser`] where a user
    /// that it names is not there; [`RoomFault::NoSuchChannel`] where the channel that it names is
    /// not there, but for a Join, which makes it, and an Invite.
    /// Nothing has changed then. [`RoomFault::Memory`] where memory runs out, which an effect that
    /// does nothing takes none of: the room answers Failed from then on.
    pub fn change(&mut self, effect: &Effect) -> Result<(), RoomFault>
        requires { brings_free self.old.room effect.now ≡ true }
        ensures changed { Changed self.old effect.now result self.new }
        ensures idle { IdleKeeps self.old effect.now result self.new }
    {
        let named = self.tables.named(effect);
        if let Some(fault) = self.fault_of(effect, named) {
            return Err(fault);
        }
        if is_idle(effect, named) {
            return Ok(());
        }
        match self.make(effect) {
            Ok(()) => Ok(()),
            Err(_) => Err(RoomFault::Memory),
        }
    }

    /// Makes the change of an effect that is known to be possible, without looking once more for
    /// what it names, and shows it to nobody: for a caller who has looked, and who has asked
    /// whether the room serves. Unlike [`Room::change`] it may take memory for an effect that does
    /// nothing.
    ///
    /// # Errors
    /// Where memory runs out: [`Room::change`] answers [`RoomFault::Failed`] from then on.
    pub fn make(&mut self, effect: &Effect) -> Result<(), AllocError>
        requires alive { self.old.failed ≡ false }
        requires possible { IsPossible self.old.room effect.now }
        ensures ok { OnOk result
            (self.new ≡ record self.old { room = after self.old.room effect.now }) }
        ensures refused { OnErr result (self.new ≡ record self.old { failed = true }) }
    {
        let stay = staying(&self.own, &self.tables, self.at_home, effect);
        self.failed = true;
        match self.tables.change(effect) {
            Ok(()) => {
                self.failed = false;
                self.at_home = with_newcomer(&self.own, &self.tables, stay, effect);
                Ok(())
            }
            Err(error) => Err(error),
        }
    }

    /// Why the room refuses an effect that names this in it, if it does.
    fn fault_of(&self, effect: &Effect, named: Named<'_>) -> Option<RoomFault>
        ensures { IsNamed self.now.room effect.now named.entry
            → result ≡ room_fault self.now effect.now }
    {
        refusal(self.failed, effect, named)
    }

    /// Puts out what an effect shows, where the room does not refuse it, and tells whether it does
    /// anything: what it names is found once.
    ///
    /// # Errors
    /// Those of [`Room::apply`]. Where memory runs out nothing is promised of `shown`.
    fn tell(&self, effect: &Effect, shown: &mut ShownLine) -> Result<bool, RoomFault>
        requires { shown.old.viewers.items ≡ [] }
        ensures { IsTold self.now effect.now result shown.new }
    {
        let named = self.tables.named(effect);
        if let Some(fault) = self.fault_of(effect, named) {
            return Err(fault);
        }
        let Ok(busy) = put_out(self.own.as_bytes(), &self.tables, effect, named, shown) else {
            return Err(RoomFault::Memory);
        };
        Ok(busy)
    }

    /// Makes the change of an effect that `shown` shows; where memory runs out it is shown to
    /// nobody.
    fn make_shown(&mut self, effect: &Effect, shown: &mut ShownLine) -> Result<(), RoomFault>
        requires served { room_fault self.old effect.now ≡ None }
        requires free { brings_free self.old.room effect.now ≡ true }
        requires shown { pairs_of shown.old ≡ shown_here self.old effect.now }
        ensures { Applied self.old effect.now result self.new shown.new }
    {
        match self.make(effect) {
            Ok(()) => return Ok(()),
            Err(_) => shown.viewers.clear(),
        }
        Err(RoomFault::Memory)
    }

    /// A channel's name is spelled as given, where that is greater by bytes than the stored
    /// spelling: two sides of a network that had one channel in two spellings join it under the
    /// greater one. It is no effect: nobody does it, and nobody is shown anything. It takes no
    /// memory.
    ///
    /// # Errors
    /// [`RoomFault::Failed`] where memory ran out before; [`RoomFault::NoSuchChannel`] where the
    /// channel is not there. Nothing has changed then.
    pub fn respell(&mut self, channel: &ChannelName) -> Result<(), RoomFault>
        ensures fault { result_err result ≡ respelling_fault self.old channel.now }
        ensures ok { OnOk result
            (self.new ≡ record self.old { room = titled_by channel.now self.old.room }) }
        ensures refused { OnErr result (self.new ≡ self.old) }
    {
        if self.failed {
            return Err(RoomFault::Failed);
        }
        if !self.tables.has_channel(channel) {
            return Err(RoomFault::NoSuchChannel);
        }
        self.tables.respell(channel);
        Ok(())
    }
}

/// The flags of the user of a nickname in a channel.
fn flags_in(channel: &Channel, nick: &[u8]) -> Option<Flags>
    ensures { result ≡ row channel.now.members (key nick.now) }
{
    match channel.members.get(nick) {
        Some(flags) => Some(*flags),
        None => None,
    }
}
