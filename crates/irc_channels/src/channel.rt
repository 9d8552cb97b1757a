//! A channel.
ghost use Rattle.std.specs.Prelude.{◌≡◌, false, not, Some, None, IsOk, IsTrue, OnOk, OnErr};
ghost use Rattle.std.specs.Prelude.{if◌then◌else◌};
ghost use Rattle.std.specs.List.{list_any};
ghost use Rattle.std.specs.FinMap.{keys};
ghost use Rattle.irc_names.specs.Fold.{key};
ghost use Rattle.irc_modes.specs.Modes.{adds_ban, is_nil};
ghost use Rattle.irc_channels.specs.Channels.{new_channel, has_member, joined, left, without_user};
ghost use Rattle.irc_channels.specs.Channels.{renamed, invited_too, is_invited, uninvited};
ghost use Rattle.irc_channels.specs.Channels.{with_topic, respelled, all_changed};

use crate::flags::Flags;
use crate::member_changing::change_members;
use crate::words::Words;
use irc_modes::{ModeChange, Modes};
use irc_names::{ChannelName, Nick};
use irc_tables::NameTable;
use std::alloc::{AllocError, Global};

/// A channel (RFC 2811 sections 2 to 4). In a table it stands under the fold of its name.
#[derive(Drop)]
pub struct Channel {
    /// Its name, as its maker spelled it, or in the greater of two spellings that were joined.
    pub name: ChannelName,
    /// Its modes.
    pub modes: Modes,
    /// Its topic; an empty one is none.
    pub topic: Words,
    /// The flags of its members, by nickname.
    pub members: NameTable<Flags>,
    /// Who is invited, by nickname.
    pub invited: NameTable<()>,
}

impl Channel {
    /// A channel that somebody makes, before anybody is in it: nothing is set.
    #[tactic(auto, unfolding(crate::specs::Texts::cut_words))]
    pub fn new(alloc: Global, name: &ChannelName) -> Self
        ensures { result ≡ new_channel name.now }
    {
        Channel {
            name: name.copy(),
            modes: Modes::none(alloc),
            topic: Words::cut(&[]),
            members: NameTable::new(alloc),
            invited: NameTable::new(alloc),
        }
    }

    /// Whether the user with a nickname is a member.
    pub fn has_member(&self, nick: &Nick) -> bool
        ensures { result ≡ has_member (key nick.now) self.now }
    {
        self.members.get(nick.as_bytes()).is_some()
    }

    /// Whether there is a member.
    pub fn has_members(&self) -> bool
        ensures { result ≡ not (is_nil (keys self.now.members)) }
    {
        self.members.len() > 0
    }

    /// A user joins, and its invitation is used up; one who is a member already changes nothing,
    /// and takes no memory. Where there is no memory nothing has changed.
    ///
    /// # Errors
    /// Where memory runs out; nothing has changed then.
    pub fn join(&mut self, nick: &Nick, op: bool) -> Result<(), AllocError>
        ensures ok { OnOk result (self.new ≡ joined (key nick.now) op self.old) }
        ensures refused { OnErr result (self.new ≡ self.old) }
        ensures member { IsTrue (has_member (key nick.now) self.old) → IsOk result }
    {
        if self.has_member(nick) {
            return Ok(());
        }
        let flags = Flags { op, voice: false };
        self.members.insert(nick.as_bytes(), flags)?;
        self.invited.remove(nick.as_bytes());
        Ok(())
    }

    /// A member leaves; one who is none changes nothing. Tells whether the channel stays: it ends
    /// when its last member leaves (RFC 2811 section 3).
    pub fn leave(&mut self, nick: &Nick) -> bool
        ensures { left (key nick.now) self.old ≡ (if result then Some self.new else None) }
    {
        if !self.has_member(nick) {
            return true;
        }
        self.members.remove(nick.as_bytes());
        self.has_members()
    }

    /// A user is gone, and its invitation too. Tells whether the channel stays, which ends where no
    /// member is left.
    pub fn forget(&mut self, nick: &Nick) -> bool
        ensures { without_user (key nick.now) self.old ≡ (if result then Some self.new else None) }
    {
        self.members.remove(nick.as_bytes());
        self.invited.remove(nick.as_bytes());
        self.has_members()
    }

    /// A user has another nickname, and its membership and invitation with it. It takes no memory.
    pub fn rename(&mut self, nick: &Nick, new: &Nick)
        ensures { self.new ≡ renamed (key nick.now) (key new.now) self.old }
    {
        self.members.rename(nick.as_bytes(), new.as_bytes());
        self.invited.rename(nick.as_bytes(), new.as_bytes());
    }

    /// A user is invited; one who is invited already takes no memory. Where there is no memory
    /// nothing has changed.
    ///
    /// # Errors
    /// Where memory runs out; nothing has changed then.
    pub fn invite(&mut self, nick: &Nick) -> Result<(), AllocError>
        ensures ok { OnOk result (self.new ≡ invited_too (key nick.now) self.old) }
        ensures refused { OnErr result (self.new ≡ self.old) }
        ensures there { IsTrue (is_invited (key nick.now) self.old) → IsOk result }
    {
        self.invited.insert(nick.as_bytes(), ())
    }

    /// An invitation is taken back; where there is none nothing changes.
    pub fn uninvite(&mut self, nick: &Nick)
        ensures { self.new ≡ uninvited (key nick.now) self.old }
    {
        self.invited.remove(nick.as_bytes());
    }

    /// The topic is another.
    pub fn set_topic(&mut self, topic: &Words)
        ensures { self.new ≡ with_topic topic.now self.old }
    {
        self.topic = topic.copy();
    }

    /// The name is spelled as given, where that is greater by bytes; nothing else changes.
    pub fn respell(&mut self, name: &ChannelName)
        ensures { self.new ≡ respelled name.now self.old }
    {
        if self.name.as_bytes().cmp(name.as_bytes()).is_lt() {
            self.name = name.copy();
        }
    }

    /// Changes modes, of the channel and of its members, one after another. Only a ban that is
    /// added takes memory; where there is none nothing has changed.
    ///
    /// # Errors
    /// Where memory runs out; nothing has changed then.
    #[tactic(auto, using(crate::proofs::ChangesParted::all_parted))]
    pub fn change(&mut self, changes: &[ModeChange]) -> Result<(), AllocError>
        ensures ok { OnOk result (self.new ≡ all_changed changes.now self.old) }
        ensures refused { OnErr result (self.new ≡ self.old) }
        ensures none_added { list_any (adds_ban self.old.modes.bans) changes.now ≡ false
            → IsOk result }
    {
        self.modes.change(changes)?;
        change_members(&mut self.members, changes);
        Ok(())
    }
}
