//! The tables of a room after an effect, or once a channel was respelled.
ghost use Rattle.std.specs.Prelude.{◌≡◌, OnOk, OnErr};
ghost use Rattle.irc_effects.specs.After.{after, titled_by};
ghost use Rattle.irc_effects.specs.Effects.{IsPossible};
ghost use Rattle.irc_room.specs.Codes.{room_of};
ghost use Rattle.irc_effects.specs.Room.{IsWellFormed};

use crate::indexed_channels::IndexedChannels;
use crate::tables::Tables;
use irc_effects::Effect;
use irc_names::ChannelName;
use irc_users::Users;
use std::alloc::AllocError;

impl Tables {
    /// Makes an effect's change of users and channels.
    ///
    /// # Errors
    /// Where memory runs out; nothing has changed then.
    pub fn change(&mut self, effect: &Effect) -> Result<(), AllocError>
        requires { IsPossible self.old effect.now }
        ensures changed { OnOk result (self.new ≡ after self.old effect.now) }
        ensures refused { OnErr result (self.new ≡ self.old) }
    {
        change(&mut self.users, &mut self.channels, effect)
    }

    /// A channel's name is spelled as given, where that is greater by bytes. Where the channel is
    /// not there nothing changes. It takes no memory.
    pub fn respell(&mut self, channel: &ChannelName)
        ensures { self.new ≡ titled_by channel.now self.old }
    {
        self.channels.respell(channel);
    }
}

/// Makes an effect's change of users and channels.
///
/// # Errors
/// Where memory runs out; nothing has changed then.
#[tactic(auto, unfolding(irc_effects::specs::After::after))]
fn change(
    users: &mut Users,
    channels: &mut IndexedChannels,
    effect: &Effect,
) -> Result<(), AllocError>
    requires well { IsWellFormed (room_of users.old.users channels.old) }
    requires possible { IsPossible (room_of users.old.users channels.old) effect.now }
    ensures ok { OnOk result (room_of users.new.users channels.new
        ≡ after (room_of users.old.users channels.old) effect.now) }
    ensures refused { OnErr result ((users.new ≡ users.old) × (channels.new ≡ channels.old)) }
{
    match effect {
        Effect::AddUser(user) => users.add_free(user.copy()),
        Effect::Rename { nick, new } => channels.rename_user(users, nick, new),
        Effect::Quit { nick, .. } => {
            users.remove(nick);
            channels.remove_user(nick);
            Ok(())
        }
        Effect::Join { nick, channel, op } => channels.join(nick, channel, *op),
        Effect::Part { nick, channel, .. } | Effect::Kick { nick, channel, .. } => {
            channels.leave(nick, channel);
            Ok(())
        }
        Effect::ChangeModes {
            channel,
            changes,
            ..
        } => channels.change_modes(channel, changes),
        Effect::SetTopic { channel, text, .. } => {
            channels.set_topic(channel, text);
            Ok(())
        }
        Effect::Say { .. } => Ok(()),
        Effect::Invite { nick, channel, .. } => channels.invite(nick, channel),
        Effect::ChangeUser { nick, change } => {
            users.change(nick, change);
            Ok(())
        }
    }
}
