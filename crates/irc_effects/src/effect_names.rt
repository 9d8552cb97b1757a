//! Whom and what an effect names.
ghost use Rattle.std.specs.Prelude.{◌≡◌};
ghost use Rattle.std.specs.List.{filter_map};
ghost use Rattle.std.specs.Option.{option_copied};
ghost use Rattle.irc_effects.specs.Effects.{by_nick, doer_of, needs_channel, needs_other};
ghost use Rattle.irc_effects.specs.Effects.{needs_users, target_user};

use crate::effect::{By, Effect, Target};
use irc_names::{ChannelName, Nick};

impl Effect {
    /// The user that brings it about; none for a user that is added, and where a server changes a
    /// channel.
    pub fn doer(&self) -> Option<&Nick>
        ensures { option_copied result ≡ doer_of self.now }
    {
        match self {
            Effect::AddUser(_) => None,
            Effect::Rename { nick, .. }
            | Effect::Quit { nick, .. }
            | Effect::Join { nick, .. }
            | Effect::Part { nick, .. }
            | Effect::ChangeUser { nick, .. } => Some(nick),
            Effect::Kick { by, .. } | Effect::Invite { by, .. } | Effect::Say { by, .. } => {
                Some(by)
            }
            Effect::ChangeModes { by, .. } | Effect::SetTopic { by, .. } => by.nick(),
        }
    }

    /// The users that must be there, of which there are at most two.
    pub fn users(&self) -> [Option<&Nick>; 2]
        ensures { filter_map option_copied result ≡ needs_users self.now }
    {
        [self.doer(), self.other()]
    }

    /// The user that must be there besides the doer.
    pub fn other(&self) -> Option<&Nick>
        ensures { option_copied result ≡ needs_other self.now }
    {
        match self {
            Effect::Kick { nick, .. } | Effect::Invite { nick, .. } => Some(nick),
            Effect::Say { target, .. } => target.user(),
            _ => None,
        }
    }

    /// The channel that must be there; a Join makes it, and an Invite to none is only told.
    pub fn channel(&self) -> Option<&ChannelName>
        ensures { option_copied result ≡ needs_channel self.now }
    {
        match self {
            Effect::Part { channel, .. }
            | Effect::Kick { channel, .. }
            | Effect::ChangeModes { channel, .. }
            | Effect::SetTopic { channel, .. }
            | Effect::Say {
                target: Target::Channel(channel),
                ..
            } => Some(channel),
            _ => None,
        }
    }
}

impl By {
    /// The nickname of whoever does it; a server has none.
    pub fn nick(&self) -> Option<&Nick>
        ensures { option_copied result ≡ by_nick self.now }
    {
        match self {
            By::User(nick) => Some(nick),
            By::Home => None,
        }
    }
}

impl Target {
    /// The user that a text is for, if it is for one.
    pub fn user(&self) -> Option<&Nick>
        ensures { option_copied result ≡ target_user self.now }
    {
        match self {
            Target::User(nick) => Some(nick),
            Target::Channel(_) => None,
        }
    }
}
