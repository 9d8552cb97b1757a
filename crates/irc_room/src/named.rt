//! What an effect names, found once.
ghost use Rattle.std.specs.Prelude.{◌≡◌, ◌≤◌, length};
ghost use Rattle.std.specs.Option.{option_copied, option_map, option_map_or};
ghost use Rattle.irc_line.specs.PartViews.{sender};
ghost use Rattle.irc_names.specs.Limits.{max_channel};
ghost use Rattle.irc_users.specs.declared.user.User.{User};
ghost use Rattle.irc_channels.specs.declared.channel.Channel.{Channel};
ghost use Rattle.irc_effects.specs.Seen.{full_sender};
ghost use Rattle.irc_room.specs.Loops.Naming.{channel_of, is_in, mover_of, row_of, IsNamed};

use crate::tables::{Tables, full_prefix, has_member};
use irc_channels::Channel;
use irc_effects::Effect;
use irc_line::Prefix;
use irc_names::{ChannelName, Nick};
use irc_users::User;

/// What an effect names, as a room has it. It is found before the effect, and lent to all who ask
/// what of it is there.
#[derive(Clone, Copy, Drop)]
pub struct Named<'a> {
    /// The user that does it.
    pub doer: Option<&'a User>,
    /// The user that must be there besides.
    pub other: Option<&'a User>,
    /// The channel that it is about.
    pub channel: Option<&'a Channel>,
    /// Whether who comes into that channel by it, or goes, is a member of it.
    pub is_member: bool,
}

impl<'a> Named<'a> {
    /// The prefix of a line that comes from who does it, where that user is there.
    pub fn sender(self) -> Option<Prefix<'a>>
        ensures { option_map sender result
            ≡ option_map full_sender (option_copied self.entry.doer) }
    {
        match self.doer {
            Some(user) => Some(full_prefix(user)),
            None => None,
        }
    }

    /// The nickname of the other user as it is stored, or as given where it is not there.
    pub fn other_nick(self, nick: &'a Nick) -> &'a [u8]
        ensures { result.now ≡ option_map_or (λ (user : User). user.nick)
            (option_copied self.entry.other) nick.now }
    {
        match self.other {
            Some(user) => user.nick.as_bytes(),
            None => nick.as_bytes(),
        }
    }

    /// The nickname of the doer as it is stored, or as given where it is not there.
    pub fn doer_nick(self, nick: &'a Nick) -> &'a [u8]
        ensures { result.now ≡ option_map_or (λ (user : User). user.nick)
            (option_copied self.entry.doer) nick.now }
    {
        match self.doer {
            Some(user) => user.nick.as_bytes(),
            None => nick.as_bytes(),
        }
    }

    /// The channel's name as it is stored, or as given where it is not there.
    pub fn channel_name(self, channel: &'a ChannelName) -> &'a [u8]
        ensures name { result.now ≡ option_map_or (λ (found : Channel). found.name)
            (option_copied self.entry.channel) channel.now }
        ensures fits { length result.now ≤ max_channel }
    {
        match self.channel {
            Some(found) => found.name.as_bytes(),
            None => channel.as_bytes(),
        }
    }
}

impl Tables {
    /// Finds what an effect names.
    pub fn named<'a>(&'a self, effect: &Effect) -> Named<'a>
        ensures { IsNamed self.now effect.now result }
    {
        let channel = self.channel_if(channel_of(effect));
        Named {
            doer: self.user_if(effect.doer()),
            other: self.user_if(effect.other()),
            channel,
            is_member: is_in(channel, mover_of(effect)),
        }
    }

    /// The user of a nickname, where one is given and the user is there.
    fn user_if<'a>(&'a self, nick: Option<&Nick>) -> Option<&'a User>
        ensures { option_copied result ≡ row_of self.now.users (option_copied nick.entry) }
    {
        match nick {
            Some(nick) => self.users.find(nick),
            None => None,
        }
    }

    /// The channel of a name, where one is given and the channel is there.
    fn channel_if<'a>(&'a self, name: Option<&ChannelName>) -> Option<&'a Channel>
        ensures { option_copied result ≡ row_of self.now.channels (option_copied name.entry) }
    {
        match name {
            Some(name) => self.channels.find(name.as_bytes()),
            None => None,
        }
    }
}

/// The channel that an effect is about.
fn channel_of(effect: &Effect) -> Option<&ChannelName>
    ensures { option_copied result ≡ channel_of effect.now }
{
    match effect {
        Effect::Join { channel, .. } | Effect::Invite { channel, .. } => Some(channel),
        _ => effect.channel(),
    }
}

/// The nickname of who comes into a channel by an effect, or goes.
fn mover_of(effect: &Effect) -> Option<&Nick>
    ensures { option_copied result ≡ mover_of effect.now }
{
    match effect {
        Effect::Join { nick, .. } | Effect::Part { nick, .. } | Effect::Kick { nick, .. } => {
            Some(nick)
        }
        _ => None,
    }
}

/// Whether a user is a member of a channel, where there are both.
fn is_in(channel: Option<&Channel>, nick: Option<&Nick>) -> bool
    ensures { result ≡ is_in (option_copied channel.entry) (option_copied nick.entry) }
{
    let Some(nick) = nick else {
        return false;
    };
    match channel {
        Some(channel) => has_member(channel, nick),
        None => false,
    }
}
