//! What a server sets in a channel.
use irc_channels::Words;
use irc_names::{ChannelName, Nick, ServerName};
use irc_room::ModeChanges;

/// What a line of a server sets in a channel, as it is written.
#[derive(Drop)]
pub(crate) enum Setting {
    /// MODE: these changes are made.
    Modes {
        /// Whose line it is.
        server: ServerName,
        /// The channel.
        channel: ChannelName,
        /// The changes.
        changes: ModeChanges,
    },
    /// TOPIC: this is the topic.
    Topic {
        /// Whose line it is.
        server: ServerName,
        /// The channel.
        channel: ChannelName,
        /// The topic.
        text: Words,
    },
    /// NJOIN of nobody: the channel is spelled so, where that is the greater.
    Spelling {
        /// Whose line it is.
        server: ServerName,
        /// The channel, as the line spells it.
        channel: ChannelName,
    },
    /// KICK: a member is taken out.
    Removal {
        /// Whose line it is.
        server: ServerName,
        /// The channel.
        channel: ChannelName,
        /// The member's nickname, as it is stored.
        nick: Nick,
        /// The text with which it is shown to leave.
        text: Words,
    },
}
