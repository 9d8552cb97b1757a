//! The changes that a room can undergo.
ghost use Rattle.std.specs.Prelude.{◌≡◌};

use irc_channels::Words;
use irc_line::Line;
use irc_modes::ModeChange;
use irc_names::{ChannelName, Nick};
use irc_users::{User, UserChange};
use std::alloc::Global;
use std::marker::Model;

/// Changes of modes that are made one after another.
#[derive(Drop)]
pub struct ModeChanges {
    changes: Vec<ModeChange, Global>,
}

/// In a clause it is the list of its changes.
impl Model for ModeChanges {
    ghost use Rattle.std.specs.Prelude.{List};
    ghost use Rattle.irc_modes.specs.declared.modes.ModeChange.{ModeChange};

    ghost Value = { List ModeChange };

    ghost view = { λ c. c.changes.items };
}

impl ModeChanges {
    /// These changes.
    pub fn new(changes: Vec<ModeChange, Global>) -> Self
        ensures { result ≡ changes.items }
    {
        ModeChanges { changes }
    }

    /// The changes, in order.
    pub fn as_slice(&self) -> &[ModeChange]
        ensures { result.now ≡ self.now }
    {
        self.changes.as_slice()
    }
}

/// Who changes a channel.
#[derive(Drop)]
pub enum By {
    /// The user with this nickname.
    User(Nick),
    /// A server: each viewer is shown its own.
    Home,
}

/// Whom a text is for.
#[derive(Drop)]
pub enum Target {
    /// The user with this nickname.
    User(Nick),
    /// All other members of this channel.
    Channel(ChannelName),
}

/// A change of a room, or a text that is said in it. Nothing else changes a room.
#[derive(Drop)]
pub enum Effect {
    /// A user registers (RFC 2812 section 3.1).
    AddUser(User),
    /// A user takes another nickname (RFC 2812 section 3.1.2).
    Rename {
        /// Who.
        nick: Nick,
        /// The new nickname, as spelled.
        new: Nick,
    },
    /// A user leaves (RFC 2812 section 3.1.7).
    Quit {
        /// Who.
        nick: Nick,
        /// Why.
        text: Words,
    },
    /// A user joins a channel, and makes it where it is not there (RFC 2812 section 3.2.1).
    Join {
        /// Who.
        nick: Nick,
        /// Which channel.
        channel: ChannelName,
        /// Whether it becomes an operator.
        op: bool,
    },
    /// A member leaves a channel (RFC 2812 section 3.2.2).
    Part {
        /// Who.
        nick: Nick,
        /// Which channel.
        channel: ChannelName,
        /// Why.
        text: Words,
    },
    /// A member is made to leave (RFC 2812 section 3.2.8).
    Kick {
        /// Who does it.
        by: Nick,
        /// Which channel.
        channel: ChannelName,
        /// Who leaves.
        nick: Nick,
        /// Why.
        text: Words,
    },
    /// A channel's modes change (RFC 2812 section 3.2.3).
    ChangeModes {
        /// Who does it.
        by: By,
        /// Which channel.
        channel: ChannelName,
        /// The changes, in order.
        changes: ModeChanges,
    },
    /// A channel's topic changes (RFC 2812 section 3.2.4).
    SetTopic {
        /// Who does it.
        by: By,
        /// Which channel.
        channel: ChannelName,
        /// The topic; an empty one is none.
        text: Words,
    },
    /// A text is sent (RFC 2812 section 3.3).
    Say {
        /// By whom.
        by: Nick,
        /// Whether it is a NOTICE.
        notice: bool,
        /// To whom.
        target: Target,
        /// What.
        text: Line,
    },
    /// A user is invited (RFC 2812 section 3.2.7).
    Invite {
        /// By whom.
        by: Nick,
        /// Who.
        nick: Nick,
        /// To which channel.
        channel: ChannelName,
    },
    /// A user changes what it has set of itself (RFC 2812 section 3.1.5).
    ChangeUser {
        /// Who.
        nick: Nick,
        /// What.
        change: UserChange,
    },
}
