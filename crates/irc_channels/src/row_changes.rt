//! What the calls on the channels do to one of them.
ghost use Rattle.std.specs.Prelude.{Some};
ghost use Rattle.irc_names.specs.Fold.{key};
ghost use Rattle.irc_channels.specs.Channels.{adds_none, has_member, is_invited, joined, left};
ghost use Rattle.irc_channels.specs.Channels.{without_user, renamed, invited_too, uninvited};
ghost use Rattle.irc_channels.specs.Channels.{with_topic, respelled, all_changed};

use crate::stored::Stored;
use crate::words::Words;
use irc_modes::ModeChange;
use irc_names::{ChannelName, Nick};
use irc_tables::{RowAttempt, RowChange};
use std::alloc::AllocError;

/// A user joins.
#[derive(Drop)]
pub(crate) struct Joining<'a> {
    pub nick: &'a Nick,
    pub op: bool,
}

impl<'a> RowAttempt<Stored> for Joining<'a> {
    ghost tried = { λ joining channel. joined (key joining.nick.now) joining.op channel };

    ghost surely = { λ joining channel. has_member (key joining.nick.now) channel };

    fn attempt(&self, stored: &mut Stored) -> Result<(), AllocError> {
        stored.channel.join(self.nick, self.op)
    }
}

/// A member leaves.
#[derive(Drop)]
pub(crate) struct Leaving<'a> {
    pub nick: &'a Nick,
}

impl<'a> RowChange<Stored> for Leaving<'a> {
    ghost changed = { λ leaving channel. left (key leaving.nick.now) channel };

    fn change(&self, stored: &mut Stored) -> bool {
        stored.channel.leave(self.nick)
    }
}

/// A user is gone.
#[derive(Drop)]
pub(crate) struct Forgetting<'a> {
    pub nick: &'a Nick,
}

impl<'a> RowChange<Stored> for Forgetting<'a> {
    ghost changed = { λ forgetting channel. without_user (key forgetting.nick.now) channel };

    fn change(&self, stored: &mut Stored) -> bool {
        stored.channel.forget(self.nick)
    }
}

/// A user has another nickname.
#[derive(Drop)]
pub(crate) struct Renaming<'a> {
    pub nick: &'a Nick,
    pub new: &'a Nick,
}

impl<'a> RowChange<Stored> for Renaming<'a> {
    ghost changed = { λ renaming channel.
        Some (renamed (key renaming.nick.now) (key renaming.new.now) channel) };

    fn change(&self, stored: &mut Stored) -> bool {
        stored.channel.rename(self.nick, self.new);
        true
    }
}

/// A user is invited.
#[derive(Drop)]
pub(crate) struct Inviting<'a> {
    pub nick: &'a Nick,
}

impl<'a> RowAttempt<Stored> for Inviting<'a> {
    ghost tried = { λ inviting channel. invited_too (key inviting.nick.now) channel };

    ghost surely = { λ inviting channel. is_invited (key inviting.nick.now) channel };

    fn attempt(&self, stored: &mut Stored) -> Result<(), AllocError> {
        stored.channel.invite(self.nick)
    }
}

/// An invitation is taken back.
#[derive(Drop)]
pub(crate) struct Uninviting<'a> {
    pub nick: &'a Nick,
}

impl<'a> RowChange<Stored> for Uninviting<'a> {
    ghost changed = { λ uninviting channel. Some (uninvited (key uninviting.nick.now) channel) };

    fn change(&self, stored: &mut Stored) -> bool {
        stored.channel.uninvite(self.nick);
        true
    }
}

/// The topic is another.
#[derive(Drop)]
pub(crate) struct TopicSetting<'a> {
    pub topic: &'a Words,
}

impl<'a> RowChange<Stored> for TopicSetting<'a> {
    ghost changed = { λ setting channel. Some (with_topic setting.topic.now channel) };

    fn change(&self, stored: &mut Stored) -> bool {
        stored.channel.set_topic(self.topic);
        true
    }
}

/// The name is spelled in the greater way of two.
#[derive(Drop)]
pub(crate) struct Respelling<'a> {
    pub name: &'a ChannelName,
}

impl<'a> RowChange<Stored> for Respelling<'a> {
    ghost changed = { λ respelling channel. Some (respelled respelling.name.now channel) };

    fn change(&self, stored: &mut Stored) -> bool {
        stored.channel.respell(self.name);
        true
    }
}

/// Modes are changed.
#[derive(Drop)]
pub(crate) struct Changing<'a> {
    pub changes: &'a [ModeChange],
}

impl<'a> RowAttempt<Stored> for Changing<'a> {
    ghost tried = { λ changing channel. all_changed changing.changes.now channel };

    ghost surely = { λ changing channel. adds_none changing.changes.now channel };

    fn attempt(&self, stored: &mut Stored) -> Result<(), AllocError> {
        stored.channel.change(self.changes)
    }
}
