//! Which channel the other end is asked to tell of.
ghost use Rattle.std.specs.Prelude.{◌≡◌};
ghost use Rattle.std.specs.Option.{option_and_then, option_copied};
ghost use Rattle.irc_line.specs.MessageViews.{parsed};
ghost use Rattle.irc_crossing.specs.Asking.{asked, asked_by, asked_message, begins_by};
ghost use Rattle.irc_crossing.specs.Asking.{may_have_ended, takes_out, tells_of};

use crate::change::Change;
use crate::hearing::is_same_prefix;
use crate::lines::change_of;
use crate::log::Log;
use irc_line::{Message, parse};
use irc_names::{ChannelName, same};

impl Log {
    /// The channel that the other end is asked to tell of, upon a line of its, without CR LF: one
    /// to which somebody comes, and which may have ended here, while it was there. `peer` is the
    /// name of the server there, and `is_held` is whether the channel is here as the line comes.
    pub fn asked(&self, line: &[u8], peer: &[u8], is_held: bool) -> Option<ChannelName>
        ensures { result ≡ asked self.now peer.now is_held line.now }
    {
        match parse(line) {
            Ok(message) => self.asked_message(&message, peer, is_held),
            Err(_) => None,
        }
    }

    pub(crate) fn asked_message(
        &self,
        message: &Message<'_>,
        peer: &[u8],
        is_held: bool,
    ) -> Option<ChannelName>
        ensures { result ≡ asked_message self.now peer.now is_held (parsed message.now) }
    {
        let is_own = is_same_prefix(Some(peer), message.prefix);
        self.asked_by(change_of(message), is_own, is_held)
    }

    fn asked_by(&self, change: Option<Change>, is_own: bool, is_held: bool) -> Option<ChannelName>
        ensures { result ≡ option_and_then (asked_by self.now is_own is_held) change }
    {
        match change? {
            Change::Join { channel, .. }
                if (!is_held || self.has_begun(&channel))
                    && self.may_have_ended(is_own, &channel) => { Some(channel) }
            _ => None,
        }
    }

    fn may_have_ended(&self, is_own: bool, channel: &ChannelName) -> bool
        ensures { result ≡ may_have_ended self.now is_own channel.now }
    {
        self.has_told_of(channel) || (!is_own && self.has_taken_out())
    }
}

/// Whether a channel has begun by a change, if there is one.
pub(crate) fn begins_by(channel: &ChannelName, change: Option<&Change>) -> bool
    ensures { result ≡ begins_by channel.now (option_copied change.entry) }
{
    match change {
        Some(
            Change::Join {
                channel: at,
                begins,
            },
        ) => *begins && same(channel.as_bytes(), at.as_bytes()),
        _ => false,
    }
}

/// Whether one tells of a channel.
pub(crate) fn tells_of(channel: &ChannelName, change: Option<&Change>) -> bool
    ensures { result ≡ tells_of channel.now (option_copied change.entry) }
{
    match change {
        Some(Change::Out { channel: at, .. } | Change::Join { channel: at, .. }) => {
            same(channel.as_bytes(), at.as_bytes())
        }
        Some(Change::Set(setting)) => setting.is_in(channel),
        _ => false,
    }
}

/// Whether one takes out of all channels, or may have.
pub(crate) fn takes_out(change: Option<&Change>) -> bool
    ensures { result ≡ takes_out (option_copied change.entry) }
{
    match change {
        None => true,
        Some(change) => matches!(change, Change::Go { .. }),
    }
}
