//! Names of channels.
ghost use Rattle.std.specs.Prelude.{◌≡◌, ◌≤◌, length, ⊤};
ghost use Rattle.std.specs.Option.{SomeIff};
ghost use Rattle.irc_names.specs.Names.{IsChannel};

use crate::name_bytes::NameBytes;
use crate::{MAX_CHANNEL, is_channel};
use std::alloc::AllocError;
use std::marker::Model;

/// The name of a channel: at most [`MAX_CHANNEL`] bytes that [`is_channel`] takes, as spelled. Two
/// are equal where their folds are, and stand in the order of their folds.
#[derive(Drop, Eq, Hash, Ord, PartialEq, PartialOrd)]
pub struct ChannelName(NameBytes<MAX_CHANNEL>);

/// In a clause it is the list of its bytes, of which its rule holds always.
impl Model for ChannelName {
    ghost use Rattle.std.specs.Prelude.{ℕ, List};
    ghost use Rattle.irc_names.specs.Names.{IsChannel};

    ghost Value = { List ℕ };

    ghost view = { λ channel. channel.0 };

    ghost invariant = { λ channel. IsChannel channel.0 };

    ghost inverse = { λ bytes. record { 0 = bytes } };
}

impl ChannelName {
    /// The channel's name that these bytes are, where [`is_channel`] takes them.
    #[tactic(auto, using(crate::specs::Lemmas::RuleFacts::lengths))]
    pub fn read(bytes: &[u8]) -> Option<Self>
        ensures { SomeIff result (IsChannel bytes.now) bytes.now }
    {
        if is_channel(bytes) {
            Some(ChannelName(NameBytes::of(bytes)))
        } else {
            None
        }
    }

    /// The bytes of the channel's name.
    pub fn as_bytes(&self) -> &[u8]
        ensures value { result.now ≡ self.now }
        ensures rule { IsChannel self.now }
        ensures fits { length result.now ≤ MAX_CHANNEL }
    {
        self.0.as_bytes()
    }

    /// The same channel's name once more. It takes no memory and cannot fail.
    pub fn copy(&self) -> Self
        ensures { result ≡ self.now }
    {
        ChannelName(NameBytes::of(self.as_bytes()))
    }
}

impl Clone for ChannelName {
    ghost is_clone = { λ channel clone. clone ≡ channel };

    ghost is_infallible = { λ _. ⊤ };

    fn clone(&self) -> Result<Self, AllocError> {
        Ok(self.copy())
    }
}
