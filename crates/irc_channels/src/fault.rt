//! Why a change of the channels is refused.
use std::alloc::AllocError;
use thiserror::Error;

/// Why a change of the channels is refused.
#[derive(Clone, Copy, Debug, PartialEq, Eq, Error)]
pub enum ChannelsFault {
    /// There is no channel of that name, by its fold.
    #[error("no such channel")]
    NoSuchChannel,
    /// The user is no member of the channel.
    #[error("not a member of the channel")]
    NotMember,
    /// Memory ran out.
    #[error("out of memory")]
    Memory,
}

impl From<AllocError> for ChannelsFault {
    ghost use Rattle.std.specs.Prelude.{◌≡◌};
    ghost use Rattle.irc_channels.specs.declared.fault.ChannelsFault.TheVariants.{Memory};

    ghost from_gives = { λ _ fault. fault ≡ Memory };

    fn from(_: AllocError) -> Self {
        ChannelsFault::Memory
    }
}
