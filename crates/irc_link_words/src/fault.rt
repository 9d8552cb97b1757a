//! Why a line of a link is refused.
ghost use Rattle.std.specs.Prelude.{◌≡◌};
ghost use Rattle.irc_link_words.specs.Faults.{wire_fault};

use irc_batch::CloseReason;
use thiserror::Error;

/// Why a line of a link is refused, in the order in which causes are looked for.
#[derive(Clone, Copy, Debug, PartialEq, Eq, Error)]
pub enum WireFault {
    /// No line of a link has this command.
    #[error("unknown command")]
    UnknownCommand,
    /// There are too few or too many parameters, or one breaks its rule.
    #[error("wrong parameters")]
    Parameters,
    /// The number stands for no server.
    #[error("no such token")]
    BadToken,
    /// Whoever the line is from is not behind the link.
    #[error("wrong direction")]
    WrongDirection,
    /// A word that should be a name is none.
    #[error("no name")]
    BadName,
    /// Memory ran out.
    #[error("out of memory")]
    Memory,
}

impl From<CloseReason> for WireFault {
    ghost from_gives = { λ reason fault. fault ≡ wire_fault reason };

    fn from(reason: CloseReason) -> Self {
        match reason {
            CloseReason::UnknownCommand => WireFault::UnknownCommand,
            CloseReason::BadToken => WireFault::BadToken,
            CloseReason::WrongDirection => WireFault::WrongDirection,
            CloseReason::BadName => WireFault::BadName,
            _ => WireFault::Parameters,
        }
    }
}
