//! Why a room refuses an effect.
use thiserror::Error;

/// Why a room refuses an effect, in the order in which causes are looked for after
/// [`RoomFault::Failed`], and [`RoomFault::Memory`] last.
#[derive(Clone, Copy, Debug, Drop, Error, PartialEq, Eq)]
pub enum RoomFault {
    /// A user that the effect names is not there.
    #[error("no such user")]
    NoSuchUser,
    /// The channel that the effect names is not there.
    #[error("no such channel")]
    NoSuchChannel,
    /// Memory ran out. The room answers [`RoomFault::Failed`] from then on.
    #[error("out of memory")]
    Memory,
    /// Memory ran out before.
    #[error("the room has failed")]
    Failed,
}
