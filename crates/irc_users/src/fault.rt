//! Why a change of the users is refused.
use thiserror::Error;

/// Why a user is not added.
#[derive(Clone, Copy, Debug, PartialEq, Eq, Error)]
pub enum UsersFault {
    /// A user with that nickname, by its fold, is there.
    #[error("the nickname is in use")]
    Taken,
    /// Memory ran out.
    #[error("out of memory")]
    Memory,
}

/// Why a user does not change its nickname.
#[derive(Clone, Copy, Debug, PartialEq, Eq, Error)]
pub enum RenameFault {
    /// Another user has the new nickname, by its fold.
    #[error("the nickname is in use")]
    Taken,
    /// No user has the old nickname, by its fold.
    #[error("no such user")]
    NoSuchUser,
    /// Memory ran out.
    #[error("out of memory")]
    Memory,
}
