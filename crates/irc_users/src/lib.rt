//! The users of a room.
#![tactic(auto)]

mod fault;
pub mod laws;
mod user;
mod user_change;
mod users;

pub use fault::{RenameFault, UsersFault};
pub use irc_names::{AwayText, RealName, UserName};
pub use user::{User, UserSet};
pub use user_change::UserChange;
pub use users::Users;
