//! The commands of channels: by which users come to them, are invited, leave and are made to, and
//! MODE, by which channels, and users, are kept in order. What is asked for in one line is judged
//! piece by piece, each as those before it have left the channel.
#![tactic(auto)]

mod admission;
pub mod away;
mod channel_mode;
pub mod invite;
pub mod join;
mod judging;
mod kept_changes;
pub mod kick;
pub mod mode;
mod modes_shown;
pub mod part;
mod user_mode;
mod verdict;

pub use judging::judge;
pub use kept_changes::{KeptChanges, know_bans_rise};
pub use verdict::Verdict;

/// The most channels that a user is in by its own joining (our own choice).
pub const MAX_JOINED: usize = 10;
