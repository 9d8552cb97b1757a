//! Lines in which servers tell each other of servers and of what they hold, and the burst that is
//! told to a new neighbour. Definitions are in `specs/`.
#![tactic(auto)]

mod bursting;
pub mod examples;
pub mod laws;
mod mode_line;
mod njoin_line;
mod server_lines;
mod set_modes;
mod telling;

pub use bursting::{burst, channel_burst};
pub use irc_link_reader::NewMember;
pub use mode_line::mode_text;
pub use njoin_line::njoin_text;
pub use server_lines::{kill_text, server_text, squit_text, topic_text};

/// How many members one NJOIN brings (our own choice).
pub const MEMBERS_A_LINE: usize = 10;

/// How many bans one MODE of a burst sets (our own choice).
pub const BANS_A_LINE: usize = 3;
