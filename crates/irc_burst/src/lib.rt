//! Lines of servers read as what they tell: servers that come and go, nicknames that two users
//! have, members and modes and topics of a burst. Definitions are in `specs/`.
#![tactic(auto)]

mod effect_deeds;
mod fault;
mod handshake;
mod kill_line;
pub mod laws;
mod member_words;
mod njoin_line;
mod reading;
mod server_lines;

pub use fault::BurstFault;
pub use handshake::read_handshake_line;
pub use irc_link_reader::{
    Deed, Killing, Loss, ModeSetting, NewMember, NewMembers, NewServer, Topic,
};
pub use reading::{read_burst_line, read_line};
