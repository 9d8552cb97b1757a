//! What servers write to each other of what is done, and what they read, and that the one is read
//! as the other. What is handed on here stands in `irc_link_words`, `irc_link_reader` and
//! `irc_link_writer`; the laws about both sides are here, their definitions in `specs/`.
#![tactic(auto)]

pub mod laws;

pub use irc_link_reader::read_effect;
pub use irc_link_words::{MAX_NUMBER, MAX_NUMBER_DIGITS, WireFault};
pub use irc_link_writer::write_effect;
