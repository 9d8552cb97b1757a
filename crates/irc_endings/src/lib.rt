//! What the words of the command line ask for, and how the program ends: what it says then, and its
//! exit status.
#![tactic(auto)]

mod ending;
mod fault;
pub mod laws;
mod ready;
mod words;

pub use ending::{end_with, stop_with};
pub use fault::{MAX_BAD_SCRIPT, Stop};
pub use irc_script::{SimFault, run_sim};
pub use ready::say_ready;
pub use words::{Task, words_given};
