//! One server: what each event does to it, and what it puts out. A client says something, or a line
//! comes by a link, which is heard, done and told on. What holds of a server with links, whatever
//! happens, are the [`laws`]. Definitions are in `specs/`.
#![tactic(auto)]

mod acting;
mod config;
mod event;
mod heard;
mod hearing;
pub mod laws;
mod losing;
mod members;
mod quitting;
mod reading_settings;
mod server;
mod serving;
mod setting;
mod setting_done;
mod telling;

pub use config::{Config, ConfigFault, config_fault};
pub use event::{Event, ServerFault};
pub use irc_batch::CloseReason;
pub use irc_stage::{Client, Peer, Waiting};
pub use server::Server;
