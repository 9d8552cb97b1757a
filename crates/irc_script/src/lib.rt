//! Scripts of clients on networks of servers: how a script is read, what it asks of the network,
//! and what is printed.
#![tactic(auto)]

mod commands;
mod configs;
mod fault;
pub mod laws;
mod lines;
mod printing;
mod script;
mod script_run;
mod sim;
mod sink;

pub use fault::{SimFault, Trouble, Unwritten};
pub use sim::{MAX_READS, run_sim};
pub use sink::{MAX_WRITES, flush, write_whole};
