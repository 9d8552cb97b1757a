//! An engine: it runs one server, or a machine around one, over a wire, as a program does over
//! sockets.
#![tactic(auto)]

mod altering;
mod boxed_framer;
mod connection_table;
mod connections;
mod engine;
mod kind;
mod lent_outbox;
mod machine;
mod noting;
mod outbox_pool;
mod telling;

pub use altering::Alteration;
pub use engine::{Engine, EngineFault};
pub use machine::Machine;
