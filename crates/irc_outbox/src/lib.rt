//! Bytes on their way to connections: outboxes, and the wire that carries them.
#![tactic(auto)]

mod memory;
mod outbox;
mod wire;

pub use memory::{MemoryWire, WireStep};
pub use outbox::{Outbox, Overflow};
pub use wire::{Got, IoFault, Notice, Ready, Unreached, Wire};
