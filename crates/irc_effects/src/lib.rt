//! What a room is, and what an effect does there and shows: definitions, and their laws.
#![tactic(auto)]

mod effect;
mod effect_names;
pub mod examples;
mod fault;
pub mod invitation_laws;
pub mod laws;
mod shown_line;

pub use effect::{By, Effect, ModeChanges, Target};
pub use fault::RoomFault;
pub use shown_line::ShownLine;
