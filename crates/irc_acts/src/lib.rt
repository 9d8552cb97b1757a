//! What all commands stand on: steps, the room ahead, comma lists, how a user stands to a channel,
//! and words of a client; and NAMES, whose lists JOIN sends to who joins.
#![tactic(auto)]

mod act;
pub mod ahead;
pub mod away;
pub mod comma_lists;
mod context;
mod name_lines;
pub mod names;
pub mod refusals;
pub mod standing;
pub mod words;

pub use act::{Act, only, put};
pub use context::Context;
