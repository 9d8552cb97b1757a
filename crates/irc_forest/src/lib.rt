//! The servers of a network, the links between them, which of them the links join, and whether two
//! halves of a network agree. Definitions are in `specs/`.
#![tactic(auto)]

mod agreeing;
mod alike;
mod forest;
mod parts;
mod places;

pub use agreeing::agree;
pub use forest::{Forest, MAX_SERVERS};
pub use places::{EndPlaces, ServerPlace};
