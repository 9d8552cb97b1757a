//! What stands between clients and a server while a client negotiates capabilities: its USER waits
//! for the end of that, where the configuration wants it. All else goes to the server as it comes,
//! and what the server says goes to clients as it is. Definitions are in `specs/`.
#![tactic(auto)]

mod hold;
pub mod laws;
mod line;

pub use hold::{Hold, Negotiations};
