//! What programs and people expect that a server does not say: a door in front of a machine, which
//! turns what is said to clients, where the configuration asks for it. What a server is given, and
//! what goes on links, it leaves as it is. Definitions are in `specs/`.
#![tactic(auto)]

mod capabilities;
mod door;
pub mod laws;
mod letters;
mod manner;
mod motd;
mod saying;
mod supported;
mod telling;
mod turning;

pub use door::Door;
pub use manner::Manner;
pub use motd::{MOST_BYTES, MOST_LINES, Motd, MotdFault};
