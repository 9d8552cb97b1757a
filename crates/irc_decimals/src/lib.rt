//! Numbers as they are written in a line of text: in decimal digits, each in one way.
#![tactic(auto)]

pub mod laws;
mod number;

pub use number::read_number;
