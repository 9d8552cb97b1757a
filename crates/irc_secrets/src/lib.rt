//! What a channel hides from who is outside of it: definitions in `specs/`, and laws, each of which
//! is the contract of a function that does nothing.
#![tactic(auto)]

pub mod laws;
