//! Servers that read nothing more while too much waits for a link, and why they never wait for one
//! another in a round: definitions in `specs/`, and laws, each of which is the contract of a
//! function that does nothing.
#![tactic(auto)]

pub mod laws;
