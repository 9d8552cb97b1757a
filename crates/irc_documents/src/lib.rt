//! A link as a document that two ends edit, on a tree of servers: definitions in `specs/`, and
//! laws, each of which is the contract of a function that does nothing.
#![tactic(auto)]

pub mod laws;
