//! The effects of a room as edits of a document: definitions in `specs/`, and laws, each of which
//! is the contract of a function that does nothing.
#![tactic(auto)]

pub mod laws;
