//! A room as a document that the ends of links edit: definitions in `specs/`, and laws, each of
//! which is the contract of a function that does nothing.
#![tactic(auto)]

pub mod laws;
