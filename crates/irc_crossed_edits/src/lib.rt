//! What the layer's rules for lines that crossed make of a change, as edits: definitions in
//! `specs/`, and laws, each of which is the contract of a function that does nothing.
#![tactic(auto)]

pub mod laws;
