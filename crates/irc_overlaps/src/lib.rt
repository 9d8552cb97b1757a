//! A network of servers, each in its layer, to which anything is given at any time: definitions in
//! `specs/`, and laws, each of which is the contract of a function that does nothing.
#![tactic(auto)]

pub mod laws;
