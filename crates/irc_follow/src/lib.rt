//! One server follows the network: while an item is in flight, what a line of a link does at a
//! server is what the network does by what the line says. All of it is laws over definitions in
//! `specs/`; each law is the contract of a function with an empty body.
#![tactic(auto)]

pub mod examples;
pub mod laws;
