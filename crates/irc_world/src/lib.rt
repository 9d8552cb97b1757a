//! What the network is, to its people: servers, links, and one room for each part. Definitions are
//! in `specs/`, and their laws are the contracts of functions with empty bodies.
#![tactic(auto)]

pub mod examples;
pub mod laws;
