//! What one server is to its clients: a room machine, whatever clients and links give it. Laws over
//! definitions alone: each is a function that does nothing, and its contract is the law.
#![tactic(auto)]

pub mod laws;
