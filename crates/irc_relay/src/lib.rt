//! Forests of servers, and lines that are passed on along them: definitions in `specs/`, and their
//! laws, each of which is the contract of a function with an empty body.
#![tactic(auto)]

pub mod laws_of_forests;
pub mod laws_of_queues;
pub mod laws_of_relays;
pub mod news;
