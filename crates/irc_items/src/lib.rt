//! A network of servers is one room, whatever the order in which its links deliver. All of it is
//! laws over definitions in `specs/`; each law is the contract of a function with an empty body.
#![tactic(auto)]

pub mod laws;
