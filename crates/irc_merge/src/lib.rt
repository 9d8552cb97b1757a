//! Two halves of a network become one, or come apart: what is then there, and that what the halves
//! tell each other gives just that. Definitions are in `specs/`, and their laws are the contracts
//! of functions with empty bodies.
#![tactic(auto)]

pub mod examples;
pub mod laws;
