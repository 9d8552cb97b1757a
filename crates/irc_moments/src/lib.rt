//! Time as a value that is handed in.
#![tactic(auto)]

mod moment;

pub use moment::{ClockTime, Moment};
