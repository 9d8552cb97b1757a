//! Commands that ask who and what there is.
#![tactic(auto)]

pub mod ison;
pub mod list;
pub mod lusers;
mod own_rows;
pub mod query;
mod saying;
pub mod userhost;
pub mod who;
pub mod whois;

pub use query::{Query, answer};
