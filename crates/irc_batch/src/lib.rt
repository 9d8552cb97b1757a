//! What is put out to connections and on links in one go.
#![tactic(auto)]

mod batch;
mod close_reason;

pub use batch::{Batch, Out};
pub use close_reason::CloseReason;
