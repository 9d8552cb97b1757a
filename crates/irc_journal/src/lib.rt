//! What whoever runs a server is told of its links.
#![tactic(auto)]

mod claims;
mod journal;
mod lately;
mod page;
mod rereading;
mod saying;
mod tidings;

pub use journal::Journal;
pub use lately::{LastSaid, Lately};
pub use page::Page;
pub use rereading::{Rereading, say_rereading, say_restart};
pub use saying::{say_call, say_connections};
pub use tidings::{JournalLine, Outcome, ReasonWords, Tidings};
