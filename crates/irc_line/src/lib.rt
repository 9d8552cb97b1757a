//! Lines of the IRC protocol: bytes cut into lines, lines read as messages, messages written as
//! lines.
//!
//! RFC 2812 section 2.3 says what a message is, and section 2.3.1 how it is spelled. Where this
//! crate is more lenient than the standard, the definition in `specs/` says so.
#![tactic(auto)]

mod cutting;
mod framing;
pub mod laws;
pub mod limits;
mod reading;
mod writing;

pub use cutting::push_cut;
pub use framing::{Framer, Line, lines_of_pieces};
pub use reading::{LineFault, Message, parse};
pub use writing::{Parts, Prefix, Text, body, push_prefix, write_message};
