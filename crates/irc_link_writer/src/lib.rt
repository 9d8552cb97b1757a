//! Effects written as lines of a link (RFC 2813 section 4). Definitions are in `specs/`.
#![tactic(auto)]

mod cutting;
mod mode_line;
mod writing;

pub use cutting::push_head;
pub use writing::{effect_text, introduction_line, next_distance, write_effect, written_token};
