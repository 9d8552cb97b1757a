//! Pieces: lines that one event puts out on a link go as one, behind a line that says how many of
//! the other end's pieces were read. So each end knows what the other had read when it wrote.
#![tactic(auto)]

mod count;
mod counts;
pub mod laws;
mod piece_end;

pub use count::{Count, MOST_LINES, Mark, count_text, read_count};
pub use counts::Counts;
pub use piece_end::{Heard, Piece, PieceEnd};
