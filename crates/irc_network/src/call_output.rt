//! What a call of a network works with.
ghost use Rattle.std.specs.Prelude.{◌≡◌, []};

use crate::receipt::Receipt;
use irc_batch::Batch;
use std::alloc::Global;

/// What a call of a network works with: what a server has put out just now, and what clients have
/// received by the call so far. A call begins with a new one.
#[derive(Drop)]
pub struct CallOutput {
    /// What a server has put out.
    pub out: Batch,
    /// What clients have received, in order.
    pub lines: Vec<Receipt, Global>,
}

impl CallOutput {
    /// That of a call that begins.
    pub fn new(alloc: Global) -> Self
        ensures { result.lines.items ≡ [] }
    {
        CallOutput {
            out: Batch::new(alloc),
            lines: Vec::new(alloc),
        }
    }
}
