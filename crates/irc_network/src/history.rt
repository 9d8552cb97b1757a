//! What is kept of what has been.
ghost use Rattle.std.specs.Prelude.{◌≡◌, ◌≤◌, length};
ghost use Rattle.irc_line.specs.Limits.{max_text};
ghost use Rattle.irc_network.specs.Histories.{Becomes, Past, no_past, with_item, with_line};
ghost use Rattle.irc_network.specs.Histories.{with_newcomer};
ghost use Rattle.irc_network.specs.Views.{item_of};

use crate::item::Item;
use std::alloc::{AllocError, Global};

/// What is kept of what was given to a network, and of what its clients have received. Where memory
/// runs out it is as it was.
pub trait History: Drop {
    /// What has been.
    ghost past: { Self → Past };

    /// That of a network to which nothing was given.
    fn new(alloc: Global) -> Self
        ensures { past result ≡ no_past };

    /// An item was given.
    ///
    /// # Errors
    /// Here and below: where memory runs out.
    fn add_item(&mut self, item: Item) -> Result<(), AllocError>
        ensures { Becomes result (with_item (item_of item)) (past self.old) (past self.new) };

    /// A client more has connected.
    fn add_client(&mut self) -> Result<(), AllocError>
        ensures { Becomes result with_newcomer (past self.old) (past self.new) };

    /// A client has received a line. So many clients have connected before it.
    fn add_line(&mut self, earlier: usize, text: &[u8]) -> Result<(), AllocError>
        requires fits { length text.now ≤ max_text }
        ensures { Becomes result (with_line earlier text.now) (past self.old) (past self.new) };
}
