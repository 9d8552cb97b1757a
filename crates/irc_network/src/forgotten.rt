//! A history that is not kept.
ghost use Rattle.std.specs.Prelude.{◌≡◌};
ghost use Rattle.std.specs.Borrow.{ftrue};
ghost use Rattle.irc_network.specs.Histories.{Past, no_past};
ghost use Rattle.irc_network.specs.Loops.Codes.{past_code};

use crate::history::History;
use crate::item::Item;
use std::alloc::{AllocError, Global};
use std::marker::Model;

/// What has been stands in proofs alone: nothing of it is there as a program runs, and it takes no
/// memory. Its clauses bind whatever is proved for each [`History`], and so for one that is kept.
#[derive(Drop)]
pub struct Forgotten {
    ghost past: { Past } by { past_code },
}

/// It owns nothing.
impl Model for Forgotten {
    ghost also_owns = { λ _. ftrue };
}

/// What is new.
#[derive(Clone, Copy, Drop)]
enum HistoryEntry<'a> {
    /// An item was given.
    Given(&'a Item),
    /// A client has connected.
    Newcomer,
    /// A client has received a line. So many have connected before it.
    Received(usize, &'a [u8]),
}

impl Forgotten {
    ghost use Rattle.irc_network.specs.Loops.HistoryEntry.{noted};

    /// Nothing has been.
    fn nothing() -> Self
        ensures { result.past ≡ no_past }
    {
        Forgotten {}
    }

    /// The same, and what is new.
    fn with(_before: &Self, _news: &HistoryEntry<'_>) -> Self
        ensures { result.past ≡ noted _news.now _before.now.past }
    {
        Forgotten {}
    }
}

impl History for Forgotten {
    ghost past = { λ forgotten. forgotten.past };

    fn new(_alloc: Global) -> Self {
        Forgotten::nothing()
    }

    fn add_item(&mut self, item: Item) -> Result<(), AllocError> {
        *self = Forgotten::with(self, &HistoryEntry::Given(&item));
        Ok(())
    }

    fn add_client(&mut self) -> Result<(), AllocError> {
        *self = Forgotten::with(self, &HistoryEntry::Newcomer);
        Ok(())
    }

    fn add_line(&mut self, earlier: usize, text: &[u8]) -> Result<(), AllocError> {
        *self = Forgotten::with(self, &HistoryEntry::Received(earlier, text));
        Ok(())
    }
}
