//! A history that is kept.
use crate::history::History;
use crate::inbox::Inbox;
use crate::item::Item;
use std::alloc::{AllocError, Global};

/// All that was given, and all that each client has received.
#[derive(Drop)]
pub struct Kept {
    alloc: Global,
    pub(crate) items: Vec<Item, Global>,
    pub(crate) received: Vec<Inbox, Global>,
}

impl History for Kept {
    ghost use Rattle.irc_network.specs.Loops.Keeping.{kept_past};

    ghost past = { kept_past };

    fn new(alloc: Global) -> Self {
        Kept {
            alloc,
            items: Vec::new(alloc),
            received: Vec::new(alloc),
        }
    }

    fn add_item(&mut self, item: Item) -> Result<(), AllocError> {
        match self.items.push(item) {
            Ok(()) => Ok(()),
            Err(_) => Err(AllocError),
        }
    }

    fn add_client(&mut self) -> Result<(), AllocError> {
        match self.received.push(Inbox::new(self.alloc)) {
            Ok(()) => Ok(()),
            Err(_) => Err(AllocError),
        }
    }

    fn add_line(&mut self, earlier: usize, text: &[u8]) -> Result<(), AllocError> {
        match self.received.get_mut(earlier) {
            Some(inbox) => inbox.push(text),
            None => Ok(()),
        }
    }
}
