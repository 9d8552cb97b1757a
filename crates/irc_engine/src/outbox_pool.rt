//! Outboxes that nobody needs at the moment, for those that will.
ghost use Rattle.std.specs.Prelude.{◌≡◌, [], IfOk};
ghost use Rattle.irc_outbox.specs.Outboxes.{holding};

use irc_outbox::Outbox;
use std::alloc::{AllocError, Global};
use std::marker::Model;

/// The most outboxes of one size that are kept (our own choice).
const MAX_SPARE: usize = 64;

/// Empty outboxes of one size.
#[derive(Drop)]
struct SpareOutboxes {
    /// How many bytes each of them has room for.
    room: usize,
    outboxes: Vec<Outbox, Global>,
}

/// In a clause it is the room of each of them: how many there are does not show.
impl Model for SpareOutboxes {
    ghost use Rattle.std.specs.Prelude.{◌≡◌, ℕ, []};
    ghost use Rattle.std.specs.List.{All};
    ghost use Rattle.irc_outbox.specs.Outboxes.{holding};

    ghost Value = { ℕ };

    ghost view = { λ spare. spare.room };

    ghost invariant = { λ spare. All (λ held. held ≡ holding [] spare.room) spare.outboxes.items };
}

impl SpareOutboxes {
    /// None yet, of those with room for so many bytes.
    fn new(alloc: Global, room: usize) -> Self
        ensures { result ≡ room }
    {
        SpareOutboxes {
            room,
            outboxes: Vec::new(alloc),
        }
    }

    /// How many bytes each of them has room for.
    fn room(&self) -> usize
        ensures { result ≡ self.now }
    {
        self.room
    }

    /// The one that came last, the memory of which is most likely at hand; a new one, where there
    /// is none.
    ///
    /// # Errors
    /// Where memory runs out.
    fn take(&mut self, alloc: Global) -> Result<Outbox, AllocError>
        ensures taken { IfOk result (λ outbox. outbox ≡ holding [] self.old) }
        ensures same { self.new ≡ self.old }
    {
        match self.outboxes.pop() {
            Some(outbox) => Ok(outbox),
            None => Outbox::with_capacity(alloc, self.room),
        }
    }

    /// Keeps an empty outbox of this size, or lets its memory go, where enough are kept.
    fn give_back(&mut self, outbox: Outbox)
        requires { outbox ≡ holding [] self.old }
        ensures { self.new ≡ self.old }
    {
        if self.outboxes.len() >= MAX_SPARE {
            return;
        }
        match self.outboxes.push(outbox) {
            Ok(()) => (),
            Err(_) => (),
        }
    }
}

/// Empty outboxes of the two sizes that the connections of an engine have.
#[derive(Drop)]
pub(crate) struct OutboxPool {
    alloc: Global,
    /// Those of clients.
    clients: SpareOutboxes,
    /// Those of links.
    links: SpareOutboxes,
}

impl OutboxPool {
    /// None yet. Those of clients have room for `client_room` bytes, and those of links for
    /// `link_room`.
    pub(crate) fn new(alloc: Global, client_room: usize, link_room: usize) -> Self {
        OutboxPool {
            alloc,
            clients: SpareOutboxes::new(alloc, client_room),
            links: SpareOutboxes::new(alloc, link_room),
        }
    }

    /// An empty outbox with room for so many bytes.
    ///
    /// # Errors
    /// Where memory runs out.
    pub(crate) fn take(&mut self, room: usize) -> Result<Outbox, AllocError>
        ensures { IfOk result (λ outbox. outbox ≡ holding [] room) }
    {
        if room == self.clients.room() {
            return self.clients.take(self.alloc);
        }
        if room == self.links.room() {
            return self.links.take(self.alloc);
        }
        Outbox::with_capacity(self.alloc, room)
    }

    /// Takes an empty outbox with room for so many bytes back.
    pub(crate) fn give_back(&mut self, outbox: Outbox, room: usize)
        requires { outbox ≡ holding [] room }
    {
        if room == self.clients.room() {
            return self.clients.give_back(outbox);
        }
        if room == self.links.room() {
            self.links.give_back(outbox);
        }
    }
}
