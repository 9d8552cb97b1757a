//! Who is held back, and why.
ghost use Rattle.std.specs.Prelude.{◌≡◌, ◌<◌, nat_eq, length, [], Some, OnOk, OnErr};
ghost use Rattle.std.specs.List.{slice_get, swap_remove};

use crate::talker::TalkerMark;
use irc_moments::Moment;
use std::alloc::{AllocError, Global};
use std::marker::Model;

/// For how many milliseconds somebody is held back for a client at most.
const LONGEST_MS: u64 = 250;

/// Why somebody is held back.
#[derive(Clone, Copy, Drop)]
pub(crate) enum Reason {
    /// Far too much waits for a link other than itself: until for none does.
    OthersFull,
    /// It has added to this link, for which too much waits: until no more than may does.
    Grown(TalkerMark),
    /// It has added to this client, which takes nothing: until it does, and for `LONGEST_MS` at
    /// most.
    Filled(TalkerMark),
    /// It has said all that clients may by time: until it may say a line.
    Paced,
}

impl Reason {
    ghost use Rattle.irc_turns.specs.HeldBack.{is_for_client};

    /// Whether it waits for a client.
    pub fn is_for_client(&self) -> bool
        ensures { result ≡ is_for_client self.now }
    {
        match self {
            Reason::Filled(_) => true,
            Reason::OthersFull | Reason::Grown(_) | Reason::Paced => false,
        }
    }
}

/// One that is held back.
#[derive(Clone, Copy, Drop)]
pub(crate) struct Held {
    /// Its number.
    pub who: usize,
    /// Why.
    pub reason: Reason,
    /// Since when.
    pub since: Moment,
}

impl Held {
    ghost use Rattle.irc_turns.specs.HeldBack.{may_wait_at};

    /// Whether it may wait for a client at this moment.
    pub fn may_wait(&self, now: Moment) -> bool
        ensures { result ≡ may_wait_at now self.now }
    {
        now.is_before(self.since.later(LONGEST_MS))
    }
}

/// Who is held back.
#[derive(Drop)]
pub(crate) struct Holding {
    held: Vec<Held, Global>,
}

/// In a clause it is those who are held, by their places.
impl Model for Holding {
    ghost use Rattle.std.specs.Prelude.{List};
    ghost use Rattle.irc_turns.specs.declared.holding.Held.{Held};

    ghost Value = { List Held };

    ghost view = { λ holding. holding.held.items };
}

impl Holding {
    ghost use Rattle.irc_turns.specs.HeldBack.{held_too, held_without};

    /// Nobody.
    pub fn new(alloc: Global) -> Self
        ensures { result ≡ [] }
    {
        Holding {
            held: Vec::new(alloc),
        }
    }

    /// Whether it is nobody.
    pub fn is_empty(&self) -> bool
        ensures { result ≡ nat_eq 0 (length self.now) }
    {
        self.held.is_empty()
    }

    /// How many are held back.
    pub fn len(&self) -> usize
        ensures { result ≡ length self.now }
    {
        self.held.len()
    }

    /// Holds somebody back, from this moment on.
    ///
    /// # Errors
    /// Where memory runs out: then it is not held.
    pub fn hold(&mut self, who: usize, reason: Reason, since: Moment) -> Result<(), AllocError>
        ensures held { OnOk result (self.new ≡ held_too self.old who reason since) }
        ensures none { OnErr result (self.new ≡ self.old) }
    {
        match self.held.push(Held { who, reason, since }) {
            Ok(()) => Ok(()),
            Err(_) => Err(AllocError),
        }
    }

    /// The one at a place.
    pub fn at(&self, place: usize) -> Held
        requires { place < length self.now }
        ensures { slice_get self.now place ≡ Some result }
    {
        self.held[place]
    }

    /// Lets the one at a place go.
    pub fn let_go(&mut self, place: usize) -> Held
        requires { place < length self.old }
        ensures who { slice_get self.old place ≡ Some result }
        ensures others { self.new ≡ swap_remove self.old place result }
    {
        self.held.swap_remove(place)
    }

    /// One is gone.
    pub fn remove(&mut self, who: usize)
        ensures { self.new ≡ held_without who self.old }
    {
        self.held.retain(|held| held.who != who);
    }
}
