//! What a journal has of one link.
ghost use Rattle.std.specs.Prelude.{◌≡◌};
ghost use Rattle.std.specs.Option.{option_copied};
ghost use Rattle.irc_journal.specs.Claims.{claimed_in};
ghost use Rattle.irc_journal.specs.Signs.{claimed_page, closing_told, fresh_page, loss_told, risen};
ghost use Rattle.irc_journal.specs.Signs.{told_as, unknown_page};
ghost use Rattle.irc_journal.specs.declared.tidings.Outcome.TheVariants as outcome;

use crate::claims::claimed_in;
use crate::tidings::{Outcome, Tidings};
use irc_batch::CloseReason;
use irc_names::ServerName;

/// A link that is there.
#[derive(Drop)]
pub struct Page {
    /// The server at the other end: the one that was called, or that is known there, or else that
    /// claims to be there.
    pub name: Option<ServerName>,
    /// Whether this side called.
    pub is_called: bool,
    /// Whether the server at the other end is known.
    pub is_up: bool,
}

impl Page {
    /// A link that has just been made, by a call of this server where this side called.
    pub(crate) fn fresh(called: Option<&ServerName>) -> Self
        ensures { result ≡ fresh_page (option_copied called.entry) }
    {
        match called {
            Some(name) => Page {
                name: Some(name.copy()),
                is_called: true,
                is_up: false,
            },
            None => Page::unknown(),
        }
    }

    /// One of which nothing is known.
    pub(crate) fn unknown() -> Self
        ensures { result ≡ unknown_page }
    {
        Page {
            name: None,
            is_called: false,
            is_up: false,
        }
    }

    /// A line was heard, in which a name may be claimed.
    pub(crate) fn hear(&mut self, line: &[u8])
        ensures { self.new ≡ claimed_page (claimed_in line.now) self.old }
    {
        if self.name.is_none() {
            self.name = claimed_in(line);
        }
    }

    /// The server of this name is known from now on, and that is told of this link.
    pub(crate) fn rise(&mut self, link: u64, name: &ServerName) -> Tidings
        ensures page { self.new ≡ risen name.now self.old }
        ensures told { result ≡ told_as outcome.Up link self.new }
    {
        self.name = Some(name.copy());
        self.is_up = true;
        Tidings {
            link: Some(link),
            name: Some(name.copy()),
            is_called: self.is_called,
            outcome: Outcome::Up,
        }
    }

    /// What is told where this side closes the link.
    pub(crate) fn closed(self, link: u64, reason: CloseReason) -> Tidings
        ensures { result ≡ closing_told reason link self }
    {
        let outcome = if self.is_up {
            Outcome::Closed(reason)
        } else {
            Outcome::Refused(reason)
        };
        self.ended(link, outcome)
    }

    /// What is told where the link is lost.
    pub(crate) fn lost(self, link: u64) -> Tidings
        ensures { result ≡ loss_told link self }
    {
        let outcome = if self.is_up {
            Outcome::Lost
        } else {
            Outcome::LostEarly
        };
        self.ended(link, outcome)
    }

    fn ended(self, link: u64, outcome: Outcome) -> Tidings
        ensures { result ≡ told_as outcome link self }
    {
        Tidings {
            link: Some(link),
            name: self.name,
            is_called: self.is_called,
            outcome,
        }
    }
}
