//! A journal of links: how each stands, and what is to be told.
ghost use Rattle.std.specs.Prelude.{◌≡◌, ◌++◌, ◌∷◌, [], OnOk};
ghost use Rattle.std.specs.Option.{option_copied};
ghost use Rattle.irc_journal.specs.Claims.{claimed_in};
ghost use Rattle.irc_journal.specs.Saying.{IsTold};
ghost use Rattle.irc_journal.specs.Signs.{claims, closes, is_gone, meets, opens, page_at, Enters};
ghost use Rattle.irc_journal.specs.Signs.{IsBlank, IsEmptied};

use crate::lately::Lately;
use crate::page::Page;
use crate::saying::say;
use crate::tidings::Tidings;
use irc_batch::CloseReason;
use irc_moments::Moment;
use irc_names::{Host, ServerName};
use std::alloc::{AllocError, Global};
use std::collections::BTreeMap;
use std::io::Write;
use std::mem::replace;

/// A journal of links.
#[derive(Drop)]
pub struct Journal {
    /// How each link stands that is there, by its number.
    pages: BTreeMap<u64, Page, Global>,
    /// What is to be told, in order.
    tidings: Vec<Tidings, Global>,
    /// Of which addresses was told.
    lately: Lately,
}

impl Journal {
    /// One without links, and with nothing to tell.
    pub fn new(alloc: Global) -> Self
        ensures { IsBlank result }
    {
        Journal {
            pages: BTreeMap::new(alloc),
            tidings: Vec::new(alloc),
            lately: Lately::new(),
        }
    }

    /// A link is there: this side has called this server, or was called.
    ///
    /// # Errors
    /// Here and below: where memory runs out.
    pub fn open(&mut self, link: u64, called: Option<&ServerName>) -> Result<(), AllocError>
        ensures { OnOk result (Enters link (opens (option_copied called.entry)) self.old self.new) }
    {
        match self.pages.insert(link, Page::fresh(called)) {
            Ok(_) => Ok(()),
            Err(_) => Err(AllocError),
        }
    }

    /// This line of a link was heard. Where nobody is known at its other end, it may claim who is.
    pub fn hear(&mut self, link: u64, line: &[u8])
        ensures { Enters link (claims (claimed_in line.now)) self.old self.new }
    {
        if let Some(page) = self.pages.get_mut(&link) {
            page.hear(line);
        }
    }

    /// A line of a link was heard, and this server is known at its other end, or none yet. The
    /// first time that one is, the link is up.
    pub fn meet(&mut self, link: u64, far: Option<&ServerName>) -> Result<(), AllocError>
        ensures { OnOk result (Enters link (meets (option_copied far.entry)) self.old self.new) }
    {
        match far {
            Some(name) => self.raise(link, name),
            None => Ok(()),
        }
    }

    /// The server of this name is known at the other end of a link.
    fn raise(&mut self, link: u64, name: &ServerName) -> Result<(), AllocError>
        ensures { OnOk result (Enters link (meets (Some name.now)) self.old self.new) }
    {
        match self.pages.get_mut(&link) {
            Some(page) if !page.is_up => {
                let tidings = page.rise(link, name);
                note(&mut self.tidings, tidings)
            }
            _ => Ok(()),
        }
    }

    /// This side closes a link.
    pub fn close(&mut self, link: u64, reason: CloseReason) -> Result<(), AllocError>
        ensures { OnOk result (Enters link (closes reason) self.old self.new) }
    {
        let page = match self.pages.remove(&link) {
            Some(page) => page,
            None => Page::unknown(),
        };
        note(&mut self.tidings, page.closed(link, reason))
    }

    /// A link is lost.
    pub fn lose(&mut self, link: u64) -> Result<(), AllocError>
        ensures { OnOk result (Enters link is_gone self.old self.new) }
    {
        match self.pages.remove(&link) {
            Some(page) => note(&mut self.tidings, page.lost(link)),
            None => Ok(()),
        }
    }

    /// Takes out what is to be told, in order.
    pub fn take(&mut self, alloc: Global) -> Vec<Tidings, Global>
        ensures tidings { result.items ≡ self.old.tidings.items }
        ensures emptied { IsEmptied self.old self.new }
    {
        replace(&mut self.tidings, Vec::new(alloc))
    }

    /// Tells this at a moment, of a link whose other end is at that address, if it is known: says
    /// it, unless a line of that address was said within a second before.
    pub fn tell<E: Write>(
        &mut self,
        tidings: &Tidings,
        host: Option<&Host>,
        moment: Moment,
        errors: &mut E,
    )
        ensures { IsTold moment (option_copied host.entry) tidings.now self.old self.new
            (E.contents errors.old) (E.contents errors.new) }
    {
        let shown = tidings.outcome.shown(host);
        if let Some(more) = self.lately.count(shown, moment) {
            say(tidings, shown, more, errors);
        }
    }
}

/// Notes one thing more that is to be told.
fn note(all: &mut Vec<Tidings, Global>, tidings: Tidings) -> Result<(), AllocError>
    ensures { OnOk result (all.new.items ≡ all.old.items ++ tidings ∷ []) }
{
    match all.push(tidings) {
        Ok(()) => Ok(()),
        Err(_) => Err(AllocError),
    }
}
