//! The servers that are called, and which of them is due.
ghost use Rattle.std.specs.Prelude.{◌≡◌, ◌++◌, ◌∷◌, [], ◌&&◌, None, Some, if◌then◌else◌};
ghost use Rattle.std.specs.Prelude.{OnOk, is_some};
ghost use Rattle.std.specs.List.{list_any, position, slice_get};
ghost use Rattle.irc_turns.specs.Retries.{milliseconds};
ghost use Rattle.irc_turns.specs.Rounds.{count_after};
ghost use Rattle.irc_turns.specs.Spreads.{spread_on};

use crate::retry::Retry;
use crate::spread::spread_on;
use irc_moments::Moment;
use std::alloc::{AllocError, Global};

/// How many milliseconds are between two calls that are made again at least: the one is to be
/// known, with all that are behind it, before the next is judged.
const APART_MS: u64 = 1000;

/// The servers that are called, by their places.
#[derive(Drop)]
pub struct Retries {
    pub rows: Vec<Retry, Global>,
    /// The place that was looked at last.
    pub at: usize,
    /// The place of the one that would be called, if it is not known.
    pub looked_at: Option<usize>,
    /// When one was called again last.
    pub called_at: Option<Moment>,
    /// How many servers have connected.
    pub visits: u64,
    /// How many milliseconds more than each is to be waited for the next call, by this server's own
    /// name: two that have lost a third at the same moment are not to call it at the same moment.
    pub spread: u64,
}

impl Retries {
    ghost use Rattle.irc_turns.specs.Retries.{not_called, row_changed, may_be_called, looked_on};
    ghost use Rattle.irc_turns.specs.Retries.{due_place, seen_at, is_due_at, is_apart, is_of_link};
    ghost use Rattle.irc_turns.specs.Retries.{seen, call_begun, call_reached, call_ended};

    /// None, with the spread of the first call that is made again.
    pub fn new(alloc: Global, spread: u64) -> Self
        ensures rows { result.rows.items ≡ [] }
        ensures called { result.called_at ≡ None }
        ensures spread { result.spread ≡ spread }
    {
        Retries {
            rows: Vec::new(alloc),
            at: 0,
            looked_at: None,
            called_at: None,
            visits: 0,
            spread,
        }
    }

    /// One more, which is called again after so many seconds, or once.
    ///
    /// # Errors
    /// Where memory runs out.
    pub fn add(&mut self, retry: Option<u16>) -> Result<(), AllocError>
        ensures added { OnOk result
            (self.new.rows.items ≡ self.old.rows.items ++ not_called (milliseconds retry) ∷ []) }
        ensures spread { OnOk result (self.new.spread ≡ self.old.spread) }
    {
        match self.rows.push(Retry::new(milliseconds(retry))) {
            Ok(()) => Ok(()),
            Err(_) => Err(AllocError),
        }
    }

    /// A server has connected.
    pub fn come(&mut self)
        ensures { self.new ≡ record self.old { visits = count_after self.old.visits } }
    {
        self.visits = self.visits.wrapping_add(1);
    }

    /// Whether the moment is waited for at which some server is to be called again.
    pub fn are_waiting(&self) -> bool
        ensures { result ≡ list_any (λ row. is_some row.since) self.now.rows.items }
    {
        self.rows.iter().any(|row| row.since.is_some())
    }

    /// Looks at the next place: the server there would be called, if it may be called again, and is
    /// not known.
    pub fn look(&mut self)
        ensures { self.new ≡ looked_on self.old }
    {
        let behind = self.at.saturating_add(1);
        self.at = if behind < self.rows.len() { behind } else { 0 };
        self.looked_at = self.may_be_called(self.at).then_some(self.at);
    }

    /// Whether the server at a place may be called again: no call of it is under way, or open.
    fn may_be_called(&self, place: usize) -> bool
        ensures { result ≡ may_be_called (slice_get self.now.rows.items place) }
    {
        match self.rows.get(place) {
            Some(row) => row.after.is_some() && row.is_free(),
            None => false,
        }
    }

    /// Takes in whether the server that was looked at is known, and tells its place where it is to
    /// be called at this moment; this side may have to yield.
    pub fn know(&mut self, now: Moment, is_known: bool, yields: bool) -> Option<usize>
        ensures due { result ≡ due_place self.old now is_known yields self.old.looked_at }
        ensures rows { self.new.rows.items ≡ seen_at self.old now is_known self.old.looked_at }
        ensures looked { self.new.looked_at ≡ None }
        ensures called { self.new.called_at ≡ self.old.called_at }
        ensures spread { self.new.spread ≡ self.old.spread }
        ensures visits { self.new.visits ≡ self.old.visits }
    {
        let place = self.looked_at.take()?;
        self.see(place, now, is_known, yields).then_some(place)
    }

    /// Takes in whether the server at a place is known. It may be that it is to be called at this
    /// moment; this side may have to yield.
    fn see(&mut self, place: usize, now: Moment, is_known: bool, yields: bool) -> bool
        ensures due { result ≡ (is_due_at (slice_get self.old.rows.items place) now
            is_known yields self.old.spread && is_apart self.old.called_at now) }
        ensures rows { self.new.rows.items ≡ row_changed
            (λ row. seen row now is_known) place self.old.rows.items }
        ensures called { self.new.called_at ≡ self.old.called_at }
        ensures spread { self.new.spread ≡ self.old.spread }
        ensures looked { self.new.looked_at ≡ self.old.looked_at }
        ensures visits { self.new.visits ≡ self.old.visits }
    {
        let is_apart = self.is_apart(now);
        let spread = self.spread;
        match self.rows.get_mut(place) {
            Some(row) => row.see(now, is_known, yields, spread) && is_apart,
            None => false,
        }
    }

    /// Whether none was called again within the last second.
    fn is_apart(&self, now: Moment) -> bool
        ensures { result ≡ is_apart self.now.called_at now }
    {
        match self.called_at {
            Some(called_at) => now.since(called_at) >= APART_MS,
            None => true,
        }
    }

    /// The server at a place is called at this moment: the first time, or again.
    pub fn begin(&mut self, place: usize, is_again: bool, now: Moment)
        ensures rows { self.new.rows.items ≡ row_changed
            (λ row. call_begun row self.old.visits) place self.old.rows.items }
        ensures called { self.new.called_at ≡ (if is_again then Some now
            else self.old.called_at) }
        ensures spread { self.new.spread ≡ (if is_again then spread_on self.old.spread 1
            else self.old.spread) }
        ensures others { self.new ≡ record self.old {
          rows = self.new.rows;
          called_at = self.new.called_at;
          spread = self.new.spread;
        } }
    {
        if is_again {
            self.called_at = Some(now);
            self.spread = spread_on(self.spread, 1);
        }
        let visits = self.visits;
        if let Some(row) = self.rows.get_mut(place) {
            row.begin(visits);
        }
    }

    /// The call of the server at a place is through, and is a link of this number now.
    pub fn reach(&mut self, place: usize, link: u64)
        ensures rows { self.new.rows.items ≡ row_changed
            (λ row. call_reached row link) place self.old.rows.items }
        ensures others { self.new ≡ record self.old { rows = self.new.rows } }
    {
        if let Some(row) = self.rows.get_mut(place) {
            row.reach(link);
        }
    }

    /// The call of the server at a place has failed at this moment, or its link has ended.
    pub fn end(&mut self, place: usize, now: Moment)
        ensures rows { self.new.rows.items ≡ row_changed
            (λ row. call_ended row self.old.visits now) place self.old.rows.items }
        ensures others { self.new ≡ record self.old { rows = self.new.rows } }
    {
        let visits = self.visits;
        if let Some(row) = self.rows.get_mut(place) {
            row.end(visits, now);
        }
    }

    /// The place of the server that was called, and whose link has this number.
    pub fn place_of(&self, link: u64) -> Option<usize>
        ensures { result ≡ position (is_of_link link) self.now.rows.items }
    {
        self.rows.iter().position(|row| row.link == Some(link))
    }
}

/// So many seconds, if there are any, in milliseconds.
fn milliseconds(seconds: Option<u16>) -> Option<u64>
    ensures { result ≡ milliseconds seconds }
{
    match seconds {
        Some(seconds) => Some(u64::from(seconds) * 1000),
        None => None,
    }
}
