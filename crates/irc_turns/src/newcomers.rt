//! Clients that have come and are to become users in time.
ghost use Rattle.std.specs.Prelude.{◌≡◌, option_map, OnOk, OnErr};
ghost use Rattle.irc_turns.specs.Registering.{newcomers_of, newcomer_too, looked_at, asked_no_more};
ghost use Rattle.irc_turns.specs.Registering.{asks_of_one, number_of_mark};

use crate::strangers::Strangers;
use crate::talker::TalkerMark;
use irc_moments::Moment;
use std::alloc::{AllocError, Global};

/// Clients that have come, and the one whose time is over. Whether that one is a user by now is not
/// known here: it is asked for, of one after another.
#[derive(Drop)]
pub struct Newcomers {
    comers: Strangers,
    /// The one of which it is asked.
    late: Option<TalkerMark>,
}

impl Newcomers {
    /// Nobody. Each has so many seconds, or no limit.
    pub fn new(alloc: Global, seconds: Option<u16>) -> Self
        ensures { result ≡ newcomers_of seconds }
    {
        Newcomers {
            comers: Strangers::new(alloc, seconds),
            late: None,
        }
    }

    /// One has come at this moment.
    ///
    /// # Errors
    /// Where memory runs out: then it is not known here.
    pub fn add(&mut self, mark: TalkerMark, now: Moment) -> Result<(), AllocError>
        ensures added { OnOk result (self.new ≡ newcomer_too mark now self.old) }
        ensures none { OnErr result (self.new ≡ self.old) }
    {
        self.comers.add(mark, now)
    }

    /// The next whose time is over at this moment is asked of, where none is.
    pub fn look(&mut self, now: Moment)
        ensures { self.new ≡ looked_at now self.old }
    {
        if self.late.is_none() {
            self.late = self.comers.next_over(now);
        }
    }

    /// Whether it is asked of one.
    pub fn asks(&self) -> bool
        ensures { result ≡ asks_of_one self.now }
    {
        self.late.is_some()
    }

    /// The number of the one of which it is asked.
    pub fn late(&self) -> Option<u64>
        ensures { result ≡ option_map number_of_mark self.now.late }
    {
        match self.late {
            Some(mark) => Some(mark.number as u64),
            None => None,
        }
    }

    /// It is told of the one of which it was asked.
    pub fn end_late(&mut self) -> Option<TalkerMark>
        ensures who { result ≡ self.old.late }
        ensures others { self.new ≡ asked_no_more self.old }
    {
        self.late.take()
    }
}
