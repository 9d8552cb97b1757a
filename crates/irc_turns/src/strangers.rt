//! Those who have come and have yet to name themselves, and until when.
ghost use Rattle.std.specs.Prelude.{◌≡◌, length, OnOk, OnErr};
ghost use Rattle.irc_turns.specs.Naming.{strangers_of, stranger_too, first_over, others_of};

use crate::talker::TalkerMark;
use irc_moments::Moment;
use std::alloc::{AllocError, Global};
use std::collections::VecDeque;
use std::marker::Model;

/// One that has come.
#[derive(Clone, Copy, Drop)]
pub(crate) struct Stranger {
    /// Who it is.
    pub mark: TalkerMark,
    /// When it is to have named itself.
    pub until: Moment,
}

/// Those who have come by one door, in order. All have the same time: so the first one's is over
/// first, also where that one has named itself since.
#[derive(Drop)]
pub struct Strangers {
    /// How many milliseconds each has; none, where there is no limit.
    within: Option<u64>,
    comers: VecDeque<Stranger, Global>,
}

impl Model for Strangers {
    ghost use Rattle.irc_turns.specs.Naming.{TimedStrangers};

    ghost Value = { TimedStrangers };

    ghost view = { λ strangers. record {
      within = strangers.within;
      comers = strangers.comers.items;
    } };
}

impl Strangers {
    /// Nobody. Each has so many seconds, or no limit.
    pub fn new(alloc: Global, seconds: Option<u16>) -> Self
        ensures { result ≡ strangers_of seconds }
    {
        let within = match seconds {
            Some(seconds) => Some(u64::from(seconds) * 1000),
            None => None,
        };
        Strangers {
            within,
            comers: VecDeque::new(alloc),
        }
    }

    /// How many are known here.
    pub fn len(&self) -> usize
        ensures { result ≡ length self.now.comers }
    {
        self.comers.len()
    }

    /// One has come at this moment.
    ///
    /// # Errors
    /// Where memory runs out: then it is not known here.
    pub fn add(&mut self, mark: TalkerMark, now: Moment) -> Result<(), AllocError>
        ensures added { OnOk result (self.new ≡ stranger_too mark now self.old) }
        ensures none { OnErr result (self.new ≡ self.old) }
    {
        let Some(within) = self.within else {
            return Ok(());
        };
        let until = now.later(within);
        match self.comers.push_back(Stranger { mark, until }) {
            Ok(()) => Ok(()),
            Err(_) => Err(AllocError),
        }
    }

    /// The first, if its time is over at this moment. It leaves.
    pub fn next_over(&mut self, now: Moment) -> Option<TalkerMark>
        ensures first { result ≡ first_over now self.old }
        ensures others { self.new ≡ others_of now self.old }
    {
        let first = *self.comers.front()?;
        if now.is_before(first.until) {
            return None;
        }
        self.comers.pop_front();
        Some(first.mark)
    }
}
