//! Whose turn is next, how much one takes, and which call is due: rounds, gathered writes, paces,
//! what was read, who talks, who is held back, who has to name itself, who is given up, and who is
//! called again. Nothing here knows a socket.
#![tactic(auto)]

mod allowance;
mod arrivals;
mod holding;
mod lookout;
mod marks;
mod newcomers;
mod pace;
mod queue;
mod rest;
mod retries;
mod retry;
mod round;
mod shortage;
mod signals;
mod spread;
mod strangers;
mod talker;
mod talkers;
mod waiting;
mod waits;

pub use allowance::{LinesPace, fronts_begin_so_many, lines_are_counted, pace_is_kept};
pub use arrivals::Arrivals;
pub use lookout::Lookout;
pub use marks::Marks;
pub use newcomers::Newcomers;
pub use retries::Retries;
pub use round::{Round, TooMuch};
pub use shortage::Shortage;
pub use signals::Signals;
pub use spread::{name_spread, spread_on};
pub use strangers::Strangers;
pub use talker::{Readiness, Reading, Talker, TalkerMark};
pub use talkers::{Report, Talkers};
pub use waits::wait_for;
