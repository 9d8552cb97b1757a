//! The laws of one list of lines under way, of which each queue is what goes from one server to
//! another:
//! for a network that keeps what is under way in the order of sending, as `News` does.

ghost use Rattle.irc_relay.specs.Laws.{FirstIsOldest, NoneIsEmpty, SentIsBehind};

/// The first in the list that goes from p to t is the oldest of that queue, and taking it out
/// leaves all else in its order.
pub fn first_is_oldest<Sent, Line>()
    ensures { FirstIsOldest Sent Line }
{}

/// Where none in the list goes from p to t, that queue is empty.
pub fn none_is_empty<Sent, Line>()
    ensures { NoneIsEmpty Sent Line }
{}

/// What is put behind the list is put behind each queue.
pub fn sent_is_behind<Sent, Line>()
    ensures { SentIsBehind Sent Line }
{}
