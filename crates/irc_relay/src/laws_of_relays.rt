//! The laws of passing lines on along a forest, for any machine: what every server will be and will
//! have shown, whatever the order of deliveries.
//!
//! They are for the theorem of every order of delivery, which is not built yet:
//! `from_source_goes_away` and `delivery_goes_away` for what is under way when something is given
//! and after each delivery, `delivery_keeps` and `delivery_comes_on` for what a delivery changes,
//! `coming_in_turn` for going along the tree, `rest_is_final` and `shown_is_front` for what is
//! shown, `delivery_counts` and `pending_falls` for how many lines are taken, `paying_delivers` for
//! the line with which a new link is paid. `every_order` is that theorem for any machine.

ghost use Rattle.irc_relay.specs.Laws.{FromSourceGoesAway, ComingInTurn, RestIsFinal, ShownIsFront};
ghost use Rattle.irc_relay.specs.Laws.{DeliveryKeeps, DeliveryGoesAway, DeliveryComesOn};
ghost use Rattle.irc_relay.specs.Laws.{EveryOrder, PayingDelivers, DeliveryCounts, PendingFalls};

/// Where all that is under way comes to linked servers from their source itself, it comes to each
/// from its parent.
pub fn from_source_goes_away<State, Line, Shown>()
    ensures { FromSourceGoesAway State Line Shown }
{}

/// What is coming to a server is what is under way from its parent, and then what its parent will
/// pass on of what is coming to that one.
pub fn coming_in_turn<State, Line, Shown>()
    ensures { ComingInTurn State Line Shown }
{}

/// At rest nothing is coming: a state is final, and what was shown is all that is told.
pub fn rest_is_final<State, Line, Shown>()
    ensures { RestIsFinal State Line Shown }
{}

/// At every moment what was shown is a front of what is told.
pub fn shown_is_front<State, Line, Shown>()
    ensures { ShownIsFront State Line Shown }
{}

/// A delivery keeps every server's final state and all that it is told.
pub fn delivery_keeps<State, Line, Shown>()
    ensures { DeliveryKeeps State Line Shown }
{}

/// After a delivery all that is under way still comes to a server from its parent.
pub fn delivery_goes_away<State, Line, Shown>()
    ensures { DeliveryGoesAway State Line Shown }
{}

/// By a delivery the taker has one line less to come, what it returned comes last to where it goes,
/// and nothing else that is coming changes.
pub fn delivery_comes_on<State, Line, Shown>()
    ensures { DeliveryComesOn State Line Shown }
{}

/// Whatever the order of deliveries: on the way a front of what is told is shown, and at rest all
/// of it, with the final states.
pub fn every_order<State, Line, Shown>()
    ensures { EveryOrder State Line Shown }
{}

/// A server that pays what it owes, with a line that it takes, delivers: paying keeps what a
/// delivery keeps.
pub fn paying_delivers<State, Line, Shown>()
    ensures { PayingDelivers State Line Shown }
{}

/// Each delivery takes exactly one from the number of lines that are coming, and puts to it those
/// that are returned.
pub fn delivery_counts<State, Line, Shown>()
    ensures { DeliveryCounts State Line Shown }
{}

/// Where each line between two servers is answered at most once, every delivery takes at least one
/// from what is pending.
pub fn pending_falls<State, Line, Shown>()
    ensures { PendingFalls State Line Shown }
{}
