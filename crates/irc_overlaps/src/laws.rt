//! The laws of networks of layers to which anything is given at any time.
ghost use Rattle.irc_overlaps.specs.Examples.{CallIsClosed, CallIsOnItsWay};
ghost use Rattle.irc_overlaps.specs.Laws.{DeliveryTakesFirst, EachGoesByItsOwn, GivenAtAnyTime};
ghost use Rattle.irc_overlaps.specs.Laws.{GivenIsOfOne, LinesGoBehind, LostAtAnyTime};
ghost use Rattle.irc_overlaps.specs.Laws.{NoneIsDelivered, RunsAreSound};
ghost use Rattle.irc_overlaps.specs.Laws.{RunsHaveTheirEnds, StepKeepsEnds, StepKeepsSound};

/// Each step keeps it so that the links are a forest, and that just those are linked that have the
/// two ends of one link.
pub fn step_keeps_sound()
    ensures { StepKeepsSound }
{}

/// So it is, whatever happens, from a network that begins.
pub fn runs_are_sound()
    ensures { RunsAreSound }
{}

/// Each step keeps it so that the ends of the network are just those that the layers have.
pub fn step_keeps_ends()
    ensures { StepKeepsEnds }
{}

/// So it is, whatever happens, from a network that begins.
pub fn runs_have_their_ends()
    ensures { RunsHaveTheirEnds }
{}

/// Whatever a client does that its server does not refuse can happen, whatever is on its way.
pub fn given_at_any_time()
    ensures { GivenAtAnyTime }
{}

/// An end can be lost that a server has, whatever is on its way.
pub fn lost_at_any_time()
    ensures { LostAtAnyTime }
{}

/// A client's event is of its server alone, whatever is on its way.
pub fn given_is_of_one()
    ensures { GivenIsOfOne }
{}

/// A delivery is of one server, and takes the first line of one queue.
pub fn delivery_takes_first()
    ensures { DeliveryTakesFirst }
{}

/// What a server puts out on a link that is whole goes behind what was on its way to the other end,
/// all of it and in order.
pub fn lines_go_behind()
    ensures { LinesGoBehind }
{}

/// Where nothing is on its way no delivery can happen.
pub fn none_is_delivered()
    ensures { NoneIsDelivered }
{}

/// Each server is what its own events make of it, in order; its clients are told just what it puts
/// out for them by these, behind what they were told before; and it closes just those links of
/// which it puts out the end.
pub fn each_goes_by_its_own()
    ensures { EachGoesByItsOwn }
{}

/// a.net calls b.net, and before its lines have come a client connects there: both lines are on
/// their way, and nothing is on its way back.
pub fn call_is_on_its_way()
    ensures { CallIsOnItsWay }
{}

/// a.net calls x.net, which is no peer of it, and closes the link: that is kept with its reason,
/// and x.net has its end until it is told.
pub fn call_is_closed()
    ensures { CallIsClosed }
{}
