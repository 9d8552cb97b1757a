//! The laws of waiting on a tree of servers, and examples that are computed.
//!
//! A server at which too much waits for a link reads nobody but that link itself. So what a server
//! writes may wait for what its reader writes to a third. Each such step goes one link further and
//! never straight back, and on a forest such a walk ends, at a server that reads.

ghost use Rattle.irc_brakes.specs.Examples.{BothEndsAreRead, LineIsRead, TriangleWaits, WhoIsRead};
ghost use Rattle.irc_brakes.specs.Laws.{EachReadsOrWaits, FullIsReadSomewhere, NoWaitRound};
ghost use Rattle.irc_brakes.specs.Laws.{WaitsAreShort, WaitsEnd, WaitsGoAway};

use irc_relay::laws_of_forests;

/// What a server writes on a link is read, and waits for nothing; or it is not, and waits for what
/// its reader has for a third server. This holds whatever the links are.
pub fn each_reads_or_waits()
    ensures { EachReadsOrWaits }
{}

/// Each wait goes one link further away.
pub fn waits_go_away()
    ensures { WaitsGoAway }
{
    laws_of_forests::walk_is_the_way();
}

/// No chain of waits ends where it began, but the one without a wait.
pub fn no_wait_round()
    ensures { NoWaitRound }
{
    laws_of_forests::no_walk_round();
}

/// A chain of waits is in a part that has two servers more at least than the chain has waits.
pub fn waits_are_short()
    ensures { WaitsAreShort }
{
    laws_of_forests::walk_is_the_way();
    laws_of_forests::walks_join();
}

/// From every direction of a link a chain of waits, or of none, leads to one that is read; and if
/// too much waits for the first one's reader, so it does for the last one's.
pub fn waits_end()
    ensures { WaitsEnd }
{
    waits_are_short();
}

/// So where too much waits anywhere, it is somewhere being read.
pub fn full_is_read_somewhere()
    ensures { FullIsReadSomewhere }
{
    waits_end();
}

/// Of links 7 and 8 and a client 1: all are read; 7 alone, where too much waits for it; nobody,
/// where too much waits for both.
pub fn who_is_read()
    ensures { WhoIsRead }
{}

/// In a line of four, with too much at each for the next, the chain of waits leads to what the last
/// one reads.
pub fn line_is_read()
    ensures { LineIsRead }
{}

/// Two servers at which too much waits for each other both read.
pub fn both_ends_are_read()
    ensures { BothEndsAreRead }
{}

/// In a triangle, with too much at each for the next, each waits for the next and none is read: it
/// is trees that the laws are about.
pub fn triangle_waits()
    ensures { TriangleWaits }
{}
