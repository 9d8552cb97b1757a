//! What a layer puts out, computed, and how long a log gets. A law is a function that does nothing,
//! and its contract is the law: the check proves it.
ghost use Rattle.irc_layer.specs.Examples.{AskIsRead, AwayIsHeardWhereOffered};
ghost use Rattle.irc_layer.specs.Examples.{AwayIsToldWhereOffered, CountIsInFront, KickIsUnspoken};
ghost use Rattle.irc_layer.specs.Examples.{KillDoesNotGoBack};
ghost use Rattle.irc_layer.specs.Examples.{LostServersAreOne, SetIsMarked};
ghost use Rattle.irc_layer.specs.Laws.{FullLogsStay};

/// What is put out makes a log of 1,048,576 changes no longer.
pub fn full_logs_stay()
    ensures { FullLogsStay }
{}

/// Lines on links.
pub fn lines_put_out()
    ensures count { CountIsInFront }
    ensures lost { LostServersAreOne }
    ensures echo { KillDoesNotGoBack }
    ensures set { SetIsMarked }
    ensures unspoken { KickIsUnspoken }
    ensures ask { AskIsRead }
    ensures away { AwayIsToldWhereOffered }
    ensures heard { AwayIsHeardWhereOffered }
{}
