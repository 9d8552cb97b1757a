//! What becomes of lines, computed, and that nothing is held where that is off. A law is a function
//! that does nothing, and its contract is the law: the check proves it.
ghost use Rattle.irc_hold.specs.Examples.{ClientsAreHeld, LinesAreJudged};
ghost use Rattle.irc_hold.specs.Holds.{OffIsTheMachine, OthersPass};

use irc_engine::Machine;

/// Lines of who negotiates, and what comes of them; those of users and of who is not there are the
/// machine's.
pub fn users_wait()
    ensures lines { LinesAreJudged }
    ensures clients { ClientsAreHeld }
    ensures others { OthersPass }
{}

/// Where nothing waits, each answer is the machine's.
pub fn off_is_the_machine<M: Machine>()
    ensures { OffIsTheMachine M.server_of M.handles }
{}
