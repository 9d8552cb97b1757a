//! What a doorman says, computed, and that one who asks nothing is the machine. A law is a function
//! that does nothing, and its contract is the law: the check proves it.
ghost use Rattle.irc_doorman.specs.Doormen.{PassesAll, WatchesNobody};
ghost use Rattle.irc_doorman.specs.Examples.{LinesAreJudged, TextsAreSo, WordsAreOne};

use irc_engine::Machine;

/// Texts, and lines of who is asked for a password.
pub fn clients_are_asked()
    ensures texts { TextsAreSo }
    ensures lines { LinesAreJudged }
    ensures words { WordsAreOne }
{}

/// Where nothing is asked, each answer is the machine's.
pub fn nothing_is_asked<M: Machine>()
    ensures events { PassesAll M.server_of M.handles }
    ensures dues { WatchesNobody M.server_of M.handles M.dues }
{}
