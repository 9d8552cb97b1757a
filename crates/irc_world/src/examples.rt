//! A small network, by example.
ghost use Rattle.irc_world.specs.Examples.{WhoIsRefused};
ghost use Rattle.irc_world.specs.Networks.{BoIsHeard, LinkIsBack, LinkIsLost, NicknamesClash};
ghost use Rattle.irc_world.specs.Networks.{PeopleMeet, SidesAreJoined};
ghost use Rattle.irc_world.specs.SmallWorlds.{ErrorComesLast, InvitedAtHome, KillsComeFirst};
ghost use Rattle.irc_world.specs.SmallWorlds.{LinesAtMost, LostInOrder, OperatorBeforeVoice};
ghost use Rattle.irc_world.specs.SmallWorlds.{PasswordsDiffer, Whereabouts};

/// What is refused where there are three servers, no link and nobody: names of no server, numbers
/// of no client, a link that is not there to be cut, and links between servers of which one is no
/// peer, keeps another password, or is the same server.
pub fn who_is_refused()
    ensures { WhoIsRefused }
{}

/// Two servers are linked, on each of which somebody has made one channel: its members see each
/// other come, and who is in no channel sees nothing.
pub fn people_meet()
    ensures { PeopleMeet }
{}

/// Two servers are linked that have one channel with other modes, another key and another topic. It
/// has all that was set on either side then, with the greater key, and its members see what is new.
pub fn sides_are_joined()
    ensures { SidesAreJoined }
{}

/// Two servers are linked that have users of one nickname: both are killed, and nobody sees anybody
/// come by a channel that one of them alone was in.
pub fn nicknames_clash()
    ensures { NicknamesClash }
{}

/// A link is lost: each side sees those of the other quit, once, though they shared two channels.
pub fn link_is_lost()
    ensures { LinkIsLost }
{}

/// The link is back: those of the other side are seen to come to both channels, and no topic is
/// told again.
pub fn link_is_back()
    ensures { LinkIsBack }
{}

/// What is said in a channel is heard by its members on every server of the part, and not by
/// whoever says it.
pub fn bo_is_heard()
    ensures { BoIsHeard }
{}

/// How many lines servers need at most: for a link of two that are empty, of two with people, of
/// two with one nickname, and of two pairs; for a text, for who leaves, and for who connects; for a
/// link that is lost, between pairs too, and for one that is back.
pub fn lines_at_most()
    ensures { LinesAtMost }
{}

/// Halves join what is left once whoever is killed has quit, and not what was there before.
pub fn kills_come_first()
    ensures { KillsComeFirst }
{}

/// A link is refused where two servers keep different passwords for each other.
pub fn passwords_differ()
    ensures { PasswordsDiffer }
{}

/// What each of three servers in a line knows of the network, and what is left of that after a cut.
pub fn whereabouts()
    ensures { Whereabouts }
{}

/// Who is killed sees those quit who are killed before it, and its own ERROR last.
pub fn error_comes_last()
    ensures { ErrorComesLast }
{}

/// Of a member that has both flags, the operator's is told before voice.
pub fn operator_before_voice()
    ensures { OperatorBeforeVoice }
{}

/// Those of a lost side quit server by server and nickname by nickname, whichever end of the link
/// is named first.
pub fn lost_in_order()
    ensures { LostInOrder }
{}

/// An invitation is known at the invited user's server and nowhere else.
pub fn invited_at_home()
    ensures { InvitedAtHome }
{}
