//! What holds of lines that cross, whatever is in the log and whatever comes. Each law is a
//! function that does nothing, and its contract is the law: the check proves it, and a crate above
//! may cite it.
ghost use Rattle.irc_crossing.specs.BothSet.{OneThingIsEven, OthersPass, SettingsAgree};
ghost use Rattle.irc_crossing.specs.Examples.{BegunIsAsked, BegunIsOne, BegunTwiceIsOne};
ghost use Rattle.irc_crossing.specs.Examples.{EndedIsAsked, NextIsUnset};
ghost use Rattle.irc_crossing.specs.Examples.{RaisesBehindOut, SpellingStays};
ghost use Rattle.irc_crossing.specs.Examples.{ComerIsBrought, OthersAreNotAsked};
ghost use Rattle.irc_crossing.specs.Examples.{GoneIsLeftOut, InviteIsLeftOut, KeyStays};
ghost use Rattle.irc_crossing.specs.Examples.{KeyYields, KickIsSet, ModeIsSet, OperatorIsBrought};
ghost use Rattle.irc_crossing.specs.Examples.{OperatorStays, OthersStay, OwnGoesWithIt};
ghost use Rattle.irc_crossing.specs.Examples.{PrivateYields};
ghost use Rattle.irc_crossing.specs.Examples.{TopicIsSet, TopicStays, TopicYields};
ghost use Rattle.irc_crossing.specs.Examples.{KickIsFollowed, KickIsLeftOut, KillIsFollowed};
ghost use Rattle.irc_crossing.specs.Examples.{KilledIsFollowed, LetterIsLeftOut, MetGoes};
ghost use Rattle.irc_crossing.specs.Examples.{MetIsGiven, MetIsKilled, ModeIsLeftOut};
ghost use Rattle.irc_crossing.specs.Examples.{NextIsSpared, PartIsLeftOut, TextIsLeftOut};
ghost use Rattle.irc_crossing.specs.Laws.{BothEndsAgree, ComersAreOthers, NamesAreFollowed};
ghost use Rattle.irc_crossing.specs.Laws.{LogsStayAsLong, NothingIsAsked, NothingIsChanged};
ghost use Rattle.irc_crossing.specs.Laws.{NothingIsRaised};
ghost use Rattle.irc_crossing.specs.Laws.{NewcomersAgree, NothingIsLogged, TakersAreOthers};
ghost use Rattle.irc_crossing.specs.Laws.{TwoToOneNameGo};
ghost use Rattle.irc_crossing.specs.Laws.{WhoIsGoneIsLeftOut};

/// Where nothing has crossed, a line is given as it came, nothing is asked for, what a server
/// raises is for the server to take, and the log stays empty.
pub fn nothing_crossed()
    ensures changed { NothingIsChanged }
    ensures asked { NothingIsAsked }
    ensures raised { NothingIsRaised }
    ensures logged { NothingIsLogged }
{}

/// No line that comes makes a log longer.
pub fn logs_stay_as_long()
    ensures { LogsStayAsLong }
{}

/// Whom the other end means by a nickname: who had it when it wrote, under the nickname now, and
/// nobody who has taken it since.
pub fn names_are_followed()
    ensures renamed { NamesAreFollowed }
    ensures comers { ComersAreOthers }
    ensures takers { TakersAreOthers }
{}

/// A line from somebody who is gone is left out, where it is no NICK, and no KICK, MODE or TOPIC.
pub fn who_is_gone_is_left_out()
    ensures { WhoIsGoneIsLeftOut }
{}

/// Where two take one nickname, each at another end, both are gone behind both changes.
pub fn two_to_one_name_go()
    ensures { TwoToOneNameGo }
{}

/// Where each end does its own change, and then what becomes of the other's, whoever was there has
/// one nickname at both ends then, or is gone at both; and so is who comes by one of them.
pub fn both_ends_agree()
    ensures here { BothEndsAgree }
    ensures newcomers { NewcomersAgree }
{}

/// What both ends set at once: of two settings of one thing the same stays at both, and one of
/// another thing goes as it came.
pub fn both_settings_agree()
    ensures agree { SettingsAgree }
    ensures others { OthersPass }
    ensures even { OneThingIsEven }
{}

/// Lines that cross one of this end's.
pub fn crossing_lines()
    ensures kick { KickIsFollowed }
    ensures kill { KillIsFollowed }
    ensures gone { GoneIsLeftOut }
    ensures part { PartIsLeftOut }
    ensures kick_twice { KickIsLeftOut }
    ensures text { TextIsLeftOut }
    ensures invite { InviteIsLeftOut }
    ensures next { NextIsSpared }
{}

/// Two who take one nickname.
pub fn met_lines()
    ensures given { MetIsGiven }
    ensures goes { MetGoes }
    ensures killed { MetIsKilled }
{}

/// Letters of a MODE.
pub fn mode_lines()
    ensures letter { LetterIsLeftOut }
    ensures line { ModeIsLeftOut }
    ensures key { KeyStays }
{}

/// What both ends set at once: the greater stays.
pub fn set_lines()
    ensures topic_yields { TopicYields }
    ensures topic_stays { TopicStays }
    ensures key { KeyYields }
    ensures private { PrivateYields }
    ensures operator { OperatorStays }
    ensures others { OthersStay }
    ensures brought { OperatorIsBrought }
    ensures one { BegunIsOne }
    ensures twice { BegunTwiceIsOne }
{}

/// A channel that has ended at this end while somebody came to it at the other.
pub fn ended_channels()
    ensures unset { NextIsUnset }
    ensures ended { EndedIsAsked }
    ensures begun { BegunIsAsked }
    ensures others { OthersAreNotAsked }
    ensures brought { ComerIsBrought }
    ensures spelled { SpellingStays }
    ensures raised { RaisesBehindOut }
{}

/// What somebody does who is gone.
pub fn gone_lines()
    ensures mode { ModeIsSet }
    ensures topic { TopicIsSet }
    ensures kick { KickIsSet }
    ensures own { OwnGoesWithIt }
{}

/// Two lines behind one another, and the log.
pub fn log_lines()
    ensures { KilledIsFollowed }
{}
