//! What holds of one server and its side of the network. Each law is a function that does nothing,
//! and its contract is the law: the check proves it, and a crate above may cite it.
ghost use Rattle.irc_follow.specs.AtRest.{BehindIsThatSide, SideAtRestIsSound, PlaceIsWorlds};
ghost use Rattle.irc_follow.specs.AtRest.{ToldAreThisSide, ToldByDistance};
ghost use Rattle.irc_follow.specs.Laws.{AsideStays, DoneStaysSound, PassedByStays, SaidDeedFits};
ghost use Rattle.irc_follow.specs.Laws.{SaidDeedGoesOn, SaidDeedShows, SaidEffectGoesOn};
ghost use Rattle.irc_follow.specs.Laws.{SaidGainGoesOn, SaidKillGoesOn, SaidLossGoesOn};
ghost use Rattle.irc_follow.specs.Laws.{SaidMembersGoOn, SaidModesGoOn, SaidTopicGoesOn};
ghost use Rattle.irc_follow.specs.Laws.{ServersFollow};
ghost use Rattle.irc_follow.specs.Relinked.{BehindSourceIsFar, OtherSources, SideAfterCut};
ghost use Rattle.irc_follow.specs.Relinked.{SideAfterLink, TreeAfterCut, TreeAfterLink};
ghost use Rattle.irc_follow.specs.SideFlows.{CutOnceLost, FarSideIsTold, NearSideIsTold};
ghost use Rattle.irc_follow.specs.SideFlows.{OneSideIsLeft, OtherSideIsLeft, SourceTells};

/// A side stays sound by each deed that can be done.
pub fn done_stays_sound()
    ensures { DoneStaysSound }
{}

/// A server that fits its side takes a line that says a deed, and fits the side after that deed.
pub fn said_deed_fits()
    ensures { SaidDeedFits }
{}

/// It shows to each of its clients what the network shows to that client by the deed.
pub fn said_deed_shows()
    ensures { SaidDeedShows }
{}

/// A line that says no deed changes nothing, and nothing is told on or shown upon it.
pub fn aside_stays()
    ensures { AsideStays }
{}

/// A server that an effect passes by is as it has to be after that effect, its clients are shown
/// nothing, and it passes by whoever takes its lines.
pub fn passed_by_stays()
    ensures { PassedByStays }
{}

/// It sends to each other neighbour that takes its lines one line of an effect, which says the
/// effect there too, or none, and the effect passes that one by.
pub fn said_effect_goes_on()
    ensures { SaidEffectGoesOn }
{
    irc_readback::laws::each_is_read_back();
}

/// So it does with a KILL of a server (RFC 2812 section 3.7.1), whichever link it came by.
pub fn said_kill_goes_on()
    ensures { SaidKillGoesOn }
{
    irc_line::laws::written_is_line();
    irc_line::laws::written_is_read();
    irc_line::laws::every_line_is_read();
    irc_room::laws::names_are_line_words();
}

/// So it does with a SQUIT (RFC 2813 section 4.1.6).
pub fn said_loss_goes_on()
    ensures { SaidLossGoesOn }
{
    irc_line::laws::written_is_line();
    irc_line::laws::written_is_read();
    irc_line::laws::every_line_is_read();
    irc_room::laws::names_are_line_words();
}

/// So it does with the topic that a server tells of a channel with a member of a far server,
/// whether the topic is greater there or not.
pub fn said_topic_goes_on()
    ensures { SaidTopicGoesOn }
{
    irc_line::laws::written_is_line();
    irc_line::laws::written_is_read();
    irc_line::laws::every_line_is_read();
    irc_room::laws::names_are_line_words();
}

/// So it does with a MODE of a server, for such a channel: all its changes go on, also those that
/// raise nothing there.
pub fn said_modes_go_on()
    ensures { SaidModesGoOn }
{
    irc_line::laws::written_is_line();
    irc_line::laws::written_is_read();
    irc_line::laws::every_line_is_read();
    irc_room::laws::names_are_line_words();
}

/// So it does with an NJOIN of users of far servers, at most ten of them, whose spelling of the
/// channel goes on with it.
pub fn said_members_go_on()
    ensures { SaidMembersGoOn }
{
    irc_line::laws::written_is_line();
    irc_line::laws::written_is_read();
    irc_line::laws::every_line_is_read();
    irc_room::laws::names_are_line_words();
}

/// So it does with a SERVER, whether its own neighbour names itself or tells of one behind it (RFC
/// 2813 section 4.1.2).
pub fn said_gain_goes_on()
    ensures { SaidGainGoesOn }
{
    irc_line::laws::written_is_line();
    irc_line::laws::written_is_read();
    irc_line::laws::every_line_is_read();
    irc_room::laws::names_are_line_words();
}

/// So it does with every deed: what it writes of a deed that a line said, says the same deed to
/// each neighbour that takes its lines.
pub fn said_deed_goes_on()
    ensures { SaidDeedGoesOn }
{
    said_effect_goes_on();
    said_gain_goes_on();
    said_loss_goes_on();
    said_kill_goes_on();
    said_members_go_on();
    said_modes_go_on();
    said_topic_goes_on();
}

/// So each server that takes lines follows its side: line by line it is, shows and tells on what
/// the network does and shows by the deed that the line says.
pub fn servers_follow()
    ensures { ServersFollow }
{
    said_deed_fits();
    said_deed_shows();
    said_deed_goes_on();
    aside_stays();
    passed_by_stays();
}

/// The servers of a side are as they are to be with a link more to servers that they do not know
/// yet.
pub fn tree_after_link()
    ensures { TreeAfterLink }
{}

/// So the whole side stays sound by that link, from whatever sources its lines come then.
pub fn side_after_link()
    ensures { SideAfterLink }
{}

/// The servers of a side are as they are to be without a link, once they have lost all that were
/// behind it.
pub fn tree_after_cut()
    ensures { TreeAfterCut }
{}

/// So the whole side stays sound without that link, from whatever sources its lines come then.
pub fn side_after_cut()
    ensures { SideAfterCut }
{}

/// A side stays sound whatever sources its lines come from, along its links or what is left of
/// them.
pub fn other_sources()
    ensures { OtherSources }
{}

/// Who is behind the source for the servers next to it is behind the parent of every server of the
/// side.
pub fn behind_source_is_far()
    ensures { BehindSourceIsFar }
{}

/// What a client says comes to all of its part from its server, which is behind itself for those
/// next to it.
pub fn source_tells()
    ensures { SourceTells }
{}

/// By a new link the near end's side is told of the servers that were joined to the far end.
pub fn near_side_is_told()
    ensures { NearSideIsTold }
{}

/// The far end's side is told of those that were joined to the near end.
pub fn far_side_is_told()
    ensures { FarSideIsTold }
{}

/// When a link is lost, one end's side is told of the servers that are still joined to the other.
pub fn one_side_is_left()
    ensures { OneSideIsLeft }
{}

/// So is the other end's side of those that are still joined to the one.
pub fn other_side_is_left()
    ensures { OtherSideIsLeft }
{}

/// Once the servers of a side know nobody but those that are still joined to its end, the lost link
/// may go.
pub fn cut_once_lost()
    ensures { CutOnceLost }
{}

/// While nothing is under way the side of each server is sound: it is the part of the world that
/// the server is in, where all servers' routes are right.
pub fn side_at_rest_is_sound()
    ensures { SideAtRestIsSound }
{}

/// While nothing is under way the servers that a server has behind a link are those of that side of
/// the link, in order of name.
pub fn behind_is_that_side()
    ensures { BehindIsThatSide }
{}

/// While nothing is under way a server knows of the network what the world has of it: how many
/// links it has, and all servers of its part.
pub fn place_is_worlds()
    ensures { PlaceIsWorlds }
{}

/// While nothing is under way the servers that a server tells a neighbour of are just those of its
/// own side of the link, but for itself.
pub fn told_are_this_side()
    ensures { ToldAreThisSide }
{}

/// It tells of the nearer servers first, of two as far away of the one whose name comes first, and
/// of each once.
pub fn told_by_distance()
    ensures { ToldByDistance }
{}
