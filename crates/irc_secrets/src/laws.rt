//! What effects show of a channel to a user outside of it.

ghost use Rattle.irc_secrets.specs.Laws.{AreSeenSo, BothStayAlike, ButForIsEquivalence};
ghost use Rattle.irc_secrets.specs.Laws.{ChannelShowsNothing, InvitedIsShown, JoinerIsShown};
ghost use Rattle.irc_secrets.specs.Laws.{ListsShowAlike, OneStaysAlike, OthersShowAlike};
ghost use Rattle.irc_secrets.specs.Laws.{OutsideFromTheStart, OutsiderStaysOutside};
ghost use Rattle.irc_secrets.specs.Laws.{OutsidersAreShownAlike, SharesAlike};

use irc_effects::laws as room_laws;

/// To be alike but for a channel is an equivalence of rooms, and a room is so to what it is without
/// that channel.
pub fn but_for_is_equivalence()
    ensures { ButForIsEquivalence }
{}

/// Two rooms stay alike but for a channel by whatever is done in both, and by whatever is done in
/// that channel in one of them.
pub fn rooms_stay_alike()
    ensures both { BothStayAlike }
    ensures one { OneStaysAlike }
{}

/// An effect in a channel shows nothing to one who is no member: no line of a Join, a Part, a Kick,
/// of modes, of the topic or of what is said there.
pub fn channel_shows_nothing()
    ensures { ChannelShowsNothing }
{}

/// The exceptions: an invitation shows the invited the channel's name, and who joins is shown it.
pub fn invited_and_joiner_are_shown()
    ensures invited { InvitedIsShown }
    ensures joiner { JoinerIsShown }
{}

/// Any other effect shows one who is no member the same line, whatever the channel is, and also
/// where a member of it takes another nickname or leaves.
pub fn others_show_alike()
    ensures shared { SharesAlike }
    ensures shown { OthersShowAlike }
{}

/// So it is of a user's lines among all that is seen.
pub fn all_is_seen_so()
    ensures { AreSeenSo }
{
    room_laws::one_viewers_lines();
}

/// A user outside of a secret channel stays so while nothing is done in that channel.
pub fn outsider_stays_outside()
    ensures { OutsiderStaysOutside }
{}

/// Whoever is outside of a channel at the start stays so, if it neither joins, nor is invited, nor
/// leaves.
pub fn outside_from_the_start()
    ensures { OutsideFromTheStart }
{
    room_laws::after_is_well_formed();
}

/// What is done in a channel, and how much, changes no line of one who stays outside of it.
pub fn lists_show_alike()
    ensures { ListsShowAlike }
{
    room_laws::after_is_well_formed();
}

/// So it is of whoever is outside at the start, and neither joins, nor is invited, nor leaves.
pub fn outsiders_are_shown_alike()
    ensures { OutsidersAreShownAlike }
{
    room_laws::after_is_well_formed();
}
