//! Small networks that are joined, by example.
ghost use Rattle.irc_merge.specs.Examples.{ChannelIsTold, ChannelsAreJoined, GreaterTopicIsSet};
ghost use Rattle.irc_merge.specs.Examples.{LinkIsMadeAgain, ModesAreJoined, NicknameOnBothSides};
ghost use Rattle.irc_merge.specs.Examples.{ThirtyOneMembers};

/// A channel is told by its members, its modes, its bans and its topic.
pub fn channel_is_told()
    ensures { ChannelIsTold }
{}

/// Thirty-one members are told in four lines.
pub fn thirty_one_members()
    ensures { ThirtyOneMembers }
{}

/// Two channels of one name become one, and their members see each other come.
pub fn channels_are_joined()
    ensures { ChannelsAreJoined }
{}

/// Modes, keys and topics of two channels of one name are joined, and the members of each see what
/// the other's raise.
pub fn modes_are_joined()
    ensures { ModesAreJoined }
{}

/// A topic that is told is set where it is the greater, and else left.
pub fn greater_topic_is_set()
    ensures { GreaterTopicIsSet }
{}

/// Both holders of a nickname are killed.
pub fn nickname_on_both_sides()
    ensures { NicknameOnBothSides }
{}

/// A link that is lost and made again gives members back, and an invitation where somebody of its
/// side stayed in the channel.
pub fn link_is_made_again()
    ensures { LinkIsMadeAgain }
{}
