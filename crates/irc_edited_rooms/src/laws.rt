//! The laws of rooms that are edited, whatever places their rows have, and examples that are
//! computed.

ghost use Rattle.irc_edited_rooms.specs.Alike.{AlikeStayAlike};
ghost use Rattle.irc_edited_rooms.specs.Examples.{JoinCrosses, KickCrosses, NextBegins};
ghost use Rattle.irc_edited_rooms.specs.Examples.{NicknamesCross, ThreeRestAlike, TopicsCross};
ghost use Rattle.irc_edited_rooms.specs.Examples.{WrongOnesDiffer};
ghost use Rattle.irc_edited_rooms.specs.Laws.{EditsHaveDiamond, RoomsCanBeTold, RoomsGoWell};
ghost use Rattle.irc_edited_rooms.specs.Laws.{RoomsStaySound};

use irc_relay::laws_of_forests;

/// Each two edits that can be made in one document have the diamond.
pub fn edits_have_diamond<Place>()
    ensures { EditsHaveDiamond Place }
{}

/// So whatever overlaps, and in whatever order links deliver: all servers of a part in which
/// nothing is on its way have one document, and whatever a server is asked to do can be done.
pub fn rooms_go_well<Place>()
    ensures { RoomsGoWell Place }
{
    laws_of_forests::the_way_is_a_walk();
}

/// Documents stay sound, whatever happens.
pub fn rooms_stay_sound<Place>()
    ensures { RoomsStaySound Place }
{}

/// Each sound document can be told at a new link.
pub fn rooms_can_be_told<Place>()
    ensures { RoomsCanBeTold Place }
{}

/// Edits that are alike, but for what does nothing where they stand, lead to the same and stay
/// alike whatever they cross; so do logs of them.
pub fn alike_stay_alike<Place>()
    ensures { AlikeStayAlike Place }
{}

/// A topic one is set at a.net, and a topic two at b.net: both have two.
pub fn topics_cross()
    ensures { TopicsCross }
{}

/// al is renamed ally at a.net, and kicked at b.net: at both ally is there, and out of the channel.
pub fn kick_crosses()
    ensures { KickCrosses }
{}

/// al takes zed at a.net, and bo at b.net: both users are gone at both.
pub fn nicknames_cross()
    ensures { NicknamesCross }
{}

/// al, who was alone in the channel, leaves it at a.net, and bo joins it at b.net: at both bo is
/// its only member, and it has the topic that was set.
pub fn join_crosses()
    ensures { JoinCrosses }
{}

/// al, who was alone in the channel, leaves it at a.net, and ann makes it anew, while a key is set
/// in the old one at b.net: at both ann is its only member, and nothing is set in it.
pub fn next_begins()
    ensures { NextBegins }
{}

/// In a line of three, of which two had a channel of one name, edits cross; a link is lost, and
/// made again with what each has become by then. Whenever all was read, all three have the same
/// users, members, topic and key.
pub fn three_rest_alike()
    ensures { ThreeRestAlike }
{}

/// Where both of two edits that cross are done as they came, or neither is, two servers differ at
/// rest: it is the diamond that the laws rest on.
pub fn wrong_ones_differ()
    ensures { WrongOnesDiffer }
{}
