//! The laws of effects as edits.

ghost use Rattle.irc_room_edits.specs.AllNicks.{AllNicksAreListed};
ghost use Rattle.irc_room_edits.specs.Examples.{BansCross, BothMakeChannel, ChannelComesBack};
ghost use Rattle.irc_room_edits.specs.Examples.{JoinMakesChannel, KeysCross, LeaversGo};
ghost use Rattle.irc_room_edits.specs.Examples.{LeavesCross};
ghost use Rattle.irc_room_edits.specs.Examples.{ModesAreSet, NamesAreFollowed, NoChangeIsWritten};
ghost use Rattle.irc_room_edits.specs.Examples.{PrivaciesCross, RenameIsSpelled, SecondJoins};
ghost use Rattle.irc_room_edits.specs.Examples.{TextsAreSet, TopicsCross, TwoToOneName};
ghost use Rattle.irc_room_edits.specs.Laws.{DocumentsAreSound, EffectsAreEdits};
ghost use Rattle.irc_room_edits.specs.Laws.{SpellingsAreEdits};
ghost use Rattle.irc_room_edits.specs.RestAlike.{EffectsCanBeGiven, RoomsRestAlike};
ghost use Rattle.irc_room_edits.specs.SameRooms.{DocumentsTellRooms};

use irc_relay::laws_of_forests;

/// The document of a room is sound.
pub fn documents_are_sound()
    ensures { DocumentsAreSound }
{}

/// An effect that can be done in a room is the edits that it is said to be: they can be made in the
/// document of the room, and lead to that of the room behind the effect.
pub fn effects_are_edits()
    ensures { EffectsAreEdits }
{}

/// So it is with another spelling of a channel's name.
pub fn spellings_are_edits()
    ensures { SpellingsAreEdits }
{}

/// Rooms with one document hold the same: users, and channels but for who is invited.
pub fn documents_tell_rooms()
    ensures { DocumentsTellRooms }
{}

/// The list of all nicknames has each one. Laws of edits ask for such a list.
pub fn all_nicks_are_listed()
    ensures { AllNicksAreListed }
{}

/// Servers whose rooms are edited as documents hold the same, whatever overlapped, once nothing is
/// on its way in their part.
pub fn rooms_rest_alike()
    ensures { RoomsRestAlike }
{
    laws_of_forests::the_way_is_a_walk();
}

/// What such a server is given may be any effect that can be done in its room.
pub fn effects_can_be_given()
    ensures { EffectsCanBeGiven }
{}

/// A JOIN of a channel that is not there brings its member as an operator, and how it is spelled.
pub fn join_makes_channel()
    ensures { JoinMakesChannel }
{}

/// One of a channel that is there brings its member, and leaves what is set.
pub fn second_joins()
    ensures { SecondJoins }
{}

/// A TOPIC and an AWAY write their texts.
pub fn texts_are_set()
    ensures { TextsAreSet }
{}

/// Modes write their places: p and s one, and so two spellings of one mask.
pub fn modes_are_set()
    ensures { ModesAreSet }
{}

/// Who is kicked is no member; where the last one quits, nothing is set in the channel.
pub fn leavers_go()
    ensures { LeaversGo }
{}

/// Who is renamed is a member as before, and spelled as in the NICK.
pub fn rename_is_spelled()
    ensures { RenameIsSpelled }
{}

/// Of two topics that cross the greater stays at both ends.
pub fn topics_cross()
    ensures { TopicsCross }
{}

/// Where a key is taken away and another one set, that one stays.
pub fn keys_cross()
    ensures { KeysCross }
{}

/// Where p and s are set, s stays.
pub fn privacies_cross()
    ensures { PrivaciesCross }
{}

/// What changes nothing writes what is there: s, for a `-p` beside a `-s`, and s stays.
pub fn no_change_is_written()
    ensures { NoChangeIsWritten }
{}

/// A ban that is set in two spellings stands once, in the greater one.
pub fn bans_cross()
    ensures { BansCross }
{}

/// Who is kicked and parts is out at both ends, and nothing else is.
pub fn leaves_cross()
    ensures { LeavesCross }
{}

/// Who is renamed at one end and kicked at the other is renamed, and out.
pub fn names_are_followed()
    ensures { NamesAreFollowed }
{}

/// Two who take one nickname both go.
pub fn two_to_one_name()
    ensures { TwoToOneName }
{}

/// Where the last member parts and somebody joins, the channel is there with its topic.
pub fn channel_comes_back()
    ensures { ChannelComesBack }
{}

/// Where two make one channel, both are operators in it, and of its spellings the greater stays.
pub fn both_make_channel()
    ensures { BothMakeChannel }
{}
