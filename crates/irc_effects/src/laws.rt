//! What holds of a room and the effects on it. Each law is a function that does nothing, and its
//! contract is the law: the check proves it, and a crate above may cite it.
ghost use Rattle.irc_effects.specs.Laws.{
  AfterIsWellFormed,
  AfterIsWithinLimits,
  EachViewerOnce,
  IdleChangesNothing,
  InvitationUsedUp,
  JoinMakesChannel,
  LastMemberEndsChannel,
  NamedIsWholeToo,
  NamesAreLineWords,
  NoRoomIsWellFormed,
  NoRoomIsWithinLimits,
  OwnModeSeenAlone,
  PrivateTextSeenAlone,
  QuitSeenOnce,
  SentFitsItsLine,
  SentIsShownWhole,
  SentKeepsLimits,
};
ghost use Rattle.irc_effects.specs.Respelled.{
  AllElseStays,
  OneRowRespelled,
  RespelledIsWellFormed,
  RespelledIsWithinLimits,
  RespelledOnce,
};
ghost use Rattle.irc_effects.specs.Viewers.{OneViewersLines};

/// The room with nobody in it is well formed.
pub fn no_room_is_well_formed()
    ensures { NoRoomIsWellFormed }
{}

/// A room stays well formed: whom and what an effect names is there, and then members and invited
/// users are users after it, each row stands under the fold of its name, and each channel has a
/// member.
pub fn after_is_well_formed()
    ensures { AfterIsWellFormed }
{}

/// Each name that keeps its rule is a word that a line can carry, and that is read again as it was
/// written (RFC 2812 section 2.3.1).
pub fn names_are_line_words()
    ensures { NamesAreLineWords }
{}

/// A room with nobody in it is within its limits: the rules of names, the lengths of texts, and
/// that a line can carry each of them.
pub fn no_room_is_within_limits()
    ensures { NoRoomIsWithinLimits }
{}

/// A room stays within its limits by each effect that brings only what is within them, whoever does
/// it; and so does each effect that can be sent.
pub fn after_is_within_limits()
    ensures all { AfterIsWithinLimits }
    ensures sent { SentKeepsLimits }
{}

/// The line that an effect shows which can be sent is never cut, whoever is shown it (RFC 2812
/// section 2.3: 510 bytes before CR LF). With the doer's nickname alone in front, as servers write
/// it, it is shorter.
pub fn sent_is_shown_whole()
    ensures fits { SentFitsItsLine }
    ensures whole { SentIsShownWhole }
    ensures by_nickname { NamedIsWholeToo }
{}

/// An effect that does nothing leaves the room equal: a Join by a member, a Part or a Kick of
/// somebody who is none.
pub fn idle_changes_nothing()
    ensures { IdleChangesNothing }
{}

/// What an effect shows stands in folded order of the viewers, and no two showings are to one
/// viewer.
pub fn each_viewer_once()
    ensures { EachViewerOnce }
{}

/// A user who shares channels with one that quits, however many, is shown its Quit, and that once.
pub fn quit_seen_once()
    ensures { QuitSeenOnce }
{}

/// A change of a user's own mode is shown to that user alone (RFC 2812 section 3.1.5).
pub fn own_mode_seen_alone()
    ensures { OwnModeSeenAlone }
{}

/// A text for a user is shown to that user alone; its sender is shown it only where it is for the
/// sender (RFC 2812 section 3.3.1).
pub fn private_text_seen_alone()
    ensures { PrivateTextSeenAlone }
{}

/// An invitation is used up by joining: who was no member of the channel is not invited to it after
/// its Join (RFC 2811 section 4.2.2).
pub fn invitation_used_up()
    ensures { InvitationUsedUp }
{}

/// When the only member of a channel leaves it, by a Part, a Kick or a Quit, there is no such
/// channel.
pub fn last_member_ends_channel()
    ensures { LastMemberEndsChannel }
{}

/// A Join of a channel that is not there makes it as it is spelled, with no mode set, no topic and
/// nobody invited. Its one member is who joined, an operator where the Join says so, and without
/// voice.
pub fn join_makes_channel()
    ensures { JoinMakesChannel }
{}

/// Among all that an effect shows, one user's lines are the one line that it shows to that user, or
/// none.
pub fn one_viewers_lines()
    ensures { OneViewersLines }
{}

/// A room in which a channel's name was spelled in the greater of two ways is well formed, and
/// within its limits by a spelling that keeps the rule of names. That name alone is another, and
/// is so once: users, members and invitations are as they were.
pub fn one_name_is_respelled()
    ensures well_formed { RespelledIsWellFormed }
    ensures limits { RespelledIsWithinLimits }
    ensures row { OneRowRespelled }
    ensures all_else { AllElseStays }
    ensures once { RespelledOnce }
{}
