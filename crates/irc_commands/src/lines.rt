//! Lines of a client by example.
ghost use Rattle.irc_commands.specs.Lines.{
  AwayIsHidden,
  AwayIsTold,
  AwayIsUnknown,
  EarlyJoin,
  FifthTarget,
  ForeignPrefix,
  MemberIsHeard,
  NoticeIsNotTold,
  OutsiderIsKeptOut,
  QuitWithText,
  SilentNotice,
  TakenByFold,
  TakenMeanwhile,
  UnknownTarget,
  UnknownWord,
};

/// A target that is not there is named as it was given.
#[tactic(auto, using(crate::proofs::SmallRooms::unknown_target))]
pub fn unknown_target_is_answered()
    ensures { UnknownTarget }
{}

/// Four targets are served, and a fifth is too many.
#[tactic(auto, using(crate::proofs::SmallRooms::fifth_target))]
pub fn fifth_target_is_too_many()
    ensures { FifthTarget }
{}

/// A NOTICE to nobody is not answered.
#[tactic(auto, using(crate::proofs::SmallRooms::silent_notice))]
pub fn notice_is_never_answered()
    ensures { SilentNotice }
{}

/// `QUIT :bye` is seen by others first; then the client is sent its ERROR line and closed.
#[tactic(auto, using(crate::proofs::SmallRooms::quit_with_text))]
pub fn quit_ends_with_an_error_line()
    ensures { QuitWithText }
{}

/// A command that is not in the table is named as it was given.
#[tactic(auto, using(crate::proofs::SmallRooms::unknown_word))]
pub fn unknown_command_is_answered()
    ensures { UnknownWord }
{}

/// A line with the prefix of another is ignored.
#[tactic(auto, using(crate::proofs::SmallRooms::foreign_prefix))]
pub fn foreign_prefix_is_ignored()
    ensures { ForeignPrefix }
{}

/// Other commands have to wait for registration.
#[tactic(auto, using(crate::proofs::SmallRooms::early_join))]
pub fn join_waits_for_registration()
    ensures { EarlyJoin }
{}

/// A nickname is taken in any case of letters.
#[tactic(auto, using(crate::proofs::SmallRooms::taken_by_fold))]
pub fn nickname_is_taken_under_the_fold()
    ensures { TakenByFold }
{}

/// A nickname that somebody registered with meanwhile is lost as the registration completes.
#[tactic(auto, using(crate::proofs::SmallRooms::taken_meanwhile))]
pub fn nickname_is_looked_up_twice()
    ensures { TakenMeanwhile }
{}

/// What a member says to its channel is said to the channel as its maker spelled it.
#[tactic(auto, using(crate::proofs::SmallRooms::member_is_heard))]
pub fn member_is_heard()
    ensures { MemberIsHeard }
{}

/// An outsider says nothing to a channel with mode n.
#[tactic(auto, using(crate::proofs::SmallRooms::outsider_is_kept_out))]
pub fn outsider_is_kept_out()
    ensures { OutsiderIsKeptOut }
{}

/// That a user is away is told behind the text to it, where a server has what programs expect.
#[tactic(auto, using(crate::proofs::SmallRooms::away_is_told))]
pub fn away_is_told()
    ensures { AwayIsTold }
{}

/// A NOTICE is not answered so.
#[tactic(auto, using(crate::proofs::SmallRooms::notice_is_not_told))]
pub fn notice_is_not_told()
    ensures { NoticeIsNotTold }
{}

/// A server that has not what programs expect knows no AWAY.
#[tactic(auto, using(crate::proofs::SmallRooms::away_is_unknown))]
pub fn away_is_unknown()
    ensures { AwayIsUnknown }
{}

/// It tells nobody who is away.
#[tactic(auto, using(crate::proofs::SmallRooms::away_is_hidden))]
pub fn away_is_hidden()
    ensures { AwayIsHidden }
{}
