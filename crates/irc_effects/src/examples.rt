//! Small rooms, and what is so in them. Each example is a function that does nothing, and its
//! contract is the example.
ghost use Rattle.irc_effects.specs.Examples.{
  BanStandsOnce,
  ChangesWritten,
  ChannelMadeAnew,
  EachSeesItsOwnServer,
  GreaterSpellingStays,
  InvitationGoneWithChannel,
  InviteToNoChannelIsToldOnly,
  JoinOnceMoreShowsNothing,
  JoinShownToAll,
  KickShownToKicked,
  NickTakenByFold,
  OwnSpellingIsFree,
  PartWrittenAsStored,
  QuitHiddenFromDoer,
  RenameCarriesMembership,
  RenameShownOnce,
  SayShownToOthers,
  SecondMemberIsNoOperator,
  SecretStaysSecret,
};

/// With `foo[` there, the nickname `FOO{` is not free: the two are one under the fold.
pub fn nick_taken_by_fold()
    ensures { NickTakenByFold }
{}

/// A user may take its own nickname in another spelling.
pub fn own_spelling_is_free()
    ensures { OwnSpellingIsFree }
{}

/// A member with a new nickname is a member as before, with the flags that it had.
pub fn rename_carries_membership()
    ensures { RenameCarriesMembership }
{}

/// A Rename is shown once to its doer and to whoever shares a channel with it.
pub fn rename_shown_once()
    ensures { RenameShownOnce }
{}

/// A Quit is not shown to who quits; to one who shares two channels with it, it is shown once.
pub fn quit_hidden_from_doer()
    ensures { QuitHiddenFromDoer }
{}

/// A Join is shown to the members and to who joins.
pub fn join_shown_to_all()
    ensures { JoinShownToAll }
{}

/// A member who joins once more shows nothing.
pub fn join_once_more_shows_nothing()
    ensures { JoinOnceMoreShowsNothing }
{}

/// The second member of a channel is no operator.
pub fn second_member_is_no_operator()
    ensures { SecondMemberIsNoOperator }
{}

/// A channel that ended with its last member begins anew, with its new maker for its operator.
pub fn channel_made_anew()
    ensures { ChannelMadeAnew }
{}

/// Of two spellings of one channel the greater by bytes stays, whichever was there first.
pub fn greater_spelling_stays()
    ensures { GreaterSpellingStays }
{}

/// A Part is written with the stored spellings of its user and its channel.
pub fn part_written_as_stored()
    ensures { PartWrittenAsStored }
{}

/// A Kick is shown to whom it takes out too.
pub fn kick_shown_to_kicked()
    ensures { KickShownToKicked }
{}

/// Where mode s is set, `+p` and `-p` leave it set.
pub fn secret_stays_secret()
    ensures { SecretStaysSecret }
{}

/// Changes of modes are written with a sign where it differs from the one before, and with stored
/// spellings of nicknames.
pub fn changes_written()
    ensures { ChangesWritten }
{}

/// A ban that is set twice, in two cases of letters, stands once, as it was last spelled.
pub fn ban_stands_once()
    ensures { BanStandsOnce }
{}

/// What a server does is shown to each viewer as done by its own server.
pub fn each_sees_its_own_server()
    ensures { EachSeesItsOwnServer }
{}

/// What a member says in its channel is shown to the other member alone.
pub fn say_shown_to_others()
    ensures { SayShownToOthers }
{}

/// An invitation does not outlast its channel.
pub fn invitation_gone_with_channel()
    ensures { InvitationGoneWithChannel }
{}

/// An Invite to a channel that is not there is told, and makes no channel.
pub fn invite_to_no_channel_is_told_only()
    ensures { InviteToNoChannelIsToldOnly }
{}
