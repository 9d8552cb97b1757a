//! What holds of changes of modes and of the modes that they leave, of two channels' modes, joined,
//! and of what one raises in the other. Each law is a function that does nothing, and its contract
//! is the law: the check proves it, and a crate above may cite it.

ghost use Rattle.irc_modes.specs.ModeLaws.{
  BansAreReadable,
  LeftIsReadable,
  ReadChangesAreFew,
  RewordedIsReadable,
  RewordedIsWritten,
  SetIsReadable,
  SetMakesTheModes,
  SomeAskedAreReadable,
  WrittenIsRead,
};
ghost use Rattle.irc_modes.specs.JoinedLaws.{JoinedAssociates, JoinedIsEven, JoinedIsWithinLimits};
ghost use Rattle.irc_modes.specs.JoinedLaws.{JoinedWithItself};
ghost use Rattle.irc_modes.specs.RaisedLaws.{NothingRaised, RaisedInTurn, RaisedIsJoined};

/// Changes that are written (RFC 2812 section 3.2.3) and read again are the same changes, where
/// each has the word of its letter and they keep the limits of one command.
pub fn written_is_read()
    ensures { WrittenIsRead }
{}

/// What is left when some of these changes are left out is read as it is written too.
pub fn left_is_readable()
    ensures { LeftIsReadable }
{}

/// Whatever the words of a MODE, at most three of the changes that are read of it are written with
/// a parameter, and no letter of i, m, n, p, s, t, k and l is among them twice.
pub fn read_changes_are_few()
    ensures { ReadChangesAreFew }
{}

/// Some of the changes that are read of a MODE, in order, each with a word of its letter in place
/// of the one that was given, are read as they are written.
pub fn some_asked_are_readable()
    ensures { SomeAskedAreReadable }
{}

/// The letters of changes with other words behind them, as the nicknames of members as they are
/// stored, are what the changes with these words are written as.
pub fn reworded_is_written()
    ensures { RewordedIsWritten }
{}

/// Changes are read as they are written with other words too, where each of these is one of its
/// letter.
pub fn reworded_is_readable()
    ensures { RewordedIsReadable }
{}

/// The changes that set the modes of a channel, and its bans, make the same modes of a channel with
/// none.
pub fn set_makes_the_modes()
    ensures { SetMakesTheModes }
{}

/// Those of them that set no ban are read as they are written, all in one command.
pub fn set_is_readable()
    ensures { SetIsReadable }
{}

/// Three of those that set bans, or fewer, are too.
pub fn bans_are_readable()
    ensures { BansAreReadable }
{}

/// Which of two is named first makes no difference, whatever their bans are.
pub fn joined_is_even()
    ensures { JoinedIsEven }
{}

/// Of three it makes no difference which two are joined first.
pub fn joined_associates()
    ensures { JoinedAssociates }
{}

/// Modes whose bans are in order, as those of every channel are, joined with themselves are what
/// they are.
pub fn joined_with_itself()
    ensures { JoinedWithItself }
{}

/// Modes within limits are joined to modes within limits: the bans are masks in order, and there
/// may be as many as both have.
pub fn joined_is_within_limits()
    ensures { JoinedIsWithinLimits }
{}

/// What is raised of a line is what each change of it raises in turn. So all that is told of a
/// channel's modes, in any lines, makes of others both joined.
pub fn raised_is_joined()
    ensures in_turn { RaisedInTurn }
    ensures joined { RaisedIsJoined }
{}

/// Of a side's own modes nothing is raised: a side that comes again with the modes that are there
/// changes none of them.
pub fn nothing_raised()
    ensures { NothingRaised }
{}
