//! What a burst tells of users, as laws without code.
ghost use Rattle.irc_users.specs.ChangesTold.{ChangesMeetTheirUsers, ToldUnseen, ToldWhole};

/// The line that introduces a user, and its changes behind it, tell all of it.
pub fn told_whole()
    ensures { ToldWhole }
{}

/// No line is shown of those changes.
pub fn told_unseen()
    ensures { ToldUnseen }
{}

/// Behind the introductions of users, their changes change each of them alone.
pub fn changes_meet_their_users()
    ensures { ChangesMeetTheirUsers }
{}
