//! What holds of all that is decided. Each law is a function that does nothing, and its contract is
//! the law: the check proves it, and a crate above may cite it.
ghost use Rattle.irc_commands.specs.Possible.{DecidedIsPossible, RegisteringIsPossible};
ghost use Rattle.irc_commands.specs.Doing.{DecidedDoes, RegisteringDoes};
ghost use Rattle.irc_commands.specs.OwnInvitations.{DecidedByOwnInvitations};
ghost use Rattle.irc_commands.specs.Sendable.{DecidedIsSendable, RegisteringIsSendable};
ghost use Rattle.irc_commands.specs.AtHome.{DecidedAtHome, HomeIsAlikeForItsOwn, RegisteringAtHome};
ghost use Rattle.irc_commands.specs.AtHome.{RegisteringByUsers};
ghost use Rattle.irc_commands.specs.Doers.{DecidedByItself};
ghost use Rattle.irc_commands.specs.Comings.{
  DecidedAddsNobody,
  OnlyItselfIsRenamed,
  RegisteredIsAdded,
  RegisteredStays,
  UnregisteredChangesNothing,
  WhoIsClosedQuits,
  WhoStaysIsUser,
};

/// Each effect that a user's line is decided to have is possible when its turn comes, in any
/// well-formed room: whom and what it names is there.
#[tactic(auto, using(crate::proofs::PossibleLaws::decided_is_possible))]
pub fn decided_is_possible()
    ensures { DecidedIsPossible }
{}

/// The same of a line of a connection that is not registered: the nickname of a user that is added
/// is free.
#[tactic(auto, using(crate::proofs::PossibleLaws::registering_is_possible))]
pub fn registering_is_possible()
    ensures { RegisteringIsPossible }
{}

/// Each effect that a user's line is decided to have does something when its turn comes: nobody
/// joins who is a member, and nobody leaves or is kicked who is none.
#[tactic(auto, using(crate::proofs::DoingLaws::decided_does))]
pub fn decided_does()
    ensures { DecidedDoes }
{}

/// The same of a line of a connection that is not registered.
#[tactic(auto, using(crate::proofs::DoingLaws::registering_does))]
pub fn registering_does()
    ensures { RegisteringDoes }
{}

/// A user's line does the same whoever else is invited to channels.
#[tactic(auto, using(crate::proofs::CommandTable::decided_by_own_invitations))]
pub fn decided_by_own_invitations()
    ensures { DecidedByOwnInvitations }
{}

/// Each effect that a user's line is decided to have can be sent when its turn comes, in a
/// well-formed room within limits: a server that reads the line that tells of it gets just this
/// effect.
#[tactic(auto, using(crate::proofs::SendableLaws::decided_is_sendable))]
pub fn decided_is_sendable()
    ensures { DecidedIsSendable }
{}

/// What a connection that is not registered gives keeps to the limits, line by line, where what it
/// has given did; and the user that it becomes is one that another server can be told of.
pub fn registering_is_sendable()
    ensures { RegisteringIsSendable }
{}

/// No line of a user makes somebody a user.
#[tactic(auto, using(crate::proofs::ComingLaws::decided_adds_nobody))]
pub fn decided_adds_nobody()
    ensures { DecidedAddsNobody }
{}

/// No line of a user gives another nickname to anybody but that user.
#[tactic(auto, using(crate::proofs::ComingLaws::only_itself_is_renamed))]
pub fn only_itself_is_renamed()
    ensures { OnlyItselfIsRenamed }
{}

/// A line after which its client stays makes nobody a user, nor a user nobody.
#[tactic(auto, using(crate::proofs::ComingLaws::who_stays_is_user))]
pub fn who_stays_is_user()
    ensures { WhoStaysIsUser }
{}

/// A line after which its client is closed is a Quit of that client's user, and changes nothing
/// else.
#[tactic(auto, using(crate::proofs::ComingLaws::who_is_closed_quits))]
pub fn who_is_closed_quits()
    ensures { WhoIsClosedQuits }
{}

/// A connection that is registered by a line becomes a user of its server, with the nickname that
/// it has given, and nothing else changes.
#[tactic(auto, using(crate::proofs::ComingLaws::registered_is_added))]
pub fn registered_is_added()
    ensures { RegisteredIsAdded }
{}

/// A line of a connection by which it is not registered changes nothing of the room.
#[tactic(auto, using(crate::proofs::ComingLaws::unregistered_changes_nothing))]
pub fn unregistered_changes_nothing()
    ensures { UnregisteredChangesNothing }
{}

/// A connection that is registered by a line is not closed by it.
#[tactic(auto, using(crate::proofs::ComingLaws::registered_stays))]
pub fn registered_stays()
    ensures { RegisteredStays }
{}

/// Each effect that a user's line is decided to have is done by that user: nobody acts in the name
/// of somebody else.
#[tactic(auto, using(crate::proofs::OwnDoing::decided_by_itself))]
pub fn decided_by_itself()
    ensures { DecidedByItself }
{}

/// A room, and what a server has of it, differ for none of that server's users: who is invited of
/// the others is not asked.
pub fn home_is_alike_for_its_own()
    ensures { HomeIsAlikeForItsOwn }
{
    irc_room::invitation_laws::home_is_alike();
    irc_room::invitation_laws::home_knows_its_invited();
}

/// A user's line does at its own server, which knows of no other server's invitations, what it does
/// in the whole room.
pub fn decided_at_home()
    ensures { DecidedAtHome }
{
    decided_by_own_invitations();
    home_is_alike_for_its_own();
}

/// What a line of a connection that is not registered does depends on nothing of the room but its
/// users.
#[tactic(auto, using(crate::proofs::RegisteringCases::registering_by_users))]
pub fn registering_by_users()
    ensures { RegisteringByUsers }
{}

/// So it is at each server what it is in the whole room.
pub fn registering_at_home()
    ensures { RegisteringAtHome }
{
    irc_room::invitation_laws::home_is_alike();
}
