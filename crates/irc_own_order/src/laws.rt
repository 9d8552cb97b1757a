//! A server is one room machine to its clients, by what is done in its own order.

ghost use Rattle.irc_own_order.specs.Laws.{AnswersAreItsOwn, EffectsAreInOrder};
ghost use Rattle.irc_own_order.specs.Laws.{HandledIsOneMachine, IsMachineOfHandled};
ghost use Rattle.irc_own_order.specs.Laws.{NewIsWellFormed, RoomIsOfEffects, ServedIsOneMachine};
ghost use Rattle.irc_own_order.specs.Laws.{RunIsOneMachine, ServersAreOneMachine};
ghost use Rattle.irc_commands.specs.Comings.{RegisteredIsAdded, UnregisteredChangesNothing};
ghost use Rattle.irc_commands.specs.Doers.{DecidedByItself};
ghost use Rattle.irc_commands.specs.Possible.{DecidedIsPossible, RegisteringIsPossible};

/// Whatever a server is given, its clients are sent what one room machine sends them, by effects
/// that can be done in their turn and are shown, and by answers to the client that asks.
pub fn served_is_one_machine()
    ensures { ServedIsOneMachine }
{
    irc_commands::laws::decided_is_possible();
    irc_commands::laws::registering_is_possible();
    irc_commands::laws::registered_is_added();
    irc_commands::laws::unregistered_changes_nothing();
    irc_commands::laws::decided_by_itself();
}

/// So it is of each event that a server handles, and of each line by which it sets. What is refused
/// changes nothing.
pub fn handled_is_one_machine()
    ensures { HandledIsOneMachine }
{
    served_is_one_machine();
}

/// Over all that it is ever given it is one room machine: at every moment each client has received
/// what that machine sends it.
pub fn servers_are_one_machine()
    ensures { ServersAreOneMachine }
{
    served_is_one_machine();
}

/// So it is of the code: a server that has handled events and lines by which it sets, one after
/// another.
pub fn run_is_one_machine()
    ensures { RunIsOneMachine }
{
    servers_are_one_machine();
}

/// A client is sent no answer by what others do.
pub fn answers_are_its_own()
    ensures { AnswersAreItsOwn }
{}

/// It is the machine that a server without links is.
pub fn is_machine_of_handled()
    ensures { IsMachineOfHandled }
{}

/// A new server has a well-formed room.
pub fn new_is_well_formed()
    ensures { NewIsWellFormed }
{}

/// What is given later has its effects behind those of all that was given before.
pub fn effects_are_in_order()
    ensures { EffectsAreInOrder }
{}

/// Where no channel is spelled anew, the room is what the effects make of it in their order.
pub fn room_is_of_effects()
    ensures { RoomIsOfEffects }
{}
