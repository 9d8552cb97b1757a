//! What holds of the network, whatever is given to it. Each law is a function that does nothing,
//! and its contract is the law: the check proves it, and a crate above may cite it.
ghost use Rattle.irc_world.specs.Bystanders.{OnlyConnectedReceive, OtherPartsStay, WaitingStay};
ghost use Rattle.irc_world.specs.ClientsUsers.{RegisteredAreUsers, StepKeepsMatched};
ghost use Rattle.irc_world.specs.Homes.{ClientsBringOwnUsers};
ghost use Rattle.irc_world.specs.Laws.{NewWorldIsSound, StepStaysSound, WorldIsSound};
ghost use Rattle.irc_world.specs.Bounds.{OneServerTellsNobody};
ghost use Rattle.irc_world.specs.Distances.{PartsHoldWays};
ghost use Rattle.irc_world.specs.Even.{CutIsEven, LinkIsEven, SameWorldsGoOn};
ghost use Rattle.irc_world.specs.OneServer.{NewServerIsAlone, OneServerHasNoLink};
ghost use Rattle.irc_world.specs.OneServer.{OneServerIsTheNetwork, OneServerOwes, OneServerRefuses};
ghost use Rattle.irc_world.specs.WorldHolds.{StepKeepsWorld, TakenMakeWorld};
ghost use Rattle.irc_world.specs.Numbers.{NextNumberIsNew, NumbersStay};
ghost use Rattle.irc_world.specs.Parts.{ClientsAreNumberedOnce, ViewIsWellFormed};
ghost use Rattle.irc_world.specs.WithinLimits.{RoomsKeepLimits, StepKeepsLimits};
ghost use Rattle.irc_world.specs.UsersHomes.{StepKeepsHomes, StepKeepsHomesJoined};
ghost use Rattle.irc_world.specs.UsersHomes.{UsersHomesAreJoined, UsersHomesAreServers};

/// A network with no link and nobody in it is sound.
pub fn new_world_is_sound()
    ensures { NewWorldIsSound }
{}

/// An item that is not refused leaves a sound network sound: links are a forest, servers that are
/// joined have one hall, its room is well formed, and its clients have their homes in that part.
/// Each end of a link is a server that there is.
pub fn step_stays_sound()
    ensures { StepStaysSound }
{
    irc_relay::laws_of_forests::tests_tell();
    irc_relay::laws_of_forests::link_between_parts();
    irc_relay::laws_of_forests::link_taken_out();
    irc_relay::laws_of_forests::joined_over_link();
    irc_commands::laws::decided_is_possible();
    irc_commands::laws::registering_is_possible();
    irc_merge::laws::merge_is_well_formed();
    irc_merge::laws::split_is_well_formed();
}

/// After any items of which none is refused the network is sound.
pub fn world_is_sound()
    ensures { WorldIsSound }
{
    step_stays_sound();
}

/// A network of one server is that server: an item that is not refused is one that the server
/// takes, it does the same to both, and each client receives the same lines.
pub fn one_server_is_the_network()
    ensures { OneServerIsTheNetwork }
{
    irc_routes::laws::alone_is_alone();
    irc_server::laws::lone_server_is_one_room();
}

/// A network of one server has no link: both ends of a link are servers that there are.
pub fn one_server_has_no_link()
    ensures { OneServerHasNoLink }
{}

/// A server that is made of a configuration is the one with which a network of one server begins.
pub fn new_server_is_alone()
    ensures { NewServerIsAlone }
{}

/// Over any items of which none is refused, the clients of a network of one server are owed just
/// what that server owes them.
pub fn one_server_owes()
    ensures { OneServerOwes }
{
    irc_routes::laws::alone_is_alone();
    irc_server::laws::lone_server_is_one_room();
    step_stays_sound();
}

/// What a network of one server refuses because no such client is there, that server refuses as
/// well.
pub fn one_server_refuses()
    ensures { OneServerRefuses }
{}

/// Where a link between two servers is not refused, either of them may connect: afterwards the same
/// servers are joined and linked, each has the same hall and the same place, and each client
/// receives the same lines.
pub fn link_is_even()
    ensures { LinkIsEven }
{
    irc_relay::laws_of_forests::turned_are_the_same();
    irc_relay::laws_of_forests::link_between_parts();
    irc_merge::laws::merge_is_even();
}

/// Where a link is lost, it comes to the same whichever of its ends is named first.
pub fn cut_is_even()
    ensures { CutIsEven }
{
    irc_relay::laws_of_forests::turned_are_the_same();
    irc_relay::laws_of_forests::taken_out_either_way();
    irc_relay::laws_of_forests::tests_tell();
    irc_relay::laws_of_forests::link_taken_out();
}

/// So it does for all that comes after: two networks that are one but for which ends of links were
/// named first go on the same.
pub fn same_worlds_go_on()
    ensures { SameWorldsGoOn }
{
    irc_relay::laws_of_forests::turned_are_the_same();
    irc_relay::laws_of_forests::tests_tell();
    irc_relay::laws_of_forests::link_between_parts();
    irc_relay::laws_of_forests::link_taken_out();
    step_stays_sound();
}

/// Each client in a hall has a number that was given, and is in no other part's hall.
pub fn clients_are_numbered_once()
    ensures { ClientsAreNumberedOnce }
{}

/// A number of a client stays with its home, whatever comes after: it is never given again.
pub fn numbers_stay()
    ensures { NumbersStay }
{}

/// Who connects gets a number that nobody has had.
pub fn next_number_is_new()
    ensures { NextNumberIsNew }
{}

/// What a server keeps of the room of its part, all but the invitations of other servers' users, is
/// well formed.
pub fn view_is_well_formed()
    ensures { ViewIsWellFormed }
{
    irc_room::invitation_laws::home_is_well_formed();
}

/// A network of one server needs no line between servers.
pub fn one_server_tells_nobody()
    ensures { OneServerTellsNobody }
{}

/// What a client does makes users of its own server alone: where the homes of all users of its part
/// pass a test, and its own server does, they pass it still.
pub fn clients_bring_own_users()
    ensures { ClientsBringOwnUsers }
{
    irc_commands::laws::decided_adds_nobody();
    irc_commands::laws::registered_is_added();
    irc_commands::laws::unregistered_changes_nothing();
}

/// Where each user's home is a server that there is, an item that is not refused leaves it so.
pub fn step_keeps_homes()
    ensures { StepKeepsHomes }
{
    clients_bring_own_users();
    irc_merge::laws::merge_has_nothing_new();
    irc_merge::laws::split_has_nothing_new();
}

/// After any items of which none is refused, each user's home is a server that there is.
pub fn users_homes_are_servers()
    ensures { UsersHomesAreServers }
{
    step_keeps_homes();
    step_stays_sound();
}

/// Where each user's home is in the user's part, an item that is not refused leaves it so.
pub fn step_keeps_homes_joined()
    ensures { StepKeepsHomesJoined }
{
    clients_bring_own_users();
    irc_relay::laws_of_forests::tests_tell();
    irc_relay::laws_of_forests::link_between_parts();
    irc_relay::laws_of_forests::link_taken_out();
    irc_relay::laws_of_forests::joined_over_link();
    irc_merge::laws::merge_has_nothing_new();
    irc_merge::laws::split_has_nothing_new();
}

/// After any items of which none is refused, each user's home is in the part whose room the user is
/// in.
pub fn users_homes_are_joined()
    ensures { UsersHomesAreJoined }
{
    step_keeps_homes_joined();
    step_keeps_homes();
    step_stays_sound();
}

/// Where each registered client is a user whose home is that client's, no two clients are one user,
/// and each user is a client, an item that is not refused leaves it so.
pub fn step_keeps_matched()
    ensures { StepKeepsMatched }
{
    irc_relay::laws_of_forests::tests_tell();
    irc_relay::laws_of_forests::link_taken_out();
    irc_relay::laws_of_forests::joined_over_link();
    irc_server::laws::users_come_and_go();
}

/// After any items of which none is refused, each registered client is a user of its part whose
/// home is that client's, no two clients are one user, and each user is a client.
pub fn registered_are_users()
    ensures { RegisteredAreUsers }
{
    step_keeps_matched();
    step_keeps_homes_joined();
    step_keeps_homes();
    step_stays_sound();
}

/// Where servers have names that a server may have, rooms that keep to their limits do so still
/// after an item that is not refused: who connects comes from a host that is one, and a line has
/// neither NUL, CR nor LF.
pub fn step_keeps_limits()
    ensures { StepKeepsLimits }
{
    irc_line::laws::words_are_of_the_line();
    irc_room::laws::after_is_within_limits();
    irc_commands::laws::decided_is_sendable();
    irc_commands::laws::registering_is_sendable();
    irc_merge::laws::merge_is_within_limits();
    irc_merge::laws::split_is_within_limits();
}

/// After any such items of which none is refused, each room keeps to its limits.
pub fn rooms_keep_limits()
    ensures { RoomsKeepLimits }
{
    irc_room::laws::no_room_is_within_limits();
    step_keeps_limits();
    step_stays_sound();
}

/// All that holds of a network holds after an item that is not refused and keeps to the limits.
pub fn step_keeps_world()
    ensures { StepKeepsWorld }
{
    step_stays_sound();
    step_keeps_homes();
    step_keeps_homes_joined();
    step_keeps_matched();
    step_keeps_limits();
}

/// So it holds after any such items of which none is refused.
pub fn taken_make_world()
    ensures { TakenMakeWorld }
{
    world_is_sound();
    users_homes_are_servers();
    users_homes_are_joined();
    registered_are_users();
    rooms_keep_limits();
}

/// A connection that is not registered stays when a link is made or lost, with what it has given,
/// and sees nothing of it.
pub fn waiting_stay()
    ensures { WaitingStay }
{
    irc_relay::laws_of_forests::tests_tell();
    irc_relay::laws_of_forests::link_between_parts();
    irc_relay::laws_of_forests::link_taken_out();
}

/// A part of the network that an item is not about has the hall that it had, its servers know the
/// same of the network, and nobody in it receives anything.
pub fn other_parts_stay()
    ensures { OtherPartsStay }
{
    irc_relay::laws_of_forests::tests_tell();
    irc_relay::laws_of_forests::links_join();
    irc_relay::laws_of_forests::link_between_parts();
    irc_relay::laws_of_forests::link_taken_out();
    irc_relay::laws_of_forests::joined_over_link();
}

/// Who is not connected receives nothing: neither a number that was never given nor one whose
/// client is gone.
pub fn only_connected_receive()
    ensures { OnlyConnectedReceive }
{}

/// Between two servers there are fewer links than there are servers in their part.
pub fn parts_hold_ways()
    ensures { PartsHoldWays }
{
    irc_relay::laws_of_forests::ways_are_short();
}
