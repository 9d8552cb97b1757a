//! What holds of a server with links, whatever happens. Each law is a function that does nothing,
//! and its contract is the law: the check proves it, and a crate above may cite it.
ghost use Rattle.irc_server.specs.Closings.{ServedClosesItsOwn};
ghost use Rattle.irc_server.specs.Connected.{WhoIsConnected, WhoIsConnectedBehind};
ghost use Rattle.irc_server.specs.LineEnds.{ServedLinesEnd, SetLinesEnd};
ghost use Rattle.irc_server.specs.Own.{ServedGoesToItsOwn, ServedKeepsEnds};
ghost use Rattle.irc_server.specs.Laws.{NeverBack, NeverBackOfAll};
ghost use Rattle.irc_commands.specs.Comings.{RegisteredIsAdded, RegisteredStays};
ghost use Rattle.irc_commands.specs.Comings.{UnregisteredChangesNothing, WhoIsClosedQuits};
ghost use Rattle.irc_commands.specs.Comings.{WhoStaysIsUser};
ghost use Rattle.irc_commands.specs.Possible.{DecidedIsPossible, RegisteringIsPossible};
ghost use Rattle.irc_stage.specs.Matched.{StaysMatched};
ghost use Rattle.irc_server.specs.Owed.{LoneServerOwesTheSame};
ghost use Rattle.irc_server.specs.Served.{LoneServerIsOneRoom, ServedKeepsItsSetting};
ghost use Rattle.irc_server.specs.Served.{ServedStaysMatched};

/// Each server that a server knows stays behind a link that counts.
pub fn served_keeps_ends()
    ensures { ServedKeepsEnds }
{}

/// What a server puts out goes to its own clients and on its open links alone, or on the link that
/// is being opened.
pub fn served_goes_to_its_own()
    ensures { ServedGoesToItsOwn }
{}

/// Each line that a server puts out on a link ends in CR LF.
pub fn served_lines_end()
    ensures { ServedLinesEnd }
{}

/// So does each line that it puts out by a line of a link by which a server sets.
pub fn set_lines_end()
    ensures { SetLinesEnd }
{}

/// A server closes just the link by which a line came that has a reason to be closed, for that
/// reason, or one that it is told to open to a name that no peer has (RFC 2813 section 4.1).
/// Whatever else happens closes no link.
pub fn served_closes_its_own()
    ensures { ServedClosesItsOwn }
{}

/// A client or a link is there from when it comes until it goes or is closed, and nobody else comes
/// or goes.
pub fn who_is_connected()
    ensures { WhoIsConnected }
{}

/// So it is by a line of a link by which a server sets: who is not closed stays.
pub fn who_is_connected_behind()
    ensures { WhoIsConnectedBehind }
{}

/// A deed that came by a link never goes back on it, nor do deeds one after another.
pub fn never_back()
    ensures one { NeverBack }
    ensures all { NeverBackOfAll }
{}

/// By what is decided a user is one from when it registers to when it quits, on a line of its own;
/// nobody else becomes a user or ceases to be one.
pub fn users_come_and_go()
    ensures possible { DecidedIsPossible }
    ensures stays { WhoStaysIsUser }
    ensures closes { WhoIsClosedQuits }
    ensures registering { RegisteringIsPossible }
    ensures added { RegisteredIsAdded }
    ensures unregistered { UnregisteredChangesNothing }
    ensures registered { RegisteredStays }
{
    irc_commands::laws::decided_is_possible();
    irc_commands::laws::who_stays_is_user();
    irc_commands::laws::who_is_closed_quits();
    irc_commands::laws::registering_is_possible();
    irc_commands::laws::registered_is_added();
    irc_commands::laws::unregistered_changes_nothing();
    irc_commands::laws::registered_stays();
}

/// Whatever happens, each registered client is a user of the room whose home is this server, and no
/// two clients are one user.
pub fn stays_matched()
    ensures machine { StaysMatched }
    ensures server { ServedStaysMatched }
{
    irc_room::invitation_laws::alike_stay_alike();
    users_come_and_go();
}

/// Whatever happens, a server's peers and what it says of itself stay as they were configured.
pub fn keeps_its_setting()
    ensures { ServedKeepsItsSetting }
{}

/// A server without links and the room machine that it is to its clients say the same: put back,
/// what the machine has after what a client does is what the server has, and the same is put out.
pub fn lone_server_is_one_room()
    ensures { LoneServerIsOneRoom }
{}

/// What a server without links owes a connection, the room machine that it is to its clients owes
/// it.
pub fn lone_server_owes_the_same()
    ensures { LoneServerOwesTheSame }
{
    lone_server_is_one_room();
}
