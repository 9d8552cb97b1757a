//! What a door says. A law is a function that does nothing, and its contract is the law: the check
//! proves it.
ghost use Rattle.irc_door.specs.Doors.{IsPlainly};
ghost use Rattle.irc_door.specs.Examples.{CapabilitiesAreNone, LettersAreWhole};
ghost use Rattle.irc_door.specs.Examples.{MessagesAreTold, OthersGo};
ghost use Rattle.irc_door.specs.Examples.{RowsAreTurned, SupportedFits, TextsAreMessages};
ghost use Rattle.irc_door.specs.Examples.{VersionIsOne};

/// Where nothing is asked for, all goes as the machine says it.
pub fn plain_as_it_is()
    ensures { IsPlainly }
{}

/// Texts for clients, computed.
pub fn texts_said()
    ensures rows { RowsAreTurned }
    ensures others { OthersGo }
    ensures letters { LettersAreWhole }
    ensures supported { SupportedFits }
    ensures version { VersionIsOne }
    ensures message { MessagesAreTold }
    ensures texts { TextsAreMessages }
    ensures capabilities { CapabilitiesAreNone }
{}
