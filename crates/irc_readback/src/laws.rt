//! What holds of what servers write to each other and read. Each law is a function that does
//! nothing, and its contract is the law: the check proves it, and a crate above may cite it.
ghost use Rattle.irc_readback.specs.EachReadBack.{EachIsReadBack};
ghost use Rattle.irc_readback.specs.Introductions.{IntroducedIsRead};
ghost use Rattle.irc_readback.specs.ModesTaken.{OtherwiseWrittenIsRefused, TakenCanBeSentOn};
ghost use Rattle.irc_readback.specs.ModesTaken.{TakenIsReadAgain, TakenIsReadByTheNext};
ghost use Rattle.irc_readback.specs.ModesTaken.{TakenIsWrittenSo, WrittenChangesAreRead};
ghost use Rattle.irc_readback.specs.OtherInvitations.{AlikeMeanAlike, AlikeWriteAlike, ReadAtHome};
ghost use Rattle.irc_readback.specs.OtherInvitations.{WrittenAtHome};
ghost use Rattle.irc_readback.specs.ReadBack.{WrittenIsReadBack};
ghost use Rattle.irc_readback.specs.WholeLines.{ToldFitsItsLine, ToldIsCarried, ToldIsWhole};

/// What is written on a link of an effect, but for a user who comes and for changes of a channel's
/// modes, is one line, and it is read as just that effect: by a server that knows the users whom it
/// names, where the server of the user whom it is from is behind the link.
pub fn written_is_read_back()
    ensures { WrittenIsReadBack }
{
    irc_line::laws::written_is_line();
    irc_line::laws::written_is_read();
    irc_line::laws::every_line_is_read();
    irc_room::laws::names_are_line_words();
    irc_room::laws::sent_is_shown_whole();
}

/// A user who keeps the limits is read of the line by which a server introduces it (RFC 2813
/// section 4.1.3), where the reader finds the user's server under the writer's number, and takes it
/// to be one link further away than the writer does, or knows no distance.
pub fn introduced_is_read()
    ensures { IntroducedIsRead }
{}

/// Changes of a channel's modes that a user makes are read of the line that tells of them, as they
/// are.
pub fn written_changes_are_read()
    ensures { WrittenChangesAreRead }
{
    irc_modes::laws::written_is_read();
    irc_room::laws::names_are_line_words();
}

/// A line of changes of a channel's modes is taken only where what is read of it is written as it
/// is, and refused wherever something else would be written. Who hands such changes on writes the
/// same words, and they are read again as the same changes.
pub fn taken_is_written_so()
    ensures taken { TakenIsWrittenSo }
    ensures refused { OtherwiseWrittenIsRefused }
    ensures again { TakenIsReadAgain }
{}

/// What a MODE line of a link is taken to say can be written again, and is read as the same,
/// whatever the words of the line: by any room that keeps the limits, which spells the names as it
/// has them; and by the next server, to which the user is known and is behind the link.
pub fn taken_can_be_sent_on()
    ensures written { TakenCanBeSentOn }
    ensures read { TakenIsReadByTheNext }
{
    irc_modes::laws::written_is_read();
    irc_modes::laws::some_asked_are_readable();
    irc_modes::laws::reworded_is_written();
    irc_modes::laws::reworded_is_readable();
    irc_room::laws::names_are_line_words();
}

/// No line that tells another server of an effect is cut (RFC 2812 section 2.3: 510 bytes before CR
/// LF), where the effect can be sent, or is one by which the server itself sets modes or the topic
/// of a channel; and no word of it has a byte that a line cannot carry.
pub fn told_is_whole()
    ensures fits { ToldFitsItsLine }
    ensures whole { ToldIsWhole }
    ensures carried { ToldIsCarried }
{
    irc_room::laws::names_are_line_words();
    irc_room::laws::sent_is_shown_whole();
}

/// What is written on a link of any effect that can be sent is one line, and it is read as just
/// that effect: by a server that knows the users whom it names, where the server of the user whom
/// it is from is behind the link, and where both agree on the server of a user who comes.
pub fn each_is_read_back()
    ensures { EachIsReadBack }
{
    irc_line::laws::written_is_line();
    irc_line::laws::written_is_read();
    irc_line::laws::every_line_is_read();
    irc_room::laws::names_are_line_words();
    irc_room::laws::sent_is_shown_whole();
    written_is_read_back();
    introduced_is_read();
    written_changes_are_read();
    told_is_whole();
}

/// In two rooms that are alike but for who is invited, an effect is written as the same line, and a
/// line is read alike.
pub fn lines_look_at_no_invitation()
    ensures written { AlikeWriteAlike }
    ensures read { AlikeMeanAlike }
{}

/// So a server, which has the invitations of its own users alone, writes and reads by what it has
/// of a room what it would by all of the room.
pub fn lines_at_home()
    ensures written { WrittenAtHome }
    ensures read { ReadAtHome }
{
    irc_room::invitation_laws::home_is_alike();
    lines_look_at_no_invitation();
}
