//! What holds of any network of servers. Each law is a function that does nothing, and its contract
//! is the law: the check proves it, and a crate above may cite it.
ghost use Rattle.irc_network.specs.Laws.{GivenIsKept, ReceiptsAreReceived, RestStays};
ghost use Rattle.irc_network.specs.Whole.{BytesComeAsLines, EachComesToLine, GivenAsLines};
ghost use Rattle.irc_network.specs.Whole.{NewIsWhole, NoByteRests, RestAsLines, TurnAsLines};

/// Where no line is on its way there is none to deliver.
pub fn rest_stays()
    ensures { RestStays }
{}

/// What is given is kept in turn, and lines are counted anew.
pub fn given_is_kept()
    ensures { GivenIsKept }
{}

/// What clients have received by an item, by a delivery or by lines that are taken in turn is what
/// the network tells of each.
pub fn receipts_are_received()
    ensures { ReceiptsAreReceived }
{}

/// A network in which nothing is on its way yet is as one whose links carry lines.
pub fn new_is_whole()
    ensures { NewIsWhole }
{
    irc_line::laws::pieces_complete_the_same();
}

/// An item that is given at rest does what it does where links carry lines.
pub fn given_as_lines()
    ensures { GivenAsLines }
{
    irc_line::laws::pieces_complete_the_same();
}

/// Bytes that come deliver the lines that they complete, in turn, where links carry lines.
pub fn bytes_come_as_lines()
    ensures { BytesComeAsLines }
{
    irc_line::laws::pieces_complete_the_same();
}

/// By a turn no line is completed, or just that which is the next in turn where links carry lines.
pub fn turn_as_lines()
    ensures { TurnAsLines }
{
    irc_line::laws::pieces_complete_the_same();
    bytes_come_as_lines();
}

/// Bytes that come in turn complete a line in the end, or no byte is on its way.
pub fn each_comes_to_line()
    ensures { EachComesToLine }
{}

/// Where nothing is on its way, no line is where links carry lines; and where no byte is on its
/// way, no part of a line has come either.
pub fn rest_as_lines()
    ensures lines { RestAsLines }
    ensures bytes { NoByteRests }
{
    irc_line::laws::pieces_complete_the_same();
}
