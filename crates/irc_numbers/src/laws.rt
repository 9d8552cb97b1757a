//! Numbers are nothing to a server.
ghost use Rattle.irc_numbers.specs.EndsLast.{NothingIsBehindAnEnd};
ghost use Rattle.irc_numbers.specs.InUse.{NumbersInUseCount};
ghost use Rattle.irc_numbers.specs.Meaning.{LinesAreHeardAlike};
ghost use Rattle.irc_numbers.specs.ServedAlike.{NumbersAreNothing};

/// A line of a link is the same to two servers that are alike but for numbers: it is ignored,
/// closes the link, is of the handshake, or tells the same.
pub fn lines_are_heard_alike()
    ensures { LinesAreHeardAlike }
{}

/// Whatever happens to a client or by a link of two servers that are alike but for numbers, they do
/// the same: they are alike again, and put out the same to each client and on each link.
pub fn served_alike()
    ensures { NumbersAreNothing }
{}

/// Nothing is put out to a client behind its end.
pub fn nothing_is_behind_an_end()
    ensures { NothingIsBehindAnEnd }
{}

/// Servers that are alike by some numbers are so by others that are the same for each link and each
/// client that is there: a number may be given before a link is made, and taken back once it is
/// lost.
pub fn numbers_in_use_count()
    ensures { NumbersInUseCount }
{}
