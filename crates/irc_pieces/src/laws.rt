//! What holds of pieces that are written and read. Each law is a function that does nothing, and
//! its contract is the law: the check proves it, and a crate above may cite it.
ghost use Rattle.irc_pieces.specs.Laws.{CountsAreRead, PiecesComeWhole};

/// What stands in front of a piece is read as what it was written from.
pub fn counts_are_read()
    ensures { CountsAreRead }
{
    irc_decimals::laws::written_is_read();
    irc_decimals::laws::numbers_are_digits();
    irc_line::laws::written_is_read();
    irc_line::laws::every_line_is_read();
}

/// What one end of a link puts out as a piece, the other end hears as that piece.
pub fn pieces_come_whole()
    ensures { PiecesComeWhole }
{
    counts_are_read();
}
