//! What holds of reading and writing together. Each law is a function that does nothing, and its
//! contract is the law: the check proves it, and a crate above may cite it.
ghost use Rattle.std.specs.Prelude.{◌≡◌};
ghost use Rattle.irc_line.specs.Laws.{EveryLineIsRead, IsReadSoAlone, LinesAreCarried};
ghost use Rattle.irc_line.specs.Laws.{LinesAreCompleted, PiecesCompleteTheSame, WordsAreOfTheLine};
ghost use Rattle.irc_line.specs.Laws.{WrittenIsLine, WrittenIsRead};
ghost use Rattle.irc_line.specs.Limits.{max_line, max_text, max_parameters};

use crate::limits::{MAX_LINE, MAX_PARAMETERS, MAX_TEXT};

/// What is written from plain parts, and was not cut, is read as these parts: at most
/// [`MAX_PARAMETERS`](crate::limits::MAX_PARAMETERS) parameters, no word but the last with a space,
/// empty or beginning with a colon, and no NUL anywhere.
pub fn written_is_read()
    ensures { WrittenIsRead }
{}

/// The function by which a line is read (`read_of` of `specs/`) gives what the grammar reads,
/// whatever the line, and the grammar reads it as nothing else.
pub fn every_line_is_read()
    ensures so { EveryLineIsRead }
    ensures alone { IsReadSoAlone }
{}

/// What is known of a message that was read from a line: each of its words is one of the line, no
/// longer than the line and without a NUL, CR or LF; the prefix and the command have no space; and
/// only the last parameter may be empty, have spaces or begin with a colon.
pub fn words_are_of_the_line()
    ensures lines { LinesAreCarried }
    ensures words { WordsAreOfTheLine }
{}

/// The constants of [`limits`](crate::limits) are the numbers that the definitions name.
pub fn limits_are_so()
    ensures line { MAX_LINE ≡ max_line }
    ensures text { MAX_TEXT ≡ max_text }
    ensures parameters { MAX_PARAMETERS ≡ max_parameters }
{}

/// What is written of parts that a line can carry is a line: some bytes, no more than it has room
/// for, and no NUL, CR or LF.
pub fn written_is_line()
    ensures { WrittenIsLine }
{}

/// However a stream is cut, its bytes complete the same lines, each piece behind the one before;
/// and a line with its CR LF completes just that line.
pub fn pieces_complete_the_same()
    ensures pieces { PiecesCompleteTheSame }
    ensures lines { LinesAreCompleted }
{}
