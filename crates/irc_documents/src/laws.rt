//! The laws of documents that two ends edit, and of networks of such links, and examples that are
//! computed.
//!
//! A law of any documents and operations is one of a type that tells them by [`Edited`]; whoever
//! has them in `specs/` alone takes the lemma of `specs/Lemmas` that proves it.

ghost use Rattle.irc_documents.specs.Editing.{Editing};
ghost use Rattle.irc_documents.specs.Examples.{LineRests, RegisterGoesWell, WritesCross};
ghost use Rattle.irc_documents.specs.Examples.{WrongOnesDiffer};
ghost use Rattle.irc_documents.specs.Laws.{AllGoesWell, AskedMayBeMade, EndsRestAlike, GridTurns};
ghost use Rattle.irc_documents.specs.Laws.{LinksAreInFlight, ListsMeet, PartsRestAlike};
ghost use Rattle.irc_documents.specs.Laws.{PiecesHaveDiamond, PiecesMeet, StepKeepsSound};
ghost use Rattle.irc_documents.specs.Laws.{StepsMeetByDiamond, UncrossedIsAsMade};

use irc_relay::laws_of_forests;

/// Documents that are edited by these operations.
pub trait Edited<Op> {
    ghost editing: { Editing Self Op };
}

/// Two lists of operations that were made in one document, of which each two have the diamond:
/// each behind the other leads to the same document, and may be made there.
pub fn lists_meet<Doc: Edited<Op>, Op>()
    ensures { ListsMeet Doc.editing }
{}

/// What becomes of a list behind another is the same, whichever of the two is gone along.
pub fn grid_turns<Doc: Edited<Op>, Op>()
    ensures { GridTurns Doc.editing }
{}

/// Two pieces have the diamond if each two of their operations have it.
pub fn pieces_meet<Doc: Edited<Op>, Op>()
    ensures { PiecesMeet Doc.editing }
{}

/// So all pieces have it, if all operations have it.
pub fn pieces_have_diamond<Doc: Edited<Op>, Op>()
    ensures { PiecesHaveDiamond Doc.editing }
{}

/// Each step keeps it so that the links are a forest, and that each is in flight, if what is read
/// has the diamond with what it crosses.
pub fn step_keeps_sound<Doc: Edited<Op>, Op>()
    ensures { StepKeepsSound Doc.editing }
{}

/// Whatever happens, from any network without links, if each two that cross have the diamond: the
/// links are a forest, and from each link's common document each end's is reached by what the
/// other has not read.
pub fn links_are_in_flight<Doc: Edited<Op>, Op>()
    ensures { LinksAreInFlight Doc.editing }
{}

/// So both ends of a link on which nothing is on its way have one document.
pub fn ends_rest_alike<Doc: Edited<Op>, Op>()
    ensures { EndsRestAlike Doc.editing }
{}

/// So have all servers of a part in which nothing is on its way.
pub fn parts_rest_alike<Doc: Edited<Op>, Op>()
    ensures { PartsRestAlike Doc.editing }
{
    laws_of_forests::the_way_is_a_walk();
}

/// While no operation is on its way to an end, the other would make of what it writes just what it
/// is: where nothing crosses, nothing is changed.
pub fn uncrossed_is_as_made<Doc: Edited<Op>, Op>()
    ensures { UncrossedIsAsMade Doc.editing }
{}

/// What a server is asked to do by the message that it reads next may be made there.
pub fn asked_may_be_made<Doc: Edited<Op>, Op>()
    ensures { AskedMayBeMade Doc.editing }
{}

/// If each two operations that can be made in one document have the diamond, so have each two that
/// cross.
pub fn steps_meet_by_diamond<Doc: Edited<Op>, Op>()
    ensures { StepsMeetByDiamond Doc.editing }
{}

/// So then, whatever happens, from any network without links: all servers of a part in which
/// nothing is on its way have one document, and whatever a server is asked to do may be made.
pub fn all_goes_well<Doc: Edited<Op>, Op>()
    ensures { AllGoesWell Doc.editing }
{
    laws_of_forests::the_way_is_a_walk();
}

/// Writes to a register, of which the greater stays: the diamond holds; a 3 and a 5 cross, and
/// lists of such.
pub fn writes_cross()
    ensures { WritesCross }
{}

/// So all goes well with the register, one by one and in pieces.
pub fn register_goes_well()
    ensures { RegisterGoesWell }
{
    laws_of_forests::the_way_is_a_walk();
}

/// In a line of three a 7 and a 5 cross: all three have 7, and 3 once that is written over it. A
/// link is lost, and made again between a 9 and a 4: all have 9.
pub fn line_rests()
    ensures { LineRests }
{}

/// Where both of two writes that cross are done as they came, or neither is, two ends differ at
/// rest: it is the diamond that the laws rest on.
pub fn wrong_ones_differ()
    ensures { WrongOnesDiffer }
{}
