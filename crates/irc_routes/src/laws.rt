//! What holds of the servers that a server knows. Each law is a function that does nothing, and its
//! contract is the law: the check proves it, and a crate above may cite it.
ghost use Rattle.irc_routes.specs.Laws.{
  AddedGetsSmallest,
  AloneIsAlone,
  BehindIsOfLink,
  LoseIsOfLink,
  PlaceListsAll,
  PlaceTells,
  SmallestIsFree,
  StaysNumbered,
};

/// The smallest free number stands for no server, and every smaller one from 2 on stands for one.
pub fn smallest_is_free()
    ensures { SmallestIsFree }
{}

/// A server that is added gets the smallest free number, also one that was lost before.
pub fn added_gets_smallest()
    ensures { AddedGetsSmallest }
{}

/// Just the servers behind a link are named as behind it.
pub fn behind_is_of_link()
    ensures { BehindIsOfLink }
{}

/// Just the servers behind a link are lost with it; those behind another are behind it still.
pub fn lose_is_of_link()
    ensures { LoseIsOfLink }
{}

/// What a decision may know lists all servers in order of name: each that is known, and the server
/// itself, once.
pub fn place_lists_all()
    ensures { PlaceListsAll }
{}

/// What a decision is told of a server, how far away it is and how it describes itself, is what is
/// known of it.
pub fn place_tells()
    ensures { PlaceTells }
{}

/// A server that knows no other is linked to none.
pub fn alone_is_alone()
    ensures { AloneIsAlone }
{}

/// Whatever is added, forgotten or lost, no two servers have one of our numbers, nor one number of
/// a neighbour on its link, and a server is not among those that it knows.
pub fn stays_numbered()
    ensures { StaysNumbered }
{}
