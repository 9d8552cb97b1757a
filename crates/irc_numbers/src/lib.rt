//! Two servers that are alike but for the numbers of links and clients stay so, whatever happens to
//! both. Laws over definitions alone: each is a function that does nothing, and its contract is the
//! law.
//!
//! A server of an engine has its connections under the numbers that the wire gives them, links and
//! clients in one row; in a network the end of a link has the place of the server at the other end
//! for a number, and a client its number in the network. `AreAlike` (`specs/Alike.antt`) says that
//! two servers are the same but for that, and `served_alike` that they stay so, and put out the
//! same to each client and on each link.
//! Between clients and links the order may differ. Nothing is put out to a client behind its end
//! (`nothing_is_behind_an_end`), so in bytes too it is the same; and a number may be given before
//! it is used, and taken back once it is not (`numbers_in_use_count`).
#![tactic(auto)]

pub mod laws;
