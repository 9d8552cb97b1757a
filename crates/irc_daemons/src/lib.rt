//! Daemons that are joined by links are one room. Laws over definitions alone: each is a function
//! that does nothing, and its contract is the law.
//!
//! `daemons_are_one_room` is the law, and `specs/OneRoom.antt` says it: engines over any wires
//! (`irc_engine`) begin new, with no link. Links between them are made and lost, keep order, and
//! items do not overlap: what a client does, and the first that a server is told of a link, begin
//! where nothing is on its way between servers, and until the other end of that link was told too
//! no other item comes. Then what was written to each client is at every moment a front of what
//! one room sends it, with what its outbox holds too while its connection is there, and all of it
//! where nothing is in transit and both ends were told. No memory ran out for any of them.
//!
//! - `Daemons` (`specs/Daemons.antt`) is engines, the connections that are the ends of each link,
//!   who is linked, and the bytes in transit. `Steps` is one engine's turn as its contract has
//!   it; `TellsEnd` (`specs/Tellings.antt`) a turn by which a server is told that a link is up,
//!   or lost. `Runs` (`specs/Runs.antt`) is such steps one after another, with their items
//!   (`specs/Items.antt`).
//! - `IsAsBytes` (`specs/AsBytes.antt`) relates engines to a network whose links carry bytes. On
//!   each way is what is in transit, and behind it the near end's outbox; what has come of a line
//!   is in the far end's framer. Servers are the same but for the numbers of connections
//!   (`irc_numbers`). `IsAsNetwork` (`specs/AsNetwork.antt`) has the clients too.
//! - `each_step_is_followed` (`specs/EachStep.antt`): the network follows each step by which no
//!   link changes. A turn that reads a link's end is bytes that come, one with items is these
//!   items given, and another is nothing. So the network goes on (`LeadsTo`), and its clients are
//!   owed what `irc_net` says.
//! - By a link that changes the network asks both its ends at once, and daemons are told one
//!   after the other. In between they are as a network of which only one was asked
//!   (`proofs/Halves.antt`), beside the one that has gone on (`proofs/Lacking.antt`: all but what
//!   that one server does): bytes come to both alike, since none come to the server that is still
//!   to be told (`proofs/Sides.antt`, `proofs/Aside.antt`: after a cut its side stays still).
//!   `proofs/Owing.antt` follows such daemons, `proofs/Telling.antt` the turns that tell,
//!   `proofs/Changing.antt` joins the two, and `proofs/Running.antt` is the run.
#![tactic(auto)]

pub mod laws;
