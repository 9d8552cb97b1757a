//! A server before its first event ([`FirstStage`]), between two ([`Stage`]), and while it handles
//! one ([`Serving`], [`Handling`]): its clients, its room, its links, and what it puts out. A call
//! takes the whole server and gives it back, so that each clause is one equation; what is moved is
//! a pointer to it. These types alone seat a client, take one
//! out, open a link and apply an effect; they alone decide on which links a line goes, and forget
//! what a change makes stale. Definitions are in `specs/`.
#![tactic(auto)]

mod audience;
mod branches;
mod clients;
mod handling;
mod link_end;
mod linked;
mod listeners;
mod merging;
mod numbers;
mod origin;
mod parts;
mod peer;
mod serving;
mod stage;
mod telling;
mod view;
mod ways;

pub use clients::{Client, Waiting};
pub use handling::Handling;
pub use link_end::LinkEnd;
pub use numbers::{Conn, Link};
pub use origin::{Origin, Speaker};
pub use peer::Peer;
pub use serving::Serving;
pub use stage::{FirstStage, Stage};
pub use view::View;
