//! Networks of servers: the servers, what is on its way between them, and what each client has
//! received. Definitions are in `specs/`.
#![tactic(auto)]

mod answer;
mod fault;
pub mod laws;
mod making;
mod net;
mod step;

pub use answer::Answer;
pub use fault::NetFault;
pub use irc_network::{
    ClientNumber, Forgotten, History, Item, Kept, Receipt, laws as network_laws,
};
pub use irc_server::{Config, Peer};
pub use making::NetConfigFault;
pub use net::Net;
pub use step::{Step, StepAnswer};
