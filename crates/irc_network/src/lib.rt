//! A network of servers as it runs: the servers, the bytes that are on their way along its links,
//! and what each client has received. Definitions are in `specs/`.
#![tactic(auto)]

mod call_output;
mod client_number;
mod coming;
mod delivery_counts;
mod doing;
mod forgotten;
mod giving;
mod history;
mod inbox;
mod item;
mod kept;
pub mod laws;
mod network;
mod node;
mod receipt;
mod refusal;
mod refusing;

pub use call_output::CallOutput;
pub use client_number::ClientNumber;
pub use delivery_counts::DeliveryCounts;
pub use forgotten::Forgotten;
pub use history::History;
pub use item::Item;
pub use kept::Kept;
pub use network::Network;
pub use node::Node;
pub use receipt::Receipt;
pub use refusal::Refusal;
