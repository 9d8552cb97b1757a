//! The servers that a server knows, and the numbers that stand for them on links.
#![tactic(auto)]

mod about;
mod adding;
mod fault;
mod info;
pub mod laws;
mod newcomer;
mod numbers;
mod own;
mod programs;
mod routes;
mod rows;
mod server_row;
mod tokens;

pub use fault::RoutesFault;
pub use info::Info;
pub use newcomer::Newcomer;
pub use own::Own;
pub use programs::Programs;
pub use routes::Routes;
pub use server_row::ServerRow;

/// How many servers there may be, the server itself among them (our own choice).
pub const MAX_SERVERS: usize = 256;

// A server's number for itself, and the numbers that it gives to others (RFC 2813 section 4.1.2;
// that they are given so is our own choice).
const OWN_TOKEN: u32 = 1;

const FIRST_TOKEN: u32 = 2;

const LAST_TOKEN: u32 = 256;
