//! Who is let in, and as whom: ranges of addresses from where nobody comes in, headers of the PROXY
//! protocol by which a proxy says for whom it comes, how many are open from one address. Nothing
//! here knows a socket.
#![tactic(auto)]

mod address_range;
mod awaited_header;
mod crowd;
mod entrance;
pub mod laws;
mod proxy_bytes;
mod proxy_header;
mod proxy_line;

pub use address_range::{AddressRange, read_ranges};
pub use awaited_header::{AwaitedHeader, may_await_one_more};
pub use crowd::Crowd;
pub use entrance::{Entrance, Entry};
pub use proxy_header::{ProxyHeader, read_header};
