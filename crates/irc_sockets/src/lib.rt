//! TCP sockets as a wire.
#![tactic(auto)]

mod calls;
mod clock;
mod door;
mod host;
mod keep_alive;
mod limits;
mod listen_fault;
mod listening;
mod mio_wire;
mod proxied;
mod sockets;
mod tokens;

pub use calls::Callee;
pub use limits::Limits;
pub use listen_fault::ListenFault;
pub use listening::Listening;
pub use mio_wire::MioWire;
