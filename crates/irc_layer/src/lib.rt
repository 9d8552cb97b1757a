//! A layer around a server: it stands between the lines of links and the server. Lines that it puts
//! out on a link are counted, so that it knows of a line that comes what its writer had read, and
//! the server is given it as it is meant here. Definitions are in `specs/`.
#![tactic(auto)]

mod asking;
mod away;
mod end;
mod giving;
mod holding;
pub mod laws;
mod layer;
mod putting;

pub use layer::Layer;
