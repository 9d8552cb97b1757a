//! What is on its way along the links of a network: bytes, and at each far end a framer that makes
//! lines of them. Definitions are in `specs/`.
#![tactic(auto)]

pub mod laws;
mod pipe;
mod pipes;
mod row;

pub use pipe::LinkPipe;
pub use pipes::Pipes;
