//! What crossed on a link: an end keeps a log of what it has put out and the other end had not read
//! when it wrote last, and by that a line that comes is given to the server as it is meant here.
//! Definitions are in `specs/`.
#![tactic(auto)]

mod asking;
mod change;
mod hearing;
pub mod laws;
mod lines;
mod log;
mod modes;
mod raising;
mod setting;

pub use change::{Change, Standing};
pub use hearing::Given;
pub use lines::brings_nobody;
pub use log::{Entry, Log};
pub use raising::raised;
pub use setting::Setting;
