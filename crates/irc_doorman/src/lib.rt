//! Who stands between clients and a server: it asks each client for a password, and asks one that
//! says nothing whether it is there, where the configuration wants that. All else goes to the
//! server as it comes, and what the server says goes to clients as it is. Definitions are in
//! `specs/`.
#![tactic(auto)]

mod asks;
mod doorman;
mod guest;
pub mod laws;
mod password;
mod texts;

pub use asks::Asks;
pub use doorman::Doorman;
pub use password::{ClientPassword, MAX_CLIENT_PASSWORD};
