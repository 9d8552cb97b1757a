//! What a network answers.
use irc_network::{ClientNumber, Receipt};
use std::alloc::Global;

/// What comes of an item that is taken.
#[derive(Drop)]
pub struct Answer {
    /// The number of the client that has connected, if one has.
    pub client: Option<ClientNumber>,
    /// What clients have received by it, in order.
    pub lines: Vec<Receipt, Global>,
}
