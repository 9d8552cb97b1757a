//! What a line of a registered user does.
use irc_acts::Act;
use irc_queries::Query;
use std::alloc::Global;

/// What a line does.
#[derive(Drop)]
pub struct Decision {
    /// Its steps, in order.
    pub steps: Vec<Act, Global>,
    /// What the client asks besides, which is answered from the room as it is.
    pub query: Option<Query>,
    /// Whether the client is closed after them.
    pub close: bool,
}
