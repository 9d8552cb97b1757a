//! What a server is configured to be.
use std::alloc::Global;

/// A server's own row.
#[derive(Drop)]
pub struct Own {
    /// Its name, which [`irc_names::is_server`] takes.
    pub name: Vec<u8, Global>,
    /// How it describes itself: at most [`irc_names::MAX_INFO`] bytes, none of them NUL, CR or LF.
    pub info: Vec<u8, Global>,
    /// When it was created: 1 to [`irc_names::MAX_CREATED`] bytes, none of them NUL, CR or LF.
    pub created: Vec<u8, Global>,
}
