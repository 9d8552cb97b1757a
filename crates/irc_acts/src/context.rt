//! What a command is decided by.
use irc_room::Room;
use irc_routes::Routes;
use irc_users::User;
use std::alloc::Global;

/// What a command of a user is decided by. Nothing of it is changed.
#[derive(Clone, Copy)]
pub struct Context<'a> {
    /// Where the steps are made.
    pub alloc: Global,
    /// The room as it is.
    pub room: &'a Room,
    /// What the server knows of servers.
    pub routes: &'a Routes,
    /// Whose command it is.
    pub me: &'a User,
}
