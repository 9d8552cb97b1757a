//! What a line of a link is to the server.
use irc_batch::CloseReason;
use irc_burst::Deed;
use irc_link_words::Password;
use irc_names::ServerName;
use irc_routes::Info;
use std::alloc::Global;

/// What a line of a link is to the server, by what the end of that link knows (RFC 2813 sections
/// 4.1 and 5).
#[derive(Drop)]
pub(crate) enum Heard {
    /// It says nothing.
    Nothing,
    /// The link is closed for this.
    Closes(CloseReason),
    /// The other end gives its password.
    Password(Password),
    /// The server at the other end names itself.
    Meets {
        /// Its name.
        name: ServerName,
        /// How it describes itself.
        info: Info,
    },
    /// It tells of this, in order.
    Tells(Vec<Deed, Global>),
}
