//! What a client's line does: before it is registered (PASS, NICK, USER, PING, PONG, QUIT) and
//! after that, by the command table; commands of users on the server, and laws of all commands.
//!
//! In `lines` are worked examples, what lines of a client do in small rooms: functions that do
//! nothing, whose contract is the example, which the check proves.
#![tactic(auto)]

pub mod closing;
mod command_names;
mod deciding;
mod decision;
pub mod laws;
pub mod lines;
mod nick;
mod own_lines;
mod pending;
pub mod ping;
mod quit;
mod registering;
mod say;
mod table;
mod topic;
mod whowas;

pub use command_names::{Command, CommandRow};
pub use deciding::decide;
pub use decision::Decision;
pub use irc_acts::Act;
pub use irc_channel_commands::MAX_JOINED;
pub use own_lines::is_own;
pub use pending::{Pending, Registration};
pub use registering::register;
pub use say::Verb;

/// The most targets of one PRIVMSG or NOTICE that are served (our own choice).
pub const MAX_TARGETS: usize = 4;
