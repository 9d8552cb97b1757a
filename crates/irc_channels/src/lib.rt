//! The channels of a room: their topics, members and invitations.
#![tactic(auto)]

mod channel;
mod channels;
mod fault;
mod flags;
pub mod laws;
mod member_changing;
mod row_changes;
mod stored;
mod words;

pub use channel::Channel;
pub use channels::Channels;
pub use fault::ChannelsFault;
pub use flags::Flags;
pub use stored::Stored;
pub use words::Words;
