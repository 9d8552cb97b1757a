//! What a line of a link tells: a deed, and what goes with it.
use irc_channels::{Flags, Words};
use irc_names::{ChannelName, Nick, ServerName};
use irc_room::{Effect, ModeChanges};
use irc_routes::Info;
use std::alloc::Global;

/// What a line of a link tells. Whose line it is is kept where it is passed on.
#[derive(Drop)]
pub enum Deed {
    /// Something is done in the room.
    Does(Effect),
    /// A server comes (RFC 2813 section 4.1.2).
    Server(NewServer),
    /// A server is lost, and its users quit (RFC 2813 section 4.1.6).
    Lost(Loss),
    /// The user of a nickname quits, because another has it too (RFC 2812 section 3.7.1).
    Kill(Killing),
    /// Users become members of a channel (RFC 2813 section 4.2.2).
    Members(NewMembers),
    /// Modes of a channel are set.
    Modes(ModeSetting),
    /// A channel's topic is set.
    Topic(Topic),
}

/// A server that comes.
#[derive(Drop)]
pub struct NewServer {
    /// The server that it is linked to, on the side toward this one.
    pub uplink: ServerName,
    /// Its name.
    pub name: ServerName,
    /// How many links away it is.
    pub distance: u32,
    /// The neighbour's number for it.
    pub token: u32,
    /// How it describes itself.
    pub info: Info,
}

/// A server that is lost.
#[derive(Drop)]
pub struct Loss {
    /// Whose line it is.
    pub server: ServerName,
    /// The server that is lost.
    pub name: ServerName,
    /// The text with which its users quit.
    pub text: Words,
}

/// A user that quits, because another has its nickname too.
#[derive(Drop)]
pub struct Killing {
    /// Whose line it is; this server's own where two users met here.
    pub server: ServerName,
    /// The nickname, as it is stored.
    pub nick: Nick,
}

/// Users that become members of a channel.
#[derive(Drop)]
pub struct NewMembers {
    /// Whose line it is.
    pub server: ServerName,
    /// The channel.
    pub channel: ChannelName,
    /// Those who become members.
    pub members: Vec<NewMember, Global>,
}

/// One who becomes a member of a channel.
#[derive(Drop)]
pub struct NewMember {
    /// Its nickname, as it is stored.
    pub nick: Nick,
    /// What it may do.
    pub flags: Flags,
}

/// Modes of a channel, as a server sets them.
#[derive(Drop)]
pub struct ModeSetting {
    /// Whose line it is.
    pub server: ServerName,
    /// The channel.
    pub channel: ChannelName,
    /// The changes.
    pub changes: ModeChanges,
}

/// A channel's topic, as a server sets it.
#[derive(Drop)]
pub struct Topic {
    /// Whose line it is.
    pub server: ServerName,
    /// The channel.
    pub channel: ChannelName,
    /// The topic.
    pub text: Words,
}
