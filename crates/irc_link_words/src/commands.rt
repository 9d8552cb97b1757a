//! The commands of the lines of a link.
ghost use Rattle.std.specs.Prelude.{◌≡◌};
ghost use Rattle.irc_link_words.specs.Commands.{command_of};

use crate::words::is_command;

/// A command of a line of a link (RFC 2813 section 4).
#[derive(Clone, Copy)]
pub enum LinkCommand {
    /// Its line tells of something that is done in the room.
    OfEffects(EffectCommand),
    /// Its line is one of a server.
    OfServers(ServerCommand),
}

/// A command of a line that tells of an effect.
#[derive(Clone, Copy)]
pub enum EffectCommand {
    /// NICK: a user comes, or takes another nickname.
    Nick,
    /// QUIT: a user leaves.
    Quit,
    /// JOIN: a user joins a channel.
    Join,
    /// PART: a member leaves a channel.
    Part,
    /// KICK: a member is made to leave.
    Kick,
    /// MODE: modes change, of a channel or of a user.
    Mode,
    /// TOPIC: a channel's topic changes.
    Topic,
    /// PRIVMSG and NOTICE: a text is said; whether it is a NOTICE.
    Say(bool),
    /// INVITE: a user is invited.
    Invite,
}

/// A command of a line of a server.
#[derive(Clone, Copy)]
pub enum ServerCommand {
    /// SERVER: a server comes.
    Server,
    /// SQUIT: a server is lost.
    Squit,
    /// KILL: a user quits, whose nickname another has.
    Kill,
    /// NJOIN: users become members of a channel.
    Njoin,
    /// PASS: a link begins.
    Pass,
}

/// Each command by its name.
const ROWS: [(&[u8], LinkCommand); 15] = [
    (b"NICK", LinkCommand::OfEffects(EffectCommand::Nick)),
    (b"QUIT", LinkCommand::OfEffects(EffectCommand::Quit)),
    (b"JOIN", LinkCommand::OfEffects(EffectCommand::Join)),
    (b"PART", LinkCommand::OfEffects(EffectCommand::Part)),
    (b"KICK", LinkCommand::OfEffects(EffectCommand::Kick)),
    (b"MODE", LinkCommand::OfEffects(EffectCommand::Mode)),
    (b"TOPIC", LinkCommand::OfEffects(EffectCommand::Topic)),
    (
        b"PRIVMSG",
        LinkCommand::OfEffects(EffectCommand::Say(false)),
    ),
    (b"NOTICE", LinkCommand::OfEffects(EffectCommand::Say(true))),
    (b"INVITE", LinkCommand::OfEffects(EffectCommand::Invite)),
    (b"SERVER", LinkCommand::OfServers(ServerCommand::Server)),
    (b"SQUIT", LinkCommand::OfServers(ServerCommand::Squit)),
    (b"KILL", LinkCommand::OfServers(ServerCommand::Kill)),
    (b"NJOIN", LinkCommand::OfServers(ServerCommand::Njoin)),
    (b"PASS", LinkCommand::OfServers(ServerCommand::Pass)),
];

/// The command that a word is, in any case of letters; none where links carry no such line.
pub fn command_of(word: &[u8]) -> Option<LinkCommand>
    ensures { result ≡ command_of word.now }
{
    for (name, command) in ROWS {
        if is_command(name, word) {
            return Some(command);
        }
    }
    None
}
