//! The commands that are built, by their names, and how many parameters each wants.
ghost use Rattle.std.specs.Prelude.{◌≡◌, map};
ghost use Rattle.std.specs.Option.{option_map};
ghost use Rattle.irc_commands.specs.CommandNames.{command_of, found, row_named, row_view};
ghost use Rattle.irc_commands.specs.CommandNames.{same_letters};

use irc_routes::Programs;

/// A command that is built (RFC 2812 section 3).
#[derive(Clone, Copy)]
pub enum Command {
    /// PASS
    Pass,
    /// NICK
    Nick,
    /// USER
    User,
    /// QUIT
    Quit,
    /// PING
    Ping,
    /// PONG
    Pong,
    /// MOTD
    Motd,
    /// PRIVMSG
    Privmsg,
    /// NOTICE
    Notice,
    /// JOIN
    Join,
    /// PART
    Part,
    /// TOPIC
    Topic,
    /// NAMES
    Names,
    /// KICK
    Kick,
    /// INVITE
    Invite,
    /// MODE
    Mode,
    /// ISON
    Ison,
    /// LUSERS
    Lusers,
    /// LIST
    List,
    /// WHOIS
    Whois,
    /// WHO
    Who,
    /// AWAY
    Away,
    /// USERHOST
    Userhost,
    /// WHOWAS
    Whowas,
}

/// A row of the command table: a command by its name, and how many parameters it wants at least.
pub type CommandRow = (&'static [u8], Command, usize);

/// Each command (RFC 2812 section 3, and 4.9 of ISON). Its number is 0 also where a line that lacks
/// a parameter is answered otherwise.
const ROWS: [CommandRow; 21] = [
    (b"PASS", Command::Pass, 0),
    (b"NICK", Command::Nick, 0),
    (b"USER", Command::User, 0),
    (b"QUIT", Command::Quit, 0),
    (b"PING", Command::Ping, 0),
    (b"PONG", Command::Pong, 0),
    (b"MOTD", Command::Motd, 0),
    (b"PRIVMSG", Command::Privmsg, 0),
    (b"NOTICE", Command::Notice, 0),
    (b"JOIN", Command::Join, 1),
    (b"PART", Command::Part, 1),
    (b"TOPIC", Command::Topic, 1),
    (b"NAMES", Command::Names, 0),
    (b"KICK", Command::Kick, 2),
    (b"INVITE", Command::Invite, 2),
    (b"MODE", Command::Mode, 1),
    (b"ISON", Command::Ison, 1),
    (b"LUSERS", Command::Lusers, 0),
    (b"LIST", Command::List, 0),
    (b"WHOIS", Command::Whois, 0),
    (b"WHO", Command::Who, 0),
];

/// Those that programs expect beside the profile (RFC 2812 sections 4.1, 4.8 and 3.6.3).
const PROGRAM_ROWS: [CommandRow; 3] = [
    (b"AWAY", Command::Away, 0),
    (b"USERHOST", Command::Userhost, 1),
    (b"WHOWAS", Command::Whowas, 0),
];

impl Command {
    /// The command that a word is, in any case of letters; none where it is not in the table of
    /// the server.
    pub fn read(programs: Programs, word: &[u8]) -> Option<Self>
        ensures { result ≡ command_of programs word.now }
    {
        let (_, command, _) = Self::find(programs, word)?;
        Some(command)
    }

    /// The row of the command that a word is, in any case of letters; none where it is not in the
    /// table of the server.
    pub fn find(programs: Programs, word: &[u8]) -> Option<CommandRow>
        ensures { option_map row_view result ≡ row_named programs word.now }
    {
        match (find_in(&ROWS, word), programs) {
            (None, Programs::On) => find_in(&PROGRAM_ROWS, word),
            (row, _) => row,
        }
    }
}

/// The first of some rows of which a word is the name.
fn find_in(rows: &[CommandRow], word: &[u8]) -> Option<CommandRow>
    ensures { option_map row_view result ≡ found word.now (map row_view rows.now) }
{
    for (name, command, least) in rows {
        if is_word(word, name) {
            return Some((*name, *command, *least));
        }
    }
    None
}

/// Whether two words are one but for the case of letters.
fn is_word(word: &[u8], name: &[u8]) -> bool
    ensures { result ≡ same_letters word.now name.now }
{
    word.eq_ignore_ascii_case(name)
}
