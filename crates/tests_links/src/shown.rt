//! What is read of a line, as the rows of a test show it.
use arrayvec::ArrayVec;
use irc_modes::{ModeChange, ModeLetter};
use irc_names::Nick;
use irc_readback::WireFault;
use irc_room::{By, Effect, Target};
use irc_users::{User, UserChange};

/// What is read of a line, or written.
pub type ShownText = ArrayVec<u8, 600>;

/// The first word of a text, and what is behind it.
pub fn first_word(text: &str) -> (&str, &str) {
    text.split_once(' ').unwrap_or((text, ""))
}

/// What stands before ` =>`, and what behind it.
pub fn sides(row: &str) -> (&str, &str) {
    row.split_once(" =>").unwrap_or((row, ""))
}

/// Appends bytes.
pub fn append(shown: &mut ShownText, bytes: &[u8]) {
    let _ = shown.try_extend_from_slice(bytes);
}

/// Appends a word behind a space.
pub fn append_word(shown: &mut ShownText, word: &[u8]) {
    append(shown, b" ");
    append(shown, word);
}

fn by_word(by: &By) -> &[u8] {
    match by {
        By::User(nick) => nick.as_bytes(),
        By::Home => b"*",
    }
}

fn target_word(target: &Target) -> &[u8] {
    match target {
        Target::User(nick) => nick.as_bytes(),
        Target::Channel(channel) => channel.as_bytes(),
    }
}

fn flag_word(flag: bool) -> &'static [u8] {
    if flag { b"yes" } else { b"no" }
}

fn letter_word(letter: ModeLetter) -> &'static [u8] {
    match letter {
        ModeLetter::InviteOnly => b"i",
        ModeLetter::Moderated => b"m",
        ModeLetter::NoOutside => b"n",
        ModeLetter::TopicLocked => b"t",
        ModeLetter::Private => b"p",
        ModeLetter::Secret => b"s",
        ModeLetter::Key => b"k",
        ModeLetter::Limit => b"l",
        ModeLetter::Ban => b"b",
        ModeLetter::Operator => b"o",
        ModeLetter::Voice => b"v",
    }
}

fn show_change(change: &ModeChange, shown: &mut ShownText) {
    append_word(shown, flag_word(change.plus));
    append_word(shown, letter_word(change.letter));
    if let Some(word) = &change.word {
        append_word(shown, word.as_bytes());
    }
}

fn show_user(user: &User, shown: &mut ShownText) {
    append_word(shown, b"adds");
    append_word(shown, user.nick.as_bytes());
    append_word(shown, user.user.as_bytes());
    append_word(shown, user.host.as_bytes());
    append_word(shown, user.real.as_bytes());
    append_word(shown, user.home.as_bytes());
    append_word(shown, flag_word(user.invisible));
}

/// Shows an effect on a channel.
fn show_on_channel(effect: &Effect, shown: &mut ShownText) {
    match effect {
        Effect::Join { nick, channel, op } => {
            append_word(shown, b"joins");
            append_word(shown, nick.as_bytes());
            append_word(shown, channel.as_bytes());
            append_word(shown, flag_word(*op));
        }
        Effect::Part {
            nick,
            channel,
            text,
        } => {
            append_word(shown, b"parts");
            append_word(shown, nick.as_bytes());
            append_word(shown, channel.as_bytes());
            append_word(shown, text.as_bytes());
        }
        Effect::Kick {
            by,
            channel,
            nick,
            text,
        } => {
            append_word(shown, b"kicks");
            append_word(shown, by.as_bytes());
            append_word(shown, channel.as_bytes());
            append_word(shown, nick.as_bytes());
            append_word(shown, text.as_bytes());
        }
        Effect::SetTopic { by, channel, text } => {
            append_word(shown, b"topic");
            append_word(shown, by_word(by));
            append_word(shown, channel.as_bytes());
            append_word(shown, text.as_bytes());
        }
        Effect::ChangeModes {
            by,
            channel,
            changes,
        } => {
            append_word(shown, b"modes");
            append_word(shown, by_word(by));
            append_word(shown, channel.as_bytes());
            for change in changes.as_slice() {
                show_change(change, shown);
            }
        }
        _ => {}
    }
}

fn show_user_change(nick: &Nick, change: &UserChange, shown: &mut ShownText) {
    match change {
        UserChange::Invisible(invisible) => {
            append_word(shown, b"hides");
            append_word(shown, nick.as_bytes());
            append_word(shown, flag_word(*invisible));
        }
        UserChange::Away(Some(text)) => {
            append_word(shown, b"leaves");
            append_word(shown, nick.as_bytes());
            append_word(shown, text.as_bytes());
        }
        UserChange::Away(None) => {
            append_word(shown, b"returns");
            append_word(shown, nick.as_bytes());
        }
    }
}

/// Shows an effect.
pub fn show(effect: &Effect, shown: &mut ShownText) {
    match effect {
        Effect::AddUser(user) => show_user(user, shown),
        Effect::Rename { nick, new } => {
            append_word(shown, b"renames");
            append_word(shown, nick.as_bytes());
            append_word(shown, new.as_bytes());
        }
        Effect::Quit { nick, text } => {
            append_word(shown, b"quits");
            append_word(shown, nick.as_bytes());
            append_word(shown, text.as_bytes());
        }
        Effect::ChangeUser { nick, change } => show_user_change(nick, change, shown),
        Effect::Invite { by, nick, channel } => {
            append_word(shown, b"invites");
            append_word(shown, by.as_bytes());
            append_word(shown, nick.as_bytes());
            append_word(shown, channel.as_bytes());
        }
        Effect::Say {
            by,
            notice,
            target,
            text,
        } => {
            append_word(shown, b"says");
            append_word(shown, by.as_bytes());
            append_word(shown, flag_word(*notice));
            append_word(shown, target_word(target));
            append_word(shown, text.as_slice());
        }
        _ => show_on_channel(effect, shown),
    }
}

/// Shows why a line is refused.
pub fn show_fault(fault: WireFault, shown: &mut ShownText) {
    let word: &[u8] = match fault {
        WireFault::UnknownCommand => b"unknown command",
        WireFault::Parameters => b"parameters",
        WireFault::BadToken => b"bad token",
        WireFault::WrongDirection => b"wrong direction",
        WireFault::BadName => b"bad name",
        WireFault::Memory => b"memory",
    };
    append_word(shown, word);
}
