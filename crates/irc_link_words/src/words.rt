//! The words of a line of a link.
ghost use Rattle.std.specs.Prelude.{◌≡◌, ◌&&◌, Ok, Err, true, false, not, if◌then◌else◌};
ghost use Rattle.std.specs.List.{list_all};
ghost use Rattle.std.specs.Str.{bytes_eq};
ghost use Rattle.irc_batch.specs.declared.close_reason.CloseReason.TheVariants.{BadName};
ghost use Rattle.irc_batch.specs.declared.close_reason.CloseReason.TheVariants.{Parameters};
ghost use Rattle.irc_line.specs.Bytes.{is_space};
ghost use Rattle.irc_line.specs.Limits.{max_line};
ghost use Rattle.irc_names.specs.Limits.{max_real_name};
ghost use Rattle.irc_names.specs.Names.{fits, is_channel, is_host, is_nick, is_server};
ghost use Rattle.irc_names.specs.UserTexts.{is_user_byte};
ghost use Rattle.irc_link_words.specs.Words.{are_words, as_text, is_come_mode, is_command};
ghost use Rattle.irc_link_words.specs.Words.{is_for_channel, is_marked, is_mode_word, is_user_name};
ghost use Rattle.irc_link_words.specs.Words.{target_or_fault, unmarked, with_a, with_i, without_a};
ghost use Rattle.irc_link_words.specs.Words.{without_i};

use irc_batch::CloseReason;
use irc_channels::Words;
use irc_line::Line;
use irc_line::limits::MAX_LINE;
use irc_modes::ModeWord;
use irc_names::{
    ChannelName, Host, MAX_REAL_NAME, MAX_USER_NAME, MAX_WORDS, Nick, RealName, ServerName,
    UserName, copied, is_user_byte,
};
use irc_room::Target;

/// What stands behind the channel of a JOIN for one that becomes an operator (RFC 2813 section
/// 4.2.1).
pub const OPERATOR_MARK: &[u8] = b"\x07o";

/// Whether a word is a command, in any case of letters.
pub fn is_command(command: &[u8], word: &[u8]) -> bool
    ensures { result ≡ is_command command.now word.now }
{
    word.eq_ignore_ascii_case(command)
}

/// A nickname.
///
/// # Errors
/// [`CloseReason::BadName`] where it is none.
pub fn read_nick(bytes: &[u8]) -> Result<Nick, CloseReason>
    ensures { result ≡ (if is_nick bytes.now then Ok bytes.now else Err BadName) }
{
    match Nick::read(bytes) {
        Some(nick) => Ok(nick),
        None => Err(CloseReason::BadName),
    }
}

/// A channel's name.
///
/// # Errors
/// [`CloseReason::BadName`] where it is none.
pub fn read_channel(bytes: &[u8]) -> Result<ChannelName, CloseReason>
    ensures { result ≡ (if is_channel bytes.now then Ok bytes.now else Err BadName) }
{
    match ChannelName::read(bytes) {
        Some(name) => Ok(name),
        None => Err(CloseReason::BadName),
    }
}

/// A host.
///
/// # Errors
/// [`CloseReason::BadName`] where it is none.
pub fn read_host(bytes: &[u8]) -> Result<Host, CloseReason>
    ensures { result ≡ (if is_host bytes.now then Ok bytes.now else Err BadName) }
{
    match Host::read(bytes) {
        Some(host) => Ok(host),
        None => Err(CloseReason::BadName),
    }
}

/// A server's name.
///
/// # Errors
/// [`CloseReason::BadName`] where it is none.
pub fn read_server(bytes: &[u8]) -> Result<ServerName, CloseReason>
    ensures { result ≡ (if is_server bytes.now then Ok bytes.now else Err BadName) }
{
    match ServerName::read(bytes) {
        Some(name) => Ok(name),
        None => Err(CloseReason::BadName),
    }
}

/// Whom a text is for.
///
/// # Errors
/// [`CloseReason::BadName`] where it is neither a nickname nor, if it begins with `#`, the name of
/// a channel.
pub fn read_target(bytes: &[u8]) -> Result<Target, CloseReason>
    ensures { result ≡ target_or_fault bytes.now }
{
    if is_for_channel(bytes) {
        Ok(Target::Channel(read_channel(bytes)?))
    } else {
        Ok(Target::User(read_nick(bytes)?))
    }
}

/// A topic, or the text of a quit, a part or a kick.
///
/// # Errors
/// [`CloseReason::Parameters`] where it is longer than [`MAX_WORDS`] bytes.
#[tactic(auto, using(crate::proofs::TextsRead::words_whole))]
pub fn read_words(bytes: &[u8]) -> Result<Words, CloseReason>
    ensures { result ≡ (if are_words bytes.now then Ok bytes.now else Err Parameters) }
{
    if bytes.len() <= MAX_WORDS {
        Ok(Words::cut(bytes))
    } else {
        Err(CloseReason::Parameters)
    }
}

/// The text of a PRIVMSG or a NOTICE.
///
/// # Errors
/// [`CloseReason::Parameters`] where it is longer than [`MAX_LINE`] bytes.
pub fn read_line(bytes: &[u8]) -> Result<Line, CloseReason>
    ensures { result ≡ (if fits max_line bytes.now then Ok (as_text bytes.now)
        else Err Parameters) }
{
    if bytes.len() <= MAX_LINE {
        Ok(copied(bytes))
    } else {
        Err(CloseReason::Parameters)
    }
}

/// Whether a word stands in the place of a channel's name.
pub fn is_for_channel(bytes: &[u8]) -> bool
    ensures { result ≡ is_for_channel bytes.now }
{
    match bytes.first() {
        Some(first) => *first == b'#',
        None => false,
    }
}

/// Whether the channel of a JOIN has the mark of one that becomes an operator.
pub fn is_marked(word: &[u8]) -> bool
    ensures { result ≡ is_marked word.now }
{
    word.ends_with(OPERATOR_MARK)
}

/// The channel of a JOIN without that mark.
pub fn unmarked(word: &[u8]) -> &[u8]
    ensures { result.now ≡ unmarked word.now }
{
    word.strip_suffix(OPERATOR_MARK).unwrap_or(word)
}

/// Whether a word is a user name.
pub fn is_user_name(word: &[u8]) -> bool
    ensures { result ≡ is_user_name word.now }
{
    !word.is_empty() && are_user_bytes(word) && word.len() <= MAX_USER_NAME
}

fn are_user_bytes(word: &[u8]) -> bool
    ensures { result ≡ list_all is_user_byte word.now }
{
    word.iter().all(|byte| is_user_byte(*byte))
}

/// Whether a real name is no longer than one may be.
pub fn is_real_name(text: &[u8]) -> bool
    ensures { result ≡ fits max_real_name text.now }
{
    text.len() <= MAX_REAL_NAME
}

/// A user name that keeps its rule.
#[tactic(auto, using(crate::proofs::TextsRead::names_whole))]
pub fn user_name(word: &[u8]) -> UserName
    requires { is_user_name word.now ≡ true }
    ensures { result ≡ word.now }
{
    UserName::clean(word)
}

/// A real name that is no longer than one may be.
#[tactic(auto, using(crate::proofs::TextsRead::names_whole))]
pub fn real_name(text: &[u8]) -> RealName
    requires { fits max_real_name text.now ≡ true }
    ensures { result ≡ text.now }
{
    RealName::cut(text)
}

/// Whether a word says that a user comes with mode i.
pub fn is_with_i(word: &[u8]) -> bool
    ensures { result ≡ bytes_eq word.now with_i }
{
    word == b"+i".as_slice()
}

/// Whether a word takes mode i away.
pub(crate) fn is_without_i(word: &[u8]) -> bool
    ensures { result ≡ bytes_eq word.now without_i }
{
    word == b"-i".as_slice()
}

/// Whether a word says that a user is away.
pub(crate) fn is_with_a(word: &[u8]) -> bool
    ensures { result ≡ bytes_eq word.now with_a }
{
    word == b"+a".as_slice()
}

/// Whether a word says that a user is back.
pub(crate) fn is_without_a(word: &[u8]) -> bool
    ensures { result ≡ bytes_eq word.now without_a }
{
    word == b"-a".as_slice()
}

/// Whether a word says which modes a user comes with.
pub fn is_come_mode(word: &[u8]) -> bool
    ensures { result ≡ is_come_mode word.now }
{
    is_with_i(word) || word == b"+".as_slice()
}

/// Whether a word can stand behind the letters of a MODE, and be read as one word wherever it
/// stands.
pub(crate) fn is_mode_word(word: &[u8]) -> bool
    ensures { result ≡ is_mode_word word.now }
{
    match word.first() {
        Some(first) => *first != b':' && has_no_space(word) && ModeWord::read(word).is_some(),
        None => false,
    }
}

fn has_no_space(word: &[u8]) -> bool
    ensures { result ≡ list_all (λ b. not (is_space b)) word.now }
{
    word.iter().all(|byte| *byte != b' ')
}
