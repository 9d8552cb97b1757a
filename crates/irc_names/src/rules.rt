//! What is a name of each kind (RFC 2812, section 2.3.1, and our own choices).
ghost use Rattle.std.specs.Prelude.{◌≡◌};
ghost use Rattle.std.specs.List.{list_all};
ghost use Rattle.irc_names.specs.UserTexts.{is_away, is_away_byte, is_user_byte};
ghost use Rattle.irc_names.specs.Names.{starts_without_colon, is_special, is_nick_byte, is_nick};
ghost use Rattle.irc_names.specs.Names.{is_channel_byte, is_channel, is_host_byte, is_host};
ghost use Rattle.irc_names.specs.Names.{is_server_byte, is_server, is_key_byte, is_key};
ghost use Rattle.irc_names.specs.Names.{is_ban_mask_byte, is_ban_mask};

use crate::{MAX_BAN_MASK, MAX_CHANNEL, MAX_HOST, MAX_KEY, MAX_NICK, MAX_SERVER, MAX_WORDS};

/// One of the bytes that a nickname may have beside letters, digits and `-`.
fn is_special(byte: u8) -> bool
    ensures { result ≡ is_special byte }
{
    matches!(
        byte,
        b'[' | b']' | b'\\' | b'`' | b'_' | b'^' | b'{' | b'|' | b'}'
    )
}

/// A byte that may stand after the first one of a nickname.
fn is_nick_byte(byte: u8) -> bool
    ensures { result ≡ is_nick_byte byte }
{
    byte.is_ascii_alphanumeric() || is_special(byte) || byte == b'-'
}

fn are_nick_bytes(bytes: &[u8]) -> bool
    ensures { result ≡ list_all is_nick_byte bytes.now }
{
    bytes.iter().all(|byte| is_nick_byte(*byte))
}

/// Whether these bytes are a nickname: a letter or one of ``[]\`_^{|}``, then letters, digits,
/// those specials and `-`; at most [`MAX_NICK`] bytes (RFC 2812, section 2.3.1).
#[tactic(auto, unfolding(crate::specs::Names::is_nick))]
pub fn is_nick(bytes: &[u8]) -> bool
    ensures { result ≡ is_nick bytes.now }
{
    let Some((first, rest)) = bytes.split_first() else {
        return false;
    };
    (first.is_ascii_alphabetic() || is_special(*first))
        && are_nick_bytes(rest)
        && bytes.len() <= MAX_NICK
}

/// A byte that may stand after the `#` of a channel's name.
fn is_channel_byte(byte: u8) -> bool
    ensures { result ≡ is_channel_byte byte }
{
    !matches!(byte, 0 | 7 | b'\r' | b'\n' | b' ' | b',' | b':')
}

fn are_channel_bytes(bytes: &[u8]) -> bool
    ensures { result ≡ list_all is_channel_byte bytes.now }
{
    bytes.iter().all(|byte| is_channel_byte(*byte))
}

/// Whether these bytes are a channel's name: `#`, then any bytes but NUL, bell, CR, LF, space,
/// comma and `:`; at most [`MAX_CHANNEL`] bytes (RFC 2812, section 1.3; channels with another first
/// byte are left out, by our own choice).
#[tactic(auto, unfolding(crate::specs::Names::is_channel))]
pub fn is_channel(bytes: &[u8]) -> bool
    ensures { result ≡ is_channel bytes.now }
{
    let Some((first, rest)) = bytes.split_first() else {
        return false;
    };
    *first == b'#' && are_channel_bytes(rest) && bytes.len() <= MAX_CHANNEL
}

/// A byte that a host may have.
fn is_host_byte(byte: u8) -> bool
    ensures { result ≡ is_host_byte byte }
{
    byte.is_ascii_alphanumeric() || matches!(byte, b'.' | b'-' | b':')
}

fn are_host_bytes(bytes: &[u8]) -> bool
    ensures { result ≡ list_all is_host_byte bytes.now }
{
    bytes.iter().all(|byte| is_host_byte(*byte))
}

/// Whether these bytes are a host: 1 to [`MAX_HOST`] letters, digits, `.`, `-` and `:`, and no `:`
/// in front (RFC 2812, section 2.3.1, which has longer words for addresses; the first byte is our
/// own choice).
#[tactic(auto, unfolding(crate::specs::Names::is_host))]
pub fn is_host(bytes: &[u8]) -> bool
    ensures { result ≡ is_host bytes.now }
{
    starts_without_colon(bytes) && are_host_bytes(bytes) && bytes.len() <= MAX_HOST
}

/// A byte that a server's name may have.
fn is_server_byte(byte: u8) -> bool
    ensures { result ≡ is_server_byte byte }
{
    byte.is_ascii_lowercase() || byte.is_ascii_digit() || byte == b'.' || byte == b'-'
}

fn are_server_bytes(bytes: &[u8]) -> bool
    ensures { result ≡ list_all is_server_byte bytes.now }
{
    bytes.iter().all(|byte| is_server_byte(*byte))
}

/// Whether these bytes are a server's name: 1 to [`MAX_SERVER`] of a to z, digits, `-` and `.`,
/// with at least one `.` (our own choice within RFC 2812, section 2.3.1: so a server's name is
/// never a nickname, and has one spelling).
#[tactic(auto, unfolding(crate::specs::Names::is_server))]
pub fn is_server(bytes: &[u8]) -> bool
    ensures { result ≡ is_server bytes.now }
{
    bytes.contains(&b'.') && are_server_bytes(bytes) && bytes.len() <= MAX_SERVER
}

/// A byte that a channel's key may have.
fn is_key_byte(byte: u8) -> bool
    ensures { result ≡ is_key_byte byte }
{
    byte.is_ascii_graphic() && byte != b','
}

fn are_key_bytes(bytes: &[u8]) -> bool
    ensures { result ≡ list_all is_key_byte bytes.now }
{
    bytes.iter().all(|byte| is_key_byte(*byte))
}

/// Whether these bytes are a channel's key: 1 to [`MAX_KEY`] bytes from 0x21 to 0x7E, no comma, and
/// no `:` in front (our own choice within RFC 2812, section 2.3.1).
#[tactic(auto, unfolding(crate::specs::Names::is_key))]
pub fn is_key(bytes: &[u8]) -> bool
    ensures { result ≡ is_key bytes.now }
{
    starts_without_colon(bytes) && are_key_bytes(bytes) && bytes.len() <= MAX_KEY
}

/// A byte that a mask may have.
fn is_ban_mask_byte(byte: u8) -> bool
    ensures { result ≡ is_ban_mask_byte byte }
{
    byte != b' '
}

fn are_ban_mask_bytes(bytes: &[u8]) -> bool
    ensures { result ≡ list_all is_ban_mask_byte bytes.now }
{
    bytes.iter().all(|byte| is_ban_mask_byte(*byte))
}

/// Whether a ban can keep these bytes as its mask: 1 to [`MAX_BAN_MASK`] bytes, none of them a
/// space, and no `:` in front (our own choice).
#[tactic(auto, unfolding(crate::specs::Names::is_ban_mask))]
pub fn is_ban_mask(bytes: &[u8]) -> bool
    ensures { result ≡ is_ban_mask bytes.now }
{
    starts_without_colon(bytes) && are_ban_mask_bytes(bytes) && bytes.len() <= MAX_BAN_MASK
}

/// Whether there is a first byte, and it is not `:`, with which a line begins its last parameter.
fn starts_without_colon(bytes: &[u8]) -> bool
    ensures { result ≡ starts_without_colon bytes.now }
{
    match bytes.first() {
        Some(first) => *first != b':',
        None => false,
    }
}

/// Whether a byte may stand in a user name.
pub fn is_user_byte(byte: u8) -> bool
    ensures { result ≡ is_user_byte byte }
{
    byte.is_ascii_alphanumeric() || matches!(byte, b'-' | b'.' | b'_' | b'~')
}

/// A byte that what is told of a user who is away may have.
fn is_away_byte(byte: u8) -> bool
    ensures { result ≡ is_away_byte byte }
{
    !matches!(byte, 0 | b'\r' | b'\n')
}

fn are_away_bytes(bytes: &[u8]) -> bool
    ensures { result ≡ list_all is_away_byte bytes.now }
{
    bytes.iter().all(|byte| is_away_byte(*byte))
}

/// Whether these bytes may be what is told of a user who is away: 1 to [`MAX_WORDS`] bytes, none of
/// them NUL, CR or LF (RFC 2812, sections 2.3.1 and 4.1; the limit is our own choice).
#[tactic(auto, unfolding(crate::specs::UserTexts::is_away))]
pub fn is_away(bytes: &[u8]) -> bool
    ensures { result ≡ is_away bytes.now }
{
    let Some(_) = bytes.split_first() else {
        return false;
    };
    are_away_bytes(bytes) && bytes.len() <= MAX_WORDS
}
