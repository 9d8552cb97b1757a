//! What a line of a link changes.
ghost use Rattle.std.specs.Prelude.{◌≡◌};
ghost use Rattle.irc_line.specs.MessageViews.{optional_now, parsed};
ghost use Rattle.irc_crossing.specs.Lines.{change_of, come_of, go_of, is_for_somebody, join_of};
ghost use Rattle.irc_crossing.specs.Lines.{nick_change, njoin_of, out_of, rename_of, spelling_of};
ghost use Rattle.irc_crossing.specs.Lines.{brings_nobody, topic_of, word_at};

use crate::change::Change;
use crate::setting::Setting;
use irc_line::Message;
use irc_link_words::{is_command, is_marked, read_words, unmarked};
use irc_names::{ChannelName, Nick};

/// What a line changes, but a MODE.
pub(crate) fn change_of(message: &Message<'_>) -> Option<Change>
    ensures { result ≡ change_of (parsed message.now) }
{
    let first = word_at(message, 0);
    if is_command(b"NICK", message.command) {
        nick_change(message.prefix, first)
    } else if is_command(b"QUIT", message.command) {
        go_of(message.prefix?)
    } else if is_command(b"KILL", message.command) {
        go_of(first)
    } else if is_command(b"PART", message.command) {
        out_of(message.prefix?, first)
    } else if is_command(b"KICK", message.command) {
        out_of(word_at(message, 1), first)
    } else if is_command(b"TOPIC", message.command) {
        topic_of(first, word_at(message, 1))
    } else if is_command(b"JOIN", message.command) {
        join_of(unmarked(first), is_marked(first))
    } else if is_command(b"NJOIN", message.command) {
        njoin_of(first, word_at(message, 1))
    } else {
        None
    }
}

/// A user comes, or takes another nickname.
fn nick_change(prefix: Option<&[u8]>, word: &[u8]) -> Option<Change>
    ensures { result ≡ nick_change (optional_now prefix.entry) word.now }
{
    match prefix {
        Some(nick) => rename_of(nick, word),
        None => come_of(word),
    }
}

fn come_of(nick: &[u8]) -> Option<Change>
    ensures { result ≡ come_of nick.now }
{
    Some(Change::Come(Nick::read(nick)?))
}

fn rename_of(nick: &[u8], new: &[u8]) -> Option<Change>
    ensures { result ≡ rename_of nick.now new.now }
{
    let nick = Nick::read(nick)?;
    let new = Nick::read(new)?;
    Some(Change::Rename { nick, new })
}

fn go_of(nick: &[u8]) -> Option<Change>
    ensures { result ≡ go_of nick.now }
{
    let nick = Nick::read(nick)?;
    Some(Change::Go { nick, other: None })
}

fn out_of(nick: &[u8], channel: &[u8]) -> Option<Change>
    ensures { result ≡ out_of nick.now channel.now }
{
    let nick = Nick::read(nick)?;
    let channel = ChannelName::read(channel)?;
    Some(Change::Out { nick, channel })
}

fn topic_of(channel: &[u8], text: &[u8]) -> Option<Change>
    ensures { result ≡ topic_of channel.now text.now }
{
    let channel = ChannelName::read(channel)?;
    match read_words(text) {
        Ok(text) => Some(Change::Set(Setting::Topic { channel, text })),
        Err(_) => None,
    }
}

fn join_of(channel: &[u8], begins: bool) -> Option<Change>
    ensures { result ≡ join_of channel.now begins }
{
    let channel = ChannelName::read(channel)?;
    Some(Change::Join { channel, begins })
}

/// Members come, or a channel is spelled, where a line brings nobody.
fn njoin_of(channel: &[u8], members: &[u8]) -> Option<Change>
    ensures { result ≡ njoin_of channel.now members.now }
{
    if members.is_empty() {
        spelling_of(channel)
    } else {
        join_of(channel, false)
    }
}

fn spelling_of(channel: &[u8]) -> Option<Change>
    ensures { result ≡ spelling_of channel.now }
{
    let channel = ChannelName::read(channel)?;
    Some(Change::Set(Setting::Spelling { channel }))
}

/// Whether a line is an NJOIN that brings nobody.
pub fn brings_nobody(message: &Message<'_>) -> bool
    ensures { result ≡ brings_nobody (parsed message.now) }
{
    is_command(b"NJOIN", message.command) && word_at(message, 1).is_empty()
}

/// A word of a line; no bytes where the line has fewer.
pub(crate) fn word_at<'a>(message: &Message<'a>, place: usize) -> &'a [u8]
    ensures { result.now ≡ word_at place (parsed message.now) }
{
    match message.params.as_slice().get(place) {
        Some(word) => word,
        None => &[],
    }
}

/// Whether the first parameter is whom the line is for, if that is a user.
pub(crate) fn is_for_somebody(message: &Message<'_>) -> bool
    ensures { result ≡ is_for_somebody (parsed message.now) }
{
    is_command(b"KILL", message.command)
        || is_command(b"INVITE", message.command)
        || is_command(b"PRIVMSG", message.command)
        || is_command(b"NOTICE", message.command)
        || is_command(b"MODE", message.command)
}
