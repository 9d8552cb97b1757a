//! Words and texts of some replies.
ghost use Rattle.std.specs.Prelude.{◌≡◌, ◌++◌, map, codes, unwrap_or, if◌then◌else◌};
ghost use Rattle.irc_line.specs.Bytes.{cut};
ghost use Rattle.irc_numerics.specs.Replies.{spaced, marked_nick, mark_text, on_channel};

use crate::replies::{Listed, MemberMark, OnChannel};
use crate::writing::push_entry;
use arrayvec::ArrayVec;
use irc_line::Line;
use irc_names::ChannelName;

/// How a user's own mode is written.
pub(crate) fn user_mode(invisible: bool) -> &'static [u8]
    ensures { result.now ≡ (if invisible then codes "+i" else codes "+") }
{
    if invisible { b"+i" } else { b"+" }
}

/// The name of a channel, or `*`.
pub(crate) fn channel_or_star(channel: &Option<ChannelName>) -> &[u8]
    ensures { result.now ≡ unwrap_or channel.now (codes "*") }
{
    match channel {
        None => b"*",
        Some(channel) => channel.as_bytes(),
    }
}

/// `G` for a user that is away, `H` for one that is here, and its mark.
pub(crate) fn presence(away: bool, mark: &MemberMark) -> &'static [u8]
    ensures { result.now ≡ (if away then codes "G" else codes "H") ++ mark_text mark.now }
{
    match (away, mark) {
        (false, MemberMark::Plain) => b"H",
        (false, MemberMark::Voiced) => b"H+",
        (false, MemberMark::Operator) => b"H@",
        (true, MemberMark::Plain) => b"G",
        (true, MemberMark::Voiced) => b"G+",
        (true, MemberMark::Operator) => b"G@",
    }
}

/// The channels in a row, as far as a line has room.
pub(crate) fn channels_text(channels: &[OnChannel]) -> Line
    ensures { result.items ≡ cut (spaced (map on_channel channels.now)) }
{
    let mut text = ArrayVec::new();
    for (i, place) in channels.iter().enumerate() {
        push_entry(&mut text, i, place.mark, place.channel.as_bytes());
    }
    text
}

/// The members in a row, as far as a line has room.
pub(crate) fn names_text(names: &[Listed]) -> Line
    ensures { result.items ≡ cut (spaced (map marked_nick names.now)) }
{
    let mut text = ArrayVec::new();
    for (i, member) in names.iter().enumerate() {
        push_entry(&mut text, i, member.mark, member.nick.as_bytes());
    }
    text
}
