//! What a server raises in a channel, as a burst tells it, where whoever it came with may be out.
ghost use Rattle.std.specs.Prelude.{◌≡◌, IfOk};
ghost use Rattle.std.specs.Option.{option_copied, option_map};
ghost use Rattle.irc_line.specs.MessageViews.{optional_now, parsed};
ghost use Rattle.irc_line.specs.Reading.{read_of};
ghost use Rattle.irc_merge.specs.Deeds.{is_greater_topic};
ghost use Rattle.irc_crossing.specs.Lines.{word_at};
ghost use Rattle.irc_crossing.specs.Loops.Texts.{bytes_of};
ghost use Rattle.irc_crossing.specs.Raising.{raised, raised_by, raised_from, raised_modes};
ghost use Rattle.irc_crossing.specs.Raising.{raised_topic, raises, raises_by, takes_from};

use crate::change::Change;
use crate::hearing::written_with;
use crate::lines::{change_of, word_at};
use crate::log::Log;
use crate::modes::{ChannelModes, channel_modes};
use crate::setting::Setting;
use irc_burst_lines::mode_text;
use irc_channels::Words;
use irc_line::{Message, Text, parse};
use irc_link_words::is_command;
use irc_names::{ChannelName, is_server, same};
use irc_room::Room;
use std::alloc::{AllocError, Global};

impl Log {
    /// Whether the server at the other end, or one behind it, raises by a line what is set in a
    /// channel out of which this end has taken somebody: nobody may be left there for whom the line
    /// counts. The line is without its CR LF.
    pub fn raises(&self, line: &[u8]) -> bool
        ensures { result ≡ raises self.now line.now }
    {
        match parse(line) {
            Ok(message) => self.raises_by(&message),
            Err(_) => false,
        }
    }

    fn raises_by(&self, message: &Message<'_>) -> bool
        ensures { result ≡ raises_by self.now (parsed message.now) }
    {
        let Some(server) = message.prefix else {
            return false;
        };
        is_server(server)
            && (is_command(b"MODE", message.command) || is_command(b"TOPIC", message.command))
            && self.has_taken_from(word_at(message, 0))
    }
}

/// Whether a change takes somebody out of a channel, or may have.
pub(crate) fn takes_from(channel: &[u8], change: Option<&Change>) -> bool
    ensures { result ≡ takes_from channel.now (option_copied change.entry) }
{
    match change {
        None | Some(Change::Go { .. }) => true,
        Some(Change::Out { channel: at, .. }) => same(channel, at.as_bytes()),
        _ => false,
    }
}

/// What of a line of a server, without its CR LF, raises something in the channel that is there:
/// the line that does, with its CR LF.
///
/// # Errors
/// Where memory runs out.
pub fn raised(alloc: Global, room: &Room, line: &[u8]) -> Result<Option<Text>, AllocError>
    ensures { IfOk result (λ text. option_map bytes_of text
        ≡ raised room.now.room (read_of line.now)) }
{
    match parse(line) {
        Ok(message) => raised_by(alloc, room, &message),
        Err(_) => Ok(None),
    }
}

fn raised_by(alloc: Global, room: &Room, message: &Message<'_>) -> Result<Option<Text>, AllocError>
    ensures { IfOk result (λ text. option_map bytes_of text
        ≡ raised_by room.now.room (parsed message.now) (optional_now message.now.prefix)) }
{
    let Some(server) = message.prefix else {
        return Ok(None);
    };
    match channel_modes(alloc, message)? {
        Some(modes) => raised_modes(room, server, &modes),
        None => Ok(raised_topic(room, message)),
    }
}

/// Of the letters of a MODE those that raise something.
fn raised_modes(
    room: &Room,
    server: &[u8],
    modes: &ChannelModes,
) -> Result<Option<Text>, AllocError>
    ensures { IfOk result (λ text. option_map bytes_of text
        ≡ raised_modes room.now.room server.now modes.now) }
{
    let Some(channel) = room.channel(modes.channel.as_bytes()) else {
        return Ok(None);
    };
    let raised = channel.modes.raising(modes.changes.as_slice())?;
    if raised.is_empty() {
        return Ok(None);
    }
    Ok(Some(mode_text(server, &modes.channel, raised.as_slice())))
}

/// A TOPIC that is greater than the one that is there.
fn raised_topic(room: &Room, message: &Message<'_>) -> Option<Text>
    ensures { option_map bytes_of result ≡ raised_topic room.now.room (parsed message.now) }
{
    match &change_of(message)? {
        Change::Set(Setting::Topic { channel, text }) if is_greater(room, channel, text) => {
            let words = message.params.as_slice();
            Some(written_with(message.prefix, message, words))
        }
        _ => None,
    }
}

fn is_greater(room: &Room, channel: &ChannelName, topic: &Words) -> bool
    ensures { result ≡ is_greater_topic room.now.room channel.now topic.now }
{
    match room.channel(channel.as_bytes()) {
        Some(channel) => channel.topic.as_bytes().cmp(topic.as_bytes()).is_lt(),
        None => false,
    }
}
