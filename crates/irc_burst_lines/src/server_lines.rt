//! Lines that speak of servers, and the other lines of a server (RFC 2813 section 4). Nothing here
//! takes memory.
ghost use Rattle.std.specs.Prelude.{◌≡◌, Some};
ghost use Rattle.irc_line.specs.Messages.{text};
ghost use Rattle.irc_line.specs.PartViews.{words_now};
ghost use Rattle.irc_link_writer.specs.Written.{from};
ghost use Rattle.irc_burst_lines.specs.DeedLines.{kill_parts, server_parts, squit_parts};
ghost use Rattle.irc_burst_lines.specs.DeedLines.{topic_parts};

use irc_channels::Words;
use irc_line::{Parts, Prefix, Text, write_message};
use irc_link_writer::{next_distance, written_token};
use irc_names::{ChannelName, Nick, ServerName};
use irc_routes::{Info, Routes};
use itoa::Buffer;

/// A server more, in the routes that have it already: `:a.net SERVER b.net 2 3 :B` (RFC 2813
/// section 4.1.2).
pub fn server_text(routes: &Routes, uplink: &ServerName, name: &ServerName, info: &Info) -> Text
    ensures { result.items ≡ text (server_parts routes.now uplink.now name.now info.now) }
{
    let mut distance = Buffer::new();
    let mut token = Buffer::new();
    line(
        uplink,
        b"SERVER",
        &[
            name.as_bytes(),
            distance.format(next_distance(routes, name)).as_bytes(),
            token.format(written_token(routes, name)).as_bytes(),
        ],
        info.as_bytes(),
    )
}

/// A server is lost: `:a.net SQUIT b.net :a.net b.net` (RFC 2813 section 4.1.6).
pub fn squit_text(server: &ServerName, name: &ServerName, words: &Words) -> Text
    ensures { result.items ≡ text (squit_parts server.now name.now words.now) }
{
    line(server, b"SQUIT", &[name.as_bytes()], words.as_bytes())
}

/// The holder of a nickname quits: `:a.net KILL zed :Nick collision` (RFC 2812 section 3.7.1).
pub fn kill_text(server: &ServerName, nick: &Nick) -> Text
    ensures { result.items ≡ text (kill_parts server.now nick.now) }
{
    line(server, b"KILL", &[nick.as_bytes()], b"Nick collision")
}

/// A server tells of a channel's topic: `:a.net TOPIC #c :hello`.
pub fn topic_text(server: &ServerName, channel: &ChannelName, topic: &Words) -> Text
    ensures { result.items ≡ text (topic_parts server.now channel.now topic.now) }
{
    line(server, b"TOPIC", &[channel.as_bytes()], topic.as_bytes())
}

/// A line from a server, with a last parameter.
fn line(server: &ServerName, command: &[u8], middle: &[&[u8]], last: &[u8]) -> Text
    ensures { result.items ≡ text
        (from server.now command.now (words_now middle.now) (Some last.now)) }
{
    write_message(&Parts {
        prefix: Prefix::Name(server.as_bytes()),
        command,
        middle,
        last: Some(last),
    })
}
