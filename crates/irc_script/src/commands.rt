//! What a line of a script asks for.
ghost use Rattle.std.specs.Prelude.{◌≡◌, position};
ghost use Rattle.std.specs.Option.{option_map};
ghost use Rattle.irc_line.specs.Bytes.{is_space};
ghost use Rattle.irc_script.specs.Scripts.{is_word, cut_at_space, request_of, connect_of, say_of};
ghost use Rattle.irc_script.specs.Scripts.{gone_of, pair_of, link_request, cut_of, deliver_of};
ghost use Rattle.irc_script.specs.Scripts.{bytes_asked};
ghost use Rattle.irc_script.specs.ScriptViews.{cut_now, pair_now, request};
ghost use Rattle.irc_script.specs.Loops.Commands.{request_by};

use irc_decimals::read_number;
use irc_names::{Host, ServerName};
use irc_net::ClientNumber;

const SPACE: u8 = b' ';

/// What a line of a script asks for, behind the `server` lines.
#[derive(Drop)]
pub enum ScriptCommand<'a> {
    /// A client connects to this server from this host.
    Connect(ServerName, Host),
    /// The client with this number sends these bytes and an LF.
    Say(ClientNumber, &'a [u8]),
    /// The client with this number is gone.
    Gone(ClientNumber),
    /// These two servers are linked.
    Link(ServerName, ServerName),
    /// The link of these two servers is lost.
    Cut(ServerName, ServerName),
    /// The bytes up to and with the next LF come from the first server to the second.
    Deliver(ServerName, ServerName),
    /// So many bytes come from the first server to the second, or all that are on their way where
    /// there are fewer.
    Bytes(ServerName, ServerName, u64),
    /// Bytes come in turn until nothing is on its way.
    Settle,
}

/// The command that a line is: `connect NAME HOST`, `say N REST`, `gone N`, `link NAME NAME`, `cut
/// NAME NAME`, `deliver NAME NAME`, `bytes NAME NAME N` or `settle`.
#[tactic(auto, unfolding(crate::specs::Scripts::request_of))]
pub fn read_command(line: &[u8]) -> Option<ScriptCommand<'_>>
    ensures { option_map request result ≡ request_of line.now }
{
    if is_word(line, b"settle") {
        return Some(ScriptCommand::Settle);
    }
    let (word, rest) = cut_at_space(line)?;
    read_words(word, rest)
}

/// The command of a word with words behind it.
fn read_words<'a>(word: &[u8], rest: &'a [u8]) -> Option<ScriptCommand<'a>>
    ensures { option_map request result ≡ request_by word.now rest.now }
{
    if is_word(word, b"connect") {
        read_connect(rest)
    } else if is_word(word, b"say") {
        read_say(rest)
    } else if is_word(word, b"gone") {
        read_gone(rest)
    } else if is_word(word, b"link") {
        read_link(rest)
    } else if is_word(word, b"cut") {
        read_cut(rest)
    } else if is_word(word, b"deliver") {
        read_deliver(rest)
    } else if is_word(word, b"bytes") {
        read_bytes(rest)
    } else {
        None
    }
}

/// What follows `connect`: the name of a server, and a host.
fn read_connect(words: &[u8]) -> Option<ScriptCommand<'_>>
    ensures { option_map request result ≡ connect_of words.now }
{
    let (name, host) = cut_at_space(words)?;
    Some(ScriptCommand::Connect(ServerName::read(name)?, Host::read(host)?))
}

/// What follows `link`: the names of two servers.
fn read_link(words: &[u8]) -> Option<ScriptCommand<'_>>
    ensures { option_map request result ≡ link_request words.now }
{
    let (near, far) = read_pair(words)?;
    Some(ScriptCommand::Link(near, far))
}

/// What follows `cut`, which is the same.
fn read_cut(words: &[u8]) -> Option<ScriptCommand<'_>>
    ensures { option_map request result ≡ cut_of words.now }
{
    let (near, far) = read_pair(words)?;
    Some(ScriptCommand::Cut(near, far))
}

/// What follows `deliver`, which is the same too.
fn read_deliver(words: &[u8]) -> Option<ScriptCommand<'_>>
    ensures { option_map request result ≡ deliver_of words.now }
{
    let (from, to) = read_pair(words)?;
    Some(ScriptCommand::Deliver(from, to))
}

/// What follows `bytes`: the names of two servers, a space, and a number.
fn read_bytes(words: &[u8]) -> Option<ScriptCommand<'_>>
    ensures { option_map request result ≡ bytes_asked words.now }
{
    let (from, rest) = cut_at_space(words)?;
    let (to, count) = cut_at_space(rest)?;
    Some(ScriptCommand::Bytes(
        ServerName::read(from)?,
        ServerName::read(to)?,
        read_number(count)?,
    ))
}

/// The names of two servers.
fn read_pair(words: &[u8]) -> Option<(ServerName, ServerName)>
    ensures { option_map pair_now result ≡ pair_of words.now }
{
    let (near, far) = cut_at_space(words)?;
    Some((ServerName::read(near)?, ServerName::read(far)?))
}

/// What follows `say`: the number of a client, a space, and bytes.
fn read_say(words: &[u8]) -> Option<ScriptCommand<'_>>
    ensures { option_map request result ≡ say_of words.now }
{
    let (number, rest) = cut_at_space(words)?;
    Some(ScriptCommand::Say(ClientNumber::of(read_number(number)?), rest))
}

/// What follows `gone`: the number of a client.
fn read_gone(word: &[u8]) -> Option<ScriptCommand<'_>>
    ensures { option_map request result ≡ gone_of word.now }
{
    Some(ScriptCommand::Gone(ClientNumber::of(read_number(word)?)))
}

/// Whether two texts are the same.
pub fn is_word(text: &[u8], word: &[u8]) -> bool
    ensures { result ≡ is_word text.now word.now }
{
    text == word
}

/// What stands before the first space, and what behind it; nothing where there is none.
pub fn cut_at_space(line: &[u8]) -> Option<(&[u8], &[u8])>
    ensures { option_map cut_now result ≡ cut_at_space line.now }
{
    let end = place_of_space(line)?;
    Some((&line[..end], &line[end + 1..]))
}

/// Where the first space stands.
fn place_of_space(line: &[u8]) -> Option<usize>
    ensures { result ≡ position is_space line.now }
{
    line.iter().position(|byte| *byte == SPACE)
}
