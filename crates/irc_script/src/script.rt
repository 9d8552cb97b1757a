//! Scripts: their lines, and the servers that the first of these name.
ghost use Rattle.std.specs.Prelude.{◌≡◌, ◌≤◌, IfOk, length, position, OnOk};
ghost use Rattle.std.specs.List.{list_any, slice_split};
ghost use Rattle.std.specs.Str.{bytes_eq};
ghost use Rattle.irc_script.specs.Scripts.{is_line_feed, ended, is_bad_line, server_declared};
ghost use Rattle.irc_script.specs.Scripts.{may_be_named, another_server, servers_of};
ghost use Rattle.irc_script.specs.Loops.Commands.{AddsCommand, requests_in};
ghost use Rattle.irc_script.specs.ScriptViews.{lines_now, requests, IsScriptRead};

use crate::commands::{ScriptCommand, cut_at_space, is_word, read_command};
use crate::fault::SimFault;
use irc_names::ServerName;
use std::alloc::{AllocError, Global};

const LINE_FEED: u8 = b'\n';

/// How many servers a script may name.
pub const MAX_SERVERS: usize = 256;

/// A script that is read whole.
#[derive(Drop)]
pub struct Script<'a> {
    /// The servers, in the order in which the script names them.
    pub servers: Vec<ServerName, Global>,
    /// What is asked for, in order.
    pub commands: Vec<ScriptCommand<'a>, Global>,
}

/// Reads a script: lines `server NAME`, at most [`MAX_SERVERS`] and no name twice, and behind them
/// commands, each line ended by LF (the last may go without). Nothing is run here.
///
/// # Errors
/// The first line that is none of these; else where memory runs out.
pub fn read_script(alloc: Global, text: &[u8]) -> Result<Script<'_>, SimFault>
    ensures { IsScriptRead result text.now }
{
    let pieces = pieces(alloc, text)?;
    let lines = whole_lines(&pieces);
    let servers = servers_of(alloc, lines)?;
    let rest = &lines[servers.len()..];
    if let Some(bad) = first_bad(rest) {
        return Err(SimFault::BadScript((servers.len() + bad) as u64 + 1));
    }
    let commands = commands_of(alloc, rest)?;
    Ok(Script { servers, commands })
}

/// What stands between the LFs of a text.
fn pieces(alloc: Global, text: &[u8]) -> Result<Vec<&[u8], Global>, AllocError>
    ensures { IfOk result (λ found. lines_now found.items ≡ slice_split is_line_feed text.now) }
{
    text.split(|byte| *byte == LINE_FEED).collect(alloc)
}

/// The lines of a text, of what stands between its LFs. What follows the last LF is a line if it is
/// not empty.
fn whole_lines<'b, 'a>(pieces: &'b [&'a [u8]]) -> &'b [&'a [u8]]
    ensures { lines_now result.now ≡ ended (lines_now pieces.now) }
{
    if let Some((last, lines)) = pieces.split_last() {
        if last.is_empty() {
            return lines;
        }
    }
    pieces
}

/// The servers that the first lines name, up to a line that names no other.
fn servers_of(alloc: Global, lines: &[&[u8]]) -> Result<Vec<ServerName, Global>, AllocError>
    ensures servers { IfOk result (λ servers. servers.items ≡ servers_of (lines_now lines.now)) }
    ensures count { IfOk result (λ servers. length servers.items ≤ length lines.now) }
{
    let mut servers = Vec::new(alloc);
    for line in lines {
        let Some(name) = another_server(&servers, line) else {
            return Ok(servers);
        };
        servers.push(name)?;
    }
    Ok(servers)
}

/// The server that a line names behind these: none has its name, and there is room for one more.
fn another_server(servers: &[ServerName], line: &[u8]) -> Option<ServerName>
    ensures { result ≡ another_server servers.now line.now }
{
    let name = read_server(line)?;
    if may_be_named(servers, &name) {
        Some(name)
    } else {
        None
    }
}

/// Whether a server of this name may be named behind these.
#[tactic(auto, unfolding(crate::specs::Limits::max_script_servers))]
fn may_be_named(servers: &[ServerName], name: &ServerName) -> bool
    ensures { result ≡ may_be_named servers.now name.now }
{
    servers.len() < MAX_SERVERS && !is_named(servers, name.as_bytes())
}

/// Whether one of these servers has this name.
fn is_named(servers: &[ServerName], name: &[u8]) -> bool
    ensures { result ≡ list_any (bytes_eq name.now) servers.now }
{
    servers.iter().any(|server| name == server.as_bytes())
}

/// The name in a line `server NAME`.
fn read_server(line: &[u8]) -> Option<ServerName>
    ensures { result ≡ server_declared line.now }
{
    let (word, rest) = cut_at_space(line)?;
    if is_word(word, b"server") {
        ServerName::read(rest)
    } else {
        None
    }
}

/// Where the first line stands that is no command.
fn first_bad(lines: &[&[u8]]) -> Option<usize>
    ensures { result ≡ position (λ line. is_bad_line line.now) lines.now }
{
    lines.iter().position(|line| is_bad(line))
}

/// Whether a line is no command.
fn is_bad(line: &[u8]) -> bool
    ensures { result ≡ is_bad_line line.now }
{
    read_command(line).is_none()
}

/// The commands among these lines.
fn commands_of<'a>(
    alloc: Global,
    lines: &[&'a [u8]],
) -> Result<Vec<ScriptCommand<'a>, Global>, AllocError>
    ensures { IfOk result (λ commands. requests commands.items ≡ requests_in lines.now) }
{
    let mut commands = Vec::new(alloc);
    for line in lines {
        push_found(&mut commands, read_command(line))?;
    }
    Ok(commands)
}

/// Appends the command, if there is one.
fn push_found<'a>(
    commands: &mut Vec<ScriptCommand<'a>, Global>,
    command: Option<ScriptCommand<'a>>,
) -> Result<(), AllocError>
    ensures { OnOk result (AddsCommand command.entry commands.old commands.new) }
{
    if let Some(command) = command {
        commands.push(command)?;
    }
    Ok(())
}
