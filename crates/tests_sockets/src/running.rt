//! An engine over a wire in memory, as a script says.
use crate::lent::{Closings, Lent};
use crate::script::{CONNECTIONS, ScriptRow, add_parts, behind, is_text, row_of, wire};
use crate::server::server;
use irc_engine::Engine;
use irc_names::ServerName;
use irc_outbox::{MemoryWire, Notice, Unreached, Wire};
use std::alloc::Global;
use std::io;
use std::io::{ErrorKind, Write};
use std::string::String;

/// How many turns an engine takes, and how many bytes an outbox holds of a client and of a link.
#[derive(Clone, Copy)]
pub(crate) struct EngineLimits {
    pub turns: u64,
    pub client_room: usize,
    pub link_room: usize,
}

/// What is written to somebody who becomes a user: the replies of RFC 2812 section 5.1 as
/// docs/PROFILE.md words them. `&` stands for the nickname.
const WELCOME: &str = "\
:a.net 001 & :Welcome to the Internet Relay Network &!u@h;\
:a.net 002 & :Your host is a.net, running version treeircd-1;\
:a.net 003 & :This server was created 2024-01-01;\
:a.net 004 & a.net treeircd-1 i biklmnopstv;\
:a.net 422 & :MOTD File is missing;";

/// An engine of a server that nobody is connected to.
fn engine<W: Wire + Drop>(alloc: Global, wire: W, limits: EngineLimits) -> Option<Engine<W>> {
    match server(alloc) {
        Some(server) => {
            Engine::new(alloc, server, wire, limits.client_room, limits.link_room).ok()
        }
        None => None,
    }
}

/// Lets an engine go. It has many parts, each of which is let go where the engine is: so that is
/// done here, and nowhere else.
fn end<W: Wire + Drop>(engine: Engine<W>) {
    let _ended = engine;
}

/// Whether an engine takes its turns, and says what there is to say of links behind each.
fn takes_turns<W: Wire + Drop, E: Write>(
    alloc: Global,
    wire: W,
    limits: EngineLimits,
    errors: &mut E,
) -> bool {
    match engine(alloc, wire, limits) {
        Some(mut engine) => {
            let are_taken = engine.run_telling(limits.turns, errors).is_ok();
            end(engine);
            are_taken
        }
        None => false,
    }
}

/// Whether an engine takes its turns over a wire.
pub(crate) fn serves<W: Wire + Drop>(alloc: Global, wire: W, limits: EngineLimits) -> bool {
    match engine(alloc, wire, limits) {
        Some(mut engine) => {
            let are_taken = engine.run(limits.turns).is_ok();
            end(engine);
            are_taken
        }
        None => false,
    }
}

fn limits_of(script: &str) -> EngineLimits {
    let mut limits = EngineLimits {
        turns: 40,
        client_room: 4096,
        link_room: 65536,
    };
    for line in script.lines() {
        limit(&mut limits, row_of(line));
    }
    limits
}

/// A row may say one of the limits.
fn limit(limits: &mut EngineLimits, row: ScriptRow<'_>) {
    match row.verb {
        "turns" => limits.turns = row.number,
        "client-room" => limits.client_room = row.number as usize,
        "link-room" => limits.link_room = row.number as usize,
        _ => (),
    }
}

/// A call of b.net that has failed.
fn unreached() -> Option<Notice> {
    let name = ServerName::read(b"b.net")?;
    Some(Notice::Unreached(Unreached {
        name,
        error: io::Error::from(ErrorKind::ConnectionRefused),
    }))
}

/// What a wire has to tell first, if a script says so.
fn notice(script: &str) -> Option<Notice> {
    if script.starts_with("unreached") {
        return unreached();
    }
    if script.starts_with("descriptors") {
        return Some(Notice::DescriptorsGone);
    }
    None
}

/// What it has to tell behind that.
fn later_notice(script: &str) -> Option<Notice> {
    if script.starts_with("descriptors") {
        return Some(Notice::DescriptorsBack);
    }
    None
}

/// Whether an engine runs over a wire as a script says; it is noted whom it closes.
fn runs<E: Write>(
    alloc: Global,
    wire: &mut MemoryWire,
    closings: &mut Closings,
    script: &str,
    errors: &mut E,
) -> bool {
    let lent = Lent {
        wire,
        closings,
        notice: notice(script),
        later_notice: later_notice(script),
        knows_addresses: script.starts_with("addresses"),
        now: 0,
    };
    takes_turns(alloc, lent, limits_of(script), errors)
}

/// What is left of what was written to a connection behind what a row says of it; nothing, where
/// it begins otherwise.
fn behind_row<'a>(written: &'a [u8], conn: u64, row: ScriptRow<'_>) -> Option<&'a [u8]> {
    match row.verb {
        "hears" | "together" | "alone" if row.number == conn => behind(written, row.text, ""),
        "welcome" if row.number == conn => behind(written, WELCOME, row.text),
        _ => Some(written),
    }
}

/// What is left behind all rows.
fn behind_rows<'a>(written: &'a [u8], conn: u64, script: &str) -> Option<&'a [u8]> {
    let mut rest = written;
    for line in script.lines() {
        rest = behind_row(rest, conn, row_of(line))?;
    }
    Some(rest)
}

/// Whether just what a script says is written to each connection.
fn all_hear(wire: &MemoryWire, script: &str) -> bool {
    let mut all = true;
    for conn in 0..CONNECTIONS {
        all &= behind_rows(wire.written(conn), conn, script) == Some(b"".as_slice());
    }
    all
}

/// Whether what was read is what a script says, where it says something of that.
fn all_give(wire: &MemoryWire, script: &str) -> bool {
    let mut all = true;
    for line in script.lines() {
        let row = row_of(line);
        all &= row.verb != "gives" || is_text(wire.taken(row.number), row.text);
    }
    all
}

/// How often somebody was closed.
fn closings_of(closings: &[u64], conn: u64) -> usize {
    let mut count = 0usize;
    for closed in closings {
        if *closed == conn {
            count = count.saturating_add(1);
        }
    }
    count
}

/// Whether just those are closed whom a script names, each once.
fn closes(closings: &[u64], script: &str) -> bool {
    let mut all = true;
    let mut count = 0usize;
    for line in script.lines() {
        let row = row_of(line);
        if row.verb == "closed" {
            all &= closings_of(closings, row.number) == 1;
            count = count.saturating_add(1);
        }
    }
    all && count == closings.len()
}

/// Whether what a script says has come of it.
fn is_so(wire: &MemoryWire, closings: &[u64], script: &str) -> bool {
    closes(closings, script) && all_hear(wire, script) && all_give(wire, script)
}

/// Whether just what a script says comes of it, where links are told of here.
pub(crate) fn holds_telling<E: Write>(alloc: Global, script: &str, errors: &mut E) -> bool {
    match wire(alloc, script) {
        Some(mut wire) => is_run(alloc, &mut wire, script, errors),
        None => false,
    }
}

fn is_run<E: Write>(alloc: Global, wire: &mut MemoryWire, script: &str, errors: &mut E) -> bool {
    let closings = &mut Closings::new();
    runs(alloc, wire, closings, script, errors) && is_so(wire, closings, script)
}

/// Whether just what a script says comes of it.
pub(crate) fn holds(alloc: Global, script: &str) -> bool {
    let mut said = Vec::new(alloc);
    holds_telling(alloc, script, &mut said)
}

/// Whether that is so of the script of these parts, in which `%` stands for a text.
fn holds_with(alloc: Global, parts: &[&str], text: &str) -> bool {
    let mut script = String::new(alloc);
    add_parts(&mut script, parts, text).is_ok() && holds(alloc, script.as_str())
}

/// Whether that is so with each of these texts, which are lines.
pub(crate) fn hold_with(alloc: Global, parts: &[&str], texts: &str) -> bool {
    let mut all = true;
    for text in texts.lines() {
        all &= holds_with(alloc, parts, text);
    }
    all
}

/// What is left of what was said behind what a line of a script says of it; nothing, where it
/// begins otherwise.
fn behind_said<'a>(said: &'a [u8], line: &str) -> Option<&'a [u8]> {
    match line.strip_prefix("says ") {
        Some(text) => said
            .strip_prefix(text.as_bytes())?
            .strip_prefix(b"\n".as_slice()),
        None => Some(said),
    }
}

/// What is left behind all lines.
fn behind_all_said<'a>(said: &'a [u8], script: &str) -> Option<&'a [u8]> {
    let mut rest = said;
    for line in script.lines() {
        rest = behind_said(rest, line)?;
    }
    Some(rest)
}

/// Whether an engine runs over a wire as a script says, and says what there is to say.
fn says(alloc: Global, script: &str, errors: &mut Vec<u8, Global>) -> bool {
    match wire(alloc, script) {
        Some(mut wire) => runs(alloc, &mut wire, &mut Closings::new(), script, errors),
        None => false,
    }
}

/// Whether an engine says of its links just what a script says.
fn tells(alloc: Global, script: &str) -> bool {
    let mut said = Vec::new(alloc);
    says(alloc, script, &mut said) && behind_all_said(&said, script) == Some(b"".as_slice())
}

/// Whether that is so of each of these scripts, with an empty line between two.
pub(crate) fn all_tell(alloc: Global, scripts: &str) -> bool {
    let mut all = true;
    for script in scripts.split("\n\n") {
        all &= tells(alloc, script);
    }
    all
}
