//! A language of small scripts: what happens on a wire in memory, and what is to come of it.
//!
//! A line is a verb, the number of a connection, and a text, in which `;` stands for CR LF, `^` for
//! CR and `~` for LF.
//!
//! What happens, one thing a turn:
//! - `client 1`, `link 2`, `call 2`: a client connects, from host `h`; a server does; b.net does,
//!   which this side has called.
//! - `bytes 1 TEXT`, `end 1`, `read-fails 1`: what is there to be read.
//! - `room 1 10`, `write-fails 1`: how many bytes more are taken; the next write fails.
//!
//! How an engine runs over that wire: `turns 20`, `client-room 512` and `link-room 57`. Where
//! nothing else is said it takes 40 turns, and an outbox has room for 4096 bytes of a client, and
//! for 65536 of a link. A turn takes 100 ms. By its first line:
//! - `unreached`: a call of b.net has failed before.
//! - `descriptors`: no connection could be taken before, and behind the first turn they can.
//! - `addresses`: connection 9 comes from 10.0.0.9, and the others from 10.0.0.5.
//!
//! What is to come of it:
//! - `hears 1 TEXT` and `welcome 1 NICK`: what is written to a connection. Those of one connection
//!   stand in order, and are all that is written to it. `together` and `alone` are `hears`, too.
//! - `gives 1 TEXT`: all that is read of it.
//! - `closed 1`: the engine closes it, once, and none that is not named so.
//! - `says TEXT`: a line that the engine says of its links. [`crate::running::all_tell`] looks at
//!   these alone, and the others at all else.
//!
//! [`crate::calls`] has what one line asks of a wire without an engine.
use irc_names::{Host, ServerName};
use irc_outbox::{MemoryWire, WireStep};
use std::alloc::{AllocError, Global};
use std::slice;
use std::string::String;

/// The connections of a script have lesser numbers.
pub(crate) const CONNECTIONS: u64 = 10;

/// A line of a script.
#[derive(Clone, Copy)]
pub(crate) struct ScriptRow<'a> {
    pub verb: &'a str,
    pub number: u64,
    pub text: &'a str,
}

pub(crate) fn row_of(line: &str) -> ScriptRow<'_> {
    let mut words = line.splitn(3, ' ');
    ScriptRow {
        verb: words.next().unwrap_or(""),
        number: number(words.next().unwrap_or("")),
        text: words.next().unwrap_or(""),
    }
}

/// The number that a word is; 0, where it is none.
pub(crate) fn number(word: &str) -> u64 {
    word.parse::<u64>().unwrap_or(0)
}

/// The bytes that a byte of a text stands for. A `&` stands for a nickname.
fn meant<'a>(byte: &'a u8, nick: &'a str) -> &'a [u8] {
    match *byte {
        b';' => b"\r\n",
        b'^' => b"\r",
        b'~' => b"\n",
        b'&' => nick.as_bytes(),
        _ => slice::from_ref(byte),
    }
}

/// What is left of bytes behind a text; nothing, where they begin otherwise.
pub(crate) fn behind<'a>(bytes: &'a [u8], text: &str, nick: &str) -> Option<&'a [u8]> {
    let mut rest = bytes;
    for byte in text.as_bytes() {
        rest = rest.strip_prefix(meant(byte, nick))?;
    }
    Some(rest)
}

/// Whether bytes are a text.
pub(crate) fn is_text(bytes: &[u8], text: &str) -> bool {
    match behind(bytes, text, "") {
        Some(rest) => rest.is_empty(),
        None => false,
    }
}

/// The bytes of a text come behind these.
fn add_text(bytes: &mut Vec<u8, Global>, text: &str) -> Result<(), AllocError> {
    for byte in text.as_bytes() {
        bytes.extend_from_slice(meant(byte, ""))?;
    }
    Ok(())
}

fn bytes_of(alloc: Global, text: &str) -> Option<Vec<u8, Global>> {
    let mut bytes = Vec::new(alloc);
    match add_text(&mut bytes, text) {
        Ok(()) => Some(bytes),
        Err(_) => None,
    }
}

/// What a row says happens on a wire, if it does.
fn step_of(alloc: Global, row: ScriptRow<'_>) -> Option<WireStep> {
    match row.verb {
        "client" => Some(WireStep::Client(row.number, Host::read(b"h")?)),
        "link" => Some(WireStep::Linked(row.number, None)),
        "call" => Some(WireStep::Linked(row.number, Some(ServerName::read(b"b.net")?))),
        "bytes" => Some(WireStep::Bytes(row.number, bytes_of(alloc, row.text)?)),
        "end" => Some(WireStep::End(row.number)),
        "read-fails" => Some(WireStep::ReadFails(row.number)),
        "room" => Some(WireStep::Room(row.number, number(row.text) as usize)),
        "write-fails" => Some(WireStep::WriteFails(row.number)),
        _ => None,
    }
}

/// The verbs of rows that say how an engine runs, and what it says.
const OF_AN_ENGINE: &str = "turns client-room link-room unreached descriptors addresses says";

/// Those that say what comes of a connection.
const OF_A_CONNECTION: &str = "hears welcome together alone gives closed";

/// Those of calls.
const OF_A_CALL: &str = "ready read later ended unread write unwritten close";

/// Whether a verb is one of these.
fn is_one_of(verb: &str, verbs: &str) -> bool {
    for known in verbs.split(' ') {
        if known == verb {
            return true;
        }
    }
    false
}

/// Whether a row says how an engine runs, or what is to come of what happens.
fn is_wanted(row: ScriptRow<'_>) -> bool {
    is_one_of(row.verb, OF_AN_ENGINE)
        || is_one_of(row.verb, OF_A_CALL)
        || row.number < CONNECTIONS && is_one_of(row.verb, OF_A_CONNECTION)
}

fn add(steps: &mut Vec<WireStep, Global>, step: WireStep) -> Result<(), AllocError> {
    steps.push(step)?;
    Ok(())
}

/// What a row says happens is added. Tells whether the row has a meaning.
fn add_row(alloc: Global, steps: &mut Vec<WireStep, Global>, row: ScriptRow<'_>) -> bool {
    match step_of(alloc, row) {
        Some(step) => add(steps, step).is_ok(),
        None => is_wanted(row),
    }
}

fn add_rows(alloc: Global, steps: &mut Vec<WireStep, Global>, script: &str) -> bool {
    let mut all = true;
    for line in script.lines() {
        all &= add_row(alloc, steps, row_of(line));
    }
    all
}

/// The wire on which a script says that things happen; none, where a row has no meaning.
pub(crate) fn wire(alloc: Global, script: &str) -> Option<MemoryWire> {
    let mut steps = Vec::new(alloc);
    let is_added = add_rows(alloc, &mut steps, script);
    made(alloc, steps, is_added)
}

fn made(alloc: Global, steps: Vec<WireStep, Global>, is_added: bool) -> Option<MemoryWire> {
    if is_added {
        MemoryWire::new(alloc, steps).ok()
    } else {
        None
    }
}

/// A part of a script comes behind others. A `%` in it stands for a text.
///
/// # Errors
/// Where memory runs out.
pub(crate) fn add_part(
    script: &mut String<Global>,
    part: &str,
    text: &str,
) -> Result<(), AllocError> {
    match part.split_once('%') {
        Some((front, end)) => {
            script.push_str(front)?;
            script.push_str(text)?;
            script.push_str(end)
        }
        None => script.push_str(part),
    }
}

/// Parts of a script come behind others, as [`add_part`] puts them.
///
/// # Errors
/// Where memory runs out.
pub(crate) fn add_parts(
    script: &mut String<Global>,
    parts: &[&str],
    text: &str,
) -> Result<(), AllocError> {
    for part in parts {
        add_part(script, part, text)?;
    }
    Ok(())
}
