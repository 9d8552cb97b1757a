//! A wire in memory, call by call.
//!
//! The rows of a script that [`crate::script`] does not have are calls, each with its answer:
//! - `ready 1 client`, `linked`, `called`, `readable`, `writable`, `ready 0 idle`: what is told to
//!   be ready; `called` is a server whose name is told.
//! - `read 1 2 ab`: a read with room for two bytes gives these. `later 1`, `ended 1`, `unread 1`:
//!   it finds nothing yet, that no more will come, or fails.
//! - `write 1 4 abcdef`: a write takes four of these bytes. `unwritten 1`: it fails.
//! - `close 1`: a connection is closed.
use crate::script::{ScriptRow, number, row_of, wire};
use irc_outbox::{Got, IoFault, MemoryWire, Ready, Wire};
use std::alloc::Global;
use std::cmp::min;

/// No read has more room.
const MOST: usize = 40;

/// Bytes are reported until all are read, then that no more will come.
const READ: &str = "\
client 1
bytes 1 abc
end 1
ready 1 client
later 1
ready 1 readable
read 1 2 ab
ready 1 readable
read 1 2 c
ready 1 readable
ended 1
ready 0 idle
";

/// The next read fails, and none behind it.
const UNREAD: &str = "\
client 1
read-fails 1
bytes 1 ab
ready 1 client
ready 1 readable
unread 1
later 1
ready 1 readable
read 1 9 ab
ready 0 idle
";

/// A write takes what there is room for. The next one fails, and none behind it.
const WRITTEN: &str = "\
client 1
room 1 4
write-fails 1
room 1 3
ready 1 client
write 1 0 abcdef
ready 1 writable
write 1 4 abcdef
write 1 0 ef
ready 1 writable
unwritten 1
ready 1 writable
write 1 2 ef
write 1 1 gh
ready 0 idle
";

/// Behind a report that no read follows comes the next step, also where some of the bytes were read
/// before.
const PASSED_BY: &str = "\
client 1
client 2
bytes 1 ab
bytes 2 cd
bytes 1 ef
ready 1 client
ready 2 client
ready 1 readable
ready 2 readable
read 2 1 c
ready 2 readable
ready 1 readable
read 1 9 ef
ready 0 idle
";

/// Steps of a connection that is closed are passed over, and its bytes that were not read.
const CLOSED: &str = "\
client 1
client 2
bytes 1 twenty bytes in all.
bytes 1 abc
room 1 5
read-fails 1
write-fails 1
end 1
client 1
room 2 5
ready 1 client
ready 2 client
ready 1 readable
read 1 6 twenty
close 1
ready 2 writable
write 2 5 abcdef
ready 0 idle
";

/// A long step and a short one behind it are read whole.
const LONG: &str = "\
client 1
bytes 1 twenty bytes in all.
bytes 1 abc
ready 1 client
ready 1 readable
read 1 40 twenty bytes in all.
ready 1 readable
read 1 40 abc
ready 0 idle
";

/// A number is reported once, and first.
const NUMBERED: &str = "\
bytes 1 ab
link 1
client 1
call 2
link 2
bytes 2 cd
room 3 1
ready 1 linked
ready 2 called
ready 2 readable
read 2 9 cd
ready 0 idle
";

static SCRIPTS: [&str; 7] = [READ, UNREAD, WRITTEN, PASSED_BY, CLOSED, LONG, NUMBERED];

/// What is ready, and of which connection.
fn told(ready: &Ready) -> (&'static str, u64) {
    match ready {
        Ready::Idle => ("idle", 0),
        Ready::Client(conn, _) => ("client", *conn),
        Ready::Linked(conn, None) => ("linked", *conn),
        Ready::Linked(conn, Some(_)) => ("called", *conn),
        Ready::Readable(conn) => ("readable", *conn),
        Ready::Writable(conn) => ("writable", *conn),
    }
}

/// Whether a wire tells that to be ready.
fn tells(wire: &mut MemoryWire, row: ScriptRow<'_>) -> bool {
    match wire.ready() {
        Ok(ready) => told(&ready) == (row.text, row.number),
        Err(_fault) => false,
    }
}

/// Whether a read with room for so many bytes gives these.
fn gives(wire: &mut MemoryWire, conn: u64, room: usize, bytes: &[u8]) -> bool {
    let mut buffer = [0u8; MOST];
    match wire.read(conn, &mut buffer[..min(room, MOST)]) {
        Ok(Got::Bytes(count)) => &buffer[..count] == bytes,
        _ => false,
    }
}

/// Whether a read that gives nothing is answered so.
fn gives_nothing(wire: &mut MemoryWire, conn: u64, wanted: Result<Got, IoFault>) -> bool {
    let mut buffer = [0u8; 8];
    wire.read(conn, &mut buffer) == wanted
}

/// Whether a read or a write of bytes is answered by a count.
fn counts(wire: &mut MemoryWire, row: ScriptRow<'_>) -> bool {
    let (word, bytes) = row.text.split_once(' ').unwrap_or(("", ""));
    let count = number(word) as usize;
    if row.verb == "read" {
        gives(wire, row.number, count, bytes.as_bytes())
    } else {
        wire.write(row.number, bytes.as_bytes(), 0) == Ok(count)
    }
}

/// Whether a connection is closed by that.
fn closes(wire: &mut MemoryWire, conn: u64) -> bool {
    wire.close(conn);
    wire.closed(conn)
}

/// Whether a wire answers a call as a row says. What a row says to happen is no call.
fn answers(wire: &mut MemoryWire, row: ScriptRow<'_>) -> bool {
    match row.verb {
        "ready" => tells(wire, row),
        "read" | "write" => counts(wire, row),
        "later" => gives_nothing(wire, row.number, Ok(Got::Later)),
        "ended" => gives_nothing(wire, row.number, Ok(Got::End)),
        "unread" => gives_nothing(wire, row.number, Err(IoFault::Failed)),
        "unwritten" => wire.write(row.number, b"ab", 0) == Err(IoFault::Failed),
        "close" => closes(wire, row.number),
        _ => true,
    }
}

fn answers_each(wire: &mut MemoryWire, script: &str) -> bool {
    let mut all = true;
    for line in script.lines() {
        all &= answers(wire, row_of(line));
    }
    all
}

/// Whether a wire on which a script says that things happen answers each call as it says.
fn is_answered(alloc: Global, script: &str) -> bool {
    match wire(alloc, script) {
        Some(mut wire) => answers_each(&mut wire, script),
        None => false,
    }
}

fn all_are_answered(alloc: Global, scripts: &[&str]) -> bool {
    let mut all = true;
    for script in scripts {
        all &= is_answered(alloc, script);
    }
    all
}

#[test]
fn each_step_is_served(rt: HostRuntime) {
    assert!(rt; all_are_answered(rt.alloc(), &SCRIPTS));
}
