//! `ircd serve` on files: its words, its statuses, and what it says. What it does over sockets
//! stands in `tests_sockets` and `tests/`.
use crate::program::run;
use crate::program_tests::add_words;
use std::alloc::Global;
use std::io::{ErrorKind, Write, empty};
use std::{fs, io};

/// The first lines of a configuration.
const MOST: &str = "\
name = \"a.net\"
info = \"Test server\"
created = \"2024-01-01\"
listen = \"127.0.0.1:0\"
link_room = 8192
";

/// The line that is wanted behind them.
const ROOM: &str = "client_room = 4096\n";

/// What stands behind the first lines of the file, which words there are, and what comes of it.
struct ServeRow {
    room: &'static str,
    more: &'static str,
    words: &'static [&'static str],
    status: u8,
    output: &'static [u8],
    errors: &'static [u8],
}

const USAGE: &[u8] = b"ircd: usage: ircd sim | ircd serve FILE [TURNS]\n";

const BAD: &[u8] = b"ircd: bad configuration\n";

const CLOSED: &[u8] = b"ircd: cannot listen on 192.0.2.1:1: Cannot assign requested address \
    (os error 99)\nircd: failed\n";

const READY: &[u8] = b"ready\n";

/// The file that each configuration is written to.
const FILE: &str = "serve_tests.toml";

static ROWS: [ServeRow; 49] = [
    ServeRow {
        room: ROOM,
        more: "",
        words: &["serve", FILE, "0"],
        status: 0,
        output: READY,
        errors: b"",
    },
    ServeRow {
        room: ROOM,
        more: "",
        words: &["serve", FILE, "3"],
        status: 0,
        output: READY,
        errors: b"",
    },
    ServeRow {
        room: ROOM,
        more: "",
        words: &["serve"],
        status: 2,
        output: b"",
        errors: USAGE,
    },
    ServeRow {
        room: ROOM,
        more: "",
        words: &["serve", FILE, "0", "0"],
        status: 2,
        output: b"",
        errors: USAGE,
    },
    ServeRow {
        room: ROOM,
        more: "",
        words: &["serve", FILE, "-1"],
        status: 2,
        output: b"",
        errors: USAGE,
    },
    ServeRow {
        room: ROOM,
        more: "",
        words: &["serve", FILE, "00"],
        status: 2,
        output: b"",
        errors: USAGE,
    },
    ServeRow {
        room: ROOM,
        more: "",
        words: &["serve", FILE, "18446744073709551616"],
        status: 2,
        output: b"",
        errors: USAGE,
    },
    ServeRow {
        room: ROOM,
        more: "",
        words: &["Serve", FILE, "0"],
        status: 2,
        output: b"",
        errors: USAGE,
    },
    ServeRow {
        room: ROOM,
        more: "",
        words: &["serve", "no_such_file.toml", "0"],
        status: 3,
        output: b"",
        errors: BAD,
    },
    ServeRow {
        room: ROOM,
        more: "port = 1\n",
        words: &["serve", FILE, "0"],
        status: 3,
        output: b"",
        errors: BAD,
    },
    ServeRow {
        room: ROOM,
        more: "listen_links = \"localhost:0\"\n",
        words: &["serve", FILE, "0"],
        status: 3,
        output: b"",
        errors: BAD,
    },
    ServeRow {
        room: ROOM,
        more: "listen_links = \"127.0.0.1:0\"\n",
        words: &["serve", FILE, "0"],
        status: 0,
        output: READY,
        errors: b"",
    },
    ServeRow {
        room: ROOM,
        more: "listen_links = \"192.0.2.1:1\"\n",
        words: &["serve", FILE, "0"],
        status: 4,
        output: b"",
        errors: CLOSED,
    },
    ServeRow {
        room: ROOM,
        more: "[[peer]]\nname = \"b.net\"\npassword = \"pw\"\nconnect = \"127.0.0.1:1\"\n",
        words: &["serve", FILE, "0"],
        status: 0,
        output: READY,
        errors: b"",
    },
    ServeRow {
        room: ROOM,
        more: "[[peer]]\nname = \"b.net\"\npassword = \"pw\"\nconnect = \"b.net\"\n",
        words: &["serve", FILE, "0"],
        status: 3,
        output: b"",
        errors: BAD,
    },
    // two that are not there, and one that is not called; behind no turn nothing is told
    ServeRow {
        room: ROOM,
        more: "[[peer]]\nname = \"b.net\"\npassword = \"pw\"\nconnect = \"127.0.0.1:1\"\n\
[[peer]]\nname = \"c.net\"\npassword = \"pw\"\n\
[[peer]]\nname = \"d.net\"\npassword = \"pw\"\nconnect = \"[::1]:1\"\n",
        words: &["serve", FILE, "0"],
        status: 0,
        output: READY,
        errors: b"",
    },
    // one that is called, with a name that is none
    ServeRow {
        room: ROOM,
        more: "[[peer]]\nname = \"bnet\"\npassword = \"pw\"\nconnect = \"127.0.0.1:1\"\n",
        words: &["serve", FILE, "0"],
        status: 3,
        output: b"",
        errors: BAD,
    },
    ServeRow {
        room: ROOM,
        more: "[[peer]]\nname = \"b.net\"\npassword = \":pw\"\n",
        words: &["serve", FILE, "0"],
        status: 3,
        output: b"",
        errors: BAD,
    },
    ServeRow {
        room: ROOM,
        more: "[[peer]]\nname = \"a.net\"\npassword = \"pw\"\n",
        words: &["serve", FILE, "0"],
        status: 3,
        output: b"",
        errors: BAD,
    },
    // no TOML
    ServeRow {
        room: ROOM,
        more: "client_room\n",
        words: &["serve", FILE, "0"],
        status: 3,
        output: b"",
        errors: BAD,
    },
    // no room
    ServeRow {
        room: "",
        more: "",
        words: &["serve", FILE, "0"],
        status: 3,
        output: b"",
        errors: BAD,
    },
    // a room that is no number, and one that is too small, or too large
    ServeRow {
        room: "client_room = \"4096\"\n",
        more: "",
        words: &["serve", FILE, "0"],
        status: 3,
        output: b"",
        errors: BAD,
    },
    ServeRow {
        room: "client_room = 511\n",
        more: "",
        words: &["serve", FILE, "0"],
        status: 3,
        output: b"",
        errors: BAD,
    },
    ServeRow {
        room: "client_room = 1048577\n",
        more: "",
        words: &["serve", FILE, "0"],
        status: 3,
        output: b"",
        errors: BAD,
    },
    // a key that no peer has
    ServeRow {
        room: ROOM,
        more: "[[peer]]\nname = \"b.net\"\npassword = \"pw\"\nport = 1\n",
        words: &["serve", FILE, "0"],
        status: 3,
        output: b"",
        errors: BAD,
    },
    // one that is called again, and was not there
    ServeRow {
        room: ROOM,
        more: "[[peer]]\nname = \"b.net\"\npassword = \"pw\"\nconnect = \"127.0.0.1:1\"\nretry = 3600\n",
        words: &["serve", FILE, "3"],
        status: 0,
        output: READY,
        errors: b"ircd: link to b.net: not reached: Connection refused (os error 111)\n",
    },
    // one that would be called again, and is not called
    ServeRow {
        room: ROOM,
        more: "[[peer]]\nname = \"b.net\"\npassword = \"pw\"\nretry = 1\n",
        words: &["serve", FILE, "0"],
        status: 3,
        output: b"",
        errors: BAD,
    },
    // one that is called without the word by which two count pieces
    ServeRow {
        room: ROOM,
        more: "[[peer]]\nname = \"b.net\"\npassword = \"pw\"\nconnect = \"127.0.0.1:1\"\n\
            plain = true\n",
        words: &["serve", FILE, "3"],
        status: 0,
        output: READY,
        errors: b"ircd: link to b.net: not reached: Connection refused (os error 111)\n",
    },
    // one that would be, and is not called
    ServeRow {
        room: ROOM,
        more: "[[peer]]\nname = \"b.net\"\npassword = \"pw\"\nplain = true\n",
        words: &["serve", FILE, "0"],
        status: 3,
        output: b"",
        errors: BAD,
    },
    // one of which that is said by a number
    ServeRow {
        room: ROOM,
        more: "[[peer]]\nname = \"b.net\"\npassword = \"pw\"\nconnect = \"127.0.0.1:1\"\n\
            plain = 1\n",
        words: &["serve", FILE, "0"],
        status: 3,
        output: b"",
        errors: BAD,
    },
    // the most connections of an address, and none
    ServeRow {
        room: ROOM,
        more: "connections_per_address = 65535\n",
        words: &["serve", FILE, "0"],
        status: 0,
        output: READY,
        errors: b"",
    },
    ServeRow {
        room: ROOM,
        more: "connections_per_address = 0\n",
        words: &["serve", FILE, "0"],
        status: 3,
        output: b"",
        errors: BAD,
    },
    // clients have what their programs expect, or not; no other word is one
    ServeRow {
        room: ROOM,
        more: "programs = true\n",
        words: &["serve", FILE, "0"],
        status: 0,
        output: READY,
        errors: b"",
    },
    ServeRow {
        room: ROOM,
        more: "programs = false\n",
        words: &["serve", FILE, "0"],
        status: 0,
        output: READY,
        errors: b"",
    },
    ServeRow {
        room: ROOM,
        more: "programs = \"usual\"\n",
        words: &["serve", FILE, "0"],
        status: 3,
        output: b"",
        errors: BAD,
    },
    // no limit of those who do not name themselves, and more than the most
    ServeRow {
        room: ROOM,
        more: "name_within = 0\nlinks_per_address = 0\n",
        words: &["serve", FILE, "0"],
        status: 0,
        output: READY,
        errors: b"",
    },
    ServeRow {
        room: ROOM,
        more: "name_within = 3601\n",
        words: &["serve", FILE, "0"],
        status: 3,
        output: b"",
        errors: BAD,
    },
    // the most time to register, and none
    ServeRow {
        room: ROOM,
        more: "register_within = 3600\n",
        words: &["serve", FILE, "0"],
        status: 0,
        output: READY,
        errors: b"",
    },
    ServeRow {
        room: ROOM,
        more: "register_within = 0\n",
        words: &["serve", FILE, "0"],
        status: 3,
        output: b"",
        errors: BAD,
    },
    // ranges, and what is none
    ServeRow {
        room: ROOM,
        more: "deny = [\"10.1.0.0/16\", \"2001:db8::/32\"]\nproxies = [\"127.0.0.1\"]\n",
        words: &["serve", FILE, "0"],
        status: 0,
        output: READY,
        errors: b"",
    },
    ServeRow {
        room: ROOM,
        more: "deny = [\"10.1.0.0/33\"]\n",
        words: &["serve", FILE, "0"],
        status: 3,
        output: b"",
        errors: BAD,
    },
    // lines that are counted, and a number of them at once alone
    ServeRow {
        room: ROOM,
        more: "lines_per_second = 1000\nburst_lines = 1\n",
        words: &["serve", FILE, "0"],
        status: 0,
        output: READY,
        errors: b"",
    },
    ServeRow {
        room: ROOM,
        more: "burst_lines = 10\n",
        words: &["serve", FILE, "0"],
        status: 3,
        output: b"",
        errors: BAD,
    },
    // a message of the day, as whose text the configuration itself may stand
    ServeRow {
        room: ROOM,
        more: "motd = \"serve_tests.toml\"\n",
        words: &["serve", FILE, "3"],
        status: 0,
        output: READY,
        errors: b"",
    },
    // one that is not there, a folder, one without room, and one that is no text
    ServeRow {
        room: ROOM,
        more: "motd = \"no_such_file.txt\"\n",
        words: &["serve", FILE, "0"],
        status: 3,
        output: b"",
        errors: BAD,
    },
    ServeRow {
        room: ROOM,
        more: "motd = \"/\"\n",
        words: &["serve", FILE, "0"],
        status: 3,
        output: b"",
        errors: BAD,
    },
    ServeRow {
        room: "client_room = 2048\n",
        more: "motd = \"serve_tests.toml\"\n",
        words: &["serve", FILE, "0"],
        status: 3,
        output: b"",
        errors: BAD,
    },
    ServeRow {
        room: ROOM,
        more: "motd = true\n",
        words: &["serve", FILE, "0"],
        status: 3,
        output: b"",
        errors: BAD,
    },
    // the largest room
    ServeRow {
        room: "client_room = 1048576\n",
        more: "",
        words: &["serve", FILE, "0"],
        status: 0,
        output: READY,
        errors: b"",
    },
];

/// Whether a configuration is written, with these lines behind the first ones.
fn is_written(rt: &HostRuntime, row: &ServeRow) -> bool {
    let Ok(mut text) = String::from_str(rt.alloc(), MOST) else {
        return false;
    };
    text.push_str(row.room).is_ok()
        && text.push_str(row.more).is_ok()
        && fs::write(rt, FILE, text.as_str()).is_ok()
}

/// Whether the program ends so.
fn ends_so(rt: &HostRuntime, row: &ServeRow) -> bool {
    let mut words = Vec::new(rt.alloc());
    let mut output = Vec::new(rt.alloc());
    let mut errors = Vec::new(rt.alloc());
    is_written(rt, row)
        && add_words(rt.alloc(), row.words, &mut words).is_ok()
        && run(rt, &words, &mut empty(), &mut output, &mut errors) == row.status
        && output.as_slice() == row.output
        && errors.as_slice() == row.errors
}

fn end_so(rt: &HostRuntime) -> bool {
    for row in &ROWS {
        if !ends_so(rt, row) {
            return false;
        }
    }
    true
}

#[test]
fn files_and_words_of_serving(rt: HostRuntime) {
    assert!(rt; end_so(&rt));
}

/// What stands beside the file where it is to be read again.
const REQUEST: &str = "serve_tests.toml.reload";

const AGAIN: &[u8] = b"ircd: configuration: read again\n";

/// Whether the file is read again, once, and nothing asks for that any more.
fn is_read_again(rt: &HostRuntime) -> bool {
    let mut words = Vec::new(rt.alloc());
    let mut output = Vec::new(rt.alloc());
    let mut errors = Vec::new(rt.alloc());
    is_written(rt, &ROWS[1])
        && fs::write(rt, REQUEST, "").is_ok()
        && add_words(rt.alloc(), ROWS[1].words, &mut words).is_ok()
        && run(rt, &words, &mut empty(), &mut output, &mut errors) == 0
        && output.as_slice() == READY
        && errors.as_slice() == AGAIN
        && !fs::exists(rt, REQUEST).unwrap_or(true)
}

#[test]
fn a_file_is_read_again(rt: HostRuntime) {
    assert!(rt; is_read_again(&rt));
}

/// Whether `ready` arrives: it is flushed behind the write, and nothing else is.
fn arrives(rt: &HostRuntime) -> bool {
    let mut words = Vec::new(rt.alloc());
    let mut output = Buffered {
        taken: Vec::new(rt.alloc()),
        arrived: 0,
    };
    let mut errors = Vec::new(rt.alloc());
    is_written(rt, &ROWS[0])
        && add_words(rt.alloc(), ROWS[0].words, &mut words).is_ok()
        && run(rt, &words, &mut empty(), &mut output, &mut errors) == 0
        && output.taken.as_slice() == READY
        && output.arrived == READY.len()
}

#[test]
fn ready_is_flushed(rt: HostRuntime) {
    assert!(rt; arrives(&rt));
}

/// A writer that keeps what it takes until it is flushed.
#[derive(Drop)]
struct Buffered {
    taken: Vec<u8, Global>,
    arrived: usize,
}

impl Write for Buffered {
    fn write(&mut self, buf: &[u8]) -> io::Result<usize> {
        match self.taken.extend_from_slice(buf) {
            Ok(()) => Ok(buf.len()),
            Err(_) => Err(io::Error::from(ErrorKind::OutOfMemory)),
        }
    }

    fn flush(&mut self) -> io::Result<()> {
        self.arrived = self.taken.len();
        Ok(())
    }
}
