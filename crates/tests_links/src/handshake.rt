//! The lines with which a link begins, each with what it says, or why it closes the link (RFC 2813
//! section 4.1); and who may link.
use crate::deed_shown::close_word;
use crate::shown::{ShownText, append_word, first_word, sides};
use crate::stage::{Stage, StageTest, test_holds};
use irc_batch::CloseReason;
use irc_burst::read_handshake_line;
use irc_line::parse;
use irc_link_reader::Arrival;
use irc_link_words::{Opening, refusal};
use irc_routes::Routes;
use std::alloc::Global;
use std::process::Abort;

/// Each row: a line by a new link, behind `first`, or `late` where a password has come, and what
/// a.net makes of it behind ` =>`. b.net is linked already, by another link.
const ROWS: &str = "\
first PASS pw 0210010001 TREE| => gives pw
first pass pw 0210010001 TREE| => gives pw
first PASS aaaaaaaaaaaaaaaaaaaa 0210010001 TREE| => gives aaaaaaaaaaaaaaaaaaaa
late PASS pw 0210010001 TREE| => order
first PASS => parameters
first PASS pw 0210010001 => parameters
first PASS pw 0210010001 TREE| x => parameters
first PASS pw 0210010000 TREE| => parameters
first PASS pw 0210010001 TREE|Z => parameters
first PASS aaaaaaaaaaaaaaaaaaaaa 0210010001 TREE| => parameters
late PASS pw 0210010000 TREE| => parameters
first :c.net PASS pw 0210010001 TREE| => parameters
late SERVER c.net 1 1 :C => names c.net C
late server c.net 1 1 : => names c.net 
late SERVER b.net 1 1 :B => names b.net B
first SERVER c.net 1 1 :C => order
late SERVER c.net 1 1 => parameters
late SERVER c.net 1 1 C x => parameters
late SERVER c.net 2 1 :C => parameters
late SERVER c.net 1 2 :C => parameters
late SERVER c.net 01 1 :C => parameters
late SERVER c.net 1 1 :xxxxxxxxxxxxxxxxxxxxxxxxxxxxxxxxxxxxxxxxxxxxxxxxxxxxxxxxxxxxxxxx => param\
eters
first SERVER c.net 2 1 :C => parameters
late SERVER c 1 1 :C => peer
first SERVER c 1 1 :C => order
late :c.net SERVER d.net 2 2 :D => order
late FOO => unknown
first :bo QUIT => parameters
first :bo QUIT :x => order
late NICK al 1 u h 9 + :Al => order
late :bo MODE #c ++m => parameters
late :bo MODE #c +m => order";

/// The password that is kept for a peer of a name, the password that was given, the name, and why
/// it is refused.
type PeerRow = (
    Option<&'static [u8]>,
    &'static [u8],
    &'static [u8],
    Option<CloseReason>,
);

/// b.net is linked already.
const PEERS: &[PeerRow] = &[
    (Some(b"pw"), b"pw", b"c.net", None),
    (None, b"pw", b"c.net", Some(CloseReason::UnknownPeer)),
    (None, b"pw", b"b.net", Some(CloseReason::UnknownPeer)),
    (Some(b"pw"), b"pv", b"c.net", Some(CloseReason::Password)),
    (Some(b"pw"), b"pv", b"b.net", Some(CloseReason::Password)),
    (
        Some(b"pw"),
        b"pw",
        b"b.net",
        Some(CloseReason::AlreadyKnown),
    ),
];

/// The same, where 256 servers are known.
const CROWDED: &[PeerRow] = &[
    (Some(b"pw"), b"pw", b"c.net", Some(CloseReason::Full)),
    (
        Some(b"pw"),
        b"pw",
        b"b.net",
        Some(CloseReason::AlreadyKnown),
    ),
    (Some(b"pw"), b"pv", b"c.net", Some(CloseReason::Password)),
];

fn show(opening: &Opening, shown: &mut ShownText) {
    match opening {
        Opening::Password(password) => {
            append_word(shown, b"gives");
            append_word(shown, password.as_bytes());
        }
        Opening::Greeting { name, info } => {
            append_word(shown, b"names");
            append_word(shown, name.as_bytes());
            append_word(shown, info.as_bytes());
        }
    }
}

/// Shows what is read of a line by a new link.
fn show_read(
    alloc: Global,
    at: Arrival<'_>,
    has_password: bool,
    line: &[u8],
    shown: &mut ShownText,
) {
    if let Ok(message) = parse(line) {
        match read_handshake_line(alloc, &message, at, has_password) {
            Ok(Ok(opening)) => show(&opening, shown),
            Ok(Err(reason)) => append_word(shown, close_word(reason)),
            Err(_) => append_word(shown, b"memory"),
        }
    }
}

/// Whether what is read of a row's line is what the row says.
fn row_holds(alloc: Global, stage: &Stage, row: &str) -> bool {
    let at = Arrival {
        room: &stage.room,
        routes: &stage.routes,
        link: 2,
    };
    let (words, said) = sides(row);
    let (when, line) = first_word(words);
    let mut shown = ShownText::new();
    show_read(alloc, at, when == "late", line.as_bytes(), &mut shown);
    shown.as_slice() == said.as_bytes()
}

fn rows_hold(alloc: Global, stage: &Stage, rows: &str) -> bool {
    let mut all = true;
    for row in rows.lines() {
        all &= row_holds(alloc, stage, row);
    }
    all
}

/// Whether each peer is refused as its row says.
fn peers_hold(routes: &Routes, rows: &[PeerRow]) -> bool {
    let mut all = true;
    for (kept, given, name, wanted) in rows {
        all &= refusal(*kept, given, routes, name) == *wanted;
    }
    all
}

/// As many servers are known as there is room for.
const KNOWN: &str = "\
links
fills";

/// Lines by a new link, and neighbours that name themselves.
struct HandshakeTable {
    rows: &'static str,
    peers: &'static [PeerRow],
}

impl StageTest for HandshakeTable {
    fn holds(&self, _rt: &impl Abort, alloc: Global, stage: &mut Stage) -> bool {
        rows_hold(alloc, stage, self.rows) && peers_hold(&stage.routes, self.peers)
    }
}

static TABLE: HandshakeTable = HandshakeTable {
    rows: ROWS,
    peers: PEERS,
};

static CROWDED_TABLE: HandshakeTable = HandshakeTable {
    rows: "",
    peers: CROWDED,
};

#[test]
fn a_link_begins_with_a_password_and_a_name(rt: HostRuntime) {
    assert!(rt; test_holds(&rt, rt.alloc(), "links", &TABLE));
}

#[test]
fn a_neighbour_more_than_there_is_room_for_is_refused(rt: HostRuntime) {
    assert!(rt; test_holds(&rt, rt.alloc(), KNOWN, &CROWDED_TABLE));
}
