//! A hold in front of a server: what one client says while it negotiates, and what it is told.
use crate::server::server;
use crate::told::{WELCOME, is_told};
use irc_batch::Batch;
use irc_engine::Machine;
use irc_hold::{Hold, Negotiations};
use irc_moments::Moment;
use irc_names::{Host, cut_copy};
use irc_server::{Event, Server, ServerFault};
use std::alloc::Global;

/// What happens, and what client 1 is told by it.
struct HoldingRow {
    negotiations: Negotiations,
    steps: &'static [Step],
}

/// What happens, and what client 1 is told then: lines, and `closed`.
enum Step {
    /// It says a line.
    Says(&'static str, &'static str),
    /// A moment is handed in.
    Waits,
    /// It is gone, and connects again.
    ComesAgain,
    /// It connects again, as it was closed.
    ComesClosed,
    /// It is refused, as it is there.
    IsThere,
    /// Client 2, which comes where it is not there, says a line, and is told what is not looked at.
    AnotherSays(&'static str),
}

const WELCOME_V: &str = "\
:a.net 001 al :Welcome to the Internet Relay Network al!v@h\r\n\
:a.net 002 al :Your host is a.net, running version treeircd-1\r\n\
:a.net 003 al :This server was created 2024-01-01\r\n\
:a.net 004 al a.net treeircd-1 i biklmnopstv\r\n\
:a.net 422 al :MOTD File is missing\r\n";

const NOT_YET: &str = ":a.net 451 * :You have not registered\r\n";

const NAMED_NOT_YET: &str = ":a.net 451 al :You have not registered\r\n";

const UNKNOWN: &str = ":a.net 421 al CAP :Unknown command\r\n";

const SHORT: &str = ":a.net 461 * USER :Not enough parameters\r\n";

const TWICE: &str = ":a.net 462 al :Unauthorized command (already registered)\r\n";

const LEFT: &str = "ERROR :Closing link (bye)\r\nclosed";

static ROWS: [HoldingRow; 16] = [
    // USER waits for CAP END
    HoldingRow {
        negotiations: Negotiations::Awaited,
        steps: &[
            Step::Says("CAP REQ :sasl", NOT_YET),
            Step::Says("NICK al", ""),
            Step::Says("USER u 0 * :Al", ""),
            Step::Waits,
            Step::Says("CAP END", WELCOME),
            Step::Says("USER u 0 * :Al", TWICE),
        ],
    },
    // the same where nothing waits
    HoldingRow {
        negotiations: Negotiations::Off,
        steps: &[
            Step::Says("CAP REQ :sasl", NOT_YET),
            Step::Says("NICK al", ""),
            Step::Says("USER u 0 * :Al", WELCOME),
            Step::Says("CAP END", UNKNOWN),
        ],
    },
    // the last USER counts, and a word that is asked for ends nothing
    HoldingRow {
        negotiations: Negotiations::Awaited,
        steps: &[
            Step::Says("cap req :sasl", NOT_YET),
            Step::Says("USER u 0 * :Al", ""),
            Step::Says("user v 0 * :Bo", ""),
            Step::Says("CAP LS", NOT_YET),
            Step::Says("CAP REQ :sasl", NOT_YET),
            Step::Says("NICK al", ""),
            Step::Says("cap end", WELCOME_V),
        ],
    },
    // the nickname comes behind the end
    HoldingRow {
        negotiations: Negotiations::Awaited,
        steps: &[
            Step::Says("CAP REQ :sasl", NOT_YET),
            Step::Says("USER u 0 * :Al", ""),
            Step::Says("CAP END", ""),
            Step::Says("NICK al", WELCOME),
        ],
    },
    // an end without USER: then USER goes at once
    HoldingRow {
        negotiations: Negotiations::Awaited,
        steps: &[
            Step::Says("CAP REQ :sasl", NOT_YET),
            Step::Says("NICK al", ""),
            Step::Says("CAP END", NAMED_NOT_YET),
            Step::Says("USER u 0 * :Al", WELCOME),
        ],
    },
    // an end of nothing
    HoldingRow {
        negotiations: Negotiations::Awaited,
        steps: &[
            Step::Says("CAP END", NOT_YET),
            Step::Says("NICK al", ""),
            Step::Says("USER u 0 * :Al", WELCOME),
        ],
    },
    // a user's USER is not held
    HoldingRow {
        negotiations: Negotiations::Awaited,
        steps: &[
            Step::Says("NICK al", ""),
            Step::Says("USER u 0 * :Al", WELCOME),
            Step::Says("CAP REQ :sasl", UNKNOWN),
            Step::Says("USER u 0 * :Al", TWICE),
            Step::Says("CAP END", UNKNOWN),
        ],
    },
    // a USER that is short
    HoldingRow {
        negotiations: Negotiations::Awaited,
        steps: &[
            Step::Says("CAP REQ :sasl", NOT_YET),
            Step::Says("USER u 0 *", SHORT),
            Step::Says("CAP END", NOT_YET),
        ],
    },
    // who asks which there are, and for none
    HoldingRow {
        negotiations: Negotiations::Awaited,
        steps: &[
            Step::Says("CAP LS 302", NOT_YET),
            Step::Says("NICK al", ""),
            Step::Says("USER u 0 * :Al", WELCOME),
            Step::Says("CAP END", UNKNOWN),
        ],
    },
    // other words of CAP, PING and a line of nothing
    HoldingRow {
        negotiations: Negotiations::Awaited,
        steps: &[
            Step::Says("CAP LIST", NOT_YET),
            Step::Says("CAP", NOT_YET),
            Step::Says(" ", ""),
            Step::Says("NICK al", ""),
            Step::Says("USER u 0 * :Al", WELCOME),
        ],
    },
    // a line with a prefix is not looked at
    HoldingRow {
        negotiations: Negotiations::Awaited,
        steps: &[
            Step::Says(":al CAP REQ :sasl", ""),
            Step::Says("NICK al", ""),
            Step::Says("USER u 0 * :Al", WELCOME),
        ],
    },
    // one that is gone, and one that comes again
    HoldingRow {
        negotiations: Negotiations::Awaited,
        steps: &[
            Step::Says("CAP REQ :sasl", NOT_YET),
            Step::Says("USER v 0 * :Bo", ""),
            Step::ComesAgain,
            Step::Says("NICK al", ""),
            Step::Says("USER u 0 * :Al", WELCOME),
        ],
    },
    // one that leaves, and one that comes in its place
    HoldingRow {
        negotiations: Negotiations::Awaited,
        steps: &[
            Step::Says("CAP REQ :sasl", NOT_YET),
            Step::Says("USER v 0 * :Bo", ""),
            Step::Says("QUIT :bye", LEFT),
            Step::ComesClosed,
            Step::Says("CAP END", NOT_YET),
            Step::Says("NICK al", ""),
            Step::Says("USER u 0 * :Al", WELCOME),
        ],
    },
    // an event that is refused changes nothing
    HoldingRow {
        negotiations: Negotiations::Awaited,
        steps: &[
            Step::Says("CAP REQ :sasl", NOT_YET),
            Step::Says("NICK al", ""),
            Step::Says("USER u 0 * :Al", ""),
            Step::IsThere,
            Step::Says("CAP END", WELCOME),
        ],
    },
    // one waits, and another does not
    HoldingRow {
        negotiations: Negotiations::Awaited,
        steps: &[
            Step::AnotherSays("CAP REQ :sasl"),
            Step::Says("NICK al", ""),
            Step::Says("USER u 0 * :Al", WELCOME),
        ],
    },
    // each has its own line, and its own end
    HoldingRow {
        negotiations: Negotiations::Awaited,
        steps: &[
            Step::AnotherSays("CAP REQ :sasl"),
            Step::Says("CAP REQ :sasl", NOT_YET),
            Step::Says("NICK al", ""),
            Step::Says("USER u 0 * :Al", ""),
            Step::AnotherSays("USER v 0 * :Bo"),
            Step::AnotherSays("CAP END"),
            Step::Says("CAP END", WELCOME),
        ],
    },
];

type Handled = Result<(), ServerFault>;

fn connect(hold: &mut Hold<Server>, conn: u64, out: &mut Batch) -> Handled {
    match Host::read(b"h") {
        Some(host) => hold.handle(&Event::Connect(conn, host), out),
        None => Err(ServerFault::Failed),
    }
}

/// Client 2 says a line.
fn another_says(hold: &mut Hold<Server>, line: &[u8], out: &mut Batch) -> Handled {
    if !hold.server().has_client(2) {
        connect(hold, 2, out)?;
    }
    hold.handle(&Event::Line(2, cut_copy(line)), out)?;
    out.clear();
    Ok(())
}

/// That client 1 does not come twice.
fn is_there(hold: &mut Hold<Server>, out: &mut Batch) -> Handled {
    match connect(hold, 1, out) {
        Err(ServerFault::ConnectionThere) => Ok(()),
        _ => Err(ServerFault::Failed),
    }
}

fn does(hold: &mut Hold<Server>, step: &Step, out: &mut Batch) -> Handled {
    match step {
        Step::Says(line, _) => hold.handle(&Event::Line(1, cut_copy(line.as_bytes())), out),
        Step::Waits => hold.due(Moment::of(1000), out),
        Step::ComesAgain => {
            hold.handle(&Event::Gone(1), out)?;
            connect(hold, 1, out)
        }
        Step::ComesClosed => connect(hold, 1, out),
        Step::IsThere => is_there(hold, out),
        Step::AnotherSays(line) => another_says(hold, line.as_bytes(), out),
    }
}

fn told(step: &Step) -> &'static str {
    match step {
        Step::Says(_, told) => told,
        Step::Waits | Step::ComesAgain | Step::ComesClosed => "",
        Step::IsThere | Step::AnotherSays(_) => "",
    }
}

/// Whether all goes as a row says.
fn goes_so(alloc: Global, hold: &mut Hold<Server>, row: &HoldingRow) -> bool {
    let mut out = Batch::new(alloc);
    if connect(hold, 1, &mut out).is_err() {
        return false;
    }
    for step in row.steps {
        out.clear();
        if does(hold, step, &mut out).is_err() || !is_told(&out, told(step)) {
            return false;
        }
    }
    true
}

fn is_so(alloc: Global, row: &HoldingRow) -> bool {
    match server(alloc) {
        Some(server) => goes_so(alloc, &mut Hold::new(alloc, server, row.negotiations), row),
        None => false,
    }
}

#[test]
fn users_are_held(rt: HostRuntime) {
    for (place, row) in ROWS.iter().enumerate() {
        assert!(rt; is_so(rt.alloc(), row), "row {place}");
    }
}
