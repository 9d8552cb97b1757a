//! A doorman in front of a server: what one client says, at which moments, and what it is told.
use crate::server::server;
use crate::told::{WELCOME, is_told};
use irc_batch::Batch;
use irc_doorman::{Asks, ClientPassword, Doorman};
use irc_engine::Machine;
use irc_moments::Moment;
use irc_names::{Host, ServerName, cut_copy};
use irc_server::{Event, Server, ServerFault};
use std::alloc::Global;

/// What is asked of clients, what happens, and what client 1 is told by it.
struct AskingRow {
    password: Option<&'static str>,
    ping_after: Option<u16>,
    steps: &'static [Step],
}

/// What happens, and what client 1 is told then: lines, and `closed`.
enum Step {
    /// It says a line.
    Says(&'static str, &'static str),
    /// So many seconds are counted.
    At(u64, &'static str),
    /// It is gone, and connects again.
    ComesAgain,
}

const TURNED_AWAY: &str = "\
:a.net 464 * :Password incorrect\r\nERROR :Closing link (Bad password)\r\nclosed";

const QUIT: &str = "ERROR :Closing link (Ping timeout)\r\nclosed";

const SHORT: &str = ":a.net 461 * PASS :Not enough parameters\r\n";

static ROWS: [AskingRow; 9] = [
    AskingRow {
        password: None,
        ping_after: None,
        steps: &[
            Step::Says("PASS", ""),
            Step::Says("NICK al", ""),
            Step::Says("USER u 0 * :Al", WELCOME),
            Step::At(9000, ""),
        ],
    },
    AskingRow {
        password: Some("sesame"),
        ping_after: None,
        steps: &[
            Step::Says("PASS wrong", ""),
            Step::Says("pass :sesame", ""),
            Step::Says("NICK al", ""),
            Step::Says("PASS other", ""),
            Step::Says("USER u 0 * :Al", WELCOME),
            Step::Says(
                "PASS",
                ":a.net 462 al :Unauthorized command (already registered)\r\n",
            ),
        ],
    },
    AskingRow {
        password: Some("sesame"),
        ping_after: None,
        steps: &[
            Step::Says("JOIN #c", ":a.net 451 * :You have not registered\r\n"),
            Step::Says("PASS", SHORT),
            Step::Says("NICK al", TURNED_AWAY),
        ],
    },
    AskingRow {
        password: Some("sesame"),
        ping_after: None,
        steps: &[
            Step::Says("PASS sesame", ""),
            Step::Says("PASS sesam", ""),
            Step::Says("USER u 0 * :Al", TURNED_AWAY),
        ],
    },
    AskingRow {
        password: Some("sesame"),
        ping_after: None,
        steps: &[
            Step::Says("PASS sesame", ""),
            Step::Says("PASS", SHORT),
            Step::Says("USER u 0 * :Al", ""),
            Step::ComesAgain,
            Step::Says("NICK al", TURNED_AWAY),
        ],
    },
    AskingRow {
        password: None,
        ping_after: Some(60),
        steps: &[
            Step::At(5, ""),
            Step::Says("NICK al", ""),
            Step::Says("USER u 0 * :Al", WELCOME),
            Step::At(64, ""),
            Step::At(65, "PING :a.net\r\n"),
            Step::At(66, ""),
            Step::Says("PONG a.net", ""),
            Step::At(125, ""),
            Step::At(126, "PING :a.net\r\n"),
            Step::At(185, ""),
            Step::At(186, QUIT),
            Step::At(400, ""),
        ],
    },
    AskingRow {
        password: None,
        ping_after: Some(60),
        steps: &[
            Step::At(60, "PING :a.net\r\n"),
            Step::At(119, ""),
            Step::At(120, QUIT),
        ],
    },
    AskingRow {
        password: None,
        ping_after: Some(60),
        steps: &[
            Step::At(60, "PING :a.net\r\n"),
            Step::Says("QUIT :bye", "ERROR :Closing link (bye)\r\nclosed"),
            Step::At(120, ""),
            Step::ComesAgain,
            Step::At(179, ""),
            Step::At(180, "PING :a.net\r\n"),
        ],
    },
    AskingRow {
        password: Some("sesame"),
        ping_after: Some(1),
        steps: &[
            Step::Says("PASS sesame", ""),
            Step::At(1, "PING :a.net\r\n"),
            Step::Says("NICK al", ""),
            Step::Says("USER u 0 * :Al", WELCOME),
            Step::At(2, "PING :a.net\r\n"),
            Step::At(3, QUIT),
        ],
    },
];

fn asks(row: &AskingRow) -> Option<Asks> {
    let password = match row.password {
        Some(text) => Some(ClientPassword::read(text.as_bytes())?),
        None => None,
    };
    Some(Asks {
        server: ServerName::read(b"a.net")?,
        password,
        ping_after: row.ping_after,
    })
}

type Handled = Result<(), ServerFault>;

fn connect(doorman: &mut Doorman<Server>, out: &mut Batch) -> Handled {
    match Host::read(b"h") {
        Some(host) => doorman.handle(&Event::Connect(1, host), out),
        None => Err(ServerFault::Failed),
    }
}

fn does(doorman: &mut Doorman<Server>, step: &Step, out: &mut Batch) -> Handled {
    match step {
        Step::Says(line, _) => doorman.handle(&Event::Line(1, cut_copy(line.as_bytes())), out),
        Step::At(seconds, _) => doorman.due(Moment::of(seconds.saturating_mul(1000)), out),
        Step::ComesAgain => {
            let _gone = doorman.handle(&Event::Gone(1), out);
            connect(doorman, out)
        }
    }
}

fn told(step: &Step) -> &'static str {
    match step {
        Step::Says(_, told) | Step::At(_, told) => told,
        Step::ComesAgain => "",
    }
}

/// Whether all goes as a row says.
fn goes_so(alloc: Global, doorman: &mut Doorman<Server>, row: &AskingRow) -> bool {
    let mut out = Batch::new(alloc);
    if connect(doorman, &mut out).is_err() {
        return false;
    }
    for step in row.steps {
        out.clear();
        if does(doorman, step, &mut out).is_err() || !is_told(&out, told(step)) {
            return false;
        }
    }
    true
}

fn is_so(alloc: Global, row: &AskingRow) -> bool {
    match (server(alloc), asks(row)) {
        (Some(server), Some(asks)) => {
            goes_so(alloc, &mut Doorman::new(alloc, server, asks), row)
        }
        _ => false,
    }
}

#[test]
fn clients_are_asked(rt: HostRuntime) {
    for (place, row) in ROWS.iter().enumerate() {
        assert!(rt; is_so(rt.alloc(), row), "row {place}");
    }
}
