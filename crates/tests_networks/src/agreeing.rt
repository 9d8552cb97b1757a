//! Whether two servers agree before they are linked.
ghost use Rattle.std.specs.Prelude.{IfSome};
ghost use Rattle.irc_line.specs.Lines.{IsLine};

use crate::configs::two;
use crate::{begun, give};
use irc_line::{Framer, Line};
use irc_names::{Host, ServerName};
use irc_net::{ClientNumber, Item, Kept, Net};
use irc_routes::Programs;
use std::alloc::Global;

/// What clients say, the first of a.net and the second of b.net; a server; and whether a.net and
/// that server agree then. A line is a client's number and what it says.
type AgreementRow = (&'static [&'static str], &'static [u8], bool);

static ROWS: [AgreementRow; 4] = [
    (&[ON_BOTH_SIDES], b"b.net", true),
    (&[ON_ONE_SIDE], b"b.net", true),
    (&[ON_BOTH_SIDES, TWO_TOPICS], b"b.net", false),
    (&[ON_BOTH_SIDES], b"x.net", false),
];

/// People of both servers are in one channel.
const ON_BOTH_SIDES: &str = "\
1 NICK al
1 USER u 0 * :Al
1 JOIN #c
2 NICK bo
2 USER u 0 * :Bo
2 JOIN #c";

/// One server has a channel with modes, bans and a topic, and the other has it not.
const ON_ONE_SIDE: &str = "\
1 NICK al
1 USER u 0 * :Al
1 JOIN #m
1 MODE #m +ntl 5
1 MODE #m +bbb a!*@* b!*@* c!*@*
1 MODE #m +b d!*@*
1 TOPIC #m :hello
2 NICK bo
2 USER u 0 * :Bo";

const TWO_TOPICS: &str = "\
1 TOPIC #c :one
2 TOPIC #c :two";

/// What a client says, as a line.
fn line_of(said: &str) -> Option<Line>
    ensures { IfSome result (λ line. IsLine line.items) }
{
    let mut framer = Framer::new();
    framer.take(said.as_bytes());
    let (_, line) = framer.take(b"\n");
    line
}

/// Whether a client may say a line.
fn says(net: &mut Net<Kept>, client: u64, line: Line) -> bool
    requires { IsLine line.items }
{
    irc_line::laws::words_are_of_the_line();
    give(net, Item::Line(ClientNumber::of(client), line)).is_ok()
}

/// Whether a client may say what a row says.
fn is_said(net: &mut Net<Kept>, row: &str) -> bool {
    let Some((client, said)) = row.split_once(' ') else {
        return false;
    };
    match line_of(said) {
        Some(line) => says(net, if client == "1" { 1 } else { 2 }, line),
        None => false,
    }
}

fn are_said(net: &mut Net<Kept>, rows: &str) -> bool {
    let mut all = true;
    for row in rows.lines() {
        all &= is_said(net, row);
    }
    all
}

/// Whether somebody may connect to a server.
fn connects(net: &mut Net<Kept>, server: &[u8]) -> bool {
    match (ServerName::read(server), Host::read(b"h")) {
        (Some(server), Some(host)) => give(net, Item::Connect(server, host)).is_ok(),
        _ => false,
    }
}

/// Whether a.net and a server agree.
fn agree(net: &Net<Kept>, other: &[u8]) -> Option<bool> {
    Some(net.agrees(&ServerName::read(b"a.net")?, &ServerName::read(other)?))
}

/// Whether all is said on a new network of two servers, and they agree then as a row says.
fn row_holds(net: &mut Net<Kept>, row: &AgreementRow) -> bool {
    let (texts, other, want) = row;
    let mut all = connects(net, b"a.net") && connects(net, b"b.net");
    for text in *texts {
        all &= are_said(net, text);
    }
    all && agree(net, other) == Some(*want)
}

fn is_told(alloc: Global, row: &AgreementRow) -> bool {
    match two(alloc) {
        Ok(configs) => match begun(alloc, configs, Programs::Off) {
            Ok(mut net) => row_holds(&mut net, row),
            Err(_) => false,
        },
        Err(_) => false,
    }
}

fn all_are_told(alloc: Global) -> bool {
    let mut all = true;
    for row in &ROWS {
        all &= is_told(alloc, row);
    }
    all
}

#[test]
fn servers_agree_before_they_are_linked(rt: HostRuntime) {
    assert!(rt; all_are_told(rt.alloc()));
}
