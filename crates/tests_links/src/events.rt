//! What happens to a server a.net, and what it puts out then, as texts say it line by line.
//!
//! A line is a verb and its words. Lines that begin with `#` are remarks, and a `%` parts the rows
//! of a table: each begins with a new server, and the scene of the table.
//!
//! - `connects 1` is a client from the host h, `says 1 LINE` a line of it, and `leaves 1` its end.
//! - `called 7` is a link that another server opens, `calls 7 SERVER` one to the server of this
//!   name, `hears 7 LINE` a line that comes by it, `loses 7` its loss. `reads 7 LINE~BYTES` is a
//!   line that comes, and bytes behind its CR LF that are not the whole of another.
//! - `fills 256` are lines by the link 8, in which c.net tells of servers behind it, one for each
//!   number from 2 up to this.
//! - `refuses FAULT STEP` is a step that the server refuses for this, putting nothing out.
//! - `invited NICK CHANNEL` and `uninvited NICK CHANNEL` say whether a user is invited.
//! - `to 1 LINE` and `on 7 LINE` are a line to a client and one on a link, `ends 1` and
//!   `closes 7 REASON` the ends of these: what is put out, in order, and nothing else is.
use crate::deed_shown::close_word;
use crate::shown::{ShownText, append, append_word, first_word};
use crate::stage::bytes;
use irc_batch::{Batch, Out};
use irc_line::{Line, lines_of_pieces};
use irc_names::{Host, ServerName};
use irc_routes::{Own, Programs};
use irc_server::{Config, Event, Peer, Server, ServerFault};
use itoa::Buffer;
use std::alloc::Global;
use std::process::Abort;

/// Of what server a table is, what happens before each of its rows, and what comes behind it.
#[derive(Drop)]
pub struct ServerScene {
    /// Whether its clients have what programs expect; none where links do not tell who is away.
    pub programs: Option<Programs>,
    pub before: &'static str,
    pub then: &'static str,
    pub behind: &'static str,
}

/// The peers of a.net, and the passwords that they give.
static PEERS: [(&[u8], &[u8]); 3] = [(b"b.net", b"pw"), (b"c.net", b"pq"), (b"d.net", b"pd")];

fn peer(rt: &impl Abort, alloc: Global, name: &[u8], password: &[u8]) -> Peer {
    Peer {
        name: bytes(rt, alloc, name),
        password: bytes(rt, alloc, password),
    }
}

fn peers(rt: &impl Abort, alloc: Global) -> Vec<Peer, Global> {
    let mut peers = Vec::new(alloc);
    for (name, password) in &PEERS {
        let _ = peers.push(peer(rt, alloc, name, password));
    }
    peers
}

fn own(rt: &impl Abort, alloc: Global) -> Own {
    Own {
        name: bytes(rt, alloc, b"a.net"),
        info: bytes(rt, alloc, b"A"),
        created: bytes(rt, alloc, b"2024-01-01"),
    }
}

/// a.net, which describes itself as A.
fn server(rt: &impl Abort, alloc: Global, programs: Option<Programs>) -> Server {
    let config = Config {
        own: own(rt, alloc),
        peers: peers(rt, alloc),
    };
    match programs {
        Some(programs) => Server::serving(alloc, config, programs).expect(rt, "a server"),
        None => Server::new(alloc, config).expect(rt, "a server"),
    }
}

fn number_of(word: &str) -> u64 {
    word.parse::<u64>().unwrap_or(0)
}

/// The line of this text.
fn line_of(text: &[u8]) -> Line {
    let mut line = Line::new();
    let _ = line.try_extend_from_slice(text);
    line
}

/// Whether a server takes an event.
fn takes(server: &mut Server, event: &Event, out: &mut Batch) -> bool {
    server.handle(event, out).is_ok()
}

fn hears(server: &mut Server, link: u64, line: Line, out: &mut Batch) -> bool {
    takes(server, &Event::LinkLine(link, line), out)
}

/// A line with its CR LF, and what comes behind it.
fn stream_of(text: &str) -> Line {
    let (line, rest) = text.split_once('~').unwrap_or((text, ""));
    let mut stream = line_of(line.as_bytes());
    let _ = stream.try_extend_from_slice(b"\r\n");
    let _ = stream.try_extend_from_slice(rest.as_bytes());
    stream
}

/// Whether a server takes each line that bytes of a link complete.
fn reads(alloc: Global, server: &mut Server, words: &str, out: &mut Batch) -> bool {
    let (link, text) = first_word(words);
    let stream = stream_of(text);
    let Ok(lines) = lines_of_pieces(alloc, &[stream.as_slice()]) else {
        return false;
    };
    let mut all = true;
    for line in lines {
        all &= hears(server, number_of(link), line, out);
    }
    all
}

/// The line by which c.net tells of a server behind it, another one for each number.
fn server_line(number: u64) -> Line {
    let mut digits = Buffer::new();
    let word = digits.format(number).as_bytes();
    let mut line = line_of(b":c.net SERVER n");
    let _ = line.try_extend_from_slice(word);
    let _ = line.try_extend_from_slice(b".net 2 ");
    let _ = line.try_extend_from_slice(word);
    let _ = line.try_extend_from_slice(b" :N");
    line
}

/// Whether a server takes servers behind c.net, one for each number from 2 up to this.
fn fills(server: &mut Server, end: u64, out: &mut Batch) -> bool {
    let mut all = true;
    for number in 2..end {
        all &= hears(server, 8, server_line(number), out);
    }
    all
}

/// The event of a step.
fn event_of(step: &str) -> Option<Event> {
    let (verb, words) = first_word(step);
    let (number, text) = first_word(words);
    let (number, text) = (number_of(number), text.as_bytes());
    match verb {
        "connects" => Some(Event::Connect(number, Host::read(b"h")?)),
        "says" => Some(Event::Line(number, line_of(text))),
        "leaves" => Some(Event::Gone(number)),
        "called" => Some(Event::LinkUp(number, None)),
        "calls" => Some(Event::LinkUp(number, ServerName::read(text))),
        "hears" => Some(Event::LinkLine(number, line_of(text))),
        "loses" => Some(Event::LinkDown(number)),
        _ => None,
    }
}

/// Whether a server takes the event of a step.
fn takes_event(server: &mut Server, step: &str, out: &mut Batch) -> bool {
    match &event_of(step) {
        Some(event) => takes(server, event, out),
        None => false,
    }
}

/// The word for why an event is refused; nothing where it is not.
fn fault_word(handled: Result<(), ServerFault>) -> &'static str {
    match handled {
        Ok(()) => "",
        Err(ServerFault::Memory) => "memory",
        Err(ServerFault::Failed) => "failed",
        Err(ServerFault::NoSuchConnection) => "no-connection",
        Err(ServerFault::ConnectionThere) => "there",
        Err(ServerFault::NoSuchLink) => "no-link",
        Err(ServerFault::LinkThere) => "link-there",
    }
}

/// Whether a server refuses a step for this, and puts nothing out.
fn refuses(server: &mut Server, words: &str, out: &mut Batch) -> bool {
    let (fault, step) = first_word(words);
    let before = out.len();
    match &event_of(step) {
        Some(event) => fault_word(server.handle(event, out)) == fault && out.len() == before,
        None => false,
    }
}

/// Whether a user is invited to a channel, as far as the server knows.
fn is_invited(server: &Server, words: &str) -> bool {
    let (nick, channel) = first_word(words);
    match server.room() {
        Some(room) => room.invited(nick.as_bytes(), channel.as_bytes()),
        None => false,
    }
}

/// Whether a server takes a step.
fn takes_step(alloc: Global, server: &mut Server, step: &str, out: &mut Batch) -> bool {
    let (verb, words) = first_word(step);
    match verb {
        "reads" => reads(alloc, server, words, out),
        "fills" => fills(server, number_of(words), out),
        "refuses" => refuses(server, words, out),
        "invited" => is_invited(server, words),
        "uninvited" => !is_invited(server, words),
        _ => takes_event(server, step, out),
    }
}

fn show_end(verb: &[u8], number: u64, shown: &mut ShownText) {
    append(shown, verb);
    append_word(shown, Buffer::new().format(number).as_bytes());
}

fn show_line(verb: &[u8], number: u64, line: &[u8], shown: &mut ShownText) {
    show_end(verb, number, shown);
    append_word(shown, line.strip_suffix(b"\r\n").unwrap_or(b"no line"));
}

/// Shows one thing that is put out, as a text says it.
fn show_put(put: Out<'_>, shown: &mut ShownText) {
    match put {
        Out::Line(conn, line) => show_line(b"to", conn, line, shown),
        Out::Close(conn) => show_end(b"ends", conn, shown),
        Out::LinkLine(link, line) => show_line(b"on", link, line, shown),
        Out::LinkClose(link, reason) => {
            show_end(b"closes", link, shown);
            append_word(shown, close_word(reason));
        }
    }
}

/// Whether what is put out at this place is what a line says.
fn is_put(out: &Batch, place: usize, line: &str) -> bool {
    let mut shown = ShownText::new();
    if let Some(put) = out.get(place) {
        show_put(put, &mut shown);
    }
    shown.as_slice() == line.as_bytes()
}

/// Whether a server does what a line says; the next thing that is put out is at this place.
fn line_holds(
    alloc: Global,
    server: &mut Server,
    line: &str,
    out: &mut Batch,
    place: &mut usize,
) -> bool {
    match first_word(line).0 {
        "" | "#" => true,
        "to" | "on" | "ends" | "closes" => {
            let at = *place;
            *place = at.saturating_add(1);
            is_put(out, at, line)
        }
        _ => takes_step(alloc, server, line, out),
    }
}

/// Whether a server does what each line says.
fn lines_hold(
    alloc: Global,
    server: &mut Server,
    lines: &str,
    out: &mut Batch,
    place: &mut usize,
) -> bool {
    let mut all = true;
    for line in lines.lines() {
        all &= line_holds(alloc, server, line, out, place);
    }
    all
}

/// Whether a row holds behind a scene, what is put out for this left aside.
fn holds_behind(
    alloc: Global,
    server: &mut Server,
    scene: &ServerScene,
    row: &str,
    out: &mut Batch,
) -> bool {
    let mut place = 0;
    let stands = lines_hold(alloc, server, scene.before, out, &mut place)
        && lines_hold(alloc, server, scene.then, out, &mut place);
    out.clear();
    stands
        && lines_hold(alloc, server, row, out, &mut place)
        && lines_hold(alloc, server, scene.behind, out, &mut place)
        && out.len() == place
}

fn holds_of_new(
    rt: &impl Abort,
    alloc: Global,
    scene: &ServerScene,
    row: &str,
    out: &mut Batch,
) -> bool {
    let mut server = server(rt, alloc, scene.programs);
    holds_behind(alloc, &mut server, scene, row, out)
}

fn row_holds(rt: &impl Abort, alloc: Global, scene: &ServerScene, row: &str) -> bool {
    let mut out = Batch::new(alloc);
    holds_of_new(rt, alloc, scene, row, &mut out)
}

/// Whether each row of a table holds with its scene.
pub fn table_holds(rt: &impl Abort, alloc: Global, scene: &ServerScene, rows: &str) -> bool {
    let mut all = true;
    for row in rows.split('%') {
        all &= row_holds(rt, alloc, scene, row);
    }
    all
}

/// Whether each row of a table holds behind what happens before.
pub fn rows_hold(rt: &impl Abort, alloc: Global, before: &'static str, rows: &str) -> bool {
    let scene = ServerScene {
        programs: None,
        before,
        then: "",
        behind: "",
    };
    table_holds(rt, alloc, &scene, rows)
}

/// The same of a server whose links tell who is away.
pub fn rows_hold_serving(
    rt: &impl Abort,
    alloc: Global,
    programs: Programs,
    before: &'static str,
    rows: &str,
) -> bool {
    let scene = ServerScene {
        programs: Some(programs),
        before,
        then: "",
        behind: "",
    };
    table_holds(rt, alloc, &scene, rows)
}
