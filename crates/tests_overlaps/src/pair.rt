//! Two servers, a.net and b.net, each in its layer, and what is on its way between them, as texts
//! say it line by line. al is client 1 of a.net, bo client 1 of b.net, and both are in #c.
//!
//! - `a LINE`, `b LINE` is a line of the client of a.net, or of b.net.
//! - `to-a`, `to-b` delivers all lines that are on their way there; `rest` all, until none is.
//! - `cut` is the loss of the link, with what is on its way, and `link` a new one, by which a.net
//!   calls.
//! - `al LINE`, `bo LINE` is the next line that this client has received; `forget` leaves those
//!   aside that both have received so far.
//! - `topic TEXT` is the topic of #c at both; `topic-a TEXT`, `topic-b TEXT` at one of them.
//!
//! In the end nothing is on its way, neither has closed the link, and both clients have received no
//! more lines.
use irc_batch::{Batch, Out};
use irc_engine::Machine;
use irc_layer::Layer;
use irc_line::Line;
use irc_names::{Host, ServerName};
use irc_routes::{Own, Programs};
use irc_server::{Config, Event, Peer, Server};
use std::alloc::Global;
use std::collections::VecDeque;
use std::process::Abort;

/// A server in its layer: the lines that are on their way to it, and those that its client has
/// received, oldest first.
#[derive(Drop)]
struct Side {
    layer: Layer,
    coming: VecDeque<Line, Global>,
    received: VecDeque<Line, Global>,
    has_closed: bool,
}

/// The number of the link, and that of the client, at both.
const LINK: u64 = 7;

const CONN: u64 = 1;

fn bytes(rt: &impl Abort, alloc: Global, text: &[u8]) -> Vec<u8, Global> {
    Vec::from_slice(alloc, text).expect(rt, "memory")
}

fn peers(rt: &impl Abort, alloc: Global, name: &[u8]) -> Vec<Peer, Global> {
    let peer = Peer {
        name: bytes(rt, alloc, name),
        password: bytes(rt, alloc, b"pw"),
    };
    let mut peers = Vec::new(alloc);
    let _ = peers.push(peer);
    peers
}

fn server(rt: &impl Abort, alloc: Global, name: &[u8], peer: &[u8]) -> Server {
    let own = Own {
        name: bytes(rt, alloc, name),
        info: bytes(rt, alloc, b"Server"),
        created: bytes(rt, alloc, b"2024-01-01"),
    };
    let config = Config {
        own,
        peers: peers(rt, alloc, peer),
    };
    Server::serving(alloc, config, Programs::Off).expect(rt, "a server")
}

fn new_side(rt: &impl Abort, alloc: Global, name: &[u8], peer: &[u8]) -> Side {
    Side {
        layer: Layer::new(alloc, server(rt, alloc, name, peer), Vec::new(alloc)),
        coming: VecDeque::new(alloc),
        received: VecDeque::new(alloc),
        has_closed: false,
    }
}

/// The line of this text, without its line end.
fn line_of(text: &[u8]) -> Line {
    let mut line = Line::new();
    let _ = line.try_extend_from_slice(text.strip_suffix(b"\r\n").unwrap_or(text));
    line
}

/// One thing that is put out goes its way.
fn go(put: Out<'_>, here: &mut Side, there: &mut Side) {
    match put {
        Out::Line(_, line) => {
            let _ = here.received.push_back(line_of(line));
        }
        Out::LinkLine(_, line) => {
            let _ = there.coming.push_back(line_of(line));
        }
        Out::Close(_) | Out::LinkClose(_, _) => here.has_closed = true,
    }
}

/// Whether a server takes an event; what it puts out goes its way.
fn takes(here: &mut Side, there: &mut Side, event: &Event, out: &mut Batch) -> bool {
    out.clear();
    let taken = here.layer.handle(event, out).is_ok();
    for place in 0..out.len() {
        if let Some(put) = out.get(place) {
            go(put, here, there);
        }
    }
    taken
}

fn says(here: &mut Side, there: &mut Side, text: &str, out: &mut Batch) -> bool {
    takes(
        here,
        there,
        &Event::Line(CONN, line_of(text.as_bytes())),
        out,
    )
}

/// Whether a line is on its way, and is taken.
fn delivers(here: &mut Side, there: &mut Side, out: &mut Batch) -> bool {
    match here.coming.pop_front() {
        Some(line) => takes(here, there, &Event::LinkLine(LINK, line), out),
        None => false,
    }
}

/// All lines that are on their way to a server are delivered; whether it takes each.
fn delivers_all(here: &mut Side, there: &mut Side, out: &mut Batch) -> bool {
    let mut all = true;
    for _ in 0..here.coming.len() {
        all &= delivers(here, there, out);
    }
    all
}

/// Lines are delivered until none is on its way; whether that is so.
fn rests(near: &mut Side, far: &mut Side, out: &mut Batch) -> bool {
    for _ in 0..1000 {
        let _ = delivers(near, far, out);
        let _ = delivers(far, near, out);
    }
    near.coming.is_empty() && far.coming.is_empty()
}

fn is_line(line: Option<&Line>, text: &str) -> bool {
    match line {
        Some(line) => line.as_slice() == text.as_bytes(),
        None => false,
    }
}

/// Whether the next line that a client has received is this one.
fn receives(side: &mut Side, text: &str) -> bool {
    is_line(side.received.pop_front().as_ref(), text)
}

fn has_topic(side: &Side, text: &str) -> bool {
    let Some(room) = side.layer.server().room() else {
        return false;
    };
    match room.channel(b"#c") {
        Some(channel) => channel.topic.as_bytes() == text.as_bytes(),
        None => false,
    }
}

fn client_comes(here: &mut Side, there: &mut Side, lines: &str, out: &mut Batch) -> bool {
    let Some(host) = Host::read(b"h") else {
        return false;
    };
    let mut all = takes(here, there, &Event::Connect(CONN, host), out);
    for line in lines.lines() {
        all &= says(here, there, line, out);
    }
    all
}

/// Whether a link begins, by which a.net calls.
fn links(near: &mut Side, far: &mut Side, out: &mut Batch) -> bool {
    let called = ServerName::read(b"b.net");
    takes(near, far, &Event::LinkUp(LINK, called), out)
        && takes(far, near, &Event::LinkUp(LINK, None), out)
}

/// Whether the link is lost at both ends.
fn cuts(near: &mut Side, far: &mut Side, out: &mut Batch) -> bool {
    let both = takes(near, far, &Event::LinkDown(LINK), out)
        && takes(far, near, &Event::LinkDown(LINK), out);
    near.coming.clear();
    far.coming.clear();
    both
}

fn begins(near: &mut Side, far: &mut Side, out: &mut Batch) -> bool {
    client_comes(near, far, "NICK al\nUSER u 0 * :Al\nJOIN #c", out)
        && client_comes(far, near, "NICK bo\nUSER u 0 * :Bo\nJOIN #c", out)
        && links(near, far, out)
        && rests(near, far, out)
}

fn forgets(near: &mut Side, far: &mut Side) -> bool {
    near.received.clear();
    far.received.clear();
    true
}

/// Whether what a line says is so.
fn line_holds(near: &mut Side, far: &mut Side, line: &str, out: &mut Batch) -> bool {
    let (verb, words) = line.split_once(' ').unwrap_or((line, ""));
    match verb {
        "" => true,
        "a" => says(near, far, words, out),
        "b" => says(far, near, words, out),
        "to-a" => delivers_all(near, far, out),
        "to-b" => delivers_all(far, near, out),
        "rest" => rests(near, far, out),
        "cut" => cuts(near, far, out),
        "link" => links(near, far, out),
        "forget" => forgets(near, far),
        "al" => receives(near, words),
        "bo" => receives(far, words),
        "topic-a" => has_topic(near, words),
        "topic-b" => has_topic(far, words),
        "topic" => has_topic(near, words) && has_topic(far, words),
        _ => false,
    }
}

fn ends_so(side: &Side) -> bool {
    side.coming.is_empty() && side.received.is_empty() && !side.has_closed
}

fn lines_hold(near: &mut Side, far: &mut Side, lines: &str, out: &mut Batch) -> bool {
    let mut all = begins(near, far, out) && forgets(near, far);
    for line in lines.lines() {
        all &= line_holds(near, far, line, out);
    }
    all && ends_so(near) && ends_so(far)
}

/// Whether what each line of a text says is so.
pub fn text_holds(rt: &impl Abort, alloc: Global, lines: &str) -> bool {
    let mut near = new_side(rt, alloc, b"a.net", b"b.net");
    let mut far = new_side(rt, alloc, b"b.net", b"a.net");
    lines_hold(&mut near, &mut far, lines, &mut Batch::new(alloc))
}
