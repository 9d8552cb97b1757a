//! The servers that a server knows, and the numbers that stand for them.
use crate::script::{ScriptRow, ScriptStage, ShownText, append, append_word, script_holds, server};
use arrayvec::ArrayVec;
use irc_names::{MAX_SERVER, ServerName, is_server};
use irc_routes::{Info, Newcomer, Own, Routes, RoutesFault, ServerRow};
use itoa::Buffer;
use std::alloc::{AllocError, Global};
use std::process::Abort;

/// `add LINK UPLINK NAME NUMBER` adds a server that is so many links away and has that number on
/// its link, and `fill LINK COUNT` as many more; `lose LINK` loses those behind a link. `out` shows
/// our own number for a server, `in LINK NUMBER` the server of a number, `away` how far away a
/// server is, `via` the server that it is linked to on this side, `behind` the servers behind a
/// link, `told` those of which its neighbour is told, `all` all.
const SERVERS: &str = "\
add 1 a.net b.net 1 =
add 1 b.net c.net 2 =
out b.net = 2
out c.net = 3
in 1 2 = c.net
away c.net = 2
via c.net = b.net
via b.net = a.net
via a.net =
behind 1 = b.net c.net
add 1 a.net b.net 3 = known
add 1 a.net nodot 3 = no name
fill 2 253 =
add 3 a.net more.net 1 = full
lose 2 =
all = a.net b.net c.net
lose 1 =
all = a.net
add 1 a.net c.net 1 =
out c.net = 2
add 1 c.net b.net 2 =
add 2 a.net e.net 1 =
add 2 e.net d.net 3 =
told 3 = c.net e.net b.net d.net
told 1 = e.net d.net
told 2 = c.net b.net";

fn show_number(number: Option<u32>, shown: &mut ShownText) {
    if let Some(number) = number {
        append_word(shown, b"", Buffer::new().format(number).as_bytes());
    }
}

fn show_name(name: Option<&ServerName>, shown: &mut ShownText) {
    if let Some(name) = name {
        append_word(shown, b"", name.as_bytes());
    }
}

fn show_names(found: &Result<Vec<&ServerName, Global>, AllocError>, shown: &mut ShownText) {
    if let Ok(names) = found {
        for name in names.as_slice() {
            append_word(shown, b"", name.as_bytes());
        }
    }
}

fn show_rows(found: &Result<Vec<&ServerRow, Global>, AllocError>, shown: &mut ShownText) {
    if let Ok(rows) = found {
        for row in rows.as_slice() {
            append_word(shown, b"", row.name.as_bytes());
        }
    }
}

fn number_of(word: &str) -> u32 {
    word.parse::<u32>().unwrap_or(0)
}

/// Adds a server, where its number is free on its link.
fn add(
    rt: &impl Abort,
    routes: &mut Routes,
    link: u64,
    uplink: &str,
    name: &[u8],
    number: u32,
) -> Result<(), RoutesFault> {
    let info = Info::read(b"B").expect(rt, "a description");
    match routes.token_in(link, number) {
        Some(_) => Ok(()),
        None => routes.add_server(
            link,
            &Newcomer {
                uplink: &server(rt, uplink),
                name,
                distance: number,
                token: number,
                info: &info,
            },
        ),
    }
}

fn show_fault(added: Result<(), RoutesFault>, shown: &mut ShownText) {
    match added {
        Ok(()) => {}
        Err(RoutesFault::Known) => append(shown, b" known"),
        Err(RoutesFault::BadName) => append(shown, b" no name"),
        Err(RoutesFault::Full) => append(shown, b" full"),
        Err(RoutesFault::Memory) => append(shown, b" no memory"),
    }
}

/// Adds as many servers as a row says, which are numbered.
fn fill(rt: &impl Abort, routes: &mut Routes, link: u64, count: u32, shown: &mut ShownText) {
    for number in 0..count {
        let mut name: ArrayVec<u8, MAX_SERVER> = ArrayVec::new();
        let _ = name.try_extend_from_slice(b"s.");
        let _ = name.try_extend_from_slice(Buffer::new().format(number).as_bytes());
        show_fault(add(rt, routes, link, "a.net", &name, number), shown);
    }
}

/// Adds the server of a row.
fn add_one(
    rt: &impl Abort,
    routes: &mut Routes,
    link: u64,
    row: ScriptRow<'_>,
    shown: &mut ShownText,
) {
    let (name, number) = row.text.split_once(' ').unwrap_or(("", ""));
    let added = add(
        rt,
        routes,
        link,
        row.second,
        name.as_bytes(),
        number_of(number),
    );
    show_fault(added, shown);
}

/// Does what a row that changes something says.
fn change(rt: &impl Abort, routes: &mut Routes, row: ScriptRow<'_>, shown: &mut ShownText) {
    let link = u64::from(number_of(row.first));
    match row.verb {
        "add" => add_one(rt, routes, link, row, shown),
        "fill" => fill(rt, routes, link, number_of(row.second), shown),
        _ => routes.lose(link),
    }
}

/// Shows what a row asks of one server.
fn show_one(routes: &Routes, row: ScriptRow<'_>, shown: &mut ShownText) {
    let name = row.first.as_bytes();
    match row.verb {
        "out" => show_number(routes.token_out(name), shown),
        "away" => show_number(routes.distance(name), shown),
        _ => show_name(routes.uplink(name), shown),
    }
}

/// Shows the servers that a row asks for.
fn show_several(routes: &Routes, row: ScriptRow<'_>, shown: &mut ShownText) {
    let link = u64::from(number_of(row.first));
    match row.verb {
        "behind" => show_names(&routes.behind(link), shown),
        "told" => show_rows(&routes.told_on(link), shown),
        "in" => show_name(routes.token_in(link, number_of(row.second)), shown),
        _ => show_names(&routes.servers(), shown),
    }
}

impl ScriptStage for Routes {
    fn perform(
        &mut self,
        rt: &impl Abort,
        _alloc: Global,
        row: ScriptRow<'_>,
        shown: &mut ShownText,
    ) {
        match row.verb {
            "out" | "away" | "via" => show_one(self, row, shown),
            "behind" | "told" | "in" | "all" => show_several(self, row, shown),
            _ => change(rt, self, row, shown),
        }
    }
}

/// Whether the script holds of a.net, which knows no other server.
fn servers_hold(rt: &impl Abort, alloc: Global) -> bool {
    let own = Own {
        name: Vec::from_slice(alloc, b"a.net").expect(rt, "memory"),
        info: Vec::new(alloc),
        created: Vec::new(alloc),
    };
    assert!(rt; is_server(&own.name));
    let mut routes = Routes::new(own);
    script_holds(rt, alloc, &mut routes, SERVERS)
}

#[test]
fn servers_are_numbered_and_found(rt: HostRuntime) {
    assert!(rt; servers_hold(&rt, rt.alloc()));
}
