//! Bursts, line by line, and the other lines of servers (RFC 2813 sections 4 and 5.3.2).
use crate::stage::{Stage, StageTest, changes, channel, description, nick, server, test_holds};
use irc_burst_lines::{
    MEMBERS_A_LINE, NewMember, burst, kill_text, mode_text, njoin_text, server_text, squit_text,
    topic_text,
};
use irc_channels::{Flags, Words};
use irc_line::Text;
use irc_link_words::{greeting_text, pass_text};
use irc_routes::Routes;
use std::alloc::Global;
use std::process::Abort;

/// What a.net tells of al, who is alone in #m.
const ALONE: &str = "\
NICK al 1 u h 1 + :Al
:a.net NJOIN #m :@al
:a.net MODE #m +ntl 5
:a.net MODE #m +bbb a!*@* b!*@* c!*@*
:a.net MODE #m +b d!*@*
:a.net TOPIC #m :hello";

/// What it tells c.net besides, once b.net is linked and bo of b.net is in #m.
const BOTH: &str = "\
:a.net SERVER b.net 2 2 :B
NICK al 1 u h 1 + :Al
NICK bo 2 u h 2 + :Bo
:a.net NJOIN #m :@al,bo
:a.net MODE #m +ntl 5
:a.net MODE #m +bbb a!*@* b!*@* c!*@*
:a.net MODE #m +b d!*@*
:a.net TOPIC #m :hello";

/// The last four lines of a burst, where 31 users of a.net are in #c.
const LAST_FOUR: &str = "\
:a.net NJOIN #c :@n01,n02,n03,n04,n05,n06,n07,n08,n09,n10
:a.net NJOIN #c :n11,n12,n13,n14,n15,n16,n17,n18,n19,n20
:a.net NJOIN #c :n21,n22,n23,n24,n25,n26,n27,n28,n29,n30
:a.net NJOIN #c :n31";

/// A user of a channel, and whether it is an operator there and may speak.
type MemberRow = (&'static [u8], bool, bool);

/// What lines of servers name.
struct LineNames {
    password: &'static [u8],
    by: &'static [u8],
    other: &'static [u8],
    nick: &'static [u8],
    channel: &'static [u8],
    text: &'static [u8],
    info: &'static [u8],
    members: &'static [MemberRow],
    modes: &'static str,
}

const SHORT: LineNames = LineNames {
    password: b"pw",
    by: b"a.net",
    other: b"b.net",
    nick: b"al",
    channel: b"#c",
    text: b"a.net b.net",
    info: b"B",
    members: &[
        (b"al", true, false),
        (b"bo", false, true),
        (b"cy", true, true),
        (b"dee", false, false),
    ],
    modes: "",
};

/// A nickname and a server's name, each as long as one may be.
const LONG_NICK: &[u8] = b"nnnnnnnnnnnnnnnnnnnnnnnnnnnnnn";

const LONG_SERVER: &[u8] = b"sssssssssssssssssssssssssssssssssssssssssssssssssssssssssss.net";

/// A text that is as long as one may be.
const LONG_TEXT: &[u8] =
    b"wwwwwwwwwwwwwwwwwwwwwwwwwwwwwwwwwwwwwwwwwwwwwwwwwwwwwwwwwwwwwwwwwwwwwwwwwwwwwwwwwwwwwwwwwwww\
      wwwwwwwwwwwwwwwwwwwwwwwwwwwwwwwwwwwwwwwwwwwwwwwwwwwwwwwwwwwwwwwwwwww";

/// Everything is as long as it may be.
const LONG: LineNames = LineNames {
    password: b"pppppppppppppppppppp",
    by: LONG_SERVER,
    other: LONG_SERVER,
    nick: LONG_NICK,
    channel: b"#ccccccccccccccccccccccccccccccccccccccccccccccccc",
    text: LONG_TEXT,
    info: b"iiiiiiiiiiiiiiiiiiiiiiiiiiiiiiiiiiiiiiiiiiiiiiiiiiiiiiiiiiiiiii",
    members: &[(LONG_NICK, true, true); MEMBERS_A_LINE],
    modes: "+bbb \
        bbbbbbbbbbbbbbbbbbbbbbbbbbbbbbbbbbbbbbbbbbbbbbbbbbbbbbbbbbbbbbbbbbbbbbbbbbbbbbbbbbbbbb!*@* \
        bbbbbbbbbbbbbbbbbbbbbbbbbbbbbbbbbbbbbbbbbbbbbbbbbbbbbbbbbbbbbbbbbbbbbbbbbbbbbbbbbbbbbb!*@* \
        bbbbbbbbbbbbbbbbbbbbbbbbbbbbbbbbbbbbbbbbbbbbbbbbbbbbbbbbbbbbbbbbbbbbbbbbbbbbbbbbbbbbbb!*@*",
};

/// A line of servers. `Greeting` is the one by which a server names itself, `Server` that by which
/// it names another.
#[derive(Clone, Copy)]
enum LineKind {
    Pass,
    Greeting,
    Server,
    Squit,
    Kill,
    Njoin,
    Modes,
    Topic,
}

/// A line, how long it is with its CR LF, and how it ends.
type WrittenRow = (LineKind, usize, &'static [u8]);

/// Whole lines, where b.net is linked.
const WRITTEN: &[WrittenRow] = &[
    (LineKind::Pass, 26, b"PASS pw 0210010001 TREE|\r\n"),
    (LineKind::Greeting, 31, b"SERVER a.net 1 1 :Test server\r\n"),
    (LineKind::Server, 28, b":a.net SERVER b.net 2 2 :B\r\n"),
    (LineKind::Squit, 33, b":a.net SQUIT b.net :a.net b.net\r\n"),
    (LineKind::Kill, 32, b":a.net KILL al :Nick collision\r\n"),
    (
        LineKind::Njoin,
        35,
        b":a.net NJOIN #c :@al,+bo,@+cy,dee\r\n",
    ),
];

/// The longest line of each kind, where no other server is known: none is cut.
const LONGEST: &[WrittenRow] = &[
    (LineKind::Pass, 44, b" 0210010001 TREE|\r\n"),
    (
        LineKind::Server,
        206,
        b".net 1 0 :iiiiiiiiiiiiiiiiiiiiiiiiiiiiiiiiiiiiiiiiiiiiiiiiiiiiiiiiiiiiiii\r\n",
    ),
    (
        LineKind::Squit,
        298,
        b" :wwwwwwwwwwwwwwwwwwwwwwwwwwwwwwwwwwwwwwwwwwwwwwwwwwwwwwwwwwwwwwwwwwwwwwwwwwwwwwwwwwwwww\
          wwwwwwwwwwwwwwwwwwwwwwwwwwwwwwwwwwwwwwwwwwwwwwwwwwwwwwwwwwwwwwwwwwwwwwwwww\r\n",
    ),
    (
        LineKind::Kill,
        118,
        b" nnnnnnnnnnnnnnnnnnnnnnnnnnnnnn :Nick collision\r\n",
    ),
    (
        LineKind::Njoin,
        454,
        b",@+nnnnnnnnnnnnnnnnnnnnnnnnnnnnnn,@+nnnnnnnnnnnnnnnnnnnnnnnnnnnnnn\r\n",
    ),
    (
        LineKind::Modes,
        400,
        b" +bbb bbbbbbbbbbbbbbbbbbbbbbbbbbbbbbbbbbbbbbbbbbbbbbbbbbbbbbbbbbbbbbbbbbbbbbbbbbbbbbbbbb\
          bbbb!*@* bbbbbbbbbbbbbbbbbbbbbbbbbbbbbbbbbbbbbbbbbbbbbbbbbbbbbbbbbbbbbbbbbbbbbbbbbbbbbbb\
          bbbbbbb!*@* bbbbbbbbbbbbbbbbbbbbbbbbbbbbbbbbbbbbbbbbbbbbbbbbbbbbbbbbbbbbbbbbbbbbbbbbbbbb\
          bbbbbbbbbb!*@*\r\n",
    ),
    (
        LineKind::Topic,
        285,
        b" :wwwwwwwwwwwwwwwwwwwwwwwwwwwwwwwwwwwwwwwwwwwwwwwwwwwwwwwwwwwwwwwwwwwwwwwwwwwwwwwwwwwwww\
          wwwwwwwwwwwwwwwwwwwwwwwwwwwwwwwwwwwwwwwwwwwwwwwwwwwwwwwwwwwwwwwwwwwwwwwwww\r\n",
    ),
];

fn is_line(line: Option<&Text>, wanted: &str) -> bool {
    match line {
        Some(line) => line.strip_suffix(b"\r\n").unwrap_or(b"no line") == wanted.as_bytes(),
        None => false,
    }
}

/// Whether lines are these, from one of them on.
fn are_from(lines: &[Text], first: usize, wanted: &str) -> bool {
    let mut place = first;
    let mut all = true;
    for line in wanted.lines() {
        all &= is_line(lines.get(place), line);
        place = place.saturating_add(1);
    }
    all && place == lines.len()
}

/// The link of a neighbour, and the lines that it is told, but for so many that stand before them.
struct Burst {
    link: u64,
    first: usize,
    lines: &'static str,
}

/// al is alone in #m.
const AL: &str = "\
comes al a.net Al
makes al #m
sets #m +ntl 5
sets #m +bbb c!*@* b!*@* d!*@*
sets #m +b a!*@*
topic #m hello";

/// b.net is linked, and bo of b.net is there too.
const AL_AND_BO: &str = "\
links
comes al a.net Al
makes al #m
sets #m +ntl 5
sets #m +bbb c!*@* b!*@* d!*@*
sets #m +b a!*@*
topic #m hello
comes bo b.net Bo
joins bo #m";

/// bo is in a channel of its own besides.
const BO_BEHIND: &str = "\
links
comes al a.net Al
makes al #m
sets #m +ntl 5
sets #m +bbb c!*@* b!*@* d!*@*
sets #m +b a!*@*
topic #m hello
comes bo b.net Bo
joins bo #m
makes bo #own";

/// 31 users of a.net.
const CROWD: &str = "\
comes n01 a.net N
makes n01 #c
comes n02 a.net N
joins n02 #c
comes n03 a.net N
joins n03 #c
comes n04 a.net N
joins n04 #c
comes n05 a.net N
joins n05 #c
comes n06 a.net N
joins n06 #c
comes n07 a.net N
joins n07 #c
comes n08 a.net N
joins n08 #c
comes n09 a.net N
joins n09 #c
comes n10 a.net N
joins n10 #c
comes n11 a.net N
joins n11 #c
comes n12 a.net N
joins n12 #c
comes n13 a.net N
joins n13 #c
comes n14 a.net N
joins n14 #c
comes n15 a.net N
joins n15 #c
comes n16 a.net N
joins n16 #c
comes n17 a.net N
joins n17 #c
comes n18 a.net N
joins n18 #c
comes n19 a.net N
joins n19 #c
comes n20 a.net N
joins n20 #c
comes n21 a.net N
joins n21 #c
comes n22 a.net N
joins n22 #c
comes n23 a.net N
joins n23 #c
comes n24 a.net N
joins n24 #c
comes n25 a.net N
joins n25 #c
comes n26 a.net N
joins n26 #c
comes n27 a.net N
joins n27 #c
comes n28 a.net N
joins n28 #c
comes n29 a.net N
joins n29 #c
comes n30 a.net N
joins n30 #c
comes n31 a.net N
joins n31 #c";

static ALONE_TOLD: Burst = Burst {
    link: 1,
    first: 0,
    lines: ALONE,
};

static BOTH_TOLD: Burst = Burst {
    link: 2,
    first: 0,
    lines: BOTH,
};

static CROWD_TOLD: Burst = Burst {
    link: 1,
    first: 31,
    lines: LAST_FOUR,
};

/// Whether a neighbour is told just these lines.
impl StageTest for Burst {
    fn holds(&self, _rt: &impl Abort, _alloc: Global, stage: &mut Stage) -> bool {
        match &burst(&stage.room, &stage.routes, self.link) {
            Ok(lines) => are_from(lines, self.first, self.lines),
            Err(_) => false,
        }
    }
}

#[test]
fn one_side_is_told_in_six_lines_and_not_what_is_behind_the_link(rt: HostRuntime) {
    assert!(rt; test_holds(&rt, rt.alloc(), AL, &ALONE_TOLD));
    assert!(rt; test_holds(&rt, rt.alloc(), BO_BEHIND, &ALONE_TOLD));
}

#[test]
fn another_neighbour_is_told_of_all(rt: HostRuntime) {
    assert!(rt; test_holds(&rt, rt.alloc(), AL_AND_BO, &BOTH_TOLD));
}

#[test]
fn thirty_one_members_are_told_in_four_lines(rt: HostRuntime) {
    assert!(rt; test_holds(&rt, rt.alloc(), CROWD, &CROWD_TOLD));
}

/// The members of a line.
fn members(rt: &impl Abort, alloc: Global, rows: &[MemberRow]) -> Vec<NewMember, Global> {
    let mut members = Vec::new(alloc);
    for (name, op, voice) in rows {
        let _ = members.push(NewMember {
            nick: nick(rt, name),
            flags: Flags {
                op: *op,
                voice: *voice,
            },
        });
    }
    members
}

/// The line of a kind with these names.
fn line_of(
    rt: &impl Abort,
    alloc: Global,
    routes: &Routes,
    kind: LineKind,
    names: &LineNames,
) -> Text {
    let by = server(rt, names.by);
    let to = channel(rt, names.channel);
    let text = Words::cut(names.text);
    match kind {
        LineKind::Pass => pass_text(names.password),
        LineKind::Greeting => greeting_text(routes),
        LineKind::Server => {
            let other = server(rt, names.other);
            server_text(routes, &by, &other, &description(rt, names.info))
        }
        LineKind::Squit => squit_text(&by, &server(rt, names.other), &text),
        LineKind::Kill => kill_text(&by, &nick(rt, names.nick)),
        LineKind::Njoin => njoin_text(&by, &to, &members(rt, alloc, names.members)),
        LineKind::Modes => mode_text(by.as_bytes(), &to, changes(alloc, names.modes).as_slice()),
        LineKind::Topic => topic_text(&by, &to, &text),
    }
}

/// Whether a line is written as its row says.
fn is_written(
    rt: &impl Abort,
    alloc: Global,
    routes: &Routes,
    names: &LineNames,
    row: &WrittenRow,
) -> bool {
    let line = line_of(rt, alloc, routes, row.0, names);
    line.len() == row.1 && line.ends_with(row.2)
}

/// Lines with some names, each with what its row says of it.
struct WrittenLines {
    names: LineNames,
    rows: &'static [WrittenRow],
}

impl StageTest for WrittenLines {
    fn holds(&self, rt: &impl Abort, alloc: Global, stage: &mut Stage) -> bool {
        let mut all = true;
        for row in self.rows {
            all &= is_written(rt, alloc, &stage.routes, &self.names, row);
        }
        all
    }
}

static SHORT_LINES: WrittenLines = WrittenLines {
    names: SHORT,
    rows: WRITTEN,
};

static LONG_LINES: WrittenLines = WrittenLines {
    names: LONG,
    rows: LONGEST,
};

#[test]
fn lines_of_servers_are_written_whole(rt: HostRuntime) {
    assert!(rt; test_holds(&rt, rt.alloc(), "links", &SHORT_LINES));
    assert!(rt; test_holds(&rt, rt.alloc(), "", &LONG_LINES));
}
