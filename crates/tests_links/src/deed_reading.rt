//! Lines of servers, each with what it tells, or why it closes the link (RFC 2813 section 4, RFC
//! 2812 section 3.7.1).
use crate::deed_shown::reason_word;
use crate::shown::{ShownText, append_word, sides};
use crate::stage::{Stage, StageTest, test_holds};
use irc_burst::{Deed, ModeSetting, NewMember, NewMembers, read_burst_line};
use irc_line::limits::MAX_LINE;
use irc_line::{Line, parse};
use irc_modes::ModeChange;
use irc_names::ServerName;
use itoa::Buffer;
use std::alloc::Global;
use std::process::Abort;

/// Each row: a line by the link to b.net, and what a.net reads of it behind ` =>`.
/// bo is a user of b.net, who is in #o, al one of a.net, who is in #d; both are in #m.
const ROWS: &str = "\
:b.net SERVER c.net 2 2 :C => server b.net c.net 2 2 C
:b.net SERVER c.net 3 2 :C => parameters
:b.net SERVER c.net 2 2 C x => parameters
:b.net SERVER c.net 2 02 :C => parameters
:b.net SERVER c.net 2 2 => parameters
:b.net SERVER c.net 2 1 :C => token
:z.net SERVER c.net 2 2 :C => direction
:b.net SERVER c 2 2 :C => name
:b SERVER c.net 2 2 :C => name
:b.net SERVER a.net 2 2 :A => known
:b.net SERVER b.net 2 2 :B => known
SERVER c.net 1 1 :C => order
PASS pw 0210010001 TREE| => order
PASS pw 0210010001 TREE => parameters
:b.net SQUIT b.net :a.net b.net => lost b.net b.net a.net b.net
:b.net SQUIT b.net => parameters
:b.net SQUIT b.net x y => parameters
:b.net SQUIT a.net :x => direction
:b.net SQUIT c.net :x => name
:b.net KILL AL :Nick collision => kill b.net al
:b.net KILL zz :Nick collision =>
:b.net KILL al :other => parameters
:b.net KILL al => parameters
:b.net KILL 9d :Nick collision => name
:al KILL bo :Nick collision => direction
:b.net NJOIN #c :@BO,+al,zz => members b.net #c @ bo
:b.net NJOIN #c :+bo => members b.net #c + bo
:b.net NJOIN #c :@+bo,bo => members b.net #c @+ bo
:b.net NJOIN #c :bo,bo,bo,bo,bo,bo,bo,bo,bo,bo => members b.net #c . bo
:b.net NJOIN #c :bo,bo,bo,bo,bo,bo,bo,bo,bo,bo,bo => parameters
:b.net NJOIN #o :@bo =>
:b.net NJOIN #c => parameters
:b.net NJOIN #c bo bo => parameters
:b.net NJOIN c :bo => name
NJOIN #c :bo => parameters
:b.net NJOIN #c :bo, => name
NICK al 1 u h 1 + :Al => kill a.net al
:bo NICK al => kill a.net al kill a.net bo
:b.net TOPIC #d :x =>
:b.net TOPIC #o :hello => topic b.net #o hello
:b.net TOPIC #M :hello => topic b.net #M hello
:b.net TOPIC #none :x =>
:b.net MODE #d +ntl 5 =>
:b.net MODE #o +ntl 5 => modes b.net #o n t l 5
:b.net MODE #M +ntl 5 => modes b.net #M n t l 5
:b.net MODE #none +n =>
:b.net FOO #d => unknown";

/// Too few words and too many, wrong numbers, names out of rule; the same users.
const WORDS: &str = "\
:bo QUIT => parameters
:bo QUIT x y => parameters
:bo JOIN => parameters
:bo PART #o => parameters
:bo PART #o x y => parameters
:bo PART o :x => name
:bo KICK #o bo => parameters
:bo KICK #o bo x y => parameters
:bo KICK o bo :x => name
:bo KICK #o 9d :x => name
:bo MODE => parameters
:bo MODE bo => parameters
:bo MODE bo +i x => parameters
:bo MODE 9d +i => name
:bo TOPIC #o => parameters
:bo TOPIC #o x y => parameters
:bo TOPIC o :x => name
:bo PRIVMSG al => parameters
:bo PRIVMSG al x y => parameters
:bo PRIVMSG 9d :x => name
:bo NOTICE al => parameters
:bo NOTICE #a:b :x => name
:bo INVITE al => parameters
:bo INVITE al #o x => parameters
:bo INVITE 9d #o => name
:bo INVITE al o => name
NICK dd 1 u h 1 + => parameters
NICK dd 1 u h 1 + D x => parameters
:bo NICK => parameters
:bo NICK a b => parameters
NICK dd 0 u h 1 + :D => parameters
NICK dd 1 u h 0 + :D => parameters
NICK dd 1 u h 4294967296 + :D => parameters
NICK dd 1 u :h 1 + D => parameters
NICK dd 1 u _ 1 + :D => name
:b.net SERVER c.net 0 2 :C => parameters
:b.net SERVER c.net x 2 :C => parameters
:b.net SERVER c.net 2 0 :C => parameters
:b.net SERVER c.net 2 4294967296 :C => parameters
:b.net SERVER c.net 2 4294967295 :C => server b.net c.net 2 4294967295 C
:z.net SERVER c.net 4294967295 2 :C => parameters
:z.net SERVER c.net 4294967294 2 :C => direction";

/// Each command in small letters, and words that are none; the same users.
const SMALL: &str = "\
nick dd 1 u h 1 + :Dd => does
:bo nick dd => does
:bo nick BO => does
:bo quit :x => does
:bo join #n => does
:bo part #o :x => does
:bo kick #m al :x => does
:bo mode #o +t => does
:bo topic #o :x => does
:bo privmsg al :x => does
:bo notice al :x => does
:bo invite al #o => does
:b.net mode #o +n => modes b.net #o n
:b.net topic #o :x => topic b.net #o x
:b.net server c.net 2 2 :C => server b.net c.net 2 2 C
:b.net squit b.net :x => lost b.net b.net x
:b.net kill al :Nick collision => kill b.net al
:b.net njoin #c :bo => members b.net #c . bo
pass pw 0210010001 TREE| => order
:zz quit :x =>
:al quit :x => direction
quit :x => parameters
:bo qui :x => unknown
:bo quits :x => unknown";

/// Lines of 510 bytes: what they begin with, the rest is `x`.
const FILLED: &str = "\
FOO  => unknown
PASS pw 0210010001 TREE| => parameters
SERVER c.net 1 1 : => parameters
:b.net SERVER c.net 2 2 : => parameters
:b.net SERVER  => parameters
:b.net SQUIT b.net : => parameters
:b.net KILL al :Nick collision => parameters
:b.net NJOIN #c : => name
:b.net MODE #o +b  => parameters
:b.net TOPIC #o : => parameters
NICK dd 1 u h 1 + : => parameters
:bo NICK  => name
:bo QUIT : => parameters
:bo JOIN # => name
:bo PART #o : => parameters
:bo KICK #o bo : => parameters
:bo MODE bo +i => parameters
:bo PRIVMSG #o : => does
:bo NOTICE al : => does
:bo INVITE al # => name";

/// What is read where 256 servers are known.
const CROWDED: &str = "\
:b.net SERVER c.net 2 300 :C => full
:b.net SERVER b.net 2 300 :B => known
:b.net SERVER c.net 2 1 :C => token";

fn show_member(member: &NewMember, shown: &mut ShownText) {
    let mark: &[u8] = match (member.flags.op, member.flags.voice) {
        (true, true) => b"@+",
        (true, false) => b"@",
        (false, true) => b"+",
        (false, false) => b".",
    };
    append_word(shown, mark);
    append_word(shown, member.nick.as_bytes());
}

fn show_change(change: &ModeChange, shown: &mut ShownText) {
    append_word(shown, &[change.letter.byte()]);
    if let Some(word) = &change.word {
        append_word(shown, word.as_bytes());
    }
}

/// Shows what a server tells, and of whom or what.
fn show_told(kind: &[u8], by: &ServerName, name: &[u8], shown: &mut ShownText) {
    append_word(shown, kind);
    append_word(shown, by.as_bytes());
    append_word(shown, name);
}

fn show_arrivals(arrivals: &NewMembers, shown: &mut ShownText) {
    show_told(
        b"members",
        &arrivals.server,
        arrivals.channel.as_bytes(),
        shown,
    );
    for member in arrivals.members.as_slice() {
        show_member(member, shown);
    }
}

fn show_setting(setting: &ModeSetting, shown: &mut ShownText) {
    show_told(b"modes", &setting.server, setting.channel.as_bytes(), shown);
    for change in setting.changes.as_slice() {
        show_change(change, shown);
    }
}

fn show(deed: &Deed, shown: &mut ShownText) {
    match deed {
        Deed::Does(_) => append_word(shown, b"does"),
        Deed::Server(server) => {
            show_told(b"server", &server.uplink, server.name.as_bytes(), shown);
            append_word(shown, Buffer::new().format(server.distance).as_bytes());
            append_word(shown, Buffer::new().format(server.token).as_bytes());
            append_word(shown, server.info.as_bytes());
        }
        Deed::Lost(loss) => {
            show_told(b"lost", &loss.server, loss.name.as_bytes(), shown);
            append_word(shown, loss.text.as_bytes());
        }
        Deed::Kill(killing) => show_told(b"kill", &killing.server, killing.nick.as_bytes(), shown),
        Deed::Members(arrivals) => show_arrivals(arrivals, shown),
        Deed::Modes(setting) => show_setting(setting, shown),
        Deed::Topic(topic) => {
            show_told(b"topic", &topic.server, topic.channel.as_bytes(), shown);
            append_word(shown, topic.text.as_bytes());
        }
    }
}

fn show_all(deeds: &[Deed], shown: &mut ShownText) {
    for deed in deeds {
        show(deed, shown);
    }
}

/// Shows what is read of a line.
fn show_read(alloc: Global, stage: &Stage, line: &[u8], shown: &mut ShownText) {
    if let Ok(message) = parse(line) {
        match read_burst_line(alloc, &message, &stage.room, &stage.routes, 1) {
            Ok(deeds) => show_all(deeds.as_slice(), shown),
            Err(fault) => append_word(shown, reason_word(fault)),
        }
    }
}

/// A line that begins so and goes on with so many `x`, as far as a line may go.
fn filled(front: &[u8], more: usize) -> Line {
    let mut line = Line::new();
    let _ = line.try_extend_from_slice(front);
    for _ in 0..more {
        let _ = line.try_push(b'x');
    }
    line
}

/// Whether what is read of a row's line, with so many `x` behind it, is what the row says.
fn row_holds(alloc: Global, stage: &Stage, row: &str, more: usize) -> bool {
    let (line, said) = sides(row);
    let mut shown = ShownText::new();
    show_read(alloc, stage, &filled(line.as_bytes(), more), &mut shown);
    shown.as_slice() == said.as_bytes()
}

/// Rows, and how many `x` are behind the line of each.
struct DeedTable {
    rows: &'static str,
    more: usize,
}

impl StageTest for DeedTable {
    fn holds(&self, _rt: &impl Abort, alloc: Global, stage: &mut Stage) -> bool {
        let mut all = true;
        for row in self.rows.lines() {
            all &= row_holds(alloc, stage, row, self.more);
        }
        all
    }
}

/// b.net is linked; al is in #d, bo of b.net in #o, and both are in #m.
const THERE: &str = "\
links
comes al a.net Al
comes bo b.net Bo
makes al #d
makes bo #o
makes al #m
makes bo #m";

/// As many servers are known as there is room for.
const KNOWN: &str = "\
links
fills";

static TABLE: DeedTable = DeedTable {
    rows: ROWS,
    more: 0,
};

static WORDS_TABLE: DeedTable = DeedTable {
    rows: WORDS,
    more: 0,
};

static SMALL_TABLE: DeedTable = DeedTable {
    rows: SMALL,
    more: 0,
};

static FILLED_TABLE: DeedTable = DeedTable {
    rows: FILLED,
    more: MAX_LINE,
};

static CROWDED_TABLE: DeedTable = DeedTable {
    rows: CROWDED,
    more: 0,
};

#[test]
fn lines_of_servers_are_read(rt: HostRuntime) {
    assert!(rt; test_holds(&rt, rt.alloc(), THERE, &TABLE));
    assert!(rt; test_holds(&rt, rt.alloc(), THERE, &WORDS_TABLE));
    assert!(rt; test_holds(&rt, rt.alloc(), THERE, &SMALL_TABLE));
    assert!(rt; test_holds(&rt, rt.alloc(), THERE, &FILLED_TABLE));
}

#[test]
fn one_server_more_than_there_is_room_for_is_refused(rt: HostRuntime) {
    assert!(rt; test_holds(&rt, rt.alloc(), KNOWN, &CROWDED_TABLE));
}
