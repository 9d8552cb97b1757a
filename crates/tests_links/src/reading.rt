//! Lines of a link, each with the effects that it tells of and what is written of these, or why it
//! is refused (RFC 2813 section 4).
use crate::shown::{ShownText, append, append_word, first_word, show, show_fault, sides};
use crate::stage::{Stage, StageTest, apply, test_holds};
use irc_line::parse;
use irc_readback::{read_effect, write_effect};
use irc_room::Effect;
use std::alloc::Global;
use std::process::Abort;

/// The link to another server.
const ONWARDS: u64 = 2;

/// Each row: the link of a line, the line, what is read of it behind ` =>`, and behind another what
/// is written of that to another server. The effects are done, so that the next line meets them.
/// Users come, and are heard of.
const USERS: &str = "\
1 NICK bo 1 u h 1 + :Bo => adds bo u h Bo b.net no => NICK bo 2 u h 2 + :Bo
1 nick bi 1 u h 1 +i :B I => adds bi u h B I b.net yes => NICK bi 2 u h 2 +i :B I
1 :bo MODE bo +i => hides bo yes => :bo MODE bo +i
1 :bo MODE BO -i => hides bo no => :bo MODE bo -i
1 :bo MODE bo +a :at lunch => leaves bo at lunch => :bo MODE bo +a :at lunch
1 :bo MODE bo -a => returns bo => :bo MODE bo -a
1 :bi NICK by => renames bi by => :bi NICK by
1 :bo PRIVMSG al :hi there => says bo no al hi there => :bo PRIVMSG al :hi there
1 :bo NOTICE #d :hi => says bo yes #d hi => :bo NOTICE #d :hi
1 :bo INVITE al #d => invites bo al #d => :bo INVITE al #d
1 :by QUIT :bye bye => quits by bye bye => :by QUIT :bye bye
1 :by QUIT :bye bye =>
1 :zz QUIT :x =>
1 NICK dd 1 u h 01 + :D => parameters
1 NICK dd 2 u h 1 + :D => parameters
1 NICK dd 1 u h 9 + :D => bad token
1 NICK 9d 1 u h 1 + :D => bad name";

/// A channel of users behind the link, and one of a user who is not.
const CHANNELS: &str = "\
1 :bo JOIN #c\x07o => joins bo #c yes => :bo JOIN #c\x07o
1 NICK bi 1 u h 1 + :B => adds bi u h B b.net no => NICK bi 2 u h 2 + :B
1 :bi JOIN #c => joins bi #c no => :bi JOIN #c
1 :bo MODE #c +mv-v bi bo => modes bo #c yes m yes v bi no v bo => :bo MODE #c +mv-v bi bo
1 :bo MODE #c +lk 5 pw => modes bo #c yes l 5 yes k pw => :bo MODE #c +lk 5 pw
1 :bo MODE #c +b a!*@* => modes bo #c yes b a!*@* => :bo MODE #c +b a!*@*
1 :bo TOPIC #c :hello there => topic bo #c hello there => :bo TOPIC #c :hello there
1 :b.net TOPIC #c :x => topic * #c x => :a.net TOPIC #c :x
1 :b.net MODE #c -m => modes * #c no m => :a.net MODE #c -m
1 :b.net TOPIC #d :x =>
1 :b.net MODE #d +m =>
1 :bo KICK #c bi :out => kicks bo #c bi out => :bo KICK #c bi :out
1 :bi PART #c :gone => parts bi #c gone => :bi PART #c :gone
1 :bo PART #c :gone => parts bo #c gone => :bo PART #c :gone";

/// Lines that are refused, each for the first cause.
const REFUSED: &str = "\
1 FOO => unknown command
1 :b.net SQUIT b.net :x => unknown command
1 :bo PART #c => parameters
1 QUIT :x => parameters
1 :bo QUIT => parameters
1 :bo JOIN #c #d => parameters
1 :bo MODE #c => parameters
1 :bo MODE #c v bo => parameters
1 :bo MODE #c +v => parameters
1 :bo MODE #c ++m => parameters
1 :bo MODE #c +m bo => parameters
1 :bo MODE #c +x => parameters
1 :bo MODE al +i => parameters
1 :bo MODE bo i => parameters
1 :bo MODE bo +a => parameters
1 :bo MODE bo +a : => parameters
1 :bo MODE bo -a :x => parameters
1 NICK dd 1 u h 1 i :D => parameters
2 :bo QUIT :x => wrong direction
2 :bo MODE #c +m => wrong direction
1 :al QUIT :x => wrong direction
1 :c.net TOPIC #c :x => wrong direction
2 :bo KICK #c bi :x => wrong direction
1 :9d QUIT :x => bad name
1 :bo NICK 9d => bad name
1 :bo JOIN c => bad name
1 :bo MODE #a:b +m => bad name";

/// The words of a MODE, by the rules of their letters: those at their limits are taken, and handed
/// on; those outside are refused.
const MODE_WORDS: &str = "\
1 NICK bo 1 u h 1 + :Bo => adds bo u h Bo b.net no => NICK bo 2 u h 2 + :Bo
1 :bo JOIN #c\x07o => joins bo #c yes => :bo JOIN #c\x07o
1 :bo MODE #c +l 65535 => modes bo #c yes l 65535 => :bo MODE #c +l 65535
1 :bo MODE #c +b a!bbbbbbbbbbbbbbbbbbbbbbbbbbbbbbbbbbbbbbbbbbbbbbbbbbbbbbbbbbbbbbbbbbbbbbbbbbbbb\
bbbbbbbbb@* => modes bo #c yes b a!bbbbbbbbbbbbbbbbbbbbbbbbbbbbbbbbbbbbbbbbbbbbbbbbbbbbbbbbbbbbb\
bbbbbbbbbbbbbbbbbbbbbbbbb@* => :bo MODE #c +b a!bbbbbbbbbbbbbbbbbbbbbbbbbbbbbbbbbbbbbbbbbbbbbbbb\
bbbbbbbbbbbbbbbbbbbbbbbbbbbbbbbbbbbbbb@*
1 :bo MODE #c +o zz => modes bo #c yes o zz => :bo MODE #c +o zz
1 :bo MODE #c +k a,b => parameters
1 :bo MODE #c -k a,b => parameters
1 :bo MODE #c -k => parameters
1 :bo MODE #c +l 0 => parameters
1 :bo MODE #c +l 007 => parameters
1 :bo MODE #c +l 65536 => parameters
1 :bo MODE #c +l 99999 => parameters
1 :bo MODE #c +b xxxxxxxxxxxxxxxxxxxxxxxxxxxxxxxxxxxxxxxxxxxxxxxxxxxxxxxxxxxxxxxxxxxxxxxxxxxxxxx\
xxxxxxxxxxxx => parameters
1 :bo MODE #c +ok 9d a,b => parameters
1 :bo MODE #c +o 9d => bad name
1 :bo MODE #c -v 9d => bad name
2 :bo MODE #c +o 9d => wrong direction
2 :bo MODE #c +l 007 => parameters";

/// b.net is linked, and al is there and alone in #d.
const THERE: &str = "\
links
comes al a.net Al
makes al #d";

/// Shows a line that is written, if one is.
fn show_written(line: &[u8], written: &mut ShownText) {
    match line.strip_suffix(b"\r\n") {
        Some(words) => append_word(written, words),
        None => append(written, line),
    }
}

/// Writes what was read of a line to another server, and does it.
fn pass_on(
    alloc: Global,
    stage: &mut Stage,
    effects: &[Effect],
    shown: &mut ShownText,
    written: &mut ShownText,
) {
    for effect in effects {
        show(effect, shown);
        show_written(
            &write_effect(effect, &stage.room, &stage.routes, ONWARDS),
            written,
        );
        apply(alloc, &mut stage.room, effect);
    }
}

/// Shows what is read of a line, and what is written of that.
fn say_line(
    alloc: Global,
    stage: &mut Stage,
    words: &str,
    shown: &mut ShownText,
    written: &mut ShownText,
) {
    let (link, line) = first_word(words);
    if let Ok(message) = parse(line.as_bytes()) {
        let link = link.parse::<u64>().unwrap_or(0);
        match read_effect(alloc, &message, &stage.room, &stage.routes, link) {
            Ok(effects) => pass_on(alloc, stage, effects.as_slice(), shown, written),
            Err(fault) => show_fault(fault, shown),
        }
    }
}

/// Whether of a row's line is read and written what the row says.
fn row_holds(alloc: Global, stage: &mut Stage, row: &str) -> bool {
    let (words, said) = sides(row);
    let (read, passed) = sides(said);
    let mut shown = ShownText::new();
    let mut written = ShownText::new();
    say_line(alloc, stage, words, &mut shown, &mut written);
    shown.as_slice() == read.as_bytes() && written.as_slice() == passed.as_bytes()
}

fn rows_hold(alloc: Global, stage: &mut Stage, rows: &str) -> bool {
    let mut all = true;
    for row in rows.lines() {
        all &= row_holds(alloc, stage, row);
    }
    all
}

/// Tables, one behind another.
struct LineTables {
    tables: &'static [&'static str],
}

impl StageTest for LineTables {
    fn holds(&self, _rt: &impl Abort, alloc: Global, stage: &mut Stage) -> bool {
        let mut all = true;
        for rows in self.tables {
            all &= rows_hold(alloc, stage, rows);
        }
        all
    }
}

static EFFECTS: LineTables = LineTables {
    tables: &[USERS, CHANNELS, REFUSED],
};

static MODES: LineTables = LineTables {
    tables: &[MODE_WORDS],
};

#[test]
fn lines_are_read_as_effects_and_written_so(rt: HostRuntime) {
    assert!(rt; test_holds(&rt, rt.alloc(), THERE, &EFFECTS));
}

#[test]
fn words_of_a_mode_keep_the_rules_of_their_letters(rt: HostRuntime) {
    assert!(rt; test_holds(&rt, rt.alloc(), THERE, &MODES));
}
