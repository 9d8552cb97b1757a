//! Sides that have one channel, each with modes, a topic or a spelling of its own, are joined by a
//! link (our own choice): what is expected is that of docs/PROFILE.md, none of it taken from the
//! program.
use crate::network_tests::add_deliveries;
use crate::piece_tests::crosses;
use crate::running::{add_parts, add_text, is_run, prints_parts};
use std::alloc::{AllocError, Global};

/// Three servers that are not linked, al on the first, bo on the second, cy on the third.
const SIDES: &str = "\
> server a.net
> server b.net
> server c.net
> connect a.net h
> say 1 NICK al
> say 1 USER u 0 * :Al
1 :a.net 001 al :Welcome to the Internet Relay Network al!u@h
1 :a.net 002 al :Your host is a.net, running version treeircd-1
1 :a.net 003 al :This server was created 2024-01-01
1 :a.net 004 al a.net treeircd-1 i biklmnopstv
1 :a.net 422 al :MOTD File is missing
> connect b.net h
> say 2 NICK bo
> say 2 USER u 0 * :Bo
2 :b.net 001 bo :Welcome to the Internet Relay Network bo!u@h
2 :b.net 002 bo :Your host is b.net, running version treeircd-1
2 :b.net 003 bo :This server was created 2024-01-01
2 :b.net 004 bo b.net treeircd-1 i biklmnopstv
2 :b.net 422 bo :MOTD File is missing
> connect c.net h
> say 3 NICK cy
> say 3 USER u 0 * :Cy
3 :c.net 001 cy :Welcome to the Internet Relay Network cy!u@h
3 :c.net 002 cy :Your host is c.net, running version treeircd-1
3 :c.net 003 cy :This server was created 2024-01-01
3 :c.net 004 cy c.net treeircd-1 i biklmnopstv
3 :c.net 422 cy :MOTD File is missing
";

/// Either of two servers connects.
static EITHER: [&str; 2] = ["> link a.net b.net\n", "> link b.net a.net\n"];

/// al has made #c, secret, with a key and a topic; bo another #c, with a greater key.
const TWO_CHANNELS: &str = "\
> say 1 JOIN #c
1 :al!u@h JOIN #c
1 :a.net 353 al = #c :@al
1 :a.net 366 al #c :End of NAMES list
> say 1 MODE #c +sk aa
1 :al!u@h MODE #c +sk aa
> say 1 TOPIC #c :x
1 :al!u@h TOPIC #c :x
> say 2 JOIN #c
2 :bo!u@h JOIN #c
2 :b.net 353 bo = #c :@bo
2 :b.net 366 bo #c :End of NAMES list
> say 2 MODE #c +nk bb
2 :bo!u@h MODE #c +nk bb
";

/// Each sees the other come, and of its modes and topic what is not there yet.
const JOINED: &str = "\
> settle
2 :al!u@h JOIN #c
2 :b.net MODE #c +o al
2 :b.net MODE #c +s
2 :b.net TOPIC #c :x
1 :bo!u@h JOIN #c
1 :a.net MODE #c +o bo
1 :a.net MODE #c +nk bb
= 11
";

/// Both have what was set on either side, and the greater key.
const ONE_CHANNEL: &str = "\
> say 1 MODE #c
1 :a.net 324 al #c +nsk bb
> say 2 MODE #c
2 :b.net 324 bo #c +nsk bb
> say 1 TOPIC #c
1 :a.net 332 al #c :x
> say 2 TOPIC #c
2 :b.net 332 bo #c :x
";

/// Whether just this is printed in front of a link and behind it, whichever server connects.
fn prints_either_way(alloc: Global, front: &[&str], behind: &[&str]) -> bool {
    for link in &EITHER {
        if !prints_around(alloc, front, link, behind) {
            return false;
        }
    }
    true
}

fn prints_around(alloc: Global, front: &[&str], link: &str, behind: &[&str]) -> bool {
    let mut script = Vec::new(alloc);
    let mut printed = Vec::new(alloc);
    let mut output = Vec::new(alloc);
    add_parts(front, &mut script, &mut printed).is_ok()
        && add_text(link, &mut script, &mut printed).is_ok()
        && add_parts(behind, &mut script, &mut printed).is_ok()
        && is_run(alloc, &script, usize::MAX, &mut output)
        && output == printed
}

#[test]
fn modes_and_topics_are_joined(rt: HostRuntime) {
    assert!(rt; prints_either_way(rt.alloc(), &[SIDES, TWO_CHANNELS], &[JOINED, ONE_CHANNEL]));
}

/// Each has made a channel of one name, spelled otherwise.
const SPELLED: &str = "\
> say 1 JOIN #Chat
1 :al!u@h JOIN #Chat
1 :a.net 353 al = #Chat :@al
1 :a.net 366 al #Chat :End of NAMES list
> say 2 JOIN #chat
2 :bo!u@h JOIN #chat
2 :b.net 353 bo = #chat :@bo
2 :b.net 366 bo #chat :End of NAMES list
";

/// The greater spelling by bytes is that of both, from the first line on; nobody sees it change.
const SPELLED_AS_ONE: &str = "\
> settle
2 :al!u@h JOIN #chat
2 :b.net MODE #chat +o al
1 :bo!u@h JOIN #chat
1 :a.net MODE #chat +o bo
= 8
> say 1 MODE #CHAT
1 :a.net 324 al #chat +
> say 2 MODE #CHAT
2 :b.net 324 bo #chat +
> say 1 NAMES #Chat
1 :a.net 353 al = #chat :@al @bo
1 :a.net 366 al #Chat :End of NAMES list
";

#[test]
fn spellings_are_joined(rt: HostRuntime) {
    assert!(rt; prints_either_way(rt.alloc(), &[SIDES, SPELLED], &[SPELLED_AS_ONE]));
}

/// Of three servers in a line those at its ends have a channel. Nobody in the middle is in it: that
/// server joins both all the same, and passes on what it reads.
const IN_A_LINE: &str = "\
> say 1 JOIN #Chat
1 :al!u@h JOIN #Chat
1 :a.net 353 al = #Chat :@al
1 :a.net 366 al #Chat :End of NAMES list
> say 1 MODE #Chat +m
1 :al!u@h MODE #Chat +m
> say 3 JOIN #chat
3 :cy!u@h JOIN #chat
3 :c.net 353 cy = #chat :@cy
3 :c.net 366 cy #chat :End of NAMES list
> say 3 TOPIC #chat :hello
3 :cy!u@h TOPIC #chat :hello
> link a.net b.net
> settle
= 8
> link b.net c.net
> settle
3 :al!u@h JOIN #chat
3 :c.net MODE #chat +o al
3 :c.net MODE #chat +m
1 :cy!u@h JOIN #chat
1 :a.net MODE #chat +o cy
1 :a.net TOPIC #chat :hello
= 16
> say 1 MODE #CHAT
1 :a.net 324 al #chat +m
> say 2 MODE #CHAT
2 :b.net 324 bo #chat +m
> say 3 MODE #CHAT
3 :c.net 324 cy #chat +m
";

#[test]
fn sides_are_joined_through_a_server_between(rt: HostRuntime) {
    assert!(rt; prints_parts(rt.alloc(), &[SIDES, IN_A_LINE]));
}

/// Twenty bans on one side.
const TWENTY_BANS: &str = "\
> say 1 JOIN #c
1 :al!u@h JOIN #c
1 :a.net 353 al = #c :@al
1 :a.net 366 al #c :End of NAMES list
> say 1 MODE #c +bbb 00!*@* 02!*@* 04!*@*
1 :al!u@h MODE #c +bbb 00!*@* 02!*@* 04!*@*
> say 1 MODE #c +bbb 06!*@* 08!*@* 10!*@*
1 :al!u@h MODE #c +bbb 06!*@* 08!*@* 10!*@*
> say 1 MODE #c +bbb 12!*@* 14!*@* 16!*@*
1 :al!u@h MODE #c +bbb 12!*@* 14!*@* 16!*@*
> say 1 MODE #c +bbb 18!*@* 20!*@* 22!*@*
1 :al!u@h MODE #c +bbb 18!*@* 20!*@* 22!*@*
> say 1 MODE #c +bbb 24!*@* 26!*@* 28!*@*
1 :al!u@h MODE #c +bbb 24!*@* 26!*@* 28!*@*
> say 1 MODE #c +bbb 30!*@* 32!*@* 34!*@*
1 :al!u@h MODE #c +bbb 30!*@* 32!*@* 34!*@*
> say 1 MODE #c +bb 36!*@* 38!*@*
1 :al!u@h MODE #c +bb 36!*@* 38!*@*
";

/// Twenty others on the other one.
const TWENTY_OTHERS: &str = "\
> say 2 JOIN #c
2 :bo!u@h JOIN #c
2 :b.net 353 bo = #c :@bo
2 :b.net 366 bo #c :End of NAMES list
> say 2 MODE #c +bbb 01!*@* 03!*@* 05!*@*
2 :bo!u@h MODE #c +bbb 01!*@* 03!*@* 05!*@*
> say 2 MODE #c +bbb 07!*@* 09!*@* 11!*@*
2 :bo!u@h MODE #c +bbb 07!*@* 09!*@* 11!*@*
> say 2 MODE #c +bbb 13!*@* 15!*@* 17!*@*
2 :bo!u@h MODE #c +bbb 13!*@* 15!*@* 17!*@*
> say 2 MODE #c +bbb 19!*@* 21!*@* 23!*@*
2 :bo!u@h MODE #c +bbb 19!*@* 21!*@* 23!*@*
> say 2 MODE #c +bbb 25!*@* 27!*@* 29!*@*
2 :bo!u@h MODE #c +bbb 25!*@* 27!*@* 29!*@*
> say 2 MODE #c +bbb 31!*@* 33!*@* 35!*@*
2 :bo!u@h MODE #c +bbb 31!*@* 33!*@* 35!*@*
> say 2 MODE #c +bb 37!*@* 39!*@*
2 :bo!u@h MODE #c +bb 37!*@* 39!*@*
";

/// Each sees those of the other, three a line.
const FORTY_BANS: &str = "\
> settle
2 :al!u@h JOIN #c
2 :b.net MODE #c +o al
2 :b.net MODE #c +bbb 00!*@* 02!*@* 04!*@*
2 :b.net MODE #c +bbb 06!*@* 08!*@* 10!*@*
2 :b.net MODE #c +bbb 12!*@* 14!*@* 16!*@*
2 :b.net MODE #c +bbb 18!*@* 20!*@* 22!*@*
2 :b.net MODE #c +bbb 24!*@* 26!*@* 28!*@*
2 :b.net MODE #c +bbb 30!*@* 32!*@* 34!*@*
2 :b.net MODE #c +bb 36!*@* 38!*@*
1 :bo!u@h JOIN #c
1 :a.net MODE #c +o bo
1 :a.net MODE #c +bbb 01!*@* 03!*@* 05!*@*
1 :a.net MODE #c +bbb 07!*@* 09!*@* 11!*@*
1 :a.net MODE #c +bbb 13!*@* 15!*@* 17!*@*
1 :a.net MODE #c +bbb 19!*@* 21!*@* 23!*@*
1 :a.net MODE #c +bbb 25!*@* 27!*@* 29!*@*
1 :a.net MODE #c +bbb 31!*@* 33!*@* 35!*@*
1 :a.net MODE #c +bb 37!*@* 39!*@*
= 22
";

/// All forty are there, on one side ..
const FORTY_AT_A: &str = "\
> say 1 MODE #c b
1 :a.net 367 al #c 00!*@*
1 :a.net 367 al #c 01!*@*
1 :a.net 367 al #c 02!*@*
1 :a.net 367 al #c 03!*@*
1 :a.net 367 al #c 04!*@*
1 :a.net 367 al #c 05!*@*
1 :a.net 367 al #c 06!*@*
1 :a.net 367 al #c 07!*@*
1 :a.net 367 al #c 08!*@*
1 :a.net 367 al #c 09!*@*
1 :a.net 367 al #c 10!*@*
1 :a.net 367 al #c 11!*@*
1 :a.net 367 al #c 12!*@*
1 :a.net 367 al #c 13!*@*
1 :a.net 367 al #c 14!*@*
1 :a.net 367 al #c 15!*@*
1 :a.net 367 al #c 16!*@*
1 :a.net 367 al #c 17!*@*
1 :a.net 367 al #c 18!*@*
1 :a.net 367 al #c 19!*@*
1 :a.net 367 al #c 20!*@*
1 :a.net 367 al #c 21!*@*
1 :a.net 367 al #c 22!*@*
1 :a.net 367 al #c 23!*@*
1 :a.net 367 al #c 24!*@*
1 :a.net 367 al #c 25!*@*
1 :a.net 367 al #c 26!*@*
1 :a.net 367 al #c 27!*@*
1 :a.net 367 al #c 28!*@*
1 :a.net 367 al #c 29!*@*
1 :a.net 367 al #c 30!*@*
1 :a.net 367 al #c 31!*@*
1 :a.net 367 al #c 32!*@*
1 :a.net 367 al #c 33!*@*
1 :a.net 367 al #c 34!*@*
1 :a.net 367 al #c 35!*@*
1 :a.net 367 al #c 36!*@*
1 :a.net 367 al #c 37!*@*
1 :a.net 367 al #c 38!*@*
1 :a.net 367 al #c 39!*@*
1 :a.net 368 al #c :End of channel ban list
";

/// .. and on the other.
const FORTY_AT_B: &str = "\
> say 2 MODE #c b
2 :b.net 367 bo #c 00!*@*
2 :b.net 367 bo #c 01!*@*
2 :b.net 367 bo #c 02!*@*
2 :b.net 367 bo #c 03!*@*
2 :b.net 367 bo #c 04!*@*
2 :b.net 367 bo #c 05!*@*
2 :b.net 367 bo #c 06!*@*
2 :b.net 367 bo #c 07!*@*
2 :b.net 367 bo #c 08!*@*
2 :b.net 367 bo #c 09!*@*
2 :b.net 367 bo #c 10!*@*
2 :b.net 367 bo #c 11!*@*
2 :b.net 367 bo #c 12!*@*
2 :b.net 367 bo #c 13!*@*
2 :b.net 367 bo #c 14!*@*
2 :b.net 367 bo #c 15!*@*
2 :b.net 367 bo #c 16!*@*
2 :b.net 367 bo #c 17!*@*
2 :b.net 367 bo #c 18!*@*
2 :b.net 367 bo #c 19!*@*
2 :b.net 367 bo #c 20!*@*
2 :b.net 367 bo #c 21!*@*
2 :b.net 367 bo #c 22!*@*
2 :b.net 367 bo #c 23!*@*
2 :b.net 367 bo #c 24!*@*
2 :b.net 367 bo #c 25!*@*
2 :b.net 367 bo #c 26!*@*
2 :b.net 367 bo #c 27!*@*
2 :b.net 367 bo #c 28!*@*
2 :b.net 367 bo #c 29!*@*
2 :b.net 367 bo #c 30!*@*
2 :b.net 367 bo #c 31!*@*
2 :b.net 367 bo #c 32!*@*
2 :b.net 367 bo #c 33!*@*
2 :b.net 367 bo #c 34!*@*
2 :b.net 367 bo #c 35!*@*
2 :b.net 367 bo #c 36!*@*
2 :b.net 367 bo #c 37!*@*
2 :b.net 367 bo #c 38!*@*
2 :b.net 367 bo #c 39!*@*
2 :b.net 368 bo #c :End of channel ban list
";

/// Nobody adds one to so many: a client may have thirty at most.
const FULL: &str = "\
> say 1 MODE #c +b 40!*@*
1 :a.net 478 al #c b :Channel list is full
> say 2 MODE #c +b 40!*@*
2 :b.net 478 bo #c b :Channel list is full
> settle
= 0
";

#[test]
fn bans_of_both_sides_stay(rt: HostRuntime) {
    let front = [SIDES, TWENTY_BANS, TWENTY_OTHERS];
    let behind = [FORTY_BANS, FORTY_AT_A, FORTY_AT_B, FULL];
    assert!(rt; prints_either_way(rt.alloc(), &front, &behind));
}

/// al has made #ZOO, and zed is in it; another zed has made #zoo, with a mode and a topic.
const ZED_ON_BOTH: &str = "\
> server a.net
> server b.net
> connect a.net h
> say 1 NICK al
> say 1 USER u 0 * :Al
1 :a.net 001 al :Welcome to the Internet Relay Network al!u@h
1 :a.net 002 al :Your host is a.net, running version treeircd-1
1 :a.net 003 al :This server was created 2024-01-01
1 :a.net 004 al a.net treeircd-1 i biklmnopstv
1 :a.net 422 al :MOTD File is missing
> connect a.net h
> say 2 NICK zed
> say 2 USER u 0 * :Zed
2 :a.net 001 zed :Welcome to the Internet Relay Network zed!u@h
2 :a.net 002 zed :Your host is a.net, running version treeircd-1
2 :a.net 003 zed :This server was created 2024-01-01
2 :a.net 004 zed a.net treeircd-1 i biklmnopstv
2 :a.net 422 zed :MOTD File is missing
> connect b.net h
> say 3 NICK zed
> say 3 USER u 0 * :Zed
3 :b.net 001 zed :Welcome to the Internet Relay Network zed!u@h
3 :b.net 002 zed :Your host is b.net, running version treeircd-1
3 :b.net 003 zed :This server was created 2024-01-01
3 :b.net 004 zed b.net treeircd-1 i biklmnopstv
3 :b.net 422 zed :MOTD File is missing
> say 1 JOIN #ZOO
1 :al!u@h JOIN #ZOO
1 :a.net 353 al = #ZOO :@al
1 :a.net 366 al #ZOO :End of NAMES list
> say 2 JOIN #zoo
1 :zed!u@h JOIN #ZOO
2 :zed!u@h JOIN #ZOO
2 :a.net 353 zed = #ZOO :@al zed
2 :a.net 366 zed #zoo :End of NAMES list
> say 3 JOIN #zoo
3 :zed!u@h JOIN #zoo
3 :b.net 353 zed = #zoo :@zed
3 :b.net 366 zed #zoo :End of NAMES list
> say 3 MODE #zoo +i
3 :zed!u@h MODE #zoo +i
> say 3 TOPIC #zoo :old
3 :zed!u@h TOPIC #zoo :old
";

/// Both zeds are killed, and #zoo has ended by that: nothing of it is joined, its spelling neither.
const ZOO_ENDS: &str = "\
> settle
3 ERROR :Closing link (Killed (Nick collision))
1 :zed!u@h QUIT :Killed (Nick collision)
2 ERROR :Closing link (Killed (Nick collision))
= 13
> say 1 MODE #zoo
1 :a.net 324 al #ZOO +
> say 1 TOPIC #zoo
1 :a.net 331 al #ZOO :No topic is set
";

/// cy is in #zoo too.
const CY_COMES: &str = "\
> connect b.net h
> say 4 NICK cy
> say 4 USER u 0 * :Cy
4 :b.net 001 cy :Welcome to the Internet Relay Network cy!u@h
4 :b.net 002 cy :Your host is b.net, running version treeircd-1
4 :b.net 003 cy :This server was created 2024-01-01
4 :b.net 004 cy b.net treeircd-1 i biklmnopstv
4 :b.net 422 cy :MOTD File is missing
> say 3 INVITE cy #zoo
3 :b.net 341 zed #zoo cy
4 :zed!u@h INVITE cy #zoo
> say 4 JOIN #zoo
4 :cy!u@h JOIN #zoo
3 :cy!u@h JOIN #zoo
4 :b.net 332 cy #zoo :old
4 :b.net 353 cy = #zoo :cy @zed
4 :b.net 366 cy #zoo :End of NAMES list
";

/// Then it stays, and is joined.
const ZOO_STAYS: &str = "\
> settle
4 :zed!u@h QUIT :Killed (Nick collision)
3 ERROR :Closing link (Killed (Nick collision))
4 :al!u@h JOIN #zoo
4 :b.net MODE #zoo +o al
1 :zed!u@h QUIT :Killed (Nick collision)
2 ERROR :Closing link (Killed (Nick collision))
1 :cy!u@h JOIN #zoo
1 :a.net MODE #zoo +i
1 :a.net TOPIC #zoo :old
= 14
> say 1 MODE #zoo
1 :a.net 324 al #zoo +i
> say 4 MODE #zoo
4 :b.net 324 cy #zoo +i
";

#[test]
fn what_ends_with_a_kill_is_not_joined(rt: HostRuntime) {
    assert!(rt; prints_either_way(rt.alloc(), &[ZED_ON_BOTH], &[ZOO_ENDS]));
    assert!(rt; prints_either_way(rt.alloc(), &[ZED_ON_BOTH, CY_COMES], &[ZOO_STAYS]));
}

/// al and bo are operators of one channel, which has modes and a topic.
const MET: &str = "\
> link a.net b.net
> settle
= 6
> say 1 JOIN #c
1 :al!u@h JOIN #c
1 :a.net 353 al = #c :@al
1 :a.net 366 al #c :End of NAMES list
> settle
= 1
> say 2 JOIN #c
2 :bo!u@h JOIN #c
2 :b.net 353 bo = #c :@al bo
2 :b.net 366 bo #c :End of NAMES list
> settle
1 :bo!u@h JOIN #c
= 1
> say 1 MODE #c +o bo
1 :al!u@h MODE #c +o bo
> settle
2 :al!u@h MODE #c +o bo
= 1
> say 1 MODE #c +mt
1 :al!u@h MODE #c +mt
> settle
2 :al!u@h MODE #c +mt
= 1
> say 1 TOPIC #c :start
1 :al!u@h TOPIC #c :start
> settle
2 :al!u@h TOPIC #c :start
= 1
";

/// The link is lost.
const CUT: &str = "\
> cut a.net b.net
1 :bo!u@h QUIT :a.net b.net
2 :al!u@h QUIT :b.net a.net
";

/// Meanwhile each clears a mode, sets another, and gives a topic.
const APART: &str = "\
> say 1 MODE #c -m
1 :al!u@h MODE #c -m
> say 1 MODE #c +k aa
1 :al!u@h MODE #c +k aa
> say 1 TOPIC #c :b
1 :al!u@h TOPIC #c :b
> say 2 MODE #c -t
2 :bo!u@h MODE #c -t
> say 2 MODE #c +l 5
2 :bo!u@h MODE #c +l 5
> say 2 TOPIC #c :a
2 :bo!u@h TOPIC #c :a
";

/// The link is back: what was cleared on one side alone comes back from the other.
const REJOINED: &str = "\
> settle
2 :al!u@h JOIN #c
2 :b.net MODE #c +o al
2 :b.net MODE #c +tk aa
2 :b.net TOPIC #c :b
1 :bo!u@h JOIN #c
1 :a.net MODE #c +o bo
1 :a.net MODE #c +ml 5
= 12
> say 1 MODE #c
1 :a.net 324 al #c +mtkl aa 5
> say 2 MODE #c
2 :b.net 324 bo #c +mtkl aa 5
> say 1 TOPIC #c
1 :a.net 332 al #c :b
> say 2 TOPIC #c
2 :b.net 332 bo #c :b
";

/// It is lost again, and back again, and nothing was changed: nobody sees a mode or a topic.
const NOTHING_NEW: &str = "\
> settle
2 :al!u@h JOIN #c
2 :b.net MODE #c +o al
1 :bo!u@h JOIN #c
1 :a.net MODE #c +o bo
= 12
> say 1 MODE #c
1 :a.net 324 al #c +mtkl aa 5
> say 2 TOPIC #c
2 :b.net 332 bo #c :b
";

/// Whether just this is printed of a channel in a split and behind it, whichever server connects.
fn splits_and_rejoins(alloc: Global) -> bool {
    for first in &EITHER {
        let apart = [SIDES, MET, CUT, APART, *first, REJOINED, CUT];
        if !prints_either_way(alloc, &apart, &[NOTHING_NEW]) {
            return false;
        }
    }
    true
}

#[test]
fn what_changes_in_a_split_is_joined(rt: HostRuntime) {
    assert!(rt; splits_and_rejoins(rt.alloc()));
}

/// Three sides of one channel, each with a spelling, modes, bans or a topic of its own.
const THREE_CHANNELS: &str = "\
> say 1 JOIN #C
1 :al!u@h JOIN #C
1 :a.net 353 al = #C :@al
1 :a.net 366 al #C :End of NAMES list
> say 1 MODE #C +sk aa
1 :al!u@h MODE #C +sk aa
> say 1 MODE #C +bb A!*@* x!*@*
1 :al!u@h MODE #C +bb A!*@* x!*@*
> say 1 TOPIC #C :x
1 :al!u@h TOPIC #C :x
> say 2 JOIN #c
2 :bo!u@h JOIN #c
2 :b.net 353 bo = #c :@bo
2 :b.net 366 bo #c :End of NAMES list
> say 2 MODE #c +nkl bb 5
2 :bo!u@h MODE #c +nkl bb 5
> say 2 MODE #c +b a!*@*
2 :bo!u@h MODE #c +b a!*@*
> say 3 JOIN #C
3 :cy!u@h JOIN #C
3 :c.net 353 cy = #C :@cy
3 :c.net 366 cy #C :End of NAMES list
> say 3 MODE #C +pl 10
3 :cy!u@h MODE #C +pl 10
> say 3 MODE #C +b B!*@*
3 :cy!u@h MODE #C +b B!*@*
> say 3 TOPIC #C :y
3 :cy!u@h TOPIC #C :y
";

/// What there is of it in the end, on each server.
const ONE_ROOM: &str = "\
> say 1 MODE #C
1 :a.net 324 al #c +nskl bb 10
> say 1 MODE #C b
1 :a.net 367 al #c a!*@*
1 :a.net 367 al #c B!*@*
1 :a.net 367 al #c x!*@*
1 :a.net 368 al #c :End of channel ban list
> say 1 TOPIC #C
1 :a.net 332 al #c :y
> say 1 NAMES #C
1 :a.net 353 al @ #c :@al @bo @cy
1 :a.net 366 al #C :End of NAMES list
> say 2 MODE #C
2 :b.net 324 bo #c +nskl bb 10
> say 2 MODE #C b
2 :b.net 367 bo #c a!*@*
2 :b.net 367 bo #c B!*@*
2 :b.net 367 bo #c x!*@*
2 :b.net 368 bo #c :End of channel ban list
> say 2 TOPIC #C
2 :b.net 332 bo #c :y
> say 2 NAMES #C
2 :b.net 353 bo @ #c :@al @bo @cy
2 :b.net 366 bo #C :End of NAMES list
> say 3 MODE #C
3 :c.net 324 cy #c +nskl bb 10
> say 3 MODE #C b
3 :c.net 367 cy #c a!*@*
3 :c.net 367 cy #c B!*@*
3 :c.net 367 cy #c x!*@*
3 :c.net 368 cy #c :End of channel ban list
> say 3 TOPIC #C
3 :c.net 332 cy #c :y
> say 3 NAMES #C
3 :c.net 353 cy @ #c :@al @bo @cy
3 :c.net 366 cy #C :End of NAMES list
";

/// Two links that join three servers, in each order, whichever end connects.
static LINES: [[&str; 2]; 24] = [
    ["a.net b.net", "a.net c.net"],
    ["a.net b.net", "c.net a.net"],
    ["b.net a.net", "a.net c.net"],
    ["b.net a.net", "c.net a.net"],
    ["a.net b.net", "b.net c.net"],
    ["a.net b.net", "c.net b.net"],
    ["b.net a.net", "b.net c.net"],
    ["b.net a.net", "c.net b.net"],
    ["a.net c.net", "a.net b.net"],
    ["a.net c.net", "b.net a.net"],
    ["c.net a.net", "a.net b.net"],
    ["c.net a.net", "b.net a.net"],
    ["a.net c.net", "b.net c.net"],
    ["a.net c.net", "c.net b.net"],
    ["c.net a.net", "b.net c.net"],
    ["c.net a.net", "c.net b.net"],
    ["b.net c.net", "a.net b.net"],
    ["b.net c.net", "b.net a.net"],
    ["c.net b.net", "a.net b.net"],
    ["c.net b.net", "b.net a.net"],
    ["b.net c.net", "a.net c.net"],
    ["b.net c.net", "c.net a.net"],
    ["c.net b.net", "a.net c.net"],
    ["c.net b.net", "c.net a.net"],
];

/// Appends two links to a script, and lets all that servers tell each other of them come.
fn add_links(links: &[&str; 2], script: &mut Vec<u8>) -> Result<(), AllocError> {
    for ends in links {
        script.extend_from_slice(b"link ")?;
        script.extend_from_slice(ends.as_bytes())?;
        script.extend_from_slice(b"\nsettle\n")?;
    }
    Ok(())
}

/// Whether three sides have become one room behind two links.
fn becomes_one_room(alloc: Global, links: &[&str; 2]) -> bool {
    let mut script = Vec::new(alloc);
    let mut front = Vec::new(alloc);
    let mut behind = Vec::new(alloc);
    let mut output = Vec::new(alloc);
    add_text(SIDES, &mut script, &mut front).is_ok()
        && add_text(THREE_CHANNELS, &mut script, &mut front).is_ok()
        && add_links(links, &mut script).is_ok()
        && add_text(ONE_ROOM, &mut script, &mut behind).is_ok()
        && is_run(alloc, &script, usize::MAX, &mut output)
        && output.starts_with(front.as_slice())
        && output.ends_with(behind.as_slice())
}

fn becomes_one_room_in_each_order(alloc: Global) -> bool {
    for links in &LINES {
        if !becomes_one_room(alloc, links) {
            return false;
        }
    }
    true
}

#[test]
fn three_sides_are_joined_in_each_order(rt: HostRuntime) {
    assert!(rt; becomes_one_room_in_each_order(rt.alloc()));
}

/// Both have named themselves. Four lines are on their way to b.net, of a user, of a channel, its
/// modes and its topic, and three to a.net.
const NAMED: &str = "\
> link a.net b.net
> deliver a.net b.net
= 1
> deliver a.net b.net
= 1
> deliver b.net a.net
= 1
> deliver b.net a.net
= 1
";

/// What each of those to b.net does, in turn.
static TO_B: [&str; 4] = [
    "> deliver a.net b.net\n= 1\n",
    "> deliver a.net b.net\n2 :al!u@h JOIN #c\n2 :b.net MODE #c +o al\n= 1\n",
    "> deliver a.net b.net\n2 :b.net MODE #c +s\n= 1\n",
    "> deliver a.net b.net\n2 :b.net TOPIC #c :x\n= 1\n",
];

/// And each of those to a.net.
static TO_A: [&str; 3] = [
    "> deliver b.net a.net\n= 1\n",
    "> deliver b.net a.net\n1 :bo!u@h JOIN #c\n1 :a.net MODE #c +o bo\n= 1\n",
    "> deliver b.net a.net\n1 :a.net MODE #c +nk bb\n= 1\n",
];

/// All orders in which they can be taken, by the server that takes each.
static ORDERS: [&str; 35] = [
    "aaabbbb", "aababbb", "aabbabb", "aabbbab", "aabbbba", "abaabbb", "abababb", "ababbab",
    "ababbba", "abbaabb", "abbabab", "abbabba", "abbbaab", "abbbaba", "abbbbaa", "baaabbb",
    "baababb", "baabbab", "baabbba", "babaabb", "bababab", "bababba", "babbaab", "babbaba",
    "babbbaa", "bbaaabb", "bbaabab", "bbaabba", "bbabaab", "bbababa", "bbabbaa", "bbbaaab",
    "bbbaaba", "bbbabaa", "bbbbaaa",
];

/// Whether just this is printed where the lines are taken in an order.
fn arrives(alloc: Global, order: &str) -> bool {
    let mut script = Vec::new(alloc);
    let mut printed = Vec::new(alloc);
    let mut output = Vec::new(alloc);
    add_parts(&[SIDES, TWO_CHANNELS, NAMED], &mut script, &mut printed).is_ok()
        && add_deliveries(order, [&TO_A, &TO_B], &mut script, &mut printed).is_ok()
        && add_text(ONE_CHANNEL, &mut script, &mut printed).is_ok()
        && is_run(alloc, &script, usize::MAX, &mut output)
        && output == printed
}

fn arrives_in_each_order(alloc: Global) -> bool {
    for order in &ORDERS {
        if !arrives(alloc, order) {
            return false;
        }
    }
    true
}

#[test]
fn sides_that_differ_cross_in_each_order(rt: HostRuntime) {
    assert!(rt; arrives_in_each_order(rt.alloc()));
}

/// What each client receives as the two are linked.
static SEEN: [&str; 3] = [
    "1 :bo!u@h JOIN #c\n1 :a.net MODE #c +o bo\n1 :a.net MODE #c +nk bb\n",
    "2 :al!u@h JOIN #c\n2 :b.net MODE #c +o al\n2 :b.net MODE #c +s\n2 :b.net TOPIC #c :x\n",
    "",
];

#[test]
fn sides_that_differ_cross_in_pieces(rt: HostRuntime) {
    let front = [SIDES, TWO_CHANNELS, EITHER[0]];
    assert!(rt; crosses(rt.alloc(), &front, &SEEN, 300, "1"));
    assert!(rt; crosses(rt.alloc(), &front, &SEEN, 150, "2"));
    assert!(rt; crosses(rt.alloc(), &front, &SEEN, 5, "509"));
}
