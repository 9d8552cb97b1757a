//! A nickname on both sides of a new link (RFC 2812 section 3.7.1): what the clients of both
//! servers receive. What is expected is that of the RFC's lines in the wording of docs/PROFILE.md,
//! none of it taken from the program.
use crate::running::prints_network;

/// A nickname on both sides: both holders are killed, each side sees its own go, and nobody is seen
/// to come. The channel that one of them had alone is gone.
const CLASH: &str = "\
> server a.net
> server b.net
> connect a.net h
> say 1 NICK al
> say 1 USER u 0 * :Al
1 :a.net 001 al :Welcome to the Internet Relay Network al!u@h
1 :a.net 002 al :Your host is a.net, running version treeircd-1
1 :a.net 003 al :This server was created 2024-01-01
1 :a.net 004 al a.net treeircd-1 i biklmnopstv
1 :a.net 422 al :MOTD File is missing
> connect a.net h
> say 2 NICK zed
> say 2 USER u 0 * :Zed
2 :a.net 001 zed :Welcome to the Internet Relay Network zed!u@h
2 :a.net 002 zed :Your host is a.net, running version treeircd-1
2 :a.net 003 zed :This server was created 2024-01-01
2 :a.net 004 zed a.net treeircd-1 i biklmnopstv
2 :a.net 422 zed :MOTD File is missing
> connect b.net h
> say 3 NICK bo
> say 3 USER u 0 * :Bo
3 :b.net 001 bo :Welcome to the Internet Relay Network bo!u@h
3 :b.net 002 bo :Your host is b.net, running version treeircd-1
3 :b.net 003 bo :This server was created 2024-01-01
3 :b.net 004 bo b.net treeircd-1 i biklmnopstv
3 :b.net 422 bo :MOTD File is missing
> connect b.net h
> say 4 NICK zed
> say 4 USER u 0 * :Zed
4 :b.net 001 zed :Welcome to the Internet Relay Network zed!u@h
4 :b.net 002 zed :Your host is b.net, running version treeircd-1
4 :b.net 003 zed :This server was created 2024-01-01
4 :b.net 004 zed b.net treeircd-1 i biklmnopstv
4 :b.net 422 zed :MOTD File is missing
> say 1 JOIN #y
1 :al!u@h JOIN #y
1 :a.net 353 al = #y :@al
1 :a.net 366 al #y :End of NAMES list
> say 2 JOIN #y
1 :zed!u@h JOIN #y
2 :zed!u@h JOIN #y
2 :a.net 353 zed = #y :@al zed
2 :a.net 366 zed #y :End of NAMES list
> say 2 JOIN #z
2 :zed!u@h JOIN #z
2 :a.net 353 zed = #z :@zed
2 :a.net 366 zed #z :End of NAMES list
> say 3 JOIN #z
3 :bo!u@h JOIN #z
3 :b.net 353 bo = #z :@bo
3 :b.net 366 bo #z :End of NAMES list
> say 4 JOIN #z
3 :zed!u@h JOIN #z
4 :zed!u@h JOIN #z
4 :b.net 353 zed = #z :@bo zed
4 :b.net 366 zed #z :End of NAMES list
> link a.net b.net
> settle
3 :zed!u@h QUIT :Killed (Nick collision)
4 ERROR :Closing link (Killed (Nick collision))
1 :zed!u@h QUIT :Killed (Nick collision)
2 ERROR :Closing link (Killed (Nick collision))
= 13
> say 2 PING x
! 3
> say 4 PING x
! 3
> say 1 JOIN #z
1 :al!u@h JOIN #z
1 :a.net 353 al = #z :al @bo
1 :a.net 366 al #z :End of NAMES list
> settle
3 :al!u@h JOIN #z
= 1
";

#[test]
fn a_nickname_on_both_sides(rt: HostRuntime) {
    assert!(rt; prints_network(rt.alloc(), CLASH));
}

/// The same where one of them is two links away.
const CLASH_BEHIND: &str = "\
> server a.net
> server b.net
> server c.net
> link a.net b.net
> settle
= 4
> connect a.net h
> say 1 NICK zed
> say 1 USER u 0 * :Zed
1 :a.net 001 zed :Welcome to the Internet Relay Network zed!u@h
1 :a.net 002 zed :Your host is a.net, running version treeircd-1
1 :a.net 003 zed :This server was created 2024-01-01
1 :a.net 004 zed a.net treeircd-1 i biklmnopstv
1 :a.net 422 zed :MOTD File is missing
> settle
= 1
> connect c.net h
> say 2 NICK zed
> say 2 USER u 0 * :Zed
2 :c.net 001 zed :Welcome to the Internet Relay Network zed!u@h
2 :c.net 002 zed :Your host is c.net, running version treeircd-1
2 :c.net 003 zed :This server was created 2024-01-01
2 :c.net 004 zed c.net treeircd-1 i biklmnopstv
2 :c.net 422 zed :MOTD File is missing
> link b.net c.net
> settle
2 ERROR :Closing link (Killed (Nick collision))
1 ERROR :Closing link (Killed (Nick collision))
= 11
> say 1 PING x
! 3
> say 2 PING x
! 3
";

#[test]
fn a_nickname_behind_another_server(rt: HostRuntime) {
    assert!(rt; prints_network(rt.alloc(), CLASH_BEHIND));
}

/// Four servers in a line, each with users who share #c on its side, and two nicknames on both: as
/// the two in the middle are linked these four are killed, and of the rest each side sees come what
/// it has not: members with both flags, modes, bans in folded order and in the greater spelling, a
/// topic. Whom a member of #c has invited on its side comes in. Then the link is lost.
const MANY: &str = "\
> server a.net
> server b.net
> server c.net
> server d.net
> link a.net c.net
> settle
= 4
> link b.net d.net
> settle
= 4
> connect a.net h
> say 1 NICK al
> say 1 USER u 0 * :Al
1 :a.net 001 al :Welcome to the Internet Relay Network al!u@h
1 :a.net 002 al :Your host is a.net, running version treeircd-1
1 :a.net 003 al :This server was created 2024-01-01
1 :a.net 004 al a.net treeircd-1 i biklmnopstv
1 :a.net 422 al :MOTD File is missing
> settle
= 1
> connect a.net h
> say 2 NICK zed
> say 2 USER u 0 * :Zed
2 :a.net 001 zed :Welcome to the Internet Relay Network zed!u@h
2 :a.net 002 zed :Your host is a.net, running version treeircd-1
2 :a.net 003 zed :This server was created 2024-01-01
2 :a.net 004 zed a.net treeircd-1 i biklmnopstv
2 :a.net 422 zed :MOTD File is missing
> settle
= 1
> connect c.net h
> say 3 NICK ann
> say 3 USER u 0 * :Ann
3 :c.net 001 ann :Welcome to the Internet Relay Network ann!u@h
3 :c.net 002 ann :Your host is c.net, running version treeircd-1
3 :c.net 003 ann :This server was created 2024-01-01
3 :c.net 004 ann c.net treeircd-1 i biklmnopstv
3 :c.net 422 ann :MOTD File is missing
> settle
= 1
> connect b.net h
> say 4 NICK bo
> say 4 USER u 0 * :Bo
4 :b.net 001 bo :Welcome to the Internet Relay Network bo!u@h
4 :b.net 002 bo :Your host is b.net, running version treeircd-1
4 :b.net 003 bo :This server was created 2024-01-01
4 :b.net 004 bo b.net treeircd-1 i biklmnopstv
4 :b.net 422 bo :MOTD File is missing
> settle
= 1
> connect b.net h
> say 5 NICK ZED
> say 5 USER u 0 * :Zed
5 :b.net 001 ZED :Welcome to the Internet Relay Network ZED!u@h
5 :b.net 002 ZED :Your host is b.net, running version treeircd-1
5 :b.net 003 ZED :This server was created 2024-01-01
5 :b.net 004 ZED b.net treeircd-1 i biklmnopstv
5 :b.net 422 ZED :MOTD File is missing
> settle
= 1
> connect b.net h
> say 6 NICK ann
> say 6 USER u 0 * :Ann
6 :b.net 001 ann :Welcome to the Internet Relay Network ann!u@h
6 :b.net 002 ann :Your host is b.net, running version treeircd-1
6 :b.net 003 ann :This server was created 2024-01-01
6 :b.net 004 ann b.net treeircd-1 i biklmnopstv
6 :b.net 422 ann :MOTD File is missing
> settle
= 1
> connect b.net h
> say 7 NICK ben
> say 7 USER u 0 * :Ben
7 :b.net 001 ben :Welcome to the Internet Relay Network ben!u@h
7 :b.net 002 ben :Your host is b.net, running version treeircd-1
7 :b.net 003 ben :This server was created 2024-01-01
7 :b.net 004 ben b.net treeircd-1 i biklmnopstv
7 :b.net 422 ben :MOTD File is missing
> settle
= 1
> connect c.net h
> say 8 NICK cy
> say 8 USER u 0 * :Cy
8 :c.net 001 cy :Welcome to the Internet Relay Network cy!u@h
8 :c.net 002 cy :Your host is c.net, running version treeircd-1
8 :c.net 003 cy :This server was created 2024-01-01
8 :c.net 004 cy c.net treeircd-1 i biklmnopstv
8 :c.net 422 cy :MOTD File is missing
> settle
= 1
> connect d.net h
> say 9 NICK dee
> say 9 USER u 0 * :Dee
9 :d.net 001 dee :Welcome to the Internet Relay Network dee!u@h
9 :d.net 002 dee :Your host is d.net, running version treeircd-1
9 :d.net 003 dee :This server was created 2024-01-01
9 :d.net 004 dee d.net treeircd-1 i biklmnopstv
9 :d.net 422 dee :MOTD File is missing
> settle
= 1
> say 1 JOIN #c
1 :al!u@h JOIN #c
1 :a.net 353 al = #c :@al
1 :a.net 366 al #c :End of NAMES list
> settle
= 1
> say 2 JOIN #c,#z
1 :zed!u@h JOIN #c
2 :zed!u@h JOIN #c
2 :a.net 353 zed = #c :@al zed
2 :a.net 366 zed #c :End of NAMES list
2 :zed!u@h JOIN #z
2 :a.net 353 zed = #z :@zed
2 :a.net 366 zed #z :End of NAMES list
> settle
= 2
> say 3 JOIN #c
3 :ann!u@h JOIN #c
3 :c.net 353 ann = #c :@al ann zed
3 :c.net 366 ann #c :End of NAMES list
> settle
1 :ann!u@h JOIN #c
2 :ann!u@h JOIN #c
= 1
> say 2 MODE #z +n
2 :zed!u@h MODE #z +n
> settle
= 1
> say 2 TOPIC #z :gone
2 :zed!u@h TOPIC #z :gone
> settle
= 1
> say 1 MODE #c +vikl al aa 9
1 :al!u@h MODE #c +vikl al aa 9
2 :al!u@h MODE #c +vikl al aa 9
> settle
3 :al!u@h MODE #c +vikl al aa 9
= 1
> say 1 MODE #c +bbb x!*@* A!*@* m!*@*
1 :al!u@h MODE #c +bbb x!*@* A!*@* m!*@*
2 :al!u@h MODE #c +bbb x!*@* A!*@* m!*@*
> settle
3 :al!u@h MODE #c +bbb x!*@* A!*@* m!*@*
= 1
> say 1 TOPIC #c :x
1 :al!u@h TOPIC #c :x
2 :al!u@h TOPIC #c :x
> settle
3 :al!u@h TOPIC #c :x
= 1
> say 1 INVITE cy #c
1 :a.net 341 al #c cy
> settle
8 :al!u@h INVITE cy #c
= 1
> say 4 JOIN #c
4 :bo!u@h JOIN #c
4 :b.net 353 bo = #c :@bo
4 :b.net 366 bo #c :End of NAMES list
> settle
= 1
> say 5 JOIN #c
4 :ZED!u@h JOIN #c
5 :ZED!u@h JOIN #c
5 :b.net 353 ZED = #c :@bo ZED
5 :b.net 366 ZED #c :End of NAMES list
> settle
= 1
> say 6 JOIN #c
6 :ann!u@h JOIN #c
4 :ann!u@h JOIN #c
5 :ann!u@h JOIN #c
6 :b.net 353 ann = #c :ann @bo ZED
6 :b.net 366 ann #c :End of NAMES list
> settle
= 1
> say 7 JOIN #c
6 :ben!u@h JOIN #c
7 :ben!u@h JOIN #c
4 :ben!u@h JOIN #c
5 :ben!u@h JOIN #c
7 :b.net 353 ben = #c :ann ben @bo ZED
7 :b.net 366 ben #c :End of NAMES list
> settle
= 1
> say 4 MODE #c +vo bo ben
6 :bo!u@h MODE #c +vo bo ben
7 :bo!u@h MODE #c +vo bo ben
4 :bo!u@h MODE #c +vo bo ben
5 :bo!u@h MODE #c +vo bo ben
> settle
= 1
> say 4 MODE #c +ikl bb 10
6 :bo!u@h MODE #c +ikl bb 10
7 :bo!u@h MODE #c +ikl bb 10
4 :bo!u@h MODE #c +ikl bb 10
5 :bo!u@h MODE #c +ikl bb 10
> settle
= 1
> say 4 MODE #c +bbb w!*@* X!*@* a!*@*
6 :bo!u@h MODE #c +bbb w!*@* X!*@* a!*@*
7 :bo!u@h MODE #c +bbb w!*@* X!*@* a!*@*
4 :bo!u@h MODE #c +bbb w!*@* X!*@* a!*@*
5 :bo!u@h MODE #c +bbb w!*@* X!*@* a!*@*
> settle
= 1
> say 4 TOPIC #c :y
6 :bo!u@h TOPIC #c :y
7 :bo!u@h TOPIC #c :y
4 :bo!u@h TOPIC #c :y
5 :bo!u@h TOPIC #c :y
> settle
= 1
> say 4 INVITE dee #c
4 :b.net 341 bo #c dee
> settle
9 :bo!u@h INVITE dee #c
= 1
> link a.net b.net
> settle
7 :ann!u@h QUIT :Killed (Nick collision)
4 :ann!u@h QUIT :Killed (Nick collision)
5 :ann!u@h QUIT :Killed (Nick collision)
6 ERROR :Closing link (Killed (Nick collision))
7 :ZED!u@h QUIT :Killed (Nick collision)
4 :ZED!u@h QUIT :Killed (Nick collision)
5 ERROR :Closing link (Killed (Nick collision))
7 :al!u@h JOIN #c
4 :al!u@h JOIN #c
7 :b.net MODE #c +o al
4 :b.net MODE #c +o al
7 :b.net MODE #c +v al
4 :b.net MODE #c +v al
7 :b.net MODE #c +bb m!*@* x!*@*
4 :b.net MODE #c +bb m!*@* x!*@*
1 :ann!u@h QUIT :Killed (Nick collision)
2 :ann!u@h QUIT :Killed (Nick collision)
3 ERROR :Closing link (Killed (Nick collision))
1 :zed!u@h QUIT :Killed (Nick collision)
2 ERROR :Closing link (Killed (Nick collision))
1 :ben!u@h JOIN #c
1 :a.net MODE #c +o ben
1 :bo!u@h JOIN #c
1 :a.net MODE #c +o bo
1 :a.net MODE #c +v bo
1 :a.net MODE #c +kl bb 10
1 :a.net MODE #c +bb a!*@* w!*@*
1 :a.net TOPIC #c :y
= 51
> say 1 MODE #c
1 :a.net 324 al #c +ikl bb 10
> say 9 MODE #c b
9 :d.net 367 dee #c a!*@*
9 :d.net 367 dee #c m!*@*
9 :d.net 367 dee #c w!*@*
9 :d.net 367 dee #c x!*@*
9 :d.net 368 dee #c :End of channel ban list
> say 8 JOIN #c bb
8 :cy!u@h JOIN #c
8 :c.net 332 cy #c :y
8 :c.net 353 cy = #c :@al @ben @bo cy
8 :c.net 366 cy #c :End of NAMES list
> settle
1 :cy!u@h JOIN #c
7 :cy!u@h JOIN #c
4 :cy!u@h JOIN #c
= 3
> say 9 JOIN #c bb
9 :dee!u@h JOIN #c
9 :d.net 332 dee #c :y
9 :d.net 353 dee = #c :@al @ben @bo cy dee
9 :d.net 366 dee #c :End of NAMES list
> settle
7 :dee!u@h JOIN #c
4 :dee!u@h JOIN #c
1 :dee!u@h JOIN #c
8 :dee!u@h JOIN #c
= 3
> say 8 WHO #c
8 :c.net 352 cy #c u h a.net al H@ :1 Al
8 :c.net 352 cy #c u h b.net ben H@ :2 Ben
8 :c.net 352 cy #c u h b.net bo H@ :2 Bo
8 :c.net 352 cy #c u h c.net cy H :0 Cy
8 :c.net 352 cy #c u h d.net dee H :3 Dee
8 :c.net 315 cy #c :End of WHO list
> cut b.net a.net
7 :al!u@h QUIT :b.net a.net
4 :al!u@h QUIT :b.net a.net
7 :cy!u@h QUIT :b.net a.net
4 :cy!u@h QUIT :b.net a.net
1 :ben!u@h QUIT :a.net b.net
1 :bo!u@h QUIT :a.net b.net
1 :dee!u@h QUIT :a.net b.net
> settle
8 :ben!u@h QUIT :a.net b.net
8 :bo!u@h QUIT :a.net b.net
8 :dee!u@h QUIT :a.net b.net
9 :al!u@h QUIT :b.net a.net
9 :cy!u@h QUIT :b.net a.net
= 4
> say 8 NAMES #c
8 :c.net 353 cy = #c :@al cy
8 :c.net 366 cy #c :End of NAMES list
> say 9 NAMES #c
9 :d.net 353 dee = #c :@ben @bo dee
9 :d.net 366 dee #c :End of NAMES list
";

#[test]
fn two_sides_meet_and_part(rt: HostRuntime) {
    assert!(rt; prints_network(rt.alloc(), MANY));
}
