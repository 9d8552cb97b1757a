//! Networks of servers (RFC 2813): what clients of several servers receive of each other, how many
//! lines servers take for it, and what is refused. What is expected is that of the RFC's lines in
//! the wording of docs/PROFILE.md, none of it taken from the program.
//!
//! A settle takes each time the oldest line of the first direction, by the names of its two
//! servers; so what stands between two of its lines follows.
use crate::running::{add_parts, add_text, is_run, prints_network, prints_parts};
use std::alloc::{AllocError, Global};

/// Two servers, al on one and bo on the other. What a client is answered is there at once; what
/// others see comes with the lines that are taken.
const TWO: &str = "\
> server a.net
> server b.net
> link a.net b.net
> settle
= 4
> connect a.net h
> say 1 NICK al
> say 1 USER u 0 * :Al
1 :a.net 001 al :Welcome to the Internet Relay Network al!u@h
1 :a.net 002 al :Your host is a.net, running version treeircd-1
1 :a.net 003 al :This server was created 2024-01-01
1 :a.net 004 al a.net treeircd-1 i biklmnopstv
1 :a.net 422 al :MOTD File is missing
> settle
= 1
> connect b.net h
> say 2 NICK bo
> say 2 USER u 0 * :Bo
2 :b.net 001 bo :Welcome to the Internet Relay Network bo!u@h
2 :b.net 002 bo :Your host is b.net, running version treeircd-1
2 :b.net 003 bo :This server was created 2024-01-01
2 :b.net 004 bo b.net treeircd-1 i biklmnopstv
2 :b.net 422 bo :MOTD File is missing
> settle
= 1
> say 1 JOIN #c
1 :al!u@h JOIN #c
1 :a.net 353 al = #c :@al
1 :a.net 366 al #c :End of NAMES list
> settle
= 1
> say 2 JOIN #c
2 :bo!u@h JOIN #c
2 :b.net 353 bo = #c :@al bo
2 :b.net 366 bo #c :End of NAMES list
> settle
1 :bo!u@h JOIN #c
= 1
";

#[test]
fn who_joins_is_seen_on_another_server(rt: HostRuntime) {
    assert!(rt; prints_network(rt.alloc(), TWO));
}

/// A text is cut so that the line which clients see has 510 bytes, on whichever server they are.
const LONG: &str = "\
> connect a.net h
> say 3 NICK cy
> say 3 USER u 0 * :Cy
3 :a.net 001 cy :Welcome to the Internet Relay Network cy!u@h
3 :a.net 002 cy :Your host is a.net, running version treeircd-1
3 :a.net 003 cy :This server was created 2024-01-01
3 :a.net 004 cy a.net treeircd-1 i biklmnopstv
3 :a.net 422 cy :MOTD File is missing
> settle
= 1
> say 3 JOIN #c
1 :cy!u@h JOIN #c
3 :cy!u@h JOIN #c
3 :a.net 353 cy = #c :@al bo cy
3 :a.net 366 cy #c :End of NAMES list
> settle
2 :cy!u@h JOIN #c
= 1
> say 1 PRIVMSG #c :%%%xxxxxxxxxxxxxxxxxx
3 :al!u@h PRIVMSG #c :%%%xxxxxxxxxx
> settle
2 :al!u@h PRIVMSG #c :%%%xxxxxxxxxx
= 1
";

#[test]
fn a_long_text_is_cut_alike_on_all_servers(rt: HostRuntime) {
    assert!(rt; prints_parts(rt.alloc(), &[TWO, LONG]));
}

/// Three servers in a line, and one client on each.
const THREE: &str = "\
> server a.net
> server b.net
> server c.net
> link a.net b.net
> settle
= 4
> link b.net c.net
> settle
= 6
> connect a.net h
> say 1 NICK al
> say 1 USER u 0 * :Al
1 :a.net 001 al :Welcome to the Internet Relay Network al!u@h
1 :a.net 002 al :Your host is a.net, running version treeircd-1
1 :a.net 003 al :This server was created 2024-01-01
1 :a.net 004 al a.net treeircd-1 i biklmnopstv
1 :a.net 422 al :MOTD File is missing
> settle
= 2
> connect b.net h
> say 2 NICK bo
> say 2 USER u 0 * :Bo
2 :b.net 001 bo :Welcome to the Internet Relay Network bo!u@h
2 :b.net 002 bo :Your host is b.net, running version treeircd-1
2 :b.net 003 bo :This server was created 2024-01-01
2 :b.net 004 bo b.net treeircd-1 i biklmnopstv
2 :b.net 422 bo :MOTD File is missing
> settle
= 2
> connect c.net h
> say 3 NICK cy
> say 3 USER u 0 * :Cy
3 :c.net 001 cy :Welcome to the Internet Relay Network cy!u@h
3 :c.net 002 cy :Your host is c.net, running version treeircd-1
3 :c.net 003 cy :This server was created 2024-01-01
3 :c.net 004 cy c.net treeircd-1 i biklmnopstv
3 :c.net 422 cy :MOTD File is missing
> settle
= 2
";

/// The link between the first two is lost: who was on the other side quits, once, with the near
/// end's name in front. As it is back, each side sees the other's members come, channel by channel.
/// Both sides have the topic, so nobody is told of it, but the middle server passes its line on.
const LOST_AND_BACK: &str = "\
> say 1 JOIN #c
1 :al!u@h JOIN #c
1 :a.net 353 al = #c :@al
1 :a.net 366 al #c :End of NAMES list
> settle
= 2
> say 1 JOIN #d
1 :al!u@h JOIN #d
1 :a.net 353 al = #d :@al
1 :a.net 366 al #d :End of NAMES list
> settle
= 2
> say 1 TOPIC #c :hello
1 :al!u@h TOPIC #c :hello
> settle
= 2
> say 2 JOIN #c
2 :bo!u@h JOIN #c
2 :b.net 332 bo #c :hello
2 :b.net 353 bo = #c :@al bo
2 :b.net 366 bo #c :End of NAMES list
> settle
1 :bo!u@h JOIN #c
= 2
> say 2 JOIN #d
2 :bo!u@h JOIN #d
2 :b.net 353 bo = #d :@al bo
2 :b.net 366 bo #d :End of NAMES list
> settle
1 :bo!u@h JOIN #d
= 2
> say 3 JOIN #c
3 :cy!u@h JOIN #c
3 :c.net 332 cy #c :hello
3 :c.net 353 cy = #c :@al bo cy
3 :c.net 366 cy #c :End of NAMES list
> settle
2 :cy!u@h JOIN #c
1 :cy!u@h JOIN #c
= 2
> say 3 JOIN #d
3 :cy!u@h JOIN #d
3 :c.net 353 cy = #d :@al bo cy
3 :c.net 366 cy #d :End of NAMES list
> settle
2 :cy!u@h JOIN #d
1 :cy!u@h JOIN #d
= 2
> cut a.net b.net
1 :bo!u@h QUIT :a.net b.net
1 :cy!u@h QUIT :a.net b.net
2 :al!u@h QUIT :b.net a.net
> settle
3 :al!u@h QUIT :b.net a.net
= 1
> link a.net b.net
> settle
2 :al!u@h JOIN #c
2 :b.net MODE #c +o al
2 :al!u@h JOIN #d
2 :b.net MODE #d +o al
1 :bo!u@h JOIN #c
1 :cy!u@h JOIN #c
1 :bo!u@h JOIN #d
1 :cy!u@h JOIN #d
3 :al!u@h JOIN #c
3 :c.net MODE #c +o al
3 :al!u@h JOIN #d
3 :c.net MODE #d +o al
= 19
";

#[test]
fn a_link_is_lost_and_is_back(rt: HostRuntime) {
    assert!(rt; prints_parts(rt.alloc(), &[THREE, LOST_AND_BACK]));
}

/// What bo says goes to both neighbours of its server, whichever is first; what al says to cy
/// passes by. A line for one user, or for a channel, goes no further than it has to.
const TREE: &str = "\
> say 1 JOIN #c
1 :al!u@h JOIN #c
1 :a.net 353 al = #c :@al
1 :a.net 366 al #c :End of NAMES list
> settle
= 2
> say 2 JOIN #c
2 :bo!u@h JOIN #c
2 :b.net 353 bo = #c :@al bo
2 :b.net 366 bo #c :End of NAMES list
> settle
1 :bo!u@h JOIN #c
= 2
> say 3 JOIN #c
3 :cy!u@h JOIN #c
3 :c.net 353 cy = #c :@al bo cy
3 :c.net 366 cy #c :End of NAMES list
> settle
2 :cy!u@h JOIN #c
1 :cy!u@h JOIN #c
= 2
> say 2 PRIVMSG #c :hi
> deliver b.net a.net
1 :bo!u@h PRIVMSG #c :hi
= 1
> say 1 PING x
! 1
> deliver b.net c.net
3 :bo!u@h PRIVMSG #c :hi
= 1
> say 1 PING x
1 :a.net PONG a.net :x
> say 2 PRIVMSG #c :hi
> deliver b.net c.net
3 :bo!u@h PRIVMSG #c :hi
= 1
> say 1 PING x
! 1
> deliver b.net a.net
1 :bo!u@h PRIVMSG #c :hi
= 1
> say 1 PING x
1 :a.net PONG a.net :x
> say 1 PRIVMSG cy :yo
> settle
3 :al!u@h PRIVMSG cy :yo
= 2
> link a.net c.net
! 5
> deliver a.net c.net
! 4
> say 1 PRIVMSG bo :hi
> settle
2 :al!u@h PRIVMSG bo :hi
= 1
> say 1 INVITE bo #d
1 :a.net 341 al #d bo
> settle
2 :al!u@h INVITE bo #d
= 1
> say 3 PART #c
3 :cy!u@h PART #c :cy
> settle
2 :cy!u@h PART #c :cy
1 :cy!u@h PART #c :cy
= 2
> say 1 PRIVMSG #c :hi
> settle
2 :al!u@h PRIVMSG #c :hi
= 1
";

#[test]
fn lines_go_along_the_tree(rt: HostRuntime) {
    assert!(rt; prints_parts(rt.alloc(), &[THREE, TREE]));
}

/// What is asked is answered by the asker's server of the whole network: where somebody is, how
/// many links away, how many servers there are.
const ASKING: &str = "\
> say 1 JOIN #c
1 :al!u@h JOIN #c
1 :a.net 353 al = #c :@al
1 :a.net 366 al #c :End of NAMES list
> settle
= 2
> say 3 JOIN #c
3 :cy!u@h JOIN #c
3 :c.net 353 cy = #c :@al cy
3 :c.net 366 cy #c :End of NAMES list
> settle
1 :cy!u@h JOIN #c
= 2
> say 1 LUSERS
1 :a.net 251 al :There are 3 users and 0 services on 3 servers
1 :a.net 254 al 1 :channels formed
1 :a.net 255 al :I have 1 clients and 1 servers
> say 2 LUSERS
2 :b.net 251 bo :There are 3 users and 0 services on 3 servers
2 :b.net 254 bo 1 :channels formed
2 :b.net 255 bo :I have 1 clients and 2 servers
> say 1 WHO #c
1 :a.net 352 al #c u h a.net al H@ :0 Al
1 :a.net 352 al #c u h c.net cy H :2 Cy
1 :a.net 315 al #c :End of WHO list
> say 3 WHO c.*
3 :c.net 352 cy * u h c.net cy H :0 Cy
3 :c.net 315 cy c.* :End of WHO list
> say 1 WHOIS cy
1 :a.net 311 al cy u h * :Cy
1 :a.net 312 al cy c.net :Test server
1 :a.net 319 al cy :#c
1 :a.net 318 al cy :End of WHOIS list
> say 3 PING x
3 :c.net PONG c.net :x
";

#[test]
fn the_whole_network_is_asked(rt: HostRuntime) {
    assert!(rt; prints_parts(rt.alloc(), &[THREE, ASKING]));
}

/// Nicknames of 30 bytes, the most: one is taken on the third server, changed to another, named in
/// a mode and written to. While the link is lost a user of the second server takes it too, so both
/// are killed as it is back.
const LONG_NICKNAMES: &str = "\
> say 1 JOIN #c
1 :al!u@h JOIN #c
1 :a.net 353 al = #c :@al
1 :a.net 366 al #c :End of NAMES list
> settle
= 2
> say 2 JOIN #c
2 :bo!u@h JOIN #c
2 :b.net 353 bo = #c :@al bo
2 :b.net 366 bo #c :End of NAMES list
> settle
1 :bo!u@h JOIN #c
= 2
> say 3 JOIN #c
3 :cy!u@h JOIN #c
3 :c.net 353 cy = #c :@al bo cy
3 :c.net 366 cy #c :End of NAMES list
> settle
2 :cy!u@h JOIN #c
1 :cy!u@h JOIN #c
= 2
> say 3 NICK abcdefghijklmnopqrstuvwxyzabcd
3 :cy!u@h NICK abcdefghijklmnopqrstuvwxyzabcd
> settle
2 :cy!u@h NICK abcdefghijklmnopqrstuvwxyzabcd
1 :cy!u@h NICK abcdefghijklmnopqrstuvwxyzabcd
= 2
> say 3 NICK another-name_of-thirty-bytes-x
3 :abcdefghijklmnopqrstuvwxyzabcd!u@h NICK another-name_of-thirty-bytes-x
> settle
2 :abcdefghijklmnopqrstuvwxyzabcd!u@h NICK another-name_of-thirty-bytes-x
1 :abcdefghijklmnopqrstuvwxyzabcd!u@h NICK another-name_of-thirty-bytes-x
= 2
> say 1 MODE #c +o another-name_of-thirty-bytes-x
1 :al!u@h MODE #c +o another-name_of-thirty-bytes-x
> settle
2 :al!u@h MODE #c +o another-name_of-thirty-bytes-x
3 :al!u@h MODE #c +o another-name_of-thirty-bytes-x
= 2
> say 1 PRIVMSG another-name_of-thirty-bytes-x :hello
> settle
3 :al!u@h PRIVMSG another-name_of-thirty-bytes-x :hello
= 2
> cut b.net c.net
2 :another-name_of-thirty-bytes-x!u@h QUIT :b.net c.net
3 :al!u@h QUIT :c.net b.net
3 :bo!u@h QUIT :c.net b.net
> settle
1 :another-name_of-thirty-bytes-x!u@h QUIT :b.net c.net
= 1
> say 2 NICK another-name_of-thirty-bytes-x
2 :bo!u@h NICK another-name_of-thirty-bytes-x
> settle
1 :bo!u@h NICK another-name_of-thirty-bytes-x
= 1
> link b.net c.net
> settle
3 ERROR :Closing link (Killed (Nick collision))
2 ERROR :Closing link (Killed (Nick collision))
1 :another-name_of-thirty-bytes-x!u@h QUIT :Killed (Nick collision)
= 14
> say 2 PING x
! 3
> say 3 PING x
! 3
> say 1 NAMES #c
1 :a.net 353 al = #c :@al
1 :a.net 366 al #c :End of NAMES list
";

#[test]
fn the_longest_nicknames_go_across_servers(rt: HostRuntime) {
    assert!(rt; prints_parts(rt.alloc(), &[THREE, LONG_NICKNAMES]));
}

/// A channel is told in five lines: its member, its modes, its bans, three at most in a line, and
/// its topic.
const BURST: &str = "\
> server a.net
> server b.net
> connect a.net h
> say 1 NICK al
> say 1 USER u 0 * :Al
1 :a.net 001 al :Welcome to the Internet Relay Network al!u@h
1 :a.net 002 al :Your host is a.net, running version treeircd-1
1 :a.net 003 al :This server was created 2024-01-01
1 :a.net 004 al a.net treeircd-1 i biklmnopstv
1 :a.net 422 al :MOTD File is missing
> connect b.net h
> say 2 NICK bo
> say 2 USER u 0 * :Bo
2 :b.net 001 bo :Welcome to the Internet Relay Network bo!u@h
2 :b.net 002 bo :Your host is b.net, running version treeircd-1
2 :b.net 003 bo :This server was created 2024-01-01
2 :b.net 004 bo b.net treeircd-1 i biklmnopstv
2 :b.net 422 bo :MOTD File is missing
> say 1 JOIN #m
1 :al!u@h JOIN #m
1 :a.net 353 al = #m :@al
1 :a.net 366 al #m :End of NAMES list
> say 1 MODE #m +ntl 5
1 :al!u@h MODE #m +ntl 5
> say 1 MODE #m +bbb a!*@* b!*@* c!*@*
1 :al!u@h MODE #m +bbb a!*@* b!*@* c!*@*
> say 1 MODE #m +b d!*@*
1 :al!u@h MODE #m +b d!*@*
> say 1 TOPIC #m :hello
1 :al!u@h TOPIC #m :hello
> link a.net b.net
> settle
= 11
> say 2 MODE #m
2 :b.net 324 bo #m +ntl 5
> say 2 TOPIC #m
2 :b.net 332 bo #m :hello
> say 2 MODE #m b
2 :b.net 367 bo #m a!*@*
2 :b.net 367 bo #m b!*@*
2 :b.net 367 bo #m c!*@*
2 :b.net 367 bo #m d!*@*
2 :b.net 368 bo #m :End of channel ban list
";

#[test]
fn modes_bans_and_topic_are_told(rt: HostRuntime) {
    assert!(rt; prints_network(rt.alloc(), BURST));
}

/// Names of no server, links that are there, that are not, or that would be two ways; and what is
/// given while a line is on its way. A topic of its own on each side is no cause.
/// What is refused changes nothing, and a client that is refused has no number.
const REFUSALS: &str = "\
> server a.net
> server b.net
> server c.net
> connect x.net h
! 2
> link a.net x.net
! 2
> deliver a.net x.net
! 2
> deliver x.net a.net
! 2
> cut a.net x.net
! 2
> deliver a.net b.net
! 4
> cut a.net b.net
! 4
> connect a.net h
> say 1 NICK al
> say 1 USER u 0 * :Al
1 :a.net 001 al :Welcome to the Internet Relay Network al!u@h
1 :a.net 002 al :Your host is a.net, running version treeircd-1
1 :a.net 003 al :This server was created 2024-01-01
1 :a.net 004 al a.net treeircd-1 i biklmnopstv
1 :a.net 422 al :MOTD File is missing
> connect b.net h
> say 2 NICK bo
> say 2 USER u 0 * :Bo
2 :b.net 001 bo :Welcome to the Internet Relay Network bo!u@h
2 :b.net 002 bo :Your host is b.net, running version treeircd-1
2 :b.net 003 bo :This server was created 2024-01-01
2 :b.net 004 bo b.net treeircd-1 i biklmnopstv
2 :b.net 422 bo :MOTD File is missing
> say 1 JOIN #c
1 :al!u@h JOIN #c
1 :a.net 353 al = #c :@al
1 :a.net 366 al #c :End of NAMES list
> say 1 TOPIC #c :hello
1 :al!u@h TOPIC #c :hello
> say 2 JOIN #c
2 :bo!u@h JOIN #c
2 :b.net 353 bo = #c :@bo
2 :b.net 366 bo #c :End of NAMES list
> say 2 TOPIC #c :goodbye
2 :bo!u@h TOPIC #c :goodbye
> link a.net a.net
! 5
> link a.net b.net
> say 2 PING x
! 1
> say 9 PING x
! 1
> connect a.net h
! 1
> gone 1
! 1
> cut a.net b.net
! 1
> link b.net c.net
! 1
> settle
2 :al!u@h JOIN #c
2 :b.net MODE #c +o al
2 :b.net TOPIC #c :hello
1 :bo!u@h JOIN #c
1 :a.net MODE #c +o bo
= 10
> say 2 PING x
2 :b.net PONG b.net :x
> link a.net b.net
! 5
> link b.net a.net
! 5
> cut a.net c.net
! 4
> cut b.net c.net
! 4
> deliver a.net c.net
! 4
> deliver a.net b.net
= 0
> settle
= 0
> connect c.net h
> say 3 PING x
3 :c.net PONG c.net :x
";

#[test]
fn what_a_network_refuses(rt: HostRuntime) {
    assert!(rt; prints_network(rt.alloc(), REFUSALS));
}

/// al and an on one server, bo and cy on another; al and bo have each made #c. The servers are
/// linked, and nothing has come.
pub const LINKED: &str = "\
> server a.net
> server b.net
> connect a.net h
> say 1 NICK al
> say 1 USER u 0 * :Al
1 :a.net 001 al :Welcome to the Internet Relay Network al!u@h
1 :a.net 002 al :Your host is a.net, running version treeircd-1
1 :a.net 003 al :This server was created 2024-01-01
1 :a.net 004 al a.net treeircd-1 i biklmnopstv
1 :a.net 422 al :MOTD File is missing
> connect a.net h
> say 2 NICK an
> say 2 USER u 0 * :An
2 :a.net 001 an :Welcome to the Internet Relay Network an!u@h
2 :a.net 002 an :Your host is a.net, running version treeircd-1
2 :a.net 003 an :This server was created 2024-01-01
2 :a.net 004 an a.net treeircd-1 i biklmnopstv
2 :a.net 422 an :MOTD File is missing
> connect b.net h
> say 3 NICK bo
> say 3 USER u 0 * :Bo
3 :b.net 001 bo :Welcome to the Internet Relay Network bo!u@h
3 :b.net 002 bo :Your host is b.net, running version treeircd-1
3 :b.net 003 bo :This server was created 2024-01-01
3 :b.net 004 bo b.net treeircd-1 i biklmnopstv
3 :b.net 422 bo :MOTD File is missing
> connect b.net h
> say 4 NICK cy
> say 4 USER u 0 * :Cy
4 :b.net 001 cy :Welcome to the Internet Relay Network cy!u@h
4 :b.net 002 cy :Your host is b.net, running version treeircd-1
4 :b.net 003 cy :This server was created 2024-01-01
4 :b.net 004 cy b.net treeircd-1 i biklmnopstv
4 :b.net 422 cy :MOTD File is missing
> say 1 JOIN #c
1 :al!u@h JOIN #c
1 :a.net 353 al = #c :@al
1 :a.net 366 al #c :End of NAMES list
> say 3 JOIN #c
3 :bo!u@h JOIN #c
3 :b.net 353 bo = #c :@bo
3 :b.net 366 bo #c :End of NAMES list
> link a.net b.net
";

/// Both have named themselves, and three lines of each are on their way.
const NAMED: &str = "\
> deliver a.net b.net
= 1
> deliver a.net b.net
= 1
> deliver b.net a.net
= 1
> deliver b.net a.net
= 1
";

/// Those to b.net, and to a.net: of two users, and of a channel.
static TO_B: [&str; 3] = [USER_TO_B, USER_TO_B, CHANNEL_TO_B];

static TO_A: [&str; 3] = [USER_TO_A, USER_TO_A, CHANNEL_TO_A];

const USER_TO_B: &str = "\
> deliver a.net b.net
= 1
";

const CHANNEL_TO_B: &str = "\
> deliver a.net b.net
3 :al!u@h JOIN #c
3 :b.net MODE #c +o al
= 1
";

const USER_TO_A: &str = "\
> deliver b.net a.net
= 1
";

const CHANNEL_TO_A: &str = "\
> deliver b.net a.net
1 :bo!u@h JOIN #c
1 :a.net MODE #c +o bo
= 1
";

/// None is left.
const ARRIVED: &str = "\
> settle
= 0
> say 2 PING x
2 :a.net PONG a.net :x
";

/// All orders in which they can be taken, by the server that takes each.
static ORDERS: [&str; 20] = [
    "aaabbb", "aababb", "aabbab", "aabbba", "abaabb", "ababab", "ababba", "abbaab", "abbaba",
    "abbbaa", "baaabb", "baabab", "baabba", "babaab", "bababa", "babbaa", "bbaaab", "bbaaba",
    "bbabaa", "bbbaaa",
];

/// Appends the deliveries of an order to a script, and what is printed of them: those to a.net, and
/// to b.net.
pub fn add_deliveries(
    order: &str,
    deliveries: [&[&str]; 2],
    script: &mut Vec<u8>,
    printed: &mut Vec<u8>,
) -> Result<(), AllocError> {
    let mut to_a = deliveries[0].iter();
    let mut to_b = deliveries[1].iter();
    for server in order.as_bytes() {
        let next = if *server == b'b' {
            to_b.next()
        } else {
            to_a.next()
        };
        add_text(next.unwrap_or(&""), script, printed)?;
    }
    Ok(())
}

/// Whether just this is printed where the lines are taken in an order.
fn arrives(alloc: Global, order: &str) -> bool {
    let mut script = Vec::new(alloc);
    let mut printed = Vec::new(alloc);
    let mut output = Vec::new(alloc);
    add_parts(&[LINKED, NAMED], &mut script, &mut printed).is_ok()
        && add_deliveries(order, [&TO_A, &TO_B], &mut script, &mut printed).is_ok()
        && add_text(ARRIVED, &mut script, &mut printed).is_ok()
        && is_run(alloc, &script, usize::MAX, &mut output)
        && output == printed
}

fn arrives_in_each_order(alloc: Global) -> bool {
    for order in &ORDERS {
        if !arrives(alloc, order) {
            return false;
        }
    }
    true
}

#[test]
fn bursts_cross_in_each_order(rt: HostRuntime) {
    assert!(rt; arrives_in_each_order(rt.alloc()));
}
