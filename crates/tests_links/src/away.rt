//! Who is away (RFC 2812 section 4.1), and what else programs expect (sections 4.8 and 3.6.3): of a
//! server that has it, of one that has it not and tells it on, and of one whose links tell nobody.
use crate::events::{rows_hold, rows_hold_serving};
use irc_routes::Programs;

/// b.net is linked by 7, with bo and zed, and c.net by 8, with cy. al is client 1 and an client 2.
/// al, an and bo are in #c.
const SCENE: &str = "\
connects 1
says 1 NICK al
says 1 USER u 0 * :Al
connects 2
says 2 NICK an
says 2 USER u 0 * :An
says 1 JOIN #c
says 2 JOIN #c
called 7
hears 7 PASS pw 0210010001 TREE|
hears 7 SERVER b.net 1 1 :B
hears 7 NICK bo 1 u h 1 + :Bo
hears 7 NICK zed 1 u h 1 + :Zed
hears 7 :b.net NJOIN #c :bo
called 8
hears 8 PASS pq 0210010001 TREE|
hears 8 SERVER c.net 1 1 :C
hears 8 NICK cy 1 u h 1 + :Cy";

/// What a user says of itself.
const SET: &str = "\
says 1 AWAY :at lunch
to 1 :a.net 306 al :You have been marked as being away
on 7 :al MODE al +a :at lunch
on 8 :al MODE al +a :at lunch
# The same text is told to nobody again.
says 1 AWAY :at lunch
to 1 :a.net 306 al :You have been marked as being away
says 1 away tea
to 1 :a.net 306 al :You have been marked as being away
on 7 :al MODE al +a :tea
on 8 :al MODE al +a :tea
says 1 AWAY :
to 1 :a.net 305 al :You are no longer marked as being away
on 7 :al MODE al -a
on 8 :al MODE al -a
says 1 AWAY
to 1 :a.net 305 al :You are no longer marked as being away";

/// Who is told of it.
const TOLD: &str = "\
says 1 AWAY :at lunch
to 1 :a.net 306 al :You have been marked as being away
on 7 :al MODE al +a :at lunch
on 8 :al MODE al +a :at lunch
says 2 PRIVMSG AL :hi
to 1 :an!u@h PRIVMSG al :hi
to 2 :a.net 301 an al :at lunch
says 2 PRIVMSG al,al :hi
to 1 :an!u@h PRIVMSG al :hi
to 2 :a.net 301 an al :at lunch
to 1 :an!u@h PRIVMSG al :hi
to 2 :a.net 301 an al :at lunch
says 2 NOTICE al :hi
to 1 :an!u@h NOTICE al :hi
says 2 PRIVMSG #c :hi
to 1 :an!u@h PRIVMSG #c :hi
on 7 :an PRIVMSG #c :hi
says 2 WHOIS al
to 2 :a.net 311 an al u h * :Al
to 2 :a.net 312 an al a.net :A
to 2 :a.net 301 an al :at lunch
to 2 :a.net 319 an al :@#c
to 2 :a.net 318 an al :End of WHOIS list
says 2 WHO #c
to 2 :a.net 352 an #c u h a.net al G@ :0 Al
to 2 :a.net 352 an #c u h a.net an H :0 An
to 2 :a.net 352 an #c u h b.net bo H :1 Bo
to 2 :a.net 315 an #c :End of WHO list
# A text by a link is no text of a client of the server.
hears 7 :bo PRIVMSG al :hi
to 1 :bo!u@h PRIVMSG al :hi
# It goes with its user, whatever the next is called.
says 1 QUIT :bye
to 2 :al!u@h QUIT :bye
on 7 :al QUIT :bye
on 8 :al QUIT :bye
to 1 ERROR :Closing link (bye)
ends 1
connects 3
says 3 NICK al
says 3 USER u 0 * :Al
on 7 NICK al 1 u h 1 + :Al
on 8 NICK al 1 u h 1 + :Al
to 3 :a.net 001 al :Welcome to the Internet Relay Network al!u@h
to 3 :a.net 002 al :Your host is a.net, running version treeircd-1
to 3 :a.net 003 al :This server was created 2024-01-01
to 3 :a.net 004 al a.net treeircd-1 i biklmnopstv
to 3 :a.net 422 al :MOTD File is missing
says 2 WHO al
to 2 :a.net 352 an * u h a.net al H :0 Al
to 2 :a.net 315 an al :End of WHO list";

/// Whom another server tells of.
const FAR: &str = "\
hears 7 :bo MODE bo +a :gone home
on 8 :bo MODE bo +a :gone home
says 1 PRIVMSG bo :hi
on 7 :al PRIVMSG bo :hi
to 1 :a.net 301 al bo :gone home
says 1 WHOIS bo
to 1 :a.net 311 al bo u h * :Bo
to 1 :a.net 312 al bo b.net :B
to 1 :a.net 301 al bo :gone home
to 1 :a.net 319 al bo :#c
to 1 :a.net 318 al bo :End of WHOIS list
says 1 USERHOST BO al nobody an
to 1 :a.net 302 al :bo=-u@h al=+u@h an=+u@h
hears 7 :bo MODE bo -a
on 8 :bo MODE bo -a
says 1 PRIVMSG bo :hi
on 7 :al PRIVMSG bo :hi
%
# Nothing is done where the user is not there, or is another's.
hears 7 :zz MODE zz +a :gone home
hears 7 :zed MODE zed +a :asleep
on 8 :zed MODE zed +a :asleep
# Both that have one nickname are taken out, with what they have set.
hears 8 :cy MODE cy +a :out
on 7 :cy MODE cy +a :out
hears 8 :cy NICK zed
on 7 :a.net KILL cy :Nick collision
on 8 :a.net KILL cy :Nick collision
on 7 :a.net KILL zed :Nick collision
on 8 :a.net KILL zed :Nick collision
hears 7 NICK zed 1 u h 1 + :Zed
on 8 NICK zed 2 u h 2 + :Zed
says 1 PRIVMSG zed :hi
on 7 :al PRIVMSG zed :hi";

/// A new neighbour is told of who is away behind who is there.
const BURST: &str = "\
says 1 AWAY :at lunch
to 1 :a.net 306 al :You have been marked as being away
on 7 :al MODE al +a :at lunch
on 8 :al MODE al +a :at lunch
hears 7 :bo MODE bo +a :gone home
on 8 :bo MODE bo +a :gone home
called 9
hears 9 PASS pd 0210010001 TREE|
hears 9 SERVER d.net 1 1 :D
on 9 PASS pd 0210010001 TREE|
on 9 SERVER a.net 1 1 :A
on 9 :a.net SERVER b.net 2 2 :B
on 9 :a.net SERVER c.net 2 3 :C
on 9 NICK al 1 u h 1 + :Al
on 9 NICK an 1 u h 1 + :An
on 9 NICK bo 2 u h 2 + :Bo
on 9 NICK cy 2 u h 3 + :Cy
on 9 NICK zed 2 u h 2 + :Zed
on 9 :al MODE al +a :at lunch
on 9 :bo MODE bo +a :gone home
on 9 :a.net NJOIN #c :@al,an,bo
on 7 :a.net SERVER d.net 2 4 :D
on 8 :a.net SERVER d.net 2 4 :D
# So it tells of its own, and what a user of it has set is shown.
hears 9 NICK di 1 u h 1 + :Di
on 7 NICK di 2 u h 4 + :Di
on 8 NICK di 2 u h 4 + :Di
hears 9 :di MODE di +a :soon
on 7 :di MODE di +a :soon
on 8 :di MODE di +a :soon
says 1 PRIVMSG di :hi
on 9 :al PRIVMSG di :hi
to 1 :a.net 301 al di :soon";

/// What is asked of who is there, and of who was.
const ASKED: &str = "\
says 1 USERHOST
to 1 :a.net 461 al USERHOST :Not enough parameters
says 1 USERHOST nobody
to 1 :a.net 302 al :
says 1 USERHOST al an bo cy zed AL
to 1 :a.net 302 al :al=+u@h an=+u@h bo=+u@h cy=+u@h zed=+u@h
says 1 USERHOST x1 x2 x3 x4 x5 al
to 1 :a.net 302 al :
says 1 WHOWAS an 3
to 1 :a.net 406 al an :There was no such nickname
to 1 :a.net 369 al an :End of WHOWAS
says 1 WHOWAS
to 1 :a.net 431 al :No nickname given";

/// A server without what programs expect tells it on, and its clients nothing.
const TOLD_ON: &str = "\
says 1 AWAY :at lunch
to 1 :a.net 421 al AWAY :Unknown command
says 1 USERHOST al
to 1 :a.net 421 al USERHOST :Unknown command
says 1 WHOWAS al
to 1 :a.net 421 al WHOWAS :Unknown command
hears 7 :bo MODE bo +a :gone home
on 8 :bo MODE bo +a :gone home
says 1 PRIVMSG bo :hi
on 7 :al PRIVMSG bo :hi
says 1 WHOIS bo
to 1 :a.net 311 al bo u h * :Bo
to 1 :a.net 312 al bo b.net :B
to 1 :a.net 319 al bo :#c
to 1 :a.net 318 al bo :End of WHOIS list
says 1 WHO bo
to 1 :a.net 352 al * u h b.net bo H :1 Bo
to 1 :a.net 315 al bo :End of WHO list
hears 7 :bo MODE bo -a
on 8 :bo MODE bo -a";

/// Nobody is in a channel with bo.
const ALONE: &str = "\
connects 1
says 1 NICK al
says 1 USER u 0 * :Al
called 7
hears 7 PASS pw 0210010001 TREE|
hears 7 SERVER b.net 1 1 :B
hears 7 NICK bo 1 u h 1 + :Bo";

/// No such line is one where links do not tell it, nor one that is not as it has to be.
const REFUSED: &str = "\
hears 7 :bo MODE bo +a :gone home
closes 7 parameters
%
hears 7 :bo MODE bo -a
closes 7 parameters
%
hears 7 :bo MODE bo +a
closes 7 parameters
%
says 1 AWAY :at lunch
to 1 :a.net 421 al AWAY :Unknown command";

const MALFORMED: &str = "\
hears 7 :bo MODE bo +a
closes 7 parameters
%
hears 7 :bo MODE bo +a :
closes 7 parameters
%
hears 7 :bo MODE bo -a :gone home
closes 7 parameters
%
# 161 bytes
hears 7 :bo MODE bo +a :0123456789012345678901234567890123456789012345678901234567890123456789\
0123456789012345678901234567890123456789012345678901234567890123456789012345678901234567890
closes 7 parameters
%
hears 7 :bo MODE al +a :gone home
closes 7 parameters
%
hears 7 :al MODE al +a :gone home
closes 7 direction";

#[test]
fn a_user_says_that_it_is_away(rt: HostRuntime) {
    assert!(rt; rows_hold_serving(&rt, rt.alloc(), Programs::On, SCENE, SET));
}

#[test]
fn who_asks_or_writes_is_told(rt: HostRuntime) {
    assert!(rt; rows_hold_serving(&rt, rt.alloc(), Programs::On, SCENE, TOLD));
}

#[test]
fn another_server_tells_who_is_away(rt: HostRuntime) {
    assert!(rt; rows_hold_serving(&rt, rt.alloc(), Programs::On, SCENE, FAR));
}

#[test]
fn a_burst_tells_who_is_away(rt: HostRuntime) {
    assert!(rt; rows_hold_serving(&rt, rt.alloc(), Programs::On, SCENE, BURST));
}

#[test]
fn a_userhost_and_a_whowas_are_answered(rt: HostRuntime) {
    assert!(rt; rows_hold_serving(&rt, rt.alloc(), Programs::On, SCENE, ASKED));
}

#[test]
fn a_server_without_programs_tells_it_on(rt: HostRuntime) {
    assert!(rt; rows_hold_serving(&rt, rt.alloc(), Programs::Off, SCENE, TOLD_ON));
}

#[test]
fn where_links_do_not_tell_it_no_line_does(rt: HostRuntime) {
    assert!(rt; rows_hold(&rt, rt.alloc(), ALONE, REFUSED));
}

#[test]
fn a_line_that_tells_it_badly_closes_its_link(rt: HostRuntime) {
    assert!(rt; rows_hold_serving(&rt, rt.alloc(), Programs::Off, ALONE, MALFORMED));
}
