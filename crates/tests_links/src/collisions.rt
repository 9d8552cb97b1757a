//! Nicknames that two users would have: both are taken out (RFC 2813 section 4.1.5 and RFC 2812
//! section 3.7.1).
use crate::events::rows_hold;

/// b.net is linked by 7, with bo, zed and gil, and c.net by 8, with cy. al is client 1 and an
/// client 2. All but zed and gil are in #c.
const SCENE: &str = "\
connects 1
says 1 NICK al
says 1 USER u 0 * :Al
connects 2
says 2 NICK an
says 2 USER u 0 * :An
says 1 JOIN #c
says 2 JOIN #c
called 7
hears 7 PASS pw 0210010001 TREE|
hears 7 SERVER b.net 1 1 :B
hears 7 NICK bo 1 u h 1 + :Bo
hears 7 NICK zed 1 u h 1 + :Zed
hears 7 NICK gil 1 u h 1 + :Gil
hears 7 :b.net NJOIN #c :bo
called 8
hears 8 PASS pq 0210010001 TREE|
hears 8 SERVER c.net 1 1 :C
hears 8 NICK cy 1 u h 1 + :Cy
hears 8 :c.net NJOIN #c :cy
connects 3";

/// A user of b.net takes a nickname that another has.
const RENAMES: &str = "\
# Of a client of the server: it is told why, and closed; both KILLs go on every link.
hears 7 :zed NICK al
says 2 ISON al zed
to 2 :al!u@h QUIT :Killed (Nick collision)
to 1 ERROR :Closing link (Killed (Nick collision))
ends 1
on 7 :a.net KILL al :Nick collision
on 8 :a.net KILL al :Nick collision
on 7 :a.net KILL zed :Nick collision
on 8 :a.net KILL zed :Nick collision
to 2 :a.net 303 an :
%
# In folded order, with the nicknames as they are stored.
hears 7 :BO NICK AN
to 1 :an!u@h QUIT :Killed (Nick collision)
to 2 ERROR :Closing link (Killed (Nick collision))
ends 2
on 7 :a.net KILL an :Nick collision
on 8 :a.net KILL an :Nick collision
to 1 :bo!u@h QUIT :Killed (Nick collision)
on 7 :a.net KILL bo :Nick collision
on 8 :a.net KILL bo :Nick collision
%
# Of a user of another server.
hears 7 :bo NICK cy
to 1 :bo!u@h QUIT :Killed (Nick collision)
to 2 :bo!u@h QUIT :Killed (Nick collision)
on 7 :a.net KILL bo :Nick collision
on 8 :a.net KILL bo :Nick collision
to 1 :cy!u@h QUIT :Killed (Nick collision)
to 2 :cy!u@h QUIT :Killed (Nick collision)
on 7 :a.net KILL cy :Nick collision
on 8 :a.net KILL cy :Nick collision
%
# Of a user of the same server.
hears 7 :zed NICK gil
on 7 :a.net KILL gil :Nick collision
on 8 :a.net KILL gil :Nick collision
on 7 :a.net KILL zed :Nick collision
on 8 :a.net KILL zed :Nick collision
%
# One that nobody has, and its own in another spelling.
hears 7 :bo NICK ben
hears 7 :ben NICK BEN
to 1 :bo!u@h NICK ben
to 2 :bo!u@h NICK ben
on 8 :bo NICK ben
to 1 :ben!u@h NICK BEN
to 2 :ben!u@h NICK BEN
on 8 :ben NICK BEN
%
# The nickname that a client has chosen is nobody's until it is registered; then it is taken.
says 3 NICK dd
hears 7 :zed NICK dd
says 3 USER u 0 * :D
on 8 :zed NICK dd
to 3 :a.net 433 * dd :Nickname is already in use
%
# The other side's KILLs find nobody then, and go no further.
hears 7 :zed NICK gil
hears 7 :b.net KILL gil :Nick collision
hears 7 :b.net KILL zed :Nick collision
hears 8 :c.net KILL zed :Nick collision
on 7 :a.net KILL gil :Nick collision
on 8 :a.net KILL gil :Nick collision
on 7 :a.net KILL zed :Nick collision
on 8 :a.net KILL zed :Nick collision";

/// b.net introduces a nickname that somebody has: its user is not taken.
const NEWCOMERS: &str = "\
hears 7 NICK AL 1 x h 1 + :X
says 2 ISON al
to 2 :al!u@h QUIT :Killed (Nick collision)
to 1 ERROR :Closing link (Killed (Nick collision))
ends 1
on 7 :a.net KILL al :Nick collision
on 8 :a.net KILL al :Nick collision
to 2 :a.net 303 an :
%
hears 7 NICK cy 1 x h 1 + :X
to 1 :cy!u@h QUIT :Killed (Nick collision)
to 2 :cy!u@h QUIT :Killed (Nick collision)
on 7 :a.net KILL cy :Nick collision
on 8 :a.net KILL cy :Nick collision
%
hears 7 NICK zed 1 x h 1 + :X
on 7 :a.net KILL zed :Nick collision
on 8 :a.net KILL zed :Nick collision
%
# Its channels come to nothing without it.
hears 7 NICK cy 1 x h 1 + :X
hears 7 :b.net NJOIN #c :cy
to 1 :cy!u@h QUIT :Killed (Nick collision)
to 2 :cy!u@h QUIT :Killed (Nick collision)
on 7 :a.net KILL cy :Nick collision
on 8 :a.net KILL cy :Nick collision
%
# One that a client has chosen, and has not registered under yet.
says 3 NICK dd
hears 7 NICK dd 1 x h 1 + :X
says 3 USER u 0 * :D
on 8 NICK dd 2 x h 2 + :X
to 3 :a.net 433 * dd :Nickname is already in use";

/// b.net has found a collision.
const KILLS: &str = "\
# It keeps its prefix, names the user as it is stored, and does not go back.
hears 7 :b.net KILL AL :Nick collision
to 2 :al!u@h QUIT :Killed (Nick collision)
to 1 ERROR :Closing link (Killed (Nick collision))
ends 1
on 8 :b.net KILL al :Nick collision
%
hears 7 :b.net KILL cy :Nick collision
to 1 :cy!u@h QUIT :Killed (Nick collision)
to 2 :cy!u@h QUIT :Killed (Nick collision)
on 8 :b.net KILL cy :Nick collision
%
hears 7 :b.net KILL zed :Nick collision
on 8 :b.net KILL zed :Nick collision
%
hears 7 :b.net KILL zz :Nick collision
%
# Nobody is who has only chosen a nickname.
says 3 NICK dd
hears 7 :b.net KILL dd :Nick collision";

#[test]
fn a_change_of_nickname_kills_both(rt: HostRuntime) {
    assert!(rt; rows_hold(&rt, rt.alloc(), SCENE, RENAMES));
}

#[test]
fn an_introduction_kills_the_one_who_is_known(rt: HostRuntime) {
    assert!(rt; rows_hold(&rt, rt.alloc(), SCENE, NEWCOMERS));
}

#[test]
fn a_kill_goes_on(rt: HostRuntime) {
    assert!(rt; rows_hold(&rt, rt.alloc(), SCENE, KILLS));
}
