//! The links by which a line goes on: along the tree, toward those whom it is for, and never back
//! (RFC 2813 section 5).
use crate::events::rows_hold;

/// b.net is linked by 7, with bo and ben, c.net by 8, with cy and cas, and d.net by 9, with dee.
/// al, client 1, is the operator of #c; an, client 2, and all of b.net and c.net are in it. A link
/// 6 is not up yet.
const SCENE: &str = "\
connects 1
says 1 NICK al
says 1 USER u 0 * :Al
connects 2
says 2 NICK an
says 2 USER u 0 * :An
says 1 JOIN #c
says 2 JOIN #c
called 7
hears 7 PASS pw 0210010001 TREE|
hears 7 SERVER b.net 1 1 :B
hears 7 NICK bo 1 u h 1 + :Bo
hears 7 NICK ben 1 u h 1 + :Ben
hears 7 :b.net NJOIN #c :bo,ben
called 8
hears 8 PASS pq 0210010001 TREE|
hears 8 SERVER c.net 1 1 :C
hears 8 NICK cy 1 u h 1 + :Cy
hears 8 NICK cas 1 u h 1 + :Cas
hears 8 :c.net NJOIN #c :cas,cy
called 9
hears 9 PASS pd 0210010001 TREE|
hears 9 SERVER d.net 1 1 :D
hears 9 NICK dee 1 u h 1 + :Dee
connects 3
called 6";

/// What is said.
const TEXTS: &str = "\
# On each link behind which a member is, once.
says 1 PRIVMSG #C :hi
to 2 :al!u@h PRIVMSG #c :hi
on 7 :al PRIVMSG #c :hi
on 8 :al PRIVMSG #c :hi
%
says 2 NOTICE #c :hi
to 1 :an!u@h NOTICE #c :hi
on 7 :an NOTICE #c :hi
on 8 :an NOTICE #c :hi
%
# Never back.
hears 7 :bo PRIVMSG #c :hi
to 1 :bo!u@h PRIVMSG #c :hi
to 2 :bo!u@h PRIVMSG #c :hi
on 8 :bo PRIVMSG #c :hi
%
# Also from one who is no member.
hears 9 :dee NOTICE #c :hi
to 1 :dee!u@h NOTICE #c :hi
to 2 :dee!u@h NOTICE #c :hi
on 7 :dee NOTICE #c :hi
on 8 :dee NOTICE #c :hi
%
# Once the last member behind a link has left, no more by that one; once one is there, by that one
# too.
hears 8 :cy PART #c :x
says 1 PRIVMSG #c :one
hears 8 :cas QUIT :x
says 1 PRIVMSG #c :two
hears 9 :dee JOIN #c
says 1 PRIVMSG #c :three
to 1 :cy!u@h PART #c :x
to 2 :cy!u@h PART #c :x
on 7 :cy PART #c :x
on 9 :cy PART #c :x
to 2 :al!u@h PRIVMSG #c :one
on 7 :al PRIVMSG #c :one
on 8 :al PRIVMSG #c :one
to 1 :cas!u@h QUIT :x
to 2 :cas!u@h QUIT :x
on 7 :cas QUIT :x
on 9 :cas QUIT :x
to 2 :al!u@h PRIVMSG #c :two
on 7 :al PRIVMSG #c :two
to 1 :dee!u@h JOIN #c
to 2 :dee!u@h JOIN #c
on 7 :dee JOIN #c
on 8 :dee JOIN #c
to 2 :al!u@h PRIVMSG #c :three
on 7 :al PRIVMSG #c :three
on 9 :al PRIVMSG #c :three
%
# To one user: by the link toward its server alone, or not by a link.
says 1 PRIVMSG dee :hi
on 9 :al PRIVMSG dee :hi
%
hears 7 :bo PRIVMSG dee :hi
on 9 :bo PRIVMSG dee :hi
%
hears 7 :bo NOTICE al :hi
to 1 :bo!u@h NOTICE al :hi
%
# Names as they are stored, the command in any case.
hears 7 :BO privmsg #C :Hi
to 1 :bo!u@h PRIVMSG #c :Hi
to 2 :bo!u@h PRIVMSG #c :Hi
on 8 :bo PRIVMSG #c :Hi
%
# Whether somebody may speak in a channel is for its own server to say.
says 1 MODE #c +nmb *!*@*
says 2 PRIVMSG #c :hi
hears 9 :dee PRIVMSG #c :hi
to 1 :al!u@h MODE #c +nmb *!*@*
to 2 :al!u@h MODE #c +nmb *!*@*
on 7 :al MODE #c +nmb *!*@*
on 8 :al MODE #c +nmb *!*@*
on 9 :al MODE #c +nmb *!*@*
to 2 :a.net 404 an #c :Cannot send to channel
to 1 :dee!u@h PRIVMSG #c :hi
to 2 :dee!u@h PRIVMSG #c :hi
on 7 :dee PRIVMSG #c :hi
on 8 :dee PRIVMSG #c :hi
%
# A text is cut by the server of its sender, so that all clients are shown the same: 498 bytes
# come, and 490 are left.
says 1 PRIVMSG #c :xxxxxxxxxxxxxxxxxxxxxxxxxxxxxxxxxxxxxxxxxxxxxxxxxxxxxxxxxxxxxxxxxxxxxxxxxxxxx\
xxxxxxxxxxxxxxxxxxxxxxxxxxxxxxxxxxxxxxxxxxxxxxxxxxxxxxxxxxxxxxxxxxxxxxxxxxxxxxxxxxxxxxxxxxxxxxxx\
xxxxxxxxxxxxxxxxxxxxxxxxxxxxxxxxxxxxxxxxxxxxxxxxxxxxxxxxxxxxxxxxxxxxxxxxxxxxxxxxxxxxxxxxxxxxxxxx\
xxxxxxxxxxxxxxxxxxxxxxxxxxxxxxxxxxxxxxxxxxxxxxxxxxxxxxxxxxxxxxxxxxxxxxxxxxxxxxxxxxxxxxxxxxxxxxxx\
xxxxxxxxxxxxxxxxxxxxxxxxxxxxxxxxxxxxxxxxxxxxxxxxxxxxxxxxxxxxxxxxxxxxxxxxxxxxxxxxxxxxxxxxxxxxxxxx\
xxxxxxxxxxxxxxxxxxxxxxxxxxxxxxxxxxxxx
to 2 :al!u@h PRIVMSG #c :xxxxxxxxxxxxxxxxxxxxxxxxxxxxxxxxxxxxxxxxxxxxxxxxxxxxxxxxxxxxxxxxxxxxxxx\
xxxxxxxxxxxxxxxxxxxxxxxxxxxxxxxxxxxxxxxxxxxxxxxxxxxxxxxxxxxxxxxxxxxxxxxxxxxxxxxxxxxxxxxxxxxxxxxx\
xxxxxxxxxxxxxxxxxxxxxxxxxxxxxxxxxxxxxxxxxxxxxxxxxxxxxxxxxxxxxxxxxxxxxxxxxxxxxxxxxxxxxxxxxxxxxxxx\
xxxxxxxxxxxxxxxxxxxxxxxxxxxxxxxxxxxxxxxxxxxxxxxxxxxxxxxxxxxxxxxxxxxxxxxxxxxxxxxxxxxxxxxxxxxxxxxx\
xxxxxxxxxxxxxxxxxxxxxxxxxxxxxxxxxxxxxxxxxxxxxxxxxxxxxxxxxxxxxxxxxxxxxxxxxxxxxxxxxxxxxxxxxxxxxxxx\
xxxxxxxxxxxxxxxxxxxxxxxxxxxxxxxxxxx
on 7 :al PRIVMSG #c :xxxxxxxxxxxxxxxxxxxxxxxxxxxxxxxxxxxxxxxxxxxxxxxxxxxxxxxxxxxxxxxxxxxxxxxxxxx\
xxxxxxxxxxxxxxxxxxxxxxxxxxxxxxxxxxxxxxxxxxxxxxxxxxxxxxxxxxxxxxxxxxxxxxxxxxxxxxxxxxxxxxxxxxxxxxxx\
xxxxxxxxxxxxxxxxxxxxxxxxxxxxxxxxxxxxxxxxxxxxxxxxxxxxxxxxxxxxxxxxxxxxxxxxxxxxxxxxxxxxxxxxxxxxxxxx\
xxxxxxxxxxxxxxxxxxxxxxxxxxxxxxxxxxxxxxxxxxxxxxxxxxxxxxxxxxxxxxxxxxxxxxxxxxxxxxxxxxxxxxxxxxxxxxxx\
xxxxxxxxxxxxxxxxxxxxxxxxxxxxxxxxxxxxxxxxxxxxxxxxxxxxxxxxxxxxxxxxxxxxxxxxxxxxxxxxxxxxxxxxxxxxxxxx\
xxxxxxxxxxxxxxxxxxxxxxxxxxxxxxx
on 8 :al PRIVMSG #c :xxxxxxxxxxxxxxxxxxxxxxxxxxxxxxxxxxxxxxxxxxxxxxxxxxxxxxxxxxxxxxxxxxxxxxxxxxx\
xxxxxxxxxxxxxxxxxxxxxxxxxxxxxxxxxxxxxxxxxxxxxxxxxxxxxxxxxxxxxxxxxxxxxxxxxxxxxxxxxxxxxxxxxxxxxxxx\
xxxxxxxxxxxxxxxxxxxxxxxxxxxxxxxxxxxxxxxxxxxxxxxxxxxxxxxxxxxxxxxxxxxxxxxxxxxxxxxxxxxxxxxxxxxxxxxx\
xxxxxxxxxxxxxxxxxxxxxxxxxxxxxxxxxxxxxxxxxxxxxxxxxxxxxxxxxxxxxxxxxxxxxxxxxxxxxxxxxxxxxxxxxxxxxxxx\
xxxxxxxxxxxxxxxxxxxxxxxxxxxxxxxxxxxxxxxxxxxxxxxxxxxxxxxxxxxxxxxxxxxxxxxxxxxxxxxxxxxxxxxxxxxxxxxx\
xxxxxxxxxxxxxxxxxxxxxxxxxxxxxxx
%
# In a channel whose members are all behind the link by which it comes.
hears 7 :bo JOIN #b\x07o
hears 7 :bo PRIVMSG #b :hi
on 8 :bo JOIN #b\x07o
on 9 :bo JOIN #b\x07o
%
# To somebody of whom nobody knows: a user that has left in the meantime.
hears 7 :bo PRIVMSG zz :hi
%
# From somebody of whom nobody knows.
hears 7 :zz PRIVMSG al :hi";

const INVITATIONS: &str = "\
says 1 INVITE dee #c
to 1 :a.net 341 al #c dee
on 9 :al INVITE dee #c
%
hears 7 :bo INVITE dee #c
on 9 :bo INVITE dee #c
%
# One of the server's own is told, and may come in.
hears 9 :dee JOIN #d\x07o
hears 9 :dee MODE #d +i
says 2 JOIN #d
hears 9 :dee INVITE an #d
says 2 JOIN #d
on 7 :dee JOIN #d\x07o
on 8 :dee JOIN #d\x07o
on 7 :dee MODE #d +i
on 8 :dee MODE #d +i
to 2 :a.net 473 an #d :Cannot join channel (+i)
to 2 :dee!u@h INVITE an #d
to 2 :an!u@h JOIN #d
on 7 :an JOIN #d
on 8 :an JOIN #d
on 9 :an JOIN #d
to 2 :a.net 353 an = #d :an @dee
to 2 :a.net 366 an #d :End of NAMES list
%
# Within the server.
says 1 JOIN #e
says 1 INVITE an #e
to 1 :al!u@h JOIN #e
on 7 :al JOIN #e\x07o
on 8 :al JOIN #e\x07o
on 9 :al JOIN #e\x07o
to 1 :a.net 353 al = #e :@al
to 1 :a.net 366 al #e :End of NAMES list
to 1 :a.net 341 al #e an
to 2 :al!u@h INVITE an #e
%
# To a channel that is not there.
says 1 INVITE dee #none
to 1 :a.net 341 al #none dee
on 9 :al INVITE dee #none
%
hears 7 :bo INVITE al #none
to 1 :bo!u@h INVITE al #none
%
# To somebody of whom nobody knows.
hears 7 :bo INVITE zz #c
%
# The invitation of the server's own user is kept, and that of another server's is not.
says 1 INVITE dee #c
says 1 JOIN #e
says 1 INVITE an #e
invited an #e
uninvited dee #c
to 1 :a.net 341 al #c dee
on 9 :al INVITE dee #c
to 1 :al!u@h JOIN #e
on 7 :al JOIN #e\x07o
on 8 :al JOIN #e\x07o
on 9 :al JOIN #e\x07o
to 1 :a.net 353 al = #e :@al
to 1 :a.net 366 al #e :End of NAMES list
to 1 :a.net 341 al #e an
to 2 :al!u@h INVITE an #e";

/// Everything else goes to all links but the one by which it came, and to none that is not up yet.
const OTHERS: &str = "\
says 3 NICK new
says 3 USER u 0 * :New
on 7 NICK new 1 u h 1 + :New
on 8 NICK new 1 u h 1 + :New
on 9 NICK new 1 u h 1 + :New
to 3 :a.net 001 new :Welcome to the Internet Relay Network new!u@h
to 3 :a.net 002 new :Your host is a.net, running version treeircd-1
to 3 :a.net 003 new :This server was created 2024-01-01
to 3 :a.net 004 new a.net treeircd-1 i biklmnopstv
to 3 :a.net 422 new :MOTD File is missing
%
hears 9 NICK new 1 u h 1 +i :New
on 7 NICK new 2 u h 4 +i :New
on 8 NICK new 2 u h 4 +i :New
%
says 1 NICK alf
to 1 :al!u@h NICK alf
to 2 :al!u@h NICK alf
on 7 :al NICK alf
on 8 :al NICK alf
on 9 :al NICK alf
%
says 2 PART #c :bye
to 1 :an!u@h PART #c :bye
to 2 :an!u@h PART #c :bye
on 7 :an PART #c :bye
on 8 :an PART #c :bye
on 9 :an PART #c :bye
%
says 1 KICK #c bo :out
to 1 :al!u@h KICK #c bo :out
to 2 :al!u@h KICK #c bo :out
on 7 :al KICK #c bo :out
on 8 :al KICK #c bo :out
on 9 :al KICK #c bo :out
%
says 1 MODE #c +ov-s+l bo cy 5
to 1 :al!u@h MODE #c +ovl bo cy 5
to 2 :al!u@h MODE #c +ovl bo cy 5
on 7 :al MODE #c +ovl bo cy 5
on 8 :al MODE #c +ovl bo cy 5
on 9 :al MODE #c +ovl bo cy 5
%
hears 7 :bo TOPIC #c :hello
to 1 :bo!u@h TOPIC #c :hello
to 2 :bo!u@h TOPIC #c :hello
on 8 :bo TOPIC #c :hello
on 9 :bo TOPIC #c :hello
%
hears 7 :bo MODE bo +i
on 8 :bo MODE bo +i
on 9 :bo MODE bo +i
%
hears 7 :bo KICK #c cy :out
to 1 :bo!u@h KICK #c cy :out
to 2 :bo!u@h KICK #c cy :out
on 8 :bo KICK #c cy :out
on 9 :bo KICK #c cy :out
%
# So may somebody do anything who is no operator here.
says 1 MODE #c +t
hears 7 :ben KICK #c al :out
hears 7 :ben TOPIC #c :
says 1 NAMES #c
to 1 :al!u@h MODE #c +t
to 2 :al!u@h MODE #c +t
on 7 :al MODE #c +t
on 8 :al MODE #c +t
on 9 :al MODE #c +t
to 1 :ben!u@h KICK #c al :out
to 2 :ben!u@h KICK #c al :out
on 8 :ben KICK #c al :out
on 9 :ben KICK #c al :out
to 2 :ben!u@h TOPIC #c :
on 8 :ben TOPIC #c :
on 9 :ben TOPIC #c :
to 1 :a.net 353 al = #c :an ben bo cas cy
to 1 :a.net 366 al #c :End of NAMES list
%
# Members of a burst, each with its flags, to each viewer in turn.
hears 9 :d.net NJOIN #c :@+dee
to 1 :dee!u@h JOIN #c
to 2 :dee!u@h JOIN #c
to 1 :a.net MODE #c +o dee
to 2 :a.net MODE #c +o dee
to 1 :a.net MODE #c +v dee
to 2 :a.net MODE #c +v dee
on 7 :d.net NJOIN #c :@+dee
on 8 :d.net NJOIN #c :@+dee
%
# The others are shown a QUIT before the one that quits is closed.
says 1 QUIT :bye
to 2 :al!u@h QUIT :bye
on 7 :al QUIT :bye
on 8 :al QUIT :bye
on 9 :al QUIT :bye
to 1 ERROR :Closing link (bye)
ends 1
%
# What does nothing is left out: who is there already, or is not there, or is a user of the server
# itself.
hears 7 :bo JOIN #c
hears 7 :bo PART #none :x
hears 9 :dee PART #c :x
hears 9 :dee KICK #c zz :x
hears 9 :dee TOPIC #none :x
%
# Names are passed on as they are stored.
hears 7 :BO PART #C :x
hears 7 :bo JOIN #C
to 1 :bo!u@h PART #c :x
to 2 :bo!u@h PART #c :x
on 8 :bo PART #c :x
on 9 :bo PART #c :x
to 1 :bo!u@h JOIN #c
to 2 :bo!u@h JOIN #c
on 8 :bo JOIN #c
on 9 :bo JOIN #c";

#[test]
fn texts_go_where_somebody_hears_them(rt: HostRuntime) {
    assert!(rt; rows_hold(&rt, rt.alloc(), SCENE, TEXTS));
}

#[test]
fn invitations_go_to_one_server(rt: HostRuntime) {
    assert!(rt; rows_hold(&rt, rt.alloc(), SCENE, INVITATIONS));
}

#[test]
fn the_rest_goes_to_all_but_where_it_came_from(rt: HostRuntime) {
    assert!(rt; rows_hold(&rt, rt.alloc(), SCENE, OTHERS));
}
