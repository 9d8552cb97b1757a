//! Servers that are lost, by a SQUIT or with a link (RFC 2813 section 4.1.6).
use crate::events::rows_hold;

/// b.net is linked by 7, with aa.net behind it, and c.net by 8. zed (client 1), al (client 2), bo
/// and ed of b.net, cy of aa.net and dee of c.net are in #c; fay of b.net is not.
const SCENE: &str = "\
connects 1
says 1 NICK zed
says 1 USER u 0 * :Zed
connects 2
says 2 NICK al
says 2 USER u 0 * :Al
says 1 JOIN #c
says 2 JOIN #c
called 7
hears 7 PASS pw 0210010001 TREE|
hears 7 SERVER b.net 1 1 :B
hears 7 :b.net SERVER aa.net 2 2 :Far
hears 7 NICK ed 1 u h 1 + :Ed
hears 7 NICK bo 1 u h 1 + :Bo
hears 7 NICK fay 1 u h 1 + :Fay
hears 7 NICK cy 2 u h 2 + :Cy
hears 7 :b.net NJOIN #c :bo,cy,ed
called 8
hears 8 PASS pq 0210010001 TREE|
hears 8 SERVER c.net 1 1 :C
hears 8 NICK dee 1 u h 1 + :Dee
hears 8 :c.net NJOIN #c :dee";

const ROWS: &str = "\
# All behind a link are lost with it, in order of name; the users of each quit in order of
# nickname, with the two ends of the link as text.
loses 7
to 2 :cy!u@h QUIT :a.net b.net
to 1 :cy!u@h QUIT :a.net b.net
on 8 :a.net SQUIT aa.net :a.net b.net
to 2 :bo!u@h QUIT :a.net b.net
to 1 :bo!u@h QUIT :a.net b.net
to 2 :ed!u@h QUIT :a.net b.net
to 1 :ed!u@h QUIT :a.net b.net
on 8 :a.net SQUIT b.net :a.net b.net
%
# A link that is closed is lost.
hears 8 FOO
closes 8 unknown
to 2 :dee!u@h QUIT :a.net c.net
to 1 :dee!u@h QUIT :a.net c.net
on 7 :a.net SQUIT c.net :a.net c.net
%
# A SQUIT is of one server, and keeps its prefix and its text; the numbers of that server are free
# then.
hears 7 :b.net SQUIT aa.net :b.net aa.net
hears 7 :b.net SERVER g.net 2 2 :G
says 1 LUSERS
to 2 :cy!u@h QUIT :b.net aa.net
to 1 :cy!u@h QUIT :b.net aa.net
on 8 :b.net SQUIT aa.net :b.net aa.net
on 8 :b.net SERVER g.net 3 3 :G
to 1 :a.net 251 zed :There are 6 users and 0 services on 4 servers
to 1 :a.net 254 zed 1 :channels formed
to 1 :a.net 255 zed :I have 2 clients and 2 servers
%
# What is lost is known no more: its users' lines say nothing, and its links tell of it again.
loses 8
says 1 PRIVMSG dee :x
called 8
hears 8 PASS pq 0210010001 TREE|
hears 8 SERVER c.net 1 1 :C
hears 8 :dee QUIT :x
to 2 :dee!u@h QUIT :a.net c.net
to 1 :dee!u@h QUIT :a.net c.net
on 7 :a.net SQUIT c.net :a.net c.net
to 1 :a.net 401 zed dee :No such nick/channel
on 8 PASS pq 0210010001 TREE|
on 8 SERVER a.net 1 1 :A
on 8 :a.net SERVER b.net 2 2 :B
on 8 :b.net SERVER aa.net 3 3 :Far
on 8 NICK al 1 u h 1 + :Al
on 8 NICK bo 2 u h 2 + :Bo
on 8 NICK cy 3 u h 3 + :Cy
on 8 NICK ed 2 u h 2 + :Ed
on 8 NICK fay 2 u h 2 + :Fay
on 8 NICK zed 1 u h 1 + :Zed
on 8 :a.net NJOIN #c :al,bo,cy,ed,@zed
on 7 :a.net SERVER c.net 2 4 :C
%
# A link on which nobody has named itself is lost without a word; so is each other link
# afterwards.
called 9
loses 9
calls 9 d.net
hears 9 PASS pd 0210010001 TREE|
loses 9
on 9 PASS pd 0210010001 TREE|
on 9 SERVER a.net 1 1 :A
%
# The last link is lost: nobody is told on a link.
loses 7
loses 8
to 2 :cy!u@h QUIT :a.net b.net
to 1 :cy!u@h QUIT :a.net b.net
on 8 :a.net SQUIT aa.net :a.net b.net
to 2 :bo!u@h QUIT :a.net b.net
to 1 :bo!u@h QUIT :a.net b.net
to 2 :ed!u@h QUIT :a.net b.net
to 1 :ed!u@h QUIT :a.net b.net
on 8 :a.net SQUIT b.net :a.net b.net
to 2 :dee!u@h QUIT :a.net c.net
to 1 :dee!u@h QUIT :a.net c.net
%
# The front of a line says nothing, when the link is lost behind it.
reads 7 :b.net TOPIC #none :x~:b.net NJOIN #c :fa
loses 7
to 2 :cy!u@h QUIT :a.net b.net
to 1 :cy!u@h QUIT :a.net b.net
on 8 :a.net SQUIT aa.net :a.net b.net
to 2 :bo!u@h QUIT :a.net b.net
to 1 :bo!u@h QUIT :a.net b.net
to 2 :ed!u@h QUIT :a.net b.net
to 1 :ed!u@h QUIT :a.net b.net
on 8 :a.net SQUIT b.net :a.net b.net
%
# A client of the server's own: the others are told by its QUIT alone.
leaves 1
to 2 :zed!u@h QUIT :Connection closed
on 7 :zed QUIT :Connection closed
on 8 :zed QUIT :Connection closed
%
# Its server lost by the neighbour's own word, the link stays; and the text of a loss is the
# neighbour's name as before.
hears 8 :c.net SQUIT c.net :x
says 2 PRIVMSG #c :yo
to 2 :dee!u@h QUIT :x
to 1 :dee!u@h QUIT :x
on 7 :c.net SQUIT c.net :x
to 1 :al!u@h PRIVMSG #c :yo
on 7 :al PRIVMSG #c :yo";

#[test]
fn all_behind_a_link_are_lost_with_it(rt: HostRuntime) {
    assert!(rt; rows_hold(&rt, rt.alloc(), SCENE, ROWS));
}
