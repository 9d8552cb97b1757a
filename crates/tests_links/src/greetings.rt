//! Handshakes and bursts, at the end that is called and at the end that calls (RFC 2813 section
//! 4.1).
use crate::events::rows_hold;

/// Nobody is there.
const NOBODY: &str = "";

/// al, client 1, has made #c.
const ONE_CLIENT: &str = "\
connects 1
says 1 NICK al
says 1 USER u 0 * :Al
says 1 JOIN #c
says 1 MODE #c +nt
says 1 TOPIC #c :hello";

/// b.net is linked by 7, with aa.net behind it; bo is on b.net, cy on aa.net.
const TWO_SERVERS: &str = "\
called 7
hears 7 PASS pw 0210010001 TREE|
hears 7 SERVER b.net 1 1 :B
hears 7 :b.net SERVER aa.net 2 2 :Far
hears 7 NICK bo 1 u h 1 + :Bo
hears 7 NICK cy 2 u h 2 +i :Cy
hears 7 :b.net NJOIN #c :@bo,+cy";

const OF_NOBODY: &str = "\
# The end that is called waits for both lines.
called 7
%
called 7
hears 7 PASS pw 0210010001 TREE|
%
called 7
hears 7 PASS pw 0210010001 TREE|
hears 7 SERVER b.net 1 1 :B
on 7 PASS pw 0210010001 TREE|
on 7 SERVER a.net 1 1 :A
%
# The end that calls begins, with the password of the peer that it calls.
calls 7 c.net
on 7 PASS pq 0210010001 TREE|
on 7 SERVER a.net 1 1 :A
%
calls 7 b.net
hears 7 PASS pw 0210010001 TREE|
hears 7 SERVER b.net 1 1 :B
on 7 PASS pw 0210010001 TREE|
on 7 SERVER a.net 1 1 :A
%
# A server that is no peer is not called, and its link is open no more.
calls 7 x.net
called 7
closes 7 peer
%
# Who connects before the link is up is told in the burst; who comes afterwards by a line.
called 7
connects 1
says 1 NICK al
hears 7 PASS pw 0210010001 TREE|
hears 7 SERVER b.net 1 1 :B
on 7 PASS pw 0210010001 TREE|
on 7 SERVER a.net 1 1 :A
%
# The name that was called and the name that comes are not compared.
calls 7 b.net
hears 7 PASS pq 0210010001 TREE|
hears 7 SERVER c.net 1 1 :C
on 7 PASS pw 0210010001 TREE|
on 7 SERVER a.net 1 1 :A
%
# A newcomer is told on each other link that is up, and on none that is not.
called 7
hears 7 PASS pw 0210010001 TREE|
hears 7 SERVER b.net 1 1 :B
called 9
called 8
hears 8 PASS pq 0210010001 TREE|
hears 8 SERVER c.net 1 1 :C
hears 8 :c.net SERVER far.net 2 4 :Far
on 7 PASS pw 0210010001 TREE|
on 7 SERVER a.net 1 1 :A
on 8 PASS pq 0210010001 TREE|
on 8 SERVER a.net 1 1 :A
on 8 :a.net SERVER b.net 2 2 :B
on 7 :a.net SERVER c.net 2 3 :C
on 7 :c.net SERVER far.net 3 4 :Far";

const OF_ONE_CLIENT: &str = "\
called 7
hears 7 PASS pw 0210010001 TREE|
hears 7 SERVER b.net 1 1 :B
on 7 PASS pw 0210010001 TREE|
on 7 SERVER a.net 1 1 :A
on 7 NICK al 1 u h 1 + :Al
on 7 :a.net NJOIN #c :@al
on 7 :a.net MODE #c +nt
on 7 :a.net TOPIC #c :hello
%
# The end that calls tells its side upon SERVER, and waits for nothing more.
calls 7 b.net
hears 7 PASS pw 0210010001 TREE|
hears 7 SERVER b.net 1 1 :B
on 7 PASS pw 0210010001 TREE|
on 7 SERVER a.net 1 1 :A
on 7 NICK al 1 u h 1 + :Al
on 7 :a.net NJOIN #c :@al
on 7 :a.net MODE #c +nt
on 7 :a.net TOPIC #c :hello
%
# A link counts from SERVER on.
called 7
says 1 MODE al +i
says 1 LUSERS
hears 7 PASS pw 0210010001 TREE|
hears 7 SERVER b.net 1 1 :B
says 1 LUSERS
to 1 :al!u@h MODE al +i
to 1 :a.net 251 al :There are 1 users and 0 services on 1 servers
to 1 :a.net 254 al 1 :channels formed
to 1 :a.net 255 al :I have 1 clients and 0 servers
on 7 PASS pw 0210010001 TREE|
on 7 SERVER a.net 1 1 :A
on 7 NICK al 1 u h 1 +i :Al
on 7 :a.net NJOIN #c :@al
on 7 :a.net MODE #c +nt
on 7 :a.net TOPIC #c :hello
to 1 :a.net 251 al :There are 1 users and 0 services on 2 servers
to 1 :a.net 254 al 1 :channels formed
to 1 :a.net 255 al :I have 1 clients and 1 servers
%
# What a burst brings is shown: member by member, then the modes that raise something, then a
# topic that is greater.
calls 7 b.net
hears 7 PASS pw 0210010001 TREE|
hears 7 SERVER b.net 1 1 :B
hears 7 NICK bo 1 u h 1 + :Bo
hears 7 NICK cy 1 u h 1 + :Cy
hears 7 :b.net NJOIN #c :@+bo,cy
hears 7 :b.net MODE #c +s
hears 7 :b.net TOPIC #c :other
on 7 PASS pw 0210010001 TREE|
on 7 SERVER a.net 1 1 :A
on 7 NICK al 1 u h 1 + :Al
on 7 :a.net NJOIN #c :@al
on 7 :a.net MODE #c +nt
on 7 :a.net TOPIC #c :hello
to 1 :bo!u@h JOIN #c
to 1 :a.net MODE #c +o bo
to 1 :a.net MODE #c +v bo
to 1 :cy!u@h JOIN #c
to 1 :a.net MODE #c +s
to 1 :a.net TOPIC #c :other
%
# A closed link is no link: nobody is told.
called 7
hears 7 PASS xx 0210010001 TREE|
hears 7 SERVER b.net 1 1 :B
says 1 TOPIC #c :bye
closes 7 password
to 1 :al!u@h TOPIC #c :bye";

const OF_TWO_SERVERS: &str = "\
# By distance first, and then by name; each with the number and the distance that the newcomer has
# to know it by.
called 9
hears 9 PASS pd 0210010001 TREE|
hears 9 SERVER d.net 1 1 :D
on 9 PASS pd 0210010001 TREE|
on 9 SERVER a.net 1 1 :A
on 9 :a.net SERVER b.net 2 2 :B
on 9 :b.net SERVER aa.net 3 3 :Far
on 9 NICK bo 2 u h 2 + :Bo
on 9 NICK cy 3 u h 3 +i :Cy
on 9 :a.net NJOIN #c :@bo,+cy
on 7 :a.net SERVER d.net 2 4 :D
%
# What comes by one link goes on by the others, with the numbers and distances of the next.
calls 9 d.net
hears 9 PASS pd 0210010001 TREE|
hears 9 SERVER d.net 1 1 :D
hears 9 :d.net SERVER e.net 2 9 :E
hears 9 NICK dee 2 u h 9 +i :Dee
hears 9 :d.net NJOIN #C :@dee,bo
hears 9 :d.net NJOIN #d :@dee
hears 9 :d.net MODE #d +ntk pw
hears 9 :d.net TOPIC #d :hello
hears 9 :d.net MODE #c +s
hears 9 :d.net TOPIC #c :hello
on 9 PASS pd 0210010001 TREE|
on 9 SERVER a.net 1 1 :A
on 9 :a.net SERVER b.net 2 2 :B
on 9 :b.net SERVER aa.net 3 3 :Far
on 9 NICK bo 2 u h 2 + :Bo
on 9 NICK cy 3 u h 3 +i :Cy
on 9 :a.net NJOIN #c :@bo,+cy
on 7 :a.net SERVER d.net 2 4 :D
on 7 :d.net SERVER e.net 3 5 :E
on 7 NICK dee 3 u h 5 +i :Dee
on 7 :d.net NJOIN #C :@dee
on 7 :d.net NJOIN #d :@dee
on 7 :d.net MODE #d +ntk pw
on 7 :d.net TOPIC #d :hello
on 7 :d.net MODE #c +s
on 7 :d.net TOPIC #c :hello
%
# An NJOIN of which nobody is left is not passed on.
calls 9 d.net
hears 9 PASS pd 0210010001 TREE|
hears 9 SERVER d.net 1 1 :D
hears 9 :d.net NJOIN #c :@bo,zz
on 9 PASS pd 0210010001 TREE|
on 9 SERVER a.net 1 1 :A
on 9 :a.net SERVER b.net 2 2 :B
on 9 :b.net SERVER aa.net 3 3 :Far
on 9 NICK bo 2 u h 2 + :Bo
on 9 NICK cy 3 u h 3 +i :Cy
on 9 :a.net NJOIN #c :@bo,+cy
on 7 :a.net SERVER d.net 2 4 :D
%
# The numbers of lost servers are given anew, the smallest first.
loses 7
called 8
hears 8 PASS pq 0210010001 TREE|
hears 8 SERVER c.net 1 1 :C
called 9
hears 9 PASS pd 0210010001 TREE|
hears 9 SERVER d.net 1 1 :D
on 8 PASS pq 0210010001 TREE|
on 8 SERVER a.net 1 1 :A
on 9 PASS pd 0210010001 TREE|
on 9 SERVER a.net 1 1 :A
on 9 :a.net SERVER c.net 2 2 :C
on 8 :a.net SERVER d.net 2 3 :D";

/// al comes, client 1, and asks about users of three servers.
const DESCRIBED: &str = "\
connects 1
says 1 NICK al
says 1 USER u 0 * :Al
says 1 WHOIS bo,cy,al
on 7 NICK al 1 u h 1 + :Al
to 1 :a.net 001 al :Welcome to the Internet Relay Network al!u@h
to 1 :a.net 002 al :Your host is a.net, running version treeircd-1
to 1 :a.net 003 al :This server was created 2024-01-01
to 1 :a.net 004 al a.net treeircd-1 i biklmnopstv
to 1 :a.net 422 al :MOTD File is missing
to 1 :a.net 311 al bo u h * :Bo
to 1 :a.net 312 al bo b.net :B
to 1 :a.net 319 al bo :@#c
to 1 :a.net 311 al cy u h * :Cy
to 1 :a.net 312 al cy aa.net :Far
to 1 :a.net 319 al cy :+#c
to 1 :a.net 311 al al u h * :Al
to 1 :a.net 312 al al a.net :A
to 1 :a.net 318 al bo,cy,al :End of WHOIS list";

#[test]
fn handshakes_of_an_empty_server(rt: HostRuntime) {
    assert!(rt; rows_hold(&rt, rt.alloc(), NOBODY, OF_NOBODY));
}

#[test]
fn a_client_is_told_in_a_burst(rt: HostRuntime) {
    assert!(rt; rows_hold(&rt, rt.alloc(), ONE_CLIENT, OF_ONE_CLIENT));
}

#[test]
fn servers_are_told_in_a_burst(rt: HostRuntime) {
    assert!(rt; rows_hold(&rt, rt.alloc(), TWO_SERVERS, OF_TWO_SERVERS));
}

#[test]
fn a_user_is_told_with_what_its_server_says_of_itself(rt: HostRuntime) {
    assert!(rt; rows_hold(&rt, rt.alloc(), TWO_SERVERS, DESCRIBED));
}
