//! What an engine says of its links, line by line; a link is called and calls, comes up, is
//! refused, closed and lost.
use crate::running::all_tell;

const LINES: &str = "\
client 1
bytes 1 NICK al;USER u 0 * :Al;
end 1

link 7
room 7 9999
bytes 7 PASS pw 0210010001 TREE|;

call 7
room 7 9999
bytes 7 PASS pw 0210010001 TREE|;SERVER b.net 1 1 :B;
says ircd: link to b.net: up

link 7
room 7 9999
bytes 7 PASS pw 0210010001 TREE|;SERVER b.net 1 1 :B;
says ircd: link from b.net: up
end 7
says ircd: link from b.net: lost

link 7
room 7 9999
end 7
says ircd: link from an unknown server: lost before it was up

call 7
write-fails 7
says ircd: link to b.net: lost before it was up

link 7
bytes 7 PASS pw 0210010001 TREE|;SERVER b.net 1 1 :B;
says ircd: link from b.net: up
read-fails 7
says ircd: link from b.net: lost

link 7
room 7 9999
bytes 7 PASS pw 0210010001 TREE|;SERVER b.net 1 1 :B;
says ircd: link from b.net: up
link 8
room 8 9999
bytes 8 PASS pq 0210010001 TREE|;SERVER c.net 1 1 :C;
says ircd: link from c.net: up
bytes 7 :c.net QUIT :x;
says ircd: link from b.net: closed: a line from the wrong direction
end 8
says ircd: link from c.net: lost

link 7
room 7 10
bytes 7 PASS pw 0210010001 TREE|;SERVER b.net 1 1 :B;
says ircd: link from b.net: up
bytes 7 FOO;
says ircd: link from b.net: closed: a line with an unknown command
end 7

call 7
room 7 9999
bytes 7 ERROR :no;
says ircd: link to b.net: refused: a line with an unknown command
";

#[test]
fn links_are_told_of(rt: HostRuntime) {
    assert!(rt; all_tell(rt.alloc(), LINES));
}

/// Of who has not named itself.
const REFUSED: &str = "\
link 7
bytes 7 FOO;
says ircd: link from an unknown server: refused: a line with an unknown command

call 7
bytes 7 FOO;
says ircd: link to b.net: refused: a line with an unknown command

link 7
bytes 7 PASS pw 0210010000 TREE|;
says ircd: link from an unknown server: refused: a line with wrong parameters

call 7
bytes 7 PASS pw 0210010000 TREE|;
says ircd: link to b.net: refused: a line with wrong parameters

link 7
bytes 7 SERVER b.net 1 1 :B;
says ircd: link from b.net: refused: a line out of its time

call 7
bytes 7 SERVER b.net 1 1 :B;
says ircd: link to b.net: refused: a line out of its time

link 7
bytes 7 PASS pw 0210010001 TREE|;SERVER x.net 1 1 :X;
says ircd: link from x.net: refused: an unknown peer

call 7
bytes 7 PASS pw 0210010001 TREE|;SERVER x.net 1 1 :X;
says ircd: link to b.net: refused: an unknown peer

link 7
bytes 7 PASS xx 0210010001 TREE|;SERVER b.net 1 1 :B;
says ircd: link from b.net: refused: a wrong password

call 7
bytes 7 PASS xx 0210010001 TREE|;SERVER b.net 1 1 :B;
says ircd: link to b.net: refused: a wrong password

link 7
bytes 7 PASS pw 0210010001 TREE|;SERVER a.net 1 1 :A;
says ircd: link from a.net: refused: an unknown peer

call 7
bytes 7 PASS pw 0210010001 TREE|;SERVER a.net 1 1 :A;
says ircd: link to b.net: refused: an unknown peer

link 7
bytes 7 PASS pw 0210010001 TREE|;SERVER b 1 1 :B;
says ircd: link from an unknown server: refused: an unknown peer

link 7
bytes 7 server b.net 1 1 :B;
says ircd: link from b.net: refused: a line out of its time
";

#[test]
fn why_a_link_is_refused_is_told(rt: HostRuntime) {
    assert!(rt; all_tell(rt.alloc(), REFUSED));
}

/// Of b.net, behind its greeting.
const CLOSED: &str = "\
link 7
bytes 7 PASS pw 0210010001 TREE|;SERVER b.net 1 1 :B;FOO;
says ircd: link from b.net: up
says ircd: link from b.net: closed: a line with an unknown command

link 7
bytes 7 PASS pw 0210010001 TREE|;SERVER b.net 1 1 :B;:b.net SQUIT b.net;
says ircd: link from b.net: up
says ircd: link from b.net: closed: a line with wrong parameters

link 7
bytes 7 PASS pw 0210010001 TREE|;SERVER b.net 1 1 :B;NICK dd 2 u h 1 + :D;
says ircd: link from b.net: up
says ircd: link from b.net: closed: a line with wrong parameters

link 7
bytes 7 PASS pw 0210010001 TREE|;SERVER b.net 1 1 :B;:b.net SERVER d.net 2 1 :D;
says ircd: link from b.net: up
says ircd: link from b.net: closed: a number of no server

link 7
bytes 7 PASS pw 0210010001 TREE|;SERVER b.net 1 1 :B;:a.net SQUIT b.net :x;
says ircd: link from b.net: up
says ircd: link from b.net: closed: a line from the wrong direction

link 7
bytes 7 PASS pw 0210010001 TREE|;SERVER b.net 1 1 :B;NICK 9d 1 u h 1 + :D;
says ircd: link from b.net: up
says ircd: link from b.net: closed: a word that is no name

link 7
bytes 7 PASS pw 0210010001 TREE|;SERVER b.net 1 1 :B;:b.net SERVER a.net 2 2 :A;
says ircd: link from b.net: up
says ircd: link from b.net: closed: a server that is known already

link 7
bytes 7 PASS pw 0210010001 TREE|;SERVER b.net 1 1 :B;SERVER b.net 1 1 :B;
says ircd: link from b.net: up
says ircd: link from b.net: closed: a line out of its time
";

#[test]
fn why_a_link_is_closed_is_told(rt: HostRuntime) {
    assert!(rt; all_tell(rt.alloc(), CLOSED));
}

/// Each with its address, and of one address one line in a second: at 200 and 1200 ms of
/// 10.0.0.5, and at 1600 of 10.0.0.9.
const ADDRESSES: &str = "\
addresses
link 1
bytes 1 FOO;
says ircd: link from an unknown server at 10.0.0.5: refused: a line with an unknown command
link 2
bytes 2 FOO;
link 3
end 3
link 4
bytes 4 PASS pw 0210010001 TREE|;SERVER b.net 1 1 :B;
says ircd: link from b.net: up
end 4
says ircd: link from b.net: lost
call 5
room 5 9
end 5
says ircd: link to b.net at 10.0.0.5: lost before it was up (2 more)
link 6
end 6
link 9
bytes 9 PASS xx 0210010001 TREE|;SERVER b.net 1 1 :B;
says ircd: link from b.net at 10.0.0.9: refused: a wrong password
";

#[test]
fn of_an_address_one_line_is_said_in_a_second(rt: HostRuntime) {
    assert!(rt; all_tell(rt.alloc(), ADDRESSES));
}
