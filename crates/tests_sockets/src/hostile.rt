//! A peer breaks a rule of links (docs/PROFILE.md, "Why a link is closed"): its link is closed,
//! once, and nothing that comes behind that line is taken.
//! Whoever else is there is told as of any lost link, and goes on.
use crate::running::hold_with;

/// al is client 1, in a channel. c.net is linked by 8, and cy is its user, in that channel too.
pub(crate) const BEFORE: &str = "\
client 1
room 1 65536
bytes 1 NICK al;USER u 0 * :Al;JOIN #c;
welcome 1 al
hears 1 :al!u@h JOIN #c;:a.net 353 al = #c :@al;:a.net 366 al #c :End of NAMES list;
link 8
room 8 65536
bytes 8 PASS pq 0210010001 TREE|;SERVER c.net 1 1 :C;NICK cy 1 u h 1 + :Cy;:c.net NJOIN #c :cy;
hears 1 :cy!u@h JOIN #c;
hears 8 PASS pq 0210010001 TREE|;SERVER a.net 1 1 :Test server;
hears 8 NICK al 1 u h 1 + :Al;:a.net NJOIN #c :@al;
";

/// `%` stands for the line that closes 7. Right behind it comes more: were it taken, b.net would be
/// linked, or al killed. It comes once again; al asks who is there, and words pass by the other
/// link, both ways. In the end the socket of 7 takes whatever is written.
pub(crate) const AFTERWARDS: &str = "\
bytes 7 %PASS pw 0210010001 TREE|;SERVER b.net 1 1 :B;:b.net KILL al :Nick collision;
closed 7
bytes 7 PASS pw 0210010001 TREE|;SERVER b.net 1 1 :B;:b.net KILL al :Nick collision;
bytes 1 LUSERS;PRIVMSG cy :yo;
hears 8 :al PRIVMSG cy :yo;
bytes 8 :cy PRIVMSG #c :ho;
hears 1 :cy!u@h PRIVMSG #c :ho;
room 7 65536
";

/// What al is answered where b.net is not there.
pub(crate) const ARE_TWO: &str = "\
hears 1 :a.net 251 al :There are 2 users and 0 services on 2 servers;
hears 1 :a.net 254 al 1 :channels formed;
hears 1 :a.net 255 al :I have 1 clients and 1 servers;
";

/// A server opens 7.
pub(crate) const OPENS: &str = "\
link 7
room 7 65536
";

/// a.net is called, and so it has written nothing.
static STRANGER: [&str; 4] = [BEFORE, OPENS, ARE_TWO, AFTERWARDS];

/// a.net calls.
const CALL: &str = "\
call 7
room 7 65536
hears 7 PASS pw 0210010001 TREE|;SERVER a.net 1 1 :Test server;
";

static CALLED: [&str; 4] = [BEFORE, CALL, ARE_TWO, AFTERWARDS];

/// b.net names itself, and is told of all that a.net knows.
pub(crate) const GREETS: &str = "\
bytes 7 PASS pw 0210010001 TREE|;SERVER b.net 1 1 :B;
hears 7 PASS pw 0210010001 TREE|;SERVER a.net 1 1 :Test server;
hears 7 :a.net SERVER c.net 2 2 :C;NICK al 1 u h 1 + :Al;NICK cy 2 u h 2 + :Cy;
hears 7 :a.net NJOIN #c :@al,cy;
hears 8 :a.net SERVER b.net 2 3 :B;
";

/// c.net is told that b.net is gone.
const GOES: &str = "\
hears 8 :a.net SQUIT b.net :a.net b.net;
";

/// b.net is linked.
static LINKED: [&str; 6] = [BEFORE, OPENS, GREETS, GOES, ARE_TWO, AFTERWARDS];

/// The socket of 7 takes ten bytes.
const OPENS_SLOWLY: &str = "\
link 7
room 7 10
";

/// b.net is linked: it is closed once its socket has taken the rest, and not read before.
static SLOW: [&str; 6] = [BEFORE, OPENS_SLOWLY, GREETS, GOES, ARE_TWO, AFTERWARDS];

/// f.net is behind b.net. zo of b.net and ed of f.net are in the channel, and quit server by
/// server.
const CROWD: &str = "\
bytes 7 :b.net SERVER f.net 2 7 :F;NICK ed 2 u h 7 + :Ed;NICK zo 1 u h 1 + :Zo;\
:b.net NJOIN #c :ed,zo;
hears 1 :ed!u@h JOIN #c;:zo!u@h JOIN #c;
hears 8 :b.net SERVER f.net 3 4 :F;NICK ed 3 u h 4 + :Ed;NICK zo 2 u h 3 + :Zo;
hears 8 :b.net NJOIN #c :ed,zo;
hears 1 :zo!u@h QUIT :a.net b.net;:ed!u@h QUIT :a.net b.net;
hears 8 :a.net SQUIT b.net :a.net b.net;:a.net SQUIT f.net :a.net b.net;
";

static CROWDED: [&str; 6] = [BEFORE, OPENS, GREETS, CROWD, ARE_TWO, AFTERWARDS];

/// Lines that close the link of who has not named itself: for UnknownCommand, Parameters, Order,
/// UnknownPeer, Password and AlreadyKnown.
const IN_HANDSHAKE: &str = "\
FOO;
PASS pw 0210010000 TREE|;
SERVER b.net 1 1 :B;
PASS pw 0210010001 TREE|;SERVER x.net 1 1 :X;
PASS xx 0210010001 TREE|;SERVER b.net 1 1 :B;
PASS pq 0210010001 TREE|;SERVER c.net 1 1 :C;
";

/// Lines of b.net that close its link: for UnknownCommand, Parameters twice, BadToken,
/// WrongDirection, BadName, AlreadyKnown and Order.
const BEHIND_HANDSHAKE: &str = "\
FOO;
:b.net SQUIT b.net;
NICK dd 2 u h 1 + :D;
:b.net SERVER d.net 2 1 :D;
:cy QUIT :x;
NICK 9d 1 u h 1 + :D;
:b.net SERVER a.net 2 2 :A;
SERVER b.net 1 1 :B;
";

#[test]
fn a_stranger_is_closed(rt: HostRuntime) {
    assert!(rt; hold_with(rt.alloc(), &STRANGER, IN_HANDSHAKE));
}

#[test]
fn who_was_called_is_closed(rt: HostRuntime) {
    assert!(rt; hold_with(rt.alloc(), &CALLED, IN_HANDSHAKE));
}

#[test]
fn a_linked_peer_is_closed(rt: HostRuntime) {
    assert!(rt; hold_with(rt.alloc(), &LINKED, BEHIND_HANDSHAKE));
}

#[test]
fn a_slow_peer_is_closed_behind_what_waits(rt: HostRuntime) {
    assert!(rt; hold_with(rt.alloc(), &SLOW, BEHIND_HANDSHAKE));
}

#[test]
fn all_behind_a_closed_link_quit_once(rt: HostRuntime) {
    assert!(rt; hold_with(rt.alloc(), &CROWDED, BEHIND_HANDSHAKE));
}
