//! An engine with links, over a wire in memory.
use crate::running::holds;

/// This side calls b.net, whose socket takes 57 bytes. That is just what a.net says first, and all
/// that the outbox of a link has room for.
const GREETED: &str = "\
turns 10
link-room 57
call 2
room 2 57
hears 2 PASS pw 0210010001 TREE|;SERVER a.net 1 1 :Test server;
";

#[test]
fn who_is_called_is_greeted(rt: HostRuntime) {
    assert!(rt; holds(rt.alloc(), GREETED));
}

/// The link is lost as its outbox overflows, so that nothing is written.
const OVERFLOW: &str = "\
turns 10
link-room 56
call 2
room 2 57
closed 2
";

#[test]
fn a_link_has_the_room_of_a_link(rt: HostRuntime) {
    assert!(rt; holds(rt.alloc(), OVERFLOW));
}

/// al is in a channel, b.net calls, shakes hands and tells of its user b. Its stream ends within
/// the line that brings b into the channel. al looks b up before that and after: b was there once,
/// has gone by then, and has never come into the channel.
const CUT_SHORT: &str = "\
turns 20
link-room 4096
client 1
room 1 65536
bytes 1 NICK al;USER u 0 * :Al;JOIN #c;
welcome 1 al
hears 1 :al!u@h JOIN #c;:a.net 353 al = #c :@al;:a.net 366 al #c :End of NAMES list;
link 2
room 2 65536
bytes 2 PASS pw 0210010001 TREE|;SERVER b.net 1 1 :B;NICK b 1 u h 1 + :B;:b.net NJOIN #c :@b
hears 2 PASS pw 0210010001 TREE|;SERVER a.net 1 1 :Test server;
hears 2 NICK al 1 u h 1 + :Al;:a.net NJOIN #c :@al;
bytes 1 WHOIS b;
hears 1 :a.net 311 al b u h * :B;:a.net 312 al b b.net :B;:a.net 318 al b :End of WHOIS list;
end 2
closed 2
bytes 1 WHOIS b;
hears 1 :a.net 401 al b :No such nick/channel;:a.net 318 al b :End of WHOIS list;
";

#[test]
fn an_end_within_a_line_is_the_end_of_the_link(rt: HostRuntime) {
    assert!(rt; holds(rt.alloc(), CUT_SHORT));
}

/// A server calls that a.net may not be linked to.
const STRANGER: &str = "\
turns 10
link-room 4096
link 2
room 2 65536
bytes 2 PASS pw 0210010001 TREE|;SERVER z.net 1 1 :Z;
closed 2
";

#[test]
fn a_stranger_is_turned_away(rt: HostRuntime) {
    assert!(rt; holds(rt.alloc(), STRANGER));
}
