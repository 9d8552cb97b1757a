//! An engine over a wire in memory: pieces of lines, and who is lost.
use crate::running::holds;

/// A line comes in two pieces, to a client that takes ten bytes.
const IN_PIECES: &str = "\
turns 20
client 1
room 1 10
bytes 1 NICK al^
bytes 1 ~USER u 0 * :Al;
hears 1 :a.net 001
gives 1 NICK al;USER u 0 * :Al;
";

#[test]
fn a_line_in_two_pieces(rt: HostRuntime) {
    assert!(rt; holds(rt.alloc(), IN_PIECES));
}

/// al's socket takes nothing. Bytes wait for al: 337 behind its first channel, 416 behind the
/// second, 450 once bo is in both; a text of 64 bytes is too much for 512. bo, who shares two
/// channels with al, is told once.
const OVERFLOW: &str = "\
turns 30
client-room 512
client 1
bytes 1 NICK al;USER u 0 * :Al;JOIN #c,#d;
client 2
room 2 65536
bytes 2 NICK bo;USER u 0 * :Bo;JOIN #c;
welcome 2 bo
hears 2 :bo!u@h JOIN #c;:a.net 353 bo = #c :@al bo;:a.net 366 bo #c :End of NAMES list;
bytes 2 JOIN #d;
hears 2 :bo!u@h JOIN #d;:a.net 353 bo = #d :@al bo;:a.net 366 bo #d :End of NAMES list;
bytes 2 PRIVMSG al :a text that is long enough for al's outbox;
closed 1
hears 2 :al!u@h QUIT :Connection closed;
bytes 2 PRIVMSG al :a text that is long enough for al's outbox;
hears 2 :a.net 401 bo al :No such nick/channel;
";

#[test]
fn who_reads_nothing_is_lost(rt: HostRuntime) {
    assert!(rt; holds(rt.alloc(), OVERFLOW));
}

/// al, cy and dd, whose sockets take nothing, share a channel with bo. Then one ends, a read of one
/// fails, and a write to one for whom bytes wait: bo is told once of each.
const LOSSES: &str = "\
turns 20
client 1
bytes 1 NICK al;USER u 0 * :Al;JOIN #c;
client 3
bytes 3 NICK cy;USER u 0 * :Cy;JOIN #c;
client 4
bytes 4 NICK dd;USER u 0 * :Dd;JOIN #c;
client 2
room 2 65536
bytes 2 NICK bo;USER u 0 * :Bo;JOIN #c;
welcome 2 bo
hears 2 :bo!u@h JOIN #c;:a.net 353 bo = #c :@al bo cy dd;:a.net 366 bo #c :End of NAMES list;
end 1
closed 1
hears 2 :al!u@h QUIT :Connection closed;
read-fails 3
closed 3
hears 2 :cy!u@h QUIT :Connection closed;
write-fails 4
closed 4
hears 2 :dd!u@h QUIT :Connection closed;
";

#[test]
fn who_ends_or_fails_is_lost(rt: HostRuntime) {
    assert!(rt; holds(rt.alloc(), LOSSES));
}

/// The server closes al, whose socket takes nothing yet; what comes then is reported, and not read.
/// al is read and written up to that, and closed. bo connects behind that. One turn is taken for
/// each step, but for that of al when al is closed.
const SHUT: &str = "\
turns 5
client 1
bytes 1 NICK al;QUIT :bye;
bytes 1 x;
room 1 100
hears 1 ERROR :Closing link (bye);
closed 1
bytes 1 PING x;
client 2
gives 1 NICK al;QUIT :bye;
";

#[test]
fn who_is_closed_is_read_no_more(rt: HostRuntime) {
    assert!(rt; holds(rt.alloc(), SHUT));
}
