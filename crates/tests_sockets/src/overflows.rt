//! What a loss tells others fills the outboxes of some: they are lost in the same turn, and the
//! server is told of each once, the lowest number first.
use crate::running::hold_with;

/// All four share two channels. The sockets of dd and cy take nothing before al's read fails.
/// 518 bytes wait for dd then, and 490 for cy; a line that tells of a loss has 33.
const CROWD: &str = "\
client-room %
client 1
bytes 1 NICK dd;USER u 0 * :Dd;JOIN #c,#d;
client 2
bytes 2 NICK cy;USER u 0 * :Cy;JOIN #c,#d;
client 3
room 3 65536
bytes 3 NICK al;USER u 0 * :Al;JOIN #c,#d;
welcome 3 al
hears 3 :al!u@h JOIN #c;:a.net 353 al = #c :al cy @dd;:a.net 366 al #c :End of NAMES list;
hears 3 :al!u@h JOIN #d;:a.net 353 al = #d :al cy @dd;:a.net 366 al #d :End of NAMES list;
client 4
room 4 65536
bytes 4 NICK bo;USER u 0 * :Bo;JOIN #c,#d;
hears 3 :bo!u@h JOIN #c;:bo!u@h JOIN #d;
welcome 4 bo
hears 4 :bo!u@h JOIN #c;:a.net 353 bo = #c :al bo cy @dd;:a.net 366 bo #c :End of NAMES list;
hears 4 :bo!u@h JOIN #d;:a.net 353 bo = #d :al bo cy @dd;:a.net 366 bo #d :End of NAMES list;
read-fails 3
room 1 65536
room 2 65536
";

/// Nobody is lost before the turn in which al is.
static BEFORE: [&str; 2] = [CROWD, "turns 10\n"];

/// dd and cy are lost in that turn, and nothing comes behind it.
const ALL_ARE_LOST: &str = "\
closed 1
closed 2
closed 3
hears 4 :al!u@h QUIT :Connection closed;
hears 4 :dd!u@h QUIT :Connection closed;
hears 4 :cy!u@h QUIT :Connection closed;
";

static IN_THAT_TURN: [&str; 3] = [CROWD, "turns 11\n", ALL_ARE_LOST];

static BEHIND_ALL: [&str; 3] = [CROWD, "turns 20\n", ALL_ARE_LOST];

/// Neither dd nor cy has room for al's loss: 4 bytes and 32.
const NO_ROOM: &str = "522";

#[test]
fn a_loss_may_fill_two_outboxes(rt: HostRuntime) {
    assert!(rt;
        hold_with(rt.alloc(), &BEFORE, NO_ROOM)
            && hold_with(rt.alloc(), &IN_THAT_TURN, NO_ROOM)
            && hold_with(rt.alloc(), &BEHIND_ALL, NO_ROOM)
    );
}

/// cy has just room for al's loss, or dd lacks one byte for it; cy has no room for dd's.
const ROOM_FOR_ONE: &str = "523\n550";

#[test]
fn a_loss_by_a_loss_may_fill_another(rt: HostRuntime) {
    assert!(rt;
        hold_with(rt.alloc(), &BEFORE, ROOM_FOR_ONE)
            && hold_with(rt.alloc(), &IN_THAT_TURN, ROOM_FOR_ONE)
            && hold_with(rt.alloc(), &BEHIND_ALL, ROOM_FOR_ONE)
    );
}

/// al alone is lost, and all others are told.
const AL_IS_LOST: &str = "\
turns 20
closed 3
hears 4 :al!u@h QUIT :Connection closed;
welcome 1 dd
hears 1 :dd!u@h JOIN #c;:a.net 353 dd = #c :@dd;:a.net 366 dd #c :End of NAMES list;
hears 1 :dd!u@h JOIN #d;:a.net 353 dd = #d :@dd;:a.net 366 dd #d :End of NAMES list;
hears 1 :cy!u@h JOIN #c;:cy!u@h JOIN #d;:al!u@h JOIN #c;:al!u@h JOIN #d;
hears 1 :bo!u@h JOIN #c;:bo!u@h JOIN #d;:al!u@h QUIT :Connection closed;
welcome 2 cy
hears 2 :cy!u@h JOIN #c;:a.net 353 cy = #c :cy @dd;:a.net 366 cy #c :End of NAMES list;
hears 2 :cy!u@h JOIN #d;:a.net 353 cy = #d :cy @dd;:a.net 366 cy #d :End of NAMES list;
hears 2 :al!u@h JOIN #c;:al!u@h JOIN #d;:bo!u@h JOIN #c;:bo!u@h JOIN #d;
hears 2 :al!u@h QUIT :Connection closed;
";

static ALONE: [&str; 2] = [CROWD, AL_IS_LOST];

/// dd has just room for al's loss.
#[test]
fn a_loss_may_just_fit(rt: HostRuntime) {
    assert!(rt; hold_with(rt.alloc(), &ALONE, "551"));
}
