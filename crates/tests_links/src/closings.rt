//! Why a link is closed, each reason in a handshake or behind it; and that no other link is.
use crate::events::{ServerScene, rows_hold, table_holds};

/// c.net is linked by 8, and cy is its user; al is client 1. b.net opens the link 7.
const BEFORE: &str = "\
connects 1
says 1 NICK al
says 1 USER u 0 * :Al
called 8
hears 8 PASS pq 0210010001 TREE|
hears 8 SERVER c.net 1 1 :C
hears 8 NICK cy 1 u h 1 + :Cy
called 7";

/// b.net gives its password and its name.
const GREETING: &str = "\
hears 7 PASS pw 0210010001 TREE|
hears 7 SERVER b.net 1 1 :B";

/// f.net is behind it, and al is in a channel with zo of b.net and ed of f.net.
const CROWD: &str = "\
says 1 JOIN #c
hears 7 PASS pw 0210010001 TREE|
hears 7 SERVER b.net 1 1 :B
hears 7 :b.net SERVER f.net 2 7 :F
hears 7 NICK ed 2 u h 7 + :Ed
hears 7 NICK zo 1 u h 1 + :Zo
hears 7 :b.net NJOIN #c :ed,zo";

// The same, and c.net tells of so many servers that 256 are known.
const FULL: &str = "fills 256";

const FULL_GREETING: &str = "\
hears 7 PASS pw 0210010001 TREE|
hears 7 SERVER b.net 1 1 :B
fills 255";

const FULL_CROWD: &str = "\
says 1 JOIN #c
hears 7 PASS pw 0210010001 TREE|
hears 7 SERVER b.net 1 1 :B
hears 7 :b.net SERVER f.net 2 7 :F
hears 7 NICK ed 2 u h 7 + :Ed
hears 7 NICK zo 1 u h 1 + :Zo
hears 7 :b.net NJOIN #c :ed,zo
fills 254";

// What is put out behind the end of the link: what the loss does, server by server. Then a word
// passes by the other link, and the number of the closed one is free.
const WORD: &str = "\
says 1 PRIVMSG cy :yo
on 8 :al PRIVMSG cy :yo
called 7";

const LOSS: &str = "\
on 8 :a.net SQUIT b.net :a.net b.net
says 1 PRIVMSG cy :yo
on 8 :al PRIVMSG cy :yo
called 7";

const LOST_CROWD: &str = "\
to 1 :zo!u@h QUIT :a.net b.net
on 8 :a.net SQUIT b.net :a.net b.net
to 1 :ed!u@h QUIT :a.net b.net
on 8 :a.net SQUIT f.net :a.net b.net
says 1 PRIVMSG cy :yo
on 8 :al PRIVMSG cy :yo
called 7";

/// b.net has not named itself.
static STRANGE: ServerScene = ServerScene {
    programs: None,
    before: BEFORE,
    then: "",
    behind: WORD,
};

/// It is linked.
static LINKED: ServerScene = ServerScene {
    programs: None,
    before: BEFORE,
    then: GREETING,
    behind: LOSS,
};

/// Others are behind it.
static CROWDED: ServerScene = ServerScene {
    programs: None,
    before: BEFORE,
    then: CROWD,
    behind: LOST_CROWD,
};

// The same, where 256 servers are known.
static FULL_STRANGE: ServerScene = ServerScene {
    programs: None,
    before: BEFORE,
    then: FULL,
    behind: WORD,
};

static FULL_LINKED: ServerScene = ServerScene {
    programs: None,
    before: BEFORE,
    then: FULL_GREETING,
    behind: LOSS,
};

static FULL_CROWDED: ServerScene = ServerScene {
    programs: None,
    before: BEFORE,
    then: FULL_CROWD,
    behind: LOST_CROWD,
};

/// Lines by the link 7, the last of which closes it for a reason.
const IN_HANDSHAKE: &str = "\
hears 7 FOO
closes 7 unknown
%
hears 7 PASS pw 0210010000 TREE|
closes 7 parameters
%
hears 7 PASS pw 0210010001
closes 7 parameters
%
hears 7 NICK al 1 u h 1 +
closes 7 parameters
%
hears 7 :b.net
closes 7 parameters
%
hears 7 PASS pw 0210010001 TREE|
hears 7 SERVER b.net 2 1 :B
closes 7 parameters
%
hears 7 PASS xx 0210010001 TREE|
hears 7 SERVER b.net 1 1 :B
closes 7 password
%
hears 7 PASS pq 0210010001 TREE|
hears 7 SERVER b.net 1 1 :B
closes 7 password
%
hears 7 PASS xx 0210010001 TREE|
hears 7 SERVER c.net 1 1 :C
closes 7 password
%
hears 7 PASS pw 0210010001 TREE|
hears 7 SERVER x.net 1 1 :X
closes 7 peer
%
hears 7 PASS pw 0210010001 TREE|
hears 7 SERVER a.net 1 1 :A
closes 7 peer
%
hears 7 PASS pw 0210010001 TREE|
hears 7 SERVER nodot 1 1 :X
closes 7 peer
%
hears 7 PASS pq 0210010001 TREE|
hears 7 SERVER c.net 1 1 :C
closes 7 known
%
hears 7 SERVER b.net 1 1 :B
closes 7 order
%
hears 7 PASS pw 0210010001 TREE|
hears 7 PASS pw 0210010001 TREE|
closes 7 order
%
hears 7    
hears 7 PASS pw 0210010001 TREE|
hears 7 NICK bo 1 u h 1 + :Bo
closes 7 order
%
hears 7 :cy QUIT :x
closes 7 order
%
hears 7 :b.net SQUIT c.net :x
closes 7 order";

const BEHIND_HANDSHAKE: &str = "\
hears 7 FOO
closes 7 unknown
%
hears 7 OPER al pw
closes 7 unknown
%
hears 7 :b.net
closes 7 parameters
%
hears 7 :b.net SQUIT b.net
closes 7 parameters
%
hears 7 NICK dd 2 u h 1 + :D
closes 7 parameters
%
hears 7 NICK dd 01 u h 1 + :D
closes 7 parameters
%
hears 7 :b.net SERVER e.net 3 2 :E
closes 7 parameters
%
hears 7 :b.net KILL al :other
closes 7 parameters
%
hears 7 :b.net NJOIN #c
closes 7 parameters
%
hears 7 NICK dd 1 u h 9 + :D
closes 7 token
%
hears 7 :b.net SERVER d.net 2 1 :D
closes 7 token
%
hears 7 :cy QUIT :x
closes 7 direction
%
hears 7 :al QUIT :x
closes 7 direction
%
hears 7 :al PRIVMSG cy :x
closes 7 direction
%
hears 7 :c.net SQUIT b.net :x
closes 7 direction
%
hears 7 :a.net SQUIT b.net :x
closes 7 direction
%
hears 7 :zz.net SQUIT b.net :x
closes 7 direction
%
hears 7 :b.net SQUIT c.net :x
closes 7 direction
%
hears 7 :b.net SQUIT a.net :x
closes 7 direction
%
hears 7 :c.net KILL al :Nick collision
closes 7 direction
%
hears 7 NICK 9d 1 u h 1 + :D
closes 7 name
%
hears 7 :b.net SQUIT zz.net :x
closes 7 name
%
hears 7 :b.net SERVER nodot 2 2 :E
closes 7 name
%
hears 7 :b.net NJOIN #c :cy,
closes 7 name
%
hears 7 :b.net PRIVMSG al :x
closes 7 name
%
hears 7 :b.net SERVER a.net 2 2 :A
closes 7 known
%
hears 7 :b.net SERVER b.net 2 2 :B
closes 7 known
%
hears 7 :b.net SERVER c.net 2 2 :C
closes 7 known
%
hears 7 PASS pw 0210010001 TREE|
closes 7 order
%
hears 7 SERVER b.net 1 1 :B
closes 7 order
%
hears 7 SERVER d.net 1 1 :D
closes 7 order";

/// Where 256 servers are known.
const FULL_IN_HANDSHAKE: &str = "\
hears 7 PASS pw 0210010001 TREE|
hears 7 SERVER b.net 1 1 :B
closes 7 full";

const FULL_BEHIND: &str = "\
hears 7 :b.net SERVER e.net 2 2 :E
closes 7 full
%
hears 7 :b.net SERVER c.net 2 2 :C
closes 7 known";

/// What is there already comes no second time.
const TWICE: &str = "\
# A number that b.net has given to a server.
hears 7 PASS pw 0210010001 TREE|
hears 7 SERVER b.net 1 1 :B
hears 7 :b.net SERVER d.net 2 2 :D
hears 7 :b.net SERVER e.net 2 2 :E
on 7 PASS pw 0210010001 TREE|
on 7 SERVER a.net 1 1 :A
on 7 :a.net SERVER c.net 2 2 :C
on 7 NICK al 1 u h 1 + :Al
on 7 NICK cy 2 u h 2 + :Cy
on 8 :a.net SERVER b.net 2 3 :B
on 8 :b.net SERVER d.net 3 4 :D
closes 7 token
on 8 :a.net SQUIT b.net :a.net b.net
on 8 :a.net SQUIT d.net :a.net b.net
%
# A server by a second link, which is closed; its first one stays.
hears 7 PASS pw 0210010001 TREE|
calls 6 b.net
hears 6 PASS pw 0210010001 TREE|
hears 7 SERVER b.net 1 1 :B
hears 6 SERVER b.net 1 1 :B
hears 7 NICK bo 1 u h 1 + :Bo
on 6 PASS pw 0210010001 TREE|
on 6 SERVER a.net 1 1 :A
on 7 PASS pw 0210010001 TREE|
on 7 SERVER a.net 1 1 :A
on 7 :a.net SERVER c.net 2 2 :C
on 7 NICK al 1 u h 1 + :Al
on 7 NICK cy 2 u h 2 + :Cy
on 8 :a.net SERVER b.net 2 3 :B
closes 6 known
on 8 NICK bo 2 u h 3 + :Bo";

/// What is refused behind the handshake of c.net, and why; and what comes then is taken.
const REFUSED: &str = "\
refuses link-there called 8
refuses link-there calls 8 b.net
refuses link-there calls 7 x.net
refuses no-link hears 9 PASS pw 0210010001 TREE|
refuses no-link loses 1
refuses there connects 1
refuses no-connection says 8 PING x
refuses no-connection leaves 8
hears 7 FOO
closes 7 unknown
says 1 PRIVMSG cy :yo
on 8 :al PRIVMSG cy :yo
called 7";

#[test]
fn a_handshake_closes_a_link(rt: HostRuntime) {
    assert!(rt; table_holds(&rt, rt.alloc(), &STRANGE, IN_HANDSHAKE));
}

#[test]
fn a_line_behind_the_handshake_closes_a_link(rt: HostRuntime) {
    assert!(rt; table_holds(&rt, rt.alloc(), &LINKED, BEHIND_HANDSHAKE));
    assert!(rt; table_holds(&rt, rt.alloc(), &CROWDED, BEHIND_HANDSHAKE));
}

#[test]
fn no_server_comes_beyond_the_last(rt: HostRuntime) {
    assert!(rt; table_holds(&rt, rt.alloc(), &FULL_STRANGE, FULL_IN_HANDSHAKE));
    assert!(rt; table_holds(&rt, rt.alloc(), &FULL_LINKED, FULL_BEHIND));
    assert!(rt; table_holds(&rt, rt.alloc(), &FULL_CROWDED, FULL_BEHIND));
}

#[test]
fn nothing_comes_twice_and_what_is_not_there_is_refused(rt: HostRuntime) {
    assert!(rt; rows_hold(&rt, rt.alloc(), BEFORE, TWICE));
    assert!(rt; rows_hold(&rt, rt.alloc(), BEFORE, REFUSED));
}
