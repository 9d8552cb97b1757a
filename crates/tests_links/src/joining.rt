//! Channels that two sides have when they are linked: spellings, modes and topics are joined (our
//! own choice).
use crate::events::rows_hold;

/// al, client 1, has made #key, #private, #limit, #ban and #Spelled. c.net is linked by 8, with cy,
/// b.net by 7, with bo: no line of its channels has come.
const OUR_SIDE: &str = "\
connects 1
says 1 NICK al
says 1 USER u 0 * :Al
says 1 JOIN #key
says 1 MODE #key +sk aa
says 1 TOPIC #key :x
says 1 JOIN #private
says 1 MODE #private +p
says 1 JOIN #limit
says 1 MODE #limit +imntsk aa
says 1 MODE #limit +l 5
says 1 JOIN #ban
says 1 MODE #ban +bbb A!*@* b!*@* x!*@*
says 1 JOIN #Spelled
called 8
hears 8 PASS pq 0210010001 TREE|
hears 8 SERVER c.net 1 1 :C
called 7
hears 7 PASS pw 0210010001 TREE|
hears 7 SERVER b.net 1 1 :B
hears 7 NICK bo 1 u h 1 + :Bo
hears 8 NICK cy 1 u h 1 + :Cy";

/// What b.net tells of the channels, each with modes of its own.
const THEIRS: &str = "\
# The greater key takes the place of the lesser one; what is set here alone is shown to nobody
# here.
hears 7 :b.net NJOIN #key :@bo
hears 7 :b.net MODE #key +nk bb
says 1 MODE #key
says 1 TOPIC #key
to 1 :bo!u@h JOIN #key
to 1 :a.net MODE #key +o bo
on 8 :b.net NJOIN #key :@bo
to 1 :a.net MODE #key +nk bb
on 8 :b.net MODE #key +nk bb
to 1 :a.net 324 al #key +nsk bb
to 1 :a.net 332 al #key :x
%
# Secret is more than private.
hears 7 :b.net NJOIN #private :bo
hears 7 :b.net MODE #private +s
says 1 MODE #private
to 1 :bo!u@h JOIN #private
on 8 :b.net NJOIN #private :bo
to 1 :a.net MODE #private +s
on 8 :b.net MODE #private +s
to 1 :a.net 324 al #private +s
%
# Of one line what raises something is made and shown, and the line goes on as it came.
hears 7 :b.net NJOIN #limit :bo
hears 7 :b.net MODE #limit +inptl 50
says 1 MODE #limit
to 1 :bo!u@h JOIN #limit
on 8 :b.net NJOIN #limit :bo
to 1 :a.net MODE #limit +l 50
on 8 :b.net MODE #limit +inptl 50
to 1 :a.net 324 al #limit +imnstkl aa 50
%
# Of two spellings of a ban the greater stays.
hears 7 :b.net NJOIN #ban :bo
hears 7 :b.net MODE #ban +bbb a!*@* B!*@* y!*@*
says 1 MODE #ban b
to 1 :bo!u@h JOIN #ban
on 8 :b.net NJOIN #ban :bo
to 1 :a.net MODE #ban +bb a!*@* y!*@*
on 8 :b.net MODE #ban +bbb a!*@* B!*@* y!*@*
to 1 :a.net 367 al #ban a!*@*
to 1 :a.net 367 al #ban b!*@*
to 1 :a.net 367 al #ban x!*@*
to 1 :a.net 367 al #ban y!*@*
to 1 :a.net 368 al #ban :End of channel ban list
%
# Of two spellings of a channel the greater stays, from its first member on.
hears 7 :b.net NJOIN #spelled :@bo
hears 7 :b.net MODE #spelled +m
says 1 MODE #SPELLED
to 1 :bo!u@h JOIN #spelled
to 1 :a.net MODE #spelled +o bo
on 8 :b.net NJOIN #spelled :@bo
to 1 :a.net MODE #spelled +m
on 8 :b.net MODE #spelled +m
to 1 :a.net 324 al #spelled +m
%
# Where somebody is left of the members alone.
hears 7 :b.net NJOIN #spelled :@zz,@al
hears 7 :b.net MODE #spelled +m
hears 7 :b.net TOPIC #spelled :x
says 1 MODE #spelled
to 1 :a.net 324 al #Spelled +";

/// The same the other way round: al has the modes of the other side.
const OTHER_SIDE: &str = "\
connects 1
says 1 NICK al
says 1 USER u 0 * :Al
says 1 JOIN #key
says 1 MODE #key +nk bb
says 1 JOIN #private
says 1 MODE #private +s
says 1 JOIN #limit
says 1 MODE #limit +intp
says 1 MODE #limit +l 50
says 1 JOIN #ban
says 1 MODE #ban +bbb a!*@* B!*@* y!*@*
says 1 JOIN #spelled
says 1 MODE #spelled +m
called 8
hears 8 PASS pq 0210010001 TREE|
hears 8 SERVER c.net 1 1 :C
called 7
hears 7 PASS pw 0210010001 TREE|
hears 7 SERVER b.net 1 1 :B
hears 7 NICK bo 1 u h 1 + :Bo
hears 8 NICK cy 1 u h 1 + :Cy";

const OURS: &str = "\
hears 7 :b.net NJOIN #key :bo
hears 7 :b.net MODE #key +sk aa
hears 7 :b.net TOPIC #key :x
says 1 MODE #key
says 1 TOPIC #key
to 1 :bo!u@h JOIN #key
on 8 :b.net NJOIN #key :bo
to 1 :a.net MODE #key +s
on 8 :b.net MODE #key +sk aa
to 1 :a.net TOPIC #key :x
on 8 :b.net TOPIC #key :x
to 1 :a.net 324 al #key +nsk bb
to 1 :a.net 332 al #key :x
%
# A line that raises nothing is shown to nobody, and goes on.
hears 7 :b.net NJOIN #private :bo
hears 7 :b.net MODE #private +p
says 1 MODE #private
to 1 :bo!u@h JOIN #private
on 8 :b.net NJOIN #private :bo
on 8 :b.net MODE #private +p
to 1 :a.net 324 al #private +s
%
hears 7 :b.net NJOIN #limit :bo
hears 7 :b.net MODE #limit +imnstkl aa 5
says 1 MODE #limit
to 1 :bo!u@h JOIN #limit
on 8 :b.net NJOIN #limit :bo
to 1 :a.net MODE #limit +msk aa
on 8 :b.net MODE #limit +imnstkl aa 5
to 1 :a.net 324 al #limit +imnstkl aa 50
%
hears 7 :b.net NJOIN #ban :bo
hears 7 :b.net MODE #ban +bbb A!*@* b!*@* x!*@*
says 1 MODE #ban b
to 1 :bo!u@h JOIN #ban
on 8 :b.net NJOIN #ban :bo
to 1 :a.net MODE #ban +bb b!*@* x!*@*
on 8 :b.net MODE #ban +bbb A!*@* b!*@* x!*@*
to 1 :a.net 367 al #ban a!*@*
to 1 :a.net 367 al #ban b!*@*
to 1 :a.net 367 al #ban x!*@*
to 1 :a.net 367 al #ban y!*@*
to 1 :a.net 368 al #ban :End of channel ban list
%
hears 7 :b.net NJOIN #Spelled :bo
says 1 MODE #Spelled
to 1 :bo!u@h JOIN #spelled
on 8 :b.net NJOIN #Spelled :bo
to 1 :a.net 324 al #spelled +m";

/// Lines of servers in channels of al's, bo of b.net in some of them.
const LATER: &str = "\
# A topic that is not greater is shown to nobody, and goes on.
hears 7 :b.net NJOIN #key :bo
hears 7 :b.net TOPIC #key :w
hears 7 :b.net TOPIC #key :x
hears 7 :b.net TOPIC #key :
hears 7 :b.net TOPIC #key :y
to 1 :bo!u@h JOIN #key
on 8 :b.net NJOIN #key :bo
on 8 :b.net TOPIC #key :w
on 8 :b.net TOPIC #key :x
on 8 :b.net TOPIC #key :
to 1 :a.net TOPIC #key :y
on 8 :b.net TOPIC #key :y
%
# What is taken away is, and a member is given what it is given.
hears 7 :b.net NJOIN #limit :bo
hears 7 :b.net MODE #limit -m+o bo
hears 7 :b.net MODE #limit +no bo
says 1 MODE #limit
to 1 :bo!u@h JOIN #limit
on 8 :b.net NJOIN #limit :bo
to 1 :a.net MODE #limit -m+o bo
on 8 :b.net MODE #limit -m+o bo
to 1 :a.net MODE #limit +o bo
on 8 :b.net MODE #limit +no bo
to 1 :a.net 324 al #limit +instkl aa 5
%
# Changes are judged one after another.
hears 7 :b.net NJOIN #ban :bo
hears 7 :b.net MODE #ban +bb Z!*@* z!*@*
hears 7 :b.net MODE #ban +bb y!*@* Y!*@*
hears 7 :b.net MODE #ban +ps
hears 7 :b.net NJOIN #Spelled :bo
hears 7 :b.net MODE #Spelled +sp
to 1 :bo!u@h JOIN #ban
on 8 :b.net NJOIN #ban :bo
to 1 :a.net MODE #ban +bb Z!*@* z!*@*
on 8 :b.net MODE #ban +bb Z!*@* z!*@*
to 1 :a.net MODE #ban +b y!*@*
on 8 :b.net MODE #ban +bb y!*@* Y!*@*
to 1 :a.net MODE #ban +ps
on 8 :b.net MODE #ban +ps
to 1 :bo!u@h JOIN #Spelled
on 8 :b.net NJOIN #Spelled :bo
to 1 :a.net MODE #Spelled +s
on 8 :b.net MODE #Spelled +sp
%
# A server's line counts by whoever is behind its link, a user of another server too.
hears 7 :b.net SERVER d.net 2 2 :D
hears 7 :b.net NJOIN #KEY :bo
hears 7 :d.net MODE #KEY +nk bb
hears 7 :d.net TOPIC #KEY :y
on 8 :b.net SERVER d.net 3 4 :D
to 1 :bo!u@h JOIN #key
on 8 :b.net NJOIN #KEY :bo
to 1 :a.net MODE #key +nk bb
on 8 :d.net MODE #KEY +nk bb
to 1 :a.net TOPIC #key :y
on 8 :d.net TOPIC #KEY :y
%
# A channel that nobody behind the link is in, and one that is not there.
hears 7 :b.net NJOIN #key :bo
hears 8 :c.net MODE #key +n
hears 8 :c.net TOPIC #key :y
hears 7 :b.net MODE #limit +n
hears 7 :b.net TOPIC #limit :y
hears 7 :b.net MODE #none +n
to 1 :bo!u@h JOIN #key
on 8 :b.net NJOIN #key :bo
%
# The only one that was in it is killed.
hears 7 :b.net NJOIN #key :bo
hears 8 NICK bo 1 u h 1 + :Bo
hears 7 :b.net MODE #key +n
hears 7 :b.net TOPIC #key :y
to 1 :bo!u@h JOIN #key
on 8 :b.net NJOIN #key :bo
to 1 :bo!u@h QUIT :Killed (Nick collision)
on 7 :a.net KILL bo :Nick collision
on 8 :a.net KILL bo :Nick collision
%
# The same burst once more raises nothing.
hears 7 :b.net NJOIN #key :bo
hears 7 :b.net MODE #key +nsk bb
hears 7 :b.net MODE #key +nsk bb
to 1 :bo!u@h JOIN #key
on 8 :b.net NJOIN #key :bo
to 1 :a.net MODE #key +nk bb
on 8 :b.net MODE #key +nsk bb
on 8 :b.net MODE #key +nsk bb";

/// al, client 1, and zed, client 2, are in #ZOO. c.net is linked by 8, then b.net by 7, with ben.
const ZED: &str = "\
connects 1
says 1 NICK al
says 1 USER u 0 * :Al
connects 2
says 2 NICK zed
says 2 USER u 0 * :Zed
says 1 JOIN #ZOO
says 2 JOIN #ZOO
called 8
hears 8 PASS pq 0210010001 TREE|
hears 8 SERVER c.net 1 1 :C
called 7
hears 7 PASS pw 0210010001 TREE|
hears 7 SERVER b.net 1 1 :B
hears 7 NICK ben 1 u h 1 + :Ben";

/// b.net has a zed too, in #zoo.
const ZEDS: &str = "\
# It was alone there: the channel has ended on its side, and nothing of it counts.
hears 7 NICK zed 1 u h 1 + :Zed
hears 7 :b.net NJOIN #zoo :@zed
hears 7 :b.net MODE #zoo +i
hears 7 :b.net TOPIC #zoo :x
says 1 MODE #zoo
says 1 TOPIC #zoo
to 1 :zed!u@h QUIT :Killed (Nick collision)
to 2 ERROR :Closing link (Killed (Nick collision))
ends 2
on 7 :a.net KILL zed :Nick collision
on 8 :a.net KILL zed :Nick collision
to 1 :a.net 324 al #ZOO +
to 1 :a.net 331 al #ZOO :No topic is set
%
# With ben, who is left.
hears 7 NICK zed 1 u h 1 + :Zed
hears 7 :b.net NJOIN #zoo :@zed,ben
hears 7 :b.net MODE #zoo +i
hears 7 :b.net TOPIC #zoo :x
says 1 MODE #zoo
says 1 TOPIC #zoo
to 1 :zed!u@h QUIT :Killed (Nick collision)
to 2 ERROR :Closing link (Killed (Nick collision))
ends 2
on 7 :a.net KILL zed :Nick collision
on 8 :a.net KILL zed :Nick collision
to 1 :ben!u@h JOIN #zoo
on 8 :b.net NJOIN #zoo :ben
to 1 :a.net MODE #zoo +i
on 8 :b.net MODE #zoo +i
to 1 :a.net TOPIC #zoo :x
on 8 :b.net TOPIC #zoo :x
to 1 :a.net 324 al #zoo +i
to 1 :a.net 332 al #zoo :x";

/// The same the other way round: al, client 1, is in no channel, and zed, client 2, alone in #zoo.
const ALONE: &str = "\
connects 1
says 1 NICK al
says 1 USER u 0 * :Al
connects 2
says 2 NICK zed
says 2 USER u 0 * :Zed
says 2 JOIN #zoo
says 2 MODE #zoo +i
says 2 TOPIC #zoo :x
called 8
hears 8 PASS pq 0210010001 TREE|
hears 8 SERVER c.net 1 1 :C
called 7
hears 7 PASS pw 0210010001 TREE|
hears 7 SERVER b.net 1 1 :B
hears 7 NICK ben 1 u h 1 + :Ben";

/// The channel of this side has ended before the one of the other is told: that is made anew, with
/// its own spelling, modes and topic.
const ENDED: &str = "\
hears 7 NICK zed 1 u h 1 + :Zed
hears 7 :b.net NJOIN #ZOO :@ben,zed
says 1 MODE #zoo
says 1 TOPIC #zoo
to 2 ERROR :Closing link (Killed (Nick collision))
ends 2
on 7 :a.net KILL zed :Nick collision
on 8 :a.net KILL zed :Nick collision
on 8 :b.net NJOIN #ZOO :@ben
to 1 :a.net 324 al #ZOO +
to 1 :a.net 331 al #ZOO :No topic is set";

/// Three in a row: b.net with bo by 7, a.net, c.net with cy by 8. al, client 1, is in no channel.
const MIDDLE: &str = "\
connects 1
says 1 NICK al
says 1 USER u 0 * :Al
called 7
hears 7 PASS pw 0210010001 TREE|
hears 7 SERVER b.net 1 1 :B
hears 7 NICK bo 1 u h 1 + :Bo
called 8
hears 8 PASS pq 0210010001 TREE|
hears 8 SERVER c.net 1 1 :C
hears 8 NICK cy 1 u h 1 + :Cy";

/// A server without a member joins what it hears, and passes on each line as it came.
const PASSED_ON: &str = "\
hears 7 :b.net NJOIN #C :@bo
hears 7 :b.net MODE #C +mk aa
hears 7 :b.net TOPIC #C :x
hears 8 :c.net NJOIN #c :@cy
hears 8 :c.net MODE #c +mnk bb
hears 8 :c.net TOPIC #c :w
says 1 JOIN #c bb
says 1 MODE #c
on 8 :b.net NJOIN #C :@bo
on 8 :b.net MODE #C +mk aa
on 8 :b.net TOPIC #C :x
on 7 :c.net NJOIN #c :@cy
on 7 :c.net MODE #c +mnk bb
on 7 :c.net TOPIC #c :w
to 1 :al!u@h JOIN #c
on 7 :al JOIN #c
on 8 :al JOIN #c
to 1 :a.net 332 al #c :x
to 1 :a.net 353 al = #c :al @bo @cy
to 1 :a.net 366 al #c :End of NAMES list
to 1 :a.net 324 al #c +mnk bb";

/// Three in a row: cy, client 1, of a.net is in #c, and a.net knows c.net behind b.net, with bo.
const LAST: &str = "\
connects 1
says 1 NICK cy
says 1 USER u 0 * :Cy
says 1 JOIN #c
says 1 MODE #c +mnk bb
says 1 TOPIC #c :w
called 7
hears 7 PASS pw 0210010001 TREE|
hears 7 SERVER b.net 1 1 :B
hears 7 :b.net SERVER c.net 2 2 :C
hears 7 NICK bo 2 u h 2 + :Bo";

/// The last of them has the same channel as the one in the middle: in its spelling, with all modes
/// and the greater topic.
const COME_TO_THE_LAST: &str = "\
hears 7 :c.net NJOIN #C :@bo
hears 7 :c.net MODE #C +mk aa
hears 7 :c.net TOPIC #C :x
says 1 MODE #c
says 1 TOPIC #c
to 1 :bo!u@h JOIN #c
to 1 :a.net MODE #c +o bo
to 1 :a.net TOPIC #c :x
to 1 :a.net 324 cy #c +mnk bb
to 1 :a.net 332 cy #c :x";

/// al, client 1, has made #c, with 20 bans; b.net is linked by 7, with bo.
const TWENTY_BANS: &str = "\
connects 1
says 1 NICK al
says 1 USER u 0 * :Al
says 1 JOIN #c
says 1 MODE #c +bbb a00!*@* a01!*@* a02!*@*
says 1 MODE #c +bbb a03!*@* a04!*@* a05!*@*
says 1 MODE #c +bbb a06!*@* a07!*@* a08!*@*
says 1 MODE #c +bbb a09!*@* a10!*@* a11!*@*
says 1 MODE #c +bbb a12!*@* a13!*@* a14!*@*
says 1 MODE #c +bbb a15!*@* a16!*@* a17!*@*
says 1 MODE #c +bb a18!*@* a19!*@*
called 7
hears 7 PASS pw 0210010001 TREE|
hears 7 SERVER b.net 1 1 :B
hears 7 NICK bo 1 u h 1 + :Bo";

/// Twenty others come, three a line: more than a client may set. One more is refused to al.
const TWENTY_MORE: &str = "\
hears 7 :b.net NJOIN #c :bo
hears 7 :b.net MODE #c +bbb b00!*@* b01!*@* b02!*@*
hears 7 :b.net MODE #c +bbb b03!*@* b04!*@* b05!*@*
hears 7 :b.net MODE #c +bbb b06!*@* b07!*@* b08!*@*
hears 7 :b.net MODE #c +bbb b09!*@* b10!*@* b11!*@*
hears 7 :b.net MODE #c +bbb b12!*@* b13!*@* b14!*@*
hears 7 :b.net MODE #c +bbb b15!*@* b16!*@* b17!*@*
hears 7 :b.net MODE #c +bb b18!*@* b19!*@*
says 1 MODE #c +b c!*@*
to 1 :bo!u@h JOIN #c
to 1 :a.net MODE #c +bbb b00!*@* b01!*@* b02!*@*
to 1 :a.net MODE #c +bbb b03!*@* b04!*@* b05!*@*
to 1 :a.net MODE #c +bbb b06!*@* b07!*@* b08!*@*
to 1 :a.net MODE #c +bbb b09!*@* b10!*@* b11!*@*
to 1 :a.net MODE #c +bbb b12!*@* b13!*@* b14!*@*
to 1 :a.net MODE #c +bbb b15!*@* b16!*@* b17!*@*
to 1 :a.net MODE #c +bb b18!*@* b19!*@*
to 1 :a.net 478 al #c b :Channel list is full";

#[test]
fn what_the_other_side_raises_is_shown(rt: HostRuntime) {
    assert!(rt; rows_hold(&rt, rt.alloc(), OUR_SIDE, THEIRS));
    assert!(rt; rows_hold(&rt, rt.alloc(), OTHER_SIDE, OURS));
}

#[test]
fn a_servers_line_counts_where_somebody_is_behind_the_link(rt: HostRuntime) {
    assert!(rt; rows_hold(&rt, rt.alloc(), OUR_SIDE, LATER));
}

#[test]
fn a_channel_that_has_ended_tells_nothing(rt: HostRuntime) {
    assert!(rt; rows_hold(&rt, rt.alloc(), ZED, ZEDS));
    assert!(rt; rows_hold(&rt, rt.alloc(), ALONE, ENDED));
}

#[test]
fn a_server_between_two_sides_joins_them(rt: HostRuntime) {
    assert!(rt; rows_hold(&rt, rt.alloc(), MIDDLE, PASSED_ON));
    assert!(rt; rows_hold(&rt, rt.alloc(), LAST, COME_TO_THE_LAST));
}

#[test]
fn bans_of_both_sides_may_be_more_than_thirty(rt: HostRuntime) {
    assert!(rt; rows_hold(&rt, rt.alloc(), TWENTY_BANS, TWENTY_MORE));
}
