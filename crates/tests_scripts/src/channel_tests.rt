//! JOIN, TOPIC and NAMES (RFC 2812 sections 3.2.1, 3.2.4 and 3.2.5).
use crate::running::{add_text, is_run, prints};
use std::alloc::Global;
use std::io;
use std::io::Write;

/// Each entry is judged by what those before have left. The channel is named as its maker spelled
/// it, in a 366 as it was asked for.
const JOINING: &str = "\
> say 1 JOIN
1 :a.net 461 al JOIN :Not enough parameters
> say 1 JOIN :
> say 1 JOIN #Rust
1 :al!u@h JOIN #Rust
1 :a.net 353 al = #Rust :@al
1 :a.net 366 al #Rust :End of NAMES list
> say 2 JOIN #rUST
1 :bo!u@h JOIN #Rust
2 :bo!u@h JOIN #Rust
2 :a.net 353 bo = #Rust :@al bo
2 :a.net 366 bo #rUST :End of NAMES list
> say 2 JOIN #RUST
> say 3 JOIN rust,#a:b,,#RUST,#rust,#own x,y,z
3 :a.net 403 cy rust :No such channel
3 :a.net 403 cy #a:b :No such channel
1 :cy!u@h JOIN #Rust
2 :cy!u@h JOIN #Rust
3 :cy!u@h JOIN #Rust
3 :a.net 353 cy = #Rust :@al bo cy
3 :a.net 366 cy #RUST :End of NAMES list
3 :cy!u@h JOIN #own
3 :a.net 353 cy = #own :@cy
3 :a.net 366 cy #own :End of NAMES list
> say 3 JOIN #,0
3 :cy!u@h JOIN #
3 :a.net 353 cy = # :@cy
3 :a.net 366 cy # :End of NAMES list
3 :a.net 403 cy 0 :No such channel
> say 3 JOIN #aaaaaaaaaabbbbbbbbbbccccccccccddddddddddeeeeeeeee
3 :cy!u@h JOIN #aaaaaaaaaabbbbbbbbbbccccccccccddddddddddeeeeeeeee
3 :a.net 353 cy = #aaaaaaaaaabbbbbbbbbbccccccccccddddddddddeeeeeeeee :@cy
3 :a.net 366 cy #aaaaaaaaaabbbbbbbbbbccccccccccddddddddddeeeeeeeee :End of NAMES list
> say 3 JOIN #aaaaaaaaaabbbbbbbbbbccccccccccddddddddddeeeeeeeeef
3 :a.net 403 cy #aaaaaaaaaabbbbbbbbbbccccccccccddddddddddeeeeeeeeef :No such channel
> say 1 join
1 :a.net 461 al JOIN :Not enough parameters
> say 1 JOIN #a\x07b,0,#x]\\~
1 :a.net 403 al #a\x07b :No such channel
1 :a.net 403 al 0 :No such channel
1 :al!u@h JOIN #x]\\~
1 :a.net 353 al = #x]\\~ :@al
1 :a.net 366 al #x]\\~ :End of NAMES list
> say 2 JOIN #X}|^
1 :bo!u@h JOIN #x]\\~
2 :bo!u@h JOIN #x]\\~
2 :a.net 353 bo = #x]\\~ :@al bo
2 :a.net 366 bo #X}|^ :End of NAMES list
> say 1 JOIN 0,#y
1 :a.net 403 al 0 :No such channel
1 :al!u@h JOIN #y
1 :a.net 353 al = #y :@al
1 :a.net 366 al #y :End of NAMES list
";

#[test]
fn members_see_who_joins(rt: HostRuntime) {
    assert!(rt; prints(rt.alloc(), 3, JOINING));
}

/// A channel that was left makes room for another. Who is in ten is told so before anything of the
/// channel.
const JOINING_MANY: &str = "\
> say 1 JOIN #0,#1,#2,#3,#4,#5,#6,#7,#8,#9,#k
1 :al!u@h JOIN #0
1 :a.net 353 al = #0 :@al
1 :a.net 366 al #0 :End of NAMES list
1 :al!u@h JOIN #1
1 :a.net 353 al = #1 :@al
1 :a.net 366 al #1 :End of NAMES list
1 :al!u@h JOIN #2
1 :a.net 353 al = #2 :@al
1 :a.net 366 al #2 :End of NAMES list
1 :al!u@h JOIN #3
1 :a.net 353 al = #3 :@al
1 :a.net 366 al #3 :End of NAMES list
1 :al!u@h JOIN #4
1 :a.net 353 al = #4 :@al
1 :a.net 366 al #4 :End of NAMES list
1 :al!u@h JOIN #5
1 :a.net 353 al = #5 :@al
1 :a.net 366 al #5 :End of NAMES list
1 :al!u@h JOIN #6
1 :a.net 353 al = #6 :@al
1 :a.net 366 al #6 :End of NAMES list
1 :al!u@h JOIN #7
1 :a.net 353 al = #7 :@al
1 :a.net 366 al #7 :End of NAMES list
1 :al!u@h JOIN #8
1 :a.net 353 al = #8 :@al
1 :a.net 366 al #8 :End of NAMES list
1 :al!u@h JOIN #9
1 :a.net 353 al = #9 :@al
1 :a.net 366 al #9 :End of NAMES list
1 :a.net 405 al #k :You have joined too many channels
> say 1 JOIN #5,c,#K
1 :a.net 403 al c :No such channel
1 :a.net 405 al #K :You have joined too many channels
> say 1 PART #9
1 :al!u@h PART #9 :al
> say 1 JOIN #K
1 :al!u@h JOIN #K
1 :a.net 353 al = #K :@al
1 :a.net 366 al #K :End of NAMES list
> say 2 JOIN #i
2 :bo!u@h JOIN #i
2 :a.net 353 bo = #i :@bo
2 :a.net 366 bo #i :End of NAMES list
> say 2 MODE #i +i
2 :bo!u@h MODE #i +i
> say 1 JOIN #I
1 :a.net 405 al #I :You have joined too many channels
";

#[test]
fn the_eleventh_channel_is_too_many(rt: HostRuntime) {
    assert!(rt; prints(rt.alloc(), 2, JOINING_MANY));
}

/// A topic is cut to 160 bytes. The same topic is shown again, and an empty one clears it. Under
/// mode t an operator alone sets one.
const TOPICS: &str = "\
> say 1 JOIN #Rust
1 :al!u@h JOIN #Rust
1 :a.net 353 al = #Rust :@al
1 :a.net 366 al #Rust :End of NAMES list
> say 2 TOPIC
2 :a.net 461 bo TOPIC :Not enough parameters
> say 2 TOPIC #No
2 :a.net 403 bo #No :No such channel
> say 2 TOPIC #no :mine
2 :a.net 403 bo #no :No such channel
> say 2 TOPIC rust
2 :a.net 403 bo rust :No such channel
> say 2 TOPIC #rust
2 :a.net 331 bo #Rust :No topic is set
> say 2 TOPIC #rust :mine
2 :a.net 442 bo #Rust :You're not on that channel
> say 1 TOPIC #RUST :hello
1 :al!u@h TOPIC #Rust :hello
> say 1 TOPIC #rust :hello
1 :al!u@h TOPIC #Rust :hello
> say 2 JOIN #rust
1 :bo!u@h JOIN #Rust
2 :bo!u@h JOIN #Rust
2 :a.net 332 bo #Rust :hello
2 :a.net 353 bo = #Rust :@al bo
2 :a.net 366 bo #rust :End of NAMES list
> say 3 TOPIC #rust
3 :a.net 332 cy #Rust :hello
> say 2 TOPIC #rust :
1 :bo!u@h TOPIC #Rust :
2 :bo!u@h TOPIC #Rust :
> say 2 TOPIC #rust
2 :a.net 331 bo #Rust :No topic is set
> say 2 TOPIC #rust :
1 :bo!u@h TOPIC #Rust :
2 :bo!u@h TOPIC #Rust :
> say 2 TOPIC #rust :%x
1 :bo!u@h TOPIC #Rust :%
2 :bo!u@h TOPIC #Rust :%
> say 3 TOPIC #rust
3 :a.net 332 cy #Rust :%
> say 1 MODE #rust +t
1 :al!u@h MODE #Rust +t
2 :al!u@h MODE #Rust +t
> say 2 TOPIC #rust :mine
2 :a.net 482 bo #Rust :You're not channel operator
> say 1 MODE #rust +v bo
1 :al!u@h MODE #Rust +v bo
2 :al!u@h MODE #Rust +v bo
> say 2 TOPIC #rust :mine
2 :a.net 482 bo #Rust :You're not channel operator
> say 3 TOPIC #rust :mine
3 :a.net 442 cy #Rust :You're not on that channel
> say 1 TOPIC #rust :ours
1 :al!u@h TOPIC #Rust :ours
2 :al!u@h TOPIC #Rust :ours
> say 2 TOPIC #rust
2 :a.net 332 bo #Rust :ours
> say 1 MODE #rust +o bo
1 :al!u@h MODE #Rust +o bo
2 :al!u@h MODE #Rust +o bo
> say 2 TOPIC #rust :
1 :bo!u@h TOPIC #Rust :
2 :bo!u@h TOPIC #Rust :
";

#[test]
fn topics_are_set_and_told(rt: HostRuntime) {
    assert!(rt; prints(rt.alloc(), 3, TOPICS));
}

/// Letters in either case stand before `[`. NAMES alone asks for all channels.
const NAMING: &str = "\
> say 1 NAMES
1 :a.net 366 al * :End of NAMES list
> say 1 JOIN #Rust
1 :al!u@h JOIN #Rust
1 :a.net 353 al = #Rust :@al
1 :a.net 366 al #Rust :End of NAMES list
> say 2 NICK [bo
2 :bo!u@h NICK [bo
> say 2 JOIN #rust
1 :[bo!u@h JOIN #Rust
2 :[bo!u@h JOIN #Rust
2 :a.net 353 [bo = #Rust :@al [bo
2 :a.net 366 [bo #rust :End of NAMES list
> say 3 NICK Zed
3 :cy!u@h NICK Zed
> say 3 NAMES #RUST
3 :a.net 353 Zed = #Rust :@al [bo
3 :a.net 366 Zed #RUST :End of NAMES list
> say 3 JOIN #rust
1 :Zed!u@h JOIN #Rust
3 :Zed!u@h JOIN #Rust
2 :Zed!u@h JOIN #Rust
3 :a.net 353 Zed = #Rust :@al Zed [bo
3 :a.net 366 Zed #rust :End of NAMES list
> say 1 NAMES #no
1 :a.net 366 al #no :End of NAMES list
> say 1 NAMES no
1 :a.net 366 al no :End of NAMES list
> say 1 NAMES ,#rust,,#No #b
1 :a.net 353 al = #Rust :@al Zed [bo
1 :a.net 366 al #rust :End of NAMES list
1 :a.net 366 al #No :End of NAMES list
> say 1 NAMES :
> say 3 JOIN #b
3 :Zed!u@h JOIN #b
3 :a.net 353 Zed = #b :@Zed
3 :a.net 366 Zed #b :End of NAMES list
> say 1 NAMES
1 :a.net 353 al = #b :@Zed
1 :a.net 353 al = #Rust :@al Zed [bo
1 :a.net 366 al * :End of NAMES list
> say 1 MODE #rust +v zed
1 :al!u@h MODE #Rust +v Zed
3 :al!u@h MODE #Rust +v Zed
2 :al!u@h MODE #Rust +v Zed
";

#[test]
fn names_stand_in_folded_order(rt: HostRuntime) {
    assert!(rt; prints(rt.alloc(), 3, NAMING));
}

/// With its last member a channel ends: its topic, its operator and its spelling too.
const ANEW: &str = "\
> say 1 JOIN #C
1 :al!u@h JOIN #C
1 :a.net 353 al = #C :@al
1 :a.net 366 al #C :End of NAMES list
> say 1 TOPIC #c :hello
1 :al!u@h TOPIC #C :hello
> say 2 JOIN #c
1 :bo!u@h JOIN #C
2 :bo!u@h JOIN #C
2 :a.net 332 bo #C :hello
2 :a.net 353 bo = #C :@al bo
2 :a.net 366 bo #c :End of NAMES list
> say 1 PART #c
1 :al!u@h PART #C :al
2 :al!u@h PART #C :al
> say 2 NAMES #c
2 :a.net 353 bo = #C :bo
2 :a.net 366 bo #c :End of NAMES list
> say 2 PART #c
2 :bo!u@h PART #C :bo
> say 2 NAMES #c
2 :a.net 366 bo #c :End of NAMES list
> say 2 JOIN #c
2 :bo!u@h JOIN #c
2 :a.net 353 bo = #c :@bo
2 :a.net 366 bo #c :End of NAMES list
> say 1 JOIN #C
1 :al!u@h JOIN #c
2 :al!u@h JOIN #c
1 :a.net 353 al = #c :al @bo
1 :a.net 366 al #C :End of NAMES list
> say 2 PART #c
1 :bo!u@h PART #c :bo
2 :bo!u@h PART #c :bo
> say 1 NAMES #c
1 :a.net 353 al = #c :al
1 :a.net 366 al #c :End of NAMES list
> say 1 QUIT
1 ERROR :Closing link (al)
> say 2 NAMES #c
2 :a.net 366 bo #c :End of NAMES list
> say 2 JOIN #C
2 :bo!u@h JOIN #C
2 :a.net 353 bo = #C :@bo
2 :a.net 366 bo #C :End of NAMES list
";

#[test]
fn an_ended_channel_is_made_anew(rt: HostRuntime) {
    assert!(rt; prints(rt.alloc(), 2, ANEW));
}

/// Nicknames of clients that join `#c` one after another.
const CROWD: &str =
    "aa ab ac ad ae af ag ah ai aj ak al am an ao ap aq ar as at au av aw ax ay az ba bb bc bd be";

/// A line names ten members at most.
const THIRTY: &str = "\
> say 1 PING x
1 :a.net PONG a.net :x
> say 1 NAMES #c
1 :a.net 353 aa = #c :@aa ab ac ad ae af ag ah ai aj
1 :a.net 353 aa = #c :ak al am an ao ap aq ar as at
1 :a.net 353 aa = #c :au av aw ax ay az ba bb bc bd
1 :a.net 366 aa #c :End of NAMES list
";

const THIRTY_ONE: &str = "\
> say 1 PING x
1 :a.net PONG a.net :x
> say 1 NAMES #c
1 :a.net 353 aa = #c :@aa ab ac ad ae af ag ah ai aj
1 :a.net 353 aa = #c :ak al am an ao ap aq ar as at
1 :a.net 353 aa = #c :au av aw ax ay az ba bb bc bd
1 :a.net 353 aa = #c :be
1 :a.net 366 aa #c :End of NAMES list
";

/// Whether a text, behind the joining of so many clients, is run to its end, and what is printed
/// ends as it says.
fn crowd_ends(alloc: Global, members: usize, text: &str) -> bool {
    let mut script = Vec::new(alloc);
    let mut printed = Vec::new(alloc);
    let mut output = Vec::new(alloc);
    add_crowd(members, &mut script).is_ok()
        && add_text(text, &mut script, &mut printed).is_ok()
        && is_run(alloc, &script, usize::MAX, &mut output)
        && output.ends_with(&printed)
}

fn add_crowd(members: usize, script: &mut Vec<u8>) -> io::Result<()> {
    writeln!(script, "server a.net")?;
    for (place, nick) in CROWD.split(' ').take(members).enumerate() {
        add_member(place.saturating_add(1), nick, script)?;
    }
    Ok(())
}

fn add_member(client: usize, nick: &str, script: &mut Vec<u8>) -> io::Result<()> {
    writeln!(
        script,
        "connect a.net h\nsay {client} NICK {nick}\nsay {client} USER u 0 * :x\nsay {client} JOIN #c"
    )
}

#[test]
fn ten_names_stand_in_a_line(rt: HostRuntime) {
    let alloc = rt.alloc();
    assert!(rt; crowd_ends(alloc, 30, THIRTY) && crowd_ends(alloc, 31, THIRTY_ONE));
}
