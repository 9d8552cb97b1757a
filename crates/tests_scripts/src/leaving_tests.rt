//! PART, JOIN 0, QUIT and lost connections (RFC 2812 sections 3.1.7, 3.2.1 and 3.2.2).
use crate::running::prints;

/// The text is cut to 160 bytes, and the nickname stands for none. A channel that is named twice is
/// left once.
const PARTING: &str = "\
> say 1 JOIN #A,#b
1 :al!u@h JOIN #A
1 :a.net 353 al = #A :@al
1 :a.net 366 al #A :End of NAMES list
1 :al!u@h JOIN #b
1 :a.net 353 al = #b :@al
1 :a.net 366 al #b :End of NAMES list
> say 2 JOIN #a
1 :bo!u@h JOIN #A
2 :bo!u@h JOIN #A
2 :a.net 353 bo = #A :@al bo
2 :a.net 366 bo #a :End of NAMES list
> say 1 PART
1 :a.net 461 al PART :Not enough parameters
> say 1 PART ,,
> say 1 PART no,#No
1 :a.net 403 al no :No such channel
1 :a.net 403 al #No :No such channel
> say 3 PART #a
3 :a.net 442 cy #A :You're not on that channel
> say 2 PART #a :bye all
1 :bo!u@h PART #A :bye all
2 :bo!u@h PART #A :bye all
> say 2 PART #a
2 :a.net 442 bo #A :You're not on that channel
> say 2 JOIN #a
1 :bo!u@h JOIN #A
2 :bo!u@h JOIN #A
2 :a.net 353 bo = #A :@al bo
2 :a.net 366 bo #a :End of NAMES list
> say 2 PART #a :
1 :bo!u@h PART #A :bo
2 :bo!u@h PART #A :bo
> say 1 PART #b,#no,#a :%x
1 :al!u@h PART #b :%
1 :a.net 403 al #no :No such channel
1 :al!u@h PART #A :%
> say 1 PART #a
1 :a.net 403 al #a :No such channel
> say 1 JOIN #C,#d
1 :al!u@h JOIN #C
1 :a.net 353 al = #C :@al
1 :a.net 366 al #C :End of NAMES list
1 :al!u@h JOIN #d
1 :a.net 353 al = #d :@al
1 :a.net 366 al #d :End of NAMES list
> say 2 JOIN #c
1 :bo!u@h JOIN #C
2 :bo!u@h JOIN #C
2 :a.net 353 bo = #C :@al bo
2 :a.net 366 bo #c :End of NAMES list
> say 1 PART #c,#C :x
1 :al!u@h PART #C :x
2 :al!u@h PART #C :x
1 :a.net 442 al #C :You're not on that channel
> say 2 PART #c,#c
2 :bo!u@h PART #C :bo
2 :a.net 403 bo #c :No such channel
> say 3 PART #d,#D
3 :a.net 442 cy #d :You're not on that channel
3 :a.net 442 cy #d :You're not on that channel
> say 1 PART #d one two
1 :al!u@h PART #d :one
";

#[test]
fn an_entry_of_part_finds_what_those_before_have_left(rt: HostRuntime) {
    assert!(rt; prints(rt.alloc(), 3, PARTING));
}

/// In folded order, and only where `0` is the whole parameter.
const LEAVING_ALL: &str = "\
> say 1 JOIN #b,#A
1 :al!u@h JOIN #b
1 :a.net 353 al = #b :@al
1 :a.net 366 al #b :End of NAMES list
1 :al!u@h JOIN #A
1 :a.net 353 al = #A :@al
1 :a.net 366 al #A :End of NAMES list
> say 2 JOIN #a
1 :bo!u@h JOIN #A
2 :bo!u@h JOIN #A
2 :a.net 353 bo = #A :@al bo
2 :a.net 366 bo #a :End of NAMES list
> say 1 JOIN 0 x
1 :al!u@h PART #A :al
2 :al!u@h PART #A :al
1 :al!u@h PART #b :al
> say 1 JOIN 0
> say 1 JOIN #b,0
1 :al!u@h JOIN #b
1 :a.net 353 al = #b :@al
1 :a.net 366 al #b :End of NAMES list
1 :a.net 403 al 0 :No such channel
> say 2 NAMES
2 :a.net 353 bo = #A :bo
2 :a.net 353 bo = #b :@al
2 :a.net 366 bo * :End of NAMES list
";

#[test]
fn join_0_leaves_all_channels(rt: HostRuntime) {
    assert!(rt; prints(rt.alloc(), 2, LEAVING_ALL));
}

/// However many channels are shared. Who quits is told last and closed; who is gone is told
/// nothing.
const QUITTING: &str = "\
> say 1 JOIN #c,#d
1 :al!u@h JOIN #c
1 :a.net 353 al = #c :@al
1 :a.net 366 al #c :End of NAMES list
1 :al!u@h JOIN #d
1 :a.net 353 al = #d :@al
1 :a.net 366 al #d :End of NAMES list
> say 2 JOIN #c,#d
1 :bo!u@h JOIN #c
2 :bo!u@h JOIN #c
2 :a.net 353 bo = #c :@al bo
2 :a.net 366 bo #c :End of NAMES list
1 :bo!u@h JOIN #d
2 :bo!u@h JOIN #d
2 :a.net 353 bo = #d :@al bo
2 :a.net 366 bo #d :End of NAMES list
> say 3 JOIN #d
1 :cy!u@h JOIN #d
2 :cy!u@h JOIN #d
3 :cy!u@h JOIN #d
3 :a.net 353 cy = #d :@al bo cy
3 :a.net 366 cy #d :End of NAMES list
> say 1 QUIT
2 :al!u@h QUIT :al
3 :al!u@h QUIT :al
1 ERROR :Closing link (al)
> say 1 PING x
! 3
> gone 1
! 3
> gone 2
3 :bo!u@h QUIT :Connection closed
> gone 2
! 3
> say 2 PING x
! 3
> say 3 NAMES
3 :a.net 353 cy = #d :cy
3 :a.net 366 cy * :End of NAMES list
> say 3 PRIVMSG al,bo :hi
3 :a.net 401 cy al :No such nick/channel
3 :a.net 401 cy bo :No such nick/channel
> connect a.net h
> say 4 NICK al
> say 4 USER u 0 * :Al
4 :a.net 001 al :Welcome to the Internet Relay Network al!u@h
4 :a.net 002 al :Your host is a.net, running version treeircd-1
4 :a.net 003 al :This server was created 2024-01-01
4 :a.net 004 al a.net treeircd-1 i biklmnopstv
4 :a.net 422 al :MOTD File is missing
> say 4 JOIN #d
4 :al!u@h JOIN #d
3 :al!u@h JOIN #d
4 :a.net 353 al = #d :al cy
4 :a.net 366 al #d :End of NAMES list
> say 4 QUIT :
3 :al!u@h QUIT :al
4 ERROR :Closing link (al)
> say 3 QUIT :%x
3 ERROR :Closing link (%)
";

#[test]
fn who_leaves_is_seen_to_quit_once(rt: HostRuntime) {
    assert!(rt; prints(rt.alloc(), 3, QUITTING));
}
