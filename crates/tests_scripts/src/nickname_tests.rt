//! NICK of a registered client (RFC 2812 sections 2.2 and 3.1.2).
use crate::running::prints;

/// Another spelling of the own nickname is free, and the same in every byte is no change.
const NICKNAMES: &str = "\
> say 1 NICK
1 :a.net 431 al :No nickname given
> say 1 NICK :
1 :a.net 431 al :No nickname given
> say 1 NICK 9
1 :a.net 432 al 9 :Erroneous nickname
> say 1 NICK al.b
1 :a.net 432 al al.b :Erroneous nickname
> say 1 NICK abcdefghijklmnopqrstuvwxyzabcde
1 :a.net 432 al abcdefghijklmnopqrstuvwxyzabcde :Erroneous nickname
> say 1 NICK bo
1 :a.net 433 al bo :Nickname is already in use
> say 1 NICK BO
1 :a.net 433 al BO :Nickname is already in use
> say 1 NICK al
> say 1 NICK abcdefghijklmnopqrstuvwxyzabcd
1 :al!u@h NICK abcdefghijklmnopqrstuvwxyzabcd
> say 1 NICK foo[
1 :abcdefghijklmnopqrstuvwxyzabcd!u@h NICK foo[
> say 2 NICK FOO{
2 :a.net 433 bo FOO{ :Nickname is already in use
> say 1 NICK FOO{
1 :foo[!u@h NICK FOO{
> say 1 NICK FOO{
> say 1 NICK foo[
1 :FOO{!u@h NICK foo[
> say 1 NICK dan x
1 :foo[!u@h NICK dan
> say 2 NICK AL
2 :bo!u@h NICK AL
> say 1 :foo[ PING x
> say 1 :Dan PING x
1 :a.net PONG a.net :x
> say 1 PRIVMSG foo[,AL :x
1 :a.net 401 dan foo[ :No such nick/channel
2 :dan!u@h PRIVMSG AL :x
> say 1 NICK 9
1 :a.net 432 dan 9 :Erroneous nickname
> say 1 NICK -a
1 :a.net 432 dan -a :Erroneous nickname
> say 1 NICK a~b
1 :a.net 432 dan a~b :Erroneous nickname
> say 1 NICK a]b
1 :dan!u@h NICK a]b
> say 2 NICK A}B
2 :a.net 433 AL A}B :Nickname is already in use
> say 1 NICK a\\b
1 :a]b!u@h NICK a\\b
> say 2 NICK A|B
2 :a.net 433 AL A|B :Nickname is already in use
";

#[test]
fn nicknames_are_the_same_under_the_fold(rt: HostRuntime) {
    assert!(rt; prints(rt.alloc(), 2, NICKNAMES));
}

/// However many channels are shared. The client stays a member, and an operator where it was.
const SHOWN: &str = "\
> say 1 JOIN #c,#d
1 :al!u@h JOIN #c
1 :a.net 353 al = #c :@al
1 :a.net 366 al #c :End of NAMES list
1 :al!u@h JOIN #d
1 :a.net 353 al = #d :@al
1 :a.net 366 al #d :End of NAMES list
> say 2 JOIN #c,#d
1 :bo!u@h JOIN #c
2 :bo!u@h JOIN #c
2 :a.net 353 bo = #c :@al bo
2 :a.net 366 bo #c :End of NAMES list
1 :bo!u@h JOIN #d
2 :bo!u@h JOIN #d
2 :a.net 353 bo = #d :@al bo
2 :a.net 366 bo #d :End of NAMES list
> say 3 JOIN #e
3 :cy!u@h JOIN #e
3 :a.net 353 cy = #e :@cy
3 :a.net 366 cy #e :End of NAMES list
> say 1 NICK dan
1 :al!u@h NICK dan
2 :al!u@h NICK dan
> say 2 NAMES #c
2 :a.net 353 bo = #c :bo @dan
2 :a.net 366 bo #c :End of NAMES list
> say 1 NICK Abe
2 :dan!u@h NICK Abe
1 :dan!u@h NICK Abe
> say 2 NAMES #c
2 :a.net 353 bo = #c :@Abe bo
2 :a.net 366 bo #c :End of NAMES list
> say 2 PRIVMSG #c :hi
1 :bo!u@h PRIVMSG #c :hi
";

#[test]
fn a_new_nickname_is_shown_once(rt: HostRuntime) {
    assert!(rt; prints(rt.alloc(), 3, SHOWN));
}
