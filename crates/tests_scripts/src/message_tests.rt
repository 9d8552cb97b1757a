//! PRIVMSG and NOTICE, and lines of 510 bytes (RFC 2812 sections 2.3 and 3.3).
use crate::running::prints;

/// Four targets are served, and a fifth is too many.
const TO_USERS: &str = "\
> say 1 PRIVMSG al :hi
1 :al!u@h PRIVMSG al :hi
> say 1 PRIVMSG BO :hi there
2 :al!u@h PRIVMSG bo :hi there
> say 1 privmsg bo hi there
2 :al!u@h PRIVMSG bo :hi
> say 1 PRIVMSG zz :hi
1 :a.net 401 al zz :No such nick/channel
> say 1 PRIVMSG a.net :hi
1 :a.net 401 al a.net :No such nick/channel
> say 1 PRIVMSG
1 :a.net 411 al :No recipient given (PRIVMSG)
> say 1 privmsg bo
1 :a.net 412 al :No text to send
> say 1 PRIVMSG bo :
1 :a.net 412 al :No text to send
> say 1 PRIVMSG :bo
1 :a.net 412 al :No text to send
> say 1 PRIVMSG ,, :hi
> say 1 PRIVMSG ,bo,,zz,CY, :hi
2 :al!u@h PRIVMSG bo :hi
1 :a.net 401 al zz :No such nick/channel
3 :al!u@h PRIVMSG cy :hi
> say 1 PRIVMSG al,al,al,al,zz :x
1 :al!u@h PRIVMSG al :x
1 :al!u@h PRIVMSG al :x
1 :al!u@h PRIVMSG al :x
1 :al!u@h PRIVMSG al :x
1 :a.net 407 al zz :Too many targets
> say 1 PRIVMSG zz,al,al,al,bo,cy :x
1 :a.net 401 al zz :No such nick/channel
1 :al!u@h PRIVMSG al :x
1 :al!u@h PRIVMSG al :x
1 :al!u@h PRIVMSG al :x
1 :a.net 407 al bo :Too many targets
";

#[test]
fn messages_to_users(rt: HostRuntime) {
    assert!(rt; prints(rt.alloc(), 3, TO_USERS));
}

/// As PRIVMSG, but for the replies.
const NOTICES: &str = "\
> say 1 NOTICE BO :hi
2 :al!u@h NOTICE bo :hi
> say 1 NOTICE
> say 1 NOTICE bo
> say 1 NOTICE bo :
> say 1 NOTICE zz,#no,bo :hi
2 :al!u@h NOTICE bo :hi
> say 1 NOTICE zz,zz,zz,bo,cy :hi
2 :al!u@h NOTICE bo :hi
> say 1 JOIN #Rust
1 :al!u@h JOIN #Rust
1 :a.net 353 al = #Rust :@al
1 :a.net 366 al #Rust :End of NAMES list
> say 2 NOTICE #rust :hi
1 :bo!u@h NOTICE #Rust :hi
> say 1 NOTICE #rust :hi
";

#[test]
fn notices_are_never_answered(rt: HostRuntime) {
    assert!(rt; prints(rt.alloc(), 3, NOTICES));
}

/// Who is no member is heard too, as no mode forbids it.
const TO_CHANNELS: &str = "\
> say 1 JOIN #Rust
1 :al!u@h JOIN #Rust
1 :a.net 353 al = #Rust :@al
1 :a.net 366 al #Rust :End of NAMES list
> say 2 JOIN #rust
1 :bo!u@h JOIN #Rust
2 :bo!u@h JOIN #Rust
2 :a.net 353 bo = #Rust :@al bo
2 :a.net 366 bo #rust :End of NAMES list
> say 1 PRIVMSG #RUST :hi
2 :al!u@h PRIVMSG #Rust :hi
> say 3 PRIVMSG #rust :hi
1 :cy!u@h PRIVMSG #Rust :hi
2 :cy!u@h PRIVMSG #Rust :hi
> say 1 PRIVMSG #no,# :hi
1 :a.net 401 al #no :No such nick/channel
1 :a.net 401 al # :No such nick/channel
> say 1 PRIVMSG rust :hi
1 :a.net 401 al rust :No such nick/channel
> say 1 PRIVMSG #rust,bo,#no,#rust,zz :x
2 :al!u@h PRIVMSG #Rust :x
2 :al!u@h PRIVMSG bo :x
1 :a.net 401 al #no :No such nick/channel
2 :al!u@h PRIVMSG #Rust :x
1 :a.net 407 al zz :Too many targets
> say 2 PART #rust
1 :bo!u@h PART #Rust :bo
2 :bo!u@h PART #Rust :bo
> say 1 PRIVMSG #rust :hi
> say 2 PRIVMSG #rust :hi
1 :bo!u@h PRIVMSG #Rust :hi
";

#[test]
fn messages_to_channels(rt: HostRuntime) {
    assert!(rt; prints(rt.alloc(), 3, TO_CHANNELS));
}

/// A line that is read and a line that is written have at most 510 bytes; `%` is 160 of them.
pub(crate) const LONG: &str = "\
> say 1 PING %%%xxxxxxxxxxxxxxxxxxxxxxxxx
1 :a.net PONG a.net :%%%xxxxxxxxxxx
> say 1 PING %%%xxxxxxxxxxxxxxxxxxxxxxxxxx
1 :a.net PONG a.net :%%%xxxxxxxxxxx
> say 1 %%%xxxxxxxxxxxxxxxxxxxxxxxxxxxxxx
1 :a.net 421 al %%%xxxxxxxxxxxxxxxx
> say 1 JOIN #c
1 :al!u@h JOIN #c
1 :a.net 353 al = #c :@al
1 :a.net 366 al #c :End of NAMES list
> say 2 JOIN #c
1 :bo!u@h JOIN #c
2 :bo!u@h JOIN #c
2 :a.net 353 bo = #c :@al bo
2 :a.net 366 bo #c :End of NAMES list
> say 3 JOIN #c
1 :cy!u@h JOIN #c
2 :cy!u@h JOIN #c
3 :cy!u@h JOIN #c
3 :a.net 353 cy = #c :@al bo cy
3 :a.net 366 cy #c :End of NAMES list
> say 1 PRIVMSG #c :%%%xxxxxxxxxxxxxxxxxx
2 :al!u@h PRIVMSG #c :%%%xxxxxxxxxx
3 :al!u@h PRIVMSG #c :%%%xxxxxxxxxx
> say 1 NOTICE bo :%%%xxxxxxxxxxxxxxxxxxx
2 :al!u@h NOTICE bo :%%%xxxxxxxxxxx
> say 1 PRIVMSG #c :%%%xxxxxxxxxx
2 :al!u@h PRIVMSG #c :%%%xxxxxxxxxx
3 :al!u@h PRIVMSG #c :%%%xxxxxxxxxx
";

#[test]
fn lines_are_cut_at_510_bytes(rt: HostRuntime) {
    assert!(rt; prints(rt.alloc(), 3, LONG));
}

/// Each text goes to those who are members when it is said: who joins, takes another nickname,
/// leaves, quits or is kicked in between counts.
const TO_WHO_IS_THERE: &str = "\
> say 1 JOIN #a,#b
1 :al!u@h JOIN #a
1 :a.net 353 al = #a :@al
1 :a.net 366 al #a :End of NAMES list
1 :al!u@h JOIN #b
1 :a.net 353 al = #b :@al
1 :a.net 366 al #b :End of NAMES list
> say 2 JOIN #a
1 :bo!u@h JOIN #a
2 :bo!u@h JOIN #a
2 :a.net 353 bo = #a :@al bo
2 :a.net 366 bo #a :End of NAMES list
> say 3 JOIN #b
1 :cy!u@h JOIN #b
3 :cy!u@h JOIN #b
3 :a.net 353 cy = #b :@al cy
3 :a.net 366 cy #b :End of NAMES list
> say 1 PRIVMSG #a :one
2 :al!u@h PRIVMSG #a :one
> say 1 PRIVMSG #b :two
3 :al!u@h PRIVMSG #b :two
> say 3 JOIN #a
1 :cy!u@h JOIN #a
2 :cy!u@h JOIN #a
3 :cy!u@h JOIN #a
3 :a.net 353 cy = #a :@al bo cy
3 :a.net 366 cy #a :End of NAMES list
> say 1 PRIVMSG #a :three
2 :al!u@h PRIVMSG #a :three
3 :al!u@h PRIVMSG #a :three
> say 2 PRIVMSG #A :four
1 :bo!u@h PRIVMSG #a :four
3 :bo!u@h PRIVMSG #a :four
> say 2 NICK zo
1 :bo!u@h NICK zo
2 :bo!u@h NICK zo
3 :bo!u@h NICK zo
> say 1 PRIVMSG #a :five
3 :al!u@h PRIVMSG #a :five
2 :al!u@h PRIVMSG #a :five
> say 3 PART #a
1 :cy!u@h PART #a :cy
3 :cy!u@h PART #a :cy
2 :cy!u@h PART #a :cy
> say 2 PRIVMSG #a :six
1 :zo!u@h PRIVMSG #a :six
> say 2 PRIVMSG #b :seven
1 :zo!u@h PRIVMSG #b :seven
3 :zo!u@h PRIVMSG #b :seven
> say 3 NOTICE #b :eight
1 :cy!u@h NOTICE #b :eight
> say 3 QUIT
1 :cy!u@h QUIT :cy
3 ERROR :Closing link (cy)
> say 1 PRIVMSG #b :nine
> say 1 KICK #a zo
1 :al!u@h KICK #a zo :al
2 :al!u@h KICK #a zo :al
> say 1 PRIVMSG #a :ten
";

#[test]
fn texts_follow_who_is_there(rt: HostRuntime) {
    assert!(rt; prints(rt.alloc(), 3, TO_WHO_IS_THERE));
}
