//! Connections before they register, and what only the server answers (RFC 2812 sections 3.1 and
//! 3.7).
use crate::running::prints;

/// The user name is cut to 10 bytes, and a byte that is none of its own becomes `_`; a later USER
/// replaces an earlier. The fourth word is the real name, of which 50 bytes are kept.
const EITHER_ORDER: &str = "\
> server a.net
> connect a.net h
> say 1 NICK al
> say 1 USER u 0 * :Al
1 :a.net 001 al :Welcome to the Internet Relay Network al!u@h
1 :a.net 002 al :Your host is a.net, running version treeircd-1
1 :a.net 003 al :This server was created 2024-01-01
1 :a.net 004 al a.net treeircd-1 i biklmnopstv
1 :a.net 422 al :MOTD File is missing
> connect a.net 192.0.2.7
> say 2 user old 0 * :Old
> say 2 user we@rd.name.it 8 * :Bo
> say 2 nick bo
2 :a.net 001 bo :Welcome to the Internet Relay Network bo!we_rd.name@192.0.2.7
2 :a.net 002 bo :Your host is a.net, running version treeircd-1
2 :a.net 003 bo :This server was created 2024-01-01
2 :a.net 004 bo a.net treeircd-1 i biklmnopstv
2 :a.net 422 bo :MOTD File is missing
> connect a.net h
> say 3 NICK cy
> say 3 USER ~a-b_c.d+e 0 * Real of the last word
3 :a.net 001 cy :Welcome to the Internet Relay Network cy!~a-b_c.d_e@h
3 :a.net 002 cy :Your host is a.net, running version treeircd-1
3 :a.net 003 cy :This server was created 2024-01-01
3 :a.net 004 cy a.net treeircd-1 i biklmnopstv
3 :a.net 422 cy :MOTD File is missing
> say 3 WHOIS cy,bo
3 :a.net 311 cy cy ~a-b_c.d_e h * :Real
3 :a.net 312 cy cy a.net :Test server
3 :a.net 311 cy bo we_rd.name 192.0.2.7 * :Bo
3 :a.net 312 cy bo a.net :Test server
3 :a.net 318 cy cy,bo :End of WHOIS list
> say 3 WHO CY
3 :a.net 352 cy * ~a-b_c.d_e h a.net cy H :0 Real
3 :a.net 315 cy CY :End of WHO list
> say 3 WHO real
3 :a.net 352 cy * ~a-b_c.d_e h a.net cy H :0 Real
3 :a.net 315 cy real :End of WHO list
> say 3 WHO 192.0.2.?
3 :a.net 352 cy * we_rd.name 192.0.2.7 a.net bo H :0 Bo
3 :a.net 315 cy 192.0.2.? :End of WHO list
> connect a.net h
> say 4 NICK dd
> say 4 USER u 0 * :A real name of many bytes, of which fifty are kept.
4 :a.net 001 dd :Welcome to the Internet Relay Network dd!u@h
4 :a.net 002 dd :Your host is a.net, running version treeircd-1
4 :a.net 003 dd :This server was created 2024-01-01
4 :a.net 004 dd a.net treeircd-1 i biklmnopstv
4 :a.net 422 dd :MOTD File is missing
> say 4 WHOIS dd
4 :a.net 311 dd dd u h * :A real name of many bytes, of which fifty are kept
4 :a.net 312 dd dd a.net :Test server
4 :a.net 318 dd dd :End of WHOIS list
";

#[test]
fn nick_and_user_register_in_either_order(rt: HostRuntime) {
    assert!(rt; prints(rt.alloc(), 0, EITHER_ORDER));
}

/// A reply is sent to the nickname chosen so far, or to `*`.
const BEFORE: &str = "\
> server a.net
> connect a.net h
> say 1 PASS secret
> say 1 PASS
> say 1 PONG x
> say 1 PING x
1 :a.net PONG a.net :x
> say 1 PING
1 :a.net 409 * :No origin specified
> say 1 JOIN #c
1 :a.net 451 * :You have not registered
> say 1 MOTD
1 :a.net 451 * :You have not registered
> say 1 FOO
1 :a.net 451 * :You have not registered
> say 1 NICK
1 :a.net 431 * :No nickname given
> say 1 NICK :
1 :a.net 431 * :No nickname given
> say 1 NICK 9a
1 :a.net 432 * 9a :Erroneous nickname
> say 1 NICK abcdefghijklmnopqrstuvwxyzabcde
1 :a.net 432 * abcdefghijklmnopqrstuvwxyzabcde :Erroneous nickname
> say 1 USER u 0 *
1 :a.net 461 * USER :Not enough parameters
> say 1 al PING x
1 :a.net 451 * :You have not registered
> say 1 :al PING x
> say 1 NICK al
> say 1 JOIN #c
1 :a.net 451 al :You have not registered
> say 1 NICK al.b
1 :a.net 432 al al.b :Erroneous nickname
> say 1 :AL PING x
1 :a.net PONG a.net :x
> say 1 USER u 0 * :Al
1 :a.net 001 al :Welcome to the Internet Relay Network al!u@h
1 :a.net 002 al :Your host is a.net, running version treeircd-1
1 :a.net 003 al :This server was created 2024-01-01
1 :a.net 004 al a.net treeircd-1 i biklmnopstv
1 :a.net 422 al :MOTD File is missing
> connect a.net h
> say 2 JOIN
2 :a.net 451 * :You have not registered
> say 2 KICK #c
2 :a.net 451 * :You have not registered
";

#[test]
fn others_wait_for_registration(rt: HostRuntime) {
    assert!(rt; prints(rt.alloc(), 0, BEFORE));
}

/// A nickname is looked up as it is chosen, and again as the registration completes.
const TAKEN: &str = "\
> server a.net
> connect a.net h
> connect a.net h
> say 1 NICK al
> say 2 NICK al
> say 1 USER u 0 * :Al
1 :a.net 001 al :Welcome to the Internet Relay Network al!u@h
1 :a.net 002 al :Your host is a.net, running version treeircd-1
1 :a.net 003 al :This server was created 2024-01-01
1 :a.net 004 al a.net treeircd-1 i biklmnopstv
1 :a.net 422 al :MOTD File is missing
> say 2 USER u 0 * :Bo
2 :a.net 433 * al :Nickname is already in use
> say 2 PRIVMSG al :hi
2 :a.net 451 * :You have not registered
> say 2 NICK AL
2 :a.net 433 * AL :Nickname is already in use
> say 2 NICK bo
2 :a.net 001 bo :Welcome to the Internet Relay Network bo!u@h
2 :a.net 002 bo :Your host is a.net, running version treeircd-1
2 :a.net 003 bo :This server was created 2024-01-01
2 :a.net 004 bo a.net treeircd-1 i biklmnopstv
2 :a.net 422 bo :MOTD File is missing
> say 2 PRIVMSG al :hi
1 :bo!u@h PRIVMSG al :hi
> connect a.net h
> say 3 NICK AL
3 :a.net 433 * AL :Nickname is already in use
> gone 1
> say 3 NICK AL
> say 3 USER u 0 * :Al
3 :a.net 001 AL :Welcome to the Internet Relay Network AL!u@h
3 :a.net 002 AL :Your host is a.net, running version treeircd-1
3 :a.net 003 AL :This server was created 2024-01-01
3 :a.net 004 AL a.net treeircd-1 i biklmnopstv
3 :a.net 422 AL :MOTD File is missing
";

#[test]
fn a_nickname_belongs_to_who_registers_first(rt: HostRuntime) {
    assert!(rt; prints(rt.alloc(), 0, TAKEN));
}

/// The text of a QUIT is the name used in replies where it has none.
const LEFT_EARLY: &str = "\
> server a.net
> connect a.net h
> say 1 QUIT
1 ERROR :Closing link (*)
> say 1 PING x
! 3
> connect a.net h
> say 2 NICK bo
> say 2 QUIT :
2 ERROR :Closing link (bo)
> connect a.net h
> say 3 QUIT :bye
3 ERROR :Closing link (bye)
> connect a.net h
> gone 4
> gone 4
! 3
";

#[test]
fn who_leaves_unregistered_is_closed(rt: HostRuntime) {
    assert!(rt; prints(rt.alloc(), 0, LEFT_EARLY));
}

/// A command that is not in the table is named as it was given.
const REGISTERED: &str = "\
> say 1 PASS x
1 :a.net 462 al :Unauthorized command (already registered)
> say 1 USER
1 :a.net 462 al :Unauthorized command (already registered)
> say 1 USER u 0 * :Al
1 :a.net 462 al :Unauthorized command (already registered)
> say 1 PONG
> say 1 MOTD
1 :a.net 422 al :MOTD File is missing
> say 1 PING
1 :a.net 409 al :No origin specified
> say 1 PING :
1 :a.net PONG a.net :
> say 1 ping one two
1 :a.net PONG a.net :one
> say 1 PING :one two
1 :a.net PONG a.net :one two
> say 1 FOO bar
1 :a.net 421 al FOO :Unknown command
> say 1 foo
1 :a.net 421 al foo :Unknown command
";

#[test]
fn lines_for_the_server_are_answered(rt: HostRuntime) {
    assert!(rt; prints(rt.alloc(), 1, REGISTERED));
}

/// A foreign prefix is ignored, and so is a line of nothing or with a NUL. A CR ends a line too;
/// spaces count as one.
const READ: &str = "\
> say 1 :AL PING x
1 :a.net PONG a.net :x
> say 1 :bo PING x
> say 1 :zz PING x
> say 1 :al!u@h PING x
> say 1 : PING x
> say 1 :al
> say 1 \x20\x20
> say 1   PING   x
1 :a.net PONG a.net :x
> say 1 PING x\rPING y\r
1 :a.net PONG a.net :x
1 :a.net PONG a.net :y
> say 1 PING \0x
> say 1 QUIT\rPING x
1 ERROR :Closing link (al)
! 3
> say 2   :BO PING x
2 :a.net PONG a.net :x
> say 2 :bo   PING x
2 :a.net PONG a.net :x
";

#[test]
fn lines_are_read_leniently(rt: HostRuntime) {
    assert!(rt; prints(rt.alloc(), 2, READ));
}
