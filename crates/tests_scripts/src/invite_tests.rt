//! INVITE (RFC 2812 section 3.2.7).
use crate::running::prints;

/// To a channel that is not there anybody invites anybody. The second parameter is one name, and no
/// list.
const INVITING: &str = "\
> say 1 INVITE
1 :a.net 461 al INVITE :Not enough parameters
> say 1 INVITE bo
1 :a.net 461 al INVITE :Not enough parameters
> say 1 INVITE Nobody #no
1 :a.net 401 al Nobody :No such nick/channel
> say 1 INVITE Nobody no
1 :a.net 401 al Nobody :No such nick/channel
> say 1 INVITE bo no
1 :a.net 403 al no :No such channel
> say 1 INVITE BO #New
1 :a.net 341 al #New bo
2 :al!u@h INVITE bo #New
> say 1 INVITE al #New
1 :a.net 341 al #New al
1 :al!u@h INVITE al #New
> say 2 JOIN #Rust
2 :bo!u@h JOIN #Rust
2 :a.net 353 bo = #Rust :@bo
2 :a.net 366 bo #Rust :End of NAMES list
> say 1 INVITE cy #rust
1 :a.net 442 al #Rust :You're not on that channel
> say 1 INVITE bo #rust
1 :a.net 442 al #Rust :You're not on that channel
> say 1 JOIN #rust
1 :al!u@h JOIN #Rust
2 :al!u@h JOIN #Rust
1 :a.net 353 al = #Rust :al @bo
1 :a.net 366 al #rust :End of NAMES list
> say 1 INVITE BO #rust
1 :a.net 443 al bo #Rust :is already on channel
> say 1 INVITE AL #rust
1 :a.net 443 al al #Rust :is already on channel
> say 1 INVITE Cy #rust,#no
1 :a.net 403 al #rust,#no :No such channel
> say 1 INVITE Cy #rust now
1 :a.net 341 al #Rust cy
3 :al!u@h INVITE cy #Rust
";

#[test]
fn members_invite_outsiders(rt: HostRuntime) {
    assert!(rt; prints(rt.alloc(), 3, INVITING));
}

/// Under mode i only an operator invites. An invitation lifts that mode alone. It is used up by
/// joining, goes with the nickname, and ends with its user and with its channel.
const BY_INVITATION: &str = "\
> say 1 JOIN #c
1 :al!u@h JOIN #c
1 :a.net 353 al = #c :@al
1 :a.net 366 al #c :End of NAMES list
> say 1 MODE #c +i
1 :al!u@h MODE #c +i
> say 1 INVITE bo #c
1 :a.net 341 al #c bo
2 :al!u@h INVITE bo #c
> say 2 JOIN #c
1 :bo!u@h JOIN #c
2 :bo!u@h JOIN #c
2 :a.net 353 bo = #c :@al bo
2 :a.net 366 bo #c :End of NAMES list
> say 2 INVITE CY #C
2 :a.net 482 bo #c :You're not channel operator
> say 2 PART #c
1 :bo!u@h PART #c :bo
2 :bo!u@h PART #c :bo
> say 2 JOIN #c
2 :a.net 473 bo #c :Cannot join channel (+i)
> say 3 JOIN #c
3 :a.net 473 cy #c :Cannot join channel (+i)
> say 1 INVITE cy #C
1 :a.net 341 al #c cy
3 :al!u@h INVITE cy #c
> say 1 PART #c
1 :al!u@h PART #c :al
> say 1 JOIN #c
1 :al!u@h JOIN #c
1 :a.net 353 al = #c :@al
1 :a.net 366 al #c :End of NAMES list
> say 1 MODE #c +i
1 :al!u@h MODE #c +i
> say 3 JOIN #c
3 :a.net 473 cy #c :Cannot join channel (+i)
> say 3 INVITE al #c
3 :a.net 442 cy #c :You're not on that channel
> say 1 INVITE bo #c
1 :a.net 341 al #c bo
2 :al!u@h INVITE bo #c
> say 2 JOIN #c
1 :bo!u@h JOIN #c
2 :bo!u@h JOIN #c
2 :a.net 353 bo = #c :@al bo
2 :a.net 366 bo #c :End of NAMES list
> say 2 INVITE al #c
2 :a.net 443 bo al #c :is already on channel
> say 2 INVITE cy #c
2 :a.net 482 bo #c :You're not channel operator
> say 1 MODE #c +v bo
1 :al!u@h MODE #c +v bo
2 :al!u@h MODE #c +v bo
> say 2 INVITE cy #c
2 :a.net 482 bo #c :You're not channel operator
> say 1 MODE #c +b cy!*@*
1 :al!u@h MODE #c +b cy!*@*
2 :al!u@h MODE #c +b cy!*@*
> say 1 INVITE cy #c
1 :a.net 341 al #c cy
3 :al!u@h INVITE cy #c
> say 3 JOIN #c
3 :a.net 474 cy #c :Cannot join channel (+b)
> say 1 MODE #c -b+k cy!*@* pw
1 :al!u@h MODE #c -b+k cy!*@* pw
2 :al!u@h MODE #c -b+k cy!*@* pw
> say 3 JOIN #c
3 :a.net 475 cy #c :Cannot join channel (+k)
> say 1 MODE #c -k+l pw 2
1 :al!u@h MODE #c -k+l pw 2
2 :al!u@h MODE #c -k+l pw 2
> say 3 JOIN #c
3 :a.net 471 cy #c :Cannot join channel (+l)
> say 1 MODE #c -l
1 :al!u@h MODE #c -l
2 :al!u@h MODE #c -l
> say 3 JOIN #c
1 :cy!u@h JOIN #c
2 :cy!u@h JOIN #c
3 :cy!u@h JOIN #c
3 :a.net 353 cy = #c :@al +bo cy
3 :a.net 366 cy #c :End of NAMES list
> say 3 PART #c
1 :cy!u@h PART #c :cy
2 :cy!u@h PART #c :cy
3 :cy!u@h PART #c :cy
> say 1 MODE #c -i
1 :al!u@h MODE #c -i
2 :al!u@h MODE #c -i
> say 1 INVITE cy #c
1 :a.net 341 al #c cy
3 :al!u@h INVITE cy #c
> say 1 MODE #c +i
1 :al!u@h MODE #c +i
2 :al!u@h MODE #c +i
> say 3 NICK di
3 :cy!u@h NICK di
> say 3 JOIN #c
1 :di!u@h JOIN #c
2 :di!u@h JOIN #c
3 :di!u@h JOIN #c
3 :a.net 353 di = #c :@al +bo di
3 :a.net 366 di #c :End of NAMES list
> say 3 PART #c
1 :di!u@h PART #c :di
2 :di!u@h PART #c :di
3 :di!u@h PART #c :di
> say 1 INVITE di #c
1 :a.net 341 al #c di
3 :al!u@h INVITE di #c
> say 3 NICK cy
3 :di!u@h NICK cy
> say 2 PART #c
1 :bo!u@h PART #c :bo
2 :bo!u@h PART #c :bo
> say 2 NICK di
2 :bo!u@h NICK di
> say 2 JOIN #c
2 :a.net 473 di #c :Cannot join channel (+i)
> say 1 INVITE di #c
1 :a.net 341 al #c di
2 :al!u@h INVITE di #c
> say 2 JOIN #c
1 :di!u@h JOIN #c
2 :di!u@h JOIN #c
2 :a.net 353 di = #c :@al di
2 :a.net 366 di #c :End of NAMES list
> say 3 JOIN #c
1 :cy!u@h JOIN #c
3 :cy!u@h JOIN #c
2 :cy!u@h JOIN #c
3 :a.net 353 cy = #c :@al cy di
3 :a.net 366 cy #c :End of NAMES list
> say 3 PART #c
1 :cy!u@h PART #c :cy
3 :cy!u@h PART #c :cy
2 :cy!u@h PART #c :cy
> say 1 INVITE cy #c
1 :a.net 341 al #c cy
3 :al!u@h INVITE cy #c
> say 3 QUIT
3 ERROR :Closing link (cy)
> say 2 PART #c
1 :di!u@h PART #c :di
2 :di!u@h PART #c :di
> say 2 NICK cy
2 :di!u@h NICK cy
> say 2 JOIN #c
2 :a.net 473 cy #c :Cannot join channel (+i)
";

#[test]
fn who_is_invited_joins_once(rt: HostRuntime) {
    assert!(rt; prints(rt.alloc(), 3, BY_INVITATION));
}
