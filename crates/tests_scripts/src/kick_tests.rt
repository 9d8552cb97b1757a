//! KICK (RFC 2812 section 3.2.8).
use crate::running::prints;

/// A kicked member sees its own kick, and none behind it. Without a text the kicker's nickname
/// stands there; a longer text is cut to 160 bytes.
const KICKING: &str = "\
> say 1 JOIN #c
1 :al!u@h JOIN #c
1 :a.net 353 al = #c :@al
1 :a.net 366 al #c :End of NAMES list
> say 2 JOIN #c
1 :bo!u@h JOIN #c
2 :bo!u@h JOIN #c
2 :a.net 353 bo = #c :@al bo
2 :a.net 366 bo #c :End of NAMES list
> say 3 JOIN #c
1 :cy!u@h JOIN #c
2 :cy!u@h JOIN #c
3 :cy!u@h JOIN #c
3 :a.net 353 cy = #c :@al bo cy
3 :a.net 366 cy #c :End of NAMES list
> say 1 KICK #c bo,cy
1 :al!u@h KICK #c bo :al
2 :al!u@h KICK #c bo :al
3 :al!u@h KICK #c bo :al
1 :al!u@h KICK #c cy :al
3 :al!u@h KICK #c cy :al
> say 2 JOIN #c
1 :bo!u@h JOIN #c
2 :bo!u@h JOIN #c
2 :a.net 353 bo = #c :@al bo
2 :a.net 366 bo #c :End of NAMES list
> say 1 KICK #C BO :%x
1 :al!u@h KICK #c bo :%
2 :al!u@h KICK #c bo :%
> say 2 JOIN #c
1 :bo!u@h JOIN #c
2 :bo!u@h JOIN #c
2 :a.net 353 bo = #c :@al bo
2 :a.net 366 bo #c :End of NAMES list
> say 1 KICK #c BO :
1 :al!u@h KICK #c bo :al
2 :al!u@h KICK #c bo :al
> say 2 JOIN #c
1 :bo!u@h JOIN #c
2 :bo!u@h JOIN #c
2 :a.net 353 bo = #c :@al bo
2 :a.net 366 bo #c :End of NAMES list
> say 1 KICK #c bo,al :all out
1 :al!u@h KICK #c bo :all out
2 :al!u@h KICK #c bo :all out
1 :al!u@h KICK #c al :all out
> say 2 JOIN #c
2 :bo!u@h JOIN #c
2 :a.net 353 bo = #c :@bo
2 :a.net 366 bo #c :End of NAMES list
";

#[test]
fn members_see_who_is_kicked(rt: HostRuntime) {
    assert!(rt; prints(rt.alloc(), 3, KICKING));
}

/// A kicker that is no member is told so first, then that it is no operator, and last that the
/// other is no member. Voice makes no operator.
const REFUSED: &str = "\
> say 1 KICK
1 :a.net 461 al KICK :Not enough parameters
> say 1 KICK #c
1 :a.net 461 al KICK :Not enough parameters
> say 1 KICK #No bo
1 :a.net 403 al #No :No such channel
> say 1 KICK c bo
1 :a.net 403 al c :No such channel
> say 1 JOIN #C
1 :al!u@h JOIN #C
1 :a.net 353 al = #C :@al
1 :a.net 366 al #C :End of NAMES list
> say 2 KICK #c nobody
2 :a.net 442 bo #C :You're not on that channel
> say 2 JOIN #c
1 :bo!u@h JOIN #C
2 :bo!u@h JOIN #C
2 :a.net 353 bo = #C :@al bo
2 :a.net 366 bo #c :End of NAMES list
> say 2 KICK #c nobody
2 :a.net 482 bo #C :You're not channel operator
> say 2 KICK #c bo
2 :a.net 482 bo #C :You're not channel operator
> say 1 KICK #c Cy
1 :a.net 441 al Cy #C :They aren't on that channel
> say 1 KICK #c Nobody
1 :a.net 441 al Nobody #C :They aren't on that channel
> say 1 MODE #c +v bo
1 :al!u@h MODE #C +v bo
2 :al!u@h MODE #C +v bo
> say 2 KICK #c al
2 :a.net 482 bo #C :You're not channel operator
> say 2 KICK #c bo
2 :a.net 482 bo #C :You're not channel operator
> say 1 MODE #c +o bo
1 :al!u@h MODE #C +o bo
2 :al!u@h MODE #C +o bo
> say 2 KICK #c al
1 :bo!u@h KICK #C al :bo
2 :bo!u@h KICK #C al :bo
";

#[test]
fn only_operators_kick_members(rt: HostRuntime) {
    assert!(rt; prints(rt.alloc(), 3, REFUSED));
}

/// One channel is meant for all nicknames, more go with as many, and empty entries do not count.
/// Each is judged by what the kicks before have left.
const PAIRED: &str = "\
> say 1 JOIN #a,#b,#d
1 :al!u@h JOIN #a
1 :a.net 353 al = #a :@al
1 :a.net 366 al #a :End of NAMES list
1 :al!u@h JOIN #b
1 :a.net 353 al = #b :@al
1 :a.net 366 al #b :End of NAMES list
1 :al!u@h JOIN #d
1 :a.net 353 al = #d :@al
1 :a.net 366 al #d :End of NAMES list
> say 2 JOIN #b,#A
1 :bo!u@h JOIN #b
2 :bo!u@h JOIN #b
2 :a.net 353 bo = #b :@al bo
2 :a.net 366 bo #b :End of NAMES list
1 :bo!u@h JOIN #a
2 :bo!u@h JOIN #a
2 :a.net 353 bo = #a :@al bo
2 :a.net 366 bo #A :End of NAMES list
> say 1 KICK #a,#b bo
1 :a.net 461 al KICK :Not enough parameters
> say 1 KICK #a,#b bo,al,bo
1 :a.net 461 al KICK :Not enough parameters
> say 1 KICK , bo
1 :a.net 461 al KICK :Not enough parameters
> say 1 KICK , ,
> say 1 KICK #a :
> say 1 KICK ,#a,,#B, bo,,bo :out
1 :al!u@h KICK #a bo :out
2 :al!u@h KICK #a bo :out
1 :al!u@h KICK #b bo :out
2 :al!u@h KICK #b bo :out
> say 2 JOIN #a,#b
1 :bo!u@h JOIN #a
2 :bo!u@h JOIN #a
2 :a.net 353 bo = #a :@al bo
2 :a.net 366 bo #a :End of NAMES list
1 :bo!u@h JOIN #b
2 :bo!u@h JOIN #b
2 :a.net 353 bo = #b :@al bo
2 :a.net 366 bo #b :End of NAMES list
> say 1 KICK #a bo,BO,no
1 :al!u@h KICK #a bo :al
2 :al!u@h KICK #a bo :al
1 :a.net 441 al BO #a :They aren't on that channel
1 :a.net 441 al no #a :They aren't on that channel
> say 1 KICK #b,#b,#b al,bo,no
1 :al!u@h KICK #b al :al
2 :al!u@h KICK #b al :al
1 :a.net 442 al #b :You're not on that channel
1 :a.net 442 al #b :You're not on that channel
> say 1 KICK #d,#D,#a al,bo,al
1 :al!u@h KICK #d al :al
1 :a.net 403 al #D :No such channel
1 :al!u@h KICK #a al :al
";

#[test]
fn channels_are_paired_with_nicknames(rt: HostRuntime) {
    assert!(rt; prints(rt.alloc(), 2, PAIRED));
}
