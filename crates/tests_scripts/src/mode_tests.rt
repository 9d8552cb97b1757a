//! MODE, and what modes keep from happening (RFC 2812 sections 3.1.5 and 3.2.3; RFC 2811 section
//! 4).
use crate::running::prints;

/// Changes are shown as their letters in order, with a sign wherever it changes, and their
/// parameters behind them. A limit is from 1 to 65535, of five digits at most.
const CHANGING: &str = "\
> say 1 JOIN #c
1 :al!u@h JOIN #c
1 :a.net 353 al = #c :@al
1 :a.net 366 al #c :End of NAMES list
> say 2 JOIN #c
1 :bo!u@h JOIN #c
2 :bo!u@h JOIN #c
2 :a.net 353 bo = #c :@al bo
2 :a.net 366 bo #c :End of NAMES list
> say 3 JOIN #c
1 :cy!u@h JOIN #c
2 :cy!u@h JOIN #c
3 :cy!u@h JOIN #c
3 :a.net 353 cy = #c :@al bo cy
3 :a.net 366 cy #c :End of NAMES list
> say 1 MODE #c +v cy
1 :al!u@h MODE #c +v cy
2 :al!u@h MODE #c +v cy
3 :al!u@h MODE #c +v cy
> say 1 MODE #c +o-v+l bo cy 5
1 :al!u@h MODE #c +o-v+l bo cy 5
2 :al!u@h MODE #c +o-v+l bo cy 5
3 :al!u@h MODE #c +o-v+l bo cy 5
> say 1 MODE #C +o-v+l BO cy 0005
> say 1 MODE #c +l 00012
1 :al!u@h MODE #c +l 12
2 :al!u@h MODE #c +l 12
3 :al!u@h MODE #c +l 12
> say 1 MODE #c
1 :a.net 324 al #c +l 12
> say 2 mode #C -l+mnti-o 7 AL
2 :a.net 401 bo 7 :No such nick/channel
1 :bo!u@h MODE #c -l+mnti
2 :bo!u@h MODE #c -l+mnti
3 :bo!u@h MODE #c -l+mnti
> say 1 MODE #c +m
> say 1 MODE #c l 7
1 :al!u@h MODE #c +l 7
2 :al!u@h MODE #c +l 7
3 :al!u@h MODE #c +l 7
> say 1 MODE #c +l-l 6
1 :al!u@h MODE #c +l 6
2 :al!u@h MODE #c +l 6
3 :al!u@h MODE #c +l 6
> say 1 MODE #c +l 0
> say 1 MODE #c +l 65536
> say 1 MODE #c +l 000005
> say 1 MODE #c -l
1 :al!u@h MODE #c -l
2 :al!u@h MODE #c -l
3 :al!u@h MODE #c -l
> say 1 MODE #c -l
";

#[test]
fn changes_are_shown_in_order(rt: HostRuntime) {
    assert!(rt; prints(rt.alloc(), 3, CHANGING));
}

/// p and s are one value: p is set where nothing is, and each is cleared where it is set.
const PRIVACY: &str = "\
> say 1 JOIN #c
1 :al!u@h JOIN #c
1 :a.net 353 al = #c :@al
1 :a.net 366 al #c :End of NAMES list
> say 1 MODE #c +ps
1 :al!u@h MODE #c +ps
> say 1 MODE #c +p
> say 1 MODE #c -p
> say 1 MODE #c
1 :a.net 324 al #c +s
> say 1 MODE #c -s+p
1 :al!u@h MODE #c -s+p
> say 1 MODE #c
1 :a.net 324 al #c +p
";

#[test]
fn private_is_no_second_secret(rt: HostRuntime) {
    assert!(rt; prints(rt.alloc(), 1, PRIVACY));
}

/// Another key wants the first to be taken away, which is shown with the key; a channel that was
/// left keeps none. It has 23 bytes at most, none a comma, and does not begin with a colon.
const KEYS: &str = "\
> say 1 JOIN #c
1 :al!u@h JOIN #c
1 :a.net 353 al = #c :@al
1 :a.net 366 al #c :End of NAMES list
> say 1 MODE #c -k
> say 1 MODE #c +k :
> say 1 MODE #c +k pw
1 :al!u@h MODE #c +k pw
> say 1 MODE #c +k zz
1 :a.net 467 al #c :Channel key already set
> say 1 MODE #c -k other
1 :al!u@h MODE #c -k pw
> say 1 MODE #c +k pw
1 :al!u@h MODE #c +k pw
> say 1 PART #c
1 :al!u@h PART #c :al
> say 2 JOIN #c
2 :bo!u@h JOIN #c
2 :a.net 353 bo = #c :@bo
2 :a.net 366 bo #c :End of NAMES list
> say 2 MODE #c
2 :a.net 324 bo #c +
> say 2 MODE #c +k
2 :a.net 461 bo MODE :Not enough parameters
> say 2 MODE #c +k abcdefghijklmnopqrstuvwx
> say 2 MODE #c +k ::pw
> say 2 MODE #c +k p,w
> say 2 MODE #c +k p\x7f
> say 2 MODE #c +k abcdefghijklmnopqrstuvw
2 :bo!u@h MODE #c +k abcdefghijklmnopqrstuvw
> say 2 MODE #c +k ::pw
> say 2 MODE #c +k abcdefghijklmnopqrstuvw
2 :a.net 467 bo #c :Channel key already set
> say 2 MODE #c -k+bbb pw a b c
2 :bo!u@h MODE #c -k+bb abcdefghijklmnopqrstuvw a b
";

#[test]
fn a_key_is_set_once(rt: HostRuntime) {
    assert!(rt; prints(rt.alloc(), 2, KEYS));
}

/// Three letters with a parameter count; a ban is listed and taken away as it was spelled first. A
/// request of the list is none of the three, and tells what stood at the start.
const BANS: &str = "\
> say 1 JOIN #c
1 :al!u@h JOIN #c
1 :a.net 353 al = #c :@al
1 :a.net 366 al #c :End of NAMES list
> say 1 MODE #c +bbbb a!*@* b!*@* c!*@* d!*@*
1 :al!u@h MODE #c +bbb a!*@* b!*@* c!*@*
> say 1 MODE #c b
1 :a.net 367 al #c a!*@*
1 :a.net 367 al #c b!*@*
1 :a.net 367 al #c c!*@*
1 :a.net 368 al #c :End of channel ban list
> say 1 MODE #c +b A!*@*
> say 1 MODE #c -b C!*@*
1 :al!u@h MODE #c -b c!*@*
> say 1 MODE #c +b-b {x!*@* [X!*@*
1 :al!u@h MODE #c +b-b {x!*@* {x!*@*
> say 2 MODE #c b
2 :a.net 367 bo #c a!*@*
2 :a.net 367 bo #c b!*@*
2 :a.net 368 bo #c :End of channel ban list
> say 1 MODE #c +b ::x
> say 1 MODE #c +b :a b
> say 1 MODE #c +bb c!*@*
1 :a.net 367 al #c a!*@*
1 :a.net 367 al #c b!*@*
1 :a.net 368 al #c :End of channel ban list
1 :al!u@h MODE #c +b c!*@*
> say 1 MODE #c -bb c!*@*
1 :a.net 367 al #c a!*@*
1 :a.net 367 al #c b!*@*
1 :a.net 367 al #c c!*@*
1 :a.net 368 al #c :End of channel ban list
1 :al!u@h MODE #c -b c!*@*
> say 1 MODE #c bb
1 :a.net 367 al #c a!*@*
1 :a.net 367 al #c b!*@*
1 :a.net 368 al #c :End of channel ban list
> say 1 MODE #c +bovv
1 :a.net 367 al #c a!*@*
1 :a.net 367 al #c b!*@*
1 :a.net 368 al #c :End of channel ban list
1 :a.net 461 al MODE :Not enough parameters
1 :a.net 461 al MODE :Not enough parameters
1 :a.net 461 al MODE :Not enough parameters
> say 1 MODE #c +v BO
1 :a.net 441 al bo #c :They aren't on that channel
> say 1 MODE #c -l+bbb x y z
1 :al!u@h MODE #c +bbb x y z
> say 1 MODE #c +obbb al u v w
1 :al!u@h MODE #c +bb u v
> say 1 MODE #c +lbbb 5 r s t
1 :al!u@h MODE #c +lbb 5 r s
> say 1 MODE #c +ibbb o p q
1 :al!u@h MODE #c +ibbb o p q
> say 1 MODE #c +kkbb aa bb m n
1 :al!u@h MODE #c +kb aa m
> say 1 MODE #c +bbboz j k l
1 :a.net 472 al z :is unknown mode char to me for #c
1 :al!u@h MODE #c +bbb j k l
> say 1 MODE #c +b abcdefghijklmnopqrstuvwxyzabcdefghijklmnopqrstuvwxyzabcdefghijklmnopqrstuvwxyzabcdefghijklm
> say 1 MODE #c +b abcdefghijklmnopqrstuvwxyzabcdefghijklmnopqrstuvwxyzabcdefghijklmnopqrstuvwxyzabcdefghijkl
1 :al!u@h MODE #c +b abcdefghijklmnopqrstuvwxyzabcdefghijklmnopqrstuvwxyzabcdefghijklmnopqrstuvwxyzabcdefghijkl
";

#[test]
fn bans_are_listed_in_folded_order(rt: HostRuntime) {
    assert!(rt; prints(rt.alloc(), 2, BANS));
}

/// An invitation is wanted under mode i; then no ban may match, the key has to be right, and there
/// has to be room. Of a list each channel has the key at its own place.
const KEPT_OUT: &str = "\
> say 1 JOIN #c
1 :al!u@h JOIN #c
1 :a.net 353 al = #c :@al
1 :a.net 366 al #c :End of NAMES list
> say 1 MODE #c +ik-k pw
1 :al!u@h MODE #c +ik pw
> say 1 MODE #c +ilk 1 pw
1 :a.net 467 al #c :Channel key already set
1 :al!u@h MODE #c +l 1
> say 1 MODE #c +b bo!*@*
1 :al!u@h MODE #c +b bo!*@*
> say 2 JOIN #c
2 :a.net 473 bo #c :Cannot join channel (+i)
> say 1 MODE #c -i
1 :al!u@h MODE #c -i
> say 2 JOIN #c pw
2 :a.net 474 bo #c :Cannot join channel (+b)
> say 1 MODE #c -b BO!*@*
1 :al!u@h MODE #c -b bo!*@*
> say 2 JOIN #c
2 :a.net 475 bo #c :Cannot join channel (+k)
> say 2 JOIN #c PW
2 :a.net 475 bo #c :Cannot join channel (+k)
> say 2 JOIN #c pw
2 :a.net 471 bo #c :Cannot join channel (+l)
> say 1 MODE #c -l
1 :al!u@h MODE #c -l
> say 2 JOIN #c pw
1 :bo!u@h JOIN #c
2 :bo!u@h JOIN #c
2 :a.net 353 bo = #c :@al bo
2 :a.net 366 bo #c :End of NAMES list
> say 2 PART #c
1 :bo!u@h PART #c :bo
2 :bo!u@h PART #c :bo
> say 2 JOIN ,#C pw
2 :a.net 475 bo #c :Cannot join channel (+k)
> say 2 JOIN ,#c x,pw
1 :bo!u@h JOIN #c
2 :bo!u@h JOIN #c
2 :a.net 353 bo = #c :@al bo
2 :a.net 366 bo #c :End of NAMES list
> say 2 PART #c
1 :bo!u@h PART #c :bo
2 :bo!u@h PART #c :bo
> say 2 JOIN #d,#c ,pw
2 :bo!u@h JOIN #d
2 :a.net 353 bo = #d :@bo
2 :a.net 366 bo #d :End of NAMES list
1 :bo!u@h JOIN #c
2 :bo!u@h JOIN #c
2 :a.net 353 bo = #c :@al bo
2 :a.net 366 bo #c :End of NAMES list
> say 2 PART #c
1 :bo!u@h PART #c :bo
2 :bo!u@h PART #c :bo
> say 1 MODE #c +b bo!*@*
1 :al!u@h MODE #c +b bo!*@*
> say 2 JOIN #c
2 :a.net 474 bo #c :Cannot join channel (+b)
";

#[test]
fn who_may_not_join_is_told_why(rt: HostRuntime) {
    assert!(rt; prints(rt.alloc(), 2, KEPT_OUT));
}

/// An outsider under mode n, who has no voice under mode m, and whom a ban matches, are not heard;
/// a voice helps. Voice stays under an operator's flag.
const SILENCED: &str = "\
> say 1 JOIN #c
1 :al!u@h JOIN #c
1 :a.net 353 al = #c :@al
1 :a.net 366 al #c :End of NAMES list
> say 2 PRIVMSG #c :one
1 :bo!u@h PRIVMSG #c :one
> say 1 MODE #c +n
1 :al!u@h MODE #c +n
> say 2 PRIVMSG #C :two
2 :a.net 404 bo #c :Cannot send to channel
> say 2 JOIN #c
1 :bo!u@h JOIN #c
2 :bo!u@h JOIN #c
2 :a.net 353 bo = #c :@al bo
2 :a.net 366 bo #c :End of NAMES list
> say 2 PRIVMSG #c :three
1 :bo!u@h PRIVMSG #c :three
> say 1 MODE #c +m-n
1 :al!u@h MODE #c +m-n
2 :al!u@h MODE #c +m-n
> say 2 PRIVMSG #c :four
2 :a.net 404 bo #c :Cannot send to channel
> say 2 NOTICE #c :four
> say 1 MODE #c +v bo
1 :al!u@h MODE #c +v bo
2 :al!u@h MODE #c +v bo
> say 2 PRIVMSG #c :five
1 :bo!u@h PRIVMSG #c :five
> say 1 MODE #c -mv+b bo *!u@h
1 :al!u@h MODE #c -mv+b bo *!u@h
2 :al!u@h MODE #c -mv+b bo *!u@h
> say 2 PRIVMSG #c :six
2 :a.net 404 bo #c :Cannot send to channel
> say 1 PRIVMSG #c :seven
2 :al!u@h PRIVMSG #c :seven
> say 1 MODE #c +v bo
1 :al!u@h MODE #c +v bo
2 :al!u@h MODE #c +v bo
> say 2 PRIVMSG #c :eight
1 :bo!u@h PRIVMSG #c :eight
> say 1 MODE #c +o bo
1 :al!u@h MODE #c +o bo
2 :al!u@h MODE #c +o bo
> say 1 NAMES #c
1 :a.net 353 al = #c :@al @bo
1 :a.net 366 al #c :End of NAMES list
> say 2 PRIVMSG #c :nine
1 :bo!u@h PRIVMSG #c :nine
> say 1 MODE #c -o bo
1 :al!u@h MODE #c -o bo
2 :al!u@h MODE #c -o bo
> say 1 NAMES #c
1 :a.net 353 al = #c :@al +bo
1 :a.net 366 al #c :End of NAMES list
> say 2 PART #c
1 :bo!u@h PART #c :bo
2 :bo!u@h PART #c :bo
> say 2 PRIVMSG #c :ten
2 :a.net 404 bo #c :Cannot send to channel
> say 2 NOTICE #c :ten
> say 1 MODE #c +m-b *!u@h
1 :al!u@h MODE #c +m-b *!u@h
> say 2 PRIVMSG #c :eleven
2 :a.net 404 bo #c :Cannot send to channel
> say 1 MODE #c -m
1 :al!u@h MODE #c -m
> say 2 PRIVMSG #c :twelve
1 :bo!u@h PRIVMSG #c :twelve
> say 1 MODE #c +v al
1 :al!u@h MODE #c +v al
> say 1 NAMES #c
1 :a.net 353 al = #c :@al
1 :a.net 366 al #c :End of NAMES list
";

#[test]
fn who_may_not_speak_is_told_so(rt: HostRuntime) {
    assert!(rt; prints(rt.alloc(), 2, SILENCED));
}

/// The thirty-first ban is refused, but not one that is there; where one is taken away before,
/// there is room.
const FULL: &str = "\
> say 1 JOIN #c
1 :al!u@h JOIN #c
1 :a.net 353 al = #c :@al
1 :a.net 366 al #c :End of NAMES list
> say 1 MODE #c +bbb n00 n01 n02
1 :al!u@h MODE #c +bbb n00 n01 n02
> say 1 MODE #c +bbb n03 n04 n05
1 :al!u@h MODE #c +bbb n03 n04 n05
> say 1 MODE #c +bbb n06 n07 n08
1 :al!u@h MODE #c +bbb n06 n07 n08
> say 1 MODE #c +bbb n09 n10 n11
1 :al!u@h MODE #c +bbb n09 n10 n11
> say 1 MODE #c +bbb n12 n13 n14
1 :al!u@h MODE #c +bbb n12 n13 n14
> say 1 MODE #c +bbb n15 n16 n17
1 :al!u@h MODE #c +bbb n15 n16 n17
> say 1 MODE #c +bbb n18 n19 n20
1 :al!u@h MODE #c +bbb n18 n19 n20
> say 1 MODE #c +bbb n21 n22 n23
1 :al!u@h MODE #c +bbb n21 n22 n23
> say 1 MODE #c +bbb n24 n25 n26
1 :al!u@h MODE #c +bbb n24 n25 n26
> say 1 MODE #c +bbb n27 n28 n29
1 :al!u@h MODE #c +bbb n27 n28 n29
> say 1 MODE #c +bb n30 N05
1 :a.net 478 al #c b :Channel list is full
> say 1 MODE #c -b+bb n07 n30 n31
1 :a.net 478 al #c b :Channel list is full
1 :al!u@h MODE #c -b+b n07 n30
> say 1 MODE #c b
1 :a.net 367 al #c n00
1 :a.net 367 al #c n01
1 :a.net 367 al #c n02
1 :a.net 367 al #c n03
1 :a.net 367 al #c n04
1 :a.net 367 al #c n05
1 :a.net 367 al #c n06
1 :a.net 367 al #c n08
1 :a.net 367 al #c n09
1 :a.net 367 al #c n10
1 :a.net 367 al #c n11
1 :a.net 367 al #c n12
1 :a.net 367 al #c n13
1 :a.net 367 al #c n14
1 :a.net 367 al #c n15
1 :a.net 367 al #c n16
1 :a.net 367 al #c n17
1 :a.net 367 al #c n18
1 :a.net 367 al #c n19
1 :a.net 367 al #c n20
1 :a.net 367 al #c n21
1 :a.net 367 al #c n22
1 :a.net 367 al #c n23
1 :a.net 367 al #c n24
1 :a.net 367 al #c n25
1 :a.net 367 al #c n26
1 :a.net 367 al #c n27
1 :a.net 367 al #c n28
1 :a.net 367 al #c n29
1 :a.net 367 al #c n30
1 :a.net 368 al #c :End of channel ban list
> say 1 MODE #c +b ::x
";

#[test]
fn a_channel_has_thirty_bans(rt: HostRuntime) {
    assert!(rt; prints(rt.alloc(), 1, FULL));
}

/// Each letter takes its parameter or is told that there is none. Of some letters only the first
/// counts, and of those with a parameter the first three.
const READING: &str = "\
> say 1 JOIN #c
1 :al!u@h JOIN #c
1 :a.net 353 al = #c :@al
1 :a.net 366 al #c :End of NAMES list
> say 1 MODE
1 :a.net 461 al MODE :Not enough parameters
> say 1 MODE #x +m
1 :a.net 403 al #x :No such channel
> say 1 MODE #c +olxv
1 :a.net 461 al MODE :Not enough parameters
1 :a.net 461 al MODE :Not enough parameters
1 :a.net 472 al x :is unknown mode char to me for #c
1 :a.net 461 al MODE :Not enough parameters
> say 1 MODE #c +imi-i
1 :al!u@h MODE #c +im
> say 1 MODE #c +bbb
1 :a.net 368 al #c :End of channel ban list
> say 1 MODE #c +vvvv bo bo zz
1 :a.net 441 al bo #c :They aren't on that channel
1 :a.net 441 al bo #c :They aren't on that channel
1 :a.net 401 al zz :No such nick/channel
> say 1 MODE #c +o-o+v zz AL al
1 :a.net 401 al zz :No such nick/channel
1 :al!u@h MODE #c -o+v al al
> say 1 MODE #c +m al
1 :a.net 482 al #c :You're not channel operator
> say 1 MODE #c
1 :a.net 324 al #c +im
";

#[test]
fn letters_are_read_in_turn(rt: HostRuntime) {
    assert!(rt; prints(rt.alloc(), 2, READING));
}

/// Who is no operator is told so once, and may see the bans; an operator that steps back in a
/// command was one at its start.
const REFUSED: &str = "\
> say 1 JOIN #c
1 :al!u@h JOIN #c
1 :a.net 353 al = #c :@al
1 :a.net 366 al #c :End of NAMES list
> say 2 MODE #c +b
2 :a.net 368 bo #c :End of channel ban list
> say 2 MODE #c xb+mz-m+o
2 :a.net 472 bo x :is unknown mode char to me for #c
2 :a.net 368 bo #c :End of channel ban list
2 :a.net 482 bo #c :You're not channel operator
2 :a.net 472 bo z :is unknown mode char to me for #c
2 :a.net 461 bo MODE :Not enough parameters
> say 2 JOIN #c
1 :bo!u@h JOIN #c
2 :bo!u@h JOIN #c
2 :a.net 353 bo = #c :@al bo
2 :a.net 366 bo #c :End of NAMES list
> say 2 MODE #c +l nothing
2 :a.net 482 bo #c :You're not channel operator
> say 2 MODE #c +s-s
2 :a.net 482 bo #c :You're not channel operator
> say 1 MODE #c -o+m-v AL bo
1 :al!u@h MODE #c -o+m al
2 :al!u@h MODE #c -o+m al
> say 1 MODE #c +n
1 :a.net 482 al #c :You're not channel operator
> say 2 MODE #c
2 :a.net 324 bo #c +m
> say 2 MODE #c +ntp-m+ov zz al
2 :a.net 482 bo #c :You're not channel operator
> say 2 MODE #c
2 :a.net 324 bo #c +m
";

#[test]
fn outsiders_change_nothing(rt: HostRuntime) {
    assert!(rt; prints(rt.alloc(), 2, REFUSED));
}

/// Modes are told in one order, to anybody, and the key to members.
const TOLD: &str = "\
> say 1 JOIN #Home
1 :al!u@h JOIN #Home
1 :a.net 353 al = #Home :@al
1 :a.net 366 al #Home :End of NAMES list
> say 1 MODE #home +tlknmi 65535 pa55
1 :al!u@h MODE #Home +tlknmi 65535 pa55
> say 1 MODE #HOME +p
1 :al!u@h MODE #Home +p
> say 1 MODE #home
1 :a.net 324 al #Home +imnptkl pa55 65535
> say 2 MODE #home
2 :a.net 324 bo #Home +imnptkl * 65535
> say 2 MODE home
2 :a.net 502 bo :Cannot change mode for other users
> say 2 MODE #home2
2 :a.net 403 bo #home2 :No such channel
";

#[test]
fn the_key_is_told_to_members(rt: HostRuntime) {
    assert!(rt; prints(rt.alloc(), 2, TOLD));
}

/// A user sees and changes its own mode alone. Letters that are no mode are told once, before what
/// changes.
const OWN: &str = "\
> say 1 MODE al
1 :a.net 221 al +
> say 1 MODE AL +i
1 :al!u@h MODE al +i
> say 1 MODE al
1 :a.net 221 al +i
> say 1 MODE al i
> say 1 MODE al -x+i-oi
1 :a.net 501 al :Unknown MODE flag
1 :al!u@h MODE al -i
> say 1 MODE al :
> say 1 MODE al
1 :a.net 221 al +
> say 1 MODE bo
1 :a.net 502 al :Cannot change mode for other users
> say 1 MODE bo +i
1 :a.net 502 al :Cannot change mode for other users
> say 1 MODE zz
1 :a.net 502 al :Cannot change mode for other users
> say 1 MODE al +i-i+ a
> say 1 MODE al w
1 :a.net 501 al :Unknown MODE flag
";

#[test]
fn a_user_changes_its_own_mode(rt: HostRuntime) {
    assert!(rt; prints(rt.alloc(), 2, OWN));
}
