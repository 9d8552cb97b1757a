//! ISON, LUSERS, LIST, WHOIS and WHO (RFC 2812 sections 4.9, 3.4.2, 3.2.6, 3.6.2 and 3.6.1).
use crate::running::prints;

/// Words are parted by spaces, in each parameter; nicknames are written as stored, in the order
/// given. The fifteenth is the rest of the line.
const ISON: &str = "\
> say 2 ISON
2 :a.net 461 bo ISON :Not enough parameters
> say 2 ISON bo zz AL
2 :a.net 303 bo :bo al
> say 2 ISON bo  zz :cy  al zz,bo
2 :a.net 303 bo :bo cy al
> say 2 ISON zz
2 :a.net 303 bo :
> say 2 ISON :
2 :a.net 303 bo :
> say 2 ISON AL al
2 :a.net 303 bo :al al
> say 2 ISON 1 2 3 4 5 6 7 8 9 10 11 12 13 14 :al
2 :a.net 303 bo :al
> say 2 ISON 1 2 3 4 5 6 7 8 9 10 11 12 13 14 15 :al
2 :a.net 303 bo :
";

#[test]
fn nicknames_are_looked_up(rt: HostRuntime) {
    assert!(rt; prints(rt.alloc(), 3, ISON));
}

/// Without a channel there is no line of channels. A secret one is counted, and no client that has
/// not registered.
const LUSERS: &str = "\
> say 2 LUSERS
2 :a.net 251 bo :There are 2 users and 0 services on 1 servers
2 :a.net 255 bo :I have 2 clients and 0 servers
> say 1 JOIN #c
1 :al!u@h JOIN #c
1 :a.net 353 al = #c :@al
1 :a.net 366 al #c :End of NAMES list
> say 2 LUSERS
2 :a.net 251 bo :There are 2 users and 0 services on 1 servers
2 :a.net 254 bo 1 :channels formed
2 :a.net 255 bo :I have 2 clients and 0 servers
> say 2 LUSERS x y
2 :a.net 251 bo :There are 2 users and 0 services on 1 servers
2 :a.net 254 bo 1 :channels formed
2 :a.net 255 bo :I have 2 clients and 0 servers
> say 1 MODE #c +s
1 :al!u@h MODE #c +s
> say 2 LUSERS
2 :a.net 251 bo :There are 2 users and 0 services on 1 servers
2 :a.net 254 bo 1 :channels formed
2 :a.net 255 bo :I have 2 clients and 0 servers
> connect a.net h
> say 3 NICK cy
> say 2 LUSERS
2 :a.net 251 bo :There are 2 users and 0 services on 1 servers
2 :a.net 254 bo 1 :channels formed
2 :a.net 255 bo :I have 2 clients and 0 servers
";

#[test]
fn users_and_channels_are_counted(rt: HostRuntime) {
    assert!(rt; prints(rt.alloc(), 2, LUSERS));
}

/// Entries that are empty, or no channel's, are passed over.
const LIST: &str = "\
> say 1 JOIN #c
1 :al!u@h JOIN #c
1 :a.net 353 al = #c :@al
1 :a.net 366 al #c :End of NAMES list
> say 2 LIST
2 :a.net 322 bo #c 1 :
2 :a.net 323 bo :End of LIST
> say 2 LIST :
2 :a.net 323 bo :End of LIST
> say 2 JOIN #b
2 :bo!u@h JOIN #b
2 :a.net 353 bo = #b :@bo
2 :a.net 366 bo #b :End of NAMES list
> say 2 TOPIC #b :on b
2 :bo!u@h TOPIC #b :on b
> say 3 JOIN #b
2 :cy!u@h JOIN #b
3 :cy!u@h JOIN #b
3 :a.net 332 cy #b :on b
3 :a.net 353 cy = #b :@bo cy
3 :a.net 366 cy #b :End of NAMES list
> say 1 LIST
1 :a.net 322 al #b 2 :on b
1 :a.net 322 al #c 1 :
1 :a.net 323 al :End of LIST
> say 1 LIST #x,,#C,#B,b a.net
1 :a.net 322 al #c 1 :
1 :a.net 322 al #b 2 :on b
1 :a.net 323 al :End of LIST
> say 1 LIST ,
1 :a.net 323 al :End of LIST
";

#[test]
fn channels_are_listed(rt: HostRuntime) {
    assert!(rt; prints(rt.alloc(), 3, LIST));
}

/// Five channels a line, and one end behind the whole list.
const WHOIS: &str = "\
> say 1 JOIN #c
1 :al!u@h JOIN #c
1 :a.net 353 al = #c :@al
1 :a.net 366 al #c :End of NAMES list
> say 2 WHOIS al
2 :a.net 311 bo al u h * :Al
2 :a.net 312 bo al a.net :Test server
2 :a.net 319 bo al :@#c
2 :a.net 318 bo al :End of WHOIS list
> say 1 JOIN #d,#e,#f,#g,#h
1 :al!u@h JOIN #d
1 :a.net 353 al = #d :@al
1 :a.net 366 al #d :End of NAMES list
1 :al!u@h JOIN #e
1 :a.net 353 al = #e :@al
1 :a.net 366 al #e :End of NAMES list
1 :al!u@h JOIN #f
1 :a.net 353 al = #f :@al
1 :a.net 366 al #f :End of NAMES list
1 :al!u@h JOIN #g
1 :a.net 353 al = #g :@al
1 :a.net 366 al #g :End of NAMES list
1 :al!u@h JOIN #h
1 :a.net 353 al = #h :@al
1 :a.net 366 al #h :End of NAMES list
> say 2 WHOIS
2 :a.net 431 bo :No nickname given
> say 2 WHOIS AL,zz,,bo
2 :a.net 311 bo al u h * :Al
2 :a.net 312 bo al a.net :Test server
2 :a.net 319 bo al :@#c @#d @#e @#f @#g
2 :a.net 319 bo al :@#h
2 :a.net 401 bo zz :No such nick/channel
2 :a.net 311 bo bo u h * :Bo
2 :a.net 312 bo bo a.net :Test server
2 :a.net 318 bo AL,zz,,bo :End of WHOIS list
> say 2 WHOIS a.net BO
2 :a.net 311 bo bo u h * :Bo
2 :a.net 312 bo bo a.net :Test server
2 :a.net 318 bo BO :End of WHOIS list
> say 2 WHOIS a.net bo al
2 :a.net 311 bo bo u h * :Bo
2 :a.net 312 bo bo a.net :Test server
2 :a.net 318 bo bo :End of WHOIS list
> say 2 WHOIS al :
2 :a.net 318 bo  :End of WHOIS list
";

#[test]
fn users_are_asked_about(rt: HostRuntime) {
    assert!(rt; prints(rt.alloc(), 2, WHOIS));
}

/// A mask may be empty, a word without # is one; operators of the network there are none.
const WHO: &str = "\
> say 1 JOIN #c
1 :al!u@h JOIN #c
1 :a.net 353 al = #c :@al
1 :a.net 366 al #c :End of NAMES list
> say 2 WHO #c
2 :a.net 352 bo #c u h a.net al H@ :0 Al
2 :a.net 315 bo #c :End of WHO list
> say 2 JOIN #C
1 :bo!u@h JOIN #c
2 :bo!u@h JOIN #c
2 :a.net 353 bo = #c :@al bo
2 :a.net 366 bo #C :End of NAMES list
> say 2 WHO #C
2 :a.net 352 bo #c u h a.net al H@ :0 Al
2 :a.net 352 bo #c u h a.net bo H :0 Bo
2 :a.net 315 bo #C :End of WHO list
> say 2 WHO #x
2 :a.net 315 bo #x :End of WHO list
> say 2 WHO c
2 :a.net 315 bo c :End of WHO list
> say 2 WHO
2 :a.net 352 bo * u h a.net al H :0 Al
2 :a.net 352 bo * u h a.net bo H :0 Bo
2 :a.net 352 bo * u h a.net cy H :0 Cy
2 :a.net 315 bo * :End of WHO list
> say 2 WHO 0
2 :a.net 352 bo * u h a.net al H :0 Al
2 :a.net 352 bo * u h a.net bo H :0 Bo
2 :a.net 352 bo * u h a.net cy H :0 Cy
2 :a.net 315 bo 0 :End of WHO list
> say 2 WHO 0 o
2 :a.net 315 bo 0 :End of WHO list
> say 2 WHO #c o
2 :a.net 315 bo #c :End of WHO list
> say 2 WHO #c O
2 :a.net 352 bo #c u h a.net al H@ :0 Al
2 :a.net 352 bo #c u h a.net bo H :0 Bo
2 :a.net 315 bo #c :End of WHO list
> say 2 WHO :
2 :a.net 315 bo  :End of WHO list
> say 2 WHO C*
2 :a.net 352 bo * u h a.net cy H :0 Cy
2 :a.net 315 bo C* :End of WHO list
> say 2 WHO u
2 :a.net 315 bo u :End of WHO list
> say 2 WHO b?
2 :a.net 352 bo * u h a.net bo H :0 Bo
2 :a.net 315 bo b? :End of WHO list
> say 2 WHO A.N?T o
2 :a.net 315 bo A.N?T :End of WHO list
> say 2 WHO bo*
2 :a.net 352 bo * u h a.net bo H :0 Bo
2 :a.net 315 bo bo* :End of WHO list
> say 2 WHO bo?
2 :a.net 315 bo bo? :End of WHO list
> say 2 WHO al\\*
2 :a.net 315 bo al\\* :End of WHO list
> say 2 WHO a\\?
2 :a.net 315 bo a\\? :End of WHO list
";

#[test]
fn users_are_asked_for(rt: HostRuntime) {
    assert!(rt; prints(rt.alloc(), 3, WHO));
}
