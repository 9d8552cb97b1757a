//! What the modes s and p of a channel and i of a user hide, and from whom (RFC 2811 section 4.2.6,
//! RFC 2812 sections 3.1.5 and 3.6.1).
use crate::running::prints;

/// bo is in no channel: a private one is not listed for it, a secret one not known to it either,
/// but by MODE, and an invisible user neither named nor seen; all of them are counted. Each is told
/// to who is in the channel, and to itself; then bo comes to share a channel with al, and with cy.
const HIDDEN: &str = "\
> say 1 JOIN #open,#priv,#sec
1 :al!u@h JOIN #open
1 :a.net 353 al = #open :@al
1 :a.net 366 al #open :End of NAMES list
1 :al!u@h JOIN #priv
1 :a.net 353 al = #priv :@al
1 :a.net 366 al #priv :End of NAMES list
1 :al!u@h JOIN #sec
1 :a.net 353 al = #sec :@al
1 :a.net 366 al #sec :End of NAMES list
> say 1 MODE #priv +p
1 :al!u@h MODE #priv +p
> say 1 MODE #sec +s
1 :al!u@h MODE #sec +s
> say 1 TOPIC #priv :quiet
1 :al!u@h TOPIC #priv :quiet
> say 1 TOPIC #sec :hush
1 :al!u@h TOPIC #sec :hush
> say 3 MODE cy +i
3 :cy!u@h MODE cy +i
> say 3 WHO cy
3 :a.net 352 cy * u h a.net cy H :0 Cy
3 :a.net 315 cy cy :End of WHO list
> say 2 WHO cy
2 :a.net 315 bo cy :End of WHO list
> say 3 JOIN #open,#sec,#own
1 :cy!u@h JOIN #open
3 :cy!u@h JOIN #open
3 :a.net 353 cy = #open :@al cy
3 :a.net 366 cy #open :End of NAMES list
1 :cy!u@h JOIN #sec
3 :cy!u@h JOIN #sec
3 :a.net 332 cy #sec :hush
3 :a.net 353 cy @ #sec :@al cy
3 :a.net 366 cy #sec :End of NAMES list
3 :cy!u@h JOIN #own
3 :a.net 353 cy = #own :@cy
3 :a.net 366 cy #own :End of NAMES list
> say 2 LIST
2 :a.net 322 bo #open 1 :
2 :a.net 322 bo #own 0 :
2 :a.net 323 bo :End of LIST
> say 2 LIST #sec,#priv,#open
2 :a.net 322 bo #priv 1 :quiet
2 :a.net 322 bo #open 1 :
2 :a.net 323 bo :End of LIST
> say 2 LIST #own
2 :a.net 322 bo #own 0 :
2 :a.net 323 bo :End of LIST
> say 2 NAMES
2 :a.net 353 bo = #open :@al
2 :a.net 366 bo * :End of NAMES list
> say 2 NAMES #sec,#priv,#open,#own
2 :a.net 366 bo #sec :End of NAMES list
2 :a.net 353 bo * #priv :@al
2 :a.net 366 bo #priv :End of NAMES list
2 :a.net 353 bo = #open :@al
2 :a.net 366 bo #open :End of NAMES list
2 :a.net 366 bo #own :End of NAMES list
> say 2 WHO
2 :a.net 352 bo * u h a.net al H :0 Al
2 :a.net 352 bo * u h a.net bo H :0 Bo
2 :a.net 315 bo * :End of WHO list
> say 2 WHO cy
2 :a.net 315 bo cy :End of WHO list
> say 2 WHO #sec
2 :a.net 315 bo #sec :End of WHO list
> say 2 WHO #priv
2 :a.net 352 bo #priv u h a.net al H@ :0 Al
2 :a.net 315 bo #priv :End of WHO list
> say 2 WHO #open
2 :a.net 352 bo #open u h a.net al H@ :0 Al
2 :a.net 315 bo #open :End of WHO list
> say 2 WHOIS al,cy
2 :a.net 311 bo al u h * :Al
2 :a.net 312 bo al a.net :Test server
2 :a.net 319 bo al :@#open
2 :a.net 311 bo cy u h * :Cy
2 :a.net 312 bo cy a.net :Test server
2 :a.net 319 bo cy :#open @#own
2 :a.net 318 bo al,cy :End of WHOIS list
> say 2 TOPIC #sec
2 :a.net 403 bo #sec :No such channel
> say 2 TOPIC #sec :mine
2 :a.net 403 bo #sec :No such channel
> say 2 TOPIC #priv
2 :a.net 332 bo #priv :quiet
> say 2 TOPIC #priv :mine
2 :a.net 442 bo #priv :You're not on that channel
> say 2 PRIVMSG #sec,#priv,cy :psst
1 :bo!u@h PRIVMSG #sec :psst
3 :bo!u@h PRIVMSG #sec :psst
1 :bo!u@h PRIVMSG #priv :psst
3 :bo!u@h PRIVMSG cy :psst
> say 2 MODE #sec
2 :a.net 324 bo #sec +s
> say 2 MODE #priv
2 :a.net 324 bo #priv +p
> say 2 ISON cy al
2 :a.net 303 bo :cy al
> say 2 LUSERS
2 :a.net 251 bo :There are 3 users and 0 services on 1 servers
2 :a.net 254 bo 4 :channels formed
2 :a.net 255 bo :I have 3 clients and 0 servers
> say 3 WHO cy
3 :a.net 352 cy * u h a.net cy H :0 Cy
3 :a.net 315 cy cy :End of WHO list
> say 1 LIST
1 :a.net 322 al #open 2 :
1 :a.net 322 al #own 0 :
1 :a.net 322 al #priv 1 :quiet
1 :a.net 322 al #sec 2 :hush
1 :a.net 323 al :End of LIST
> say 1 NAMES
1 :a.net 353 al = #open :@al cy
1 :a.net 353 al * #priv :@al
1 :a.net 353 al @ #sec :@al cy
1 :a.net 366 al * :End of NAMES list
> say 1 WHO
1 :a.net 352 al * u h a.net al H :0 Al
1 :a.net 352 al * u h a.net bo H :0 Bo
1 :a.net 352 al * u h a.net cy H :0 Cy
1 :a.net 315 al * :End of WHO list
> say 1 WHO #sec
1 :a.net 352 al #sec u h a.net al H@ :0 Al
1 :a.net 352 al #sec u h a.net cy H :0 Cy
1 :a.net 315 al #sec :End of WHO list
> say 1 WHOIS cy
1 :a.net 311 al cy u h * :Cy
1 :a.net 312 al cy a.net :Test server
1 :a.net 319 al cy :#open @#own #sec
1 :a.net 318 al cy :End of WHOIS list
> say 1 TOPIC #sec
1 :a.net 332 al #sec :hush
> say 2 JOIN #priv
1 :bo!u@h JOIN #priv
2 :bo!u@h JOIN #priv
2 :a.net 332 bo #priv :quiet
2 :a.net 353 bo * #priv :@al bo
2 :a.net 366 bo #priv :End of NAMES list
> say 2 LIST
2 :a.net 322 bo #open 1 :
2 :a.net 322 bo #own 0 :
2 :a.net 322 bo #priv 2 :quiet
2 :a.net 323 bo :End of LIST
> say 2 NAMES
2 :a.net 353 bo = #open :@al
2 :a.net 353 bo * #priv :@al bo
2 :a.net 366 bo * :End of NAMES list
> say 2 WHOIS al
2 :a.net 311 bo al u h * :Al
2 :a.net 312 bo al a.net :Test server
2 :a.net 319 bo al :@#open @#priv
2 :a.net 318 bo al :End of WHOIS list
> say 2 WHO cy
2 :a.net 315 bo cy :End of WHO list
> say 2 JOIN #open
1 :bo!u@h JOIN #open
2 :bo!u@h JOIN #open
3 :bo!u@h JOIN #open
2 :a.net 353 bo = #open :@al bo cy
2 :a.net 366 bo #open :End of NAMES list
> say 2 LIST #open
2 :a.net 322 bo #open 3 :
2 :a.net 323 bo :End of LIST
> say 2 WHO cy
2 :a.net 352 bo * u h a.net cy H :0 Cy
2 :a.net 315 bo cy :End of WHO list
> say 2 NAMES #own
2 :a.net 366 bo #own :End of NAMES list
> say 2 WHO #own
2 :a.net 352 bo #own u h a.net cy H@ :0 Cy
2 :a.net 315 bo #own :End of WHO list
> say 3 MODE cy -i
3 :cy!u@h MODE cy -i
> say 2 NAMES #own
2 :a.net 353 bo = #own :@cy
2 :a.net 366 bo #own :End of NAMES list
";

#[test]
fn outsiders_are_not_shown_what_is_hidden(rt: HostRuntime) {
    assert!(rt; prints(rt.alloc(), 3, HIDDEN));
}
