//! What effects show, and to whom (RFC 2812, section 3).
use crate::script::room_holds;

const SHOWN: &str = "\
user al a.net h Al =
user bo a.net h Bo =
user cy b.net h Cy =
home a.net = al bo
home b.net = cy
home c.net =
make al #c = al :al!u@h JOIN #c
make al #d = al :al!u@h JOIN #d
join bo #C = al bo :bo!u@h JOIN #c
join bo #d = al bo :bo!u@h JOIN #d
join cy #c = al bo (cy) :cy!u@h JOIN #c
join cy #c = idle
part cy #d x = idle
kick al #d cy = idle
mode al #C +mo-v bo al = al bo (cy) :al!u@h MODE #c +mo-v bo al
mode * #c +o-v+l bo cy 5 = al bo (cy) :a.net MODE #c +o-v+l bo cy 5
mode al #c +v-o+v BO Nobody CY = al bo (cy) :al!u@h MODE #c +v-o+v bo Nobody cy
topic bo #c hello there = al bo (cy) :bo!u@h TOPIC #c :hello there
topic * #C  = al bo (cy) :a.net TOPIC #c :
say al #C hi = bo (cy) :al!u@h PRIVMSG #c :hi
note bo #c hi there = al (cy) :bo!u@h NOTICE #c :hi there
say bo AL hi = al :bo!u@h PRIVMSG al :hi
say AL al hi = al :al!u@h PRIVMSG al :hi
say bo cy hi = (cy)
invite bo cy #d = (cy)
invite cy BO #D = bo :cy!u@h INVITE bo #d
invite cy bo #X = bo :cy!u@h INVITE bo #X
set bo +i = bo :bo!u@h MODE bo +i
set BO -i = bo :bo!u@h MODE bo -i
set cy +i = (cy)
nick al AL = al bo (cy) :al!u@h NICK AL
nick AL Zed = AL bo (cy) :AL!u@h NICK Zed
kick zed #D BO = bo Zed :Zed!u@h KICK #d bo :out
part zed #D bye = Zed :Zed!u@h PART #d :bye
quit bo bye = (cy) Zed :bo!u@h QUIT :bye
quit cy bye = Zed :cy!u@h QUIT :bye
quit Zed bye =";

const REFUSED: &str = "\
user al a.net h Al =
user AL a.net h Al = taken
nick al AL = al :al!u@h NICK AL
quit bo x = no user
kick bo #c al = no user
kick al #c bo = no user
say al bo x = no user
say al #c x = no channel
topic bo #c x = no user
topic * #c x = no channel
mode al #c +i = no channel
part al #c x = no channel";

#[test]
fn effects_are_shown_to_whom_they_concern(rt: HostRuntime) {
    assert!(rt; room_holds(&rt, rt.alloc(), SHOWN));
    assert!(rt; room_holds(&rt, rt.alloc(), REFUSED));
}
