//! Members, invitations and modes of channels (RFC 2811, sections 2 to 4).
use crate::script::{
    ScriptRow, ScriptStage, ShownText, append, channel, nick, room_holds, script_holds, show_state,
};
use irc_channels::{Channels, ChannelsFault};
use std::alloc::Global;
use std::process::Abort;

const MEMBERS: &str = "\
user [x a.net h X =
user zed a.net h Z =
user Al a.net h A =
users = Al zed [x
make zed #[ = zed :zed!u@h JOIN #[
make Al #b = Al :Al!u@h JOIN #b
join Al #{ = Al zed :Al!u@h JOIN #[
channels AL = #b #[
invite zed [x #{ = [x :zed!u@h INVITE [x #[
state #{ = #[ + : Al @zed ?[x
invited {X #{ = yes
invited zed #[ = no
invited [x #b = no
join [x #[ = Al zed [x :[x!u@h JOIN #[
state #[ = #[ + : Al @zed [x
invited [x #[ = no
nick Al {y = Al zed [x :Al!u@h NICK {y
state #[ = #[ + : @zed [x {y
topic zed #[ hello = zed [x {y :zed!u@h TOPIC #[ :hello
mode zed #[ +k pw = zed [x {y :zed!u@h MODE #[ +k pw
state #[ = #[ + pw :hello @zed [x {y
part zed #[ x = zed [x {y :zed!u@h PART #[ :x
quit [x x = {y :[x!u@h QUIT :x
invite {y zed #[ = zed :{y!u@h INVITE zed #[
part {y #[ x = {y :{y!u@h PART #[ :x
state #[ = none
make zed #{ = zed :zed!u@h JOIN #{
state #[ = #{ + : @zed
channels zed = #{";

const MODES: &str = "\
user al a.net h Al =
user Bo a.net h Bo =
make al #c = al :al!u@h JOIN #c
join Bo #c = al Bo :Bo!u@h JOIN #c
mode * #c +p = al Bo :a.net MODE #c +p
state #c = #c +p : @al Bo
mode * #c +s = al Bo :a.net MODE #c +s
mode * #c +p = al Bo :a.net MODE #c +p
mode * #c -p = al Bo :a.net MODE #c -p
state #c = #c +s : @al Bo
mode * #c -s = al Bo :a.net MODE #c -s
state #c = #c + : @al Bo
mode * #c imnt = al Bo :a.net MODE #c +imnt
state #c = #c +imnt : @al Bo
mode * #c -m+k-n pw = al Bo :a.net MODE #c -m+k-n pw
mode * #c +k no,key = al Bo :a.net MODE #c +k no,key
mode * #c +l 00042 = al Bo :a.net MODE #c +l 00042
mode * #c +l 65536 = al Bo :a.net MODE #c +l 65536
mode * #c +l 0 = al Bo :a.net MODE #c +l 0
mode * #c +l 000001 = al Bo :a.net MODE #c +l 000001
mode * #c +l 4x = al Bo :a.net MODE #c +l 4x
state #c = #c +it pw 42 : @al Bo
mode * #c -kl = al Bo :a.net MODE #c -kl
state #c = #c +it : @al Bo
mode * #c +l 65535 = al Bo :a.net MODE #c +l 65535
mode * #c +bbb A[!*@* a{!*@* :x = al Bo :a.net MODE #c +bbb A[!*@* a{!*@* :x
mode * #c +b-t a!*@* = al Bo :a.net MODE #c +b-t a!*@*
state #c = #c +i 65535 a!*@* a{!*@* : @al Bo
mode * #c -bi+b a{!*@* b!*@* = al Bo :a.net MODE #c -bi+b a{!*@* b!*@*
state #c = #c + 65535 a!*@* b!*@* : @al Bo
mode * #c +o-o+v bo AL al = al Bo :a.net MODE #c +o-o+v Bo al al
mode * #c +o nobody = al Bo :a.net MODE #c +o nobody
state #c = #c + 65535 a!*@* b!*@* : +al @Bo";

/// Which letters take a parameter, which of them count, and which letters count once.
const READING: &str = "\
user al a.net h Al =
make al #c = al :al!u@h JOIN #c
mode * #c +v-io+kx bo al pw +n = al :a.net MODE #c +v-io+k bo al pw
mode * #c +bbbbbbib-i a b c d = al :a.net MODE #c +bbbi a b c
mode * #c -k+lov-l = al :a.net MODE #c -k
mode * #c +l-l 7 = al :a.net MODE #c +l 7
mode * #c -lk x = al :a.net MODE #c -lk x
mode * #c +ii-i+m = al :a.net MODE #c +im
mode * #c +vvvv al bo cy di = al :a.net MODE #c +vvv al bo cy";

/// A channel that is spelled in the greater of two ways stays what it is but for its name.
const RESPELLED: &str = "\
user al a.net h Al =
user bo a.net h Bo =
user cy b.net h Cy =
respell #chat = no channel
state #chat = none
make al #Chat = al :al!u@h JOIN #Chat
join bo #chat = al bo :bo!u@h JOIN #Chat
mode al #chat +mkv pw bo = al bo :al!u@h MODE #Chat +mkv pw bo
topic bo #CHAT hi = al bo :bo!u@h TOPIC #Chat :hi
invite al cy #chat = (cy)
respell #CHAT =
state #chat = #Chat +m pw :hi @al +bo ?cy
respell #chat =
state #CHAT = #chat +m pw :hi @al +bo ?cy
respell #Chat =
state #CHAT = #chat +m pw :hi @al +bo ?cy
respell #cha = no channel
state #cha = none
users = al bo cy
channels bo = #chat
invited cy #CHAT = yes
join cy #Chat = al bo (cy) :cy!u@h JOIN #chat
part bo #Chat x = al bo (cy) :bo!u@h PART #chat :x
quit al x = (cy)
part cy #chat x = (cy)
make bo #CHAT = bo :bo!u@h JOIN #CHAT
state #chat = #CHAT + : @bo";

/// Channels alone, of whom nobody is shown anything: `make NICK CHANNEL`, `invite NICK CHANNEL`,
/// `uninvite NICK CHANNEL`, `respell CHANNEL` and `state CHANNEL`. Of a spelling that a channel was
/// made in and one that comes the greater stays; a channel that is not there is refused.
static SPELLINGS: [&str; 6] = [
    "\
make al #Chat =
respell #other = no channel
respell #chat =
state #Chat = #chat + : @al",
    "\
make al #chat =
respell #other = no channel
respell #Chat =
state #chat = #chat + : @al",
    "\
make al #chat =
respell #other = no channel
respell #chat =
state #chat = #chat + : @al",
    "\
make al #[a] =
respell #other = no channel
respell #{A} =
state #[a] = #{A} + : @al",
    "\
make al #{A} =
respell #other = no channel
respell #[a] =
state #{A} = #{A} + : @al",
    "\
make al #cHAT =
respell #other = no channel
respell #ChAT =
state #cHAT = #cHAT + : @al",
];

/// An invitation that is taken back.
const TAKEN_BACK: &str = "\
make al #c =
invite bo #c =
invite cy #c =
uninvite BO #c =
state #C = #c + : @al ?cy";

fn show_fault(done: Result<(), ChannelsFault>, shown: &mut ShownText) {
    match done {
        Ok(()) => {}
        Err(ChannelsFault::NoSuchChannel) => append(shown, b" no channel"),
        Err(_) => append(shown, b" no memory"),
    }
}

/// Does what a row of a user and a channel says.
fn change(
    rt: &impl Abort,
    channels: &mut Channels,
    row: ScriptRow<'_>,
) -> Result<(), ChannelsFault> {
    let nick = nick(rt, row.first);
    let name = channel(rt, row.second);
    match row.verb {
        "make" => channels.join(&nick, &name, true),
        "invite" => channels.invite(&nick, &name),
        _ => channels.uninvite(&nick, &name),
    }
}

impl ScriptStage for Channels {
    fn perform(
        &mut self,
        rt: &impl Abort,
        _alloc: Global,
        row: ScriptRow<'_>,
        shown: &mut ShownText,
    ) {
        match row.verb {
            "state" => show_state(self.find(row.first.as_bytes()), shown),
            "respell" => show_fault(self.respell(&channel(rt, row.first)), shown),
            _ => show_fault(change(rt, self, row), shown),
        }
    }
}

/// Whether a script holds where there is no channel.
fn channels_hold(rt: &impl Abort, alloc: Global, script: &str) -> bool {
    let mut channels = Channels::new(alloc);
    script_holds(rt, alloc, &mut channels, script)
}

fn are_spelled(rt: &impl Abort, alloc: Global) -> bool {
    let mut all = true;
    for script in &SPELLINGS {
        all &= channels_hold(rt, alloc, script);
    }
    all
}

#[test]
fn the_greater_spelling_stays(rt: HostRuntime) {
    assert!(rt; are_spelled(&rt, rt.alloc()));
    assert!(rt; room_holds(&rt, rt.alloc(), RESPELLED));
}

#[test]
fn members_come_and_go(rt: HostRuntime) {
    assert!(rt; room_holds(&rt, rt.alloc(), MEMBERS));
    assert!(rt; channels_hold(&rt, rt.alloc(), TAKEN_BACK));
}

#[test]
fn modes_are_read_and_changed(rt: HostRuntime) {
    assert!(rt; room_holds(&rt, rt.alloc(), MODES));
    assert!(rt; room_holds(&rt, rt.alloc(), READING));
}
