//! Halves of a network that agree, and halves that do not.
use crate::script::{script_holds, server};
use irc_forest::agree;
use irc_room::Room;
use std::alloc::Global;
use std::process::Abort;

/// Two halves, each a script on a room without users, and whether they agree.
type HalvesCase = (&'static str, &'static str, bool);

/// al is in #c, which has a ban and a topic.
const AL: &str = "\
user al a.net h Al =
make al #c = al :al!u@h JOIN #c
mode * #c +b x!*@* = al :a.net MODE #c +b x!*@*
topic * #c Hi = al :a.net TOPIC #c :Hi";

/// The same, and cy is there too.
const AL_AND_CY: &str = "\
user al a.net h Al =
make al #c = al :al!u@h JOIN #c
user cy a.net h Cy =
make cy #c = al cy :cy!u@h JOIN #c
mode * #c +b x!*@* = al cy :a.net MODE #c +b x!*@*
topic * #c Hi = al cy :a.net TOPIC #c :Hi";

static CASES: [HalvesCase; 9] = [
    (
        AL,
        "\
user bo a.net h Bo =
make bo #c = bo :bo!u@h JOIN #c
mode * #c +b x!*@* = bo :a.net MODE #c +b x!*@*
topic * #c Hi = bo :a.net TOPIC #c :Hi",
        true,
    ),
    (
        AL,
        "\
user bo a.net h Bo =
make bo #c = bo :bo!u@h JOIN #c
mode * #c +b x!*@* = bo :a.net MODE #c +b x!*@*
topic * #c hi = bo :a.net TOPIC #c :hi",
        false,
    ),
    (
        AL,
        "\
user bo a.net h Bo =
make bo #C = bo :bo!u@h JOIN #C
mode * #C +b x!*@* = bo :a.net MODE #C +b x!*@*
topic * #C Hi = bo :a.net TOPIC #C :Hi",
        false,
    ),
    (
        AL,
        "\
user bo a.net h Bo =
make bo #c = bo :bo!u@h JOIN #c
mode * #c +b X!*@* = bo :a.net MODE #c +b X!*@*
topic * #c Hi = bo :a.net TOPIC #c :Hi",
        false,
    ),
    (
        AL,
        "\
user bo a.net h Bo =
make bo #d = bo :bo!u@h JOIN #d
mode * #d +b y!*@* = bo :a.net MODE #d +b y!*@*
topic * #d Ho = bo :a.net TOPIC #d :Ho",
        true,
    ),
    (
        AL,
        "\
user AL a.net h Al =
make AL #c = AL :AL!u@h JOIN #c
mode * #c +b y!*@* = AL :a.net MODE #c +b y!*@*
topic * #c Ho = AL :a.net TOPIC #c :Ho",
        true,
    ),
    (
        AL,
        "\
user al a.net h Al =
make al #c = al :al!u@h JOIN #c
user bo a.net h Bo =
make bo #c = al bo :bo!u@h JOIN #c
mode * #c +b y!*@* = al bo :a.net MODE #c +b y!*@*
topic * #c Ho = al bo :a.net TOPIC #c :Ho",
        true,
    ),
    (
        AL_AND_CY,
        "\
user al a.net h Al =
make al #c = al :al!u@h JOIN #c
mode * #c +b y!*@* = al :a.net MODE #c +b y!*@*
topic * #c Ho = al :a.net TOPIC #c :Ho",
        true,
    ),
    (
        AL_AND_CY,
        "\
user al a.net h Al =
make al #c = al :al!u@h JOIN #c
user bo a.net h Bo =
make bo #c = al bo :bo!u@h JOIN #c
mode * #c +b y!*@* = al bo :a.net MODE #c +b y!*@*
topic * #c Ho = al bo :a.net TOPIC #c :Ho",
        false,
    ),
];

/// Whether two rooms become what a case says, and agree as it says, whichever is named first.
fn holds(
    rt: &impl Abort,
    alloc: Global,
    one: &mut Room,
    other: &mut Room,
    case: &HalvesCase,
) -> bool {
    let (left, right, want) = case;
    script_holds(rt, alloc, one, left)
        && script_holds(rt, alloc, other, right)
        && agree(one, other) == *want
        && agree(other, one) == *want
}

fn case_holds(rt: &impl Abort, alloc: Global, case: &HalvesCase) -> bool {
    let mut one = Room::new(alloc, server(rt, "a.net"));
    let mut other = Room::new(alloc, server(rt, "a.net"));
    holds(rt, alloc, &mut one, &mut other, case)
}

fn all_hold(rt: &impl Abort, alloc: Global) -> bool {
    let mut all = true;
    for case in &CASES {
        all &= case_holds(rt, alloc, case);
    }
    all
}

#[test]
fn halves_agree_on_what_both_keep(rt: HostRuntime) {
    assert!(rt; all_hold(&rt, rt.alloc()));
}
