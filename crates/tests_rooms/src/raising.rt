//! Modes of two sides of one channel: what of each side's modes is raised in the other's, and that
//! both have the same then.
use crate::script::{ShownText, append, append_word, changes, show_modes};
use irc_modes::{ModeChange, Modes};
use std::alloc::Global;

/// The modes of two sides, and what comes of them. Several lines of one side stand behind one
/// another with a `;` between them.
struct Sides {
    one: &'static str,
    other: &'static str,
    /// What is raised of the other's lines in the modes of the one, and the other way round.
    seen_by_one: &'static str,
    seen_by_other: &'static str,
    /// The modes that both have then: the flags, the key, the limit and the bans.
    both: &'static str,
}

static SIDES: [Sides; 10] = [
    Sides {
        one: "+sk aa",
        other: "+nk bb",
        seen_by_one: " +nk bb",
        seen_by_other: " +s",
        both: " +ns bb",
    },
    Sides {
        one: "+p",
        other: "+s",
        seen_by_one: " +s",
        seen_by_other: "",
        both: " +s",
    },
    Sides {
        one: "+imntsk aa;+l 5",
        other: "+intpl 50",
        seen_by_one: " +l 50",
        seen_by_other: " +msk aa",
        both: " +imnts aa 50",
    },
    Sides {
        one: "+bbb A!*@* b!*@* x!*@*",
        other: "+bbb a!*@* B!*@* y!*@*",
        seen_by_one: " +bb a!*@* y!*@*",
        seen_by_other: " +bb b!*@* x!*@*",
        both: " + a!*@* b!*@* x!*@* y!*@*",
    },
    Sides {
        one: "+k Z",
        other: "+k a",
        seen_by_one: " +k a",
        seen_by_other: "",
        both: " + a",
    },
    Sides {
        one: "+k aa",
        other: "+k a",
        seen_by_one: "",
        seen_by_other: " +k aa",
        both: " + aa",
    },
    Sides {
        one: "+l 9",
        other: "+l 10",
        seen_by_one: " +l 10",
        seen_by_other: "",
        both: " + 10",
    },
    Sides {
        one: "+imnpk key;+b {!*@*",
        other: "+imnpk key;+b {!*@*",
        seen_by_one: "",
        seen_by_other: "",
        both: " +imnp key {!*@*",
    },
    Sides {
        one: "+bb A!*@* B!*@*",
        other: "+b a!*@*;+b b!*@*",
        seen_by_one: " +b a!*@* +b b!*@*",
        seen_by_other: "",
        both: " + a!*@* b!*@*",
    },
    Sides {
        one: "+bbb n00 n02 n04;+bbb n06 n08 n10;+bbb n12 n14 n16;\
            +bbb n18 n20 n22;+bbb n24 n26 n28;+bbb n30 n32 n34;\
            +bb n36 n38",
        other: "+bbb n01 n03 n05;+bbb n07 n09 n11;+bbb n13 n15 n17;\
            +bbb n19 n21 n23;+bbb n25 n27 n29;+bbb n31 n33 n35;\
            +bb n37 n39",
        seen_by_one: " +bbb n01 n03 n05 +bbb n07 n09 n11 +bbb n13 n15 n17 \
            +bbb n19 n21 n23 +bbb n25 n27 n29 +bbb n31 n33 n35 \
            +bb n37 n39",
        seen_by_other: " +bbb n00 n02 n04 +bbb n06 n08 n10 +bbb n12 n14 n16 \
            +bbb n18 n20 n22 +bbb n24 n26 n28 +bbb n30 n32 n34 \
            +bb n36 n38",
        both: " + n00 n01 n02 n03 n04 n05 n06 n07 n08 n09 \
            n10 n11 n12 n13 n14 n15 n16 n17 n18 n19 n20 \
            n21 n22 n23 n24 n25 n26 n27 n28 n29 n30 n31 \
            n32 n33 n34 n35 n36 n37 n38 n39",
    },
];

/// Modes, a line of changes on them, those of it that raise something, and the modes then: each
/// change is judged behind those before it. What is taken away counts always, and so does a mode of
/// a member.
static LINES: [(&str, &str, &str, &str); 6] = [
    ("+b A!*@*", "+bb a!*@* A!*@*", " +b a!*@*", " + a!*@*"),
    ("+k m", "+o-k bo m", " +o-k bo m", " +"),
    ("+m", "-m+o bo", " -m+o bo", " +"),
    ("", "-i+v bo", " -i+v bo", " +"),
    ("+s", "+p-s", " -s", " +"),
    ("+l 65535", "+l 00042", "", " + 65535"),
];

/// The modes that some lines make.
fn made(alloc: Global, lines: &str) -> Modes {
    let mut modes = Modes::none(alloc);
    for line in lines.split(';') {
        let _ = modes.change(changes(alloc, line).as_slice());
    }
    modes
}

/// Shows changes: letters with a sign wherever it differs, and behind them the parameters.
fn show_changes(changes: &[ModeChange], shown: &mut ShownText) {
    let mut sign = None;
    for change in changes {
        if sign.is_none() {
            append(shown, b" ");
        }
        if sign != Some(change.plus) {
            append(shown, if change.plus { b"+" } else { b"-" });
        }
        append(shown, &[change.letter.byte()]);
        sign = Some(change.plus);
    }
    for change in changes {
        if let Some(word) = change.word_bytes() {
            append_word(shown, b"", word);
        }
    }
}

/// Makes what is raised of some lines, and shows it.
fn raise(alloc: Global, modes: &mut Modes, lines: &str, shown: &mut ShownText) {
    for line in lines.split(';') {
        if let Ok(raised) = modes.raising(changes(alloc, line).as_slice()) {
            show_changes(&raised, shown);
            let _ = modes.change(&raised);
        }
    }
}

/// Whether this is what modes show of what is raised in them, and what they are then.
fn raises_in(alloc: Global, modes: &mut Modes, lines: &str, seen: &str, then: &str) -> bool {
    let mut shown = ShownText::new();
    raise(alloc, modes, lines, &mut shown);
    let is_seen = shown.as_slice() == seen.as_bytes();
    shown.clear();
    show_modes(modes, &mut shown);
    is_seen && shown.as_slice() == then.as_bytes()
}

fn raises(alloc: Global, modes: &str, lines: &str, seen: &str, then: &str) -> bool {
    let mut modes = made(alloc, modes);
    raises_in(alloc, &mut modes, lines, seen, then)
}

fn sides_join(alloc: Global) -> bool {
    let mut all = true;
    for row in &SIDES {
        all &= raises(alloc, row.one, row.other, row.seen_by_one, row.both);
        all &= raises(alloc, row.other, row.one, row.seen_by_other, row.both);
    }
    all
}

fn lines_raise(alloc: Global) -> bool {
    let mut all = true;
    for (modes, line, seen, then) in &LINES {
        all &= raises(alloc, modes, line, seen, then);
    }
    all
}

#[test]
fn two_sides_come_to_the_same_modes(rt: HostRuntime) {
    assert!(rt; sides_join(rt.alloc()));
}

#[test]
fn changes_are_judged_one_behind_another(rt: HostRuntime) {
    assert!(rt; lines_raise(rt.alloc()));
}
