//! Servers that have lost others at the same moment call them apart, by their own names.
use irc_turns::{name_spread, spread_on};

/// Spreads are below this.
const SPREADS: u64 = 797;

/// So many milliseconds are between two calls that are told apart.
const APART: u64 = 150;

/// Whether two spreads are so far apart within four calls that are made again.
fn part(one: u64, other: u64) -> bool {
    let mut first = one;
    let mut second = other;
    for _call in 0..5 {
        if first.abs_diff(second) >= APART {
            return true;
        }
        first = spread_on(first, 1);
        second = spread_on(second, 1);
    }
    false
}

/// Whether one spread, and each other, soon are.
fn parts_from_all(one: u64) -> bool {
    (0..SPREADS).all(|other| one == other || part(one, other))
}

fn all_part() -> bool {
    parts_from_all(0) && parts_from_all(1) && parts_from_all(398) && parts_from_all(796)
}

#[test]
fn any_two_spreads_are_soon_apart(rt: HostRuntime) {
    assert!(rt; all_part());
}

/// Whether servers of these names call apart from the first time on.
fn call_apart(one: &[u8], other: &[u8]) -> bool {
    name_spread(one).abs_diff(name_spread(other)) >= APART
}

fn all_call_apart() -> bool {
    call_apart(b"a.net", b"b.net")
        && call_apart(b"b.net", b"c.net")
        && call_apart(b"c.net", b"a.net")
}

#[test]
fn the_servers_of_the_examples_call_apart(rt: HostRuntime) {
    assert!(rt; all_call_apart());
}
