//! The bytes of a conversation end at each place in turn, within a line or behind it: what is
//! written is what the lines that have come whole call for, the end of a connection is told behind
//! that, and the other goes on alone.
use crate::conversation::{AL, ConnectionLoss, Disturbance, HAPPENINGS, is_held, rows_at};
use crate::script::row_of;
use std::alloc::Global;

/// How many bytes of a row stand before its line.
const VERB_AND_CONNECTION: usize = 8;

/// What comes behind the part of a line that has come: the end of its connection; its CR before
/// that; or its CR LF.
struct LineEnds {
    cut: &'static str,
    behind_cr: &'static str,
    behind_lf: &'static str,
}

static ENDS_OF_AL: LineEnds = LineEnds {
    cut: "\nend 1\n",
    behind_cr: "^\nend 1\n",
    behind_lf: ";\nend 1\n",
};

static ENDS_OF_BO: LineEnds = LineEnds {
    cut: "\nend 2\n",
    behind_cr: "^\nend 2\n",
    behind_lf: ";\nend 2\n",
};

fn ends_of(conn: u64) -> &'static LineEnds {
    if conn == AL { &ENDS_OF_AL } else { &ENDS_OF_BO }
}

/// Whether the conversation may end so behind a part of the line at a place. So many things have
/// come whole then.
fn may_end(alloc: Global, place: usize, row: &str, end: &str, whole: usize) -> bool {
    is_held(
        alloc,
        Disturbance {
            place,
            row,
            end,
            loss: Some(ConnectionLoss {
                conn: row_of(row).number,
                written: whole,
                told: whole,
            }),
            room: "65536",
        },
    )
}

/// Whether it may end within the line at a place.
fn may_be_cut(alloc: Global, place: usize, row: &str, ends: &LineEnds) -> bool {
    let mut all = true;
    for bytes in VERB_AND_CONNECTION..row.len() + 1 {
        all &= match row.get(..bytes) {
            Some(part) => may_end(alloc, place, part, ends.cut, place),
            None => false,
        };
    }
    all
}

/// Whether it may end within the line at a place, behind its CR, which ends a line, and behind its
/// LF.
fn may_end_within(alloc: Global, place: usize, row: &str, ends: &LineEnds) -> bool {
    may_be_cut(alloc, place, row, ends)
        && may_end(alloc, place, row, ends.behind_cr, place.saturating_add(1))
        && may_end(alloc, place, row, ends.behind_lf, place.saturating_add(1))
}

/// Whether it may, where the first of these rows is a line's.
fn may_end_by(alloc: Global, place: usize, rows: &str) -> bool {
    match rows.split_once(';') {
        Some((row, _)) if row.starts_with("bytes ") => {
            may_end_within(alloc, place, row, ends_of(row_of(row).number))
        }
        _ => true,
    }
}

fn may_end_anywhere(alloc: Global) -> bool {
    let mut all = true;
    for place in 0..HAPPENINGS {
        all &= may_end_by(alloc, place, rows_at(place));
    }
    all
}

#[test]
fn the_bytes_may_end_at_each_place(rt: HostRuntime) {
    assert!(rt; may_end_anywhere(rt.alloc()));
}
