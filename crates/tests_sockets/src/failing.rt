//! One read or one write fails, at each place of a conversation in turn. Who fails is lost there,
//! the other is told once, and goes on alone.
use crate::conversation::{
    AL, BO, ConnectionLoss, Disturbance, HAPPENINGS, OPENINGS, is_held, rows_at,
};
use crate::script::row_of;
use std::alloc::Global;
use std::cmp::max;

/// The place of a connection's beginning.
fn beginning(conn: u64) -> usize {
    if conn == AL { 0 } else { 2 }
}

/// Who is lost by a read that fails at a place: nobody where the connection is not there yet.
fn lost_by_read(conn: u64, place: usize) -> Option<ConnectionLoss> {
    if place <= beginning(conn) {
        return None;
    }
    Some(ConnectionLoss {
        conn,
        written: place,
        told: place,
    })
}

/// Whether the conversation has a failure at each place by which that one is lost.
fn reads_may_fail(alloc: Global, conn: u64, row: &str) -> bool {
    let mut all = true;
    for place in 0..HAPPENINGS + 1 {
        let disturbance = Disturbance {
            place,
            row,
            end: "\n",
            loss: lost_by_read(conn, place),
            room: "65536",
        };
        all &= is_held(alloc, disturbance);
    }
    all
}

#[test]
fn a_read_may_fail_at_each_place(rt: HostRuntime) {
    assert!(rt;
        reads_may_fail(rt.alloc(), AL, "read-fails 1")
            && reads_may_fail(rt.alloc(), BO, "read-fails 2")
    );
}

/// Whether one of these rows says what is written to a connection.
fn is_written(rows: &str, conn: u64) -> bool {
    let mut is_so = false;
    for line in rows.lines() {
        let row = row_of(line);
        is_so |= row.number == conn && matches!(row.verb, "welcome" | "hears" | "together");
    }
    is_so
}

/// The first thing from a place on for which something is written to a connection.
fn next_written(conn: u64, from: usize) -> Option<usize> {
    for at in from..HAPPENINGS {
        if is_written(rows_at(at), conn) {
            return Some(at);
        }
    }
    None
}

/// Who is lost by the next write that fails from a place on: nobody where nothing is written any
/// more.
fn lost_by_write(conn: u64, place: usize) -> Option<ConnectionLoss> {
    if place <= beginning(conn) {
        return None;
    }
    let written = next_written(conn, place)?;
    Some(ConnectionLoss {
        conn,
        written,
        told: written.saturating_add(1),
    })
}

fn writes_may_fail(alloc: Global, conn: u64, row: &str) -> bool {
    let mut all = true;
    for place in 0..HAPPENINGS + 1 {
        let disturbance = Disturbance {
            place,
            row,
            end: "\n",
            loss: lost_by_write(conn, place),
            room: "65536",
        };
        all &= is_held(alloc, disturbance);
    }
    all
}

#[test]
fn a_write_may_fail_at_each_place(rt: HostRuntime) {
    assert!(rt;
        writes_may_fail(rt.alloc(), AL, "write-fails 1")
            && writes_may_fail(rt.alloc(), BO, "write-fails 2")
    );
}

/// The first ten bytes that are written to al.
const FIRST_BYTES: &str = "\nhears 1 :a.net 001\n";

/// What is written to al, whose socket takes no more than ten bytes, before a write that fails at
/// this place or, before there is something to write, at al's second line.
fn written_before(place: usize) -> &'static str {
    if place <= OPENINGS + 1 {
        "\n"
    } else {
        FIRST_BYTES
    }
}

/// A write fails at a place while bytes wait for al.
fn waiting_write(place: usize) -> Disturbance<'static> {
    Disturbance {
        place,
        row: "write-fails 1",
        end: written_before(place),
        loss: Some(ConnectionLoss {
            conn: AL,
            written: 0,
            told: max(place, OPENINGS + 2),
        }),
        room: "10",
    }
}

/// Whether a write may fail at each place while bytes wait for al.
fn waiting_writes_may_fail(alloc: Global) -> bool {
    let mut all = true;
    for place in 1..HAPPENINGS + 1 {
        all &= is_held(alloc, waiting_write(place));
    }
    all
}

#[test]
fn a_write_may_fail_while_bytes_wait(rt: HostRuntime) {
    assert!(rt; waiting_writes_may_fail(rt.alloc()));
}
