//! Lists in folded order of names, put together in that order.
ghost use Rattle.std.specs.Prelude.{◌≡◌, ◌≤◌, ◌++◌, IfOk, OnOk, drop, length, map};
ghost use Rattle.irc_names.specs.Fold.{key};
ghost use Rattle.irc_tables.specs.RowViews.{row_entry};
ghost use Rattle.irc_stage.specs.Loops.Merging.{behind, below, entries_now, merged};

use crate::numbers::Conn;
use irc_names::compare;
use irc_tables::Row;
use std::alloc::{AllocError, Global};
use std::cmp::Ordering;

/// Appends those of some rows, from a place on, that stand below another row, and tells the place
/// behind them; who has the same name as that row is passed over.
fn push_below<'a>(
    all: &mut Vec<&'a Row<Conn>, Global>,
    found: &[&'a Row<Conn>],
    start: usize,
    row: &Row<Conn>,
) -> Result<usize, AllocError>
    requires { start ≤ length found.now }
    ensures below { OnOk result (entries_now all.new.items ≡ entries_now all.old.items
        ++ below (key row.now.name.items) (entries_now (drop start found.now))) }
    ensures behind { IfOk result (λ end. entries_now (drop end found.now)
        ≡ behind (key row.now.name.items) (entries_now (drop start found.now))) }
    ensures within { IfOk result (λ end. end ≤ length found.now) }
{
    let mut place = start;
    while place < found.len() {
        let other = found[place];
        match compare(other.name.as_slice(), row.name.as_slice()) {
            Ordering::Less => {}
            Ordering::Equal => return Ok(place + 1),
            Ordering::Greater => return Ok(place),
        }
        all.push(other)?;
        place += 1;
    }
    Ok(place)
}

/// Two lists in one; of two rows with one name that of the first list is in it.
///
/// # Errors
/// Where memory runs out.
pub(crate) fn merged<'a>(
    alloc: Global,
    rows: &'a [Row<Conn>],
    found: &[&'a Row<Conn>],
) -> Result<Vec<&'a Row<Conn>, Global>, AllocError>
    ensures { IfOk result (λ all. entries_now all.items
        ≡ merged (map row_entry rows.now) (entries_now found.now)) }
{
    let mut all = Vec::new(alloc);
    let mut place = 0;
    for row in rows {
        place = push_below(&mut all, found, place, row)?;
        all.push(row)?;
    }
    all.extend_from_slice(&found[place..])?;
    Ok(all)
}
