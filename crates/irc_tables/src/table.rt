//! A table by name.
ghost use Rattle.std.specs.Prelude.{◌≡◌, ℕ, Bool, Ok, Err, ◌<◌, ◌≤◌, Option, Some, None, Result};
ghost use Rattle.std.specs.Prelude.{is_some, is_ok, IsTrue, OnOk, OnErr, IfOk, IsOk, map, length};
ghost use Rattle.std.specs.Prelude.{if◌then◌else◌, IfNone, OnSome, vec_len, vec_capacity};
ghost use Rattle.std.specs.Option.{option_copied, option_map};
ghost use Rattle.std.specs.FinMap.{empty, entries, keys};
ghost use Rattle.irc_names.specs.Fold.{key};
ghost use Rattle.irc_names.specs.Tables.{row, alter, each, moved};
ghost use Rattle.irc_tables.specs.FoldedRows.{table_of, IsInFoldedOrder, IsPlaceOf};
ghost use Rattle.irc_tables.specs.RowViews.{row_entry, as_table};
ghost use Rattle.irc_tables.specs.TableChanges.{changed_at, entry_at, passes_at, tried_at};
ghost use Rattle.irc_tables.specs.TableChanges.{with_value, without};

use arrayvec::ArrayVec;
use irc_names::{MAX_CHANNEL, compare, copied};
use std::alloc::{AllocError, Global};
use std::marker::Model;

/// A row of a table.
#[derive(Drop)]
pub struct Row<V> {
    /// The name that it stands under. In a clause only its fold counts: it may have the spelling of
    /// any call that put the row there.
    pub name: ArrayVec<u8, MAX_CHANNEL>,
    /// What stands there.
    pub value: V,
}

/// Rows, no two of which have one name by the fold.
#[derive(Drop)]
pub struct NameTable<V> {
    rows: Vec<Row<V>, Global>,
}

/// In a clause it is the table of its rows, each under the fold of its name.
impl<V> Model for NameTable<V> {
    ghost use Rattle.irc_names.specs.Tables.{Table};
    ghost use Rattle.irc_tables.specs.FoldedRows.{coded_name, table_of, IsInFoldedOrder};
    ghost use Rattle.irc_tables.specs.RowViews.{row_entry};
    ghost use Rattle.std.specs.FinMap.{code};

    ghost Value = { Table V };

    ghost coded = { code coded_name V.code };

    ghost view = { λ t. table_of row_entry t.rows.items };

    ghost invariant = { λ t. IsInFoldedOrder row_entry t.rows.items };
}

/// A change that can be made of every row's value.
pub trait RowChange<V> {
    /// What becomes of a value; none where its row is taken out.
    ghost changed: { Self → V → Option V };

    /// Changes a value, and tells whether its row stays.
    fn change(&self, value: &mut V) -> bool
        ensures { changed self.now value.old ≡ (if result then Some value.new else None) };
}

/// A change of one row's value for which memory may run out.
pub trait RowAttempt<V> {
    /// What becomes of a value.
    ghost tried: { Self → V → V };

    /// Whether the change of a value surely takes no memory.
    ghost surely: { Self → V → Bool };

    /// Changes a value. Where there is no memory nothing has changed.
    fn attempt(&self, value: &mut V) -> Result<(), AllocError>
        ensures ok { OnOk result (value.new ≡ tried self.now value.old) }
        ensures refused { OnErr result (value.new ≡ value.old) }
        ensures sure { IsTrue (surely self.now value.old) → IsOk result };
}

impl<V: Drop> NameTable<V> {
    /// A table without rows.
    pub fn new(alloc: Global) -> Self
        ensures { result ≡ empty }
    {
        NameTable {
            rows: Vec::new(alloc),
        }
    }

    /// A table without rows, with room for just so many.
    ///
    /// # Errors
    /// Where memory runs out.
    pub fn with_room(alloc: Global, room: usize) -> Result<Self, AllocError>
        ensures { IfOk result (λ table. table ≡ empty) }
    {
        let rows = Vec::with_capacity(alloc, room)?;
        Ok(NameTable { rows })
    }

    /// How many rows there are.
    pub fn len(&self) -> usize
        ensures { result ≡ length (keys self.now) }
    {
        self.rows.as_slice().len()
    }

    /// What stands under a name, if anything does.
    pub fn get(&self, name: &[u8]) -> Option<&V>
        ensures { option_copied result ≡ row self.now (key name.now) }
    {
        match place_of(&self.rows, name) {
            Ok(place) => Some(&self.rows[place].value),
            Err(_) => None,
        }
    }

    /// The row of a name, if there is one.
    pub fn get_row(&self, name: &[u8]) -> Option<&Row<V>>
        ensures { option_map row_entry (option_copied result) ≡ entry_at name.now self.now }
    {
        match place_of(&self.rows, name) {
            Ok(place) => Some(&self.rows[place]),
            Err(_) => None,
        }
    }

    /// All rows, in folded order of their names.
    pub fn as_slice(&self) -> &[Row<V>]
        ensures { map row_entry result.now ≡ entries self.now }
    {
        self.rows.as_slice()
    }

    /// Puts a value under a name, in place of what stands there. Where something does, it takes no
    /// memory.
    ///
    /// # Errors
    /// Where memory runs out; nothing has changed then.
    pub fn insert(&mut self, name: &[u8], value: V) -> Result<(), AllocError>
        requires { length name.now ≤ MAX_CHANNEL }
        ensures ok { OnOk result (self.new ≡ alter (key name.now) (λ _. Some value) self.old) }
        ensures refused { OnErr result (self.new ≡ self.old) }
        ensures there { IsTrue (is_some (row self.old (key name.now))) → IsOk result }
    {
        match place_of(&self.rows, name) {
            Ok(place) => {
                self.rows[place].value = value;
                Ok(())
            }
            Err(place) => insert_at(&mut self.rows, place, name, value),
        }
    }

    /// Takes out what stands under a name, if anything does.
    pub fn remove(&mut self, name: &[u8]) -> Option<V>
        ensures value { result ≡ row self.old (key name.now) }
        ensures after { self.new ≡ alter (key name.now) (λ _. None) self.old }
    {
        match take_out(&mut self.rows, name) {
            Some(row) => Some(row.value),
            None => None,
        }
    }

    /// Puts what stands under a name under another, in place of what stands there. It takes no
    /// memory.
    pub fn rename(&mut self, name: &[u8], new: &[u8])
        requires { length new.now ≤ MAX_CHANNEL }
        ensures { self.new ≡ moved (key name.now) (key new.now) (λ value. value) self.old }
    {
        match take_out(&mut self.rows, name) {
            Some(row) => put_in(&mut self.rows, new, row.value),
            None => {}
        }
    }

    /// Changes what stands under a name, or takes it out; where nothing does, nothing changes. It
    /// takes no memory.
    pub fn change_at<C: RowChange<V>>(&mut self, name: &[u8], change: &C)
        ensures { self.new ≡ changed_at name.now (C.changed change.now) self.old }
    {
        match place_of(&self.rows, name) {
            Ok(place) => change_row(&mut self.rows, place, name, change),
            Err(_) => {}
        }
    }

    /// Tries a change of what stands under a name; where nothing does, nothing changes, and no
    /// memory is wanted. A change that takes none is made.
    ///
    /// # Errors
    /// Where memory runs out; nothing has changed then.
    pub fn try_at<C: RowAttempt<V>>(&mut self, name: &[u8], change: &C) -> Result<(), AllocError>
        ensures ok { OnOk result (self.new ≡ tried_at name.now (C.tried change.now) self.old) }
        ensures refused { OnErr result (self.new ≡ self.old) }
        ensures absent { row self.old (key name.now) ≡ None → IsOk result }
        ensures sure { IsTrue (passes_at name.now (C.surely change.now) self.old) → IsOk result }
    {
        match place_of(&self.rows, name) {
            Ok(place) => try_row(&mut self.rows, place, name, change),
            Err(_) => Ok(()),
        }
    }

    /// Changes each row's value, or takes it out.
    pub fn change_each<C: RowChange<V>>(&mut self, change: &C)
        ensures { self.new ≡ each (C.changed change.now) self.old }
    {
        self.rows.retain_mut(|row| change.change(&mut row.value));
    }
}

/// Where the row of a name stands, or where it would stand.
fn place_of<V>(rows: &[Row<V>], name: &[u8]) -> Result<usize, usize>
    requires { IsInFoldedOrder row_entry rows.now }
    ensures place { IsPlaceOf row_entry rows.now (key name.now) result }
    ensures known { is_ok result ≡ is_some (row (table_of row_entry rows.now) (key name.now)) }
{
    rows.binary_search_by(|row| compare(&row.name, name))
}

/// Puts a row in where it belongs. Where there is no memory nothing has changed.
fn insert_at<V: Drop>(
    rows: &mut Vec<Row<V>, Global>,
    place: usize,
    name: &[u8],
    value: V,
) -> Result<(), AllocError>
    requires ordered { IsInFoldedOrder row_entry rows.old.items }
    requires fits { length name.now ≤ MAX_CHANNEL }
    requires gap { IsPlaceOf row_entry rows.old.items (key name.now) (Err place) }
    ensures ok { OnOk result (as_table rows.new ≡ with_value name.now value (as_table rows.old)) }
    ensures refused { OnErr result (rows.new.items ≡ rows.old.items) }
    ensures ordered { IsInFoldedOrder row_entry rows.new.items }
    ensures room { vec_len rows.old < vec_capacity rows.old → IsOk result }
{
    let row = Row {
        name: copied(name),
        value,
    };
    match rows.insert(place, row) {
        Ok(()) => Ok(()),
        Err(_) => Err(AllocError),
    }
}

/// Takes out the row of a name, if there is one; there is then room for another.
fn take_out<V: Drop>(rows: &mut Vec<Row<V>, Global>, name: &[u8]) -> Option<Row<V>>
    requires { IsInFoldedOrder row_entry rows.old.items }
    ensures value { option_map (λ r. r.value) result ≡ row (as_table rows.old) (key name.now) }
    ensures after { as_table rows.new ≡ without name.now (as_table rows.old) }
    ensures ordered { IsInFoldedOrder row_entry rows.new.items }
    ensures same { IfNone result (rows.new.items ≡ rows.old.items) }
    ensures room { OnSome result (vec_len rows.new < vec_capacity rows.new) }
{
    match place_of(rows, name) {
        Ok(place) => Some(rows.remove(place)),
        Err(_) => None,
    }
}

/// Puts a value under a name, in place of what stands there, where there is room for one row more.
fn put_in<V: Drop>(rows: &mut Vec<Row<V>, Global>, name: &[u8], value: V)
    requires ordered { IsInFoldedOrder row_entry rows.old.items }
    requires fits { length name.now ≤ MAX_CHANNEL }
    requires room { vec_len rows.old < vec_capacity rows.old }
    ensures after { as_table rows.new ≡ with_value name.now value (as_table rows.old) }
    ensures ordered { IsInFoldedOrder row_entry rows.new.items }
{
    match place_of(rows, name) {
        Ok(place) => rows[place].value = value,
        Err(place) => insert_at(rows, place, name, value).unwrap(),
    }
}

/// Changes the value of the row at a place, or takes the row out.
fn change_row<V: Drop, C: RowChange<V>>(
    rows: &mut Vec<Row<V>, Global>,
    place: usize,
    name: &[u8],
    change: &C,
)
    requires ordered { IsInFoldedOrder row_entry rows.old.items }
    requires at { IsPlaceOf row_entry rows.old.items (key name.now) (Ok place) }
    ensures after { as_table rows.new ≡ changed_at name.now (C.changed change.now)
        (as_table rows.old) }
    ensures ordered { IsInFoldedOrder row_entry rows.new.items }
{
    let stays = change.change(&mut rows[place].value);
    if !stays {
        rows.remove(place);
    }
}

/// Tries a change of the value of the row at a place.
fn try_row<V: Drop, C: RowAttempt<V>>(
    rows: &mut Vec<Row<V>, Global>,
    place: usize,
    name: &[u8],
    change: &C,
) -> Result<(), AllocError>
    requires ordered { IsInFoldedOrder row_entry rows.old.items }
    requires at { IsPlaceOf row_entry rows.old.items (key name.now) (Ok place) }
    ensures ok { OnOk result
        (as_table rows.new ≡ tried_at name.now (C.tried change.now) (as_table rows.old)) }
    ensures refused { OnErr result (as_table rows.new ≡ as_table rows.old) }
    ensures sure { IsTrue (passes_at name.now (C.surely change.now) (as_table rows.old))
        → IsOk result }
    ensures ordered { IsInFoldedOrder row_entry rows.new.items }
{
    change.attempt(&mut rows[place].value)
}
