//! A table by name in which no row moves all others.
ghost use Rattle.std.specs.Prelude.{◌≡◌, ◌≤◌, None, IfNone, IfSome, OnOk, OnErr, IsOk, IsTrue};
ghost use Rattle.std.specs.Prelude.{is_some, length};
ghost use Rattle.std.specs.FinMap.{empty, keys, values};
ghost use Rattle.std.specs.Option.{option_copied};
ghost use Rattle.irc_names.specs.Fold.{key};
ghost use Rattle.irc_names.specs.Tables.{row};
ghost use Rattle.irc_tables.specs.TableChanges.{changed_at, passes_at, tried_at, with_value};
ghost use Rattle.irc_tables.specs.TableChanges.{without};

use crate::folded::Folded;
use crate::table::{RowAttempt, RowChange};
use irc_names::MAX_CHANNEL;
use std::alloc::{AllocError, Global};
use std::collections::BTreeMap;
use std::collections::btree_map::Values;
use std::marker::Model;

/// Values, each under a name. A row that comes or goes moves a few others, however many there are;
/// so it serves where all users or all channels of a server stand.
#[derive(Drop)]
pub struct NameMap<V> {
    rows: BTreeMap<Folded, V, Global>,
}

/// In a clause it is the table of its values, each under the fold of its name.
impl<V> Model for NameMap<V> {
    ghost use Rattle.std.specs.FinMap.{code, from_entries};
    ghost use Rattle.irc_names.specs.Tables.{Table};
    ghost use Rattle.irc_tables.specs.FoldedRows.{coded_name};
    ghost use Rattle.irc_tables.specs.ShortNames.{HasShortNames};

    ghost Value = { Table V };

    ghost coded = { code coded_name V.code };

    ghost view = { λ map. from_entries map.rows.entries };

    ghost invariant = { λ map. HasShortNames (from_entries map.rows.entries) };
}

impl<V: Drop> NameMap<V> {
    /// A map without rows.
    pub fn new(alloc: Global) -> Self
        ensures { result ≡ empty }
    {
        NameMap {
            rows: BTreeMap::new(alloc),
        }
    }

    /// How many rows there are.
    pub fn len(&self) -> usize
        ensures { result ≡ length (keys self.now) }
    {
        self.rows.len()
    }

    /// All values, in folded order of their names.
    pub fn values(&self) -> Values<'_, Folded, V>
        ensures { result ≡ values self.now }
    {
        self.rows.values()
    }

    /// What stands under a name, if anything does.
    pub fn get(&self, name: &[u8]) -> Option<&V>
        ensures { option_copied result ≡ row self.now (key name.now) }
    {
        match self.folded(name) {
            Some(folded) => self.rows.get(&folded),
            None => None,
        }
    }

    /// Puts a value under a name, in place of what stands there. Where something does, it takes no
    /// memory.
    ///
    /// # Errors
    /// Where memory runs out; nothing has changed then.
    pub fn insert(&mut self, name: &[u8], value: V) -> Result<(), AllocError>
        requires { length name.now ≤ MAX_CHANNEL }
        ensures ok { OnOk result (self.new ≡ with_value name.now value self.old) }
        ensures refused { OnErr result (self.new ≡ self.old) }
        ensures there { IsTrue (is_some (row self.old (key name.now))) → IsOk result }
    {
        let Ok(_) = self.rows.insert(Folded::of(name), value) else {
            return Err(AllocError);
        };
        Ok(())
    }

    /// Takes out what stands under a name, if anything does. It takes no memory.
    pub fn remove(&mut self, name: &[u8]) -> Option<V>
        ensures value { result ≡ row self.old (key name.now) }
        ensures after { self.new ≡ without name.now self.old }
    {
        match self.folded(name) {
            Some(folded) => self.rows.remove(&folded),
            None => None,
        }
    }

    /// Changes what stands under a name, or takes it out; where nothing does, nothing changes. It
    /// takes no memory.
    pub fn change_at<C: RowChange<V>>(&mut self, name: &[u8], change: &C)
        ensures { self.new ≡ changed_at name.now (C.changed change.now) self.old }
    {
        let Some(folded) = self.folded(name) else {
            return;
        };
        let Some(value) = self.rows.get_mut(&folded) else {
            return;
        };
        let stays = change.change(value);
        if !stays {
            self.rows.remove(&folded);
        }
    }

    /// Tries a change of what stands under a name; where nothing does, nothing changes, and no
    /// memory is wanted. A change that takes none is made.
    ///
    /// # Errors
    /// Where memory runs out; nothing has changed then.
    pub fn try_at<C: RowAttempt<V>>(&mut self, name: &[u8], change: &C) -> Result<(), AllocError>
        ensures ok { OnOk result (self.new ≡ tried_at name.now (C.tried change.now) self.old) }
        ensures refused { OnErr result (self.new ≡ self.old) }
        ensures absent { row self.old (key name.now) ≡ None → IsOk result }
        ensures sure { IsTrue (passes_at name.now (C.surely change.now) self.old) → IsOk result }
    {
        let Some(folded) = self.folded(name) else {
            return Ok(());
        };
        let Some(value) = self.rows.get_mut(&folded) else {
            return Ok(());
        };
        change.attempt(value)
    }

    /// A name as it is told from others; none where it is longer than that of any channel, so that
    /// nothing stands under it.
    fn folded(&self, name: &[u8]) -> Option<Folded>
        ensures short { IfSome result (λ folded. folded ≡ key name.now) }
        ensures long { IfNone result (row self.now (key name.now) ≡ None) }
    {
        let _rows = &self.rows;
        if name.len() > MAX_CHANNEL {
            return None;
        }
        Some(Folded::of(name))
    }
}
