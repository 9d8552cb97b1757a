//! Names of channels by nickname.
ghost use Rattle.std.specs.Prelude.{◌≡◌, ◌≤◌, Some, None, OnOk, OnErr, is_some, length, map, true};
ghost use Rattle.std.specs.FinMap.{empty};
ghost use Rattle.irc_modes.specs.Modes.{is_nil};
ghost use Rattle.irc_names.specs.Fold.{key};
ghost use Rattle.irc_names.specs.Tables.{row, alter, moved};
ghost use Rattle.irc_tables.specs.RowViews.{row_entry};
ghost use Rattle.irc_tables.specs.TableChanges.{with_value};
ghost use Rattle.irc_room.specs.Indexes.{names_in, HasWay, IsAlike, IsOpened, IsUsed, Adds};
ghost use Rattle.irc_room.specs.Indexes.{Drops};

use irc_names::{ChannelName, MAX_CHANNEL, Nick};
use irc_tables::{NameMap, NameTable, Row, RowAttempt};
use std::alloc::{AllocError, Global};

/// Names of channels by nickname.
#[derive(Drop)]
pub(crate) struct NameIndex {
    /// The names by each nickname.
    pub rows: NameMap<NameTable<()>>,
    alloc: Global,
}

impl NameIndex {
    /// No names.
    pub fn new(alloc: Global) -> Self
        ensures { result.rows ≡ empty }
    {
        NameIndex {
            rows: NameMap::new(alloc),
            alloc,
        }
    }

    /// The names by a nickname, in folded order.
    pub fn names(&self, nick: &[u8]) -> &[Row<()>]
        ensures { map row_entry result.now ≡ names_in (row self.now.rows (key nick.now)) }
    {
        match self.rows.get(nick) {
            Some(names) => names.as_slice(),
            None => &[],
        }
    }

    /// Puts a name by a nickname; where it stands there already nothing changes.
    ///
    /// # Errors
    /// Where memory runs out; the names are the same then.
    pub fn add(&mut self, nick: &Nick, name: &ChannelName) -> Result<(), AllocError>
        ensures ok { OnOk result (Adds self.old.rows self.new.rows (key nick.now) (key name.now)) }
        ensures refused { OnErr result (IsAlike self.old.rows self.new.rows) }
    {
        open(&mut self.rows, self.alloc, nick.as_bytes())?;
        self.rows.try_at(nick.as_bytes(), &Adding { name })
    }

    /// Takes a name by a nickname out; where it does not stand there nothing changes. A row in
    /// which nothing is left goes, so that ever new names leave nothing behind. It takes no memory.
    pub fn remove(&mut self, nick: &[u8], name: &[u8])
        ensures dropped { Drops self.old.rows self.new.rows (key nick.now) (key name.now) }
        ensures used { IsUsed self.new.rows (key nick.now) }
    {
        take_name(&mut self.rows, nick, name);
        close(&mut self.rows, nick);
    }

    /// Takes all names by a nickname out, and gives them. It takes no memory.
    pub fn take(&mut self, nick: &[u8]) -> Option<NameTable<()>>
        ensures value { result ≡ row self.old.rows (key nick.now) }
        ensures after { self.new.rows ≡ alter (key nick.now) (λ _. None) self.old.rows }
    {
        self.rows.remove(nick)
    }

    /// Gives a nickname a row where another has one, so that [`NameIndex::rename`] takes no memory.
    ///
    /// # Errors
    /// Where memory runs out; the names are the same then.
    pub fn make_way(&mut self, nick: &Nick, new: &Nick) -> Result<(), AllocError>
        ensures way { OnOk result (HasWay self.new.rows (key nick.now) (key new.now)) }
        ensures alike { IsAlike self.old.rows self.new.rows }
    {
        if !has_row(&self.rows, nick.as_bytes()) {
            return Ok(());
        }
        if has_row(&self.rows, new.as_bytes()) {
            return Ok(());
        }
        self.rows.insert(new.as_bytes(), NameTable::new(self.alloc))
    }

    /// Puts the names by a nickname by another, for which there is a way. It takes no memory.
    pub fn rename(&mut self, nick: &Nick, new: &Nick)
        requires { HasWay self.old.rows (key nick.now) (key new.now) }
        ensures { self.new.rows ≡ moved (key nick.now) (key new.now)
            (λ names. names) self.old.rows }
    {
        if nick == new {
            return;
        }
        let Some(names) = self.rows.remove(nick.as_bytes()) else {
            return;
        };
        put_in(&mut self.rows, new.as_bytes(), names);
    }
}

/// Puts names by a nickname that has a row. It takes no memory.
fn put_in(rows: &mut NameMap<NameTable<()>>, nick: &[u8], names: NameTable<()>)
    requires fits { length nick.now ≤ MAX_CHANNEL }
    requires there { is_some (row rows.old (key nick.now)) ≡ true }
    ensures { rows.new ≡ with_value nick.now names rows.old }
{
    if rows.insert(nick, names).is_err() {
        unreachable!();
    }
}

/// Gives a nickname a row, where it has none.
fn open(rows: &mut NameMap<NameTable<()>>, alloc: Global, nick: &[u8]) -> Result<(), AllocError>
    requires { length nick.now ≤ MAX_CHANNEL }
    ensures ok { OnOk result (IsOpened rows.old rows.new (key nick.now)) }
    ensures refused { OnErr result (rows.new ≡ rows.old) }
{
    if has_row(rows, nick) {
        return Ok(());
    }
    let names = NameTable::with_room(alloc, 1)?;
    rows.insert(nick, names)
}

/// Whether a nickname has a row.
fn has_row(rows: &NameMap<NameTable<()>>, nick: &[u8]) -> bool
    ensures { result ≡ is_some (row rows.now (key nick.now)) }
{
    rows.get(nick).is_some()
}

/// Takes a name by a nickname out. It takes no memory.
fn take_name(rows: &mut NameMap<NameTable<()>>, nick: &[u8], name: &[u8])
    ensures { Drops rows.old rows.new (key nick.now) (key name.now) }
{
    if rows.try_at(nick, &Removing { name }).is_err() {
        unreachable!();
    }
}

/// Takes out the row of a nickname in which nothing stands. It takes no memory.
fn close(rows: &mut NameMap<NameTable<()>>, nick: &[u8])
    ensures alike { IsAlike rows.old rows.new }
    ensures used { IsUsed rows.new (key nick.now) }
{
    if has_none(rows, nick) {
        rows.remove(nick);
    }
}

/// Whether nothing stands by a nickname.
fn has_none(rows: &NameMap<NameTable<()>>, nick: &[u8]) -> bool
    ensures { result ≡ is_nil (names_in (row rows.now (key nick.now))) }
{
    match rows.get(nick) {
        Some(names) => names.as_slice().is_empty(),
        None => true,
    }
}

/// A name is put in.
#[derive(Drop)]
struct Adding<'a> {
    name: &'a ChannelName,
}

impl<'a> RowAttempt<NameTable<()>> for Adding<'a> {
    ghost tried = { λ adding names. alter (key adding.name.now) (λ _. Some tt) names };

    ghost surely = { λ adding names. is_some (row names (key adding.name.now)) };

    fn attempt(&self, names: &mut NameTable<()>) -> Result<(), AllocError> {
        names.insert(self.name.as_bytes(), ())
    }
}

/// A name is taken out.
#[derive(Drop)]
struct Removing<'a> {
    name: &'a [u8],
}

impl<'a> RowAttempt<NameTable<()>> for Removing<'a> {
    ghost tried = { λ removing names. alter (key removing.name.now) (λ _. None) names };

    ghost surely = { λ removing names. true };

    fn attempt(&self, names: &mut NameTable<()>) -> Result<(), AllocError> {
        names.remove(self.name);
        Ok(())
    }
}
