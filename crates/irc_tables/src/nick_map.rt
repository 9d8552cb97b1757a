//! A table by nickname in which no row moves all others.
ghost use Rattle.std.specs.Prelude.{◌≡◌, Some, None, OnOk, OnErr};
ghost use Rattle.std.specs.FinMap.{empty};
ghost use Rattle.std.specs.Option.{option_copied};
ghost use Rattle.irc_names.specs.Fold.{key};
ghost use Rattle.irc_names.specs.Tables.{row, alter};

use crate::name_map::NameMap;
use irc_names::Nick;
use std::alloc::{AllocError, Global};
use std::marker::Model;

/// Values, each under a nickname, as a [`NameMap`] has them.
#[derive(Drop)]
pub struct NickMap<V> {
    rows: NameMap<V>,
}

/// In a clause it is the table of its values, each under the fold of its nickname.
impl<V> Model for NickMap<V> {
    ghost use Rattle.std.specs.FinMap.{code};
    ghost use Rattle.irc_names.specs.Tables.{Table};
    ghost use Rattle.irc_tables.specs.FoldedRows.{coded_name};

    ghost Value = { Table V };

    ghost coded = { code coded_name V.code };

    ghost view = { λ map. map.rows };
}

impl<V: Drop> NickMap<V> {
    /// A map without rows.
    pub fn new(alloc: Global) -> Self
        ensures { result ≡ empty }
    {
        NickMap {
            rows: NameMap::new(alloc),
        }
    }

    /// What stands under a nickname, if anything does.
    pub fn get(&self, nick: &Nick) -> Option<&V>
        ensures { option_copied result ≡ row self.now (key nick.now) }
    {
        self.rows.get(nick.as_bytes())
    }

    /// Puts a value under a nickname, in place of what stands there.
    ///
    /// # Errors
    /// Where memory runs out; nothing has changed then.
    pub fn insert(&mut self, nick: &Nick, value: V) -> Result<(), AllocError>
        ensures ok { OnOk result (self.new ≡ alter (key nick.now) (λ _. Some value) self.old) }
        ensures refused { OnErr result (self.new ≡ self.old) }
    {
        self.rows.insert(nick.as_bytes(), value)
    }

    /// Takes out what stands under a nickname, if anything does. It takes no memory.
    pub fn remove(&mut self, nick: &Nick) -> Option<V>
        ensures value { result ≡ row self.old (key nick.now) }
        ensures after { self.new ≡ alter (key nick.now) (λ _. None) self.old }
    {
        self.rows.remove(nick.as_bytes())
    }
}
