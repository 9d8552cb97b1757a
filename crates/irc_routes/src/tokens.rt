//! The numbers that neighbours have for servers, in order of link and number.
ghost use Rattle.std.specs.Prelude.{◌≡◌, ◌<◌, None, [], is_some, is_ok, OnOk, vec_len};
ghost use Rattle.std.specs.Prelude.{vec_capacity};
ghost use Rattle.std.specs.Option.{option_copied};
ghost use Rattle.irc_names.specs.Tables.{fold_cmp};
ghost use Rattle.irc_tables.specs.FoldedRows.{IsInFoldedOrder, IsPlaceOf};
ghost use Rattle.irc_routes.specs.Loops.Tokens.{token_key, token_entry, row_at, server_at, is_on};
ghost use Rattle.irc_routes.specs.Loops.Tokens.{HasToken, IsWithoutToken, AreElsewhere};

use irc_names::ServerName;
use std::alloc::{AllocError, Global};
use std::cmp::Ordering;

/// What the neighbour on a link has a number for.
#[derive(Drop)]
pub(crate) struct TokenRow {
    /// The link.
    pub link: u64,
    /// The number.
    pub token: u32,
    /// The server that it stands for.
    pub name: ServerName,
}

impl TokenRow {
    /// How it stands to a number on a link.
    fn order_to(&self, link: u64, token: u32) -> Ordering
        ensures { result ≡ fold_cmp (token_key self.now.link self.now.token)
            (token_key link token) }
    {
        self.link.cmp(&link).then(self.token.cmp(&token))
    }
}

/// Which server each number stands for on each link.
#[derive(Drop)]
pub(crate) struct Tokens {
    /// A row for each number, in order.
    pub rows: Vec<TokenRow, Global>,
}

impl Tokens {
    /// No numbers.
    pub(crate) fn new(alloc: Global) -> Self
        ensures { result.rows.items ≡ [] }
    {
        Tokens {
            rows: Vec::new(alloc),
        }
    }

    /// Where a number on a link stands, or where it would stand.
    fn place_of(&self, link: u64, token: u32) -> Result<usize, usize>
        requires { IsInFoldedOrder token_entry self.now.rows.items }
        ensures place { IsPlaceOf token_entry self.now.rows.items (token_key link token) result }
        ensures known { is_ok result ≡ is_some (row_at self.now.rows.items link token) }
    {
        self.rows.binary_search_by(|row| row.order_to(link, token))
    }

    /// The server that a number on a link stands for, if there is such a number.
    pub(crate) fn find(&self, link: u64, token: u32) -> Option<&ServerName>
        requires { IsInFoldedOrder token_entry self.now.rows.items }
        ensures { option_copied result ≡ server_at self.now.rows.items link token }
    {
        match self.place_of(link, token) {
            Ok(place) => Some(&self.rows[place].name),
            Err(_) => None,
        }
    }

    /// Makes room for one number more.
    pub(crate) fn reserve(&mut self) -> Result<(), AllocError>
        ensures same { self.new.rows.items ≡ self.old.rows.items }
        ensures room { OnOk result (vec_len self.new.rows < vec_capacity self.new.rows) }
    {
        self.rows.reserve(1)
    }

    /// Adds a number that is not there, where there is room for it.
    pub(crate) fn add(&mut self, row: TokenRow)
        requires ordered { IsInFoldedOrder token_entry self.old.rows.items }
        requires free { row_at self.old.rows.items row.link row.token ≡ None }
        requires room { vec_len self.old.rows < vec_capacity self.old.rows }
        ensures after { HasToken row self.old.rows.items self.new.rows.items }
        ensures ordered { IsInFoldedOrder token_entry self.new.rows.items }
    {
        let Err(place) = self.place_of(row.link, row.token) else {
            unreachable!();
        };
        // There is room, so this cannot fail.
        let _ = self.rows.insert(place, row);
    }

    /// Forgets a number on a link, if it is there.
    pub(crate) fn forget(&mut self, link: u64, token: u32)
        requires { IsInFoldedOrder token_entry self.old.rows.items }
        ensures after { IsWithoutToken link token self.old.rows.items self.new.rows.items }
        ensures ordered { IsInFoldedOrder token_entry self.new.rows.items }
    {
        match self.place_of(link, token) {
            Ok(place) => {
                self.rows.remove(place);
            }
            Err(_) => {}
        }
    }

    /// Forgets all numbers on a link.
    pub(crate) fn forget_link(&mut self, link: u64)
        ensures { AreElsewhere link self.old.rows.items self.new.rows.items }
    {
        self.rows.retain(|row| row.link != link);
    }
}
