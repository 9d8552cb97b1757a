//! What a server that is added puts into the tables.
ghost use Rattle.std.specs.Prelude.{◌≡◌, None, OnOk, OnErr};
ghost use Rattle.irc_names.specs.Names.{IsServer};
ghost use Rattle.irc_names.specs.Tables.{row};
ghost use Rattle.irc_tables.specs.FoldedRows.{table_of, IsInFoldedOrder};
ghost use Rattle.irc_routes.specs.Loops.Rows.{entry, HasMore};
ghost use Rattle.irc_routes.specs.Loops.Tokens.{token_entry, row_at, HasServer};

use crate::rows;
use crate::server_row::ServerRow;
use crate::tokens::{TokenRow, Tokens};
use irc_names::ServerName;
use std::alloc::{AllocError, Global};

/// Puts in a server and the number that a neighbour has for it, neither of which is there. Room for
/// the number is made before the first change.
pub(crate) fn put_in(
    rows: &mut Vec<ServerRow, Global>,
    tokens: &mut Tokens,
    server: ServerRow,
) -> Result<(), AllocError>
    requires ordered { IsInFoldedOrder entry rows.old.items }
    requires free { row (table_of entry rows.old.items) server.name ≡ None }
    requires by_token { IsInFoldedOrder token_entry tokens.old.rows.items }
    requires unused { row_at tokens.old.rows.items server.link server.token ≡ None }
    ensures ok { OnOk result (HasMore server rows.old.items rows.new.items) }
    ensures told { OnOk result (HasServer server tokens.old.rows.items tokens.new.rows.items) }
    ensures refused { OnErr result (rows.new.items ≡ rows.old.items) }
    ensures untold { OnErr result (tokens.new.rows.items ≡ tokens.old.rows.items) }
    ensures ordered { IsInFoldedOrder entry rows.new.items }
{
    let token = TokenRow {
        link: server.link,
        token: server.token,
        name: copy_of(&server.name),
    };
    tokens.reserve()?;
    rows::put_in(rows, server)?;
    tokens.add(token);
    Ok(())
}

/// The name that these bytes are.
pub(crate) fn server_name(bytes: &[u8]) -> ServerName
    requires { IsServer bytes.now }
    ensures { result ≡ bytes.now }
{
    match ServerName::read(bytes) {
        Some(name) => name,
        None => unreachable!(),
    }
}

/// The same name once more.
pub(crate) fn copy_of(name: &ServerName) -> ServerName
    ensures value { result ≡ name.now }
    ensures rule { IsServer name.now }
{
    server_name(name.as_bytes())
}
