//! The clients of a server, each under the number of its connection.
ghost use Rattle.std.specs.Prelude.{◌≡◌, Option, Some, Result, IfOk, OnOk};
ghost use Rattle.std.specs.FinMap.{empty, get, insert, remove};
ghost use Rattle.std.specs.Option.{option_copied};
ghost use Rattle.irc_names.specs.Fold.{key};
ghost use Rattle.irc_names.specs.Tables.{row, moved};
ghost use Rattle.irc_stage.specs.Loops.Parts.{all_renamed, clients_of, departed, entered, numbered};
ghost use Rattle.irc_stage.specs.Loops.Parts.{IsFreeFor, IsFreeOf, IsIndexed, IsNoUser};

use crate::numbers::Conn;
use irc_commands::Pending;
use irc_names::Nick;
use irc_tables::NickMap;
use std::alloc::{AllocError, Global};
use std::collections::BTreeMap;
use std::marker::Model;

/// What a connection has given that has not registered, in memory of its own: so the row of a user
/// is small.
#[derive(Drop)]
pub struct Waiting {
    pending: Box<Pending, Global>,
}

/// In a clause it is what the connection has given.
impl Model for Waiting {
    ghost use Rattle.irc_commands.specs.declared.pending.Pending.{Pending};

    ghost Value = { Pending };

    ghost view = { λ waiting. waiting.pending.value };
}

impl Waiting {
    /// One that has given so much.
    ///
    /// # Errors
    /// Where memory runs out.
    pub fn new(alloc: Global, pending: Pending) -> Result<Self, AllocError>
        ensures { IfOk result (λ waiting. waiting ≡ pending) }
    {
        let pending = Box::new(alloc, pending)?;
        Ok(Waiting { pending })
    }

    /// What it has given.
    pub fn pending(&self) -> &Pending
        ensures { result.now ≡ self.now }
    {
        &self.pending
    }
}

/// A connection: it has not registered, or it is a user.
#[derive(Drop)]
pub enum Client {
    /// It has given so much.
    Registering(Waiting),
    /// It is the user with this nickname.
    Registered(Nick),
}

/// The clients of a server.
#[derive(Drop)]
pub(crate) struct ClientTable {
    /// Each by the number of its connection.
    pub by_number: BTreeMap<Conn, Client, Global>,
    /// The connection of each that is a user, by its nickname.
    pub by_nick: NickMap<Conn>,
}

/// No clients.
pub(crate) fn no_clients(alloc: Global) -> ClientTable
    ensures none { clients_of result ≡ empty }
    ensures indexed { IsIndexed result }
{
    ClientTable {
        by_number: BTreeMap::new(alloc),
        by_nick: NickMap::new(alloc),
    }
}

/// The client of a connection, if there is one.
pub(crate) fn client_of(clients: &ClientTable, conn: Conn) -> Option<&Client>
    ensures { option_copied result ≡ get (clients_of clients.now) conn }
{
    clients.by_number.get(&conn)
}

/// A connection is this client from now on.
fn put(
    clients: &mut BTreeMap<Conn, Client, Global>,
    conn: Conn,
    client: Client,
) -> Result<(), AllocError>
    ensures { OnOk result (numbered clients.new ≡ insert (numbered clients.old) conn client) }
{
    match clients.insert(conn, client) {
        Ok(_) => Ok(()),
        Err(_) => Err(AllocError),
    }
}

/// A connection that is no user is this client from now on.
pub(crate) fn seat(clients: &mut ClientTable, conn: Conn, client: Client) -> Result<(), AllocError>
    requires indexed { IsIndexed clients.old }
    requires no_user { IsNoUser (get (clients_of clients.old) conn) }
    requires free { IsFreeOf client (clients_of clients.old) }
    ensures ok { OnOk result
        (clients_of clients.new ≡ insert (clients_of clients.old) conn client) }
    ensures indexed { OnOk result (IsIndexed clients.new) }
    ensures by_nick { OnOk result (clients.new.by_nick ≡ entered conn client clients.old.by_nick) }
{
    enter(&mut clients.by_nick, conn, &client)?;
    put(&mut clients.by_number, conn, client)
}

/// Takes out the client of a connection.
pub(crate) fn take_out(clients: &mut ClientTable, conn: Conn)
    requires indexed { IsIndexed clients.old }
    ensures out { clients_of clients.new ≡ remove (clients_of clients.old) conn }
    ensures indexed { IsIndexed clients.new }
    ensures by_nick { clients.new.by_nick
        ≡ departed (get (clients_of clients.old) conn) clients.old.by_nick }
{
    let removed = clients.by_number.remove(&conn);
    depart(&mut clients.by_nick, &removed);
}

/// A client that is a user stands in the index.
fn enter(by_nick: &mut NickMap<Conn>, conn: Conn, client: &Client) -> Result<(), AllocError>
    ensures { OnOk result (by_nick.new ≡ entered conn client.now by_nick.old) }
{
    match client {
        Client::Registered(nick) => by_nick.insert(nick, conn),
        Client::Registering(_) => Ok(()),
    }
}

/// A client that was a user stands in the index no more.
fn depart(by_nick: &mut NickMap<Conn>, client: &Option<Client>)
    ensures { by_nick.new ≡ departed client.now by_nick.old }
{
    if let Some(Client::Registered(nick)) = client {
        by_nick.remove(nick);
    }
}

/// The user with a nickname takes another.
pub(crate) fn rename(clients: &mut ClientTable, old: &Nick, new: &Nick) -> Result<(), AllocError>
    requires indexed { IsIndexed clients.old }
    requires free { IsFreeFor old.now new.now (clients_of clients.old) }
    ensures ok { OnOk result
        (clients_of clients.new ≡ all_renamed old.now new.now (clients_of clients.old)) }
    ensures indexed { OnOk result (IsIndexed clients.new) }
    ensures by_nick { OnOk result (clients.new.by_nick
        ≡ moved (key old.now) (key new.now) (λ conn. conn) clients.old.by_nick) }
{
    let Some(conn) = number_of(clients, old) else {
        return Ok(());
    };
    clients.by_nick.remove(old);
    clients.by_nick.insert(new, conn)?;
    put(&mut clients.by_number, conn, Client::Registered(new.copy()))
}

/// The connection of the user with a nickname, where it is a client.
pub(crate) fn number_of(clients: &ClientTable, nick: &Nick) -> Option<Conn>
    ensures { result ≡ row clients.now.by_nick (key nick.now) }
{
    match clients.by_nick.get(nick) {
        Some(conn) => Some(*conn),
        None => None,
    }
}
