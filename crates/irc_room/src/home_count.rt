//! How many users are connected to the server that keeps a room.
ghost use Rattle.std.specs.Prelude.{◌≡◌, ◌+◌, Some};
ghost use Rattle.irc_names.specs.Fold.{key};
ghost use Rattle.irc_names.specs.Tables.{row};
ghost use Rattle.irc_users.specs.UserTable.{is_home};
ghost use Rattle.irc_room.specs.Loops.HomeCount.{come, gone, home_count, one_of};

use crate::{Effect, Tables};
use irc_names::{Nick, ServerName};
use irc_users::User;

/// How many of the users of a server stay through an effect: all, but for one that quits.
pub(crate) fn staying(home: &ServerName, tables: &Tables, count: usize, effect: &Effect) -> usize
    requires { count ≡ home_count home.now tables.now.users }
    ensures { count ≡ result + gone home.now tables.now.users effect.now }
{
    match effect {
        Effect::Quit { nick, .. } => count - one_named(home, tables, nick),
        _ => count,
    }
}

/// How many users of a server there are after an effect, where so many stayed.
pub(crate) fn with_newcomer(
    home: &ServerName,
    tables: &Tables,
    staying: usize,
    effect: &Effect,
) -> usize
    requires { home_count home.now tables.now.users ≡ staying + come home.now effect.now }
    ensures { result ≡ home_count home.now tables.now.users }
{
    tables.users.len();
    match effect {
        Effect::AddUser(user) => staying + one_of(home, user),
        _ => staying,
    }
}

/// One, where the user with a nickname is there and connected to a server, or none.
fn one_named(home: &ServerName, tables: &Tables, nick: &Nick) -> usize
    ensures { result ≡ one_of (is_home home.now) (row tables.now.users (key nick.now)) }
{
    match tables.users.find(nick) {
        Some(user) => one_of(home, user),
        None => 0,
    }
}

/// One, where a user is connected to a server, or none.
fn one_of(home: &ServerName, user: &User) -> usize
    ensures { result ≡ one_of (is_home home.now) (Some user.now) }
{
    if user.is_home(home) { 1 } else { 0 }
}
