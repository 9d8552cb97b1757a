//! The users of a room, by nickname and by number.
ghost use Rattle.std.specs.Prelude.{◌≡◌, ◌↔◌, ◌&&◌, None, false, not, IfOk, IsOk, IsTrue, OnOk};
ghost use Rattle.std.specs.Prelude.{OnErr, IsErrOf, filter, is_some, map, length, true};
ghost use Rattle.std.specs.Option.{option_copied, option_map};
ghost use Rattle.std.specs.FinMap.{empty, keys, values};
ghost use Rattle.slab.specs.Slab.{ContainsKey};
ghost use Rattle.irc_names.specs.Fold.{key, same};
ghost use Rattle.irc_names.specs.Tables.{row, alter};
ghost use Rattle.irc_tables.specs.TableChanges.{tried_at, with_value, without};
ghost use Rattle.irc_users.specs.UserTable.{HasNumber, IsNumbered, OthersKeep, FindsUsers};
ghost use Rattle.irc_users.specs.UserTable.{RenamesUnless, has_nick, is_home, is_found_by};
ghost use Rattle.irc_users.specs.UserTable.{is_taken, moved_to, number_moved, rename_fault};
ghost use Rattle.irc_users.specs.UserTable.{spelling_of, with_change, with_user};
ghost use Rattle.irc_users.specs.declared.user.User.{User};
ghost use Rattle.irc_users.specs.Rosters.{AreKept, IsRoster, boxed, head, numbers_in, sitter};
ghost use Rattle.irc_users.specs.Rosters.{users_in};

use crate::fault::{RenameFault, UsersFault};
use crate::user::User;
use crate::user_change::UserChange;
use irc_names::{Nick, ServerName};
use irc_tables::NameMap;
use slab::Slab;
use std::alloc::{AllocError, Global};
use std::marker::Model;

/// What a user is found by.
#[derive(Drop)]
pub(crate) struct Head {
    /// Its nickname.
    pub nick: Nick,
    /// Its number, which is that of its seat.
    pub number: usize,
    /// Whether it has set mode i.
    pub invisible: bool,
}

impl Head {
    /// That of a user in a seat.
    fn of(user: &User, number: usize) -> Self
        ensures { result ≡ head number user.now }
    {
        Head {
            nick: user.nick.copy(),
            number,
            invisible: user.invisible,
        }
    }
}

/// Users, no two of which have one nickname by the fold. Each has a number, which it keeps from
/// [`Users::add`] to [`Users::remove`]: that of its seat, where it lies in memory of its own, so
/// that a user who comes or goes moves no other. What they are found by stands under their
/// nicknames, where a search reads little memory.
#[derive(Drop)]
pub struct Users {
    seats: Slab<Box<User, Global>>,
    heads: NameMap<Head>,
    alloc: Global,
}

/// In a clause it is the table of its users, each under the fold of its nickname, and the table of
/// their numbers.
impl Model for Users {
    ghost use Rattle.irc_users.specs.UserTable.{NumberedUsers, numbered_code};
    ghost use Rattle.irc_users.specs.Rosters.{IsRoster, numbered};

    ghost Value = { NumberedUsers };

    ghost coded = { numbered_code };

    ghost view = { λ users. numbered users.seats users.heads };

    ghost invariant = { λ users. IsRoster users.seats users.heads };
}

impl Users {
    /// No users.
    pub fn new(alloc: Global) -> Self
        ensures users { result.users ≡ empty }
        ensures numbers { result.numbers ≡ empty }
    {
        Users {
            seats: Slab::new(alloc),
            heads: NameMap::new(alloc),
            alloc,
        }
    }

    /// How many users there are.
    pub fn len(&self) -> usize
        ensures { result ≡ length (keys self.now.users) }
    {
        self.heads.len()
    }

    /// Adds a user, unless its nickname is taken. No other user's number changes.
    ///
    /// # Errors
    /// [`UsersFault::Taken`] where the nickname is taken, [`UsersFault::Memory`] where memory runs
    /// out. Nothing has changed then.
    pub fn add(&mut self, user: User) -> Result<(), UsersFault>
        ensures taken { IsErrOf result UsersFault.Taken
            ↔ IsTrue (has_nick self.old.users user.nick) }
        ensures ok { OnOk result (self.new.users ≡ with_user user self.old.users) }
        ensures numbers { OnOk result (OthersKeep user.nick self.old.numbers self.new.numbers) }
        ensures refused { OnErr result (self.new ≡ self.old) }
    {
        if has_head(&self.heads, &user.nick) {
            return Err(UsersFault::Taken);
        }
        if self.add_free(user).is_err() {
            return Err(UsersFault::Memory);
        }
        Ok(())
    }

    /// Adds a user whose nickname is free, which is not looked for once more. No other user's
    /// number changes.
    ///
    /// # Errors
    /// Where memory runs out; nothing has changed then.
    pub fn add_free(&mut self, user: User) -> Result<(), AllocError>
        requires { row self.old.users (key user.nick) ≡ None }
        ensures ok { OnOk result (self.new.users ≡ with_user user self.old.users) }
        ensures numbers { OnOk result (OthersKeep user.nick self.old.numbers self.new.numbers) }
        ensures refused { OnErr result (self.new ≡ self.old) }
    {
        let user = Box::new(self.alloc, user)?;
        take_seat(&mut self.seats, &mut self.heads, user)
    }

    /// Gives the user with a nickname another, as spelled. It keeps its number, as all others do.
    ///
    /// # Errors
    /// [`RenameFault::Taken`] where another user has the new nickname, then
    /// [`RenameFault::NoSuchUser`] where nobody has the old one, then [`RenameFault::Memory`] where
    /// memory runs out. Nothing has changed then.
    pub fn rename(&mut self, nick: &Nick, new: &Nick) -> Result<(), RenameFault>
        ensures fault { RenamesUnless (rename_fault self.old.users nick.now new.now) result }
        ensures ok { OnOk result (self.new.users ≡ moved_to nick.now new.now self.old.users) }
        ensures numbers { OnOk result
            (self.new.numbers ≡ number_moved nick.now new.now self.old.numbers) }
        ensures refused { OnErr result (self.new ≡ self.old) }
    {
        if is_taken(&self.heads, nick, new) {
            return Err(RenameFault::Taken);
        }
        let Ok(there) = respell(&mut self.seats, &mut self.heads, nick, new) else {
            return Err(RenameFault::Memory);
        };
        if !there {
            return Err(RenameFault::NoSuchUser);
        }
        Ok(())
    }

    /// The user with a nickname changes what it has set of itself; where there is no such user,
    /// nothing changes (RFC 2812 section 3.1.5).
    /// No number changes. It takes no memory.
    pub fn change(&mut self, nick: &Nick, change: &UserChange)
        ensures users { self.new.users ≡ tried_at nick.now
            (with_change change.now) self.old.users }
        ensures numbers { self.new.numbers ≡ self.old.numbers }
    {
        change_user(&mut self.seats, &mut self.heads, nick, change);
    }

    /// Takes out the user with a nickname, if there is one. No other user's number changes.
    pub fn remove(&mut self, nick: &Nick) -> Option<User>
        ensures value { result ≡ row self.old.users (key nick.now) }
        ensures users { self.new.users ≡ alter (key nick.now) (λ _. None) self.old.users }
        ensures numbers { self.new.numbers ≡ alter (key nick.now) (λ _. None) self.old.numbers }
    {
        match leave_seat(&mut self.seats, &mut self.heads, nick) {
            Some(user) => Some(Box::into_inner(user)),
            None => None,
        }
    }

    /// The number of the user with a nickname, if there is one. Each user has one, and no two have
    /// the same.
    pub fn number(&self, nick: &Nick) -> Option<usize>
        ensures value { result ≡ row self.now.numbers (key nick.now) }
        ensures numbered { IsNumbered self.now }
    {
        match self.heads.get(nick.as_bytes()) {
            Some(head) => Some(head.number),
            None => None,
        }
    }

    /// The user with a number, if there is one.
    pub fn at(&self, number: usize) -> Option<&User>
        ensures { HasNumber self.now number (option_copied result) }
    {
        match self.seats.get(number) {
            Some(user) => Some(user),
            None => None,
        }
    }

    /// The user with a nickname, if there is one.
    pub fn find(&self, nick: &Nick) -> Option<&User>
        ensures { option_copied result ≡ row self.now.users (key nick.now) }
    {
        self.find_named(nick.as_bytes())
    }

    /// The user whose nickname is the same as these bytes under the fold, which may be no nickname
    /// themselves.
    pub fn find_named(&self, name: &[u8]) -> Option<&User>
        ensures { option_copied result ≡ row self.now.users (key name.now) }
    {
        match self.heads.get(name) {
            Some(head) => self.at(head.number),
            None => None,
        }
    }

    /// Whether the user that [`Users::find_named`] finds for these bytes is without mode i. Nothing
    /// else of the user is looked at.
    pub fn is_visible(&self, name: &[u8]) -> Option<bool>
        ensures { result ≡ option_map (λ user. not user.invisible)
            (row self.now.users (key name.now)) }
    {
        match self.heads.get(name) {
            Some(head) => Some(!head.invisible),
            None => None,
        }
    }

    /// The nickname, as it is spelled, of the user that [`Users::find_named`] finds for these
    /// bytes. Nothing else of the user is looked at.
    pub fn spelling(&self, name: &[u8]) -> Option<&Nick>
        ensures { option_copied result ≡ spelling_of self.now.users name.now }
    {
        match self.heads.get(name) {
            Some(head) => Some(&head.nick),
            None => None,
        }
    }

    /// All users, in folded order of their nicknames.
    ///
    /// # Errors
    /// Where memory runs out.
    pub fn in_order(&self) -> Result<Vec<&User, Global>, AllocError>
        ensures { FindsUsers result (values self.now.users) }
    {
        all_of(&self.seats, &self.heads, self.alloc)
    }

    /// The users that are connected to a server, in folded order of their nicknames.
    ///
    /// # Errors
    /// Where memory runs out.
    pub fn by_home(&self, home: &ServerName) -> Result<Vec<&User, Global>, AllocError>
        ensures { FindsUsers result (filter (is_home home.now) (values self.now.users)) }
    {
        homed_at(&self.seats, &self.heads, home, self.alloc)
    }

    /// How many users are connected to a server. It takes no memory.
    pub fn home_count(&self, home: &ServerName) -> usize
        ensures { result ≡ length (filter (is_home home.now) (values self.now.users)) }
    {
        homed_count(&self.seats, &self.heads, home)
    }

    /// The users whose nickname, host, server or real name a mask matches, in folded order of their
    /// nicknames. Any bytes are a mask (RFC 2812 section 3.6.1).
    ///
    /// # Errors
    /// Where memory runs out.
    pub fn matching(&self, mask: &[u8]) -> Result<Vec<&User, Global>, AllocError>
        ensures { FindsUsers result (filter (is_found_by mask.now) (values self.now.users)) }
    {
        matched_by(&self.seats, &self.heads, mask, self.alloc)
    }
}

/// The user that a head is of.
fn sitter<'a>(seats: &'a Slab<Box<User, Global>>, head: &Head) -> &'a User
    requires { ContainsKey seats.now head.now.number }
    ensures { result.now ≡ sitter seats.now head.now }
{
    &seats[head.number]
}

/// The users that heads in folded order are of.
fn all_of<'a>(
    seats: &'a Slab<Box<User, Global>>,
    heads: &NameMap<Head>,
    alloc: Global,
) -> Result<Vec<&'a User, Global>, AllocError>
    requires { IsRoster seats.now heads.now }
    ensures { FindsUsers result (map (sitter seats.now) (values heads.now)) }
{
    let mut found = Vec::new(alloc);
    for head in heads.values() {
        found.push(sitter(seats, head))?;
    }
    Ok(found)
}

/// Those of them that are connected to a server.
fn homed_at<'a>(
    seats: &'a Slab<Box<User, Global>>,
    heads: &NameMap<Head>,
    home: &ServerName,
    alloc: Global,
) -> Result<Vec<&'a User, Global>, AllocError>
    requires { IsRoster seats.now heads.now }
    ensures { FindsUsers result
        (filter (is_home home.now) (map (sitter seats.now) (values heads.now))) }
{
    let mut found = Vec::new(alloc);
    for head in heads.values() {
        let user = sitter(seats, head);
        if user.is_home(home) {
            found.push(user)?;
        }
    }
    Ok(found)
}

/// How many of them are connected to a server.
fn homed_count(seats: &Slab<Box<User, Global>>, heads: &NameMap<Head>, home: &ServerName) -> usize
    requires { IsRoster seats.now heads.now }
    ensures { result ≡ length
        (filter (is_home home.now) (map (sitter seats.now) (values heads.now))) }
{
    // what a table has is no more than a number holds, which its length tells the proof
    heads.len();
    let mut count = 0;
    for head in heads.values() {
        if sitter(seats, head).is_home(home) {
            count += 1;
        }
    }
    count
}

/// Those of them of which a mask matches the nickname, the host, the server or the real name.
fn matched_by<'a>(
    seats: &'a Slab<Box<User, Global>>,
    heads: &NameMap<Head>,
    mask: &[u8],
    alloc: Global,
) -> Result<Vec<&'a User, Global>, AllocError>
    requires { IsRoster seats.now heads.now }
    ensures { FindsUsers result
        (filter (is_found_by mask.now) (map (sitter seats.now) (values heads.now))) }
{
    let mut found = Vec::new(alloc);
    for head in heads.values() {
        let user = sitter(seats, head);
        if user.is_found_by(mask) {
            found.push(user)?;
        }
    }
    Ok(found)
}

/// Puts in a user whose nickname is free, in the seat that is free.
fn take_seat(
    seats: &mut Slab<Box<User, Global>>,
    heads: &mut NameMap<Head>,
    user: Box<User, Global>,
) -> Result<(), AllocError>
    requires roster { IsRoster seats.old heads.old }
    requires free { row heads.old (key user.value.nick) ≡ None }
    ensures users { OnOk result
        (users_in seats.new heads.new ≡ with_user user.value (users_in seats.old heads.old)) }
    ensures numbers { OnOk result
        (OthersKeep user.value.nick (numbers_in heads.old) (numbers_in heads.new)) }
    ensures refused { OnErr result (AreKept seats.old seats.new heads.old heads.new) }
    ensures roster { IsRoster seats.new heads.new }
{
    seats.reserve(1)?;
    let number = seats.vacant_key();
    put_head(heads, Head::of(&user, number))?;
    seats.insert_reserved(user);
    Ok(())
}

/// Takes out the user with a nickname, if there is one.
fn leave_seat(
    seats: &mut Slab<Box<User, Global>>,
    heads: &mut NameMap<Head>,
    nick: &Nick,
) -> Option<Box<User, Global>>
    requires { IsRoster seats.old heads.old }
    ensures value { option_map boxed result ≡ row (users_in seats.old heads.old) (key nick.now) }
    ensures users { users_in seats.new heads.new ≡ without nick.now (users_in seats.old heads.old) }
    ensures numbers { numbers_in heads.new ≡ without nick.now (numbers_in heads.old) }
    ensures roster { IsRoster seats.new heads.new }
{
    match heads.remove(nick.as_bytes()) {
        Some(head) => seats.try_remove(head.number),
        None => None,
    }
}

/// Gives the user with a nickname another, which no other user has, and says whether there is one.
/// It stays in its seat; its head moves.
fn respell(
    seats: &mut Slab<Box<User, Global>>,
    heads: &mut NameMap<Head>,
    nick: &Nick,
    new: &Nick,
) -> Result<bool, AllocError>
    requires roster { IsRoster seats.old heads.old }
    requires free { is_taken (users_in seats.old heads.old) nick.now new.now ≡ false }
    ensures there { IfOk result
        (λ there. there ≡ has_nick (users_in seats.old heads.old) nick.now) }
    ensures users { OnOk result (users_in seats.new heads.new ≡ moved_to nick.now new.now
        (users_in seats.old heads.old)) }
    ensures numbers { OnOk result
        (numbers_in heads.new ≡ number_moved nick.now new.now (numbers_in heads.old)) }
    ensures roster { IsRoster seats.new heads.new }
    ensures found { OnErr result (has_nick (users_in seats.old heads.old) nick.now ≡ true) }
    ensures refused { OnErr result (AreKept seats.old seats.new heads.old heads.new) }
    ensures same { IfOk result (λ there. there ≡ false
        → AreKept seats.old seats.new heads.old heads.new) }
{
    let Some(head) = heads.get(nick.as_bytes()) else {
        return Ok(false);
    };
    let number = head.number;
    let moved = Head {
        nick: new.copy(),
        number,
        invisible: head.invisible,
    };
    move_head(heads, nick, moved)?;
    seats[number].nick = new.copy();
    Ok(true)
}

/// Makes a change in the user with a nickname, if there is one, and in what it is found by.
fn change_user(
    seats: &mut Slab<Box<User, Global>>,
    heads: &mut NameMap<Head>,
    nick: &Nick,
    change: &UserChange,
)
    requires { IsRoster seats.old heads.old }
    ensures users { users_in seats.new heads.new ≡ tried_at nick.now (with_change change.now)
        (users_in seats.old heads.old) }
    ensures numbers { numbers_in heads.new ≡ numbers_in heads.old }
    ensures roster { IsRoster seats.new heads.new }
{
    let Some(head) = heads.get(nick.as_bytes()) else {
        return;
    };
    let number = head.number;
    let user = &mut seats[number];
    change.set_in(user);
    let Ok(_) = put_head(heads, Head::of(user, number)) else {
        unreachable!();
    };
}

/// Puts in a head, in place of that of its nickname. Where there is one, it takes no memory.
fn put_head(heads: &mut NameMap<Head>, head: Head) -> Result<(), AllocError>
    ensures ok { OnOk result (heads.new ≡ with_value head.nick head heads.old) }
    ensures refused { OnErr result (heads.new ≡ heads.old) }
    ensures there { IsTrue (is_some (row heads.old (key head.nick))) → IsOk result }
{
    let nick = head.nick.copy();
    heads.insert(nick.as_bytes(), head)
}

/// Puts in a head in place of that of another nickname.
fn move_head(heads: &mut NameMap<Head>, nick: &Nick, head: Head) -> Result<(), AllocError>
    ensures ok { OnOk result (heads.new ≡ with_value head.nick head (without nick.now heads.old)) }
    ensures refused { OnErr result (heads.new ≡ heads.old) }
{
    let new = head.nick.copy();
    heads.insert(new.as_bytes(), head)?;
    if *nick != new {
        heads.remove(nick.as_bytes());
    }
    Ok(())
}

/// Whether another user than the one with the first nickname has the second.
fn is_taken(heads: &NameMap<Head>, nick: &Nick, new: &Nick) -> bool
    ensures { result ≡ (not (same nick.now new.now) && is_some (row heads.now (key new.now))) }
{
    nick != new && has_head(heads, new)
}

/// Whether a user has a nickname.
fn has_head(heads: &NameMap<Head>, nick: &Nick) -> bool
    ensures { result ≡ is_some (row heads.now (key nick.now)) }
{
    heads.get(nick.as_bytes()).is_some()
}
