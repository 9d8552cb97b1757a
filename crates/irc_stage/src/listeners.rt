//! Which clients listen in which channels.
ghost use Rattle.std.specs.Prelude.{◌≡◌, ◌≤◌, Some, None, OnOk, is_some, length, map};
ghost use Rattle.std.specs.FinMap.{empty};
ghost use Rattle.std.specs.Option.{option_copied};
ghost use Rattle.irc_names.specs.Fold.{key};
ghost use Rattle.irc_names.specs.Tables.{row, alter, moved};
ghost use Rattle.irc_tables.specs.RowViews.{row_entry};
ghost use Rattle.irc_room.specs.After.{after};
ghost use Rattle.irc_room.specs.Effects.{IsPossible};
ghost use Rattle.irc_room.specs.effect.Effect.TheVariants.{Rename};
ghost use Rattle.irc_stage.specs.Loops.Listening.{conns_in, index_after, is_in, is_named};
ghost use Rattle.irc_stage.specs.Loops.Listening.{without_conn, AreSo, BringsNone, Forgets};
ghost use Rattle.irc_stage.specs.Loops.Listening.{IsListenerGone, IsListenerSeated, IsNobodys};
ghost use Rattle.irc_stage.specs.Loops.Listening.{IsNoMove, Leaves, Sets, SetsAt, SetsIf};

use crate::clients::{Client, ClientTable, number_of};
use crate::numbers::Conn;
use irc_names::{ChannelName, MAX_CHANNEL, Nick};
use irc_room::{Effect, Room};
use irc_tables::{NameMap, NameTable, Row, RowAttempt, RowChange};
use std::alloc::{AllocError, Global};

/// The clients that listen in each channel: they are kept, changed by one row as one comes or
/// goes, since looking each member up by its nickname costs more than all else that a line does.
#[derive(Drop)]
pub(crate) struct Listeners {
    /// By the name of each channel that has such members, the connections of those that are
    /// clients, each under its nickname.
    pub lists: NameMap<NameTable<Conn>>,
    /// Where they take memory from.
    pub alloc: Global,
}

impl Listeners {
    /// Nobody listens anywhere.
    pub(crate) fn new(alloc: Global) -> Self
        ensures { result.lists ≡ empty }
    {
        Listeners {
            lists: NameMap::new(alloc),
            alloc,
        }
    }

    /// The connections of those that listen in the channel of a name, in folded order of their
    /// nicknames.
    pub(crate) fn of(&self, channel: &[u8]) -> &[Row<Conn>]
        ensures { map row_entry result.now ≡ conns_in (row self.now.lists (key channel.now)) }
    {
        match self.lists.get(channel) {
            Some(conns) => conns.as_slice(),
            None => &[],
        }
    }

    /// Follows an effect, which this room and these clients are still to be changed by.
    ///
    /// # Errors
    /// Where memory runs out.
    pub(crate) fn follow(
        &mut self,
        room: &Room,
        clients: &ClientTable,
        effect: &Effect,
    ) -> Result<(), AllocError>
        requires so { AreSo self.old.lists room.now.room clients.now.by_nick }
        requires possible { IsPossible room.now.room effect.now }
        requires apart { BringsNone effect.now clients.now.by_nick }
        ensures { OnOk result (AreSo self.new.lists (after room.now.room effect.now)
            (index_after effect.now clients.now.by_nick)) }
    {
        match effect {
            Effect::Join { nick, channel, .. } => self.join(clients, nick, channel),
            Effect::Part { nick, channel, .. } => {
                self.leave(nick, channel);
                Ok(())
            }
            Effect::Kick { nick, channel, .. } => {
                self.leave(nick, channel);
                Ok(())
            }
            Effect::Quit { nick, .. } => {
                self.quit(room, clients, nick);
                Ok(())
            }
            Effect::Rename { nick, new } => self.rename(room, clients, nick, new),
            _ => {
                know_unmoved(self, room, clients, effect);
                Ok(())
            }
        }
    }

    /// A user joins a channel.
    fn join(
        &mut self,
        clients: &ClientTable,
        nick: &Nick,
        channel: &ChannelName,
    ) -> Result<(), AllocError>
        ensures { OnOk result (SetsIf (row clients.now.by_nick (key nick.now))
            (key channel.now) (key nick.now)
            self.old.lists self.new.lists) }
    {
        match number_of(clients, nick) {
            Some(conn) => self.put(channel.as_bytes(), nick, conn),
            None => Ok(()),
        }
    }

    /// A member leaves a channel. It takes no memory.
    fn leave(&mut self, nick: &Nick, channel: &ChannelName)
        ensures { SetsAt (key channel.now) (key nick.now) None self.old.lists self.new.lists }
    {
        self.remove(channel.as_bytes(), nick);
    }

    /// A user is gone. It takes no memory.
    fn quit(&mut self, room: &Room, clients: &ClientTable, nick: &Nick)
        requires { AreSo self.old.lists room.now.room clients.now.by_nick }
        ensures { Forgets (key nick.now) self.old.lists self.new.lists }
    {
        if number_of(clients, nick).is_some() {
            self.leave_all(room, nick);
        }
    }

    /// A user has another nickname.
    fn rename(
        &mut self,
        room: &Room,
        clients: &ClientTable,
        old: &Nick,
        new: &Nick,
    ) -> Result<(), AllocError>
        requires so { AreSo self.old.lists room.now.room clients.now.by_nick }
        requires possible { IsPossible room.now.room (Rename old.now new.now) }
        requires apart { IsNobodys old.now new.now clients.now.by_nick }
        ensures { OnOk result (AreSo self.new.lists (after room.now.room (Rename old.now new.now))
            (moved (key old.now) (key new.now) (λ conn. conn) clients.now.by_nick)) }
    {
        room.own();
        let Some(conn) = number_of(clients, old) else {
            return Ok(());
        };
        self.leave_all(room, old);
        self.enter_all(room, old, new, conn)
    }

    /// A client comes: where it is a user, it listens in all channels that the room has that user
    /// in.
    ///
    /// # Errors
    /// Where memory runs out.
    pub(crate) fn seat(
        &mut self,
        room: &Room,
        conn: Conn,
        client: &Client,
    ) -> Result<(), AllocError>
        ensures { OnOk result (IsListenerSeated room.now.room conn client.now
            self.old.lists self.new.lists) }
    {
        match client {
            Client::Registered(nick) => self.enter_all(room, nick, nick, conn),
            Client::Registering(_) => Ok(()),
        }
    }

    /// A client, if there is one, listens nowhere any more.
    pub(crate) fn take_out(&mut self, room: &Room, client: Option<&Client>)
        ensures { IsListenerGone room.now.room (option_copied client.entry)
            self.old.lists self.new.lists }
    {
        if let Some(Client::Registered(nick)) = client {
            self.leave_all(room, nick);
        }
    }

    /// A user is in no channel any more, or no client. It takes no memory.
    fn leave_all(&mut self, room: &Room, nick: &Nick)
        ensures { Leaves room.now.room (key nick.now) self.old.lists self.new.lists }
    {
        self.remove_each(room.names_of(nick.as_bytes()), nick);
    }

    /// A client is in all channels of a user, by this nickname.
    fn enter_all(
        &mut self,
        room: &Room,
        nick: &Nick,
        name: &Nick,
        conn: Conn,
    ) -> Result<(), AllocError>
        ensures { OnOk result (Sets (is_in room.now.room (key nick.now)) (key name.now) (Some conn)
            self.old.lists self.new.lists) }
    {
        self.put_each(room.names_of(nick.as_bytes()), name, conn)
    }

    /// A client is in each of these channels.
    fn put_each(&mut self, names: &[Row<()>], nick: &Nick, conn: Conn) -> Result<(), AllocError>
        ensures { OnOk result (Sets (is_named (map (λ row. key row.name.items) names.now))
            (key nick.now) (Some conn)
            self.old.lists self.new.lists) }
    {
        for row in names {
            self.put(row.name.as_slice(), nick, conn)?;
        }
        Ok(())
    }

    /// A client is in none of these channels. It takes no memory.
    fn remove_each(&mut self, names: &[Row<()>], nick: &Nick)
        ensures { Sets (is_named (map (λ row. key row.name.items) names.now)) (key nick.now) None
            self.old.lists self.new.lists }
    {
        for row in names {
            self.remove(row.name.as_slice(), nick);
        }
    }

    /// Whether anybody listens in a channel.
    fn has_list(&self, channel: &[u8]) -> bool
        ensures { result ≡ is_some (row self.now.lists (key channel.now)) }
    {
        self.lists.get(channel).is_some()
    }

    /// A client is in a channel from now on.
    fn put(&mut self, channel: &[u8], nick: &Nick, conn: Conn) -> Result<(), AllocError>
        requires { length channel.now ≤ MAX_CHANNEL }
        ensures { OnOk result (SetsAt (key channel.now) (key nick.now) (Some conn)
            self.old.lists self.new.lists) }
    {
        if self.has_list(channel) {
            return self.lists.try_at(channel, &Putting { nick, conn });
        }
        let mut conns = NameTable::with_room(self.alloc, 1)?;
        conns.insert(nick.as_bytes(), conn)?;
        self.lists.insert(channel, conns)
    }

    /// A client is in a channel no more; a list in which nothing is left goes. It takes no memory.
    fn remove(&mut self, channel: &[u8], nick: &Nick)
        ensures { SetsAt (key channel.now) (key nick.now) None self.old.lists self.new.lists }
    {
        self.lists.change_at(channel, &TakingOut { nick });
    }
}

/// That they stay who they are by an effect by which nobody joins, leaves or has another nickname.
fn know_unmoved(listeners: &Listeners, room: &Room, clients: &ClientTable, effect: &Effect)
    requires unmoved { IsNoMove effect.now }
    requires so { AreSo listeners.now.lists room.now.room clients.now.by_nick }
    ensures { AreSo listeners.now.lists (after room.now.room effect.now)
        (index_after effect.now clients.now.by_nick) }
{}

/// A connection is put in.
#[derive(Drop)]
struct Putting<'a> {
    nick: &'a Nick,
    conn: Conn,
}

impl<'a> RowAttempt<NameTable<Conn>> for Putting<'a> {
    ghost tried = { λ putting conns. alter (key putting.nick.now) (λ _. Some putting.conn) conns };

    ghost surely = { λ putting conns. is_some (row conns (key putting.nick.now)) };

    fn attempt(&self, conns: &mut NameTable<Conn>) -> Result<(), AllocError> {
        conns.insert(self.nick.as_bytes(), self.conn)
    }
}

/// A connection is taken out, and with the last one its list.
#[derive(Drop)]
struct TakingOut<'a> {
    nick: &'a Nick,
}

impl<'a> RowChange<NameTable<Conn>> for TakingOut<'a> {
    ghost changed = { λ removing conns. without_conn (key removing.nick.now) conns };

    fn change(&self, conns: &mut NameTable<Conn>) -> bool {
        conns.remove(self.nick.as_bytes());
        conns.len() != 0
    }
}
