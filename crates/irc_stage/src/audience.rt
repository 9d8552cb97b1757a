//! To whom the line of an effect goes: those that listen in its channels, or the one user that it
//! is for.
ghost use Rattle.std.specs.Prelude.{◌≡◌, ℕ, true, List, None, Some, ◌∷◌, [], OnErr, OnOk, IfOk};
ghost use Rattle.std.specs.Prelude.{map, not, if◌then◌else◌};
ghost use Rattle.std.specs.List.{list_any};
ghost use Rattle.irc_batch.specs.Batches.{is_number, put_out_all, to_others};
ghost use Rattle.irc_names.specs.Fold.{key};
ghost use Rattle.irc_names.specs.Tables.{Table};
ghost use Rattle.irc_users.specs.UserTable.{is_shown};
ghost use Rattle.irc_room.specs.After.{after};
ghost use Rattle.irc_room.specs.Effects.{has_user, is_idle, IsPossible};
ghost use Rattle.irc_room.specs.effect.Effect.TheVariants.{Rename};
ghost use Rattle.irc_stage.specs.Loops.Around.{IsNamedIn};
ghost use Rattle.irc_stage.specs.Loops.Hearing.{conns_if, conns_who, hearers, is_beside, others_of};
ghost use Rattle.irc_stage.specs.Loops.Hearing.{IsLineOf, IsToldFirst, IsUnsaid, SendsTo};
ghost use Rattle.irc_stage.specs.Loops.Listening.{conn_as, conns_at, index_after, AreSo};
ghost use Rattle.irc_stage.specs.Loops.Listening.{BringsNone};
ghost use Rattle.irc_stage.specs.Loops.Merging.{entries_now, with_lists};
ghost use Rattle.irc_stage.specs.Loops.Parts.{IsIndexed};

use crate::clients::{ClientTable, number_of};
use crate::listeners::Listeners;
use crate::merging::merged;
use crate::numbers::Conn;
use crate::ways::Around;
use irc_batch::Batch;
use irc_line::Text;
use irc_names::Nick;
use irc_room::{Effect, Room, is_idle};
use irc_tables::Row;
use irc_users::UserChange;
use std::alloc::{AllocError, Global};

/// Writes the line that an effect shows, and tells whether it shows one: an effect that does
/// nothing does not.
pub(crate) fn write(around: Around<'_>, effect: &Effect, line: &mut Text) -> bool
    ensures { IsNamedIn around.entry effect.now → IsLineOf around.entry.room.now effect.now
        (if result then Some line.new.items else None) }
{
    if is_idle(effect, around.named) {
        return false;
    }
    around.room.write_named(effect, around.named, line)
}

impl Listeners {
    /// Puts out the line of an effect to all who see it, and follows the effect. This room and
    /// these clients are still to be changed by it. Who joins a channel is among those who see it,
    /// and who leaves one too.
    ///
    /// # Errors
    /// Where memory runs out; the line has been put out to some of them then.
    pub(crate) fn show(
        &mut self,
        room: &Room,
        clients: &ClientTable,
        effect: &Effect,
        line: &Text,
        out: &mut Batch,
    ) -> Result<(), AllocError>
        requires so { AreSo self.old.lists room.now.room clients.now.by_nick }
        requires indexed { IsIndexed clients.now }
        requires possible { IsPossible room.now.room effect.now }
        requires apart { BringsNone effect.now clients.now.by_nick }
        requires unsaid { IsUnsaid effect.now }
        ensures so { OnOk result (AreSo self.new.lists (after room.now.room effect.now)
            (index_after effect.now clients.now.by_nick)) }
        ensures shown { OnOk result
            (SendsTo line.now.items (hearers room.now.room clients.now.by_nick effect.now)
            out.old out.new) }
    {
        room.own();
        match effect {
            Effect::Join { channel, .. } => {
                self.follow(room, clients, effect)?;
                self.tell(channel.as_bytes(), None, line, out)
            }
            _ => {
                self.tell_first(room, clients, effect, line, out)?;
                self.follow(room, clients, effect)
            }
        }
    }

    /// Puts out the line of an effect, by which nobody comes into a channel, to all who see it.
    fn tell_first(
        &self,
        room: &Room,
        clients: &ClientTable,
        effect: &Effect,
        line: &Text,
        out: &mut Batch,
    ) -> Result<(), AllocError>
        requires so { AreSo self.now.lists room.now.room clients.now.by_nick }
        requires indexed { IsIndexed clients.now }
        requires possible { IsPossible room.now.room effect.now }
        requires first { IsToldFirst effect.now }
        ensures { OnOk result
            (SendsTo line.now.items (hearers room.now.room clients.now.by_nick effect.now)
            out.old out.new) }
    {
        room.own();
        match effect {
            Effect::Rename { nick, .. } => self.tell_renamed(room, clients, nick, line, out),
            Effect::Quit { nick, .. } => {
                self.tell_beside(room, nick, number_of(clients, nick), line, out)
            }
            Effect::Part { channel, .. } => self.tell(channel.as_bytes(), None, line, out),
            Effect::Kick { channel, .. } => self.tell(channel.as_bytes(), None, line, out),
            Effect::ChangeModes { channel, .. } => self.tell(channel.as_bytes(), None, line, out),
            Effect::SetTopic { channel, .. } => self.tell(channel.as_bytes(), None, line, out),
            Effect::Invite { nick, .. } => tell_one(clients, nick, line, out),
            Effect::ChangeUser { nick, change } => tell_itself(clients, nick, change, line, out),
            _ => Ok(()),
        }
    }

    /// Puts out a line to those that listen in a channel, but for one.
    fn tell(
        &self,
        channel: &[u8],
        one: Option<Conn>,
        line: &Text,
        out: &mut Batch,
    ) -> Result<(), AllocError>
        ensures { OnOk result
            (SendsTo line.now.items (others_of one (conns_at self.now.lists (key channel.now)))
            out.old out.new) }
    {
        tell_others(self.of(channel), one, line, out)
    }

    /// Puts out a line to a user that has another nickname, and to all that are in a
    /// channel with it. In a channel it is among those that listen.
    fn tell_renamed(
        &self,
        room: &Room,
        clients: &ClientTable,
        nick: &Nick,
        line: &Text,
        out: &mut Batch,
    ) -> Result<(), AllocError>
        requires so { AreSo self.now.lists room.now.room clients.now.by_nick }
        requires there { has_user room.now.room nick.now ≡ true }
        ensures { (new : List ℕ) → OnOk result
            (SendsTo line.now.items
            (hearers room.now.room clients.now.by_nick (Rename nick.now new)) out.old out.new) }
    {
        room.own();
        if room.names_of(nick.as_bytes()).is_empty() {
            return tell_one(clients, nick, line, out);
        }
        self.tell_beside(room, nick, None, line, out)
    }

    /// Puts out a line to all that are in a channel with a user, but for one, each once.
    fn tell_beside(
        &self,
        room: &Room,
        nick: &Nick,
        one: Option<Conn>,
        line: &Text,
        out: &mut Batch,
    ) -> Result<(), AllocError>
        ensures { (by_nick : Table ℕ) → AreSo self.now.lists room.now.room by_nick
            → OnOk result (SendsTo line.now.items
            (others_of one (conns_who room.now.room by_nick (is_beside room.now.room nick.now)))
            out.old out.new) }
    {
        room.own();
        let names = room.names_of(nick.as_bytes());
        if let [name] = names {
            return self.tell(name.name.as_slice(), one, line, out);
        }
        let rows = self.put_together(names)?;
        tell_all_others(rows.as_slice(), one, line, out)
    }

    /// Those that listen in some channels, each once, in folded order of their nicknames.
    fn put_together<'a>(
        &'a self,
        names: &[Row<()>],
    ) -> Result<Vec<&'a Row<Conn>, Global>, AllocError>
        ensures { IfOk result (λ rows. entries_now rows.items
            ≡ with_lists self.now.lists (map (λ row. key row.name.items) names.now) []) }
    {
        let mut found = Vec::new(self.alloc);
        for row in names {
            found = merged(self.alloc, self.of(row.name.as_slice()), &found)?;
        }
        Ok(found)
    }
}

/// Puts out a line to a user, where it is a client.
fn tell_one(
    clients: &ClientTable,
    nick: &Nick,
    line: &Text,
    out: &mut Batch,
) -> Result<(), AllocError>
    ensures { OnOk result
        (SendsTo line.now.items (conn_as clients.now.by_nick nick.now) out.old out.new) }
{
    match number_of(clients, nick) {
        Some(conn) => out.put(conn.number(), line),
        None => Ok(()),
    }
}

/// Puts out the line of a change of a user's own to that user, where it is told of it and is a
/// client.
fn tell_itself(
    clients: &ClientTable,
    nick: &Nick,
    change: &UserChange,
    line: &Text,
    out: &mut Batch,
) -> Result<(), AllocError>
    ensures { OnOk result (SendsTo line.now.items
        (conns_if (is_shown change.now) (conn_as clients.now.by_nick nick.now)) out.old out.new) }
{
    if !change.is_shown() {
        return Ok(());
    }
    tell_one(clients, nick, line, out)
}

/// Puts out a line to each of these connections in turn, but for one. Where there is no other it
/// is not taken to hand.
///
/// # Errors
/// Where memory runs out; it has been put out to some of them then.
pub(crate) fn tell_others(
    rows: &[Row<Conn>],
    one: Option<Conn>,
    line: &Text,
    out: &mut Batch,
) -> Result<(), AllocError>
    ensures { OnOk result
        (SendsTo line.now.items (others_of one (map (λ row. row.value) rows.now))
        out.old out.new) }
{
    if !has_other(rows, &one) {
        return Ok(());
    }
    out.hold(line)?;
    send_to_others(rows, &one, out)
}

/// The same of connections that were put together.
fn tell_all_others(
    rows: &[&Row<Conn>],
    one: Option<Conn>,
    line: &Text,
    out: &mut Batch,
) -> Result<(), AllocError>
    ensures { OnOk result
        (SendsTo line.now.items (others_of one (map (λ row. row.now.value) rows.now))
        out.old out.new) }
{
    if !has_any_other(rows, &one) {
        return Ok(());
    }
    out.hold(line)?;
    send_to_all_others(rows, &one, out)
}

/// Whether there is another among these connections than one.
fn has_other(rows: &[Row<Conn>], one: &Option<Conn>) -> bool
    ensures { result ≡ list_any (λ row. not (is_number one.now row.value)) rows.now }
{
    rows.iter().any(|row| is_other(row.value, one))
}

/// The same of connections that were put together.
fn has_any_other(rows: &[&Row<Conn>], one: &Option<Conn>) -> bool
    ensures { result ≡ list_any (λ row. not (is_number one.now row.now.value)) rows.now }
{
    rows.iter().any(|row| is_other(row.value, one))
}

/// Whether a connection is another than one.
fn is_other(conn: Conn, one: &Option<Conn>) -> bool
    ensures { result ≡ not (is_number one.now conn) }
{
    match one {
        Some(number) => *number != conn,
        None => true,
    }
}

/// Puts out the line at hand to each of these connections in turn, but for one.
fn send_to_others(rows: &[Row<Conn>], one: &Option<Conn>, out: &mut Batch) -> Result<(), AllocError>
    ensures { OnOk result (out.new
        ≡ put_out_all (to_others out.old.held one.now (map (λ row. row.value) rows.now)) out.old) }
{
    for row in rows {
        send_unless(row.value, one, out)?;
    }
    Ok(())
}

/// The same of connections that were put together.
fn send_to_all_others(
    rows: &[&Row<Conn>],
    one: &Option<Conn>,
    out: &mut Batch,
) -> Result<(), AllocError>
    ensures { OnOk result (out.new
        ≡ put_out_all
        (to_others out.old.held one.now (map (λ row. row.now.value) rows.now)) out.old) }
{
    for row in rows {
        send_unless(row.value, one, out)?;
    }
    Ok(())
}

/// Puts out the line at hand to a connection, unless it is this one.
fn send_unless(conn: Conn, one: &Option<Conn>, out: &mut Batch) -> Result<(), AllocError>
    ensures ok { OnOk result (out.new
        ≡ put_out_all (to_others out.old.held one.now (conn ∷ [])) out.old) }
    ensures refused { OnErr result (out.new ≡ out.old) }
{
    match one {
        Some(number) if *number == conn => Ok(()),
        _ => out.send(conn.number()),
    }
}
