//! The connections and the wire: what the server puts out goes to outboxes, and outboxes are
//! written.
ghost use Rattle.std.specs.Prelude.{◌≡◌, ◌+◌, ◌<◌, ◌≤◌, ◌↔◌, true, false, is_some, Some, None, []};
ghost use Rattle.std.specs.Prelude.{IfNone, IfSome, IsSome, OnOk};
ghost use Rattle.std.specs.Ordering.{nat_cmp};
ghost use Rattle.std.specs.BTreeMap.{btree_map_len, IsLowerBound, IsUnchanged, Updates};
ghost use Rattle.irc_engine.specs.Loops.Connections.{Carries, CarriesOne, Ends, IsLostAs};
ghost use Rattle.irc_engine.specs.Moments.{lost_at};
ghost use Rattle.irc_engine.specs.Loops.Connections.{IsNoted, KeepsMarks, Loses, EndsOrWaits};
ghost use Rattle.irc_engine.specs.Loops.Connections.{Writes};
ghost use Rattle.irc_engine.specs.Writing.{one_if};
ghost use Rattle.irc_engine.specs.Noting.{out_signs};
ghost use Rattle.irc_batch.specs.Batches.{end_of, line_to, sent_of};
ghost use Rattle.irc_journal.specs.Signs.{sign_of, EntersAll};

use crate::connection_table::{ConnectionTable, Pushed};
use crate::kind::ConnectionKind;
use irc_batch::{Batch, Out};
use irc_journal::Journal;
use irc_outbox::Wire;
use std::alloc::{AllocError, Global};
use std::collections::{BTreeMap, BTreeSet};

/// The connections of an engine, and its wire.
#[derive(Drop)]
pub(crate) struct Connections<W> {
    /// What carries the bytes.
    pub wire: W,
    /// Each connection, by its number.
    pub table: ConnectionTable,
    /// Connections with bytes to write, but for those that the turn is about to write to.
    pub waiting: BTreeSet<u64, Global>,
    /// Connections that were lost, of which the server has yet to be told, with their kinds.
    pub lost: BTreeMap<u64, ConnectionKind, Global>,
}

/// Notes a connection's number.
fn note(numbers: &mut BTreeSet<u64, Global>, conn: u64) -> Result<(), AllocError>
    ensures { OnOk result (IsNoted numbers.old conn true numbers.new) }
{
    match numbers.insert(conn) {
        Ok(_) => Ok(()),
        Err(_) => Err(AllocError),
    }
}

/// Forgets a connection's number.
fn forget(numbers: &mut BTreeSet<u64, Global>, conn: u64)
    ensures { IsNoted numbers.old conn false numbers.new }
{
    numbers.remove(&conn);
}

/// Notes that a connection of this kind was lost.
fn note_loss(
    lost: &mut BTreeMap<u64, ConnectionKind, Global>,
    conn: u64,
    kind: ConnectionKind,
) -> Result<(), AllocError>
    ensures noted { OnOk result (IsLostAs lost.old conn (Some kind) lost.new) }
    ensures len { OnOk result (btree_map_len lost.new ≤ btree_map_len lost.old + 1) }
{
    match lost.insert(conn, kind) {
        Ok(_) => Ok(()),
        Err(_) => Err(AllocError),
    }
}

/// Forgets that a connection was lost.
fn forget_loss(lost: &mut BTreeMap<u64, ConnectionKind, Global>, conn: u64)
    ensures forgotten { IsLostAs lost.old conn None lost.new }
    ensures len { btree_map_len lost.new ≤ btree_map_len lost.old }
{
    lost.remove(&conn);
}

/// Takes the lost connection with the lowest number out.
pub(crate) fn take_lowest(
    lost: &mut BTreeMap<u64, ConnectionKind, Global>,
) -> Option<(u64, ConnectionKind)>
    ensures variant { IsSome result ↔ (0 < btree_map_len lost.old) }
    ensures member { IfSome result (λ first. lost_at lost.old first.0 ≡ Some first.1) }
    ensures least { IfSome result (λ first. IsLowerBound nat_cmp lost.old first.0) }
    ensures updates { IfSome result (λ first. Updates nat_cmp lost.old lost.new first.0 None) }
    ensures unchanged { IfNone result (IsUnchanged lost.old lost.new) }
    ensures len { btree_map_len lost.new + one_if (is_some result) ≡ btree_map_len lost.old }
{
    lost.pop_first()
}

impl<W: Wire> Connections<W> {
    /// A connection ends here: it goes, with what was to be written, and is closed.
    fn end(&mut self, conn: u64)
        ensures { Ends W.is_after conn self.old self.new }
    {
        self.table.remove(conn);
        forget(&mut self.waiting, conn);
        self.wire.close(conn);
    }

    /// A connection is lost: it ends, and the server is to be told, unless it has closed it.
    pub(crate) fn lose(&mut self, conn: u64) -> Result<(), AllocError>
        ensures { OnOk result (Loses W.is_after conn self.old self.new) }
    {
        let open = self.table.open_kind(conn);
        self.end(conn);
        match open {
            Some(kind) => note_loss(&mut self.lost, conn, kind),
            None => Ok(()),
        }
    }

    /// A line goes to a connection's outbox. Where others wait there, the connection is noted by
    /// now, or the turn is about to write to it. Where it does not fit, the connection is lost.
    fn send(&mut self, conn: u64, line: &[u8]) -> Result<(), AllocError>
        ensures carries { OnOk result
            (CarriesOne W.is_after self.old (line_to conn line.now) self.new) }
        ensures marks { OnOk result (KeepsMarks self.old self.new) }
    {
        match self.table.push(conn, line)? {
            Ok(Pushed::First) => note(&mut self.waiting, conn),
            Ok(Pushed::More) => Ok(()),
            Ok(Pushed::Nothing) => Ok(()),
            Err(_) => self.lose(conn),
        }
    }

    /// The server has closed a connection: it ends once nothing is left to write.
    fn close_when_written(&mut self, conn: u64)
        ensures carries { CarriesOne W.is_after self.old (end_of conn) self.new }
        ensures marks { KeepsMarks self.old self.new }
    {
        forget_loss(&mut self.lost, conn);
        self.table.close_when_written(conn);
        if self.table.is_done(conn) {
            self.end(conn);
        }
    }

    /// Does one thing that the server has put out. That a link is closed is entered in the journal.
    fn dispatch_one(&mut self, out: Out<'_>, journal: &mut Journal) -> Result<(), AllocError>
        ensures carries { OnOk result
            (CarriesOne W.is_after self.old (sent_of out.entry) self.new) }
        ensures marks { OnOk result (KeepsMarks self.old self.new) }
        ensures noted { OnOk result
            (EntersAll (sign_of (sent_of out.entry)) journal.old journal.new) }
    {
        match out {
            Out::Line(conn, line) => self.send(conn, line),
            Out::LinkLine(link, line) => self.send(link, line),
            Out::Close(conn) => {
                self.close_when_written(conn);
                Ok(())
            }
            Out::LinkClose(link, reason) => {
                self.close_when_written(link);
                journal.close(link, reason)
            }
        }
    }

    /// Does what the server has put out. Which links are closed is entered in the journal.
    pub(crate) fn dispatch(&mut self, outs: &Batch, journal: &mut Journal) -> Result<(), AllocError>
        ensures carries { OnOk result (Carries W.is_after [] self.old outs.now.outs self.new) }
        ensures marks { OnOk result (KeepsMarks self.old self.new) }
        ensures noted { OnOk result (EntersAll (out_signs outs.now.outs) journal.old journal.new) }
    {
        for place in 0..outs.len() {
            let Some(out) = outs.get(place) else {
                unreachable!();
            };
            self.dispatch_one(out, journal)?;
        }
        Ok(())
    }

    /// Writes once to a connection. It ends where the server has closed it and nothing is left, and
    /// is lost where the device fails.
    pub(crate) fn write(&mut self, conn: u64) -> Result<(), AllocError>
        ensures { OnOk result (Writes W.is_after conn self.old self.new) }
    {
        match self.table.write(&mut self.wire, conn) {
            Ok(_) => self.end_or_wait(conn),
            Err(_) => self.lose(conn),
        }
    }

    /// After a write: a connection ends, or waits just where something is left.
    fn end_or_wait(&mut self, conn: u64) -> Result<(), AllocError>
        ensures { OnOk result (EndsOrWaits W.is_after conn self.old self.new) }
    {
        if self.table.is_done(conn) {
            self.end(conn);
            return Ok(());
        }
        if self.table.has_some(conn) {
            return note(&mut self.waiting, conn);
        }
        forget(&mut self.waiting, conn);
        Ok(())
    }
}
