//! What a machine puts out is said in the manner of a door.
ghost use Rattle.std.specs.Prelude.{◌≡◌, ◌++◌, ◌+◌, ◌<◌, ◌≤◌, drop, length, option_map, OnOk, Some};
ghost use Rattle.irc_line.specs.Limits.{max_text};
ghost use Rattle.irc_batch.specs.Batches.{sent_of, IsText};
ghost use Rattle.irc_door.specs.Doors.{said, said_by, to_client};
ghost use Rattle.irc_door.specs.Capabilities.{asked_now, refused_told};
ghost use Rattle.irc_door.specs.Manners.{written_by, written_or_answered, written_to};
ghost use Rattle.irc_door.specs.Manners.{written_usually, written_with};
ghost use Rattle.irc_door.specs.Turning.{turned, written};

use crate::capabilities::{CapLine, answer, refused_told};
use crate::manner::Manner;
use crate::motd::Motd;
use crate::telling::{missing_told, tell};
use crate::turning::{Turned, turn};
use irc_batch::{Batch, Out};
use irc_routes::Programs;
use std::alloc::AllocError;

/// What was put out goes on, in that manner; by a line CAP of a client, or by another event.
pub(crate) fn put_said(
    manner: &Manner,
    asked: Option<CapLine<'_>>,
    held: &mut Batch,
    out: &mut Batch,
) -> Result<(), AllocError>
    ensures { OnOk result (out.new.outs ≡ out.old.outs
        ++ said_by manner.now (option_map asked_now asked.entry) held.old.outs) }
{
    if manner.is_plain() && asked.is_none() {
        return out.append(held);
    }
    say_all(manner, asked, held, out)
}

/// Says all that a machine has put out.
fn say_all(
    manner: &Manner,
    asked: Option<CapLine<'_>>,
    held: &Batch,
    out: &mut Batch,
) -> Result<(), AllocError>
    ensures { OnOk result (out.new.outs ≡ out.old.outs
        ++ said_by manner.now (option_map asked_now asked.entry) held.now.outs) }
{
    for place in 0..held.len() {
        say_at(manner, asked, held, place, out)?;
    }
    Ok(())
}

/// Says what stands at a place.
fn say_at(
    manner: &Manner,
    asked: Option<CapLine<'_>>,
    held: &Batch,
    place: usize,
    out: &mut Batch,
) -> Result<(), AllocError>
    requires there { place < length held.now.outs }
    ensures { OnOk result (out.new.outs
        ++ said_by manner.now (option_map asked_now asked.entry) (drop (place + 1) held.now.outs)
        ≡ out.old.outs
        ++ said_by manner.now (option_map asked_now asked.entry) (drop place held.now.outs)) }
{
    match held.get(place) {
        Some(sent) => say(manner, asked, sent, out),
        None => Ok(()),
    }
}

/// Says one thing.
fn say(
    manner: &Manner,
    asked: Option<CapLine<'_>>,
    sent: Out<'_>,
    out: &mut Batch,
) -> Result<(), AllocError>
    requires fits { IsText (sent_of sent) }
    ensures { OnOk result (out.new.outs ≡ out.old.outs
        ++ said manner.now (option_map asked_now asked.entry) (sent_of sent.entry)) }
{
    match sent {
        Out::Line(conn, line) => say_to(manner, asked, conn, line, out),
        Out::Close(conn) => out.close(conn),
        Out::LinkLine(link, line) => out.put_on(link, line),
        Out::LinkClose(link, reason) => out.close_link(link, reason),
    }
}

/// Says a text to a client, whose line CAP may be at hand.
fn say_to(
    manner: &Manner,
    asked: Option<CapLine<'_>>,
    conn: u64,
    line: &[u8],
    out: &mut Batch,
) -> Result<(), AllocError>
    requires fits { length line.now ≤ max_text }
    ensures { OnOk result (out.new.outs ≡ out.old.outs ++ to_client conn
        (written_to manner.now (option_map asked_now asked.entry) conn line.now)) }
{
    match asked {
        Some(asked) if asked.conn == conn => answer_or_say(manner, &asked, line, out),
        _ => say_text(manner, conn, line, out),
    }
}

/// Answers a line CAP in place of what refuses it, and says any other text.
fn answer_or_say(
    manner: &Manner,
    asked: &CapLine<'_>,
    line: &[u8],
    out: &mut Batch,
) -> Result<(), AllocError>
    requires fits { length line.now ≤ max_text }
    ensures { OnOk result (out.new.outs ≡ out.old.outs
        ++ to_client asked.now.conn (written_or_answered manner.now line.now
        (asked_now asked.now) (refused_told line.now))) }
{
    match refused_told(line) {
        Some(hearer) => answer(&hearer, asked, out),
        None => say_text(manner, asked.conn, line, out),
    }
}

/// Says a text to a client that says nothing of capabilities.
fn say_text(manner: &Manner, conn: u64, line: &[u8], out: &mut Batch) -> Result<(), AllocError>
    requires fits { length line.now ≤ max_text }
    ensures { OnOk result (out.new.outs
        ≡ out.old.outs ++ to_client conn (written_by manner.now line.now)) }
{
    match &manner.motd {
        Some(motd) => tell_or_say(manner.programs, motd, conn, line, out),
        None => say_usually(manner.programs, conn, line, out),
    }
}

/// Tells the message of the day in place of 422, and says any other text.
fn tell_or_say(
    programs: Programs,
    motd: &Motd,
    conn: u64,
    line: &[u8],
    out: &mut Batch,
) -> Result<(), AllocError>
    requires fits { length line.now ≤ max_text }
    ensures { OnOk result (out.new.outs ≡ out.old.outs
        ++ to_client conn (written_with programs (Some motd.now) line.now)) }
{
    match missing_told(line) {
        Some(hearer) => tell(motd, &hearer, conn, out),
        None => say_usually(programs, conn, line, out),
    }
}

/// Says a text as programs expect it, where that is asked for.
fn say_usually(
    programs: Programs,
    conn: u64,
    line: &[u8],
    out: &mut Batch,
) -> Result<(), AllocError>
    requires fits { length line.now ≤ max_text }
    ensures { OnOk result (out.new.outs
        ≡ out.old.outs ++ to_client conn (written_usually programs line.now)) }
{
    match programs {
        Programs::Off => out.put(conn, line),
        Programs::On => say_turned(conn, line, out),
    }
}

/// Says a text as programs expect it.
fn say_turned(conn: u64, line: &[u8], out: &mut Batch) -> Result<(), AllocError>
    requires fits { length line.now ≤ max_text }
    ensures { OnOk result (out.new.outs
        ≡ out.old.outs ++ to_client conn (written line.now (turned line.now))) }
{
    match turn(line) {
        Turned::AsItIs => out.put(conn, line),
        Turned::Instead(other) => out.put(conn, other.as_slice()),
        Turned::Behind(more) => {
            out.put(conn, line)?;
            out.put(conn, more.as_slice())
        }
    }
}
