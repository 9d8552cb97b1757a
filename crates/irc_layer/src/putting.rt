//! What a server has put out is put out by its layer.
ghost use Rattle.std.specs.Prelude.{◌≡◌, ◌++◌, ◌∷◌, ◌+◌, ◌<◌, ◌≤◌, [], drop, length, IfOk, OnOk};
ghost use Rattle.irc_line.specs.Limits.{max_text};
ghost use Rattle.std.specs.Option.{option_copied};
ghost use Rattle.irc_batch.specs.Batches.{line_to, sent_of, IsText};
ghost use Rattle.irc_layer.specs.Ends.{change_end, end_at, with_end};
ghost use Rattle.irc_layer.specs.Putting.{all_put, behind_line, ends_behind, ends_behind_all};
ghost use Rattle.irc_layer.specs.Putting.{line_put, next_on, one_put, piece_lines, squits_ahead};
ghost use Rattle.irc_layer.specs.Putting.{with_next};
ghost use Rattle.irc_layer.specs.Loops.Rests.{rest_of, IsAtHand};

use crate::end::{Cause, End, PieceOn, body, is_squit};
use irc_batch::{Batch, Out};
use irc_pieces::MOST_LINES;
use std::alloc::{AllocError, Global};
use std::collections::BTreeMap;

/// The ends of links, by their numbers.
pub(crate) type Ends = BTreeMap<u64, End, Global>;

/// Puts out all that a server has put out. Where no link is there nothing is looked at or copied.
///
/// # Errors
/// Where memory runs out.
pub(crate) fn put_all(
    ends: &mut Ends,
    cause: Cause,
    held: &mut Batch,
    out: &mut Batch,
) -> Result<(), AllocError>
    ensures outs { OnOk result
        (out.new.outs ≡ out.old.outs ++ all_put cause held.old.outs (end_at ends.old)) }
    ensures ends { OnOk result
        (end_at ends.new ≡ ends_behind_all cause held.old.outs (end_at ends.old)) }
{
    if ends.is_empty() {
        return out.append(held);
    }
    put_each(ends, cause, held, out)
}

/// Puts out one thing after another.
fn put_each(ends: &mut Ends, cause: Cause, held: &Batch, out: &mut Batch) -> Result<(), AllocError>
    ensures outs { OnOk result
        (out.new.outs ≡ out.old.outs ++ all_put cause held.now.outs (end_at ends.old)) }
    ensures ends { OnOk result
        (end_at ends.new ≡ ends_behind_all cause held.now.outs (end_at ends.old)) }
{
    let mut at_hand = None;
    for place in 0..held.len() {
        at_hand = put_at(ends, cause, Rest { held, place }, at_hand, out)?;
    }
    Ok(())
}

/// Puts out what stands at a place. `at_hand` is a line of a client that the batch has at hand, if
/// there is one; so is what is answered. A line that goes to many clients lies there once.
fn put_at<'a>(
    ends: &mut Ends,
    cause: Cause,
    at: Rest<'a>,
    at_hand: Option<&[u8]>,
    out: &mut Batch,
) -> Result<Option<&'a [u8]>, AllocError>
    requires there { at.place < length at.held.now.outs }
    requires hand { IsAtHand (option_copied at_hand) out.old.held }
    ensures outs { OnOk result (out.new.outs
        ++ all_put cause (drop (at.entry.place + 1) at.entry.held.now.outs) (end_at ends.new)
        ≡ out.old.outs ++ all_put cause (rest_of at.entry) (end_at ends.old)) }
    ensures ends { OnOk result
        (ends_behind_all cause (drop (at.entry.place + 1) at.entry.held.now.outs)
        (end_at ends.new) ≡ ends_behind_all cause (rest_of at.entry) (end_at ends.old)) }
    ensures hand { IfOk result (λ line. IsAtHand (option_copied line) out.new.held) }
{
    let behind = place_behind(at.held, at.place);
    match at.held.get(at.place) {
        Some(Out::Line(conn, line)) => {
            put_to(conn, line, at_hand, out)?;
            Ok(Some(line))
        }
        Some(sent) => {
            let rest = Rest {
                held: at.held,
                place: behind,
            };
            put_one(ends, cause, sent, rest, out)?;
            Ok(None)
        }
        None => Ok(None),
    }
}

/// Puts out a line to a client, which may be at hand.
fn put_to(conn: u64, line: &[u8], at_hand: Option<&[u8]>, out: &mut Batch) -> Result<(), AllocError>
    requires fits { length line.now ≤ max_text }
    requires hand { IsAtHand (option_copied at_hand) out.old.held }
    ensures outs { OnOk result (out.new.outs ≡ out.old.outs ++ line_to conn line.now ∷ []) }
    ensures hand { OnOk result (out.new.held ≡ line.now) }
{
    match at_hand {
        Some(other) if other == line => out.send(conn),
        _ => out.put(conn, line),
    }
}

/// The place behind one.
fn place_behind(held: &Batch, place: usize) -> usize
    requires there { place < length held.now.outs }
    ensures { result ≡ place + 1 }
{
    place.saturating_add(1).min(held.len())
}

/// What is put out from a place on.
#[derive(Clone, Copy)]
struct Rest<'a> {
    held: &'a Batch,
    place: usize,
}

/// Puts out one thing, behind which this is put out.
fn put_one(
    ends: &mut Ends,
    cause: Cause,
    sent: Out<'_>,
    rest: Rest<'_>,
    out: &mut Batch,
) -> Result<(), AllocError>
    requires fits { IsText (sent_of sent) }
    ensures outs { OnOk result (out.new.outs
        ≡ out.old.outs ++ one_put cause (sent_of sent.entry) (rest_of rest.entry)
        (end_at ends.old)) }
    ensures ends { OnOk result (end_at ends.new
        ≡ ends_behind cause (sent_of sent.entry) (rest_of rest.entry) (end_at ends.old)) }
{
    match sent {
        Out::Line(conn, line) => out.put(conn, line),
        Out::Close(conn) => out.close(conn),
        Out::LinkLine(link, line) => {
            let lines = piece_lines(link, line, rest);
            put_line(ends, cause, PieceOn { link, lines }, line, out)
        }
        Out::LinkClose(link, reason) => {
            end(ends, link);
            out.close_link(link, reason)
        }
    }
}

/// Puts out a line on a link.
fn put_line(
    ends: &mut Ends,
    cause: Cause,
    to: PieceOn,
    line: &[u8],
    out: &mut Batch,
) -> Result<(), AllocError>
    requires fits { length line.now ≤ max_text }
    ensures outs { OnOk result (out.new.outs ≡ out.old.outs
        ++ line_put cause to.link to.lines line.now (end_at ends.old to.link)) }
    ensures ends { OnOk result (end_at ends.new
        ≡ change_end to.link (behind_line cause to.link to.lines line.now) (end_at ends.old)) }
{
    match ends.get_mut(&to.link) {
        Some(end) => end.put_line(cause, to, line, out),
        None => out.put_on(to.link, line),
    }
}

/// How many lines a piece has that begins with this one.
fn piece_lines(link: u64, line: &[u8], rest: Rest<'_>) -> u64
    ensures { result ≡ piece_lines link line.now (rest_of rest.entry) }
{
    if is_squit(body(line)) {
        MOST_LINES.min(squits_ahead(link, rest.held, rest.place).saturating_add(1))
    } else {
        1
    }
}

/// How many of the next lines on a link, from a place on, tell that more servers are lost.
fn squits_ahead(link: u64, held: &Batch, from: usize) -> u64
    ensures { result ≡ squits_ahead link (drop from held.now.outs) }
{
    let mut count = 0;
    for place in from..held.len() {
        match next_at(link, held, place) {
            NextLine::Elsewhere => {}
            NextLine::Squit => count += 1,
            NextLine::Another => return count,
        }
    }
    count
}

/// What something that is put out is for a link.
#[derive(Clone, Copy)]
enum NextLine {
    /// None of its lines.
    Elsewhere,
    /// A line that tells that a server is lost.
    Squit,
    /// Another line.
    Another,
}

/// What stands at a place is for a link.
fn next_at(link: u64, held: &Batch, place: usize) -> NextLine
    requires there { place < length held.now.outs }
    ensures { squits_ahead link (drop place held.now.outs)
        ≡ with_next result (squits_ahead link (drop (place + 1) held.now.outs)) }
{
    match held.get(place) {
        Some(out) => next_on(link, out),
        None => NextLine::Elsewhere,
    }
}

fn next_on(link: u64, out: Out<'_>) -> NextLine
    ensures { result ≡ next_on link (sent_of out.entry) }
{
    match out {
        Out::LinkLine(other, line) if other == link => {
            if is_squit(body(line)) {
                NextLine::Squit
            } else {
                NextLine::Another
            }
        }
        _ => NextLine::Elsewhere,
    }
}

/// A link has no end any more.
pub(crate) fn end(ends: &mut Ends, link: u64)
    ensures { end_at ends.new ≡ with_end link None (end_at ends.old) }
{
    ends.remove(&link);
}

/// A link has this end from now on.
///
/// # Errors
/// Where memory runs out.
pub(crate) fn begin(ends: &mut Ends, link: u64, end: End) -> Result<(), AllocError>
    ensures { OnOk result (end_at ends.new ≡ with_end link (Some end) (end_at ends.old)) }
{
    let Ok(_before) = ends.insert(link, end) else {
        return Err(AllocError);
    };
    Ok(())
}
