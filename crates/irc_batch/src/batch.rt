//! A batch: lines to connections and on links, and ends of these, in order.
ghost use Rattle.std.specs.Prelude.{◌≡◌, ◌≤◌, ◌<◌, ◌+◌, Some, [], ◌∷◌, ◌++◌, drop, length, take};
ghost use Rattle.std.specs.Prelude.{OnErr, OnOk};
ghost use Rattle.std.specs.Option.{option_map};
ghost use Rattle.std.specs.List.{slice_get};
ghost use Rattle.irc_line.specs.Limits.{max_text};
ghost use Rattle.irc_batch.specs.Batches.{end_of, end_of_link, line_on, line_to, nothing, put_line};
ghost use Rattle.irc_batch.specs.Batches.{put_out, put_out_all, sent_of, to_others, IsText};
ghost use Rattle.irc_batch.specs.Growing.{Grew};
ghost use Rattle.irc_batch.specs.Loops.Marks.{bytes_at, IsSpan};
ghost use Rattle.irc_batch.specs.declared.batch.Out.{Out as AnOut};

use crate::close_reason::CloseReason;
use std::alloc::{AllocError, Global};
use std::marker::Model;
use std::mem::swap;

/// One thing that is put out.
#[derive(Clone, Copy)]
pub enum Out<'a> {
    /// A line to a connection, with its CR LF (RFC 2812 section 2.3).
    Line(u64, &'a [u8]),
    /// The end of a connection.
    Close(u64),
    /// A line on a link, with its CR LF (RFC 2813 section 3.3).
    LinkLine(u64, &'a [u8]),
    /// The end of a link.
    LinkClose(u64, CloseReason),
}

/// Where a line lies among the bytes of a batch.
#[derive(Clone, Copy)]
struct Span {
    start: usize,
    end: usize,
}

/// What stands for one thing that is put out.
#[derive(Clone, Copy)]
enum OutMark {
    Line(u64, Span),
    Close(u64),
    LinkLine(u64, Span),
    LinkClose(u64, CloseReason),
}

/// Lines to connections and on links, and ends of these, in order. The bytes of all lines lie one
/// behind another, and a line that goes to many lies there once. No line has more than 512 bytes
/// (RFC 2812 section 2.3).
#[derive(Drop)]
pub struct Batch {
    bytes: Vec<u8, Global>,
    /// The line that is at hand.
    held: Span,
    marks: Vec<OutMark, Global>,
}

/// In a clause it is what is put out, and the line that is at hand.
impl Model for Batch {
    ghost use Rattle.std.specs.Prelude.{length, map};
    ghost use Rattle.irc_batch.specs.Batches.{Batch};
    ghost use Rattle.irc_batch.specs.Loops.Marks.{bytes_at, sent_by, Lies};

    ghost Value = { Batch };

    ghost view = { λ b. record {
      outs = map (sent_by b.bytes.items) b.marks.items;
      held = bytes_at b.bytes.items b.held;
    } };

    ghost invariant = { λ b. Lies (length b.bytes.items) b.held b.marks.items };
}

const NOWHERE: Span = Span { start: 0, end: 0 };

/// The bytes of a line that lies among these.
fn bytes_at(bytes: &[u8], span: Span) -> &[u8]
    requires within { IsSpan (length bytes.now) span }
    ensures { result.now ≡ bytes_at bytes.now span }
{
    &bytes[span.start..span.end]
}

/// Notes one thing more that is put out.
fn note(marks: &mut Vec<OutMark, Global>, mark: OutMark) -> Result<(), AllocError>
    ensures ok { OnOk result (marks.new.items ≡ marks.old.items ++ mark ∷ []) }
    ensures refused { OnErr result (marks.new.items ≡ marks.old.items) }
{
    match marks.push(mark) {
        Ok(()) => Ok(()),
        Err(_) => Err(AllocError),
    }
}

impl Batch {
    /// A batch in which there is nothing.
    pub fn new(alloc: Global) -> Self
        ensures { result ≡ nothing }
    {
        Batch {
            bytes: Vec::new(alloc),
            held: NOWHERE,
            marks: Vec::new(alloc),
        }
    }

    /// How many things are put out.
    pub fn len(&self) -> usize
        ensures { result ≡ length self.now.outs }
    {
        self.marks.len()
    }

    /// One of the things that are put out, counted from 0.
    pub fn get(&self, place: usize) -> Option<Out<'_>>
        ensures there { option_map sent_of result ≡ slice_get self.now.outs place }
        ensures fits { (out : AnOut) → result ≡ Some out → IsText (sent_of out) }
    {
        match self.marks.get(place) {
            None => None,
            Some(OutMark::Line(conn, span)) => Some(Out::Line(*conn, bytes_at(&self.bytes, *span))),
            Some(OutMark::Close(conn)) => Some(Out::Close(*conn)),
            Some(OutMark::LinkLine(link, span)) => Some(Out::LinkLine(
                *link,
                bytes_at(&self.bytes, *span),
            )),
            Some(OutMark::LinkClose(link, reason)) => Some(Out::LinkClose(*link, *reason)),
        }
    }

    /// Takes a line of at most 512 bytes to hand, for [`Batch::send`] and [`Batch::send_on`].
    ///
    /// # Errors
    /// Where memory runs out; nothing has changed then.
    pub fn hold(&mut self, line: &[u8]) -> Result<(), AllocError>
        requires fits { length line.now ≤ max_text }
        ensures ok { OnOk result (self.new ≡ record self.old { held = line.now }) }
        ensures refused { OnErr result (self.new ≡ self.old) }
    {
        let start = self.bytes.len();
        self.bytes.extend_from_slice(line)?;
        let end = self.bytes.len();
        self.held = Span { start, end };
        Ok(())
    }

    /// Puts out the line at hand to a connection.
    ///
    /// # Errors
    /// Where memory runs out; nothing has changed then.
    pub fn send(&mut self, conn: u64) -> Result<(), AllocError>
        ensures ok { OnOk result (self.new ≡ put_out (line_to conn self.old.held) self.old) }
        ensures refused { OnErr result (self.new ≡ self.old) }
    {
        note(&mut self.marks, OutMark::Line(conn, self.held))
    }

    /// Puts out the line at hand on a link.
    ///
    /// # Errors
    /// Where memory runs out; nothing has changed then.
    pub fn send_on(&mut self, link: u64) -> Result<(), AllocError>
        ensures ok { OnOk result (self.new ≡ put_out (line_on link self.old.held) self.old) }
        ensures refused { OnErr result (self.new ≡ self.old) }
    {
        note(&mut self.marks, OutMark::LinkLine(link, self.held))
    }

    /// Puts out the line at hand to each of these connections in turn, but for one.
    ///
    /// # Errors
    /// Where memory runs out; it has been put out to some of them then.
    pub fn send_to_others(&mut self, conns: &[u64], one: Option<u64>) -> Result<(), AllocError>
        ensures ok { OnOk result
            (self.new ≡ put_out_all (to_others self.old.held one conns.now) self.old) }
        ensures grew { Grew self.old.outs self.new.outs }
    {
        for conn in conns {
            self.send_unless(*conn, one)?;
        }
        Ok(())
    }

    /// Puts out the line at hand to a connection, unless it is this one.
    fn send_unless(&mut self, conn: u64, one: Option<u64>) -> Result<(), AllocError>
        ensures ok { OnOk result
            (self.new ≡ put_out_all (to_others self.old.held one (conn ∷ [])) self.old) }
        ensures refused { OnErr result (self.new ≡ self.old) }
    {
        match one {
            Some(number) if number == conn => Ok(()),
            _ => self.send(conn),
        }
    }

    /// Puts out a line of at most 512 bytes to a connection, and takes it to hand.
    ///
    /// # Errors
    /// Where memory runs out; nothing more is put out then.
    pub fn put(&mut self, conn: u64, line: &[u8]) -> Result<(), AllocError>
        requires fits { length line.now ≤ max_text }
        ensures ok { OnOk result (self.new ≡ put_line (line_to conn) line.now self.old) }
        ensures refused { OnErr result (self.new.outs ≡ self.old.outs) }
    {
        self.hold(line)?;
        self.send(conn)
    }

    /// Puts out a line of at most 512 bytes on a link, and takes it to hand.
    ///
    /// # Errors
    /// Where memory runs out; nothing more is put out then.
    pub fn put_on(&mut self, link: u64, line: &[u8]) -> Result<(), AllocError>
        requires fits { length line.now ≤ max_text }
        ensures ok { OnOk result (self.new ≡ put_line (line_on link) line.now self.old) }
        ensures refused { OnErr result (self.new.outs ≡ self.old.outs) }
    {
        self.hold(line)?;
        self.send_on(link)
    }

    /// Puts out the end of a connection.
    ///
    /// # Errors
    /// Where memory runs out; nothing has changed then.
    pub fn close(&mut self, conn: u64) -> Result<(), AllocError>
        ensures ok { OnOk result (self.new ≡ put_out (end_of conn) self.old) }
        ensures refused { OnErr result (self.new ≡ self.old) }
    {
        note(&mut self.marks, OutMark::Close(conn))
    }

    /// Puts out the end of a link.
    ///
    /// # Errors
    /// Where memory runs out; nothing has changed then.
    pub fn close_link(&mut self, link: u64, reason: CloseReason) -> Result<(), AllocError>
        ensures ok { OnOk result (self.new ≡ put_out (end_of_link link reason) self.old) }
        ensures refused { OnErr result (self.new ≡ self.old) }
    {
        note(&mut self.marks, OutMark::LinkClose(link, reason))
    }

    /// Takes out all but the first of the things that are put out, so many at most. The line at
    /// hand stays.
    pub fn truncate(&mut self, count: usize)
        ensures { self.new ≡ record self.old { outs = take count self.old.outs } }
    {
        self.marks.truncate(count);
    }

    /// Puts out what another batch has put out, and takes it out there. Where nothing was put out
    /// here before, nothing is copied.
    ///
    /// # Errors
    /// Where memory runs out; nothing more is put out then.
    pub fn append(&mut self, more: &mut Batch) -> Result<(), AllocError>
        ensures ok { OnOk result (self.new.outs ≡ self.old.outs ++ more.old.outs) }
        ensures refused { OnErr result (self.new.outs ≡ self.old.outs) }
        ensures taken { more.new ≡ nothing }
    {
        let before = self.len();
        if before == 0 {
            swap(self, more);
            more.clear();
            return Ok(());
        }
        let result = self.put_all(more);
        if result.is_err() {
            self.truncate(before);
        }
        more.clear();
        result
    }

    /// Puts out all that another batch has put out.
    fn put_all(&mut self, more: &Batch) -> Result<(), AllocError>
        ensures ok { OnOk result (self.new.outs ≡ self.old.outs ++ more.now.outs) }
        ensures grew { Grew self.old.outs self.new.outs }
    {
        for place in 0..more.len() {
            self.put_at(more, place)?;
        }
        Ok(())
    }

    /// Puts out what another batch has put out at a place.
    fn put_at(&mut self, more: &Batch, place: usize) -> Result<(), AllocError>
        requires there { place < length more.now.outs }
        ensures ok { OnOk result (self.new.outs ++ drop (place + 1) more.now.outs
            ≡ self.old.outs ++ drop place more.now.outs) }
        ensures refused { OnErr result (self.new.outs ≡ self.old.outs) }
        ensures grew { Grew self.old.outs self.new.outs }
    {
        match more.get(place) {
            Some(out) => self.put_one(out),
            None => Ok(()),
        }
    }

    /// Puts out one thing more, as [`Batch::get`] tells it.
    fn put_one(&mut self, out: Out<'_>) -> Result<(), AllocError>
        requires fits { IsText (sent_of out) }
        ensures ok { OnOk result (self.new.outs ≡ self.old.outs ++ sent_of out.entry ∷ []) }
        ensures refused { OnErr result (self.new.outs ≡ self.old.outs) }
    {
        match out {
            Out::Line(conn, line) => self.put(conn, line),
            Out::Close(conn) => self.close(conn),
            Out::LinkLine(link, line) => self.put_on(link, line),
            Out::LinkClose(link, reason) => self.close_link(link, reason),
        }
    }

    /// Takes out everything; its memory is kept for what comes next.
    pub fn clear(&mut self)
        ensures { self.new ≡ nothing }
    {
        self.marks.clear();
        self.held = NOWHERE;
        self.bytes.clear();
    }
}
