//! The end of a link, and what it has put out that the other end may not have read.
ghost use Rattle.std.specs.Prelude.{◌≡◌, ◌++◌, ◌≤◌, length, IfOk, OnOk};
ghost use Rattle.std.specs.Option.{option_copied};
ghost use Rattle.irc_line.specs.Limits.{max_text};
ghost use Rattle.irc_line.specs.Reading.{read_of};
ghost use Rattle.irc_crossing.specs.Asking.{asked};
ghost use Rattle.irc_crossing.specs.Hearing.{given};
ghost use Rattle.irc_crossing.specs.Raising.{raises};
ghost use Rattle.irc_layer.specs.Asking.{asked_of};
ghost use Rattle.irc_layer.specs.Away.{has_no_place};
ghost use Rattle.irc_layer.specs.Ends.{end_hearing, heard_by, is_full, is_plain, met_if, new_end};
ghost use Rattle.irc_layer.specs.Ends.{with_log_after};
ghost use Rattle.irc_layer.specs.Putting.{behind_line, behind_own, behind_piece, body, count_at};
ghost use Rattle.irc_layer.specs.Putting.{count_before, count_out, is_echo, is_kill_read, is_squit};
ghost use Rattle.irc_layer.specs.Putting.{is_unknown, is_unspoken, line_out, own_out};
ghost use Rattle.irc_layer.specs.Putting.{piece_out, with_begun, with_count_out};

use crate::asking::asked_by;
use crate::away::tells_away;
use irc_batch::{Batch, CloseReason};
use irc_crossing::{Given, Log, brings_nobody};
use irc_line::{Line, parse};
use irc_link_end::{LinkEnd, Offer, WayOut, with_words};
use irc_link_words::is_command;
use irc_names::{ChannelName, ServerName, same};
use irc_pieces::{Count, Heard, Mark, count_text};
use std::alloc::{AllocError, Global};

/// How many changes a log holds (our own choice): more than are on their way between two daemons,
/// by the room that kernels and outboxes have. So a peer that never counts costs no more.
const MOST_CHANGES: usize = 1_048_576;

/// One end of a link.
#[derive(Drop)]
pub(crate) struct End {
    pub link: LinkEnd,
    /// How many lines are still to come of the piece that it is putting out.
    pub left: u64,
    /// What it has put out, and the other end had not read when it wrote last.
    pub log: Log,
}

/// Why a server puts something out.
#[derive(Clone, Copy, Drop)]
pub(crate) struct Cause {
    /// The link by which the line came that it handles, if it handles one.
    pub arrival: Option<u64>,
    /// What the lines say beside themselves that it puts out on links.
    pub mark: Option<Mark>,
    /// Whether a channel begins by that line, if one does by a line that does not say so.
    pub begins: bool,
}

/// The layer itself puts it out, or the server by an event that is no line of a link.
pub(crate) const BY_ITSELF: Cause = Cause {
    arrival: None,
    mark: None,
    begins: false,
};

/// On which link a line goes, and how many lines a piece has that begins with it.
#[derive(Clone, Copy, Drop)]
pub(crate) struct PieceOn {
    pub link: u64,
    pub lines: u64,
}

impl End {
    /// That of a link that begins: of a server that calls the one of this name, which may be known
    /// to refuse words, or is called.
    pub fn new(alloc: Global, name: Option<&ServerName>, plain: &[ServerName]) -> Self
        ensures { result ≡ new_end (option_copied name.entry) plain.now }
    {
        let link = match name {
            Some(name) if is_plain(plain, name) => LinkEnd::calling(alloc, None),
            Some(_) => LinkEnd::calling(alloc, Some(Offer::Away)),
            None => LinkEnd::called(alloc),
        };
        End {
            link,
            left: 0,
            log: Log::new(alloc),
        }
    }

    /// Takes a line that has come: what of it is for the server. Where the log is full still, it
    /// was due to say what it has read; one that the link has no place for is none of its lines.
    ///
    /// # Errors
    /// Where memory runs out.
    pub fn hear(&mut self, line: Line) -> Result<Heard, AllocError>
        ensures heard { IfOk result (λ heard. heard ≡ heard_by line.items self.old) }
        ensures after { OnOk result (self.new ≡ end_hearing line.items self.old) }
    {
        let has_no_place = self.has_no_place(line.as_slice());
        let heard = self.link.hear(line)?;
        self.log.count(self.link.taken());
        if self.is_full() {
            return Ok(Heard::Fault(CloseReason::Order));
        }
        if has_no_place {
            return Ok(Heard::Fault(CloseReason::Parameters));
        }
        Ok(heard)
    }

    /// Whether a line tells who is away, where the two ends have not both offered to tell it.
    fn has_no_place(&self, line: &[u8]) -> bool
        ensures { result ≡ has_no_place line.now self.now.link }
    {
        !self.link.tells_away() && tells_away(line)
    }

    /// Whether the other end has said too little of what it has read.
    fn is_full(&self) -> bool
        ensures { result ≡ is_full self.now }
    {
        self.log.len() >= MOST_CHANGES
    }

    /// What the server is given for a line; `peer` is the server at the other end, and `is_held` is
    /// whether what the line brings is there already.
    ///
    /// # Errors
    /// Where memory runs out.
    pub fn give(&mut self, line: &[u8], peer: &[u8], is_held: bool) -> Result<Given, AllocError>
        ensures given { IfOk result
            (λ became. became ≡ given self.old.log peer.now is_held line.now) }
        ensures after { OnOk result (self.new ≡ with_log_after line.now self.old) }
    {
        self.log.hear(line, peer, is_held)
    }

    /// Whether a line raises something where nobody of the other side may be left; see
    /// [`Log::raises`].
    pub fn raises(&self, line: &[u8]) -> bool
        ensures { result ≡ raises self.now.log line.now }
    {
        self.log.raises(line)
    }

    /// The channel that the other end is asked to tell of upon a line; see [`Log::asked`].
    pub fn asks(&self, line: &[u8], peer: &[u8], is_held: bool) -> Option<ChannelName>
        ensures { result ≡ asked self.now.log peer.now is_held line.now }
    {
        self.log.asked(line, peer, is_held)
    }

    /// The channel that the other end asks of by a line, where both ends count pieces.
    pub fn asked(&self, line: &[u8]) -> Option<ChannelName>
        ensures { result ≡ asked_of line.now self.now }
    {
        if self.link.is_met() && self.link.counts() {
            asked_by(line)
        } else {
            None
        }
    }

    /// The other end has named itself, if it has.
    pub fn meet_if(&mut self, is_met: bool)
        ensures { self.new ≡ met_if is_met self.old }
    {
        if is_met {
            self.link.meet();
        }
    }

    /// Puts out a line on this link, with which a piece of so many lines begins if none has begun;
    /// one that the link has no place for is left out.
    ///
    /// # Errors
    /// Where memory runs out.
    pub fn put_line(
        &mut self,
        cause: Cause,
        to: PieceOn,
        line: &[u8],
        out: &mut Batch,
    ) -> Result<(), AllocError>
        requires fits { length line.now ≤ max_text }
        ensures outs { OnOk result
            (out.new.outs ≡ out.old.outs ++ line_out cause to.link to.lines line.now self.old) }
        ensures after { OnOk result
            (self.new ≡ behind_line cause to.link to.lines line.now self.old) }
    {
        if self.has_no_place(body(line)) {
            return Ok(());
        }
        self.put_own(cause, to, line, out)
    }

    /// Puts out a line that the link has a place for.
    fn put_own(
        &mut self,
        cause: Cause,
        to: PieceOn,
        line: &[u8],
        out: &mut Batch,
    ) -> Result<(), AllocError>
        requires fits { length line.now ≤ max_text }
        ensures outs { OnOk result
            (out.new.outs ≡ out.old.outs ++ own_out cause to.link to.lines line.now self.old) }
        ensures after { OnOk result
            (self.new ≡ behind_own cause to.link to.lines line.now self.old) }
    {
        match self.link.put_out_line() {
            WayOut::Plain if is_unspoken(cause, body(line)) => Ok(()),
            WayOut::Plain => out.put_on(to.link, line),
            WayOut::WithWords(offer) => {
                out.put_on(to.link, with_words(offer, body(line)).as_slice())
            }
            WayOut::InPiece if is_echo(cause, to.link, body(line)) => Ok(()),
            WayOut::InPiece => self.put_piece(cause, to, line, out),
        }
    }

    /// Puts out a line of a piece.
    fn put_piece(
        &mut self,
        cause: Cause,
        to: PieceOn,
        line: &[u8],
        out: &mut Batch,
    ) -> Result<(), AllocError>
        requires fits { length line.now ≤ max_text }
        ensures outs { OnOk result (out.new.outs
            ≡ out.old.outs ++ piece_out cause.mark to.link to.lines line.now self.old) }
        ensures after { OnOk result
            (self.new ≡ behind_piece cause.begins to.lines line.now self.old) }
    {
        self.begin(cause.mark, to, out)?;
        self.left = self.left.saturating_sub(1);
        if !self.is_full() {
            self.log
                .put_out(self.link.sent(), body(line), cause.begins)?;
        }
        out.put_on(to.link, line)
    }

    /// A piece begins, unless one has begun.
    fn begin(&mut self, mark: Option<Mark>, to: PieceOn, out: &mut Batch) -> Result<(), AllocError>
        ensures outs { OnOk result
            (out.new.outs ≡ out.old.outs ++ count_before mark to.link to.lines self.old) }
        ensures after { OnOk result (self.new ≡ with_begun to.lines self.old) }
    {
        if self.left > 0 {
            return Ok(());
        }
        self.left = to.lines;
        let count = self.link.put_out_piece(to.lines, mark);
        put_count(to.link, count, out)
    }

    /// Puts out the count alone, where so much was read that it is to go.
    ///
    /// # Errors
    /// Where memory runs out.
    pub fn tell_count(&mut self, link: u64, out: &mut Batch) -> Result<(), AllocError>
        ensures outs { OnOk result
            (out.new.outs ≡ out.old.outs ++ count_at link (Some self.old)) }
        ensures after { OnOk result (self.new ≡ with_count_out self.old) }
    {
        let count = self.link.put_out_count();
        put_count(link, count, out)
    }
}

/// Puts out what stands in front of a piece, if anything does.
fn put_count(link: u64, count: Option<Count>, out: &mut Batch) -> Result<(), AllocError>
    ensures { OnOk result (out.new.outs ≡ out.old.outs ++ count_out link count) }
{
    match count {
        Some(count) => out.put_on(link, count_text(count).as_slice()),
        None => Ok(()),
    }
}

/// Whether a server is one of those that are known to refuse words.
fn is_plain(plain: &[ServerName], name: &ServerName) -> bool
    ensures { result ≡ is_plain plain.now name.now }
{
    plain
        .iter()
        .any(|one| same(one.as_bytes(), name.as_bytes()))
}

/// A line without its CR LF.
pub(crate) fn body(line: &[u8]) -> &[u8]
    ensures { result.now ≡ body line.now }
{
    &line[..line.len().saturating_sub(2)]
}

/// Whether a line is a KILL on the link by which the line came that is being done.
fn is_echo(cause: Cause, link: u64, line: &[u8]) -> bool
    ensures { result ≡ is_echo cause link line.now }
{
    match cause.arrival {
        Some(came) if came == link => is_kill(line),
        _ => false,
    }
}

/// Whether a line tells that a server is lost.
pub(crate) fn is_squit(line: &[u8]) -> bool
    ensures { result ≡ is_squit line.now }
{
    match parse(line) {
        Ok(message) => is_command(b"SQUIT", message.command),
        Err(_) => false,
    }
}

fn is_kill(line: &[u8]) -> bool
    ensures { result ≡ is_kill_read (read_of line.now) }
{
    match parse(line) {
        Ok(message) => is_command(b"KILL", message.command),
        Err(_) => false,
    }
}

/// Whether a line is one that a link without counts has no place for.
fn is_unspoken(cause: Cause, line: &[u8]) -> bool
    ensures { result ≡ is_unspoken cause line.now }
{
    cause.mark.is_some() && is_unknown(line)
}

fn is_unknown(line: &[u8]) -> bool
    ensures { result ≡ is_unknown (read_of line.now) }
{
    match parse(line) {
        Ok(message) => is_command(b"KICK", message.command) || brings_nobody(&message),
        Err(_) => false,
    }
}
