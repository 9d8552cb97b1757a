//! One end of a link, from its first line on.
ghost use Rattle.std.specs.Prelude.{◌≡◌, ◌≤◌, length, IfOk, OnOk};
ghost use Rattle.irc_pieces.specs.Tallies.{count_alone, count_for, unread};
ghost use Rattle.irc_link_end.specs.LinkEnds.{after_count_out, after_first, after_hearing};
ghost use Rattle.irc_link_end.specs.LinkEnds.{after_line_out, after_piece_out, alone, answers};
ghost use Rattle.irc_link_end.specs.LinkEnds.{called, calling, counts, heard_at, heard_first, met};
ghost use Rattle.irc_link_end.specs.LinkEnds.{tells_away, way_out};
ghost use Rattle.irc_link_end.specs.Offers.{offers_away};

use crate::greeting::{Greeting, WayOut};
use crate::offer::{Offer, offer_in, without_words};
use irc_line::Line;
use irc_pieces::{Count, Heard, Mark, Piece, PieceEnd};
use std::alloc::{AllocError, Global};
use std::marker::Model;

/// One end of a link.
#[derive(Drop)]
pub struct LinkEnd {
    /// Whether this end called.
    calls: bool,
    /// What its PASS offers.
    offers: Option<Offer>,
    /// What the other end's has offered.
    offered: Option<Offer>,
    greeting: Greeting,
    /// Whether the other end has named itself.
    is_met: bool,
    pieces: PieceEnd,
    alloc: Global,
}

impl Model for LinkEnd {
    ghost use Rattle.irc_link_end.specs.LinkEnds.{EndOfLink};

    ghost Value = { EndOfLink };

    ghost view = { λ end. record {
      calls = end.calls;
      offers = end.offers;
      offered = end.offered;
      greeting = end.greeting;
      is_met = end.is_met;
      pieces = end.pieces;
    } };
}

impl LinkEnd {
    /// That of a server that calls another: what it offers, or nothing to one that is known to
    /// refuse words.
    pub fn calling(alloc: Global, offers: Option<Offer>) -> Self
        ensures { result ≡ calling offers }
    {
        LinkEnd {
            calls: true,
            offers,
            offered: None,
            greeting: Greeting::Nothing,
            is_met: false,
            pieces: PieceEnd::new(alloc),
            alloc,
        }
    }

    /// That of a server that is called.
    pub fn called(alloc: Global) -> Self
        ensures { result ≡ called }
    {
        LinkEnd {
            calls: false,
            ..LinkEnd::calling(alloc, None)
        }
    }

    /// Whether both ends count pieces.
    pub fn counts(&self) -> bool
        ensures { result ≡ counts self.now }
    {
        self.offers.is_some() && self.offered.is_some()
    }

    /// Whether lines of this link tell who is away: both ends have offered it.
    pub fn tells_away(&self) -> bool
        ensures { result ≡ tells_away self.now }
    {
        offers_away(self.offers) && offers_away(self.offered)
    }

    /// How many pieces of this end the other one had not read when it wrote its last count.
    pub fn unread(&self) -> u64
        ensures { result ≡ unread self.now.pieces.counts }
    {
        self.pieces.unread()
    }

    /// How many pieces this end has put out.
    pub fn sent(&self) -> u64
        ensures { result ≡ self.now.pieces.counts.sent }
    {
        self.pieces.counts().sent
    }

    /// How many of these the other end has said to have read.
    pub fn taken(&self) -> u64
        ensures { result ≡ self.now.pieces.counts.taken }
    {
        self.pieces.counts().taken
    }

    /// Whether the other end has named itself.
    pub fn is_met(&self) -> bool
        ensures { result ≡ self.now.is_met }
    {
        self.is_met
    }

    /// The other end has named itself.
    pub fn meet(&mut self)
        ensures { self.new ≡ met self.old }
    {
        self.is_met = true;
    }

    /// Takes a line that has come, without its CR LF: what of it is for the server.
    ///
    /// # Errors
    /// Where memory runs out.
    pub fn hear(&mut self, line: Line) -> Result<Heard, AllocError>
        ensures heard { IfOk result (λ heard. heard ≡ heard_at line.items self.old) }
        ensures after { OnOk result (self.new ≡ after_hearing line.items self.old) }
    {
        if !self.is_met {
            self.hear_first(line)
        } else if self.counts() {
            self.pieces.hear(line)
        } else {
            self.pass(line)
        }
    }

    /// Takes a line with which a link begins.
    fn hear_first(&mut self, line: Line) -> Result<Heard, AllocError>
        ensures heard { IfOk result (λ heard. heard ≡ heard_first line.items self.old) }
        ensures after { OnOk result (self.new ≡ after_first line.items self.old) }
    {
        match offer_in(&line) {
            Some(offer) if self.offers.is_some() || !self.calls => {
                let rest = copied(without_words(offer, &line));
                self.answer(offer);
                self.pass(rest)
            }
            _ => self.pass(line),
        }
    }

    /// The other end's PASS offers something: an end that was called offers just that.
    fn answer(&mut self, offer: Offer)
        ensures { self.new ≡ answers offer self.old }
    {
        if !self.calls {
            self.offers = Some(offer);
        }
        self.offered = Some(offer);
    }

    /// A line is for the server as it is.
    fn pass(&self, line: Line) -> Result<Heard, AllocError>
        ensures { IfOk result (λ heard. heard ≡ alone line.items) }
    {
        let mut lines = Vec::new(self.alloc);
        match lines.push(line) {
            Ok(()) => Ok(Heard::Piece(Piece { lines, mark: None })),
            Err(_) => Err(AllocError),
        }
    }

    /// How the next line of this end's server goes out: its first is PASS, and the second SERVER
    /// (RFC 2813 section 4.1).
    pub fn put_out_line(&mut self) -> WayOut
        ensures way { result ≡ way_out self.old }
        ensures after { self.new ≡ after_line_out self.old }
    {
        let way = match (self.greeting, self.offers) {
            (Greeting::Nothing, Some(offer)) => WayOut::WithWords(offer),
            (Greeting::Whole, _) if self.counts() => WayOut::InPiece,
            _ => WayOut::Plain,
        };
        self.greeting = match self.greeting {
            Greeting::Nothing => Greeting::Password,
            _ => Greeting::Whole,
        };
        way
    }

    /// A piece of so many lines is put out: what is to stand in front of it, if anything is.
    pub fn put_out_piece(&mut self, lines: u64, mark: Option<Mark>) -> Option<Count>
        ensures count { result ≡ count_for lines mark self.old.pieces.counts }
        ensures after { self.new ≡ after_piece_out self.old }
    {
        self.pieces.put_out(lines, mark)
    }

    /// The count alone, where so much was read and not told that it is to be.
    pub fn put_out_count(&mut self) -> Option<Count>
        ensures count { result ≡ count_alone self.old.pieces.counts }
        ensures after { self.new ≡ after_count_out self.old }
    {
        self.pieces.put_out_alone()
    }
}

/// Whether it is offered to tell who is away.
fn offers_away(offer: Option<Offer>) -> bool
    ensures { result ≡ offers_away offer }
{
    matches!(offer, Some(Offer::Away))
}

/// A line of these bytes, which are a part of one.
fn copied(bytes: &[u8]) -> Line
    requires { length bytes.now ≤ 510 }
    ensures { result.items ≡ bytes.now }
{
    let mut line = Line::new();
    let _ = line.try_extend_from_slice(bytes);
    line
}
