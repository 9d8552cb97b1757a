//! How many pieces one end of a link has put out, and how many it has read.
ghost use Rattle.std.specs.Prelude.{◌≡◌, if◌then◌else◌};
ghost use Rattle.irc_pieces.specs.Tallies.{all_told, count_alone, count_for, count_now, is_due};
ghost use Rattle.irc_pieces.specs.Tallies.{is_possible, none_counted, one_read, put_one_out};
ghost use Rattle.irc_pieces.specs.Tallies.{unread};

use crate::count::{Count, Mark};

/// So many pieces that were read are told at the latest, where this end has nothing to say.
const MOST_UNTOLD: u64 = 64;

/// So are pieces of so many bytes.
const MOST_UNTOLD_BYTES: u64 = 65_536;

/// How many pieces one end of a link has put out and read, since both have named themselves.
#[derive(Clone, Copy, Drop)]
pub struct Counts {
    /// Pieces that this end has put out.
    pub sent: u64,
    /// How many of these the other end has said to have read.
    pub taken: u64,
    /// Pieces of the other end that this one has read.
    pub read: u64,
    /// How many of these this end has said to have read.
    pub told: u64,
    /// How many bytes the others of these have.
    pub untold_bytes: u64,
}

impl Counts {
    /// Those of a link that begins.
    pub fn new() -> Self
        ensures { result ≡ none_counted }
    {
        Counts {
            sent: 0,
            taken: 0,
            read: 0,
            told: 0,
            untold_bytes: 0,
        }
    }

    /// Whether the other end may have read so many pieces: no more than were put out, and no fewer
    /// than before.
    pub fn is_possible(&self, read: u64) -> bool
        ensures { result ≡ is_possible self.now read }
    {
        self.taken <= read && read <= self.sent
    }

    /// How many pieces the other end had not read when it wrote its last count.
    pub fn unread(&self) -> u64
        ensures { result ≡ unread self.now }
    {
        self.sent.saturating_sub(self.taken)
    }

    /// The other end says that it has read so many pieces.
    pub fn take(&mut self, read: u64)
        ensures { self.new ≡ record self.old { taken = read } }
    {
        self.taken = read;
    }

    /// A piece of so many bytes was read.
    pub fn read_one(&mut self, bytes: u64)
        ensures { self.new ≡ one_read bytes self.old }
    {
        self.read = self.read.saturating_add(1);
        self.untold_bytes = self.untold_bytes.saturating_add(bytes);
    }

    /// A piece of so many lines is put out: what is to stand in front of it. Nothing is where all
    /// that was read is told, and the piece is one line and says no more.
    pub fn put_out(&mut self, lines: u64, mark: Option<Mark>) -> Option<Count>
        ensures count { result ≡ count_for lines mark self.old }
        ensures counted { self.new ≡ put_one_out self.old }
    {
        let is_plain = self.told == self.read && lines == 1 && mark.is_none();
        self.sent = self.sent.saturating_add(1);
        let count = self.tell(lines, mark);
        (!is_plain).then_some(count)
    }

    /// The count alone, where so much was read and not told that it is to be.
    pub fn put_out_alone(&mut self) -> Option<Count>
        ensures count { result ≡ count_alone self.old }
        ensures counted { self.new ≡ (if is_due self.old then all_told self.old else self.old) }
    {
        if self.is_due() {
            Some(self.tell(0, None))
        } else {
            None
        }
    }

    /// Whether so much was read and not told that it is to be.
    fn is_due(&self) -> bool
        ensures { result ≡ is_due self.now }
    {
        self.read.saturating_sub(self.told) >= MOST_UNTOLD || self.untold_bytes >= MOST_UNTOLD_BYTES
    }

    /// All that was read is told.
    fn tell(&mut self, lines: u64, mark: Option<Mark>) -> Count
        ensures count { result ≡ count_now lines mark self.old }
        ensures told { self.new ≡ all_told self.old }
    {
        self.told = self.read;
        self.untold_bytes = 0;
        Count {
            read: self.read,
            lines,
            mark,
        }
    }
}
