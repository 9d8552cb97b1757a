//! One that talks to the server, a client or a link, as its turns go. Its socket is not known here,
//! but what the system tells of it.
ghost use Rattle.std.specs.Prelude.{◌≡◌, ◌≤◌, length};

use crate::allowance::{Allowance, LinesPace};
use crate::marks::Marks;
use crate::pace::Pace;
use crate::rest::{Rest, front_of};
use crate::round::TooMuch;
use crate::waiting::WaitingWrite;
use irc_moments::Moment;
use std::alloc::Global;

/// For how many milliseconds a link may neither take anything of what waits nor say anything.
const LONGEST_SILENCE_MS: u64 = 30_000;

/// A link that was held back for a client is not again before so many milliseconds are over.
const HELD_ONCE_IN_MS: u64 = 1_000;

/// What tells a talker from each other: numbers are used again.
#[derive(Clone, Copy, Drop)]
pub struct TalkerMark {
    pub number: usize,
    pub serial: u64,
}

/// To whose outboxes somebody has added in a turn, so that it is to wait for them.
#[derive(Clone, Copy, Drop)]
pub(crate) struct AddedTo {
    /// A client's, whose socket is full.
    pub client: Option<TalkerMark>,
    /// A link's, for which more than may wait does.
    pub link: Option<TalkerMark>,
}

/// What the system tells of a socket.
#[derive(Clone, Copy, Drop)]
pub struct Readiness {
    /// Bytes may be there to read.
    pub is_readable: bool,
    /// No more bytes come behind those that are there.
    pub is_over: bool,
    /// It takes bytes, or has failed, which the next write shows.
    pub has_room: bool,
}

/// What comes of a read that begins.
#[derive(Clone, Copy, Drop)]
pub enum Reading {
    /// So many bytes that were left of the last read are given.
    Given(usize),
    /// The system is to be asked, and so many lines of what it gives are for this turn.
    Anew(usize),
}

/// A client or a link, as its turns go.
#[derive(Drop)]
pub struct Talker {
    /// Whether it is a client, and no link.
    pub is_client: bool,
    /// How many there were when it came.
    pub serial: u64,
    /// Whether there may be bytes to read, or the end of them.
    pub is_readable: bool,
    /// Whether a link was met: the server at its other end is known. What waited then holds nobody
    /// back.
    pub is_named: bool,
    /// Whether its next read and its next write are to fail.
    pub is_given_up: bool,
    /// Whether its socket takes no bytes for now. The system tells when it does again.
    pub is_full: bool,
    /// Whether the last write took less than it was given.
    is_behind: bool,
    /// Whether the system has told that no more bytes will come behind those that are there: it
    /// tells that once.
    is_ending: bool,
    /// Whether it is held back.
    pub is_held: bool,
    /// Whether it was, and was not asked since.
    pub was_held: bool,
    /// Whether the system may have more of it than was read.
    may_have_more: bool,
    /// What was read and is left.
    rest: Rest,
    pace: Pace,
    pub(crate) waiting: WaitingWrite,
    /// Whether a link was met, and nothing was written to it since.
    is_just_met: bool,
    /// How much of what waits for a link was put out as it was met.
    spared: usize,
    /// Since when it has said nothing, and taken nothing of what waits.
    silent_since: Moment,
    /// Until when a link is not held back for a client again.
    free_until: Moment,
    /// A client whose outbox it has filled in its last turn.
    pub(crate) fills: Option<TalkerMark>,
    /// A link for which more than may wait did behind its last turn, in which it grew.
    pub(crate) grows: Option<TalkerMark>,
    /// How much it may say by time. Of a link nobody looks at it.
    allowance: Allowance,
}

impl Talker {
    ghost use Rattle.irc_turns.specs.Talking.{new_talker, told_so, takes_again, is_asked};
    ghost use Rattle.irc_turns.specs.Talking.{may_take_more, is_stuck, turn_over, held_back};
    ghost use Rattle.irc_turns.specs.Talking.{held_no_more, BeginsRead, IsWithin, IsTurnFront};
    ghost use Rattle.irc_turns.specs.Talking.{Keeps, none_read, read_over, is_put_off, has_taken};
    ghost use Rattle.irc_turns.specs.Talking.{took_none, written, named, given_up, load};
    ghost use Rattle.irc_turns.specs.Talking.{is_over_soft, is_over_hard, may_be_held};
    ghost use Rattle.irc_turns.specs.Talking.{may_be_eased};
    ghost use Rattle.irc_turns.specs.Talking.{is_over, wants_signal, signalled, too_much_for};
    ghost use Rattle.irc_turns.specs.Talking.{lines_allowed, has_said};

    /// One that has come at this moment, and of which the system has told nothing yet. A client
    /// keeps to this pace, if there is one.
    pub fn new(
        alloc: Global,
        is_client: bool,
        serial: u64,
        now: Moment,
        lines_pace: Option<LinesPace>,
    ) -> Self
        ensures { result ≡ new_talker is_client serial now lines_pace }
    {
        Talker {
            is_client,
            serial,
            is_readable: false,
            is_named: false,
            is_given_up: false,
            is_full: false,
            is_behind: false,
            is_ending: false,
            is_held: false,
            was_held: false,
            may_have_more: false,
            rest: Rest::new(alloc),
            pace: Pace::new(),
            waiting: WaitingWrite::new(),
            is_just_met: false,
            spared: 0,
            silent_since: now,
            free_until: Moment::of(0),
            fills: None,
            grows: None,
            allowance: Allowance::new(lines_pace, now),
        }
    }

    /// Takes in what the system tells at this moment, and whether its socket takes bytes again.
    pub fn note(&mut self, told: Readiness, now: Moment) -> bool
        ensures again { result ≡ takes_again self.old told }
        ensures told { self.new ≡ told_so self.old told now }
    {
        if told.is_readable || told.is_over {
            self.silent_since = now;
        }
        let has_room = self.is_full && told.has_room;
        self.is_ending |= told.is_over;
        // kept until the next read, also where the next turn is given what is left of the last
        self.may_have_more |= told.is_readable || told.is_over;
        self.is_readable |= self.may_have_more;
        self.is_full = self.is_full && !has_room;
        has_room
    }

    /// Whether it has something to say and is to be asked for it. Who is held back is not, nor a
    /// client that has not taken its answers yet; whose read is to fail is in any case.
    /// A link is asked though much waits for it: two that wait for one another would do so for
    /// good.
    pub fn is_asked(&self) -> bool
        ensures { result ≡ is_asked self.now }
    {
        let is_kept = self.is_held || (self.is_client && self.is_behind);
        self.is_given_up || (self.is_readable && !is_kept)
    }

    /// Whether it would be asked, and may be held back: a client, or a link that was met.
    pub fn may_be_held(&self) -> bool
        ensures { result ≡ may_be_held self.now }
    {
        self.is_asked() && !self.is_given_up && (self.is_client || self.is_named)
    }

    /// Whether it may be held back for a client at this moment: who was let go is asked first, and
    /// a link is held back once in a while alone.
    pub fn may_be_eased(&self, now: Moment) -> bool
        ensures { result ≡ may_be_eased self.now now }
    {
        !self.was_held && (self.is_client || !now.is_before(self.free_until))
    }

    /// How much waits for a link that was met, but for what is left of what waited at the first
    /// write to it since: a burst, which the write of the turn in which it was met may not have
    /// been given.
    fn load(&self) -> usize
        ensures { result ≡ load self.now }
    {
        if self.is_client || !self.is_named || self.is_just_met {
            0
        } else {
            self.waiting.bytes.saturating_sub(self.spared)
        }
    }

    /// Whether more waits for a link than may before who adds to it is held back.
    pub fn is_over_soft(&self, marks: Marks) -> bool
        ensures { result ≡ is_over_soft marks self.now }
    {
        self.load() > marks.soft
    }

    /// Whether more waits for a link than may before nobody else is read.
    pub fn is_over_hard(&self, marks: Marks) -> bool
        ensures { result ≡ is_over_hard marks self.now }
    {
        self.load() > marks.hard
    }

    /// The link is met: the server at its other end is known. A burst that waits holds nobody back.
    pub fn name(&mut self)
        ensures { self.new ≡ named self.old }
    {
        self.is_named = true;
        self.is_just_met = true;
    }

    /// Its next read and its next write fail.
    pub fn give_up(&mut self)
        ensures { self.new ≡ given_up self.old }
    {
        self.is_given_up = true;
    }

    /// Whether its writes fail at this moment: it is given up; or it is a link for which something
    /// waits, of which it took none for so long, while it said nothing, and nothing that it said is
    /// yet to be read.
    pub fn is_over(&self, now: Moment) -> bool
        ensures { result ≡ is_over now self.now }
    {
        let is_silent = now.since(self.silent_since) >= LONGEST_SILENCE_MS;
        let takes_none = self.waiting.is_some() && is_silent && !self.is_readable;
        self.is_given_up || (!self.is_client && takes_none)
    }

    /// Whether the other end might take it for gone: a link that is not read, and for which nothing
    /// waits.
    pub fn wants_signal(&self) -> bool
        ensures { result ≡ wants_signal self.now }
    {
        self.is_held && !self.is_client && !self.waiting.is_some()
    }

    /// A signal of so many bytes was given, of which it took so many. What is left of it could not
    /// be told from what comes behind it.
    pub fn end_signal(&mut self, taken: usize, given: usize)
        ensures { self.new ≡ signalled taken given self.old }
    {
        if 0 < taken && taken < given {
            self.is_given_up = true;
        }
    }

    /// Whether bytes may wait though nothing keeps its socket from taking them. The system has
    /// nothing to tell of it then.
    pub fn may_take_more(&self) -> bool
        ensures { result ≡ may_take_more self.now }
    {
        !self.is_full && self.waiting.is_some()
    }

    /// Whether it is a client whose socket takes nothing, and for which so much waits that whoever
    /// adds to it is held back: a client, or a link.
    pub fn is_stuck(&self, marks: Marks, by_link: bool) -> bool
        ensures { result ≡ is_stuck marks by_link self.now }
    {
        let is_much = if by_link {
            self.waiting.bytes > marks.client
        } else {
            self.waiting.is_much()
        };
        self.is_client && self.is_full && is_much
    }

    /// Whether too much waits for it, where a client, or a link, adds to it.
    pub fn too_much(&self, marks: Marks, by_link: bool) -> TooMuch
        ensures { result ≡ too_much_for marks by_link self.now }
    {
        if self.is_stuck(marks, by_link) {
            TooMuch::OfClient
        } else if self.is_over_soft(marks) {
            TooMuch::OfLink
        } else {
            TooMuch::No
        }
    }

    /// How many lines it may begin at this moment, where clients keep to this pace, or to none: any
    /// number, where it is a link.
    pub fn allowed(&self, lines_pace: Option<LinesPace>, now: Moment) -> usize
        ensures { result ≡ lines_allowed lines_pace now self.now }
    {
        match lines_pace {
            Some(lines_pace) if self.is_client => self.allowance.allowed(lines_pace, now),
            _ => usize::MAX,
        }
    }

    /// It has said these bytes at this moment.
    pub fn spend(&mut self, lines_pace: Option<LinesPace>, given: &[u8], now: Moment)
        ensures { self.new ≡ has_said lines_pace now given.now self.old }
    {
        if let Some(lines_pace) = lines_pace
            && self.is_client
        {
            self.allowance.spend(lines_pace, given, now);
        }
    }

    /// A read begins, where somebody has come so often so far: what was left of the last one is
    /// given, or the system is to be asked. So many lines are for this turn at most, and one in any
    /// case.
    pub fn begin_read(&mut self, buffer: &mut [u8], visits: u64, most: usize) -> Reading
        ensures begun { BeginsRead visits most self.old buffer.old result self.new buffer.new }
        ensures within { IsWithin result (length buffer.old) }
    {
        let lines = self.pace.lines(visits).min(most);
        if self.rest.is_empty() {
            Reading::Anew(lines)
        } else {
            Reading::Given(self.rest.give(buffer, lines))
        }
    }

    /// The system gave bytes, which filled the buffer or did not. Keeps what is behind so many
    /// lines of a client for its next turn, and tells how many bytes are for this one. Where there
    /// is no memory, all are.
    pub fn keep(&mut self, read: &[u8], is_whole: bool, lines: usize) -> usize
        ensures kept { Keeps lines read.now is_whole self.old result self.new }
        ensures within { result ≤ length read.now }
    {
        self.may_have_more = self.is_ending || is_whole;
        let front = self.turn_front(read, lines);
        if self.rest.keep(&read[front..]).is_ok() {
            front
        } else {
            read.len()
        }
    }

    /// How many of the bytes that were read are for this turn.
    fn turn_front(&self, read: &[u8], lines: usize) -> usize
        ensures front { IsTurnFront self.now.is_client lines read.now result }
        ensures within { result ≤ length read.now }
    {
        if self.is_client {
            front_of(read, lines)
        } else {
            read.len()
        }
    }

    /// The system gave no bytes, and may have some.
    pub fn keep_none(&mut self, may_have: bool)
        ensures { self.new ≡ none_read may_have self.old }
    {
        self.may_have_more = may_have;
    }

    /// A read is over. It is readable where something is left then.
    pub fn end_read(&mut self)
        ensures { self.new ≡ read_over self.old }
    {
        let is_left = self.may_have_more || !self.rest.is_empty();
        self.is_readable |= is_left;
        if !is_left {
            self.pace.rest();
        }
    }

    /// A turn is over in which it was read, was answered so many bytes, and had so many put out to
    /// others; and has added to these outboxes of a client and of a link, or to none.
    pub(crate) fn end_turn(&mut self, answered: usize, shown: usize, added: AddedTo)
        ensures { self.new ≡ turn_over self.old answered shown added }
    {
        if !self.rest.is_empty() {
            self.pace.note(answered, shown);
        }
        self.fills = added.client;
        self.grows = added.link;
    }

    /// It is held back from this moment on, for a client or for another reason, and begins anew
    /// then.
    pub fn hold(&mut self, for_client: bool, now: Moment)
        ensures { self.new ≡ held_back for_client now self.old }
    {
        self.is_held = true;
        self.pace.rest();
        if for_client {
            self.free_until = now.later(HELD_ONCE_IN_MS);
        }
    }

    /// It is held back no more.
    pub fn let_go(&mut self)
        ensures { self.new ≡ held_no_more self.old }
    {
        self.was_held = self.is_held;
        self.is_held = false;
    }

    /// Whether a write waits, where so many bytes do in all: its socket is full, or another turn
    /// follows soon.
    pub fn is_put_off(&self, turn: u64, all: usize, may_wait: bool) -> bool
        ensures { result ≡ is_put_off self.now turn all may_wait }
    {
        let is_gathered = may_wait && !self.is_behind && self.waiting.is_put_off(turn, all);
        self.is_full || is_gathered
    }

    /// Its socket took so many of so many bytes. One that took less than all is full.
    pub fn take(&mut self, taken: usize, given: usize)
        ensures { self.new ≡ has_taken taken given self.old }
    {
        self.is_full = taken < given;
        self.is_behind = self.is_full;
    }

    /// Its socket took none: it does not for now, or it was interrupted, or has failed.
    pub fn take_none(&mut self, is_blocked: bool)
        ensures { self.new ≡ took_none is_blocked self.old }
    {
        self.is_behind = true;
        self.is_full |= is_blocked;
    }

    /// A write of so many bytes in all is over, in this turn of a round that began at this moment.
    /// It took so many of them, or failed.
    pub fn end_write(&mut self, turn: u64, now: Moment, all: usize, taken: Option<usize>)
        ensures { self.new ≡ written turn now all taken self.old }
    {
        if let Some(taken) = taken {
            if taken > 0 || !self.waiting.is_some() {
                self.silent_since = now;
            }
            let spared = if self.is_just_met { all } else { self.spared };
            self.spared = spared.saturating_sub(taken);
            self.is_just_met = false;
            self.waiting.note(turn, all, all.saturating_sub(taken));
        }
    }
}
