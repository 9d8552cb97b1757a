//! A round, and the turn at hand.
ghost use Rattle.std.specs.Prelude.{◌≡◌};

use irc_moments::Moment;

/// The number of the first turn: at turn 0 somebody was told something last to whom nothing was
/// said yet. That is long ago, since it is beyond the patience of a write (`PATIENCE_TURNS` of
/// waiting.rt).
const FIRST_TURN: u64 = 64;

/// Whether more waits for a socket than may before whoever adds to it is held back.
#[derive(Clone, Copy, Drop)]
pub enum TooMuch {
    /// It does not.
    No,
    /// It does, for a client whose socket takes nothing.
    OfClient,
    /// It does, for a link.
    OfLink,
}

/// A round: each socket that was ready as it began is reported once. And the turn at hand: what was
/// reported last, and what has come of it.
#[derive(Drop)]
pub struct Round {
    /// When it began.
    pub began: Moment,
    /// How many sockets are left to be reported.
    pub left: usize,
    /// Whether nobody had come as it began: then those who are served have only more of the same to
    /// say.
    pub is_quiet: bool,
    /// How often anybody has come so far, or had something new to say.
    pub visits: u64,
    /// Which turn this is.
    pub turn: u64,
    /// Who is read in it.
    pub reader: Option<usize>,
    /// Whether that is a link.
    pub reads_link: bool,
    /// Whether another turn follows soon, so that writes may wait for it.
    pub may_wait: bool,
    /// How many bytes its reader was answered.
    pub answered: usize,
    /// How many it has put out to others.
    pub shown: usize,
    /// A client other than its reader, for which much waits by this turn, and whose socket is full.
    pub filled: Option<usize>,
    /// A link other than its reader, for which more waits by this turn, and more than may.
    pub grown: Option<usize>,
    /// Whether bytes may wait though nothing is in their way: then no wait is due.
    pub has_more: bool,
}

impl Round {
    ghost use Rattle.irc_turns.specs.Rounds.{no_round, round_begun, turn_begun, wait_more};
    ghost use Rattle.irc_turns.specs.Rounds.{read_by, too_much_noted};
    ghost use Rattle.irc_turns.specs.Rounds.{more_noted, is_round_over, one_reported};
    ghost use Rattle.irc_turns.specs.Rounds.{next_turn_noted};

    /// No round, at a moment.
    pub fn new(now: Moment) -> Self
        ensures { result ≡ no_round now }
    {
        Round {
            began: now,
            left: 0,
            is_quiet: false,
            visits: 0,
            turn: FIRST_TURN,
            reader: None,
            reads_link: false,
            may_wait: false,
            answered: 0,
            shown: 0,
            filled: None,
            grown: None,
            has_more: false,
        }
    }

    /// A round begins, with so many sockets to be reported. Somebody has come, or nobody has.
    pub fn begin(&mut self, now: Moment, left: usize, has_come: bool)
        ensures { self.new ≡ round_begun self.old now left has_come }
    {
        self.began = now;
        self.left = left;
        self.is_quiet = !has_come;
        if has_come {
            self.visits = self.visits.wrapping_add(1);
        }
    }

    /// A turn begins.
    pub fn begin_turn(&mut self)
        ensures { self.new ≡ turn_begun self.old }
    {
        self.turn = self.turn.saturating_add(1);
        self.reader = None;
        self.reads_link = false;
        self.answered = 0;
        self.shown = 0;
        self.filled = None;
        self.grown = None;
        self.has_more = false;
    }

    /// Somebody is read in this turn: a client, or a link.
    pub fn note_reader(&mut self, number: usize, is_client: bool)
        ensures { self.new ≡ read_by self.old number is_client }
    {
        self.reader = Some(number);
        self.reads_link = !is_client;
    }

    /// So many bytes more wait for a socket than before this turn, which may be too much.
    pub fn note_write(&mut self, number: usize, more: usize, too_much: TooMuch)
        ensures { self.new ≡ wait_more self.old number more too_much }
    {
        if self.reader == Some(number) {
            self.answered = self.answered.saturating_add(more);
            return;
        }
        self.shown = self.shown.saturating_add(more);
        if more > 0 {
            self.note_too_much(number, too_much);
        }
    }

    fn note_too_much(&mut self, number: usize, too_much: TooMuch)
        ensures { self.new ≡ too_much_noted self.old number too_much }
    {
        match too_much {
            TooMuch::No => {}
            TooMuch::OfClient => self.filled = Some(number),
            TooMuch::OfLink => self.grown = Some(number),
        }
    }

    /// Bytes may wait though nothing is in their way, or they do not.
    pub fn note_more(&mut self, has_more: bool)
        ensures { self.new ≡ more_noted self.old has_more }
    {
        self.has_more |= has_more;
    }

    /// Whether all that were ready as it began are reported, and nobody waits at a door.
    pub fn is_over(&self, has_arrivals: bool) -> bool
        ensures { result ≡ is_round_over self.now has_arrivals }
    {
        self.left == 0 && !has_arrivals
    }

    /// One of those that were ready is reported.
    pub fn report_one(&mut self)
        ensures { self.new ≡ one_reported self.old }
    {
        self.left = self.left.saturating_sub(1);
    }

    /// Takes in whether another turn follows soon: of this round, or of the next one, where nobody
    /// has come for whom that would be late.
    pub fn note_next_turn(&mut self, has_arrivals: bool, is_waiting: bool)
        ensures { self.new ≡ next_turn_noted self.old has_arrivals is_waiting }
    {
        self.may_wait = self.left > 0 || has_arrivals || (self.is_quiet && is_waiting);
    }
}
