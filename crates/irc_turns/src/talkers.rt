//! Those who talk to the server, by their numbers, and which of them are to be reported.
ghost use Rattle.std.specs.Prelude.{◌≡◌, ◌<◌, ℕ, false, length, drop, [], None, IsSome, IfOk};
ghost use Rattle.std.specs.Prelude.{nat_eq, OnOk, OnErr};
ghost use Rattle.std.specs.List.{All};
ghost use Rattle.std.specs.Option.{option_copied_mut};
ghost use Rattle.slab.specs.Slab.{Updates, SameValues};
ghost use Rattle.irc_turns.specs.HeldBack.{held_without, is_for_client};
ghost use Rattle.irc_turns.specs.Rounds.{count_after};
ghost use Rattle.irc_turns.specs.Queues.{queue_without, queued_as, queued_behind, turned_queue};
ghost use Rattle.irc_turns.specs.Talking.{written, told_so, held_back, has_said};
ghost use Rattle.irc_turns.specs.Numbered.{talker_at, SameButQueue, SameLists, IsTalkerAdded, only};
ghost use Rattle.irc_turns.specs.Numbered.{tried_again, queue_told, has_come, queue_asked};
ghost use Rattle.irc_turns.specs.Numbered.{put_off_at, queue_written, round_behind, asked_again};
ghost use Rattle.irc_turns.specs.Numbered.{full_written, SameButQueueAndFull, link_named};
ghost use Rattle.irc_turns.specs.Numbered.{talker_mark, mark_of_one, turn_ended, time_ended};
ghost use Rattle.irc_turns.specs.Numbered.{reason_for, grown_reason, full_reason, filled_reason};
ghost use Rattle.irc_turns.specs.Numbered.{is_grown, is_filled, IsHeldFor, ReportsFirst, LetsGo};
ghost use Rattle.irc_turns.specs.Numbered.{is_due, tried_for, wants_signal_one, LetsGoAt};
ghost use Rattle.irc_turns.specs.Numbered.{lines_allowed_at, paced_reason, is_paced, kept_to};

use crate::allowance::LinesPace;
use crate::holding::{Held, Holding, Reason};
use crate::marks::Marks;
use crate::queue::Queue;
use crate::round::Round;
use crate::talker::{AddedTo, Readiness, Talker, TalkerMark};
use irc_moments::Moment;
use slab::Slab;
use std::alloc::{AllocError, Global};
use std::marker::Model;

/// What is told of one that was in the queue.
#[derive(Clone, Copy, Drop)]
pub enum Report {
    /// It has something to say, and is asked for it.
    Readable(usize),
    /// It is not to be asked now, and may take bytes.
    Writable(usize),
}

/// Those who talk to the server, by their numbers.
#[derive(Drop)]
pub struct Talkers {
    by_number: Slab<Talker>,
    /// The numbers of those that are to be reported. There is room in it for all talkers.
    queue: Queue,
    /// Who is held back.
    holding: Holding,
    /// The links for which far too much waits. There is room in it for all talkers, too.
    full: Queue,
    marks: Marks,
    /// How many talkers there were.
    count: u64,
    /// The pace to which clients keep, if they keep to one.
    pace: Option<LinesPace>,
    alloc: Global,
}

impl Model for Talkers {
    ghost use Rattle.irc_turns.specs.Numbered.{HasRoom, NumberedTalkers};

    ghost Value = { NumberedTalkers };

    ghost view = { λ talkers. record {
      by_number = talkers.by_number;
      queue = talkers.queue.numbers;
      holding = talkers.holding;
      full = talkers.full.numbers;
      marks = talkers.marks;
      count = talkers.count;
      pace = talkers.pace;
    } };

    ghost invariant = { λ talkers. HasRoom talkers.by_number talkers.queue talkers.full };
}

impl Talkers {
    /// Nobody. By these marks much waits for somebody; clients keep to this pace, if there is one.
    pub fn new(alloc: Global, marks: Marks, pace: Option<LinesPace>) -> Self
        ensures talkers { (number : ℕ) → talker_at result number ≡ None }
        ensures queue { result.queue ≡ [] }
        ensures held { result.holding ≡ [] }
        ensures full { result.full ≡ [] }
        ensures marks { result.marks ≡ marks }
        ensures count { result.count ≡ 0 }
        ensures pace { result.pace ≡ pace }
    {
        Talkers {
            by_number: Slab::new(alloc),
            queue: Queue::new(alloc),
            holding: Holding::new(alloc),
            full: Queue::new(alloc),
            marks,
            count: 0,
            pace,
            alloc,
        }
    }

    /// Clients keep to this pace from now on, or to none.
    pub fn keep_to(&mut self, pace: Option<LinesPace>)
        ensures { self.new ≡ kept_to pace self.old }
    {
        self.pace = pace;
    }

    /// How many are to be reported.
    pub fn waiting(&self) -> usize
        ensures { result ≡ length self.now.queue }
    {
        self.queue.len()
    }

    /// Takes a client or a link in that has come at this moment, and gives it a number.
    ///
    /// # Errors
    /// Where memory runs out.
    pub fn add(&mut self, is_client: bool, now: Moment) -> Result<usize, AllocError>
        ensures free { IfOk result (λ number. talker_at self.old number ≡ None) }
        ensures serial { OnOk result (self.new.count ≡ count_after self.old.count) }
        ensures added { IfOk result (IsTalkerAdded is_client now self.old self.new) }
        ensures none { OnErr result (SameValues self.old.by_number self.new.by_number) }
        ensures others { SameLists self.old self.new }
    {
        self.by_number.reserve(1)?;
        self.queue.make_room(self.by_number.capacity())?;
        self.full.make_room(self.by_number.capacity())?;
        self.count = self.count.wrapping_add(1);
        let talker = Talker::new(self.alloc, is_client, self.count, now, self.pace);
        let number = self.by_number.insert_reserved(talker);
        // tells that no number is above the capacity, for which the queue has room
        let _places = self.by_number.capacity();
        Ok(number)
    }

    /// The one under a number.
    pub fn at(&mut self, number: usize) -> Option<&mut Talker>
        ensures { option_copied_mut result ≡ talker_at self.old number }
    {
        self.by_number.get_mut(number)
    }

    /// One is gone. Its number is free again, and stands nowhere any more.
    pub fn remove(&mut self, number: usize)
        ensures removed { Updates self.old.by_number self.new.by_number number None }
        ensures queue { self.new.queue ≡ queue_without number self.old.queue }
        ensures held { self.new.holding ≡ held_without number self.old.holding }
        ensures full { self.new.full ≡ queue_without number self.old.full }
        ensures marks { self.new.marks ≡ self.old.marks }
        ensures count { self.new.count ≡ self.old.count }
        ensures pace { self.new.pace ≡ self.old.pace }
    {
        let _talker = self.by_number.try_remove(number);
        self.queue.remove(number);
        self.holding.remove(number);
        self.full.remove(number);
    }

    /// Takes in what the system tells of a socket at this moment, and whether somebody has come by
    /// it who was not waiting.
    pub fn note(&mut self, number: usize, told: Readiness, now: Moment) -> bool
        ensures come { result ≡ has_come told number now self.old }
        ensures queue { self.new.queue ≡ queue_told told number now self.old }
        ensures others { SameButQueue
            (only (λ talker. told_so talker told now) number self.old) self.new }
    {
        let Some(talker) = self.by_number.get_mut(number) else {
            return false;
        };
        let has_room = talker.note(told, now);
        let is_asked = talker.is_asked();
        let has_come = is_asked && !self.queue.contains(number);
        if has_room || is_asked {
            self.queue_up(number);
        }
        has_come
    }

    /// Puts so many who are first in the queue behind those who came after them: who has just come
    /// does not wait for those who have more to say.
    pub fn put_behind(&mut self, count: usize)
        ensures queue { self.new.queue ≡ turned_queue count self.old.queue }
        ensures others { SameButQueue self.old self.new }
    {
        self.queue.turn(count);
    }

    /// The report of the one that is first in the queue. It leaves the queue: only what is left
    /// after the read that follows puts it back, behind the others, so that nobody who sends
    /// without end keeps them waiting. Of one that is not to be asked now nothing is told but that
    /// it may take bytes.
    pub fn report(&mut self, round: &mut Round) -> Option<Report>
        ensures queue { self.new.queue ≡ drop 1 self.old.queue }
        ensures first { ReportsFirst self.old self.new round.old result round.new }
    {
        let number = self.queue.pop()?;
        self.hold(number, round.began);
        let talker = self.by_number.get_mut(number)?;
        if !talker.is_asked() {
            return Some(Report::Writable(number));
        }
        talker.is_readable = false;
        talker.was_held = false;
        round.note_reader(number, talker.is_client);
        Some(Report::Readable(number))
    }

    /// One of whom something is left, and who is to be asked, is reported again.
    pub fn queue_again(&mut self, number: usize)
        ensures queue { self.new.queue ≡ queue_asked number self.old }
        ensures others { SameButQueue self.old self.new }
    {
        if let Some(talker) = self.by_number.get(number)
            && talker.is_asked()
        {
            self.queue_up(number);
        }
    }

    /// Whether a write to one waits, where so many bytes do in all; none, where there is no such
    /// one, or its writes fail. Who is next to be reported waits for nothing but its socket, so
    /// that there is room for its answers.
    pub fn puts_off(&self, number: usize, all: usize, round: &Round) -> Option<bool>
        ensures { result ≡ put_off_at self.now round.now number all }
    {
        let may_wait = round.may_wait && !self.queue.is_first(number);
        let talker = self.by_number.get(number)?;
        if talker.is_over(round.began) {
            return None;
        }
        Some(talker.is_put_off(round.turn, all, may_wait))
    }

    /// How many lines of one may begin at this moment: any number, where clients keep to no pace,
    /// or it is a link.
    pub fn allowed(&self, number: usize, now: Moment) -> usize
        ensures { result ≡ lines_allowed_at number now self.now }
    {
        match self.by_number.get(number) {
            Some(talker) => talker.allowed(self.pace, now),
            None => usize::MAX,
        }
    }

    /// These bytes of one are given on at this moment, which count by the pace of clients.
    pub fn spend(&mut self, number: usize, given: &[u8], now: Moment)
        ensures { self.new ≡ only (has_said self.old.pace now given.now) number self.old }
    {
        if let Some(talker) = self.by_number.get_mut(number) {
            talker.spend(self.pace, given, now);
        }
    }

    /// A write to one is over, of so many bytes in all. It took so many of them, or failed. One
    /// that has taken its answers is asked again.
    pub fn end_write(&mut self, number: usize, all: usize, taken: Option<usize>, round: &mut Round)
        ensures queue { self.new.queue ≡ queue_written round.old all taken number self.old }
        ensures full { self.new.full ≡ full_written round.old all taken number self.old }
        ensures others { SameButQueueAndFull
            (only (written round.old.turn round.old.began all taken) number self.old) self.new }
        ensures round { round.new ≡ round_behind self.old.marks number all taken round.old
            (talker_at self.old number) }
    {
        let Some(talker) = self.by_number.get_mut(number) else {
            return;
        };
        let more = talker.waiting.more(all);
        talker.end_write(round.turn, round.began, all, taken);
        round.note_write(number, more, talker.too_much(self.marks, round.reads_link));
        // where it failed, what others are told of that was put into their outboxes behind the
        // writes of this turn
        round.note_more(taken.is_none() || talker.may_take_more());
        let is_full = talker.is_over_hard(self.marks);
        if talker.is_asked() {
            self.queue_up(number);
        }
        self.set_full(number, is_full);
    }

    /// Far too much waits for one that is there, or does not. There is room: it was made as it
    /// came.
    fn set_full(&mut self, number: usize, is_full: bool)
        requires { IsSome (talker_at self.old number) }
        ensures { self.new ≡ record self.old { full = queued_as is_full number self.old.full } }
    {
        self.full.set(number, is_full);
    }

    /// A turn is over. Who was read in it may have added to an outbox for which too much waits.
    pub fn end_turn(&mut self, round: &Round)
        ensures { self.new ≡ turn_ended round.now round.now.reader self.old }
    {
        let added = AddedTo {
            client: self.mark_of(round.filled),
            link: self.mark_of(round.grown),
        };
        let Some(reader) = round.reader else {
            return;
        };
        if let Some(talker) = self.by_number.get_mut(reader) {
            talker.end_turn(round.answered, round.shown, added);
        }
    }

    /// What tells somebody from each other talker, if there is one.
    fn mark_of(&self, number: Option<usize>) -> Option<TalkerMark>
        ensures { result ≡ mark_of_one self.now number }
    {
        match number {
            Some(number) => self.mark(number),
            None => None,
        }
    }

    /// Holds one back that would be asked, from this moment on, where there is a reason.
    fn hold(&mut self, number: usize, now: Moment)
        ensures { IsHeldFor (reason_for self.old now number) number now self.old self.new }
    {
        if let Some(reason) = self.reason_for(number, now)
            && self.holding.hold(number, reason, now).is_ok()
        {
            self.hold_one(number, reason, now);
        }
    }

    fn hold_one(&mut self, number: usize, reason: Reason, now: Moment)
        ensures { self.new ≡ only (held_back (is_for_client reason) now) number self.old }
    {
        let for_client = reason.is_for_client();
        if let Some(talker) = self.by_number.get_mut(number) {
            talker.hold(for_client, now);
        }
    }

    /// Why one that would be asked is to wait at this moment, if it is to: first for a link that it
    /// has added to, then for others for which far too much waits, then for a client, then for its
    /// pace.
    fn reason_for(&self, number: usize, now: Moment) -> Option<Reason>
        ensures { result ≡ reason_for self.now now number }
    {
        let talker = self.by_number.get(number)?;
        if !talker.may_be_held() {
            return None;
        }
        let for_link = self.grown(talker.grows).or(self.others_full(number));
        let is_eased = talker.may_be_eased(now);
        let for_others = for_link.or(self.filled(talker.fills, is_eased));
        for_others.or(self.paced(number, now))
    }

    /// That it has said all that it may for now, if it has.
    fn paced(&self, number: usize, now: Moment) -> Option<Reason>
        ensures { result ≡ paced_reason self.now now number }
    {
        self.is_paced(number, now).then_some(Reason::Paced)
    }

    /// Whether it has.
    fn is_paced(&self, number: usize, now: Moment) -> bool
        ensures { result ≡ is_paced self.now now number }
    {
        self.allowed(number, now) == 0
    }

    /// That too much waits for this link, if it does.
    fn grown(&self, mark: Option<TalkerMark>) -> Option<Reason>
        ensures { result ≡ grown_reason self.now mark }
    {
        let mark = mark?;
        self.is_grown(mark).then_some(Reason::Grown(mark))
    }

    /// That far too much waits for others, if it does.
    fn others_full(&self, number: usize) -> Option<Reason>
        ensures { result ≡ full_reason self.now number }
    {
        (!self.full.is_beside(number)).then_some(Reason::OthersFull)
    }

    /// That this client takes nothing, if somebody may wait for it.
    fn filled(&self, mark: Option<TalkerMark>, may_wait: bool) -> Option<Reason>
        ensures { result ≡ filled_reason self.now may_wait mark }
    {
        let mark = mark?;
        (may_wait && self.is_filled(mark)).then_some(Reason::Filled(mark))
    }

    /// Whether too much waits for the link of this mark.
    fn is_grown(&self, mark: TalkerMark) -> bool
        ensures { result ≡ is_grown self.now mark }
    {
        match self.by_number.get(mark.number) {
            Some(talker) => talker.serial == mark.serial && talker.is_over_soft(self.marks),
            None => false,
        }
    }

    /// Whether the client of this mark takes nothing.
    fn is_filled(&self, mark: TalkerMark) -> bool
        ensures { result ≡ is_filled self.now mark }
    {
        match self.by_number.get(mark.number) {
            Some(talker) => talker.serial == mark.serial && talker.is_full,
            None => false,
        }
    }

    /// Lets the one at a place go.
    fn let_one_go(&mut self, place: usize)
        requires { place < length self.old.holding }
        ensures { LetsGoAt place self.old self.new }
    {
        let held = self.holding.let_go(place);
        self.try_for(held.reason);
        self.ask_again(held.who);
    }

    /// Whether one that is held back has no reason to wait any more at this moment.
    fn is_due(&self, held: &Held, now: Moment) -> bool
        ensures { result ≡ is_due now self.now held.now }
    {
        match held.reason {
            Reason::OthersFull => self.full.is_beside(held.who),
            Reason::Grown(mark) => !self.is_grown(mark),
            Reason::Filled(mark) => !(held.may_wait(now) && self.is_filled(mark)),
            Reason::Paced => !self.is_paced(held.who, now),
        }
    }

    /// Lets go whoever has no reason to wait any more at this moment.
    pub fn let_go(&mut self, now: Moment)
        ensures one_by_one { LetsGo now self.old self.new }
        ensures all { All (λ held. is_due now self.old held ≡ false) self.new.holding }
    {
        let mut place = 0;
        while place < self.holding.len() {
            let held = self.holding.at(place);
            if self.is_due(&held, now) {
                self.let_one_go(place);
            } else {
                place += 1;
            }
        }
    }

    /// A client for which somebody has waited is tried again: the system tells only of much room
    /// that it takes bytes.
    fn try_for(&mut self, reason: Reason)
        ensures { self.new ≡ tried_for reason self.old }
    {
        match reason {
            Reason::Filled(mark) => self.try_again(mark.number),
            Reason::OthersFull | Reason::Grown(_) | Reason::Paced => {}
        }
    }

    fn try_again(&mut self, number: usize)
        ensures { self.new ≡ only tried_again number self.old }
    {
        if let Some(talker) = self.by_number.get_mut(number) {
            talker.is_full = false;
        }
    }

    /// One is held back no more.
    fn ask_again(&mut self, number: usize)
        ensures { self.new ≡ asked_again number self.old }
    {
        if let Some(talker) = self.by_number.get_mut(number) {
            talker.let_go();
            if talker.is_asked() {
                self.queue_up(number);
            }
        }
    }

    /// Has one reported that is there, if it is not to be already. There is room: it was made as it
    /// came.
    fn queue_up(&mut self, number: usize)
        requires { IsSome (talker_at self.old number) }
        ensures { self.new ≡ record self.old { queue = queued_behind number self.old.queue } }
    {
        self.queue.push(number);
    }

    /// A link is met: the server at its other end is known.
    pub fn name(&mut self, number: usize)
        ensures { self.new ≡ link_named number self.old }
    {
        if let Some(talker) = self.by_number.get_mut(number) {
            talker.name();
            self.full.remove(number);
        }
    }

    /// What tells a talker from each other, also from one that gets its number later.
    pub fn mark(&self, number: usize) -> Option<TalkerMark>
        ensures { result ≡ talker_mark self.now number }
    {
        let serial = self.by_number.get(number)?.serial;
        Some(TalkerMark { number, serial })
    }

    /// The time of one is over in which it was to name itself: if it has not, its next read fails,
    /// and it is reported.
    pub fn end_time(&mut self, mark: TalkerMark)
        ensures { self.new ≡ time_ended mark self.old }
    {
        let Some(talker) = self.by_number.get_mut(mark.number) else {
            return;
        };
        if talker.serial == mark.serial && !talker.is_named {
            talker.give_up();
            self.queue_up(mark.number);
        }
    }

    /// Whether the one under a number might take this end for gone.
    pub fn wants_signal(&self, number: usize) -> bool
        ensures { result ≡ wants_signal_one (talker_at self.now number) }
    {
        match self.by_number.get(number) {
            Some(talker) => talker.wants_signal(),
            None => false,
        }
    }

    /// Whether nobody is held back.
    pub fn holds_nobody(&self) -> bool
        ensures { result ≡ nat_eq 0 (length self.now.holding) }
    {
        self.holding.is_empty()
    }
}
