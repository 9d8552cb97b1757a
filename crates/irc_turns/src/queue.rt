//! Numbers in a queue, each once.
ghost use Rattle.std.specs.Prelude.{◌≡◌, ◌≤◌, ◌<◌, ◌++◌, [], length, drop, nat_eq, OnOk};
ghost use Rattle.std.specs.Option.{option_to_list};
ghost use Rattle.irc_turns.specs.Queues.{stands_in, is_marked, queued_behind, queue_without};
ghost use Rattle.irc_turns.specs.Queues.{turned_queue, is_first, queued_as};
ghost use Rattle.irc_brakes.specs.Reading.{is_read_beside};

use std::alloc::{AllocError, Global};
use std::collections::VecDeque;
use std::marker::Model;

/// Numbers in a queue, each once. Room is made ahead, so that whoever has room is queued without
/// memory.
#[derive(Drop)]
pub(crate) struct Queue {
    order: VecDeque<usize, Global>,
    /// Whether each number below the room stands in it.
    marks: Vec<bool, Global>,
}

impl Model for Queue {
    ghost use Rattle.std.specs.Prelude.{length};
    ghost use Rattle.irc_turns.specs.Queues.{Queued, IsMarked};

    ghost Value = { Queued };

    ghost view = { λ queue. record {
      numbers = queue.order.items;
      room = length queue.marks.items;
    } };

    ghost invariant = { λ queue. IsMarked queue.order queue.marks.items };
}

impl Queue {
    /// No numbers, and no room for any.
    pub fn new(alloc: Global) -> Self
        ensures numbers { result.numbers ≡ [] }
        ensures room { result.room ≡ 0 }
    {
        Queue {
            order: VecDeque::new(alloc),
            marks: Vec::new(alloc),
        }
    }

    /// How many stand in it.
    pub fn len(&self) -> usize
        ensures { result ≡ length self.now.numbers }
    {
        self.order.len()
    }

    /// Whether a number stands in it.
    pub fn contains(&self, number: usize) -> bool
        ensures { result ≡ stands_in number self.now.numbers }
    {
        is_marked(&self.marks, number)
    }

    /// Whether a number is first.
    pub fn is_first(&self, number: usize) -> bool
        ensures { result ≡ is_first number self.now.numbers }
    {
        match self.order.front() {
            Some(first) => *first == number,
            None => false,
        }
    }

    /// Whether no other stands in it.
    pub fn is_beside(&self, number: usize) -> bool
        ensures { result ≡ is_read_beside nat_eq self.now.numbers number }
    {
        // each stands in it once
        self.order.is_empty() || (self.len() == 1 && self.is_first(number))
    }

    /// A number stands in it from now on, or does not.
    pub fn set(&mut self, number: usize, is_in: bool)
        requires { number < self.old.room }
        ensures numbers { self.new.numbers ≡ queued_as is_in number self.old.numbers }
        ensures room { self.new.room ≡ self.old.room }
    {
        if is_in {
            self.push(number);
        } else {
            self.remove(number);
        }
    }

    /// Makes room for each number below this one.
    ///
    /// # Errors
    /// Where memory runs out.
    pub fn make_room(&mut self, room: usize) -> Result<(), AllocError>
        ensures numbers { self.new.numbers ≡ self.old.numbers }
        ensures room { OnOk result (room ≤ self.new.room) }
        ensures kept { self.old.room ≤ self.new.room }
    {
        if room > self.marks.len() {
            self.order.reserve(room.saturating_sub(self.order.len()))?;
            self.marks.resize(room, false)?;
        }
        Ok(())
    }

    /// A number stands behind the others, if it does not stand among them.
    pub fn push(&mut self, number: usize)
        requires { number < self.old.room }
        ensures numbers { self.new.numbers ≡ queued_behind number self.old.numbers }
        ensures room { self.new.room ≡ self.old.room }
    {
        if !self.contains(number) {
            self.marks[number] = true;
            self.order.push_back_reserved(number);
        }
    }

    /// The first leaves, if there is one.
    pub fn pop(&mut self) -> Option<usize>
        ensures numbers { self.old.numbers ≡ option_to_list result ++ self.new.numbers }
        ensures rest { self.new.numbers ≡ drop 1 self.old.numbers }
        ensures room { self.new.room ≡ self.old.room }
    {
        let number = self.order.pop_front()?;
        self.marks[number] = false;
        Some(number)
    }

    /// A number leaves, wherever it stands.
    pub fn remove(&mut self, number: usize)
        ensures numbers { self.new.numbers ≡ queue_without number self.old.numbers }
        ensures room { self.new.room ≡ self.old.room }
    {
        if self.contains(number) {
            self.marks[number] = false;
            self.order.retain(|queued| *queued != number);
        }
    }

    /// So many who are first stand behind the others, where there are more.
    pub fn turn(&mut self, count: usize)
        ensures numbers { self.new.numbers ≡ turned_queue count self.old.numbers }
        ensures room { self.new.room ≡ self.old.room }
    {
        if count < self.order.len() {
            self.order.rotate_left(count);
        }
    }
}

/// Whether a number has a mark that is set.
fn is_marked(marks: &[bool], number: usize) -> bool
    ensures { result ≡ is_marked marks.now number }
{
    match marks.get(number) {
        Some(mark) => *mark,
        None => false,
    }
}
