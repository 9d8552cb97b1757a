//! The pipes from one server.
ghost use Rattle.std.specs.Prelude.{◌≡◌, ◌≤◌, length, IfOk, OnOk};
ghost use Rattle.std.specs.FinMap.{empty, remove};
ghost use Rattle.irc_line.specs.Limits.{max_line};
ghost use Rattle.irc_stage.specs.Loops.Numbered.{numbered};
ghost use Rattle.irc_pipes.specs.Pipes.{IsLean, Yields, are_still_in, come_by, first_in, has_byte};
ghost use Rattle.irc_pipes.specs.Pipes.{is_still, new_pipe, put_in, through_line_feed, pipe_in};
ghost use Rattle.irc_pipes.specs.Pipes.{written};
ghost use Rattle.irc_pipes.specs.Loops.Rows.{advanced_in, without_still, written_in};

use crate::pipe::LinkPipe;
use irc_line::Line;
use std::alloc::{AllocError, Global};
use std::collections::BTreeMap;
use std::marker::Model;

/// The pipes from one server, under the places of the servers that they go to. None that is still
/// is kept.
#[derive(Drop)]
pub(crate) struct PipeRow {
    pipes: BTreeMap<u64, LinkPipe, Global>,
}

/// In a clause it is a map of pipes.
impl Model for PipeRow {
    ghost use Rattle.std.specs.Coded.{coded_ℕ};
    ghost use Rattle.std.specs.FinMap.{FinMap, code};
    ghost use Rattle.std.specs.Ordering.{nat_cmp};
    ghost use Rattle.irc_stage.specs.Loops.Numbered.{numbered};
    ghost use Rattle.irc_pipes.specs.Pipes.{IsLean, LinkPipe};
    ghost use Rattle.irc_pipes.specs.contracts.pipe.LinkPipe.{the_row as pipe_row};

    ghost Value = { FinMap nat_cmp LinkPipe };

    ghost coded = { code coded_ℕ pipe_row.coded };

    ghost view = { λ row. numbered row.pipes };

    ghost invariant = { λ row. IsLean (numbered row.pipes) };
}

impl PipeRow {
    /// That of a server that has written nothing.
    pub(crate) fn new(alloc: Global) -> Self
        ensures { result ≡ empty }
    {
        PipeRow {
            pipes: BTreeMap::new(alloc),
        }
    }

    /// Says what each row keeps, and does nothing: no pipe that is still.
    pub(crate) fn is_lean(&self)
        ensures { IsLean self.now }
    {
        let _pipes = &self.pipes;
    }

    /// A line without its CR LF is written to this place, along a new pipe where none is there.
    ///
    /// # Errors
    /// Where memory runs out.
    pub(crate) fn write(&mut self, alloc: Global, to: u64, line: &[u8]) -> Result<(), AllocError>
        requires fits { length line.now ≤ max_line }
        ensures { OnOk result (self.new ≡ written_in to line.now self.old) }
    {
        match self.pipes.get_mut(&to) {
            Some(pipe) => pipe.write(line),
            None => self.write_first(alloc, to, line),
        }
    }

    /// A line is written along a new pipe to this place.
    fn write_first(&mut self, alloc: Global, to: u64, line: &[u8]) -> Result<(), AllocError>
        requires fits { length line.now ≤ max_line }
        ensures { OnOk result (self.new ≡ put_in to (written line.now new_pipe) self.old) }
    {
        let mut pipe = LinkPipe::new(alloc);
        pipe.write(line)?;
        match self.pipes.insert(to, pipe) {
            Ok(_) => Ok(()),
            Err(_) => Err(AllocError),
        }
    }

    /// So many bytes come to this place, or all that are on their way where there are fewer, and
    /// each line that they complete is put behind the others.
    /// The number is how many have come.
    ///
    /// # Errors
    /// Where memory runs out.
    pub(crate) fn take(
        &mut self,
        to: u64,
        count: usize,
        lines: &mut Vec<Line, Global>,
    ) -> Result<usize, AllocError>
        ensures taken { IfOk result (λ taken. taken ≡ come_by count (pipe_in to self.old)) }
        ensures lines { OnOk result (Yields count (pipe_in to self.old) lines.old lines.new) }
        ensures row { OnOk result (self.new ≡ advanced_in to count self.old) }
    {
        let Some(pipe) = self.pipes.get_mut(&to) else {
            return Ok(0);
        };
        let taken = pipe.take(count, lines);
        without_still(&mut self.pipes, to);
        taken
    }

    /// How many bytes are on their way to this place up to and with the next LF; none where no byte
    /// is.
    pub(crate) fn through_line_feed(&self, to: u64) -> usize
        ensures { result ≡ through_line_feed (pipe_in to self.now).bytes }
    {
        match self.pipes.get(&to) {
            Some(pipe) => pipe.through_line_feed(),
            None => 0,
        }
    }

    /// Nothing is on its way to this place any more, and its framer begins anew.
    pub(crate) fn close(&mut self, to: u64)
        ensures { self.new ≡ remove self.old to }
    {
        self.pipes.remove(&to);
    }

    /// Whether nothing is on its way, and no part of a line has come anywhere.
    pub(crate) fn is_still(&self) -> bool
        ensures { result ≡ are_still_in self.now }
    {
        self.pipes.is_empty()
    }

    /// Where the first byte that is on its way goes, in order of places.
    pub(crate) fn first(&self) -> Option<u64>
        ensures { result ≡ first_in self.now }
    {
        for to in self.pipes.keys() {
            if self.has_byte_to(*to) {
                return Some(*to);
            }
        }
        None
    }

    /// Whether a byte is on its way to this place.
    fn has_byte_to(&self, to: u64) -> bool
        ensures { result ≡ has_byte (pipe_in to self.now) }
    {
        match self.pipes.get(&to) {
            Some(pipe) => pipe.has_byte(),
            None => false,
        }
    }
}

/// The pipe to this place goes where it is still.
fn without_still(pipes: &mut BTreeMap<u64, LinkPipe, Global>, to: u64)
    ensures { numbered pipes.new ≡ without_still to (numbered pipes.old) }
{
    if is_still_to(pipes, to) {
        pipes.remove(&to);
    }
}

/// Whether nothing is on its way to this place, and no part of a line has come there.
fn is_still_to(pipes: &BTreeMap<u64, LinkPipe, Global>, to: u64) -> bool
    ensures { result ≡ is_still (pipe_in to (numbered pipes.now)) }
{
    match pipes.get(&to) {
        Some(pipe) => pipe.is_still(),
        None => true,
    }
}
