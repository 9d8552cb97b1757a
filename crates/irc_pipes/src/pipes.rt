//! What is on its way along all links of a network.
ghost use Rattle.std.specs.Prelude.{◌≡◌, ◌≤◌, length, replicate, IfOk, OnOk};
ghost use Rattle.std.specs.FinMap.{empty};
ghost use Rattle.std.specs.Option.{option_map};
ghost use Rattle.irc_line.specs.Limits.{max_line};
ghost use Rattle.irc_pipes.specs.Pipes.{AreLean, Yields, advanced_at, are_still, come_by};
ghost use Rattle.irc_pipes.specs.Pipes.{first_direction, through_line_feed, pipe_at, without_pipe};
ghost use Rattle.irc_pipes.specs.Pipes.{written_at};
ghost use Rattle.irc_pipes.specs.Loops.Rows.{direction_of};

use crate::row::PipeRow;
use irc_forest::{EndPlaces, ServerPlace};
use irc_line::Line;
use std::alloc::{AllocError, Global};
use std::marker::Model;

/// The pipes of all links of a network, by the places of its servers. None that is still is kept,
/// so equal pipes have one representation.
#[derive(Drop)]
pub struct Pipes {
    alloc: Global,
    /// Those from each server, by its place.
    rows: Vec<PipeRow, Global>,
}

/// In a clause it is the maps of pipes, one for each server.
impl Model for Pipes {
    ghost use Rattle.std.specs.Coded.{coded_list};
    ghost use Rattle.irc_pipes.specs.Pipes.{AreLean, Pipes};
    ghost use Rattle.irc_pipes.specs.contracts.row.PipeRow.{the_row as row_row};

    ghost Value = { Pipes };

    ghost coded = { coded_list row_row.coded };

    ghost view = { λ pipes. pipes.rows.items };

    ghost invariant = { λ pipes. AreLean pipes.rows.items };
}

impl Pipes {
    /// Those of so many servers, along which nothing was written yet.
    ///
    /// # Errors
    /// Where memory runs out.
    pub fn new(alloc: Global, servers: usize) -> Result<Self, AllocError>
        ensures { IfOk result (λ pipes. pipes ≡ replicate servers empty) }
    {
        let mut rows = Vec::new(alloc);
        for _ in 0..servers {
            rows.push(PipeRow::new(alloc))?;
        }
        Ok(Pipes { alloc, rows })
    }

    /// Says what is kept of all pipes, and does nothing: none that is still.
    pub fn are_lean(&self)
        ensures { AreLean self.now }
    {
        let _rows = &self.rows;
    }

    /// A server writes a line without its CR LF to another. Where no server is at the place that it
    /// is from, nothing changes.
    ///
    /// # Errors
    /// Where memory runs out.
    pub fn write(
        &mut self,
        from: ServerPlace,
        to: ServerPlace,
        line: &[u8],
    ) -> Result<(), AllocError>
        requires fits { length line.now ≤ max_line }
        ensures { OnOk result (self.new ≡ written_at from to line.now self.old) }
    {
        let alloc = self.alloc;
        let Some(row) = self.rows.get_mut(from.index()) else {
            return Ok(());
        };
        let done = row.write(alloc, to.link(), line);
        row.is_lean();
        done
    }

    /// So many bytes come from one server to another, or all that are on their way where there are
    /// fewer, and each line that they complete is put behind the others. The number is how many
    /// have come.
    ///
    /// # Errors
    /// Where memory runs out.
    pub fn take(
        &mut self,
        from: ServerPlace,
        to: ServerPlace,
        count: usize,
        lines: &mut Vec<Line, Global>,
    ) -> Result<usize, AllocError>
        ensures taken { IfOk result (λ taken. taken ≡ come_by count (pipe_at self.old from to)) }
        ensures lines { OnOk result (Yields count (pipe_at self.old from to) lines.old lines.new) }
        ensures pipes { OnOk result (self.new ≡ advanced_at from to count self.old) }
    {
        let Some(row) = self.rows.get_mut(from.index()) else {
            return Ok(0);
        };
        let taken = row.take(to.link(), count, lines);
        row.is_lean();
        taken
    }

    /// How many bytes are on their way from one server to another up to and with the next LF; none
    /// where no byte is.
    pub fn through_line_feed(&self, from: ServerPlace, to: ServerPlace) -> usize
        ensures { result ≡ through_line_feed (pipe_at self.now from to).bytes }
    {
        match self.rows.get(from.index()) {
            Some(row) => row.through_line_feed(to.link()),
            None => 0,
        }
    }

    /// Nothing is on its way any more from one server to another, and the framer there begins anew.
    pub fn close(&mut self, from: ServerPlace, to: ServerPlace)
        ensures { self.new ≡ without_pipe from to self.old }
    {
        if let Some(row) = self.rows.get_mut(from.index()) {
            row.close(to.link());
            row.is_lean();
        }
    }

    /// Whether nothing is on its way, and no part of a line has come anywhere.
    pub fn are_still(&self) -> bool
        ensures { result ≡ are_still self.now }
    {
        for row in self.rows.as_slice() {
            if !row.is_still() {
                return false;
            }
        }
        true
    }

    /// The first direction in which a byte is on its way, by the place that it is from and then the
    /// one where it goes.
    pub fn first_direction(&self) -> Option<EndPlaces>
        ensures { option_map direction_of result ≡ first_direction self.now }
    {
        let mut from = 0;
        let mut rest = self.rows.as_slice();
        while let Some((row, more)) = rest.split_first() {
            if let Some(to) = row.first() {
                return Some(EndPlaces {
                    near: ServerPlace::at(from),
                    far: ServerPlace::of_link(to),
                });
            }
            from += 1;
            rest = more;
        }
        None
    }
}
