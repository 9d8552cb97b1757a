//! What comes along the links of a network.
ghost use Rattle.std.specs.Prelude.{◌≡◌, min, IfOk, OnOk};
ghost use Rattle.std.specs.Option.{option_map};
ghost use Rattle.irc_pipes.specs.Loops.Rows.{direction_of};
ghost use Rattle.irc_pipes.specs.Pipes.{first_direction, through_line_feed, pipe_at};
ghost use Rattle.irc_network.specs.ByteNetwork.{is_byte_rest};
ghost use Rattle.irc_network.specs.Calls.{HaveCome, HaveComeToLine, IsTurn};
ghost use Rattle.irc_network.specs.Loops.Coming.{HaveHeard, bytes_between, lines_between};
ghost use Rattle.irc_network.specs.Whole.{IsTidy};

use crate::call_output::CallOutput;
use crate::delivery_counts::DeliveryCounts;
use crate::history::History;
use crate::network::Network;
use irc_forest::{EndPlaces, ServerPlace};
use irc_line::Line;
use std::alloc::{AllocError, Global};

impl<H: History> Network<H> {
    /// Whether no byte is on its way, and no part of a line has come anywhere.
    pub fn is_at_rest(&self) -> bool
        ensures { result ≡ is_byte_rest self.now }
    {
        self.pipes.are_still()
    }

    /// How many bytes are on their way from one server to another up to and with the next LF; all
    /// where there is none.
    pub fn through_line_feed(&self, from: ServerPlace, to: ServerPlace) -> usize
        ensures { result ≡ through_line_feed (pipe_at self.now.pipes from to).bytes }
    {
        self.pipes.through_line_feed(from, to)
    }

    /// The first direction in which a byte is on its way, by the place that it is from and then
    /// that where it goes.
    pub fn first_direction(&self) -> Option<EndPlaces>
        ensures { option_map direction_of result ≡ first_direction self.now.pipes }
    {
        self.pipes.first_direction()
    }

    /// So many bytes come from one server to another, or all that are on their way where there are
    /// fewer. The server that they come to is asked for each line that they complete, in turn. What
    /// clients receive by them is in the output, behind what was there.
    ///
    /// # Errors
    /// Where memory runs out: nothing is promised of the network then, and nothing more is to be
    /// asked of it.
    pub fn come(
        &mut self,
        ends: EndPlaces,
        count: usize,
        output: &mut CallOutput,
    ) -> Result<DeliveryCounts, AllocError>
        requires tidy { IsTidy self.old }
        ensures bytes { IfOk result (λ came. came.bytes ≡ min count (bytes_between self.old ends)) }
        ensures lines { IfOk result (λ came. came.lines ≡ lines_between self.old ends count) }
        ensures come { OnOk result (HaveCome ends count self.old output.old self.new output.new) }
    {
        irc_pipes::laws::same_pipes();
        let mut lines = Vec::new(self.alloc);
        let bytes = self.pipes.take(ends.near, ends.far, count, &mut lines)?;
        let came = DeliveryCounts {
            bytes,
            lines: lines.len(),
        };
        self.hear_all(ends.near, ends.far, lines, output)?;
        Ok(came)
    }

    /// A server is asked for lines that have come from another, in turn.
    fn hear_all(
        &mut self,
        from: ServerPlace,
        to: ServerPlace,
        lines: Vec<Line, Global>,
        output: &mut CallOutput,
    ) -> Result<(), AllocError>
        requires tidy { IsTidy self.old }
        ensures { OnOk result
            (HaveHeard from to lines.items self.old output.old self.new output.new) }
    {
        let mut rest = lines.into_iter();
        while let Some(line) = rest.next() {
            self.hear(from, to, line, output)?;
        }
        Ok(())
    }

    /// The bytes through the next LF come in the first direction in which a byte is on its way. The
    /// number is how many lines they complete; none where no byte is on its way. What clients
    /// receive by them is in the output, behind what was there.
    ///
    /// # Errors
    /// Where memory runs out: nothing is promised of the network then, and nothing more is to be
    /// asked of it.
    pub fn come_in_turn(&mut self, output: &mut CallOutput) -> Result<Option<usize>, AllocError>
        requires tidy { IsTidy self.old }
        ensures { IfOk result (λ lines. IsTurn lines self.old output.old self.new output.new) }
    {
        let Some(ends) = self.first_direction() else {
            return Ok(None);
        };
        let count = self.through_line_feed(ends.near, ends.far);
        let came = self.come(ends, count, output)?;
        Ok(Some(came.lines))
    }

    /// Bytes come in turn until they complete a line. The number is how many lines they complete;
    /// none where none is on its way, and then no byte is any more. What clients receive is on the
    /// output, behind what was there.
    ///
    /// # Errors
    /// Where memory runs out: nothing is promised of the network then, and nothing more is to be
    /// asked of it.
    pub fn come_to_line(&mut self, output: &mut CallOutput) -> Result<Option<usize>, AllocError>
        requires tidy { IsTidy self.old }
        ensures { IfOk result
            (λ lines. HaveComeToLine lines self.old output.old self.new output.new) }
    {
        while let Some(lines) = self.come_in_turn(output)? {
            if lines > 0 {
                return Ok(Some(lines));
            }
        }
        Ok(None)
    }
}
