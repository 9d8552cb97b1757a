//! A server of a network is asked for something, and what it puts out goes its way.
ghost use Rattle.std.specs.Prelude.{◌≡◌, ◌≤◌, length, OnOk};
ghost use Rattle.irc_line.specs.Limits.{max_line, max_text};
ghost use Rattle.irc_network.specs.Loops.Progress.{AreSentOut, IsAskedOut, IsLineHeard, IsReceived};
ghost use Rattle.irc_network.specs.Loops.Progress.{IsSentAt, line_sent};
ghost use Rattle.irc_network.specs.Node.{line_body};
ghost use Rattle.irc_network.specs.Whole.{IsTidy, has_way};

use crate::call_output::CallOutput;
use crate::client_number::ClientNumber;
use crate::history::History;
use crate::network::Network;
use crate::receipt::Receipt;
use irc_batch::Out;
use irc_forest::ServerPlace;
use irc_line::Line;
use irc_names::copied;
use irc_server::Event;
use std::alloc::{AllocError, Global};

/// The bytes of the CR LF at the end of a line (RFC 2812 section 2.3).
const LINE_END: usize = 2;

impl<H: History> Network<H> {
    /// A server is asked for an event, and what it puts out goes its way.
    ///
    /// # Errors
    /// Where memory runs out, here and below.
    pub(crate) fn ask(
        &mut self,
        place: ServerPlace,
        event: &Event,
        output: &mut CallOutput,
    ) -> Result<(), AllocError>
        requires tidy { IsTidy self.old }
        ensures { OnOk result (IsAskedOut place event.now self.old output.old self.new output.new) }
    {
        output.out.clear();
        let Some(node) = self.nodes.get_mut(place.index()) else {
            return Ok(());
        };
        node.serve(event, &mut output.out)?;
        self.send_out(place, output)
    }

    /// What a server has put out goes its way.
    fn send_out(&mut self, place: ServerPlace, output: &mut CallOutput) -> Result<(), AllocError>
        requires tidy { IsTidy self.old }
        ensures { OnOk result (AreSentOut place self.old output.old self.new output.new) }
    {
        irc_pipes::laws::same_pipes();
        for at in 0..output.out.len() {
            self.send(place, at, output)?;
        }
        Ok(())
    }

    /// One thing that a server has put out goes its way.
    fn send(
        &mut self,
        place: ServerPlace,
        at: usize,
        output: &mut CallOutput,
    ) -> Result<(), AllocError>
        ensures sent { OnOk result (IsSentAt place at self.old output.old self.new output.new) }
        ensures out { output.new.out ≡ output.old.out }
    {
        match output.out.get(at) {
            Some(Out::Line(client, text)) => {
                self.receive(ClientNumber::of(client), text, &mut output.lines)
            }
            Some(Out::LinkLine(to, text)) => self.write(place, ServerPlace::of_link(to), text),
            _ => Ok(()),
        }
    }

    /// A client receives a line, if there ever was a client of its number.
    fn receive(
        &mut self,
        client: ClientNumber,
        text: &[u8],
        lines: &mut Vec<Receipt, Global>,
    ) -> Result<(), AllocError>
        requires fits { length text.now ≤ max_text }
        ensures { OnOk result (IsReceived client text.now self.old lines.old self.new lines.new) }
    {
        let Some(earlier) = client.earlier() else {
            return Ok(());
        };
        if earlier >= self.homes.len() {
            return Ok(());
        }
        self.history.add_line(earlier, text)?;
        lines.push(Receipt {
            client,
            text: copied(text),
        })?;
        Ok(())
    }

    /// A line is written on its way, if there is one.
    fn write(&mut self, from: ServerPlace, to: ServerPlace, text: &[u8]) -> Result<(), AllocError>
        requires fits { length text.now ≤ max_text }
        ensures { OnOk result (self.new ≡ line_sent from to text.now self.old) }
    {
        if self.has_way(from, to) {
            self.pipes.write(from, to, body_of(text))
        } else {
            Ok(())
        }
    }

    /// Whether a way goes from one server to another.
    fn has_way(&self, from: ServerPlace, to: ServerPlace) -> bool
        ensures { result ≡ has_way self.now.network from to }
    {
        match self.node_at(from) {
            Some(node) => node.has_way(to.link()),
            None => false,
        }
    }

    /// A server is asked for a line that has come from another, and the line is counted. What
    /// clients receive by it is in the output, behind what was there.
    ///
    /// # Errors
    /// Where memory runs out: nothing is promised of the network then, and nothing more is to be
    /// asked of it.
    pub(crate) fn hear(
        &mut self,
        from: ServerPlace,
        to: ServerPlace,
        line: Line,
        output: &mut CallOutput,
    ) -> Result<(), AllocError>
        requires tidy { IsTidy self.old }
        ensures { OnOk result
            (IsLineHeard from to line.items self.old output.old self.new output.new) }
    {
        self.taken = self.taken.saturating_add(1);
        self.ask(to, &Event::LinkLine(from.link(), line), output)
    }
}

/// A line of at most 512 bytes without its CR LF.
fn body_of(text: &[u8]) -> &[u8]
    requires fits { length text.now ≤ max_text }
    ensures body { result.now ≡ line_body text.now }
    ensures fits { length result.now ≤ max_line }
{
    &text[..text.len().saturating_sub(LINE_END)]
}
