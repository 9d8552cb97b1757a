//! A layer around a server.
ghost use Rattle.std.specs.Prelude.{◌≡◌, ◌++◌, None, Some, true, false, IfErr, IfOk, OnOk};
ghost use Rattle.irc_engine.specs.Machines.{is_out_of_memory, IsConnectedBy, IsRefusal};
ghost use Rattle.irc_engine.specs.Machines.{IsStillConnected};
ghost use Rattle.irc_pieces.specs.Pieces.{lines_of};
ghost use Rattle.irc_layer.specs.Ends.{change_end, end_at, end_hearing, ends_followed, heard_if};
ghost use Rattle.irc_layer.specs.Layers.{is_heard, state_of, Handles, HearsAll, HearsIf};
ghost use Rattle.irc_layer.specs.Layers.{IsAround, IsConnectedIf, IsRefusedBy, Passes};
ghost use Rattle.irc_layer.specs.Layers.{PassesOrNot, Shuts};
ghost use Rattle.irc_layer.specs.Putting.{count_at, with_count_out};

use crate::end::{BY_ITSELF, Cause, End};
use crate::putting::{Ends, begin, end, put_all};
use irc_batch::{Batch, CloseReason};
use irc_engine::Machine;
use irc_line::Line;
use irc_moments::Moment;
use irc_names::{ServerName, copied};
use irc_pieces::{Heard, Mark};
use irc_server::{Event, Server, ServerFault};
use std::alloc::{AllocError, Global};
use std::collections::BTreeMap;

/// A layer around a server.
#[derive(Drop)]
pub struct Layer {
    pub(crate) server: Server,
    /// The end of each link.
    pub(crate) ends: Ends,
    /// The servers that are called without words, since they refuse them.
    plain: Vec<ServerName, Global>,
    /// What is to be put out by the event at hand.
    pub(crate) held: Batch,
    pub(crate) alloc: Global,
}

impl Layer {
    /// A layer around a server that has no link; these servers are called without the words by which
    /// two ends agree to count pieces and to tell who is away.
    pub fn new(alloc: Global, server: Server, plain: Vec<ServerName, Global>) -> Self
        ensures { IsAround server plain.items result }
    {
        Layer {
            server,
            ends: BTreeMap::new(alloc),
            plain,
            held: Batch::new(alloc),
            alloc,
        }
    }

    /// The server is given an event, and what it puts out goes on.
    fn pass(&mut self, cause: Cause, event: &Event, out: &mut Batch) -> Result<(), ServerFault>
        ensures passes { OnOk result
            (Passes cause event.now (state_of self.old out.old) (state_of self.new out.new)) }
        ensures connected { OnOk result (IsConnectedBy self.old.server event.now out.old.outs
            self.new.server out.new.outs) }
        ensures refused { IfErr result (λ fault. is_out_of_memory fault ≡ false
            → IsRefusedBy event.now (state_of self.old out.old) (state_of self.new out.new) fault) }
        ensures owed { IfErr result (IsRefusal self.old.server event.now) }
    {
        self.held.clear();
        Machine::handle(&mut self.server, event, &mut self.held)?;
        follow(&mut self.ends, self.alloc, self.plain.as_slice(), event)?;
        put_all(&mut self.ends, cause, &mut self.held, out)?;
        Ok(())
    }

    /// The same, where the server may refuse it: then nothing has changed.
    pub(crate) fn pass_if_taken(
        &mut self,
        cause: Cause,
        event: &Event,
        out: &mut Batch,
    ) -> Result<bool, AllocError>
        ensures passes { IfOk result (λ is_taken. PassesOrNot is_taken cause event.now
            (state_of self.old out.old) (state_of self.new out.new)) }
        ensures connected { IfOk result (λ is_taken. IsConnectedIf is_taken event.now
            (state_of self.old out.old) (state_of self.new out.new)) }
    {
        match self.pass(cause, event, out) {
            Ok(()) => Ok(true),
            Err(ServerFault::Memory | ServerFault::Failed) => Err(AllocError),
            Err(_) => Ok(false),
        }
    }

    /// A line of a link that has an end has come.
    fn hear_event(&mut self, event: &Event, out: &mut Batch) -> Result<(), ServerFault>
        requires heard { is_heard event.now (end_at self.old.ends) ≡ true }
        ensures handled { Handles (state_of self.old out.old) event.now
            (state_of self.new out.new) result }
        ensures connected { OnOk result (IsConnectedBy self.old.server event.now out.old.outs
            self.new.server out.new.outs) }
        ensures refused { IfErr result (IsRefusal self.old.server event.now) }
    {
        let Event::LinkLine(link, line) = event else {
            unreachable!();
        };
        self.hear(*link, line, out)?;
        Ok(())
    }

    /// A line of a link has come.
    fn hear(&mut self, link: u64, line: &Line, out: &mut Batch) -> Result<(), AllocError>
        ensures heard { OnOk result
            (HearsIf (end_at self.old.ends link) link line.now.items (state_of self.old out.old)
            (state_of self.new out.new)) }
        ensures connected { OnOk result (IsStillConnected self.old.server out.old.outs
            self.new.server out.new.outs) }
    {
        match hear_at(&mut self.ends, link, copied(line.as_slice()))? {
            Heard::Nothing => Ok(()),
            Heard::Fault(reason) => self.shut(link, reason, out),
            Heard::Piece(piece) => {
                self.hear_all(piece.mark, link, piece.lines, out)?;
                tell_count(&mut self.ends, link, out)
            }
        }
    }

    /// A link is closed, and the server is told that it is lost.
    fn shut(&mut self, link: u64, reason: CloseReason, out: &mut Batch) -> Result<(), AllocError>
        ensures heard { OnOk result
            (Shuts link reason (state_of self.old out.old) (state_of self.new out.new)) }
        ensures connected { OnOk result (IsStillConnected self.old.server out.old.outs
            self.new.server out.new.outs) }
    {
        if self.pass_if_taken(BY_ITSELF, &Event::LinkDown(link), out)? {
            out.close_link(link, reason)?;
        }
        Ok(())
    }

    /// The lines of a piece have come.
    fn hear_all(
        &mut self,
        mark: Option<Mark>,
        link: u64,
        lines: Vec<Line, Global>,
        out: &mut Batch,
    ) -> Result<(), AllocError>
        ensures heard { OnOk result
            (HearsAll mark link (lines_of lines.items) (state_of self.old out.old)
            (state_of self.new out.new)) }
        ensures connected { OnOk result (IsStillConnected self.old.server out.old.outs
            self.new.server out.new.outs) }
    {
        let mut rest = lines.into_iter();
        while let Some(line) = rest.next() {
            self.hear_one(mark, link, line, out)?;
        }
        Ok(())
    }
}

/// Whether an event is a line of a link that has an end.
fn is_heard(ends: &Ends, event: &Event) -> bool
    ensures { result ≡ is_heard event.now (end_at ends.now) }
{
    match event {
        Event::LinkLine(link, _) => ends.contains_key(link),
        Event::Connect(_, _)
        | Event::Line(_, _)
        | Event::Gone(_)
        | Event::LinkUp(_, _)
        | Event::LinkDown(_) => false,
    }
}

/// A link that begins has an end, and one that is lost has none.
fn follow(
    ends: &mut Ends,
    alloc: Global,
    plain: &[ServerName],
    event: &Event,
) -> Result<(), AllocError>
    ensures { OnOk result
        (end_at ends.new ≡ ends_followed event.now plain.now (end_at ends.old)) }
{
    match event {
        Event::LinkUp(link, name) => begin(ends, *link, End::new(alloc, name.as_ref(), plain)),
        Event::LinkDown(link) => {
            end(ends, *link);
            Ok(())
        }
        Event::Connect(_, _) | Event::Line(_, _) | Event::Gone(_) | Event::LinkLine(_, _) => Ok(()),
    }
}

/// The end of a link takes a line, if there is one.
fn hear_at(ends: &mut Ends, link: u64, line: Line) -> Result<Heard, AllocError>
    ensures heard { IfOk result
        (λ heard. heard ≡ heard_if line.items (end_at ends.old link)) }
    ensures ends { OnOk result
        (end_at ends.new ≡ change_end link (end_hearing line.items) (end_at ends.old)) }
{
    match ends.get_mut(&link) {
        Some(end) => end.hear(line),
        None => Ok(Heard::Nothing),
    }
}

/// The count goes alone, where so much was read of a link that it is to.
fn tell_count(ends: &mut Ends, link: u64, out: &mut Batch) -> Result<(), AllocError>
    ensures outs { OnOk result
        (out.new.outs ≡ out.old.outs ++ count_at link (end_at ends.old link)) }
    ensures ends { OnOk result
        (end_at ends.new ≡ change_end link with_count_out (end_at ends.old)) }
{
    match ends.get_mut(&link) {
        Some(end) => end.tell_count(link, out),
        None => Ok(()),
    }
}

impl Machine for Layer {
    ghost use Rattle.irc_engine.specs.Machines.{never_due};
    ghost use Rattle.irc_layer.specs.Layers.{server_of, IsLayered};

    ghost server_of = { server_of };

    ghost handles = { IsLayered };

    ghost dues = { never_due };

    fn handle(&mut self, event: &Event, out: &mut Batch) -> Result<(), ServerFault> {
        if is_heard(&self.ends, event) {
            self.hear_event(event, out)
        } else {
            self.pass(BY_ITSELF, event, out)
        }
    }

    fn due(&mut self, _moment: Moment, _out: &mut Batch) -> Result<(), ServerFault> {
        Ok(())
    }

    fn server(&self) -> &Server {
        &self.server
    }
}
