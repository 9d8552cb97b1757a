//! What comes of a line of a piece: what the server is given for it, and what the other end is
//! asked or told.
ghost use Rattle.std.specs.Prelude.{◌≡◌, ◌++◌, is_some, false, map, None, IfOk, OnOk};
ghost use Rattle.std.specs.Option.{option_and_then, option_copied, option_map};
ghost use Rattle.irc_batch.specs.Batches.{line_on};
ghost use Rattle.irc_burst_lines.specs.Loops.Telling.{lines_now, told_member};
ghost use Rattle.irc_engine.specs.Machines.{is_out_of_memory, IsStillConnected};
ghost use Rattle.irc_engine.specs.Noting.{far_of};
ghost use Rattle.irc_layer.specs.Asking.{asked_of};
ghost use Rattle.irc_layer.specs.Ends.{change_end, end_at, met_if, with_log_after};
ghost use Rattle.irc_layer.specs.Layers.{asked_at, asking, given_at, peer_of, puts_out};
ghost use Rattle.irc_layer.specs.Layers.{raised_at, raises_at};
ghost use Rattle.irc_layer.specs.Layers.{spelled_of, spelling, state_of, telling, told_of};
ghost use Rattle.irc_layer.specs.Layers.{BringsOne, Does, Gives, GivesAs};
ghost use Rattle.irc_layer.specs.Layers.{GivesKill, GivesKills, HearsOne, HearsOther, Sets, SetsIf};
ghost use Rattle.irc_crossing.specs.Loops.Texts.{bytes_of};
ghost use Rattle.irc_layer.specs.Putting.{body};

use crate::asking::tell_text;
use crate::end::{BY_ITSELF, Cause, body};
use crate::holding::brought_by;
use crate::layer::Layer;
use crate::putting::{Ends, put_all};
use irc_batch::Batch;
use irc_burst_lines::{channel_burst, kill_text, njoin_text};
use irc_channels::Flags;
use irc_crossing::{Given, raised};
use irc_line::{Line, Text};
use irc_link_reader::NewMember;
use irc_names::{ChannelName, Nick, ServerName, copied};
use irc_pieces::Mark;
use irc_server::{Event, Server, ServerFault};
use std::alloc::{AllocError, Global};

/// The number that each server has for itself on a link (RFC 2813 section 4.1.2).
const ITS_OWN: u32 = 1;

/// A number that no link has: all members of a channel are on this side of it.
const NO_LINK: u64 = u64::MAX;

/// The layer tells what is set, also where no member is behind the link.
const BY_TELLING: Cause = Cause {
    arrival: None,
    mark: Some(Mark::Set),
    begins: false,
};

/// A line of a piece that has come.
#[derive(Clone, Copy, Drop)]
struct Arrived {
    link: u64,
    /// What the piece says beside its lines.
    mark: Option<Mark>,
    /// Whether a channel begins by it.
    begins: bool,
    /// Whether it raises something where nobody of the other side may be left.
    raises: bool,
}

impl Arrived {
    /// One by which no channel begins, on a link.
    fn on(link: u64) -> Self
        ensures { result ≡ record { link = link; mark = None; begins = false; raises = false } }
    {
        Arrived {
            link,
            mark: None,
            begins: false,
            raises: false,
        }
    }
}

impl Layer {
    /// A line of a piece has come.
    pub(crate) fn hear_one(
        &mut self,
        mark: Option<Mark>,
        link: u64,
        line: Line,
        out: &mut Batch,
    ) -> Result<(), AllocError>
        ensures heard { OnOk result (HearsOne mark link line.items (state_of self.old out.old)
            (state_of self.new out.new)) }
        ensures connected { OnOk result (IsStillConnected self.old.server out.old.outs
            self.new.server out.new.outs) }
    {
        match asked_at(&self.ends, link, line.as_slice()) {
            Some(channel) => self.tell_of(link, &channel, out),
            None => self.hear_other(mark, link, line, out),
        }
    }

    /// A line has come that asks of no channel: what the server is given for it, and what is asked
    /// behind that. Where the link was closed before it, it is left out.
    fn hear_other(
        &mut self,
        mark: Option<Mark>,
        link: u64,
        line: Line,
        out: &mut Batch,
    ) -> Result<(), AllocError>
        ensures heard { OnOk result (HearsOther mark link line.items (state_of self.old out.old)
            (state_of self.new out.new)) }
        ensures connected { OnOk result (IsStillConnected self.old.server out.old.outs
            self.new.server out.new.outs) }
    {
        let it = brought_by(&self.server, link, line.as_slice());
        let peer = peer_of(&self.server, link);
        let raises = raises_at(&self.ends, link, line.as_slice());
        let channel = asks_at(&self.ends, link, line.as_slice(), peer, it.is_held());
        let given = give_at(&mut self.ends, link, line.as_slice(), peer, it.is_held())?;
        let from = Arrived {
            link,
            mark,
            begins: it.is_new(),
            raises,
        };
        self.do_given(from, given, line, out)?;
        self.ask_of(link, channel, out)
    }

    /// The server is given what is given for a line.
    fn do_given(
        &mut self,
        from: Arrived,
        given: Given,
        line: Line,
        out: &mut Batch,
    ) -> Result<(), AllocError>
        ensures heard { OnOk result (GivesAs given from.mark from.raises from.begins from.link
            line.items (state_of self.old out.old) (state_of self.new out.new)) }
        ensures connected { OnOk result (IsStillConnected self.old.server out.old.outs
            self.new.server out.new.outs) }
    {
        match given {
            Given::AsItCame => self.do_line(from, line, out),
            Given::Changed(text) => self.do_line(from, line_of(&text), out),
            Given::LeftOut => Ok(()),
            Given::Kills(nick, other) => self.give_kills(from.link, &nick, other.as_ref(), out),
            Given::Brings(nick, channel, op) => {
                self.bring(from, member(nick, op), &channel, out)
            }
            Given::Sets(text) => self.set(from.link, line_of(&text), out),
        }
    }

    /// The other end is asked to tell of a channel, if there is one, unless the link was closed by
    /// what it wrote.
    fn ask_of(
        &mut self,
        link: u64,
        channel: Option<ChannelName>,
        out: &mut Batch,
    ) -> Result<(), AllocError>
        ensures asks { OnOk result (state_of self.new out.new
            ≡ asking channel link (state_of self.old out.old)) }
        ensures connected { OnOk result (IsStillConnected self.old.server out.old.outs
            self.new.server out.new.outs) }
    {
        match channel {
            Some(channel) if self.ends.contains_key(&link) => {
                self.put_out(BY_ITSELF, link, &[tell_text(&channel)], out)
            }
            _ => Ok(()),
        }
    }

    /// The other end is told of a channel: how it is spelled, and what it has.
    fn tell_of(
        &mut self,
        link: u64,
        channel: &ChannelName,
        out: &mut Batch,
    ) -> Result<(), AllocError>
        ensures tells { OnOk result (state_of self.new out.new
            ≡ telling link channel.now (state_of self.old out.old)) }
        ensures connected { OnOk result (IsStillConnected self.old.server out.old.outs
            self.new.server out.new.outs) }
    {
        let lines = told_of(self.alloc, &self.server, channel)?;
        let spelled = spelled_of(&self.server, channel);
        self.spell(link, spelled, out)?;
        self.put_out(BY_TELLING, link, lines.as_slice(), out)
    }

    /// The other end is told how a channel is spelled, if it is there.
    fn spell(&mut self, link: u64, line: Option<Text>, out: &mut Batch) -> Result<(), AllocError>
        ensures spells { OnOk result (state_of self.new out.new
            ≡ spelling link (option_map bytes_of line) (state_of self.old out.old)) }
        ensures connected { OnOk result (IsStillConnected self.old.server out.old.outs
            self.new.server out.new.outs) }
    {
        match line {
            Some(line) => self.put_out(BY_TELLING, link, &[line], out),
            None => Ok(()),
        }
    }

    /// The layer puts out lines of its own on a link.
    fn put_out(
        &mut self,
        cause: Cause,
        link: u64,
        lines: &[Text],
        out: &mut Batch,
    ) -> Result<(), AllocError>
        ensures puts { OnOk result (state_of self.new out.new
            ≡ puts_out cause link (lines_now lines.now) (state_of self.old out.old)) }
        ensures connected { OnOk result (IsStillConnected self.old.server out.old.outs
            self.new.server out.new.outs) }
    {
        self.held.clear();
        hold_all(&mut self.held, link, lines)?;
        put_all(&mut self.ends, cause, &mut self.held, out)
    }

    /// The server does what a line says: one that is marked is set, of one that raises what it
    /// raises is, and another is given.
    fn do_line(&mut self, from: Arrived, line: Line, out: &mut Batch) -> Result<(), AllocError>
        ensures heard { OnOk result
            (Does from.mark from.raises from.begins from.link line.items
            (state_of self.old out.old) (state_of self.new out.new)) }
        ensures connected { OnOk result (IsStillConnected self.old.server out.old.outs
            self.new.server out.new.outs) }
    {
        match from.mark {
            Some(Mark::Set) => self.set(from.link, line, out),
            None if from.raises => self.raise(from.link, &line, out),
            None => self.give(from, line, out),
        }
    }

    /// The server is told to set what a line raises, if it raises anything.
    fn raise(&mut self, link: u64, line: &Line, out: &mut Batch) -> Result<(), AllocError>
        ensures heard { OnOk result (SetsIf link (raised_at self.old.server line.now.items)
            (state_of self.old out.old) (state_of self.new out.new)) }
        ensures connected { OnOk result (IsStillConnected self.old.server out.old.outs
            self.new.server out.new.outs) }
    {
        match raised_at(self.alloc, &self.server, line.as_slice())? {
            Some(text) => self.set(link, line_of(&text), out),
            None => Ok(()),
        }
    }

    /// The server is told to set what a line says of the server at the other end.
    fn set(&mut self, link: u64, line: Line, out: &mut Batch) -> Result<(), AllocError>
        ensures heard { OnOk result
            (Sets link line.items (state_of self.old out.old) (state_of self.new out.new)) }
        ensures connected { OnOk result (IsStillConnected self.old.server out.old.outs
            self.new.server out.new.outs) }
    {
        irc_server::laws::who_is_connected_behind();
        self.held.clear();
        match self.server.set(link, &line, &mut self.held) {
            Ok(()) => {
                let cause = Cause {
                    arrival: Some(link),
                    mark: Some(Mark::Set),
                    begins: false,
                };
                put_all(&mut self.ends, cause, &mut self.held, out)
            }
            Err(fault) if is_out_of_memory(fault) => Err(AllocError),
            Err(_) => Ok(()),
        }
    }

    /// A user comes to a channel, as the server at the other end tells it.
    fn bring(
        &mut self,
        from: Arrived,
        member: NewMember,
        channel: &ChannelName,
        out: &mut Batch,
    ) -> Result<(), AllocError>
        ensures heard { OnOk result
            (BringsOne from.begins from.link (told_member member) channel.now
            (state_of self.old out.old) (state_of self.new out.new)) }
        ensures connected { OnOk result (IsStillConnected self.old.server out.old.outs
            self.new.server out.new.outs) }
    {
        let Some(peer) = self.far(from.link) else {
            return Ok(());
        };
        let line = line_of(&njoin_text(peer, channel, &[member]));
        self.give(from, line, out)
    }

    /// The server is given a line.
    fn give(&mut self, from: Arrived, line: Line, out: &mut Batch) -> Result<(), AllocError>
        ensures heard { OnOk result (Gives from.begins from.link line.items
            (state_of self.old out.old) (state_of self.new out.new)) }
        ensures connected { OnOk result (IsStillConnected self.old.server out.old.outs
            self.new.server out.new.outs) }
    {
        let cause = Cause {
            arrival: Some(from.link),
            mark: None,
            begins: from.begins,
        };
        self.pass_if_taken(cause, &Event::LinkLine(from.link, line), out)?;
        self.meet(from.link);
        Ok(())
    }

    /// An end is met once the server knows who is at the other one.
    fn meet(&mut self, link: u64)
        ensures server { self.new.server ≡ self.old.server }
        ensures plain { self.new.plain ≡ self.old.plain }
        ensures ends { end_at self.new.ends ≡ change_end link
            (met_if (is_some (far_of self.old.server link))) (end_at self.old.ends) }
    {
        let is_met = self.far(link).is_some();
        meet_at(&mut self.ends, link, is_met);
    }

    /// The server that is known at the other end of a link.
    fn far(&self, link: u64) -> Option<&ServerName>
        ensures { option_copied result ≡ far_of self.now.server link }
    {
        far_at(&self.server, link)
    }

    /// Two users of one nickname are killed, or one.
    fn give_kills(
        &mut self,
        link: u64,
        nick: &Nick,
        other: Option<&Nick>,
        out: &mut Batch,
    ) -> Result<(), AllocError>
        ensures heard { OnOk result
            (GivesKills link nick.now (option_copied other.entry) (state_of self.old out.old)
            (state_of self.new out.new)) }
        ensures connected { OnOk result (IsStillConnected self.old.server out.old.outs
            self.new.server out.new.outs) }
    {
        self.give_kill(link, nick, out)?;
        match other {
            Some(other) => self.give_kill(link, other, out),
            None => Ok(()),
        }
    }

    /// A user is killed, as by the server at the other end.
    fn give_kill(&mut self, link: u64, nick: &Nick, out: &mut Batch) -> Result<(), AllocError>
        ensures heard { OnOk result
            (GivesKill link nick.now (state_of self.old out.old) (state_of self.new out.new)) }
        ensures connected { OnOk result (IsStillConnected self.old.server out.old.outs
            self.new.server out.new.outs) }
    {
        let Some(peer) = self.far(link) else {
            return Ok(());
        };
        let line = line_of(&kill_text(peer, nick));
        self.give(Arrived::on(link), line, out)
    }
}

/// Whether memory ran out, now or before.
fn is_out_of_memory(fault: ServerFault) -> bool
    ensures { result ≡ is_out_of_memory fault }
{
    matches!(fault, ServerFault::Memory | ServerFault::Failed)
}

/// The channel that the other end of a link asks of by a line.
fn asked_at(ends: &Ends, link: u64, line: &[u8]) -> Option<ChannelName>
    ensures { result ≡ option_and_then (asked_of line.now) (end_at ends.now link) }
{
    ends.get(&link)?.asked(line)
}

/// The channel of which the other end is to be asked upon a line.
fn asks_at(ends: &Ends, link: u64, line: &[u8], peer: &[u8], is_held: bool) -> Option<ChannelName>
    ensures { result ≡ asked_at (end_at ends.now link) peer.now is_held line.now }
{
    ends.get(&link)?.asks(line, peer, is_held)
}

/// The line that tells how a channel is spelled, with its CR LF: an NJOIN of nobody.
fn spelled_of(server: &Server, channel: &ChannelName) -> Option<Text>
    ensures { option_map bytes_of result ≡ spelled_of server.now channel.now }
{
    let channel = server.room()?.channel(channel.as_bytes())?;
    let own = server.routes()?.name();
    Some(njoin_text(own, &channel.name, &[]))
}

/// What the other end of a link is told of a channel: all of it, whoever of it is left there.
fn told_of(
    alloc: Global,
    server: &Server,
    channel: &ChannelName,
) -> Result<Vec<Text, Global>, AllocError>
    ensures { IfOk result
        (λ lines. lines_now lines.items ≡ told_of server.now channel.now) }
{
    match (server.room(), server.routes()) {
        (Some(room), Some(routes)) => {
            channel_burst(alloc, room, routes, NO_LINK, channel.as_bytes())
        }
        _ => Ok(Vec::new(alloc)),
    }
}

/// Lines are to be put out on a link, behind what is.
fn hold_all(held: &mut Batch, link: u64, lines: &[Text]) -> Result<(), AllocError>
    ensures { OnOk result
        (held.new.outs ≡ held.old.outs ++ map (line_on link) (lines_now lines.now)) }
{
    for line in lines {
        held.put_on(link, line.as_slice())?;
    }
    Ok(())
}

/// Whether a line raises something, as an end has it, where nobody of the other side may be left.
fn raises_at(ends: &Ends, link: u64, line: &[u8]) -> bool
    ensures { result ≡ raises_at (end_at ends.now link) line.now }
{
    match ends.get(&link) {
        Some(end) => end.raises(line),
        None => false,
    }
}

/// What of a line raises something in the server's channel, as a line.
fn raised_at(alloc: Global, server: &Server, line: &[u8]) -> Result<Option<Text>, AllocError>
    ensures { IfOk result (λ text. option_map bytes_of text ≡ raised_at server.now line.now) }
{
    match server.room() {
        Some(room) => raised(alloc, room, line),
        None => Ok(None),
    }
}

/// What the server is given for a line; nothing where the link has no end.
fn give_at(
    ends: &mut Ends,
    link: u64,
    line: &[u8],
    peer: &[u8],
    is_held: bool,
) -> Result<Given, AllocError>
    ensures given { IfOk result (λ given. given
        ≡ given_at (end_at ends.old link) peer.now is_held line.now) }
    ensures ends { OnOk result (end_at ends.new
        ≡ change_end link (with_log_after line.now) (end_at ends.old)) }
{
    match ends.get_mut(&link) {
        Some(end) => end.give(line, peer, is_held),
        None => Ok(Given::LeftOut),
    }
}

/// The name of the server at the other end of a link; no bytes where it is not known.
fn peer_of(server: &Server, link: u64) -> &[u8]
    ensures { result.now ≡ peer_of server.now link }
{
    match far_at(server, link) {
        Some(name) => name.as_bytes(),
        None => &[],
    }
}

/// The server that is known at the other end of a link.
fn far_at(server: &Server, link: u64) -> Option<&ServerName>
    ensures { option_copied result ≡ far_of server.now link }
{
    match server.routes() {
        Some(routes) => routes.token_in(link, ITS_OWN),
        None => None,
    }
}

/// A member that comes as an operator, or as none.
fn member(nick: Nick, op: bool) -> NewMember
    ensures { told_member result ≡ (nick, record { op = op; voice = false }) }
{
    NewMember {
        nick,
        flags: Flags { op, voice: false },
    }
}

/// The other end of a link has named itself, if it has.
fn meet_at(ends: &mut Ends, link: u64, is_met: bool)
    ensures { end_at ends.new ≡ change_end link (met_if is_met) (end_at ends.old) }
{
    if let Some(end) = ends.get_mut(&link) {
        end.meet_if(is_met);
    }
}

/// A line without its CR LF.
fn line_of(text: &Text) -> Line
    ensures { result.items ≡ body text.now.items }
{
    copied(body(text.as_slice()))
}
