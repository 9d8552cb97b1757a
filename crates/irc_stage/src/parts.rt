//! What a server is made of, and what an effect does to it.
ghost use Rattle.std.specs.Prelude.{◌≡◌, None, List, [], ◌++◌, find, OnOk};
ghost use Rattle.std.specs.Option.{option_copied};
ghost use Rattle.irc_room.specs.After.{after};
ghost use Rattle.irc_room.specs.Effects.{IsPossible};
ghost use Rattle.irc_routes.specs.Known.{others};
ghost use Rattle.irc_line.specs.MessageViews.{optional_now};
ghost use Rattle.irc_line.specs.PartViews.{words_now};
ghost use Rattle.irc_stage.specs.Loops.Around.{view_in, IsNamedIn, StaysRight};
ghost use Rattle.irc_stage.specs.Loops.Branching.{KnowsNothing};
ghost use Rattle.irc_stage.specs.ClientTold.{seated, unseated};
ghost use Rattle.irc_stage.specs.EffectTold.{is_elsewhere};
ghost use Rattle.irc_stage.specs.Handle.{clients_after};
ghost use Rattle.irc_stage.specs.RoomMachine.{client_of};
ghost use Rattle.irc_stage.specs.View.{KnownPeer, is_peer_named, new_view, password_for};
ghost use Rattle.irc_stage.specs.Loops.Asking.{user_under, AnswersSpeaker};
ghost use Rattle.irc_stage.specs.Loops.Listening.{index_after};
ghost use Rattle.irc_stage.specs.Loops.Speaking.{arrival_of, IsSpoken};
ghost use Rattle.irc_stage.specs.Loops.Parts.{clients_of, lines_on, machine_at, view_of, Applies};
ghost use Rattle.irc_stage.specs.Loops.Parts.{Changes, IsFit, IsFreeOf, IsIndexed, IsNoUser};
ghost use Rattle.irc_stage.specs.Loops.Parts.{IsReady, IsSound, LeavesApart, Quits};
ghost use Rattle.irc_stage.specs.Matched.{IsMatched};

use crate::branches::hop;
use crate::clients::{self, Client, ClientTable};
use crate::link_end::LinkEnd;
use crate::listeners::Listeners;
use crate::numbers::{Conn, Link};
use crate::origin::{Origin, Speaker};
use crate::peer::Peer;
use crate::ways::{Around, Ways};
use irc_acts::Context;
use irc_batch::Batch;
use irc_channels::Words;
use irc_line::Text;
use irc_names::Nick;
use irc_queries::{Query, answer};
use irc_room::{Effect, Room, laws};
use irc_routes::Routes;
use irc_users::User;
use std::alloc::{AllocError, Global};
use std::collections::BTreeMap;

/// What a server is made of.
#[derive(Drop)]
pub struct ServerParts {
    /// Its own row, and the servers that it knows.
    pub(crate) routes: Routes,
    /// The servers that it may be linked to.
    pub(crate) peers: Vec<Peer, Global>,
    /// The ends of its open links, each by the number of its link.
    pub(crate) ends: BTreeMap<Link, LinkEnd, Global>,
    /// Its clients.
    pub(crate) clients: ClientTable,
    /// Its room.
    pub(crate) room: Room,
    /// Which of its clients listen in which channel.
    pub(crate) listeners: Listeners,
    /// The links on which the line at hand goes.
    pub(crate) ways: Ways,
    /// Where it takes memory from.
    pub(crate) alloc: Global,
}

/// Makes the change of an effect in a room in which it is possible. Behind which links somebody
/// listens is to be found anew.
fn happen(room: &mut Room, ways: &mut Ways, effect: &Effect) -> Result<(), AllocError>
    requires sound { IsSound room.old }
    requires possible { IsPossible room.old.room effect.now }
    ensures after { OnOk result
        (room.new ≡ record room.old { room = after room.old.room effect.now }) }
    ensures sound { OnOk result (IsSound room.new) }
    ensures nothing { OnOk result (KnowsNothing ways.new) }
    ensures at_hand { OnOk result (ways.new.links ≡ ways.old.links) }
{
    ways.forget();
    laws::after_is_well_formed();
    room.make(effect)?;
    Ok(())
}

/// Clients whose user takes another nickname by an effect are that user still.
fn follow(clients: &mut ClientTable, effect: &Effect) -> Result<(), AllocError>
    requires indexed { IsIndexed clients.old }
    requires apart { LeavesApart effect.now (clients_of clients.old) }
    ensures ok { OnOk result
        (clients_of clients.new ≡ clients_after effect.now (clients_of clients.old)) }
    ensures indexed { OnOk result (IsIndexed clients.new) }
    ensures by_nick { OnOk result
        (clients.new.by_nick ≡ index_after effect.now clients.old.by_nick) }
{
    match effect {
        Effect::Rename { nick, new } => clients::rename(clients, nick, new),
        _ => Ok(()),
    }
}

/// Changes the room, and the clients, by an effect that was put out. What is said changes nothing,
/// and all stays known.
pub(crate) fn settle(
    room: &mut Room,
    clients: &mut ClientTable,
    ways: &mut Ways,
    effect: &Effect,
) -> Result<(), AllocError>
    requires sound { IsSound room.old }
    requires possible { IsPossible room.old.room effect.now }
    requires indexed { IsIndexed clients.old }
    requires apart { LeavesApart effect.now (clients_of clients.old) }
    ensures after { OnOk result
        (room.new ≡ record room.old { room = after room.old.room effect.now }) }
    ensures sound { OnOk result (IsSound room.new) }
    ensures clients { OnOk result
        (clients_of clients.new ≡ clients_after effect.now (clients_of clients.old)) }
    ensures indexed { OnOk result (IsIndexed clients.new) }
    ensures by_nick { OnOk result
        (clients.new.by_nick ≡ index_after effect.now clients.old.by_nick) }
    ensures right { OnOk result (StaysRight ways.old room.old.room ways.new room.new.room) }
    ensures at_hand { OnOk result (ways.new.links ≡ ways.old.links) }
{
    match effect {
        Effect::Say { .. } => Ok(()),
        _ => {
            happen(room, ways, effect)?;
            follow(clients, effect)
        }
    }
}

/// Whether an effect is an invitation of a user who is behind a link.
pub(crate) fn is_elsewhere(around: Around<'_>, effect: &Effect) -> bool
    ensures { (peers : List KnownPeer) → IsNamedIn around.entry effect.now
        → result ≡ is_elsewhere (view_in peers around.entry) effect.now }
{
    match effect {
        Effect::Invite { .. } => hop(around.routes, around.named.other).is_some(),
        _ => false,
    }
}

impl ServerParts {
    /// A server without clients, linked to none, in an empty room.
    pub fn new(alloc: Global, routes: Routes, peers: Vec<Peer, Global>) -> Self
        requires alone { others routes ≡ [] }
        ensures made { view_of result ≡ new_view routes peers.items }
        ensures ready { IsReady result }
    {
        let room = Room::new(alloc, routes.name().copy());
        ServerParts {
            routes,
            peers,
            ends: BTreeMap::new(alloc),
            clients: clients::no_clients(alloc),
            room,
            listeners: Listeners::new(alloc),
            ways: Ways::new(alloc),
            alloc,
        }
    }

    /// Where it takes memory from.
    pub fn alloc(&self) -> Global
        ensures { result ≡ self.now.alloc }
    {
        self.alloc
    }

    /// Its own row, and the servers that it knows.
    pub fn routes(&self) -> &Routes
        ensures { result.now ≡ (view_of self.now).routes }
    {
        &self.routes
    }

    /// The peer of a name, if there is one.
    fn peer(&self, name: &[u8]) -> Option<&Peer>
        ensures { option_copied result ≡ find (is_peer_named name.now) self.now.peers.items }
    {
        self.peers.iter().find(|peer| peer.name.as_slice() == name)
    }

    /// The password that it and the peer of a name give each other, if it has such a peer.
    pub fn password_for(&self, name: &[u8]) -> Option<&[u8]>
        ensures { option_copied result ≡ password_for (view_of self.now) name.now }
    {
        match self.peer(name) {
            Some(peer) => Some(peer.password.as_slice()),
            None => None,
        }
    }

    /// Its room.
    pub fn room(&self) -> &Room
        ensures { result.now.room ≡ (view_of self.now).room }
    {
        &self.room
    }

    /// The client of a connection, if there is one.
    pub fn client_of(&self, conn: Conn) -> Option<&Client>
        ensures { option_copied result ≡ client_of (machine_at self.now) conn }
    {
        clients::client_of(&self.clients, conn)
    }

    /// An effect changes the room, is shown to its viewers, and is told on links: the one door for
    /// effects on a server's room, by which what is said in it goes out. What it names in the room
    /// is found once before. On links it is told as it is written in the room before. Where no link
    /// is open, none is looked for, and what goes on none, as at a server with one link all that
    /// comes by it, is not written for links.
    ///
    /// # Errors
    /// Where memory runs out.
    pub fn apply(
        &mut self,
        origin: Origin<'_>,
        effect: &Effect,
        out: &mut Batch,
    ) -> Result<(), AllocError>
        requires ready { IsReady self.old }
        requires fit { IsFit (machine_at self.old) effect.now }
        requires spoken { IsSpoken origin (machine_at self.old) effect.now }
        ensures ok { OnOk result
            (Applies (arrival_of origin.entry) effect.now self.old out.old self.new out.new) }
        ensures ready { OnOk result (IsReady self.new) }
    {
        let around = Around {
            room: &self.room,
            routes: &self.routes,
            ends: &self.ends,
            clients: &self.clients,
            named: self.room.named(effect),
        };
        let mut line = Text::new();
        self.ways
            .ready(around, origin.arrival(), effect, &mut line)?;
        if is_elsewhere(around, effect) {
            return self.ways.tell(&line, out);
        }
        let mut shown = Text::new();
        self.listeners
            .hear(around, origin, effect, &mut shown, out)?;
        settle(&mut self.room, &mut self.clients, &mut self.ways, effect)?;
        self.ways.tell(&line, out)
    }

    /// An effect changes the room, and is shown to its viewers. An invitation of another server's
    /// user is that server's to keep.
    pub(crate) fn change(
        &mut self,
        origin: Origin<'_>,
        effect: &Effect,
        out: &mut Batch,
    ) -> Result<(), AllocError>
        requires ready { IsReady self.old }
        requires fit { IsFit (machine_at self.old) effect.now }
        requires spoken { IsSpoken origin (machine_at self.old) effect.now }
        ensures ok { OnOk result (Changes effect.now self.old out.old self.new out.new) }
        ensures ready { OnOk result (IsReady self.new) }
    {
        let around = Around {
            room: &self.room,
            routes: &self.routes,
            ends: &self.ends,
            clients: &self.clients,
            named: self.room.named(effect),
        };
        if is_elsewhere(around, effect) {
            return Ok(());
        }
        let mut shown = Text::new();
        self.listeners
            .hear(around, origin, effect, &mut shown, out)?;
        settle(&mut self.room, &mut self.clients, &mut self.ways, effect)?;
        Ok(())
    }

    /// A connection that is no user is this client from now on.
    ///
    /// # Errors
    /// Where memory runs out.
    pub(crate) fn seat(&mut self, conn: Conn, client: Client) -> Result<(), AllocError>
        requires ready { IsReady self.old }
        requires no_user { IsNoUser (client_of (machine_at self.old) conn) }
        requires free { IsFreeOf client (view_of self.old).clients }
        ensures ok { OnOk result (view_of self.new ≡ seated conn client (view_of self.old)) }
        ensures ready { OnOk result (IsReady self.new) }
    {
        self.listeners.seat(&self.room, conn, &client)?;
        clients::seat(&mut self.clients, conn, client)?;
        Ok(())
    }

    /// Takes out the client of a connection.
    pub(crate) fn take_out(&mut self, conn: Conn)
        requires ready { IsReady self.old }
        ensures ok { view_of self.new ≡ unseated conn (view_of self.old) }
        ensures ready { IsReady self.new }
    {
        let client = clients::client_of(&self.clients, conn);
        self.listeners.take_out(&self.room, client);
        clients::take_out(&mut self.clients, conn);
    }

    /// The user of a nickname quits with this text, if there is one.
    ///
    /// # Errors
    /// Where memory runs out.
    pub(crate) fn quit(
        &mut self,
        nick: &Nick,
        text: &Words,
        out: &mut Batch,
    ) -> Result<(), AllocError>
        requires ready { IsReady self.old }
        requires matched { IsMatched (machine_at self.old) }
        ensures ok { OnOk result (Quits nick.now text.now self.old out.old self.new out.new) }
        ensures ready { OnOk result (IsReady self.new) }
    {
        if self.room.user(nick.as_bytes()).is_none() {
            return Ok(());
        }
        let quit = Effect::Quit {
            nick: nick.copy(),
            text: text.copy(),
        };
        self.change(Origin::Own, &quit, out)
    }

    /// The user of a client's nickname, if it is one.
    fn user_of(&self, speaker: Speaker<'_>) -> Option<&User>
        ensures { option_copied result
            ≡ user_under (view_of self.now).room (optional_now speaker.entry.nick) }
    {
        match speaker.nick {
            Some(nick) => self.room.user(nick.as_bytes()),
            None => None,
        }
    }

    /// What a client asks, if it asks something, is answered from the room as it is. Nothing is
    /// changed.
    ///
    /// # Errors
    /// Where memory runs out.
    #[tactic(auto, unfolding(irc_commands::specs::CodeViews::asked_steps))]
    pub fn answer(
        &self,
        speaker: Speaker<'_>,
        query: Option<Query>,
        params: &[&[u8]],
        out: &mut Batch,
    ) -> Result<(), AllocError>
        ensures { OnOk result
            (AnswersSpeaker speaker.entry query (words_now params.now) self.now out.old out.new) }
    {
        let Some(query) = query else {
            return Ok(());
        };
        let Some(me) = self.user_of(speaker) else {
            return Ok(());
        };
        let context = Context {
            alloc: self.alloc,
            room: &self.room,
            routes: &self.routes,
            me,
        };
        answer(&context, query, params, speaker.conn().number(), out)
    }
}

/// A line on each of these links. Where there is none it is not taken to hand.
pub(crate) fn send_on_all(line: &Text, links: &[Link], out: &mut Batch) -> Result<(), AllocError>
    ensures { OnOk result (out.new.outs ≡ out.old.outs ++ lines_on links.now line.now.items) }
{
    if links.is_empty() {
        return Ok(());
    }
    out.hold(line)?;
    for link in links {
        out.send_on(link.number())?;
    }
    Ok(())
}
