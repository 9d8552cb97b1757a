//! What a server keeps of its links and of the servers behind them, and what comes by its links.
ghost use Rattle.std.specs.Prelude.{◌≡◌, false, None, Some, IfOk, OnOk};
ghost use Rattle.std.specs.FinMap.{get, insert};
ghost use Rattle.std.specs.Option.{option_copied, option_map_or};
ghost use Rattle.irc_users.specs.UserTable.{is_home};
ghost use Rattle.irc_room.specs.Effects.{brings_free};
ghost use Rattle.irc_room.specs.Loops.Naming.{IsNamed};
ghost use Rattle.irc_stage.specs.EffectTold.{counts, is_of_here};
ghost use Rattle.irc_stage.specs.Linked.{unlinked, with_far, with_password, with_title};
ghost use Rattle.irc_stage.specs.Linked.{without_row};
ghost use Rattle.irc_stage.specs.View.{View, with_end};
ghost use Rattle.irc_stage.specs.Loops.Linking.{takes_newcomer, IsKnownIf, IsMetAt, IsToldToAll};
ghost use Rattle.irc_stage.specs.Loops.Parts.{numbered, view_of, ChangesIf, ComesByLink};
ghost use Rattle.irc_stage.specs.Loops.Parts.{IsServing};

use crate::LinkEnd;
use crate::numbers::Link;
use crate::origin::Origin;
use crate::parts::{ServerParts, send_on_all};
use irc_batch::Batch;
use irc_line::Text;
use irc_link_words::Password;
use irc_names::{ChannelName, ServerName};
use irc_room::{Effect, Named, Room, does};
use irc_routes::{Newcomer, Routes, RoutesFault};
use irc_users::User;
use std::alloc::{AllocError, Global};
use std::collections::BTreeMap;

impl ServerParts {
    /// The end of a link, if it is open.
    pub fn end(&self, link: Link) -> Option<&LinkEnd>
        ensures { option_copied result ≡ get (view_of self.now).ends link }
    {
        self.ends.get(&link)
    }

    /// The server at the other end of a link has given this password.
    pub fn take_password(&mut self, link: Link, password: Password)
        requires serving { IsServing self.old }
        ensures ok { view_of self.new ≡ with_password link password (view_of self.old) }
        ensures serving { IsServing self.new }
    {
        if let Some(end) = self.ends.get_mut(&link) {
            end.take_password(password);
        }
    }

    /// The server at the other end of a link has named itself: from now on the link counts.
    pub fn meet(&mut self, link: Link, name: ServerName)
        requires serving { IsServing self.old }
        ensures ok { view_of self.new ≡ with_far link name (view_of self.old) }
        ensures serving { IsServing self.new }
    {
        if let Some(end) = self.ends.get_mut(&link) {
            end.meet(name);
        }
    }

    /// A link is open from now on: this end calls the server of this name, or is called.
    ///
    /// # Errors
    /// Where memory runs out.
    pub(crate) fn open_link(
        &mut self,
        link: Link,
        starts: Option<ServerName>,
    ) -> Result<(), AllocError>
        requires serving { IsServing self.old }
        requires new { get (view_of self.old).ends link ≡ None }
        ensures ok { OnOk result (view_of self.new ≡ with_end link starts (view_of self.old)) }
        ensures serving { OnOk result (IsServing self.new) }
    {
        put_end(&mut self.ends, link, LinkEnd::new(starts))?;
        Ok(())
    }

    /// A link is open no more, and nobody is known behind it.
    pub(crate) fn unlink(&mut self, link: Link)
        requires serving { IsServing self.old }
        ensures ok { view_of self.new ≡ unlinked link (view_of self.old) }
        ensures serving { IsServing self.new }
    {
        self.ways.forget();
        self.routes.lose(link.number());
        self.ends.remove(&link);
    }

    /// A server more is known from now on, behind a link that counts, unless it is known already,
    /// there is no room for it, or its number is taken. Answers whether it is.
    ///
    /// # Errors
    /// Where memory runs out.
    pub(crate) fn add_server(
        &mut self,
        link: Link,
        newcomer: &Newcomer<'_>,
    ) -> Result<bool, AllocError>
        requires serving { IsServing self.old }
        requires met { IsMetAt link self.old }
        ensures is_known { IfOk result
            (λ is_known. is_known ≡ takes_newcomer link newcomer.now (view_of self.old)) }
        ensures known { IfOk result (IsKnownIf link newcomer.now self.old self.new) }
        ensures serving { OnOk result (IsServing self.new) }
    {
        let link = link.number();
        if self.routes.token_in(link, newcomer.token).is_some() {
            return Ok(false);
        }
        self.ways.forget();
        match self.routes.add_server(link, newcomer) {
            Ok(()) => Ok(true),
            Err(RoutesFault::Memory) => Err(AllocError),
            Err(_) => Ok(false),
        }
    }

    /// A server is known no more.
    pub(crate) fn remove_server(&mut self, name: &ServerName)
        requires serving { IsServing self.old }
        ensures ok { view_of self.new ≡ without_row name.now (view_of self.old) }
        ensures serving { IsServing self.new }
    {
        self.ways.forget();
        self.routes.remove(name.as_bytes());
    }

    /// A channel takes another side's spelling, where it is the greater by bytes. Behind which
    /// links somebody listens is to be found anew.
    pub(crate) fn respell(&mut self, channel: &ChannelName)
        requires serving { IsServing self.old }
        ensures ok { view_of self.new ≡ with_title channel.now (view_of self.old) }
        ensures serving { IsServing self.new }
    {
        self.ways.forget();
        let _ = self.room.respell(channel);
    }

    /// A line on every link that counts, but for the one by which it came.
    ///
    /// # Errors
    /// Where memory runs out.
    pub(crate) fn tell_all(
        &mut self,
        arrival: Option<Link>,
        line: &Text,
        out: &mut Batch,
    ) -> Result<(), AllocError>
        requires serving { IsServing self.old }
        ensures ok { OnOk result
            (IsToldToAll arrival line.now.items self.old out.old self.new out.new) }
        ensures serving { OnOk result (IsServing self.new) }
    {
        self.ways.find_met(arrival, &self.ends)?;
        send_on_all(line, self.ways.links.as_slice(), out)
    }

    /// An effect comes by a link, and is told on: where it counts.
    ///
    /// # Errors
    /// Where memory runs out.
    pub(crate) fn come(
        &mut self,
        link: Link,
        effect: &Effect,
        out: &mut Batch,
    ) -> Result<(), AllocError>
        requires serving { IsServing self.old }
        ensures ok { OnOk result
            (ComesByLink (Some link) effect.now self.old out.old self.new out.new) }
        ensures serving { OnOk result (IsServing self.new) }
    {
        if !self.counts(effect) {
            return Ok(());
        }
        let origin = Origin::link(link);
        self.apply(origin, effect, out)
    }

    /// An effect comes by a link, and is not told on by itself: where it counts.
    ///
    /// # Errors
    /// Where memory runs out.
    pub(crate) fn take_effect(
        &mut self,
        link: Link,
        effect: &Effect,
        out: &mut Batch,
    ) -> Result<(), AllocError>
        requires serving { IsServing self.old }
        ensures ok { OnOk result (ChangesIf effect.now self.old out.old self.new out.new) }
        ensures serving { OnOk result (IsServing self.new) }
    {
        if !self.counts(effect) {
            return Ok(());
        }
        let origin = Origin::link(link);
        self.change(origin, effect, out)
    }

    /// Whether an effect counts of which a link tells.
    fn counts(&self, effect: &Effect) -> bool
        ensures { result ≡ counts (view_of self.now) effect.now }
    {
        let named = self.room.named(effect);
        if !does(effect, named) {
            return false;
        }
        if !is_free(&self.room, effect) {
            return false;
        }
        !is_of_here(&self.routes, named, effect)
    }
}

/// Whether a user of the server's own comes, leaves or speaks by an effect.
fn is_of_here(routes: &Routes, named: Named<'_>, effect: &Effect) -> bool
    ensures { (view : View) → IsNamed view.room effect.now named.entry
        → result ≡ is_of_here (record view { routes = routes.now }) effect.now }
{
    match effect {
        Effect::AddUser(user) => user.is_home(routes.name()),
        Effect::Quit { .. } => is_home(routes, named.doer),
        Effect::Say { .. } => is_home(routes, named.doer),
        _ => false,
    }
}

/// Whether a user was found whose home this server is.
fn is_home(routes: &Routes, user: Option<&User>) -> bool
    ensures { result ≡ option_map_or (is_home routes.now.name) (option_copied user.entry) false }
{
    match user {
        Some(user) => user.is_home(routes.name()),
        None => false,
    }
}

/// Whether the nickname that an effect brings, if it brings one, is nobody's, or its own user's.
fn is_free(room: &Room, effect: &Effect) -> bool
    ensures { result ≡ brings_free room.now.room effect.now }
{
    match effect {
        Effect::AddUser(user) => room.user(user.nick.as_bytes()).is_none(),
        Effect::Rename { nick, new } => room.user(new.as_bytes()).is_none() || nick == new,
        _ => true,
    }
}

/// A link has this end from now on.
fn put_end(
    ends: &mut BTreeMap<Link, LinkEnd, Global>,
    link: Link,
    end: LinkEnd,
) -> Result<(), AllocError>
    ensures { OnOk result (numbered ends.new ≡ insert (numbered ends.old) link end) }
{
    match ends.insert(link, end) {
        Ok(_) => Ok(()),
        Err(_) => Err(AllocError),
    }
}
