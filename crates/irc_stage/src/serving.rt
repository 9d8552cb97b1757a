//! A server while an event is handled, and what comes to it by its links.
ghost use Rattle.std.specs.Prelude.{◌≡◌, None, Some, IfOk};
ghost use Rattle.std.specs.FinMap.{get};
ghost use Rattle.irc_stage.specs.EffectTold.{changed_if, effect_came, taken_out};
ghost use Rattle.irc_stage.specs.Linked.{unlinked, with_far, with_password, with_title};
ghost use Rattle.irc_stage.specs.Linked.{without_row};
ghost use Rattle.irc_stage.specs.View.{with_end};
ghost use Rattle.irc_stage.specs.Ways.{IsMetEnd};
ghost use Rattle.irc_stage.specs.Loops.Handling.{closed_for, told_on, told_to_all, where_it_is};
ghost use Rattle.irc_stage.specs.Loops.Handling.{IsGained};

use crate::handling::Handling;
use crate::numbers::Link;
use crate::parts::ServerParts;
use crate::view::View;
use irc_batch::{Batch, CloseReason};
use irc_channels::Words;
use irc_line::Text;
use irc_link_words::Password;
use irc_names::{ChannelName, Nick, ServerName};
use irc_room::Effect;
use irc_routes::Newcomer;
use std::alloc::{AllocError, Global};
use std::marker::Model;

/// A server while an event is handled, and what it has put out: its clients and its users are
/// matched.
#[derive(Drop)]
pub struct Serving {
    pub(crate) parts: Box<ServerParts, Global>,
    pub(crate) out: Batch,
}

/// In a clause it is what the server is to those above, and what it has put out.
impl Model for Serving {
    ghost use Rattle.irc_batch.specs.contracts.batch.Batch.{the_row as batch_row};
    ghost use Rattle.irc_users.specs.UserTable.{users_code};
    ghost use Rattle.irc_channels.specs.contracts.channel.Channel.{the_row as channel_row};
    ghost use Rattle.irc_routes.specs.contracts.routes.Routes.{the_row as routes_row};
    ghost use Rattle.irc_stage.specs.contracts.clients.Client.{the_row as client_row};
    ghost use Rattle.irc_stage.specs.EffectTold.{Served};
    ghost use Rattle.irc_stage.specs.Loops.Codes.{served_code, view_code};
    ghost use Rattle.irc_stage.specs.Loops.Parts.{served_at, IsServing};

    ghost Value = { Served };

    ghost coded = { served_code
        (view_code routes_row.coded client_row.coded users_code channel_row.coded)
        batch_row.coded };

    ghost view = { λ s. served_at s.parts.value s.out.outs };

    ghost invariant = { λ s. IsServing s.parts.value };
}

impl Serving {
    /// What it is now.
    pub fn view(&self) -> View<'_>
        ensures { result ≡ self.now.state }
    {
        View::of(&self.parts)
    }

    /// A client's steps are to be taken.
    pub fn handling(self) -> Handling
        ensures { result ≡ self }
    {
        Handling {
            parts: self.parts,
            out: self.out,
        }
    }

    /// A link is open from now on: this end calls the server of this name, or is called.
    ///
    /// # Errors
    /// Where memory runs out.
    pub fn open_link(mut self, link: Link, starts: Option<ServerName>) -> Result<Self, AllocError>
        requires new { get self.state.ends link ≡ None }
        ensures { IfOk result
            (λ opened. opened ≡ where_it_is (with_end link starts self.state) self) }
    {
        self.parts.open_link(link, starts)?;
        Ok(self)
    }

    /// The server at the other end of a link has given this password.
    pub fn take_password(mut self, link: Link, password: Password) -> Self
        ensures { result ≡ where_it_is (with_password link password self.state) self }
    {
        self.parts.take_password(link, password);
        self
    }

    /// The server at the other end of a link has named itself: from now on the link counts.
    pub fn meet(mut self, link: Link, name: ServerName) -> Self
        ensures { result ≡ where_it_is (with_far link name self.state) self }
    {
        self.parts.meet(link, name);
        self
    }

    /// A link is open no more, and nobody is known behind it.
    pub fn unlink(mut self, link: Link) -> Self
        ensures { result ≡ where_it_is (unlinked link self.state) self }
    {
        self.parts.unlink(link);
        self
    }

    /// A server more is known from now on, behind a link that counts, unless it is known already,
    /// there is no room for it, or its number is taken. Answers whether it is.
    ///
    /// # Errors
    /// Where memory runs out.
    pub fn add_server(
        mut self,
        link: Link,
        newcomer: &Newcomer<'_>,
    ) -> Result<(Self, bool), AllocError>
        requires met { IsMetEnd (get self.state.ends link) }
        ensures { IfOk result (λ gained. IsGained link newcomer.now self gained.1 gained.0) }
    {
        let is_known = self.parts.add_server(link, newcomer)?;
        Ok((self, is_known))
    }

    /// A server is known no more.
    pub fn remove_server(mut self, name: &ServerName) -> Self
        ensures { result ≡ where_it_is (without_row name.now self.state) self }
    {
        self.parts.remove_server(name);
        self
    }

    /// A channel that another side has too takes that side's spelling, where it is the greater by
    /// bytes. Nobody is shown it, and behind which links somebody listens is to be found anew. A
    /// channel that is not there stays so: its first member makes it.
    pub fn respell(mut self, channel: &ChannelName) -> Self
        ensures { result ≡ where_it_is (with_title channel.now self.state) self }
    {
        self.parts.respell(channel);
        self
    }

    /// A line on a link.
    ///
    /// # Errors
    /// Where memory runs out.
    pub fn tell_on(mut self, link: Link, line: &Text) -> Result<Self, AllocError>
        ensures { IfOk result (λ told. told ≡ told_on link line.now.items self) }
    {
        self.out.put_on(link.number(), line)?;
        Ok(self)
    }

    /// The end of a link, for a reason.
    ///
    /// # Errors
    /// Where memory runs out.
    pub fn close_link(mut self, link: Link, reason: CloseReason) -> Result<Self, AllocError>
        ensures { IfOk result (λ closed. closed ≡ closed_for link reason self) }
    {
        self.out.close_link(link.number(), reason)?;
        Ok(self)
    }

    /// A line on every link that counts, but for the one by which it came.
    ///
    /// # Errors
    /// Where memory runs out.
    pub fn tell_all(mut self, arrival: Option<Link>, line: &Text) -> Result<Self, AllocError>
        ensures { IfOk result (λ told. told ≡ told_to_all arrival line.now.items self) }
    {
        self.parts.tell_all(arrival, line, &mut self.out)?;
        Ok(self)
    }

    /// An effect comes by a link, and is told on: where it counts.
    ///
    /// # Errors
    /// Where memory runs out.
    pub fn come(mut self, link: Link, effect: &Effect) -> Result<Self, AllocError>
        ensures { IfOk result (λ come. come ≡ effect_came (Some link) effect.now self) }
    {
        self.parts.come(link, effect, &mut self.out)?;
        Ok(self)
    }

    /// An effect comes by a link, and is not told on by itself: where it counts.
    ///
    /// # Errors
    /// Where memory runs out.
    pub fn take_effect(mut self, link: Link, effect: &Effect) -> Result<Self, AllocError>
        ensures { IfOk result (λ taken. taken ≡ changed_if effect.now self) }
    {
        self.parts.take_effect(link, effect, &mut self.out)?;
        Ok(self)
    }

    /// The user of a nickname quits with this text, and the client that it is, if it is one of the
    /// server's, is told why and closed.
    ///
    /// # Errors
    /// Where memory runs out.
    pub fn remove_user(self, nick: &Nick, text: &Words) -> Result<Self, AllocError>
        ensures { IfOk result (λ removed. removed ≡ taken_out nick.now text.now self) }
    {
        let _ = &self.parts;
        let left = self.handling().quit(nick, text)?;
        Ok(left.end_client(nick, text)?.settle())
    }
}
