//! A server while the event of a client is handled: what each step of a decision does to it, and
//! what it puts out.
ghost use Rattle.std.specs.Prelude.{◌≡◌, [], ◌∷◌, IfOk};
ghost use Rattle.irc_line.specs.MessageViews.{optional_now};
ghost use Rattle.irc_line.specs.PartViews.{words_now};
ghost use Rattle.irc_stage.specs.ClientTold.{closed_told, step_told, steps_told};
ghost use Rattle.irc_stage.specs.EffectTold.{client_ended, effect_told, quit_by};
ghost use Rattle.irc_stage.specs.Matched.{IsMatched};
ghost use Rattle.irc_stage.specs.RoomMachine.{client_of};
ghost use Rattle.irc_stage.specs.View.{machine_of};
ghost use Rattle.irc_stage.specs.Loops.Handling.{answered_to, seated_in, unseated_in};
ghost use Rattle.irc_stage.specs.Loops.Speaking.{arrival_of, AreSpokenAt, IsSpoken};
ghost use Rattle.irc_stage.specs.Loops.Parts.{AreFitAt, IsFit, IsFreeOf, IsNoUser};

use crate::clients::{Client, number_of};
use crate::numbers::Conn;
use crate::origin::{Origin, Speaker};
use crate::parts::ServerParts;
use crate::serving::Serving;
use crate::view::View;
use irc_acts::Act;
use irc_batch::Batch;
use irc_channels::Words;
use irc_commands::closing;
use irc_names::Nick;
use irc_numerics::reply_line;
use irc_queries::Query;
use irc_room::Effect;
use std::alloc::{AllocError, Global};
use std::marker::Model;

/// A server while the event of a client is handled: its clients and its users need not be matched.
#[derive(Drop)]
pub struct Handling {
    pub(crate) parts: Box<ServerParts, Global>,
    pub(crate) out: Batch,
}

/// In a clause it is what the server is to those above, and what it has put out.
impl Model for Handling {
    ghost use Rattle.irc_batch.specs.contracts.batch.Batch.{the_row as batch_row};
    ghost use Rattle.irc_users.specs.UserTable.{users_code};
    ghost use Rattle.irc_channels.specs.contracts.channel.Channel.{the_row as channel_row};
    ghost use Rattle.irc_routes.specs.contracts.routes.Routes.{the_row as routes_row};
    ghost use Rattle.irc_stage.specs.contracts.clients.Client.{the_row as client_row};
    ghost use Rattle.irc_stage.specs.EffectTold.{Served};
    ghost use Rattle.irc_stage.specs.Loops.Codes.{served_code, view_code};
    ghost use Rattle.irc_stage.specs.Loops.Parts.{served_at, IsReady};

    ghost Value = { Served };

    ghost coded = { served_code
        (view_code routes_row.coded client_row.coded users_code channel_row.coded)
        batch_row.coded };

    ghost view = { λ h. served_at h.parts.value h.out.outs };

    ghost invariant = { λ h. IsReady h.parts.value };
}

impl Handling {
    /// What it is now.
    pub fn view(&self) -> View<'_>
        ensures { result ≡ self.now.state }
    {
        View::of(&self.parts)
    }

    /// Its clients and its users are matched again.
    pub fn settle(self) -> Serving
        requires matched { IsMatched (machine_of self.state) }
        ensures { result ≡ self }
    {
        Serving {
            parts: self.parts,
            out: self.out,
        }
    }

    /// A connection that is no user is this client from now on.
    ///
    /// # Errors
    /// Where memory runs out.
    pub fn seat(mut self, conn: Conn, client: Client) -> Result<Self, AllocError>
        requires no_user { IsNoUser (client_of (machine_of self.state) conn) }
        requires free { IsFreeOf client self.state.clients }
        ensures { IfOk result (λ seated. seated ≡ seated_in conn client self) }
    {
        self.parts.seat(conn, client)?;
        Ok(self)
    }

    /// Takes out the client of a connection.
    pub fn take_out(mut self, conn: Conn) -> Self
        ensures { result ≡ unseated_in conn self }
    {
        self.parts.take_out(conn);
        self
    }

    /// An effect changes the room, is shown to its viewers, and is told on links.
    ///
    /// # Errors
    /// Where memory runs out.
    pub fn apply(mut self, origin: Origin<'_>, effect: &Effect) -> Result<Self, AllocError>
        requires fit { IsFit (machine_of self.state) effect.now }
        requires spoken { IsSpoken origin (machine_of self.state) effect.now }
        ensures { IfOk result
            (λ told. told ≡ effect_told (arrival_of origin.entry) effect.now self) }
    {
        self.parts.apply(origin, effect, &mut self.out)?;
        Ok(self)
    }

    /// The user of a nickname quits with this text, if there is one.
    ///
    /// # Errors
    /// Where memory runs out.
    pub(crate) fn quit(mut self, nick: &Nick, text: &Words) -> Result<Self, AllocError>
        requires matched { IsMatched (machine_of self.state) }
        ensures { IfOk result (λ left. left ≡ quit_by nick.now text.now self) }
    {
        self.parts.quit(nick, text, &mut self.out)?;
        Ok(self)
    }

    /// The client of a nickname, if it is one of the server's, is told why and closed.
    ///
    /// # Errors
    /// Where memory runs out.
    pub(crate) fn end_client(mut self, nick: &Nick, text: &Words) -> Result<Self, AllocError>
        ensures { IfOk result (λ ended. ended ≡ client_ended nick.now text.now self) }
    {
        let Some(conn) = number_of(&self.parts.clients, nick) else {
            return Ok(self);
        };
        self.out.put(conn.number(), &closing::error(text))?;
        self.out.close(conn.number())?;
        Ok(self.take_out(conn))
    }

    /// One step of a decision of a client.
    fn step(mut self, speaker: Speaker<'_>, act: &Act) -> Result<Self, AllocError>
        requires fit { AreFitAt self.state (act.now ∷ []) }
        requires spoken { AreSpokenAt speaker.conn self.state (act.now ∷ []) }
        ensures { IfOk result (λ done. done
            ≡ step_told speaker.entry.conn (optional_now speaker.entry.nick) act.now self) }
    {
        match act {
            Act::Answer(reply) => {
                let line = reply_line(self.parts.routes.name(), speaker.nick, reply);
                self.out.put(speaker.conn().number(), &line)?;
                Ok(self)
            }
            Act::Raw(line) => {
                self.out.put(speaker.conn().number(), line)?;
                Ok(self)
            }
            Act::Do(effect) => self.apply(Origin::Client(speaker), effect),
        }
    }

    /// The steps of a decision of a client, one after another.
    fn take_steps(mut self, speaker: Speaker<'_>, steps: &[Act]) -> Result<Self, AllocError>
        requires fit { AreFitAt self.state steps.now }
        requires spoken { AreSpokenAt speaker.conn self.state steps.now }
        ensures { IfOk result (λ done. done
            ≡ steps_told speaker.entry.conn (optional_now speaker.entry.nick) steps.now self) }
    {
        for act in steps {
            self = self.step(speaker, act)?;
        }
        Ok(self)
    }

    /// A decision of a client is carried out: its steps, and then the client is closed where it
    /// says so.
    ///
    /// # Errors
    /// Where memory runs out.
    pub fn carry_out(
        self,
        speaker: Speaker<'_>,
        steps: &[Act],
        close: bool,
    ) -> Result<Self, AllocError>
        requires fit { AreFitAt self.state steps.now }
        requires spoken { AreSpokenAt speaker.conn self.state steps.now }
        ensures { IfOk result (λ done. done ≡ closed_told close speaker.entry.conn
            (steps_told speaker.entry.conn (optional_now speaker.entry.nick) steps.now self)) }
    {
        let handling = self.take_steps(speaker, steps)?;
        if !close {
            return Ok(handling);
        }
        let mut handling = handling.take_out(speaker.conn());
        handling.out.close(speaker.conn().number())?;
        Ok(handling)
    }

    /// What a client asks, if it asks something, is answered from the room as it is. Nothing is
    /// changed.
    ///
    /// # Errors
    /// Where memory runs out.
    pub fn answer(
        mut self,
        speaker: Speaker<'_>,
        query: Option<Query>,
        params: &[&[u8]],
    ) -> Result<Self, AllocError>
        ensures { IfOk result
            (λ told. told ≡ answered_to speaker.entry query (words_now params.now) self) }
    {
        self.parts.answer(speaker, query, params, &mut self.out)?;
        Ok(self)
    }
}
