//! A server between two events.
ghost use Rattle.std.specs.Prelude.{◌≡◌, [], ◌++◌, IfOk, OnErr, OnOk};
ghost use Rattle.irc_room.specs.Room.{IsWellFormed};
ghost use Rattle.irc_routes.specs.Known.{others};
ghost use Rattle.irc_stage.specs.EffectTold.{in_silence};
ghost use Rattle.irc_stage.specs.Matched.{IsMatched};
ghost use Rattle.irc_stage.specs.View.{machine_of, new_view};

use crate::parts::ServerParts;
use crate::peer::Peer;
use crate::serving::Serving;
use crate::view::View;
use irc_batch::Batch;
use irc_routes::Routes;
use std::alloc::{AllocError, Global};
use std::marker::Model;

/// A server between two events: it serves, and has nothing to put out. What it is made of lies in
/// memory of its own, so that a pointer is moved from call to call.
#[derive(Drop)]
pub struct Stage {
    pub(crate) parts: Box<ServerParts, Global>,
    pub(crate) out: Batch,
}

/// In a clause it is what the server is to those above.
impl Model for Stage {
    ghost use Rattle.irc_users.specs.UserTable.{users_code};
    ghost use Rattle.irc_channels.specs.contracts.channel.Channel.{the_row as channel_row};
    ghost use Rattle.irc_routes.specs.contracts.routes.Routes.{the_row as routes_row};
    ghost use Rattle.irc_stage.specs.contracts.clients.Client.{the_row as client_row};
    ghost use Rattle.irc_stage.specs.View.{View};
    ghost use Rattle.irc_stage.specs.Loops.Codes.{view_code};
    ghost use Rattle.irc_stage.specs.Loops.Handling.{IsAtRest};
    ghost use Rattle.irc_stage.specs.Loops.Parts.{view_of};

    ghost Value = { View };

    ghost coded = { view_code routes_row.coded client_row.coded users_code channel_row.coded };

    ghost view = { λ s. view_of s.parts.value };

    ghost invariant = { λ s. IsAtRest s.parts.value s.out };
}

/// A server that has taken no event yet: it has no memory of its own.
#[derive(Drop)]
pub struct FirstStage {
    parts: ServerParts,
}

/// In a clause it is what the server is to those above.
impl Model for FirstStage {
    ghost use Rattle.irc_users.specs.UserTable.{users_code};
    ghost use Rattle.irc_channels.specs.contracts.channel.Channel.{the_row as channel_row};
    ghost use Rattle.irc_routes.specs.contracts.routes.Routes.{the_row as routes_row};
    ghost use Rattle.irc_stage.specs.contracts.clients.Client.{the_row as client_row};
    ghost use Rattle.irc_stage.specs.View.{View};
    ghost use Rattle.irc_stage.specs.Loops.Codes.{view_code};
    ghost use Rattle.irc_stage.specs.Loops.Parts.{view_of, IsServing};

    ghost Value = { View };

    ghost coded = { view_code routes_row.coded client_row.coded users_code channel_row.coded };

    ghost view = { λ s. view_of s.parts };

    ghost invariant = { λ s. IsServing s.parts };
}

impl FirstStage {
    /// A server without clients, linked to none, in an empty room.
    pub fn new(alloc: Global, routes: Routes, peers: Vec<Peer, Global>) -> Self
        requires alone { others routes ≡ [] }
        ensures { result ≡ new_view routes peers.items }
    {
        FirstStage {
            parts: ServerParts::new(alloc, routes, peers),
        }
    }

    /// What it is now.
    pub fn view(&self) -> View<'_>
        ensures { result ≡ self.now }
    {
        View::of(&self.parts)
    }

    /// It takes an event: from now on it is in memory of its own.
    ///
    /// # Errors
    /// Where memory runs out.
    pub fn boxed(self) -> Result<Stage, AllocError>
        ensures { IfOk result (λ stage. stage ≡ self) }
    {
        let alloc = self.parts.alloc();
        let parts = Box::new(alloc, self.parts)?;
        Ok(Stage {
            parts,
            out: Batch::new(alloc),
        })
    }
}

impl Stage {
    /// What it is now.
    pub fn view(&self) -> View<'_>
        ensures { result ≡ self.now }
    {
        View::of(&self.parts)
    }

    /// That its clients and its users are matched, and its room is well formed.
    pub fn know_serving(&self)
        ensures matched { IsMatched (machine_of self.now) }
        ensures well_formed { IsWellFormed self.now.room }
    {
        let _ = &self.parts;
    }

    /// An event is to be handled.
    pub fn begin(self) -> Serving
        ensures { result ≡ in_silence self }
    {
        Serving {
            parts: self.parts,
            out: self.out,
        }
    }
}

impl Serving {
    /// The event is handled: what was put out is appended to `out`.
    ///
    /// # Errors
    /// Where memory runs out; nothing is appended then.
    pub fn end(mut self, out: &mut Batch) -> Result<Stage, AllocError>
        ensures stage { IfOk result (λ stage. stage ≡ self.state) }
        ensures appended { OnOk result (out.new.outs ≡ out.old.outs ++ self.out) }
        ensures refused { OnErr result (out.new.outs ≡ out.old.outs) }
    {
        out.append(&mut self.out)?;
        Ok(Stage {
            parts: self.parts,
            out: self.out,
        })
    }
}
