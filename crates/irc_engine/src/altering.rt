//! A change of an engine between two of its turns.
ghost use Rattle.std.specs.Prelude.{◌≡◌};
ghost use Rattle.irc_outbox.specs.Calls.{Keeps};
ghost use Rattle.irc_engine.specs.Altering.{IsAltered};

use crate::engine::Engine;
use crate::machine::Machine;
use irc_outbox::Wire;

/// A change of a wire, and of a machine whose server stays as it is.
pub trait Alteration<W: Wire, M: Machine> {
    /// What comes of it: of the wire and the machine as they were, and as they are then.
    ghost alters: { Self → W → M → W → M → Type 0 };

    /// Makes the change.
    fn alter(self, wire: &mut W, machine: &mut M)
        ensures altered { alters self wire.old machine.old wire.new machine.new }
        ensures keeps { Keeps W.is_after wire.old wire.new }
        ensures server { M.server_of machine.new ≡ M.server_of machine.old };
}

impl<W: Wire, M: Machine> Engine<W, M> {
    ghost use Rattle.irc_engine.specs.EngineView.{engine_view};

    /// Makes a change between two turns. Connections, and what waits for them, stay as they are.
    pub fn alter<A: Alteration<W, M>>(&mut self, alteration: A)
        ensures { IsAltered W.is_after M.server_of (A.alters alteration) (engine_view self.old)
            (engine_view self.new) }
    {
        alteration.alter(&mut self.core.connections.wire, &mut self.core.machine);
    }
}
