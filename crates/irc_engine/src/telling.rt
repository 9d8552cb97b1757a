//! What an engine says of its links, behind each of its turns.
ghost use Rattle.std.specs.Prelude.{◌≡◌};
ghost use Rattle.irc_outbox.specs.Calls.{Keeps};
ghost use Rattle.irc_journal.specs.Saying.{AreTold, TellsOne};
ghost use Rattle.irc_engine.specs.EngineView.{engine_view};
ghost use Rattle.irc_engine.specs.Telling.{call_told, IsNoticeSaid, RunsTellingBy, Tells};
ghost use Rattle.irc_engine.specs.Telling.{TellsTurnedBy};

use crate::engine::{Engine, EngineFault};
use crate::machine::Machine;
use irc_journal::{Journal, Outcome, Tidings, say_call, say_connections};
use irc_moments::Moment;
use irc_names::Host;
use irc_outbox::{Notice, Unreached, Wire};
use std::io::Write;

impl<W: Wire, M: Machine> Engine<W, M> {
    /// Takes so many turns, up to the first that is not done; that one is the last. Behind each,
    /// that one too, it says what there is to tell.
    ///
    /// # Errors
    /// As [`Engine::turn`], for that turn.
    pub fn run_telling<E: Write>(&mut self, turns: u64, errors: &mut E) -> Result<(), EngineFault>
        ensures { RunsTellingBy W.is_after M.server_of M.handles M.dues (engine_view self.old)
            (E.contents
            errors.old) turns
            (engine_view self.new) (E.contents errors.new) result }
    {
        for _turn in 0..turns {
            self.turn_telling(errors)?;
        }
        Ok(())
    }

    /// Takes one turn, and says what there is to tell.
    ///
    /// # Errors
    /// As [`Engine::turn`].
    pub fn turn_telling<E: Write>(&mut self, errors: &mut E) -> Result<(), EngineFault>
        ensures { TellsTurnedBy W.is_after M.server_of M.handles M.dues (engine_view self.old)
            (engine_view self.new)
            (E.contents errors.old) (E.contents errors.new) result }
    {
        let turned = self.turn();
        self.tell(errors);
        turned
    }

    /// The moment at which the last turn began, by the wire's clock.
    pub fn moment(&self) -> Moment {
        self.core.connections.wire.moment()
    }

    /// Says what there is to tell of links, and what the wire has to tell; the wire is told which
    /// links are up. Nothing that this cannot do ends anything.
    pub fn tell<E: Write>(&mut self, errors: &mut E)
        ensures { Tells W.is_after (engine_view self.old) (engine_view self.new)
            (E.contents errors.old) (E.contents errors.new) }
    {
        let core = &mut self.core;
        let told = core.journal.take(core.alloc);
        let wire = &mut core.connections.wire;
        tell_links(&told, wire.moment(), &mut core.journal, wire, errors);
        say_notice(wire.notice(), errors);
    }
}

/// Tells all this of links at a moment.
fn tell_links<W: Wire, E: Write>(
    all: &[Tidings],
    moment: Moment,
    journal: &mut Journal,
    wire: &mut W,
    errors: &mut E,
)
    ensures told { AreTold moment all.now journal.old journal.new
        (E.contents errors.old) (E.contents errors.new) }
    ensures keeps { Keeps W.is_after wire.old wire.new }
{
    let mut rest = all;
    while let Some((tidings, more)) = rest.split_first() {
        tell_link(tidings, moment, journal, wire, errors);
        rest = more;
    }
}

/// Tells this of a link at a moment, and the wire that it is up, if it is.
fn tell_link<W: Wire, E: Write>(
    tidings: &Tidings,
    moment: Moment,
    journal: &mut Journal,
    wire: &mut W,
    errors: &mut E,
)
    ensures told { TellsOne moment tidings.now journal.old journal.new
        (E.contents errors.old) (E.contents errors.new) }
    ensures keeps { Keeps W.is_after wire.old wire.new }
{
    let host = whence(wire, tidings.link);
    journal.tell(tidings, host.as_ref(), moment, errors);
    tell_wire(wire, tidings);
}

/// From which host a link comes, if that is known.
fn whence<W: Wire>(wire: &W, link: Option<u64>) -> Option<Host> {
    wire.whence(link?)
}

/// A wire is told of a link that is up.
fn tell_wire<W: Wire>(wire: &mut W, tidings: &Tidings)
    ensures { Keeps W.is_after wire.old wire.new }
{
    if let Outcome::Up = tidings.outcome {
        name(wire, tidings.link);
    }
}

/// A wire is told that a link has named itself.
fn name<W: Wire>(wire: &mut W, link: Option<u64>)
    ensures { Keeps W.is_after wire.old wire.new }
{
    if let Some(link) = link {
        wire.named(link);
    }
}

/// Says what a wire has to tell, if there is something.
fn say_notice<E: Write>(notice: Option<Notice>, errors: &mut E)
    ensures { IsNoticeSaid notice (E.contents errors.old) (E.contents errors.new) }
{
    match notice {
        Some(Notice::Unreached(call)) => say_call(&told_of(call), errors),
        Some(Notice::DescriptorsGone) => say_connections(false, errors),
        Some(Notice::DescriptorsBack) => say_connections(true, errors),
        None => {}
    }
}

/// What is told of a call that has failed.
fn told_of(call: Unreached) -> Tidings
    ensures { result ≡ call_told call }
{
    Tidings {
        link: None,
        name: Some(call.name),
        is_called: true,
        outcome: Outcome::Unreached(call.error),
    }
}
