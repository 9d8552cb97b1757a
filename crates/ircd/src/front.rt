//! What serves: a door in front of a doorman in front of a hold in front of a layer.
ghost use Rattle.std.specs.Prelude.{◌≡◌};
ghost use Rattle.irc_engine.specs.Knowing.{HasNobody};
ghost use Rattle.irc_layer.specs.Layers.{server_of};
ghost use Rattle.ircd.specs.Serving.{front_server, negotiations_of, IsFrontOf};

use crate::setup::Speech;
use irc_door::{Door, Manner};
use irc_doorman::Doorman;
use irc_engine::Engine;
use irc_hold::{Hold, Negotiations};
use irc_layer::Layer;
use irc_routes::Programs;
use irc_sockets::MioWire;
use std::alloc::Global;

/// What serves.
pub(crate) type Front = Door<Doorman<Hold<Layer>>>;

/// What serves, over sockets.
pub(crate) type Served = Engine<MioWire, Front>;

/// What stands in front of a layer whose server nobody is connected to.
pub(crate) fn front_of(alloc: Global, layer: Layer, speech: Speech, manner: Manner) -> Front
    requires nobody { HasNobody (server_of layer) }
    ensures front { IsFrontOf layer speech.programs speech.asks manner result }
    ensures nobody { HasNobody (front_server result) }
{
    let hold = Hold::new(alloc, layer, negotiations(speech.programs));
    let doorman = Doorman::new(alloc, hold, speech.asks);
    Door::new(alloc, doorman, manner)
}

/// Whether USER waits for the end of a negotiation.
fn negotiations(programs: Programs) -> Negotiations
    ensures { result ≡ negotiations_of programs }
{
    match programs {
        Programs::Off => Negotiations::Off,
        Programs::On => Negotiations::Awaited,
    }
}
