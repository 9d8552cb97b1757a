//! `ircd serve`: a server on TCP sockets.
ghost use Rattle.std.specs.Prelude.{◌≡◌, IfErr, option_map, string_bytes};
ghost use Rattle.irc_endings.specs.declared.fault.Stop.TheVariants.{Failed};
ghost use Rattle.irc_engine.specs.Knowing.{HasNobody};
ghost use Rattle.irc_engine.specs.EngineView.{engine_view};
ghost use Rattle.ircd.specs.ClosedDoors.{SaysFault};
ghost use Rattle.ircd.specs.Loops.Turns.{Begins, IsOfFile, Opens, OpensBy, ServesSettings};
ghost use Rattle.ircd.specs.Loops.Turns.{TakesTurn, TakesTurns};
ghost use Rattle.ircd.specs.Loops.Manners.{FindsManner, FindsMotd, IsMotdIn, ReadsMotd};
ghost use Rattle.ircd.specs.Serving.{IsMannerOf, ServesFile, ServesText};

use crate::closed_door::say_closed;
use crate::front::{Served, front_of};
use crate::rereading::{Looks, Watch, look_in_time};
use crate::setup::{Setup, set_up, settings_in};
use irc_door::{Manner, Motd, MotdFault};
use irc_endings::{Stop, say_ready};
use irc_engine::Engine;
use irc_layer::Layer;
use irc_settings::Settings;
use irc_sockets::{ListenFault, MioWire};
use irc_turns::Lookout;
use std::alloc::Global;
use std::fs::{Files, read_to_string};
use std::io::{ErrorKind, Write};
use std::net::Net;

/// A configuration, and the name of the file that it is of.
#[derive(Drop)]
struct Source<'a> {
    file: &'a str,
    text: &'a str,
}

/// Serves as a file says, for so many turns. Says `ready` as soon as clients and servers can
/// connect, and the servers that it calls are called, whether they are reached or not. What becomes
/// of links is said to `errors` behind each turn, and before that an address at which the system
/// lets nobody listen. Where a file `.reload` stands beside it, it is read again.
///
/// # Errors
/// - [`Stop::BadConfiguration`] where the file cannot be read, or is no configuration, or names a
///   message of the day that cannot be read, is none, or has no room. Then nothing is printed.
/// - [`Stop::Failed`] where the system lets nobody listen, where `ready` cannot be written, and
///   behind a turn that is not done: the device failed, or memory ran out.
pub fn serve<T: AllocGlobal + Files + Net, O: Write, E: Write>(
    rt: &T,
    file: &str,
    turns: u64,
    output: &mut O,
    errors: &mut E,
) -> Result<(), Stop>
    ensures { ServesFile turns result (O.contents output.old) (O.contents output.new)
        (E.contents errors.old) (E.contents errors.new) }
{
    let text = read_file(rt, file)?;
    let source = Source {
        file,
        text: text.as_str(),
    };
    serve_text(rt, &source, turns, output, errors)
}

/// All that a file holds.
fn read_file<T: AllocGlobal + Files>(rt: &T, file: &str) -> Result<String, Stop>
    ensures { IfErr result IsOfFile }
{
    match read_to_string(rt, file) {
        Ok(text) => Ok(text),
        Err(error) if error.kind() == ErrorKind::OutOfMemory => Err(Stop::Failed),
        Err(_) => Err(Stop::BadConfiguration),
    }
}

/// Serves as a text says, and as the file does that it is of, where this is read again.
fn serve_text<T: AllocGlobal + Files + Net, O: Write, E: Write>(
    rt: &T,
    source: &Source,
    turns: u64,
    output: &mut O,
    errors: &mut E,
) -> Result<(), Stop>
    ensures { ServesText source.now.text.now turns result (O.contents output.old)
        (O.contents output.new) (E.contents errors.old) (E.contents errors.new) }
{
    let settings = settings_in(rt.alloc(), source.text)?;
    let watch = Watch::new(rt.alloc(), source.file, &settings)?;
    serve_watched(rt, &watch, turns, output, errors)
}

/// Serves as the settings say that are watched.
fn serve_watched<T: AllocGlobal + Files + Net, O: Write, E: Write>(
    rt: &T,
    watch: &Watch,
    turns: u64,
    output: &mut O,
    errors: &mut E,
) -> Result<(), Stop>
    ensures { ServesSettings watch.now.settings.now turns result (O.contents output.old)
        (O.contents output.new) (E.contents errors.old) (E.contents errors.new) }
{
    let mut engine = begin(rt, watch.settings, output, errors)?;
    take_turns(rt, watch, &mut engine, turns, errors)
}

/// An engine that listens, and has called whom it is to call; `ready` is said.
fn begin<T: AllocGlobal + Files + Net, O: Write, E: Write>(
    rt: &T,
    settings: &Settings,
    output: &mut O,
    errors: &mut E,
) -> Result<Served, Stop>
    ensures { Begins settings.now result (O.contents output.old) (O.contents output.new)
        (E.contents errors.old) (E.contents errors.new) }
{
    let engine = open_by(rt, settings, errors)?;
    say_ready(output)?;
    Ok(engine)
}

/// An engine that listens, as settings say.
fn open_by<T: AllocGlobal + Files + Net, E: Write>(
    rt: &T,
    settings: &Settings,
    errors: &mut E,
) -> Result<Served, Stop>
    ensures { OpensBy settings.now result (E.contents errors.old) (E.contents errors.new) }
{
    let setup = set_up(rt.alloc(), settings)?;
    let manner = manner_of(rt, &setup)?;
    open(rt, rt.alloc(), setup, manner, errors)
}

/// How clients are spoken to.
fn manner_of<T: AllocGlobal + Files>(rt: &T, setup: &Setup) -> Result<Manner, Stop>
    ensures { FindsManner setup.now result }
{
    Ok(Manner {
        programs: setup.speech.programs,
        motd: optional_motd(rt, setup.speech.motd.as_ref(), setup.listening.client_room)?,
    })
}

/// The message of the day that stands in a file, if one is named.
pub(crate) fn optional_motd<T: AllocGlobal + Files>(
    rt: &T,
    file: Option<&String>,
    room: usize,
) -> Result<Option<Motd>, Stop>
    ensures { FindsMotd (option_map (λ file. string_bytes file.now) file.entry) room result }
{
    match file {
        Some(file) => Ok(Some(read_motd(rt, file.as_str(), room)?)),
        None => Ok(None),
    }
}

/// The message of the day that stands in a file; an outbox of so many bytes has to have room for
/// it.
fn read_motd<T: AllocGlobal + Files>(rt: &T, file: &str, room: usize) -> Result<Motd, Stop>
    ensures { ReadsMotd room result }
{
    let text = read_file(rt, file)?;
    let motd = motd_in(rt.alloc(), text.as_str())?;
    if motd.fits(room) {
        Ok(motd)
    } else {
        Err(Stop::BadConfiguration)
    }
}

/// The message of the day that a text is.
fn motd_in(alloc: Global, text: &str) -> Result<Motd, Stop>
    ensures { IsMotdIn text.now result }
{
    match Motd::read(alloc, text) {
        Ok(motd) => Ok(motd),
        Err(MotdFault::Bad) => Err(Stop::BadConfiguration),
        Err(MotdFault::Memory) => Err(Stop::Failed),
    }
}

/// An engine that listens, and has called whom it is to call. An address at which the system lets
/// nobody listen is told.
fn open<T: Net, E: Write>(
    net: &T,
    alloc: Global,
    setup: Setup,
    manner: Manner,
    errors: &mut E,
) -> Result<Served, Stop>
    requires nobody { HasNobody setup.server }
    requires manner { IsMannerOf setup manner }
    ensures { Opens setup result (E.contents errors.old) (E.contents errors.new) }
{
    let listening = setup.listening;
    let (client_room, link_room) = (listening.client_room, listening.link_room);
    let calls = setup.calls;
    let wire = match MioWire::listen(net, alloc, listening, calls.callees, calls.spread) {
        Ok(wire) => wire,
        Err(fault) => return Err(stop_for(fault, errors)),
    };
    let layer = Layer::new(alloc, setup.server, calls.plain);
    let front = front_of(alloc, layer, setup.speech, manner);
    let engine = Engine::new(alloc, front, wire, client_room, link_room)?;
    Ok(engine)
}

/// The program ends since nobody can come. Where that is for an address, it is told.
fn stop_for<E: Write>(fault: ListenFault, errors: &mut E) -> Stop
    ensures stop { result ≡ Failed }
    ensures said { SaysFault fault (E.contents errors.old) (E.contents errors.new) }
{
    match fault {
        ListenFault::Address(address, error) => {
            say_closed(address, error, errors);
            Stop::Failed
        }
        ListenFault::Other(_) => Stop::Failed,
        ListenFault::Memory => Stop::Failed,
    }
}

/// Takes so many turns, up to the first that is not done: it is the last, and the program fails.
fn take_turns<T: AllocGlobal + Files, E: Write>(
    rt: &T,
    watch: &Watch,
    engine: &mut Served,
    turns: u64,
    errors: &mut E,
) -> Result<(), Stop>
    ensures { TakesTurns watch.now.settings.now (engine_view engine.old) turns
        (engine_view engine.new) (E.contents errors.old) (E.contents errors.new) result }
{
    let mut looks = Looks::new(Lookout::new(engine.moment()));
    for _turn in 0..turns {
        take_turn(rt, watch, engine, &mut looks, errors)?;
    }
    Ok(())
}

/// Takes a turn. Behind it, it looks once a second whether the configuration is to be read again.
fn take_turn<T: AllocGlobal + Files, E: Write>(
    rt: &T,
    watch: &Watch,
    engine: &mut Served,
    looks: &mut Looks,
    errors: &mut E,
) -> Result<(), Stop>
    ensures { TakesTurn watch.now.settings.now (engine_view engine.old) (engine_view engine.new)
        (E.contents errors.old) (E.contents errors.new) result }
{
    match engine.turn_telling(errors) {
        Ok(()) => {
            look_in_time(rt, watch, engine, looks, errors);
            Ok(())
        }
        Err(_) => Err(Stop::Failed),
    }
}
