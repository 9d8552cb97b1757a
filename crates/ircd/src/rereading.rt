//! The configuration is read again while the server runs, where that is asked for.
ghost use Rattle.std.specs.Prelude.{◌≡◌, true, Ok, IfErr, IfOk};
ghost use Rattle.irc_settings.specs.Configuration.{AreSettingsOf};
ghost use Rattle.irc_engine.specs.EngineView.{engine_view};
ghost use Rattle.irc_settings.specs.Fixed.{differs_at, key_name};
ghost use Rattle.ircd.specs.Serving.{is_refusal, motd_file, AreRestartsSaid, Changes, HasMotd};
ghost use Rattle.ircd.specs.Serving.{IsRestartSaid, IsSetUp, Rereads};
ghost use Rattle.ircd.specs.Loops.Rereading.{AreOfSomeText, IsChangeOf};

use crate::front::{Front, Served};
use crate::serve::optional_motd;
use crate::setup::{Setup, set_up, settings_in};
use irc_door::Motd;
use irc_endings::Stop;
use irc_engine::Alteration;
use irc_journal::{Rereading, say_rereading, say_restart};
use irc_settings::{FixedKey, Settings, fixed_keys};
use irc_sockets::{Limits, MioWire};
use irc_turns::Lookout;
use std::alloc::{AllocError, Global};
use std::fs::{Files, exists, read_to_string, remove_file};
use std::io::{ErrorKind, Write};
use std::mem::replace;

/// A configuration that is read again where a file beside it asks for that, whose name ends in
/// `.reload`: it is taken away then.
#[derive(Drop)]
pub(crate) struct Watch<'a> {
    /// The name of the configuration.
    file: &'a str,
    /// The name of what asks.
    request: String,
    /// What the server was started with.
    pub settings: &'a Settings,
}

/// When the next look comes, and what the last one found.
#[derive(Drop)]
pub(crate) struct Looks {
    next: Lookout,
    /// Whether what asks could not be taken away.
    is_stuck: bool,
}

/// What changes while the server runs.
#[derive(Drop)]
struct Change {
    limits: Limits,
    motd: Option<Motd>,
}

impl Alteration<MioWire, Front> for Change {
    ghost alters = { λ change wire door wire_after door_after.
        Changes change.limits change.motd wire door wire_after door_after };

    fn alter(self, wire: &mut MioWire, door: &mut Front) {
        wire.limit_to(self.limits);
        door.announce(self.motd);
    }
}

impl<'a> Watch<'a> {
    /// That of a file, of which the server is started with these settings.
    ///
    /// # Errors
    /// Where memory runs out.
    pub fn new(alloc: Global, file: &'a str, settings: &'a Settings) -> Result<Self, AllocError>
        ensures { IfOk result (λ watch. watch.settings.now ≡ settings.now) }
    {
        let mut request = String::from_str(alloc, file)?;
        request.push_str(".reload")?;
        Ok(Watch {
            file,
            request,
            settings,
        })
    }
}

impl Looks {
    /// None was yet, and this says when the next one comes.
    pub fn new(next: Lookout) -> Self {
        Looks {
            next,
            is_stuck: false,
        }
    }
}

/// Looks, once a second, whether the configuration is to be read again, and reads it then.
pub(crate) fn look_in_time<T: AllocGlobal + Files, E: Write>(
    rt: &T,
    watch: &Watch,
    engine: &mut Served,
    looks: &mut Looks,
    errors: &mut E,
)
    ensures { Rereads watch.now.settings.now (engine_view engine.old) (E.contents errors.old)
        (engine_view engine.new) (E.contents errors.new) }
{
    if looks.next.is_time(engine.moment()) {
        look(rt, watch, engine, &mut looks.is_stuck, errors);
    }
}

/// Looks whether the configuration is to be read again, and reads it then. Where what asks for it
/// cannot be taken away, that is said once.
fn look<T: AllocGlobal + Files, E: Write>(
    rt: &T,
    watch: &Watch,
    engine: &mut Served,
    is_stuck: &mut bool,
    errors: &mut E,
)
    ensures { Rereads watch.now.settings.now (engine_view engine.old) (E.contents errors.old)
        (engine_view engine.new) (E.contents errors.new) }
{
    if !exists(rt, watch.request.as_str()).unwrap_or(false) {
        *is_stuck = false;
        return;
    }
    if remove_file(rt, watch.request.as_str()).is_ok() {
        *is_stuck = false;
        read_again(rt, watch, engine, errors);
    } else if !replace(is_stuck, true) {
        say_rereading(Rereading::Stuck, errors);
    }
}

/// Reads the configuration, and does what changes; or says why nothing does.
fn read_again<T: AllocGlobal + Files, E: Write>(
    rt: &T,
    watch: &Watch,
    engine: &mut Served,
    errors: &mut E,
)
    ensures { Rereads watch.now.settings.now (engine_view engine.old) (E.contents errors.old)
        (engine_view engine.new) (E.contents errors.new) }
{
    match settings_now(rt, watch) {
        Ok(settings) => change_to(rt, watch.settings, &settings, engine, errors),
        Err(why) => say_rereading(why, errors),
    }
}

/// What the configuration says now.
fn settings_now<T: AllocGlobal + Files>(rt: &T, watch: &Watch) -> Result<Settings, Rereading>
    ensures read { IfOk result AreOfSomeText }
    ensures refused { IfErr result (λ why. is_refusal why ≡ true) }
{
    let text = text_of(rt, watch)?;
    settings_of(rt.alloc(), text.as_str())
}

/// Does what these settings change of a server that was started with the first; or says why nothing
/// changes.
fn change_to<T: AllocGlobal + Files, E: Write>(
    rt: &T,
    first: &Settings,
    now: &Settings,
    engine: &mut Served,
    errors: &mut E,
)
    ensures { AreOfSomeText now.now → Rereads first.now (engine_view engine.old)
        (E.contents errors.old) (engine_view engine.new) (E.contents errors.new) }
{
    match change_of(rt, now, first.client_room) {
        Ok(change) => {
            engine.alter(change);
            say_rereading(Rereading::Taken, errors);
            say_restarts(fixed_keys(), first, now, errors);
        }
        Err(why) => say_rereading(why, errors),
    }
}

/// What settings change; an outbox of so many bytes has to have room for the message of the day.
fn change_of<T: AllocGlobal + Files>(
    rt: &T,
    settings: &Settings,
    room: usize,
) -> Result<Change, Rereading>
    ensures read { IfOk result (IsChangeOf settings.now room) }
    ensures refused { IfErr result (λ why. is_refusal why ≡ true) }
{
    let setup = setup_of(rt.alloc(), settings)?;
    let motd = motd_of(rt, &setup, room)?;
    Ok(Change {
        limits: setup.listening.limits,
        motd,
    })
}

/// All that the file holds.
fn text_of<T: AllocGlobal + Files>(rt: &T, watch: &Watch) -> Result<String, Rereading>
    ensures { IfErr result (λ why. is_refusal why ≡ true) }
{
    match read_to_string(rt, watch.file) {
        Ok(text) => Ok(text),
        Err(error) if error.kind() == ErrorKind::OutOfMemory => Err(Rereading::NoMemory),
        Err(_) => Err(Rereading::Unreadable),
    }
}

/// What a text says.
fn settings_of(alloc: Global, text: &str) -> Result<Settings, Rereading>
    ensures read { IfOk result (λ settings. AreSettingsOf text.now (Ok settings)) }
    ensures refused { IfErr result (λ why. is_refusal why ≡ true) }
{
    match settings_in(alloc, text) {
        Ok(settings) => Ok(settings),
        Err(stop) => Err(refusal_of(stop, Rereading::Bad)),
    }
}

/// What settings set up.
fn setup_of(alloc: Global, settings: &Settings) -> Result<Setup, Rereading>
    ensures set_up { IfOk result (λ setup. IsSetUp settings.now setup) }
    ensures refused { IfErr result (λ why. is_refusal why ≡ true) }
{
    match set_up(alloc, settings) {
        Ok(setup) => Ok(setup),
        Err(stop) => Err(refusal_of(stop, Rereading::Bad)),
    }
}

/// The message of the day that is set up, if one is; an outbox of so many bytes has room for it.
fn motd_of<T: AllocGlobal + Files>(
    rt: &T,
    setup: &Setup,
    room: usize,
) -> Result<Option<Motd>, Rereading>
    ensures has { IfOk result (HasMotd (motd_file setup.now) room) }
    ensures refused { IfErr result (λ why. is_refusal why ≡ true) }
{
    match optional_motd(rt, setup.speech.motd.as_ref(), room) {
        Ok(motd) => Ok(motd),
        Err(stop) => Err(refusal_of(stop, Rereading::BadMotd)),
    }
}

/// Why nothing is read again: what is bad, or that memory ran out.
fn refusal_of(stop: Stop, bad: Rereading) -> Rereading
    requires { is_refusal bad ≡ true }
    ensures { is_refusal result ≡ true }
{
    match stop {
        Stop::BadConfiguration => bad,
        _ => Rereading::NoMemory,
    }
}

/// Says of each of these keys that it waits for a restart, if something else stands there now.
fn say_restarts<E: Write>(keys: &[FixedKey], first: &Settings, now: &Settings, errors: &mut E)
    ensures { AreRestartsSaid keys.now first.now now.now (E.contents errors.old)
        (E.contents errors.new) }
{
    let mut rest = keys;
    while let Some((key, more)) = rest.split_first() {
        say_if_changed(*key, first, now, errors);
        rest = more;
    }
}

/// Says so of a key, if something else stands there now.
fn say_if_changed<E: Write>(key: FixedKey, first: &Settings, now: &Settings, errors: &mut E)
    ensures { IsRestartSaid (differs_at key first.now now.now) (key_name key)
        (E.contents errors.old) (E.contents errors.new) }
{
    if first.differs_at(key, now) {
        say_restart(key.name(), errors);
    }
}
