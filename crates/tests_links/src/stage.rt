//! A server a.net, its room, and the servers that it knows, as texts say it line by line.
//!
//! - `links`: b.net is behind link 1, one link away, with the number 1 there. `fills`: all servers
//!   that there is room for are behind it, each with a number of its own.
//! - `comes NICK SERVER NAME` is a user of a server, with its real name. `makes NICK CHANNEL` and
//!   `joins NICK CHANNEL` are one that joins a channel, as its operator or not.
//! - `sets CHANNEL WORDS` are modes, as the words of a MODE have them; `topic CHANNEL TEXT` is a
//!   topic.
ghost use Rattle.std.specs.Prelude.{◌≡◌};
ghost use Rattle.irc_room.specs.Effects.{brings_free};

use crate::shown::first_word;
use arrayvec::ArrayVec;
use irc_channels::Words;
use irc_link_words::read_changes;
use irc_names::{ChannelName, Host, Nick, ServerName, is_server};
use irc_room::{By, Effect, ModeChanges, Room, ShownLine};
use irc_routes::{Info, Newcomer, Own, Programs, Routes};
use irc_users::{RealName, User, UserName};
use itoa::Buffer;
use std::alloc::Global;
use std::process::Abort;

/// Whether the nickname that an effect brings is free, as whoever applies one has to know.
fn brings_free(room: &Room, effect: &Effect) -> bool
    ensures { result ≡ brings_free room.now.room effect.now }
{
    match effect {
        Effect::AddUser(user) => room.user(user.nick.as_bytes()).is_none(),
        Effect::Rename { nick, new } => room.user(new.as_bytes()).is_none() || nick == new,
        _ => true,
    }
}

/// An effect is done, where the nickname that it brings is free.
pub fn apply(alloc: Global, room: &mut Room, effect: &Effect) {
    if brings_free(room, effect) {
        let _ = room.apply(effect, &mut ShownLine::new(alloc));
    }
}

/// The room of a.net, and the servers that it knows.
#[derive(Drop)]
pub struct Stage {
    pub room: Room,
    pub routes: Routes,
}

pub fn bytes(rt: &impl Abort, alloc: Global, text: &[u8]) -> Vec<u8, Global> {
    Vec::from_slice(alloc, text).expect(rt, "memory")
}

pub fn server(rt: &impl Abort, name: &[u8]) -> ServerName {
    ServerName::read(name).expect(rt, "a server's name")
}

pub fn nick(rt: &impl Abort, name: &[u8]) -> Nick {
    Nick::read(name).expect(rt, "a nickname")
}

pub fn channel(rt: &impl Abort, name: &[u8]) -> ChannelName {
    ChannelName::read(name).expect(rt, "a channel's name")
}

pub fn description(rt: &impl Abort, text: &[u8]) -> Info {
    Info::read(text).expect(rt, "a description")
}

fn host(rt: &impl Abort, name: &[u8]) -> Host {
    Host::read(name).expect(rt, "a host")
}

/// The changes that the words of a MODE ask for; none where they are no such words.
pub fn changes(alloc: Global, words: &str) -> ModeChanges {
    let mut params: ArrayVec<&[u8], 15> = ArrayVec::new();
    for word in words.split(' ') {
        let _ = params.try_push(word.as_bytes());
    }
    match read_changes(alloc, &params) {
        Ok(Some(changes)) => changes,
        _ => ModeChanges::new(Vec::new(alloc)),
    }
}

/// The servers that a.net knows: none yet.
fn routes(rt: &impl Abort, alloc: Global) -> Routes {
    let own = Own {
        name: bytes(rt, alloc, b"a.net"),
        info: bytes(rt, alloc, b"Test server"),
        created: Vec::new(alloc),
    };
    assert!(rt; is_server(&own.name));
    assert!(rt; Info::read(&own.info).is_some());
    Routes::serving(own, Programs::Off)
}

/// Adds a server behind link 1, where its number there is free.
fn add(rt: &impl Abort, routes: &mut Routes, uplink: &[u8], name: &[u8], row: (u32, u32, &[u8])) {
    let (distance, number, info) = row;
    if routes.token_in(1, number).is_none() {
        let info = description(rt, info);
        let newcomer = Newcomer {
            uplink: &server(rt, uplink),
            name,
            distance,
            token: number,
            info: &info,
        };
        let _ = routes.add_server(1, &newcomer);
    }
}

fn fill(rt: &impl Abort, routes: &mut Routes) {
    for number in 2..256_u32 {
        let mut name: ArrayVec<u8, 9> = ArrayVec::new();
        let _ = name.try_extend_from_slice(b"n");
        let _ = name.try_extend_from_slice(Buffer::new().format(number).as_bytes());
        let _ = name.try_extend_from_slice(b".net");
        add(rt, routes, b"b.net", &name, (2, number, b"N"));
    }
}

fn user(rt: &impl Abort, name: &str, words: &str) -> User {
    let (home, real) = first_word(words);
    User::new(
        nick(rt, name.as_bytes()),
        UserName::clean(b"u"),
        host(rt, b"h"),
        RealName::cut(real.as_bytes()),
        server(rt, home.as_bytes()),
    )
}

/// The effect of a step.
fn effect_of(rt: &impl Abort, alloc: Global, verb: &str, words: &str) -> Effect {
    let (first, text) = first_word(words);
    match verb {
        "comes" => Effect::AddUser(user(rt, first, text)),
        "sets" => Effect::ChangeModes {
            by: By::Home,
            channel: channel(rt, first.as_bytes()),
            changes: changes(alloc, text),
        },
        "topic" => Effect::SetTopic {
            by: By::Home,
            channel: channel(rt, first.as_bytes()),
            text: Words::cut(text.as_bytes()),
        },
        _ => Effect::Join {
            nick: nick(rt, first.as_bytes()),
            channel: channel(rt, text.as_bytes()),
            op: verb == "makes",
        },
    }
}

/// Does the effect of a step.
fn bring(rt: &impl Abort, alloc: Global, room: &mut Room, verb: &str, words: &str) {
    let effect = effect_of(rt, alloc, verb, words);
    apply(alloc, room, &effect);
}

fn take_step(rt: &impl Abort, alloc: Global, stage: &mut Stage, step: &str) {
    let (verb, words) = first_word(step);
    match verb {
        "links" => add(rt, &mut stage.routes, b"a.net", b"b.net", (1, 1, b"B")),
        "fills" => fill(rt, &mut stage.routes),
        _ => bring(rt, alloc, &mut stage.room, verb, words),
    }
}

fn furnish(rt: &impl Abort, alloc: Global, stage: &mut Stage, scene: &str) {
    for step in scene.lines() {
        take_step(rt, alloc, stage, step);
    }
}

/// What is tried on a stage.
pub trait StageTest {
    /// Whether it is as it is to be.
    fn holds(&self, rt: &impl Abort, alloc: Global, stage: &mut Stage) -> bool;
}

/// Whether a test holds behind a scene, where nobody was there and no other server known.
pub fn test_holds(rt: &impl Abort, alloc: Global, scene: &str, test: &impl StageTest) -> bool {
    let room = Room::new(alloc, server(rt, b"a.net"));
    let routes = routes(rt, alloc);
    let mut stage = Stage { room, routes };
    furnish(rt, alloc, &mut stage, scene);
    test.holds(rt, alloc, &mut stage)
}
