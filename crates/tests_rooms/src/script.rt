//! Scripts: a line is a verb and its words, then ` =`, and what comes of it. What scripts are run
//! on says what its verbs are. Here are those of one room, that of the server a.net. What comes of
//! an effect is who sees it, those of other servers in brackets, and the line that they are shown;
//! that it is idle, as it does nothing; or why it is refused.
//!
//! - `user NICK HOME HOST REAL`, `nick NICK NEW`, `quit NICK TEXT`, `make NICK CHANNEL`,
//!   `join NICK CHANNEL`, `part NICK CHANNEL TEXT`, `kick BY CHANNEL NICK`,
//!   `mode BY CHANNEL MODES`, `topic BY CHANNEL TEXT`, `say BY TARGET TEXT`,
//!   `note BY TARGET TEXT`, `invite BY NICK CHANNEL`, `set NICK +i` and `set NICK -i` are the
//!   effects. Who makes a channel is its operator. A `*` that changes modes or a topic is a server.
//! - `respell CHANNEL` spells a channel's name as given, where that is greater by bytes; nobody
//!   is shown anything.
//! - `state CHANNEL` shows its modes, key, limit and bans, its topic behind a `:`, its members with
//!   their marks, and who is invited behind a `?`.
//! - `users`, `home SERVER` and `channels NICK` show all users, those of a server, and the channels
//!   of one. `invited NICK CHANNEL` tells whether a user is invited to a channel.
ghost use Rattle.std.specs.Prelude.{◌≡◌};
ghost use Rattle.irc_room.specs.Effects.{brings_free};

use arrayvec::ArrayVec;
use irc_channels::{Channel, Words};
use irc_line::body;
use irc_modes::{ModeChange, ModeItem, Modes, Privacy, read_modes};
use irc_names::{ChannelName, Host, Nick, ServerName, cut_copy};
use irc_room::{By, Effect, ModeChanges, Room, RoomFault, ShownLine, Target};
use irc_users::{RealName, User, UserChange, UserName};
use itoa::Buffer;
use std::alloc::{AllocError, Global};
use std::process::Abort;

/// What comes of a line.
pub type ShownText = ArrayVec<u8, 200>;

/// A line of a script without what comes of it: a verb and the words behind it, of which two and
/// the text behind these.
#[derive(Clone, Copy)]
pub struct ScriptRow<'a> {
    pub line: &'a str,
    pub verb: &'a str,
    pub words: &'a str,
    pub first: &'a str,
    pub second: &'a str,
    pub text: &'a str,
}

/// The first word of a text, and what is behind it.
fn first_word(text: &str) -> (&str, &str) {
    text.split_once(' ').unwrap_or((text, ""))
}

pub fn row_of(line: &str) -> ScriptRow<'_> {
    let (verb, words) = first_word(line);
    let (first, more) = first_word(words);
    let (second, text) = first_word(more);
    ScriptRow {
        line,
        verb,
        words,
        first,
        second,
        text,
    }
}

pub fn append(shown: &mut ShownText, bytes: &[u8]) {
    let _ = shown.try_extend_from_slice(bytes);
}

/// Appends a word behind a space and a mark.
pub fn append_word(shown: &mut ShownText, mark: &[u8], word: &[u8]) {
    append(shown, b" ");
    append(shown, mark);
    append(shown, word);
}

pub fn nick(rt: &impl Abort, word: &str) -> Nick {
    Nick::read(word.as_bytes()).expect(rt, "a nickname")
}

pub fn channel(rt: &impl Abort, word: &str) -> ChannelName {
    ChannelName::read(word.as_bytes()).expect(rt, "a channel's name")
}

pub fn server(rt: &impl Abort, word: &str) -> ServerName {
    ServerName::read(word.as_bytes()).expect(rt, "a server's name")
}

/// The user that a row describes. Its user name is `u`.
pub fn user(rt: &impl Abort, row: ScriptRow<'_>) -> User {
    let (host, real) = row.text.split_once(' ').unwrap_or(("", ""));
    User::new(
        nick(rt, row.first),
        UserName::clean(b"u"),
        Host::read(host.as_bytes()).expect(rt, "a host"),
        RealName::cut(real.as_bytes()),
        server(rt, row.second),
    )
}

/// Adds what an item asks to be changed, where it does.
fn add_change(item: &ModeItem<'_>, made: &mut Vec<ModeChange, Global>) {
    if let ModeItem::Change(asked) = item
        && let Some(change) = asked.kept()
    {
        let _ = made.push(change);
    }
}

/// The changes that words ask for; none where memory runs out.
fn asked(alloc: Global, words: &[&[u8]]) -> ModeChanges {
    let mut made = Vec::new(alloc);
    if let Ok(items) = &read_modes(alloc, words) {
        for item in items.as_slice() {
            add_change(item, &mut made);
        }
    }
    ModeChanges::new(made)
}

/// The changes that the words of a MODE ask for.
pub fn changes(alloc: Global, words: &str) -> ModeChanges {
    let mut params: ArrayVec<&[u8], 15> = ArrayVec::new();
    for word in words.split(' ') {
        let _ = params.try_push(word.as_bytes());
    }
    asked(alloc, &params)
}

fn by(rt: &impl Abort, word: &str) -> By {
    if word == "*" {
        By::Home
    } else {
        By::User(nick(rt, word))
    }
}

fn target(rt: &impl Abort, word: &str) -> Target {
    if word.starts_with('#') {
        Target::Channel(channel(rt, word))
    } else {
        Target::User(nick(rt, word))
    }
}

/// The effect of a row.
fn effect_of(rt: &impl Abort, alloc: Global, row: ScriptRow<'_>) -> Effect {
    match row.verb {
        "user" => Effect::AddUser(user(rt, row)),
        "say" | "note" | "invite" => word_of(rt, row),
        "mode" | "topic" => change_of(rt, alloc, row),
        "nick" | "quit" | "set" => own_of(rt, row),
        _ => stay_of(rt, row),
    }
}

/// The effect of a row that a user brings about on itself alone.
fn own_of(rt: &impl Abort, row: ScriptRow<'_>) -> Effect {
    let nick = nick(rt, row.first);
    match row.verb {
        "nick" => rename_of(rt, nick, row.second),
        "quit" => Effect::Quit {
            nick,
            text: Words::cut(row.second.as_bytes()),
        },
        _ => Effect::ChangeUser {
            nick,
            change: UserChange::Invisible(row.second == "+i"),
        },
    }
}

fn rename_of(rt: &impl Abort, old: Nick, word: &str) -> Effect {
    Effect::Rename {
        nick: old,
        new: nick(rt, word),
    }
}

/// The effect of a row that tells somebody something.
fn word_of(rt: &impl Abort, row: ScriptRow<'_>) -> Effect {
    let by = nick(rt, row.first);
    if row.verb == "invite" {
        Effect::Invite {
            by,
            nick: nick(rt, row.second),
            channel: channel(rt, row.text),
        }
    } else {
        Effect::Say {
            by,
            notice: row.verb == "note",
            target: target(rt, row.second),
            text: cut_copy(row.text.as_bytes()),
        }
    }
}

/// The effect of a row that sets the modes or the topic of a channel.
fn change_of(rt: &impl Abort, alloc: Global, row: ScriptRow<'_>) -> Effect {
    let by = by(rt, row.first);
    let channel = channel(rt, row.second);
    if row.verb == "mode" {
        let changes = changes(alloc, row.text);
        Effect::ChangeModes {
            by,
            channel,
            changes,
        }
    } else {
        let text = Words::cut(row.text.as_bytes());
        Effect::SetTopic { by, channel, text }
    }
}

/// The effect of a row by which a user comes to a channel or is there no more.
fn stay_of(rt: &impl Abort, row: ScriptRow<'_>) -> Effect {
    let nick = nick(rt, row.first);
    let channel = channel(rt, row.second);
    match row.verb {
        "part" => Effect::Part {
            nick,
            channel,
            text: Words::cut(row.text.as_bytes()),
        },
        "kick" => kick_of(rt, nick, channel, row.text),
        _ => Effect::Join {
            nick,
            channel,
            op: row.verb == "make",
        },
    }
}

fn kick_of(rt: &impl Abort, by: Nick, channel: ChannelName, word: &str) -> Effect {
    Effect::Kick {
        by,
        channel,
        nick: nick(rt, word),
        text: Words::cut(b"out"),
    }
}

/// Whether the nickname that an effect brings is free, as whoever applies one has to know.
pub fn brings_free(room: &Room, effect: &Effect) -> bool
    ensures { result ≡ brings_free room.now.room effect.now }
{
    match effect {
        Effect::AddUser(user) => room.user(user.nick.as_bytes()).is_none(),
        Effect::Rename { nick, new } => room.user(new.as_bytes()).is_none() || nick == new,
        _ => true,
    }
}

/// Shows who sees an effect, and what those of the own server are told.
fn show_viewers(viewers: &[Nick], told: &ShownLine, shown: &mut ShownText) {
    let mut left = told.viewers.as_slice();
    for viewer in viewers {
        match left.split_first() {
            Some((first, rest)) if *first == *viewer => {
                append_word(shown, b"", first.as_bytes());
                left = rest;
            }
            _ => {
                append_word(shown, b"(", viewer.as_bytes());
                append(shown, b")");
            }
        }
    }
    if !told.viewers.is_empty() {
        append_word(shown, b"", body(&told.line));
    }
}

/// Shows what came of an effect that does something or not, and who sees it.
fn show_applied(
    applied: Result<(), RoomFault>,
    does: bool,
    viewers: &[Nick],
    told: &ShownLine,
    shown: &mut ShownText,
) {
    match applied {
        Ok(()) if !does => append(shown, b" idle"),
        Ok(()) => show_viewers(viewers, told, shown),
        Err(RoomFault::NoSuchUser) => append(shown, b" no user"),
        Err(RoomFault::NoSuchChannel) => append(shown, b" no channel"),
        Err(_) => append(shown, b" no memory"),
    }
}

/// Applies an effect, and shows what came of it.
fn apply(alloc: Global, room: &mut Room, effect: &Effect, shown: &mut ShownText) {
    if !brings_free(room, effect) {
        append(shown, b" taken");
        return;
    }
    let does = room.does(effect);
    let viewers = room.audience(effect).unwrap_or(Vec::new(alloc));
    let mut told = ShownLine::new(alloc);
    let applied = room.apply(effect, &mut told);
    show_applied(applied, does, &viewers, &told, shown);
}

fn append_if(shown: &mut ShownText, flag: bool, letter: &[u8]) {
    if flag {
        append(shown, letter);
    }
}

fn show_flags(modes: &Modes, shown: &mut ShownText) {
    append(shown, b" +");
    append_if(shown, modes.invite_only, b"i");
    append_if(shown, modes.moderated, b"m");
    append_if(shown, modes.no_outside, b"n");
    append_if(shown, modes.topic_locked, b"t");
    append_if(shown, modes.privacy == Privacy::Private, b"p");
    append_if(shown, modes.privacy == Privacy::Secret, b"s");
}

/// Shows the flags, the key, the limit and the bans.
pub fn show_modes(modes: &Modes, shown: &mut ShownText) {
    show_flags(modes, shown);
    if let Some(key) = &modes.key {
        append_word(shown, b"", key.as_bytes());
    }
    if let Some(limit) = modes.limit {
        append_word(shown, b"", Buffer::new().format(limit).as_bytes());
    }
    for ban in modes.bans.as_slice() {
        append_word(shown, b"", ban.as_bytes());
    }
}

fn show_members(channel: &Channel, shown: &mut ShownText) {
    for row in channel.members.as_slice() {
        append(shown, b" ");
        append_if(shown, row.value.op, b"@");
        append_if(shown, row.value.voice, b"+");
        append(shown, &row.name);
    }
}

fn show_channel(channel: &Channel, shown: &mut ShownText) {
    append_word(shown, b"", channel.name.as_bytes());
    show_modes(&channel.modes, shown);
    append_word(shown, b":", channel.topic.as_bytes());
    show_members(channel, shown);
    for row in channel.invited.as_slice() {
        append_word(shown, b"?", &row.name);
    }
}

/// Shows a channel, or that there is none.
pub fn show_state(channel: Option<&Channel>, shown: &mut ShownText) {
    match channel {
        Some(channel) => show_channel(channel, shown),
        None => append(shown, b" none"),
    }
}

/// Shows users.
fn show_each(users: &[&User], shown: &mut ShownText) {
    for user in users {
        append_word(shown, b"", user.nick.as_bytes());
    }
}

/// Shows the users that were found.
pub fn show_users(found: &Result<Vec<&User, Global>, AllocError>, shown: &mut ShownText) {
    if let Ok(users) = found {
        show_each(users, shown);
    }
}

/// Shows the channels of a user.
fn show_channels_of(room: &Room, nick: &[u8], shown: &mut ShownText) {
    if let Ok(rows) = &room.channels_of(nick) {
        for row in rows.as_slice() {
            append_word(shown, b"", row.value.channel().name.as_bytes());
        }
    }
}

/// Shows whether something is so.
pub fn show_flag(flag: bool, shown: &mut ShownText) {
    append(shown, if flag { b" yes" } else { b" no" });
}

/// Shows why a channel's name is not spelled as given, if it is not.
fn show_respelled(respelled: Result<(), RoomFault>, shown: &mut ShownText) {
    match respelled {
        Ok(()) => {}
        Err(RoomFault::NoSuchChannel) => append(shown, b" no channel"),
        Err(_) => append(shown, b" failed"),
    }
}

/// What scripts are run on.
pub trait ScriptStage {
    /// Does what a row says, and shows what comes of it.
    fn perform(
        &mut self,
        rt: &impl Abort,
        alloc: Global,
        row: ScriptRow<'_>,
        shown: &mut ShownText,
    );
}

/// Does the effect of a row.
fn do_effect(
    rt: &impl Abort,
    alloc: Global,
    room: &mut Room,
    row: ScriptRow<'_>,
    shown: &mut ShownText,
) {
    let effect = effect_of(rt, alloc, row);
    apply(alloc, room, &effect, shown);
}

/// Shows the users of a server.
fn show_home(rt: &impl Abort, room: &Room, word: &str, shown: &mut ShownText) {
    show_users(&room.users_at(&server(rt, word)), shown);
}

impl ScriptStage for Room {
    fn perform(
        &mut self,
        rt: &impl Abort,
        alloc: Global,
        row: ScriptRow<'_>,
        shown: &mut ShownText,
    ) {
        let (first, second) = (row.first.as_bytes(), row.second.as_bytes());
        match row.verb {
            "state" => show_state(self.channel(first), shown),
            "users" => show_users(&self.users(), shown),
            "home" => show_home(rt, self, row.first, shown),
            "invited" => show_flag(self.invited(first, second), shown),
            "channels" => show_channels_of(self, first, shown),
            "respell" => show_respelled(self.respell(&channel(rt, row.first)), shown),
            _ => do_effect(rt, alloc, self, row, shown),
        }
    }
}

fn line_holds(rt: &impl Abort, alloc: Global, stage: &mut impl ScriptStage, line: &str) -> bool {
    match line.split_once(" =") {
        Some((row, want)) => {
            let mut shown = ArrayVec::new();
            stage.perform(rt, alloc, row_of(row), &mut shown);
            shown.as_slice() == want.as_bytes()
        }
        None => false,
    }
}

/// Whether what comes of each line of a script is what it says.
pub fn script_holds(
    rt: &impl Abort,
    alloc: Global,
    stage: &mut impl ScriptStage,
    script: &str,
) -> bool {
    let mut all = true;
    for line in script.lines() {
        all &= line_holds(rt, alloc, stage, line);
    }
    all
}

/// Whether a script holds of a room without users.
pub fn room_holds(rt: &impl Abort, alloc: Global, script: &str) -> bool {
    let mut room = Room::new(alloc, server(rt, "a.net"));
    script_holds(rt, alloc, &mut room, script)
}
