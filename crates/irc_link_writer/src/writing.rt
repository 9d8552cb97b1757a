//! Effects written as lines of a link (RFC 2813 section 4). Nothing here takes memory.
ghost use Rattle.std.specs.Prelude.{◌≡◌, ◌≤◌, None, Some, [], ◌∷◌, codes, length, if◌then◌else◌};
ghost use Rattle.std.specs.Option.{option_copied};
ghost use Rattle.irc_line.specs.MessageViews.{optional_now};
ghost use Rattle.irc_line.specs.Messages.{text};
ghost use Rattle.irc_line.specs.PartViews.{words_now};
ghost use Rattle.irc_names.specs.Limits.{max_channel};
ghost use Rattle.irc_room.specs.Effects.{by_nick};
ghost use Rattle.irc_room.specs.Room.{Room as RoomNow};
ghost use Rattle.irc_room.specs.Loops.Naming.{row_of, IsNamed};
ghost use Rattle.irc_link_writer.specs.Loops.Families.{IsOfUsers, introduced, written_invite};
ghost use Rattle.irc_link_writer.specs.Loops.Families.{written_join, written_kick, written_own};
ghost use Rattle.irc_link_words.specs.Words.{marked};
ghost use Rattle.irc_link_writer.specs.Written.{by_name, from, introduction, next_distance, wire};
ghost use Rattle.irc_link_writer.specs.Written.{wire_change, written_token};

use crate::mode_line::mode_line;
use arrayvec::ArrayVec;
use irc_line::{Parts, Prefix, Text, write_message};
use irc_link_words::{OPERATOR_MARK, change_letters, change_text};
use irc_names::{MAX_CHANNEL, ServerName, copied};
use irc_room::{By, Effect, Named, Room, target_name};
use irc_routes::Routes;
use irc_users::{User, UserChange};
use itoa::Buffer;

/// A channel's name, and room for what makes its first member an operator.
type MarkedName = ArrayVec<u8, 52>;

/// The line that tells the server at the other end of this link of an effect: that of
/// [`effect_text`], whichever link it is.
pub fn write_effect(effect: &Effect, room: &Room, routes: &Routes, link: u64) -> Text
    ensures { result.items ≡ text (wire room.now.room routes.now effect.now) }
{
    let _every_link = link;
    effect_text(effect, room.named(effect), room, routes)
}

/// The line that tells other servers of an effect (RFC 2813 section 4), with what it names in the
/// room. It is the same for every link. It is to be written before the effect is applied. It takes
/// no memory.
pub fn effect_text(effect: &Effect, named: Named<'_>, room: &Room, routes: &Routes) -> Text
    ensures { IsNamed room.now.room effect.now named.entry
        → result.items ≡ text (wire room.now.room routes.now effect.now) }
{
    match effect {
        Effect::ChangeModes {
            by,
            channel,
            changes,
        } => mode_line(
            room,
            by_name(by, named, routes),
            named.channel_name(channel),
            changes.as_slice(),
        ),
        Effect::SetTopic { by, channel, text } => line(
            by_name(by, named, routes),
            b"TOPIC",
            &[named.channel_name(channel)],
            Some(text.as_bytes()),
        ),
        Effect::Join { nick, channel, op } => {
            join_line(named.doer_nick(nick), named.channel_name(channel), *op)
        }
        Effect::Part {
            nick,
            channel,
            text,
        } => line(
            named.doer_nick(nick),
            b"PART",
            &[named.channel_name(channel)],
            Some(text.as_bytes()),
        ),
        Effect::Kick {
            by,
            channel,
            nick,
            text,
        } => kick_line(
            named.doer_nick(by),
            named.channel_name(channel),
            named.other_nick(nick),
            text.as_bytes(),
        ),
        _ => user_line(effect, named, routes),
    }
}

/// The line of an effect on users alone, of a text or of an invitation.
fn user_line(effect: &Effect, named: Named<'_>, routes: &Routes) -> Text
    requires { IsOfUsers effect.now }
    ensures { (room : RoomNow) → IsNamed room effect.now named.entry
        → result.items ≡ text (wire room routes.now effect.now) }
{
    match effect {
        Effect::AddUser(user) => introduction_line(routes, user),
        Effect::Rename { nick, new } => line(
            named.doer_nick(nick),
            b"NICK",
            &[new.as_bytes()],
            None,
        ),
        Effect::Quit { nick, text } => line(
            named.doer_nick(nick),
            b"QUIT",
            &[],
            Some(text.as_bytes()),
        ),
        Effect::Say {
            by,
            notice,
            target,
            text,
        } => line(
            named.doer_nick(by),
            say_command(*notice),
            &[target_name(target, named)],
            Some(text.as_slice()),
        ),
        Effect::Invite { by, nick, channel } => invite_line(
            named.doer_nick(by),
            named.other_nick(nick),
            named.channel_name(channel),
        ),
        Effect::ChangeUser { nick, change } => change_line(named.doer_nick(nick), change),
        _ => unreachable!(),
    }
}

/// The name of whoever changes a channel: a user's, or the server's own.
fn by_name<'a>(by: &'a By, named: Named<'a>, routes: &'a Routes) -> &'a [u8]
    ensures { (room : RoomNow) → option_copied named.entry.doer ≡ row_of room.users (by_nick by.now)
        → result.now ≡ by_name room routes.now by.now }
{
    match by {
        By::User(nick) => named.doer_nick(nick),
        By::Home => routes.name().as_bytes(),
    }
}

/// A line from a nickname or from a server.
fn line(name: &[u8], command: &[u8], middle: &[&[u8]], last: Option<&[u8]>) -> Text
    ensures { result.items ≡ text
        (from name.now command.now (words_now middle.now) (optional_now last.entry)) }
{
    write_message(&Parts {
        prefix: Prefix::Name(name),
        command,
        middle,
        last,
    })
}

fn say_command(notice: bool) -> &'static [u8]
    ensures { result.now ≡ (if notice then codes "NOTICE" else codes "PRIVMSG") }
{
    if notice { b"NOTICE" } else { b"PRIVMSG" }
}

fn join_line(nick: &[u8], channel: &[u8], op: bool) -> Text
    requires { length channel.now ≤ max_channel }
    ensures { result.items ≡ text (written_join nick.now channel.now op) }
{
    let word = marked(channel, op);
    line(nick, b"JOIN", &[word.as_slice()], None)
}

/// The channel of a JOIN, and behind it the mark of one who becomes an operator.
fn marked(channel: &[u8], op: bool) -> MarkedName
    requires { length channel.now ≤ max_channel }
    ensures { result.items ≡ marked channel.now op }
{
    let mut word: MarkedName = copied(channel);
    if op {
        let _ = word.try_extend_from_slice(OPERATOR_MARK);
    }
    word
}

fn kick_line<'a>(by: &[u8], channel: &'a [u8], nick: &'a [u8], words: &[u8]) -> Text
    ensures { result.items ≡ text (written_kick by.now channel.now nick.now words.now) }
{
    line(by, b"KICK", &[channel, nick], Some(words))
}

fn invite_line<'a>(by: &[u8], nick: &'a [u8], channel: &'a [u8]) -> Text
    ensures { result.items ≡ text (written_invite by.now nick.now channel.now) }
{
    line(by, b"INVITE", &[nick, channel], None)
}

/// The line of what a user changes of itself.
fn change_line(nick: &[u8], change: &UserChange) -> Text
    ensures { result.items ≡ text (wire_change nick.now change.now) }
{
    own_line(nick, change_letters(change), change_text(change))
}

/// A MODE of a user, which is from itself.
fn own_line<'a>(nick: &'a [u8], letters: &'a [u8], last: Option<&[u8]>) -> Text
    ensures { result.items ≡ text (written_own nick.now letters.now (optional_now last.entry)) }
{
    line(nick, b"MODE", &[nick, letters], last)
}

/// The line that introduces a user (RFC 2813 section 4.1.3). It takes no memory.
pub fn introduction_line(routes: &Routes, user: &User) -> Text
    ensures { result.items ≡ text (introduction routes.now user.now) }
{
    let mut distance = Buffer::new();
    let mut token = Buffer::new();
    introduction(
        user,
        distance
            .format(next_distance(routes, &user.home))
            .as_bytes(),
        token.format(written_token(routes, &user.home)).as_bytes(),
    )
}

/// The introduction of a user, with the distance of its server and the number that stands for it.
fn introduction(user: &User, distance: &[u8], token: &[u8]) -> Text
    ensures { result.items ≡ text (introduced user.now distance.now token.now) }
{
    let mode: &[u8] = if user.invisible { b"+i" } else { b"+" };
    write_message(&Parts {
        prefix: Prefix::Nothing,
        command: b"NICK",
        middle: &[
            user.nick.as_bytes(),
            distance,
            user.user.as_bytes(),
            user.host.as_bytes(),
            token,
            mode,
        ],
        last: Some(user.real.as_bytes()),
    })
}

/// How far away a reader is that is one link further from a server.
pub fn next_distance(routes: &Routes, home: &ServerName) -> u64
    ensures { result ≡ next_distance routes.now home.now }
{
    match routes.distance(home.as_bytes()) {
        Some(distance) => u64::from(distance) + 1,
        None => 1,
    }
}

/// The number that stands for a server, or 0 where it is not known.
pub fn written_token(routes: &Routes, home: &ServerName) -> u32
    ensures { result ≡ written_token routes.now home.now }
{
    match routes.token_out(home.as_bytes()) {
        Some(token) => token,
        None => 0,
    }
}
