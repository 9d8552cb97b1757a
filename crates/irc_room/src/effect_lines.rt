//! The line that an effect shows at a server: one, for all its viewers (RFC 2812 section 3).
ghost use Rattle.std.specs.Prelude.{◌≡◌, is_some};
ghost use Rattle.std.specs.Option.{option_copied, option_map};
ghost use Rattle.irc_line.specs.PartViews.{sender};
ghost use Rattle.irc_users.specs.declared.user.User.{User};
ghost use Rattle.irc_effects.specs.Effects.{by_nick};
ghost use Rattle.irc_effects.specs.Room.{Room};
ghost use Rattle.irc_effects.specs.Seen.{from_by, shown_line, target_name};
ghost use Rattle.irc_room.specs.Loops.Naming.{row_of, IsNamed};
ghost use Rattle.irc_room.specs.Loops.LineViews.{line_if};
ghost use Rattle.irc_room.specs.Loops.LineViews.{IsByUser, IsOfUsers, IsTargeted};
ghost use Rattle.irc_room.specs.Loops.LineViews.{ShowsAll, ShowsAt};

use crate::lines::{
    change_line, invite_line, join_line, kick_line, mode_line, nick_line, part_line, quit_line,
    say_line, topic_line,
};
use crate::{By, Effect, Named, Tables, Target};
use irc_line::{Prefix, Text};

/// Writes the line that an effect on a room shows at the server of this name to those who see it,
/// where it shows one. Here and below: tells whether it did.
pub fn effect_line(
    own: &[u8],
    tables: &Tables,
    effect: &Effect,
    named: Named<'_>,
    line: &mut Text,
) -> bool
    ensures { IsNamed tables.now effect.now named.entry
        → ShowsAt tables.now effect.now own.now (line_if result line.new) }
{
    match effect {
        Effect::ChangeModes {
            by,
            channel,
            changes,
        } => mode_line(
            tables,
            sender_of(own, by, named),
            named.channel_name(channel),
            changes.as_slice(),
            line,
        ),
        Effect::SetTopic { by, channel, text } => topic_line(
            sender_of(own, by, named),
            named.channel_name(channel),
            text.as_bytes(),
            line,
        ),
        _ => member_line(effect, named, line),
    }
}

/// Whether an effect shows a line at all: it does where whoever brings it about is there, but for a
/// change of a user that is not shown.
pub(crate) fn has_line(effect: &Effect, named: Named<'_>) -> bool
    ensures { (room : Room) → IsNamed room effect.now named.entry
        → (viewer : User) → is_some (shown_line room effect.now viewer) ≡ result }
{
    match effect {
        Effect::AddUser(_) => false,
        Effect::ChangeUser { change, .. } => change.is_shown() && named.doer.is_some(),
        // A server always is there.
        _ => effect.doer().is_none() || named.doer.is_some(),
    }
}

/// The line of an effect that only a user brings about.
fn member_line(effect: &Effect, named: Named<'_>, line: &mut Text) -> bool
    requires { IsByUser effect.now }
    ensures { (room : Room) → IsNamed room effect.now named.entry
        → ShowsAll room effect.now (line_if result line.new) }
{
    match effect {
        Effect::Join { channel, .. } => {
            join_line(named.sender(), named.channel_name(channel), line)
        }
        Effect::Part { channel, text, .. } => part_line(
            named.sender(),
            named.channel_name(channel),
            text.as_bytes(),
            line,
        ),
        Effect::Kick {
            channel,
            nick,
            text,
            ..
        } => kick_line(
            named.sender(),
            named.channel_name(channel),
            named.other_nick(nick),
            text.as_bytes(),
            line,
        ),
        Effect::Invite { nick, channel, .. } => invite_line(
            named.sender(),
            named.other_nick(nick),
            named.channel_name(channel),
            line,
        ),
        _ => user_line(effect, named, line),
    }
}

/// The line of an effect on users alone, or of a text.
fn user_line(effect: &Effect, named: Named<'_>, line: &mut Text) -> bool
    requires { IsOfUsers effect.now }
    ensures { (room : Room) → IsNamed room effect.now named.entry
        → ShowsAll room effect.now (line_if result line.new) }
{
    match effect {
        Effect::AddUser(_) => false,
        Effect::Rename { new, .. } => nick_line(named.sender(), new.as_bytes(), line),
        Effect::Quit { text, .. } => quit_line(named.sender(), text.as_bytes(), line),
        Effect::Say {
            notice,
            target,
            text,
            ..
        } => say_line(
            named.sender(),
            *notice,
            target_name(target, named),
            text.as_slice(),
            line,
        ),
        Effect::ChangeUser { nick, change } => change_line(
            named.sender(),
            named.doer_nick(nick),
            change,
            line,
        ),
        _ => unreachable!(),
    }
}

/// Who a line is from whose doer may be a server: each viewer is shown its own.
fn sender_of<'a>(own: &'a [u8], by: &By, named: Named<'a>) -> Option<Prefix<'a>>
    ensures { (room : Room) → option_copied named.entry.doer ≡ row_of room.users (by_nick by.now)
        → (viewer : User) → viewer.home ≡ own.now
        → option_map sender result ≡ from_by room by.now viewer }
{
    match by {
        By::User(_) => named.sender(),
        By::Home => Some(Prefix::Name(own)),
    }
}

/// The name of whom a text is for, as it is stored.
pub fn target_name<'a>(target: &'a Target, named: Named<'a>) -> &'a [u8]
    ensures { (room : Room) → IsTargeted room target.now named.entry
        → result.now ≡ target_name room target.now }
{
    match target {
        Target::User(nick) => named.other_nick(nick),
        Target::Channel(channel) => named.channel_name(channel),
    }
}
