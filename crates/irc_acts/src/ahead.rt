//! The room as some steps leave it. It is looked at through them, and neither changed nor copied.
ghost use Rattle.std.specs.Prelude.{◌≡◌, ◌<◌, ◌-◌, ◌^◌, length};
ghost use Rattle.irc_names.specs.Fold.{key};
ghost use Rattle.irc_room.specs.Readers.{flags_at};
ghost use Rattle.irc_room.specs.Room.{IsWellFormed};
ghost use Rattle.irc_acts.specs.Ahead.{ahead, channel_ahead, IsNamedAs};
ghost use Rattle.irc_acts.specs.Moves.{own_channels, members_at, AreMoves, AreLeaves};
ghost use Rattle.irc_acts.specs.Loops.Moving.{flags_by, members_by, channels_by};

use crate::act::Act;
use irc_channels::{Channel, Flags};
use irc_names::same;
use irc_room::{Effect, Room};
use irc_users::User;

/// The flags of the user of a nickname in the channel of a name, once these steps are done, where
/// it is a member then.
pub fn flags(room: &Room, steps: &[Act], nick: &[u8], channel: &[u8]) -> Option<Flags>
    requires { AreMoves room.now.room steps.now }
    ensures { result ≡ flags_at (ahead room.now.room steps.now) (key nick.now) (key channel.now) }
{
    let mut flags = room.member(nick, channel);
    for act in steps {
        flags = flags_by(act, nick, channel, flags);
    }
    flags
}

/// The flags behind one step.
fn flags_by(act: &Act, nick: &[u8], channel: &[u8], before: Option<Flags>) -> Option<Flags>
    ensures { result ≡ flags_by nick.now channel.now before act.now }
{
    match act {
        Act::Do(
            Effect::Join {
                nick: who,
                channel: name,
                op,
            },
        ) if same(name.as_bytes(), channel) && same(who.as_bytes(), nick) => {
            Some(Flags {
                op: *op,
                voice: false,
            })
        }
        Act::Do(
            Effect::Part {
                nick: who,
                channel: name,
                ..
            }
            | Effect::Kick {
                nick: who,
                channel: name,
                ..
            },
        ) if same(name.as_bytes(), channel) && same(who.as_bytes(), nick) => { None }
        _ => before,
    }
}

/// How many members the channel of a name has, once these steps are done; none where it is not
/// there.
pub fn members(room: &Room, steps: &[Act], channel: &[u8]) -> usize
    requires { AreMoves room.now.room steps.now }
    ensures { result ≡ members_at (ahead room.now.room steps.now) (key channel.now) }
{
    let mut members = room.members_of(channel).len();
    for act in steps {
        members = members_by(act, channel, members);
    }
    members
}

/// How many members there are behind one step.
fn members_by(act: &Act, channel: &[u8], before: usize) -> usize
    requires { before < 2 ^ 64 - 1 }
    ensures { result ≡ members_by channel.now before act.now }
{
    match act {
        Act::Do(Effect::Join { channel: name, .. }) if same(name.as_bytes(), channel) => before + 1,
        Act::Do(Effect::Part { channel: name, .. } | Effect::Kick { channel: name, .. })
            if same(name.as_bytes(), channel) => { before.saturating_sub(1) }
        _ => before,
    }
}

/// In how many channels a user is, once these steps are done, where it was in so many before.
pub fn channels(room: &Room, steps: &[Act], me: &User, before: usize) -> usize
    requires moves { AreMoves room.now.room steps.now }
    requires counted { before ≡ length (own_channels room.now.room me.now) }
    ensures { result ≡ length (own_channels (ahead room.now.room steps.now) me.now) }
{
    know_few_channels(room, me);
    let mut channels = before;
    for act in steps {
        channels = channels_by(act, me.nick.as_bytes(), channels);
    }
    channels
}

/// In how many channels a user is behind one step.
fn channels_by(act: &Act, nick: &[u8], before: usize) -> usize
    requires { before < 2 ^ 64 - 1 }
    ensures { result ≡ channels_by nick.now before act.now }
{
    match act {
        Act::Do(Effect::Join { nick: who, .. }) if same(who.as_bytes(), nick) => before + 1,
        Act::Do(Effect::Part { nick: who, .. } | Effect::Kick { nick: who, .. })
            if same(who.as_bytes(), nick) => { before.saturating_sub(1) }
        _ => before,
    }
}

/// The channel of a name as the room has it, where some member is left once these steps are done,
/// by which members only leave.
pub fn channel<'a>(room: &'a Room, steps: &[Act], name: &[u8]) -> Option<&'a Channel>
    requires { AreLeaves room.now.room steps.now }
    ensures { IsNamedAs result (channel_ahead room.now.room steps.now name.now) }
{
    know_well_formed(room);
    if members(room, steps, name) == 0 {
        None
    } else {
        room.channel(name)
    }
}

/// A table of the room has fewer rows than a number can count.
fn know_few_channels(room: &Room, me: &User)
    ensures { length (own_channels room.now.room me.now) < 2 ^ 63 }
{
    room.channels();
}

/// Each room is well formed.
pub fn know_well_formed(room: &Room)
    ensures { IsWellFormed room.now.room }
{
    room.own();
}
