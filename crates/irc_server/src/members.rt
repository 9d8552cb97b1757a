//! Members of a channel, as a server brings them (RFC 2813 section 4.2.2).
ghost use Rattle.std.specs.Prelude.{◌≡◌, Some, IfOk};
ghost use Rattle.irc_burst.specs.Loops.Deeds.{arrivals_told};
ghost use Rattle.irc_stage.specs.EffectTold.{all_changed};
ghost use Rattle.irc_server.specs.DeedTold.{deed_told};
ghost use Rattle.irc_server.specs.Loops.Telling.{all_come, coming_of, flag_of, given_by};

use irc_burst::{NewMember, NewMembers};
use irc_burst_lines::njoin_text;
use irc_modes::{ModeChange, ModeLetter, ModeWord};
use irc_names::{ChannelName, Nick};
use irc_room::{By, Effect, ModeChanges};
use irc_stage::{Link, Serving};
use std::alloc::{AllocError, Global};

/// Users become members of a channel, which takes the spelling of the line first, where that is the
/// greater; each has its flags, and the others are told.
///
/// # Errors
/// Where memory runs out.
pub(crate) fn bring(
    serving: Serving,
    link: Link,
    arrivals: &NewMembers,
) -> Result<Serving, AllocError>
    ensures { IfOk result
        (λ told. told ≡ deed_told (Some link) (arrivals_told arrivals.now) serving) }
{
    let members = arrivals.members.as_slice();
    let line = njoin_text(&arrivals.server, &arrivals.channel, members);
    let serving = serving.respell(&arrivals.channel);
    let serving = come_all(serving, link, &arrivals.channel, members)?;
    serving.tell_all(Some(link), &line)
}

/// Each of them becomes a member.
fn come_all(
    mut serving: Serving,
    link: Link,
    channel: &ChannelName,
    members: &[NewMember],
) -> Result<Serving, AllocError>
    ensures { IfOk result
        (λ come. come ≡ all_changed (all_come channel.now members.now) serving) }
{
    for member in members {
        serving = come(serving, link, channel, member)?;
    }
    Ok(serving)
}

/// A user becomes a member, and is given what it may do.
fn come(
    serving: Serving,
    link: Link,
    channel: &ChannelName,
    member: &NewMember,
) -> Result<Serving, AllocError>
    ensures { IfOk result
        (λ come. come ≡ all_changed (coming_of channel.now member.now) serving) }
{
    let join = Effect::Join {
        nick: member.nick.copy(),
        channel: channel.copy(),
        op: false,
    };
    let serving = serving.take_effect(link, &join)?;
    let op = Gift {
        channel,
        nick: &member.nick,
        letter: ModeLetter::Operator,
        given: member.flags.op,
    };
    let serving = give(serving, link, op)?;
    let voice = Gift {
        channel,
        nick: &member.nick,
        letter: ModeLetter::Voice,
        given: member.flags.voice,
    };
    give(serving, link, voice)
}

/// A flag that a member comes with or without.
#[derive(Clone, Copy)]
pub(crate) struct Gift<'a> {
    channel: &'a ChannelName,
    nick: &'a Nick,
    letter: ModeLetter,
    given: bool,
}

/// A member is given a flag, if it has it.
fn give(serving: Serving, link: Link, gift: Gift<'_>) -> Result<Serving, AllocError>
    ensures { IfOk result (λ given. given ≡ all_changed (given_by gift.entry) serving) }
{
    if !gift.given {
        return Ok(serving);
    }
    let flag = flag(serving.view().alloc(), gift.channel, gift.letter, gift.nick)?;
    serving.take_effect(link, &flag)
}

/// What gives a member a flag.
fn flag(
    alloc: Global,
    channel: &ChannelName,
    letter: ModeLetter,
    nick: &Nick,
) -> Result<Effect, AllocError>
    ensures { IfOk result (λ effect. effect ≡ flag_of letter channel.now nick.now) }
{
    let mut changes = Vec::new(alloc);
    changes.push(ModeChange {
        plus: true,
        letter,
        word: ModeWord::read(nick.as_bytes()),
    })?;
    Ok(Effect::ChangeModes {
        by: By::Home,
        channel: channel.copy(),
        changes: ModeChanges::new(changes),
    })
}
