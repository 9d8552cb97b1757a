//! KICK.
ghost use Rattle.std.specs.Prelude.{◌≡◌};
ghost use Rattle.std.specs.Option.{option_copied};
ghost use Rattle.irc_line.specs.PartViews.{words_now};
ghost use Rattle.irc_acts.specs.Moves.{AreLeaves};
ghost use Rattle.irc_acts.specs.Refusing.{first_refusal};
ghost use Rattle.irc_acts.specs.Steps.{by_room, Yields};
ghost use Rattle.irc_channel_commands.specs.Kick.{kick_lists, kick_refusals, kick_steps, kicking};
ghost use Rattle.irc_channel_commands.specs.Laws.KickLaw.{KickDoes, KickIsOwn, KickIsPossible};
ghost use Rattle.irc_channel_commands.specs.Laws.KickLaw.{KickIsSendable, KickLooksAtNoInvitation};
ghost use Rattle.irc_channel_commands.specs.Loops.KickList.{kick_list, member_ahead, IsKick};
ghost use Rattle.irc_channel_commands.specs.Loops.KickList.{IsKickAhead, IsNextKick};

use irc_acts::ahead::{self, know_well_formed};
use irc_acts::comma_lists::{entry_count, next_entry};
use irc_acts::refusals::{need_more_params, no_such_channel};
use irc_acts::standing::is_operator;
use irc_acts::words::{client_words, reason_given};
use irc_acts::{Act, Context, only, put};
use irc_channels::{Channel, Flags, Words};
use irc_names::ChannelName;
use irc_numerics::Reply;
use irc_room::{Effect, Room};
use irc_users::User;
use std::alloc::{AllocError, Global};

/// What a KICK of a comma list of nicknames from a comma list of channels does (RFC 2812 section
/// 3.2.8); the first parameter behind them is the text.
///
/// # Errors
/// Where memory runs out.
#[tactic(auto, unfolding(crate::specs::Kick::kick_steps))]
pub fn steps(
    context: &Context<'_>,
    channels: &[u8],
    nicks: &[u8],
    more: &[&[u8]],
) -> Result<Vec<Act, Global>, AllocError>
    ensures { Yields result
        (by_room context.now kick_steps channels.now nicks.now (words_now more.now)) }
{
    let text = reason_given(more, context.me.nick.as_bytes());
    kick_asked(context, &text, channels, nicks)
}

/// What is asked for by two comma lists, of channels and of nicknames, if they fit each other.
fn kick_asked(
    context: &Context<'_>,
    text: &Words,
    channels: &[u8],
    nicks: &[u8],
) -> Result<Vec<Act, Global>, AllocError>
    ensures { Yields result (by_room context.now kick_lists text.now channels.now nicks.now) }
{
    let count = entry_count(channels);
    if count == 1 {
        let asked = KickLists {
            channels,
            nicks,
            is_one: true,
        };
        kick_list(context, text, asked)
    } else if count == entry_count(nicks) {
        let asked = KickLists {
            channels,
            nicks,
            is_one: false,
        };
        kick_list(context, text, asked)
    } else {
        only(context.alloc, need_more_params(b"KICK"))
    }
}

/// What is left of the two lists of a KICK, and whether one channel is meant for all nicknames.
#[derive(Clone, Copy)]
struct KickLists<'a> {
    channels: &'a [u8],
    nicks: &'a [u8],
    is_one: bool,
}

/// The next nickname of the lists with its channel, and what is left then.
fn next_kick(left: KickLists<'_>) -> Option<(&[u8], &[u8], KickLists<'_>)>
    ensures { IsNextKick left.entry result }
{
    let (nick, nicks) = next_entry(left.nicks)?;
    let (channel, channels) = next_entry(left.channels)?;
    let channels = if left.is_one { left.channels } else { channels };
    let behind = KickLists {
        channels,
        nicks,
        is_one: left.is_one,
    };
    Some((channel, nick, behind))
}

/// What kicking the nicknames of the lists does, one after another.
fn kick_list(
    context: &Context<'_>,
    text: &Words,
    asked: KickLists<'_>,
) -> Result<Vec<Act, Global>, AllocError>
    ensures { Yields result (by_room context.now kick_list text.now asked.entry) }
{
    know_well_formed(context.room);
    let mut steps = Vec::new(context.alloc);
    let mut left = asked;
    while let Some((channel, nick, behind)) = next_kick(left) {
        let act = kick_one(context, text, steps.as_slice(), channel, nick);
        put(&mut steps, act)?;
        left = behind;
    }
    Ok(steps)
}

/// What kicking one nickname from one channel does in the room as the steps so far leave it.
fn kick_one(context: &Context<'_>, text: &Words, steps: &[Act], name: &[u8], nick: &[u8]) -> Act
    requires { AreLeaves context.now.room.now.room steps.now }
    ensures { IsKickAhead context.now text.now steps.now (kicking name.now nick.now) result }
{
    let me = context.me;
    let Some(channel) = ahead::channel(context.room, steps, name) else {
        return no_such_channel(name);
    };
    let flags = ahead::flags(context.room, steps, me.nick.as_bytes(), name);
    let member = member(context.room, steps, nick, name);
    match refusal(channel, flags) {
        Some(reply) => Act::Answer(reply),
        None => kick(me, text, &channel.name, nick, member),
    }
}

/// Why a user may not kick from a channel, by its flags there, if it is a member.
fn refusal(channel: &Channel, flags: Option<Flags>) -> Option<Reply>
    ensures { result ≡ first_refusal (kick_refusals channel.now.name flags) }
{
    let channel = channel.name.copy();
    if flags.is_none() {
        Some(Reply::NotOnChannel { channel })
    } else if !is_operator(flags) {
        Some(Reply::ChanOPrivsNeeded { channel })
    } else {
        None
    }
}

/// The user of a nickname, where it is a member of the channel of a name once these steps are done.
fn member<'a>(room: &'a Room, steps: &[Act], nick: &[u8], channel: &[u8]) -> Option<&'a User>
    requires { AreLeaves room.now.room steps.now }
    ensures { option_copied result ≡ member_ahead room.now.room steps.now nick.now channel.now }
{
    if ahead::flags(room, steps, nick, channel).is_some() {
        room.user(nick)
    } else {
        None
    }
}

/// What comes of kicking the member of a nickname from the channel of a name, if there is one.
fn kick(me: &User, text: &Words, channel: &ChannelName, nick: &[u8], member: Option<&User>) -> Act
    ensures { IsKick me.now text.now channel.now nick.now (option_copied member.entry) result }
{
    let channel = channel.copy();
    match member {
        Some(member) => Act::Do(Effect::Kick {
            by: me.nick.copy(),
            channel,
            nick: member.nick.copy(),
            text: text.copy(),
        }),
        None => Act::Answer(Reply::UserNotInChannel {
            nick: client_words(nick),
            channel,
        }),
    }
}

/// A law: each effect of a KICK is its user's own, in the room that those before it have left.
#[tactic(auto, using(crate::specs::Laws::KickLaw::kick_is_own))]
pub fn is_own()
    ensures { KickIsOwn }
{}

/// A law: in a well-formed room what a KICK of a user does can be done, effect by effect.
#[tactic(auto, using(crate::specs::Laws::KickLaw::kick_is_possible))]
pub fn is_possible()
    ensures { KickIsPossible }
{}

/// A law: each effect of a KICK does something.
#[tactic(auto, using(crate::specs::Laws::KickLaw::kick_does))]
pub fn does_something()
    ensures { KickDoes }
{}

/// A law: a KICK does the same whoever is invited to channels.
#[tactic(auto, using(crate::specs::Laws::KickLaw::kick_looks_at_no_invitation))]
pub fn looks_at_no_invitation()
    ensures { KickLooksAtNoInvitation }
{}

/// A law: in a room within limits each effect of a KICK can be sent.
#[tactic(auto, using(crate::specs::Laws::KickLaw::kick_is_sendable))]
pub fn is_sendable()
    ensures { KickIsSendable }
{}
