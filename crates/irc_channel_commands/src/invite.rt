//! INVITE.
ghost use Rattle.std.specs.Prelude.{◌≡◌, None};
ghost use Rattle.irc_room.specs.effect.Effect.TheVariants.{Invite};
ghost use Rattle.irc_acts.specs.Refusing.{first_refusal};
ghost use Rattle.irc_acts.specs.Steps.{by_room, Yields};
ghost use Rattle.irc_channel_commands.specs.Invite.{invite_refusals, invite_steps, invites};
ghost use Rattle.irc_channel_commands.specs.Invite.{invites_found, invites_there};
ghost use Rattle.irc_channel_commands.specs.Laws.InviteLaw.{InviteDoes, InviteIsOwn};
ghost use Rattle.irc_channel_commands.specs.Laws.InviteLaw.{InviteIsPossible, InviteIsSendable};
ghost use Rattle.irc_channel_commands.specs.Laws.InviteLaw.{InviteLooksAtNoInvitation};

use irc_acts::refusals::no_such_channel;
use irc_acts::standing::is_operator;
use irc_acts::words::client_words;
use irc_acts::{Act, Context, only, put};
use irc_channels::Channel;
use irc_names::ChannelName;
use irc_numerics::Reply;
use irc_room::Effect;
use irc_users::User;
use std::alloc::{AllocError, Global};

/// What an INVITE of the user of a nickname to the channel of a name does (RFC 2812 section 3.2.7).
///
/// # Errors
/// Where memory runs out.
#[tactic(auto, unfolding(crate::specs::Invite::invite_steps))]
pub fn steps(
    context: &Context<'_>,
    nick: &[u8],
    name: &[u8],
) -> Result<Vec<Act, Global>, AllocError>
    ensures { Yields result (by_room context.now invite_steps nick.now name.now) }
{
    let Some(other) = context.room.user(nick) else {
        let reply = Reply::NoSuchNick {
            name: client_words(nick),
        };
        return only(context.alloc, Act::Answer(reply));
    };
    match context.room.channel(name) {
        Some(channel) => invite_to(context, other, channel),
        None => invite_elsewhere(context, other, name),
    }
}

/// What inviting a user to a channel that is there does.
fn invite_to(
    context: &Context<'_>,
    other: &User,
    channel: &Channel,
) -> Result<Vec<Act, Global>, AllocError>
    ensures { Yields result (invites_there context.now.me.now other.now channel.now) }
{
    match refusal(context.me, other, channel) {
        Some(reply) => only(context.alloc, Act::Answer(reply)),
        None => invite(context, other, &channel.name),
    }
}

/// Why a user may not invite another to a channel. Where mode i is set only an operator does (RFC
/// 2811 section 4.2.2).
fn refusal(me: &User, other: &User, channel: &Channel) -> Option<Reply>
    ensures { result ≡ first_refusal (invite_refusals me.now other.now channel.now) }
{
    let flags = channel.members.get(me.nick.as_bytes()).copied();
    let name = channel.name.copy();
    if flags.is_none() {
        Some(Reply::NotOnChannel { channel: name })
    } else if channel.has_member(&other.nick) {
        let nick = other.nick.copy();
        Some(Reply::UserOnChannel {
            nick,
            channel: name,
        })
    } else if channel.modes.invite_only && !is_operator(flags) {
        Some(Reply::ChanOPrivsNeeded { channel: name })
    } else {
        None
    }
}

/// What inviting a user to a channel that is not there does: it is told, with the name as it was
/// given, and not kept.
fn invite_elsewhere(
    context: &Context<'_>,
    other: &User,
    name: &[u8],
) -> Result<Vec<Act, Global>, AllocError>
    ensures { Yields result (invites_found context.now.me.now other.now name.now None) }
{
    match ChannelName::read(name) {
        Some(channel) => invite(context, other, &channel),
        None => only(context.alloc, no_such_channel(name)),
    }
}

/// The user is told that the other is invited, who is invited then.
fn invite(
    context: &Context<'_>,
    other: &User,
    channel: &ChannelName,
) -> Result<Vec<Act, Global>, AllocError>
    ensures { Yields result (invites context.now.me.now other.now channel.now) }
{
    let told = Reply::Inviting {
        channel: channel.copy(),
        nick: other.nick.copy(),
    };
    let mut steps = only(context.alloc, Act::Answer(told))?;
    put(&mut steps, Act::Do(invitation(context.me, other, channel)))?;
    Ok(steps)
}

/// The invitation of a user to a channel.
fn invitation(me: &User, other: &User, channel: &ChannelName) -> Effect
    ensures { result ≡ Invite me.now.nick other.now.nick channel.now }
{
    Effect::Invite {
        by: me.nick.copy(),
        nick: other.nick.copy(),
        channel: channel.copy(),
    }
}

/// A law: each effect of an INVITE is its user's own.
#[tactic(auto, using(crate::specs::Laws::InviteLaw::invite_is_own))]
pub fn is_own()
    ensures { InviteIsOwn }
{}

/// A law: in a well-formed room what an INVITE of a user does can be done, effect by effect.
#[tactic(auto, using(crate::specs::Laws::InviteLaw::invite_is_possible))]
pub fn is_possible()
    ensures { InviteIsPossible }
{}

/// A law: each effect of an INVITE does something.
#[tactic(auto, using(crate::specs::Laws::InviteLaw::invite_does))]
pub fn does_something()
    ensures { InviteDoes }
{}

/// A law: an INVITE does the same whoever is invited to channels.
#[tactic(auto, using(crate::specs::Laws::InviteLaw::invite_looks_at_no_invitation))]
pub fn looks_at_no_invitation()
    ensures { InviteLooksAtNoInvitation }
{}

/// A law: each effect of an INVITE can be sent.
#[tactic(auto, using(crate::specs::Laws::InviteLaw::invite_is_sendable))]
pub fn is_sendable()
    ensures { InviteIsSendable }
{}
