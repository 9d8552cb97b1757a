//! TOPIC.
ghost use Rattle.std.specs.Prelude.{◌≡◌, IfOk};
ghost use Rattle.std.specs.Option.{option_copied};
ghost use Rattle.irc_line.specs.PartViews.{words_now};
ghost use Rattle.irc_commands.specs.Topic.{topic_of, topic_set, topic_told};
ghost use Rattle.irc_commands.specs.CodeViews.{topic_here};
ghost use Rattle.irc_commands.specs.RegisteringViews.{AreDecided};

use irc_acts::refusals::{no_such_channel, not_on_channel};
use irc_acts::standing::is_known;
use irc_acts::{Act, Context, only};
use irc_channels::{Channel, Flags, Words};
use irc_names::copied;
use irc_numerics::Reply;
use irc_room::{By, Effect};
use irc_users::User;
use std::alloc::{AllocError, Global};

/// What a TOPIC of the channel of a name does (RFC 2812 section 3.2.4): it shows the topic, or the
/// first parameter behind the name is set.
#[tactic(auto, unfolding(crate::specs::Topic::topic_steps))]
pub(crate) fn steps(
    context: &Context<'_>,
    name: &[u8],
    more: &[&[u8]],
) -> Result<Vec<Act, Global>, AllocError>
    ensures { IfOk result (AreDecided (topic_here context.now name.now (words_now more.now))) }
{
    let step = in_channel(context.room.channel(name), context.me, name, more);
    only(context.alloc, step)
}

/// What a TOPIC does to the channel that was found under a name, if one was. A secret channel is
/// not there for who is no member.
fn in_channel(found: Option<&Channel>, me: &User, name: &[u8], more: &[&[u8]]) -> Act
    ensures { result ≡ topic_of me.now name.now (words_now more.now) (option_copied found.entry) }
{
    let Some(channel) = found else {
        return no_such_channel(name);
    };
    if !is_known(me, channel) {
        return no_such_channel(name);
    }
    match more.first() {
        Some(text) => set(channel, channel.members.get(me.nick.as_bytes()), me, text),
        None => show(channel),
    }
}

/// What a client is told of a channel's topic; an empty one is none.
fn show(channel: &Channel) -> Act
    ensures { result ≡ topic_told channel.now.name channel.now.topic }
{
    let topic = channel.topic.as_bytes();
    let channel = channel.name.copy();
    if topic.is_empty() {
        return Act::Answer(Reply::NoTopic { channel });
    }
    let topic = copied(topic);
    Act::Answer(Reply::Topic { channel, topic })
}

/// What comes of setting a channel's topic, by the flags of who sets it, if it is a member. Where
/// mode t is set only an operator does (RFC 2811 section 4.2.8).
fn set(channel: &Channel, flags: Option<&Flags>, me: &User, text: &[u8]) -> Act
    ensures { result ≡ topic_set me.now channel.now text.now (option_copied flags.entry) }
{
    let Some(flags) = flags else {
        return not_on_channel(channel);
    };
    let name = channel.name.copy();
    if channel.modes.topic_locked && !flags.op {
        return Act::Answer(Reply::ChanOPrivsNeeded { channel: name });
    }
    Act::Do(Effect::SetTopic {
        by: By::User(me.nick.copy()),
        channel: name,
        text: Words::cut(text),
    })
}
