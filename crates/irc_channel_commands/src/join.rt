//! JOIN.
ghost use Rattle.std.specs.Prelude.{◌≡◌, false, length, map};
ghost use Rattle.irc_names.specs.Fold.{key};
ghost use Rattle.irc_line.specs.MessageViews.{optional_now};
ghost use Rattle.irc_channels.specs.Channels.{has_member};
ghost use Rattle.irc_room.specs.Effects.{is_member};
ghost use Rattle.irc_acts.specs.Steps.{by_room, AddsTo, Yields};
ghost use Rattle.irc_acts.specs.Moves.{AreOwnJoins, own_channels};
ghost use Rattle.irc_channel_commands.specs.Join.{is_zero, join_list, join_steps, joiner_topic};
ghost use Rattle.irc_channel_commands.specs.Join.{leave_each, leaves};
ghost use Rattle.irc_channel_commands.specs.Laws.JoinLaw.{JoinDoes, JoinIsOwnOrLeaves};
ghost use Rattle.irc_channel_commands.specs.Laws.JoinLaw.{JoinLooksAtOwnInvitations};
ghost use Rattle.irc_channel_commands.specs.Laws.JoinLaw.{LeavingAllIsOwn};
ghost use Rattle.irc_channel_commands.specs.Loops.JoinList.{is_in_ahead, Enters, IsNextKey};
ghost use Rattle.irc_channel_commands.specs.Loops.JoinList.{JoinsFound, JoinsOne, JoinsThere};

use crate::MAX_JOINED;
use crate::admission::kept_out;
use irc_acts::ahead::{self, know_well_formed};
use irc_acts::comma_lists::first_piece;
use irc_acts::names::{end_of_names, put_joiner_names};
use irc_acts::refusals::no_such_channel;
use irc_acts::{Act, Context, put};
use irc_channels::{Channel, Stored, Words};
use irc_names::{ChannelName, copied};
use irc_numerics::Reply;
use irc_room::Effect;
use irc_tables::Row;
use irc_users::User;
use std::alloc::{AllocError, Global};

/// What a JOIN of a comma list of channels does, with a comma list of keys, which is empty where
/// none is given (RFC 2812 section 3.2.1).
///
/// # Errors
/// Where memory runs out.
#[tactic(auto, unfolding(crate::specs::Join::join_steps))]
pub fn steps(
    context: &Context<'_>,
    list: &[u8],
    keys: &[u8],
) -> Result<Vec<Act, Global>, AllocError>
    ensures { Yields result (by_room context.now join_steps list.now keys.now) }
{
    if is_zero(list) {
        leave_each(context)
    } else {
        join_list(context, list, keys)
    }
}

/// Whether a list is `0`, which stands for leaving all channels.
fn is_zero(list: &[u8]) -> bool
    ensures { result ≡ is_zero list.now }
{
    list == b"0".as_slice()
}

/// A Part of each channel that the user is in, with its nickname as the text. No other channel is
/// looked at.
fn leave_each(context: &Context<'_>) -> Result<Vec<Act, Global>, AllocError>
    ensures { Yields result (by_room context.now leave_each) }
{
    let rows = context.room.channels_of(context.me.nick.as_bytes())?;
    leave_all(context.alloc, context.me, rows.as_slice())
}

/// A Part of each of these channels.
fn leave_all(
    alloc: Global,
    me: &User,
    rows: &[&Row<Stored>],
) -> Result<Vec<Act, Global>, AllocError>
    ensures { Yields result (map (λ row. leaves me.now row.now.value) rows.now) }
{
    rows.iter()
        .map(|row| leave(me, row.value.channel()))
        .collect(alloc)
}

/// A Part of one channel.
fn leave(me: &User, channel: &Channel) -> Act
    ensures { result ≡ leaves me.now channel.now }
{
    Act::Do(Effect::Part {
        nick: me.nick.copy(),
        channel: channel.name.copy(),
        text: Words::cut(me.nick.as_bytes()),
    })
}

/// The channels of a list in turn, each with the key at its position.
fn join_list(
    context: &Context<'_>,
    list: &[u8],
    keys: &[u8],
) -> Result<Vec<Act, Global>, AllocError>
    ensures { Yields result (by_room context.now join_list list.now keys.now) }
{
    know_well_formed(context.room);
    let already = context.room.channel_count(context.me.nick.as_bytes());
    let mut steps = Vec::new(context.alloc);
    let mut names = Some(list);
    let mut keys = Some(keys);
    while let Some(left) = names {
        let (name, more_names) = first_piece(left);
        let (key, more_keys) = next_key(keys);
        names = more_names;
        keys = more_keys;
        if !name.is_empty() {
            join_one(&mut steps, context, already, name, key)?;
        }
    }
    Ok(steps)
}

/// The next key of a list of keys, which is empty where none is left, and what is left of the list.
fn next_key(keys: Option<&[u8]>) -> (&[u8], Option<&[u8]>)
    ensures { IsNextKey (optional_now keys.entry) result.0.now (optional_now result.1) }
{
    match keys {
        None => (&[], None),
        Some(keys) => first_piece(keys),
    }
}

/// One channel, by the room as the steps so far have left it.
fn join_one(
    steps: &mut Vec<Act, Global>,
    context: &Context<'_>,
    already: usize,
    name: &[u8],
    given: &[u8],
) -> Result<(), AllocError>
    requires joins { AreOwnJoins context.now.me.now.nick context.now.room.now.room steps.old.items }
    requires counted { already ≡ length (by_room context.now own_channels) }
    ensures { JoinsOne context.now name.now given.now steps.old steps.new result }
{
    let Some(asked) = ChannelName::read(name) else {
        return put(steps, no_such_channel(name));
    };
    if is_in(context, steps.as_slice(), name) {
        return Ok(());
    }
    if ahead::channels(context.room, steps.as_slice(), context.me, already) < MAX_JOINED {
        join_found(steps, context, &asked, given)
    } else {
        put(
            steps,
            Act::Answer(Reply::TooManyChannels { channel: asked }),
        )
    }
}

/// Whether the user is a member of the channel of a name, once these steps are done.
fn is_in(context: &Context<'_>, steps: &[Act], name: &[u8]) -> bool
    requires { AreOwnJoins context.now.me.now.nick context.now.room.now.room steps.now }
    ensures { result ≡ is_in_ahead context.now steps.now name.now }
{
    ahead::flags(context.room, steps, context.me.nick.as_bytes(), name).is_some()
}

/// A channel that the user is not in: it is made where it is not there.
fn join_found(
    steps: &mut Vec<Act, Global>,
    context: &Context<'_>,
    asked: &ChannelName,
    given: &[u8],
) -> Result<(), AllocError>
    requires { is_member context.now.room.now.room context.now.me.now.nick asked.now ≡ false }
    ensures { JoinsFound context.now asked.now given.now steps.old steps.new result }
{
    match context.room.channel(asked.as_bytes()) {
        Some(channel) => join_there(steps, context, channel, asked, given),
        None => {
            let made = Channel::new(context.alloc, asked);
            enter(steps, context, true, &made, asked)
        }
    }
}

/// A channel that is there, and keeps some out.
fn join_there(
    steps: &mut Vec<Act, Global>,
    context: &Context<'_>,
    channel: &Channel,
    asked: &ChannelName,
    given: &[u8],
) -> Result<(), AllocError>
    requires { has_member (key context.now.me.now.nick) channel.now ≡ false }
    ensures { JoinsThere context.now asked.now given.now channel.now steps.old steps.new result }
{
    match kept_out(context.me, given, channel) {
        Some(refusal) => put(steps, refusal),
        None => enter(steps, context, false, channel, asked),
    }
}

/// The user joins a channel that it is not in, and is told what is there then.
fn enter(
    steps: &mut Vec<Act, Global>,
    context: &Context<'_>,
    op: bool,
    channel: &Channel,
    asked: &ChannelName,
) -> Result<(), AllocError>
    requires { has_member (key context.now.me.now.nick) channel.now ≡ false }
    ensures { Enters context.now asked.now op channel.now steps.old steps.new result }
{
    let nick = context.me.nick.copy();
    let name = channel.name.copy();
    put(
        steps,
        Act::Do(Effect::Join {
            nick,
            channel: name,
            op,
        }),
    )?;
    put_topic(steps, channel)?;
    put_joiner_names(steps, context, op, channel)?;
    put(steps, end_of_names(asked.as_bytes()))
}

/// Appends the topic that a joiner is told, where there is one.
fn put_topic(steps: &mut Vec<Act, Global>, channel: &Channel) -> Result<(), AllocError>
    ensures { AddsTo result steps.old steps.new (joiner_topic channel.now) }
{
    let topic = channel.topic.as_bytes();
    if topic.is_empty() {
        return Ok(());
    }
    let channel = channel.name.copy();
    let topic = copied(topic);
    put(steps, Act::Answer(Reply::Topic { channel, topic }))
}

/// A law: each effect of a JOIN is its user's own, in the room that those before it have left, or
/// the user leaves all its channels.
#[tactic(auto, using(crate::specs::Laws::JoinLaw::join_is_own_or_leaves))]
pub fn is_own_or_leaves()
    ensures { JoinIsOwnOrLeaves }
{}

/// A law: in a well-formed room each effect of leaving all channels is its user's own too.
#[tactic(auto, using(crate::specs::Laws::JoinLaw::leaving_all_is_own))]
pub fn leaving_all_is_own()
    ensures { LeavingAllIsOwn }
{}

/// A law: each effect of a JOIN does something.
#[tactic(auto, using(crate::specs::Laws::JoinLaw::join_does))]
pub fn does_something()
    ensures { JoinDoes }
{}

/// A law: a JOIN does the same whoever else is invited to channels.
#[tactic(auto, using(crate::specs::Laws::JoinLaw::join_looks_at_own_invitations))]
pub fn looks_at_own_invitations()
    ensures { JoinLooksAtOwnInvitations }
{}
