//! NAMES, and the names that a joiner is sent.
ghost use Rattle.std.specs.Prelude.{◌≡◌, false, []};
ghost use Rattle.irc_names.specs.Fold.{key};
ghost use Rattle.irc_line.specs.PartViews.{words_now};
ghost use Rattle.irc_channels.specs.Channels.{has_member};
ghost use Rattle.irc_acts.specs.Steps.{among_users, by_room, AddsTo, Yields};
ghost use Rattle.irc_acts.specs.Names.{end_of_names, joiner_names, list_names, names_of};
ghost use Rattle.irc_acts.specs.Names.{names_steps, one_names};
ghost use Rattle.irc_acts.specs.Loops.NameLines.{names_if_listed};
ghost use Rattle.irc_acts.specs.Laws.NamesLaw.{NamesOnlyAnswers};

use crate::comma_lists::next_entry;
use crate::name_lines::{Naming, add_member, add_members, finish, parted_at};
use crate::standing::{is_known, is_listed};
use crate::words::client_words;
use crate::{Act, Context, put};
use arrayvec::ArrayVec;
use irc_channels::{Channel, Flags};
use irc_numerics::Reply;
use std::alloc::{AllocError, Global};

/// What a NAMES does (RFC 2812 section 3.2.5).
///
/// # Errors
/// Where memory runs out.
#[tactic(auto, unfolding(crate::specs::Names::names_steps))]
pub fn steps(context: &Context<'_>, params: &[&[u8]]) -> Result<Vec<Act, Global>, AllocError>
    ensures { Yields result (by_room context.now names_steps (words_now params.now)) }
{
    let mut steps = Vec::new(context.alloc);
    match params.first() {
        Some(list) => put_list(&mut steps, context, list)?,
        None => put_listed(&mut steps, context)?,
    }
    Ok(steps)
}

/// The end of the names, with what was asked for.
pub fn end_of_names(asked: &[u8]) -> Act
    ensures { result ≡ end_of_names asked.now }
{
    Act::Answer(Reply::EndOfNames {
        name: client_words(asked),
    })
}

/// Appends the names of a channel, as a user sees them.
fn put_names(
    steps: &mut Vec<Act, Global>,
    context: &Context<'_>,
    channel: &Channel,
) -> Result<(), AllocError>
    ensures { AddsTo result steps.old steps.new (among_users context.now names_of channel.now) }
{
    let mut held = ArrayVec::new();
    let all = channel.has_member(&context.me.nick);
    let rows = channel.members.as_slice();
    let naming = Naming {
        room: context.room,
        channel,
        all,
    };
    add_members(steps, &mut held, &naming, rows)?;
    finish(steps, held, channel)
}

/// Appends the names of a channel as a user sees them just after it joins, which it is yet to do.
///
/// # Errors
/// Where memory runs out.
pub fn put_joiner_names(
    steps: &mut Vec<Act, Global>,
    context: &Context<'_>,
    op: bool,
    channel: &Channel,
) -> Result<(), AllocError>
    requires { has_member (key context.now.me.now.nick) channel.now ≡ false }
    ensures { AddsTo result steps.old steps.new (by_room context.now joiner_names op channel.now) }
{
    let mut held = ArrayVec::new();
    let naming = Naming {
        room: context.room,
        channel,
        all: true,
    };
    let nick = &context.me.nick;
    let (before, behind) = parted_at(channel, nick);
    let flags = Flags { op, voice: false };
    let name = nick.as_bytes();
    add_members(steps, &mut held, &naming, before)?;
    add_member(steps, &mut held, &naming, name, flags)?;
    add_members(steps, &mut held, &naming, behind)?;
    finish(steps, held, channel)
}

/// Appends the names of every channel that is listed for a user, and their end.
#[tactic(auto, unfolding(crate::specs::Names::names_steps))]
fn put_listed(steps: &mut Vec<Act, Global>, context: &Context<'_>) -> Result<(), AllocError>
    ensures { AddsTo result steps.old steps.new (by_room context.now names_steps []) }
{
    for row in context.room.channels() {
        put_if_listed(steps, context, row.value.channel())?;
    }
    put(steps, end_of_names(b"*"))
}

/// Appends the names of a channel, if it is listed for a user.
fn put_if_listed(
    steps: &mut Vec<Act, Global>,
    context: &Context<'_>,
    channel: &Channel,
) -> Result<(), AllocError>
    ensures { AddsTo result steps.old steps.new (by_room context.now names_if_listed channel.now) }
{
    if is_listed(context.me, channel) {
        put_names(steps, context, channel)
    } else {
        Ok(())
    }
}

/// Appends the names of the channel that is asked for, where it is there and known to the user, and
/// their end.
fn put_asked(
    steps: &mut Vec<Act, Global>,
    context: &Context<'_>,
    asked: &[u8],
) -> Result<(), AllocError>
    ensures { AddsTo result steps.old steps.new (by_room context.now one_names asked.now) }
{
    match context.room.channel(asked) {
        Some(channel) if is_known(context.me, channel) => put_names(steps, context, channel)?,
        _ => {}
    }
    put(steps, end_of_names(asked))
}

/// Appends the names of the channels of a comma list.
fn put_list(
    steps: &mut Vec<Act, Global>,
    context: &Context<'_>,
    list: &[u8],
) -> Result<(), AllocError>
    ensures { AddsTo result steps.old steps.new (by_room context.now list_names list.now) }
{
    let mut rest = list;
    while let Some((asked, behind)) = next_entry(rest) {
        put_asked(steps, context, asked)?;
        rest = behind;
    }
    Ok(())
}

/// A law: a NAMES has no effect, whatever the room is.
pub fn only_answers()
    ensures { NamesOnlyAnswers }
{}
