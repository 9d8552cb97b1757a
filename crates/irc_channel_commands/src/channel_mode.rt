//! MODE of a channel.
ghost use Rattle.std.specs.Prelude.{◌≡◌, [], OnOk};
ghost use Rattle.irc_names.specs.Fold.{key};
ghost use Rattle.irc_names.specs.Tables.{row};
ghost use Rattle.irc_line.specs.PartViews.{words_now};
ghost use Rattle.irc_modes.specs.ModeViews.{all_asked, asked};
ghost use Rattle.irc_channel_commands.specs.ChannelMode.{
  asked_of,
  changing,
  channel_mode_named,
  denied,
  in_channel,
  letter_replies,
  obeyed,
  outcome_of,
};
ghost use Rattle.irc_acts.specs.Standing.{is_operator};
ghost use Rattle.irc_acts.specs.Steps.{among_users, by_room, AddsTo, Yields};
ghost use Rattle.irc_acts.specs.declared.act.Act.TheVariants.{Answer};
ghost use Rattle.irc_numerics.specs.declared.replies.Reply.TheVariants.{UnknownMode};
ghost use Rattle.irc_channel_commands.specs.Loops.Denied.{denied_one, is_change};
ghost use Rattle.irc_channel_commands.specs.Loops.KeptChanges.{AreSetBy, Follows};
ghost use Rattle.irc_channel_commands.specs.Loops.Served.{AnswersEach, AnswersOne, ChangesEach};
ghost use Rattle.irc_channel_commands.specs.Loops.Served.{ChangesOne};

use crate::modes_shown::{modes_shown, put_bans};
use crate::{KeptChanges, Verdict, judge, know_bans_rise};
use irc_acts::refusals::{need_more_params, no_such_channel};
use irc_acts::standing::is_operator;
use irc_acts::{Act, Context, only, put};
use irc_channels::Channel;
use irc_modes::{ModeItem, read_modes};
use irc_numerics::Reply;
use irc_room::{By, Effect, ModeChanges, Room};
use irc_users::User;
use std::alloc::{AllocError, Global};

/// What a MODE of a channel's name does (RFC 2812 section 3.2.3).
#[tactic(auto, unfolding(crate::specs::ChannelMode::channel_mode))]
pub(crate) fn steps(
    context: &Context<'_>,
    name: &[u8],
    more: &[&[u8]],
) -> Result<Vec<Act, Global>, AllocError>
    ensures { Yields result (by_room context.now channel_mode_named name.now (words_now more.now)) }
{
    match context.room.channel(name) {
        Some(channel) => in_channel(context, channel, more),
        None => only(context.alloc, no_such_channel(name)),
    }
}

/// What the parameters behind a channel do.
fn in_channel(
    context: &Context<'_>,
    channel: &Channel,
    more: &[&[u8]],
) -> Result<Vec<Act, Global>, AllocError>
    ensures { Yields result (among_users context.now in_channel channel.now (words_now more.now)) }
{
    if more.is_empty() {
        return only(context.alloc, modes_shown(context.me, channel));
    }
    let items = read_modes(context.alloc, more)?;
    asked_of(context, channel, items.as_slice())
}

/// What letters that were read do.
fn asked_of(
    context: &Context<'_>,
    channel: &Channel,
    items: &[ModeItem<'_>],
) -> Result<Vec<Act, Global>, AllocError>
    ensures { Yields result (among_users context.now asked_of channel.now (all_asked items.now)) }
{
    if is_ruled_by(channel, context.me) {
        serve(context, channel, items)
    } else {
        deny(context.alloc, channel, items)
    }
}

/// Whether a user is an operator of a channel.
fn is_ruled_by(channel: &Channel, me: &User) -> bool
    ensures { result ≡ is_operator (row channel.now.members (key me.now.nick)) }
{
    is_operator(channel.members.get(me.nick.as_bytes()).copied())
}

/// What the letters of an operator do: the replies, and then one effect of all changes that are
/// made.
fn serve(
    context: &Context<'_>,
    channel: &Channel,
    items: &[ModeItem<'_>],
) -> Result<Vec<Act, Global>, AllocError>
    ensures { Yields result (among_users context.now obeyed channel.now (all_asked items.now)) }
{
    know_bans_rise(channel);
    let mut steps = Vec::new(context.alloc);
    let mut kept = KeptChanges::none(context.alloc, channel);
    serve_each(context.room, channel, items, &mut kept, &mut steps)?;
    put_changes(context.me, channel, kept, &mut steps)?;
    Ok(steps)
}

/// Serves the letters of an operator one after another.
fn serve_each(
    room: &Room,
    channel: &Channel,
    items: &[ModeItem<'_>],
    kept: &mut KeptChanges,
    steps: &mut Vec<Act, Global>,
) -> Result<(), AllocError>
    requires none { kept.old.changes.items ≡ [] }
    requires follows { Follows channel.now kept.old.changes.items kept.old.settings }
    ensures replies { AnswersEach room.now channel.now items.now steps.old steps.new result }
    ensures changes { ChangesEach room.now channel.now items.now kept.new result }
{
    for item in items {
        serve_one(room, channel, item, kept, steps)?;
    }
    Ok(())
}

/// Serves one letter of an operator in the channel as the changes so far have left it.
fn serve_one(
    room: &Room,
    channel: &Channel,
    item: &ModeItem<'_>,
    kept: &mut KeptChanges,
    steps: &mut Vec<Act, Global>,
) -> Result<(), AllocError>
    requires { Follows channel.now kept.old.changes.items kept.old.settings }
    ensures replies { AnswersOne room.now channel.now kept.old item.now steps.old steps.new result }
    ensures changes { ChangesOne room.now channel.now kept.old item.now kept.new result }
    ensures follows { OnOk result (Follows channel.now kept.new.changes.items kept.new.settings) }
{
    match item {
        ModeItem::Change(asked) => take(judge(room, channel, kept, asked), kept, steps),
        _ => tell(channel, item, steps),
    }
}

/// Does what came of a change: a reply, or one change more.
fn take(
    verdict: Verdict,
    kept: &mut KeptChanges,
    steps: &mut Vec<Act, Global>,
) -> Result<(), AllocError>
    ensures replies { AddsTo result steps.old steps.new (outcome_of verdict).replies }
    ensures changes { AddsTo result kept.old.changes kept.new.changes (outcome_of verdict).changes }
    ensures settings { AreSetBy (outcome_of verdict).changes kept.old kept.new result }
{
    match verdict {
        Verdict::Says(reply) => put(steps, Act::Answer(reply)),
        Verdict::Keeps(change) => kept.keep(change),
        Verdict::Nothing => Ok(()),
    }
}

/// Answers a letter that asks for no change.
fn tell(
    channel: &Channel,
    item: &ModeItem<'_>,
    steps: &mut Vec<Act, Global>,
) -> Result<(), AllocError>
    ensures { AddsTo result steps.old steps.new (letter_replies channel.now (asked item.now)) }
{
    match item {
        ModeItem::Change(_) => Ok(()),
        ModeItem::List => put_bans(channel, steps),
        ModeItem::NoWord => put(steps, need_more_params(b"MODE")),
        ModeItem::Unknown(mode) => put(steps, unknown_mode(*mode, channel)),
    }
}

fn unknown_mode(mode: u8, channel: &Channel) -> Act
    ensures { result ≡ Answer (UnknownMode mode channel.now.name) }
{
    let channel = channel.name.copy();
    Act::Answer(Reply::UnknownMode { mode, channel })
}

/// Appends the changes that are made, if there are any.
fn put_changes(
    me: &User,
    channel: &Channel,
    kept: KeptChanges,
    steps: &mut Vec<Act, Global>,
) -> Result<(), AllocError>
    ensures { AddsTo result steps.old steps.new (changing me.now channel.now kept.changes.items) }
{
    if kept.changes.is_empty() {
        return Ok(());
    }
    let effect = Effect::ChangeModes {
        by: By::User(me.nick.copy()),
        channel: channel.name.copy(),
        changes: ModeChanges::new(kept.changes),
    };
    put(steps, Act::Do(effect))
}

/// What the letters of one who is no operator do: the first change is refused.
fn deny(
    alloc: Global,
    channel: &Channel,
    items: &[ModeItem<'_>],
) -> Result<Vec<Act, Global>, AllocError>
    ensures { Yields result (denied channel.now (all_asked items.now)) }
{
    let mut steps = Vec::new(alloc);
    let mut refused = false;
    for item in items {
        deny_one(refused, channel, item, &mut steps)?;
        refused |= is_change(item);
    }
    Ok(steps)
}

/// Answers one letter of one who is no operator: a change is refused once.
fn deny_one(
    refused: bool,
    channel: &Channel,
    item: &ModeItem<'_>,
    steps: &mut Vec<Act, Global>,
) -> Result<(), AllocError>
    ensures { AddsTo result steps.old steps.new (denied_one refused channel.now (asked item.now)) }
{
    if is_change(item) && !refused {
        let channel = channel.name.copy();
        return put(steps, Act::Answer(Reply::ChanOPrivsNeeded { channel }));
    }
    tell(channel, item, steps)
}

/// Whether a letter asks for a change.
fn is_change(item: &ModeItem<'_>) -> bool
    ensures { result ≡ is_change (asked item.now) }
{
    matches!(item, ModeItem::Change(_))
}
