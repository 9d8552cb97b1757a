//! PART.
ghost use Rattle.irc_line.specs.PartViews.{words_now};
ghost use Rattle.irc_acts.specs.Moves.{AreLeaves};
ghost use Rattle.irc_acts.specs.Steps.{by_room, Yields};
ghost use Rattle.irc_channel_commands.specs.Part.{part_list, part_steps};
ghost use Rattle.irc_channel_commands.specs.Laws.PartLaw.{PartDoes, PartIsOwn};
ghost use Rattle.irc_channel_commands.specs.Laws.PartLaw.{PartLooksAtNoInvitation};
ghost use Rattle.irc_channel_commands.specs.Loops.PartList.{IsPartAhead};

use irc_acts::ahead::{self, know_well_formed};
use irc_acts::comma_lists::next_entry;
use irc_acts::refusals::{no_such_channel, not_on_channel};
use irc_acts::words::reason_given;
use irc_acts::{Act, Context, put};
use irc_channels::Words;
use irc_room::Effect;
use std::alloc::{AllocError, Global};

/// What a PART of a comma list of channels does (RFC 2812 section 3.2.2); the first parameter
/// behind it is the text.
///
/// # Errors
/// Where memory runs out.
#[tactic(auto, unfolding(crate::specs::Part::part_steps))]
pub fn steps(
    context: &Context<'_>,
    list: &[u8],
    more: &[&[u8]],
) -> Result<Vec<Act, Global>, AllocError>
    ensures { Yields result (by_room context.now part_steps list.now (words_now more.now)) }
{
    let text = reason_given(more, context.me.nick.as_bytes());
    part_list(context, &text, list)
}

/// What leaving the channels of a comma list does, one after another.
fn part_list(
    context: &Context<'_>,
    text: &Words,
    list: &[u8],
) -> Result<Vec<Act, Global>, AllocError>
    ensures { Yields result (by_room context.now part_list text.now list.now) }
{
    know_well_formed(context.room);
    let mut steps = Vec::new(context.alloc);
    let mut rest = list;
    while let Some((name, behind)) = next_entry(rest) {
        let act = part_one(context, text, steps.as_slice(), name);
        put(&mut steps, act)?;
        rest = behind;
    }
    Ok(steps)
}

/// What leaving one channel does in the room as the steps so far leave it.
fn part_one(context: &Context<'_>, text: &Words, steps: &[Act], name: &[u8]) -> Act
    requires { AreLeaves context.now.room.now.room steps.now }
    ensures { IsPartAhead context.now text.now steps.now name.now result }
{
    let nick = &context.me.nick;
    let Some(channel) = ahead::channel(context.room, steps, name) else {
        return no_such_channel(name);
    };
    match ahead::flags(context.room, steps, nick.as_bytes(), name) {
        None => not_on_channel(channel),
        Some(_) => Act::Do(Effect::Part {
            nick: nick.copy(),
            channel: channel.name.copy(),
            text: text.copy(),
        }),
    }
}

/// A law: each effect of a PART is its user's own, in the room that those before it have left.
#[tactic(auto, using(crate::specs::Laws::PartLaw::part_is_own))]
pub fn is_own()
    ensures { PartIsOwn }
{}

/// A law: each effect of a PART does something.
#[tactic(auto, using(crate::specs::Laws::PartLaw::part_does))]
pub fn does_something()
    ensures { PartDoes }
{}

/// A law: a PART does the same whoever is invited to channels.
#[tactic(auto, using(crate::specs::Laws::PartLaw::part_looks_at_no_invitation))]
pub fn looks_at_no_invitation()
    ensures { PartLooksAtNoInvitation }
{}
