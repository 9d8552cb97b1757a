//! MODE.
ghost use Rattle.irc_line.specs.PartViews.{words_now};
ghost use Rattle.irc_acts.specs.Steps.{by_room, Yields};
ghost use Rattle.irc_channel_commands.specs.Laws.ChangesLaw.{ModeDoesSomething};
ghost use Rattle.irc_channel_commands.specs.Laws.InvitationsLaw.{ModeLooksAtNoInvitations};
ghost use Rattle.irc_channel_commands.specs.Laws.ModeLaw.{ModeIsOwn, ModeIsSendable};
ghost use Rattle.irc_channel_commands.specs.Mode.{mode_steps};

use crate::{channel_mode, user_mode};
use irc_acts::words::names_channel;
use irc_acts::{Act, Context};
use std::alloc::{AllocError, Global};

/// What a MODE of a target does, of a user or of a channel (RFC 2812 sections 3.1.5 and 3.2.3).
///
/// # Errors
/// Where memory runs out.
#[tactic(auto, unfolding(crate::specs::Mode::mode_steps))]
pub fn steps(
    context: &Context<'_>,
    target: &[u8],
    more: &[&[u8]],
) -> Result<Vec<Act, Global>, AllocError>
    ensures { Yields result (by_room context.now mode_steps target.now (words_now more.now)) }
{
    if names_channel(target) {
        channel_mode::steps(context, target, more)
    } else {
        user_mode::steps(context, target, more)
    }
}

/// A law: each effect of a MODE is its user's own.
#[tactic(auto, using(crate::specs::Laws::ModeLaw::mode_is_own))]
pub fn is_own()
    ensures { ModeIsOwn }
{}

/// A law: a MODE does the same in rooms that differ in invitations alone.
#[tactic(auto, using(crate::specs::Laws::InvitationsLaw::mode_looks_at_no_invitations))]
pub fn looks_at_no_invitations()
    ensures { ModeLooksAtNoInvitations }
{}

/// A law: each change that a MODE makes leaves another channel than those before it have left, and
/// a user's own mode is made another.
#[tactic(auto, using(crate::specs::Laws::ChangesLaw::mode_does_something))]
pub fn does_something()
    ensures { ModeDoesSomething }
{}

/// A law: in a room within limits what a MODE changes can be sent.
#[tactic(auto, using(crate::specs::Laws::ModeLaw::mode_is_sendable))]
pub fn is_sendable()
    ensures { ModeIsSendable }
{}
