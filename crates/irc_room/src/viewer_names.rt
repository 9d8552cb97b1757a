//! Who sees an effect, on whichever server.
ghost use Rattle.std.specs.Prelude.{◌≡◌, IfOk, map};
ghost use Rattle.irc_effects.specs.Readers.{nicks_in, viewers_of};

use crate::effect_lines::has_line;
use crate::viewers::{members, viewers};
use crate::{Effect, Tables, is_idle};
use irc_names::{ChannelName, Nick};
use irc_users::User;
use std::alloc::{AllocError, Global};

/// The nicknames of all who see an effect, in folded order.
///
/// # Errors
/// Where memory runs out.
pub fn audience(
    alloc: Global,
    tables: &Tables,
    effect: &Effect,
) -> Result<Vec<Nick, Global>, AllocError>
    ensures { IfOk result (λ viewers. viewers.items ≡ viewers_of tables.now effect.now) }
{
    let named = tables.named(effect);
    if is_idle(effect, named) || !has_line(effect, named) {
        return Ok(Vec::new(alloc));
    }
    let users = viewers(alloc, tables, effect)?;
    nicknames(alloc, users.as_slice())
}

/// The nicknames of the members of a channel, in folded order.
///
/// # Errors
/// Where memory runs out.
pub fn member_nicks(
    alloc: Global,
    tables: &Tables,
    channel: &ChannelName,
) -> Result<Vec<Nick, Global>, AllocError>
    ensures { IfOk result (λ nicks. nicks.items ≡ nicks_in tables.now channel.now) }
{
    let users = members(alloc, tables, channel)?;
    nicknames(alloc, users.as_slice())
}

/// The nicknames of these users.
fn nicknames(alloc: Global, users: &[&User]) -> Result<Vec<Nick, Global>, AllocError>
    ensures { IfOk result (λ nicks. nicks.items ≡ map (λ user. user.now.nick) users.now) }
{
    users.iter().map(|user| user.nick.copy()).collect(alloc)
}
