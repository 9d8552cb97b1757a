//! Changes of modes, of a channel or of a user (RFC 2813 section 4).
ghost use Rattle.std.specs.Prelude.{◌≡◌, ◌∷◌, Some, false, true, IfOk};
ghost use Rattle.irc_link_reader.specs.Loops.Readings.{TellsOf, changes_channel};
ghost use Rattle.irc_link_reader.specs.Loops.Tellings.{told_found};
ghost use Rattle.irc_link_reader.specs.Means.{mode_line};
ghost use Rattle.irc_link_words.specs.Words.{is_for_channel};

use crate::arrival::{Arrival, expect_from};
use crate::deed::Deed;
use crate::reading_channels::{modes_told, read_doer};
use crate::reading_users::user_mode_line;
use crate::telling::done;
use irc_batch::CloseReason;
use irc_link_words::{Params, expect_members, is_for_channel, read_changes, read_channel};
use irc_room::ModeChanges;
use std::alloc::{AllocError, Global};

/// Modes change, of a channel or of a user.
pub(crate) fn mode_line(
    alloc: Global,
    at: Arrival<'_>,
    name: &[u8],
    mut params: Params<'_>,
) -> Result<Result<Option<Deed>, CloseReason>, AllocError>
    ensures { IfOk result (λ told.
        TellsOf mode_line at.entry (Some name.now) params.entry told) }
{
    let target = match params.next() {
        Ok(target) => target,
        Err(reason) => return Ok(Err(reason)),
    };
    if is_for_channel(target) {
        channel_mode(alloc, at, name, target, params)
    } else {
        Ok(own_mode(at, name, target, params))
    }
}

/// A user's own mode changes.
fn own_mode(
    at: Arrival<'_>,
    name: &[u8],
    target: &[u8],
    params: Params<'_>,
) -> Result<Option<Deed>, CloseReason>
    requires { is_for_channel target.now ≡ false }
    ensures { TellsOf mode_line at.entry (Some name.now) (target.now ∷ params.entry) result }
{
    done(user_mode_line(at, name, target, params))
}

/// Modes of a channel change.
fn channel_mode(
    alloc: Global,
    at: Arrival<'_>,
    name: &[u8],
    target: &[u8],
    params: Params<'_>,
) -> Result<Result<Option<Deed>, CloseReason>, AllocError>
    requires { is_for_channel target.now ≡ true }
    ensures { IfOk result (λ told.
        TellsOf mode_line at.entry (Some name.now) (target.now ∷ params.entry) told) }
{
    match read_changes(alloc, params.rest())? {
        Some(changes) => Ok(change_modes(at, name, target, changes)),
        None => Ok(Err(CloseReason::Parameters)),
    }
}

/// The line of changes of a channel that are read.
#[tactic(auto, using(crate::proofs::ChangesTold::changes_told))]
fn change_modes(
    at: Arrival<'_>,
    name: &[u8],
    target: &[u8],
    changes: ModeChanges,
) -> Result<Option<Deed>, CloseReason>
    ensures { told_found result ≡ changes_channel at.entry name.now target.now changes }
{
    expect_from(at, name)?;
    let doer = read_doer(name)?;
    let channel = read_channel(target)?;
    expect_members(changes.as_slice())?;
    Ok(modes_told(at, doer, channel, changes))
}
