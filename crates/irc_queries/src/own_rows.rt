//! The channels of one user.
ghost use Rattle.std.specs.Prelude.{◌≡◌, IfOk};
ghost use Rattle.irc_acts.specs.Moves.{own_channels};
ghost use Rattle.irc_queries.specs.Loops.Telling.{channels_now};

use irc_channels::Stored;
use irc_room::Room;
use irc_tables::Row;
use irc_users::User;
use std::alloc::{AllocError, Global};

/// The channels that a user is in, in folded order. No other channel is looked at.
pub(crate) fn own_rows<'a>(
    room: &'a Room,
    user: &User,
) -> Result<Vec<&'a Row<Stored>, Global>, AllocError>
    ensures { IfOk result (λ rows. channels_now rows.items ≡ own_channels room.now.room user.now) }
{
    let rows = room.channels_of(user.nick.as_bytes())?;
    Ok(rows)
}
