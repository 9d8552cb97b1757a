//! What an effect shows to the users of one server.
ghost use Rattle.std.specs.Prelude.{◌≡◌, [], false, ◌++◌, OnOk};
ghost use Rattle.irc_effects.specs.Applying.{pairs_of};
ghost use Rattle.irc_effects.specs.Effects.{is_idle};
ghost use Rattle.irc_effects.specs.Readers.{users_now};
ghost use Rattle.irc_room.specs.Loops.Naming.{IsNamed};
ghost use Rattle.irc_room.specs.Loops.Viewing.{own_nick, own_nicks, own_viewers};
ghost use Rattle.irc_room.specs.Loops.Telling.{shown_at};

use crate::effect_lines::effect_line;
use crate::viewers::viewers;
use crate::{Effect, Named, ShownLine, Tables};
use irc_names::Nick;
use irc_users::User;
use std::alloc::{AllocError, Global};

/// Writes the line that an effect that does something shows, and adds the users of the server of
/// this name who see it, in folded order.
///
/// # Errors
/// Where memory runs out: nothing is promised of `shown` then.
pub fn show(
    own: &[u8],
    tables: &Tables,
    effect: &Effect,
    named: Named<'_>,
    shown: &mut ShownLine,
) -> Result<(), AllocError>
    requires named { IsNamed tables.now effect.now named }
    requires busy { is_idle tables.now effect.now ≡ false }
    requires none { shown.old.viewers.items ≡ [] }
    ensures { OnOk result (pairs_of shown.new ≡ shown_at own.now tables.now effect.now) }
{
    tables.know_well_formed();
    if effect_line(own, tables, effect, named, &mut shown.line) {
        add_viewers(own, tables, effect, &mut shown.viewers)?;
    }
    Ok(())
}

/// Adds each user of the server that sees an effect.
fn add_viewers(
    own: &[u8],
    tables: &Tables,
    effect: &Effect,
    nicks: &mut Vec<Nick, Global>,
) -> Result<(), AllocError>
    ensures { OnOk result
        (nicks.new.items ≡ nicks.old.items ++ own_viewers own.now tables.now effect.now) }
{
    let users = viewers(*nicks.allocator(), tables, effect)?;
    add_each(own, users.as_slice(), nicks)
}

/// Adds each of these users that is one of the server.
fn add_each(own: &[u8], users: &[&User], nicks: &mut Vec<Nick, Global>) -> Result<(), AllocError>
    ensures { OnOk result
        (nicks.new.items ≡ nicks.old.items ++ own_nicks own.now (users_now users.now)) }
{
    for user in users {
        add_own(own, user, nicks)?;
    }
    Ok(())
}

/// Adds a user, if it is one of the server.
fn add_own(own: &[u8], user: &User, nicks: &mut Vec<Nick, Global>) -> Result<(), AllocError>
    ensures { OnOk result (nicks.new.items ≡ nicks.old.items ++ own_nick own.now user.now) }
{
    if user.home.as_bytes() == own {
        nicks.push(user.nick.copy())?;
    }
    Ok(())
}
