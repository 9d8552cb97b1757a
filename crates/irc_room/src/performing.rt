//! What an effect on a room shows.
ghost use Rattle.std.specs.Prelude.{◌≡◌, Ok, [], false, not, true, IfOk};
ghost use Rattle.irc_effects.specs.Applying.{pairs_of};
ghost use Rattle.irc_effects.specs.Effects.{is_idle};
ghost use Rattle.irc_room.specs.Loops.Naming.{IsNamed};
ghost use Rattle.irc_room.specs.Loops.Telling.{shown_at};

use crate::{Effect, Named, ShownLine, Tables, is_idle, show};
use std::alloc::AllocError;

/// Puts out what an effect shows to the users of the server of this name, and tells whether it does
/// anything; one that does nothing takes no memory.
///
/// # Errors
/// Where memory runs out: nothing is promised of `shown` then.
pub(crate) fn put_out(
    own: &[u8],
    tables: &Tables,
    effect: &Effect,
    named: Named<'_>,
    shown: &mut ShownLine,
) -> Result<bool, AllocError>
    requires named { IsNamed tables.now effect.now named }
    requires none { shown.old.viewers.items ≡ [] }
    ensures busy { IfOk result (λ busy. busy ≡ not (is_idle tables.now effect.now)) }
    ensures shown { IfOk result
        (λ busy. pairs_of shown.new ≡ shown_at own.now tables.now effect.now) }
    ensures idle { is_idle tables.now effect.now ≡ true → result ≡ Ok false }
{
    if is_idle(effect, named) {
        return Ok(false);
    }
    show(own, tables, effect, named, shown)?;
    Ok(true)
}
