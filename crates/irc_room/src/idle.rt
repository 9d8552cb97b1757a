//! Which effects do something, and which do nothing.
ghost use Rattle.std.specs.Prelude.{◌≡◌};
ghost use Rattle.irc_effects.specs.Applying.{does};
ghost use Rattle.irc_effects.specs.Effects.{is_idle};
ghost use Rattle.irc_effects.specs.Room.{Room};
ghost use Rattle.irc_room.specs.Loops.Naming.{IsNamed};

use crate::named::Named;
use crate::refusing::missing;
use irc_effects::Effect;

/// Whether an effect on a room does nothing: a Join by a member, a Part or a Kick of somebody who
/// is none. What it names in the room was found before.
pub fn is_idle(effect: &Effect, named: Named<'_>) -> bool
    ensures { (room : Room) → IsNamed room effect.now named.entry
        → result ≡ is_idle room effect.now }
{
    match effect {
        Effect::Join { .. } => named.is_member,
        Effect::Part { .. } | Effect::Kick { .. } => named.channel.is_some() && !named.is_member,
        _ => false,
    }
}

/// Whether an effect on a room does anything. What it names in the room was found before.
pub fn does(effect: &Effect, named: Named<'_>) -> bool
    ensures { (room : Room) → IsNamed room effect.now named.entry
        → result ≡ does room effect.now }
{
    missing(effect, named).is_none() && !is_idle(effect, named)
}
