//! Why an effect is refused.
ghost use Rattle.std.specs.Prelude.{◌≡◌, ◌||◌, ℕ, is_none, is_some, List, true};
ghost use Rattle.std.specs.List.{list_all};
ghost use Rattle.std.specs.Option.{option_map_or};
ghost use Rattle.irc_effects.specs.Applying.{missing_fault, room_fault};
ghost use Rattle.irc_effects.specs.Effects.{has_user, has_channel, needs_users, needs_channel};
ghost use Rattle.irc_effects.specs.Room.{Room};
ghost use Rattle.irc_room.specs.Loops.Naming.{IsNamed};
ghost use Rattle.irc_room.specs.ServerRoomCodes.{server_room_of};

use crate::{Effect, Named, RoomFault};
use irc_names::Nick;
use irc_users::User;

/// Why a room in which an effect names this refuses it, if it does.
pub(crate) fn refusal(failed: bool, effect: &Effect, named: Named<'_>) -> Option<RoomFault>
    ensures { (own : List ℕ) (room : Room) → IsNamed room effect.now named.entry
        → result ≡ room_fault (server_room_of own failed room) effect.now }
{
    if failed {
        Some(RoomFault::Failed)
    } else {
        missing(effect, named)
    }
}

/// What of all that an effect names is not there, if anything is not.
pub(crate) fn missing(effect: &Effect, named: Named<'_>) -> Option<RoomFault>
    ensures { (room : Room) → IsNamed room effect.now named.entry
        → result ≡ missing_fault room effect.now }
{
    if !users_there(effect, named) {
        Some(RoomFault::NoSuchUser)
    } else if !channel_there(effect, named) {
        Some(RoomFault::NoSuchChannel)
    } else {
        None
    }
}

/// Whether a user was found, where one is looked for.
fn is_there(nick: Option<&Nick>, user: Option<&User>) -> bool
    ensures { result ≡ (is_none nick.entry || is_some user.entry) }
{
    nick.is_none() || user.is_some()
}

/// Whether all users are there that an effect names.
fn users_there(effect: &Effect, named: Named<'_>) -> bool
    ensures { (room : Room) → IsNamed room effect.now named.entry
        → result ≡ list_all (has_user room) (needs_users effect.now) }
{
    is_there(effect.doer(), named.doer) && is_there(effect.other(), named.other)
}

/// Whether the channel is there that an effect needs, if it needs one.
fn channel_there(effect: &Effect, named: Named<'_>) -> bool
    ensures { (room : Room) → IsNamed room effect.now named.entry
        → result ≡ option_map_or (has_channel room) (needs_channel effect.now) true }
{
    match effect.channel() {
        Some(_) => named.channel.is_some(),
        None => true,
    }
}
