//! What a line of a registered user does.
ghost use Rattle.std.specs.Prelude.{IfOk};
ghost use Rattle.irc_line.specs.MessageViews.{parsed};
ghost use Rattle.irc_routes.specs.Known.{place_of};
ghost use Rattle.irc_commands.specs.CodeViews.{IsDecision};

use crate::decision::Decision;
use crate::is_own;
use crate::table::{decide_for, nothing};
use irc_acts::Context;
use irc_line::Message;
use irc_names::Nick;
use irc_room::Room;
use irc_routes::Routes;
use std::alloc::{AllocError, Global};

/// What a line of a registered user does (RFC 2812 section 3). Nothing is changed, and nothing put
/// out: what it asks of the room is handed back.
///
/// # Errors
/// Where memory runs out.
#[tactic(auto, unfolding(crate::specs::Decide::decide))]
pub fn decide(
    alloc: Global,
    room: &Room,
    routes: &Routes,
    who: &Nick,
    message: &Message<'_>,
) -> Result<Decision, AllocError>
    ensures { IfOk result
        (IsDecision room.now.room (place_of routes.now) who.now (parsed message.now)) }
{
    match room.user(who.as_bytes()) {
        Some(me) if is_own(message.prefix, Some(&me.nick)) => {
            let context = Context {
                alloc,
                room,
                routes,
                me,
            };
            decide_for(&context, message)
        }
        _ => Ok(nothing(alloc)),
    }
}
