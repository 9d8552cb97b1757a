//! Lines of a link that tell of an effect, read as deeds (RFC 2813 section 4).
ghost use Rattle.std.specs.Prelude.{◌≡◌, Some, IfOk, OnErr, true};
ghost use Rattle.irc_line.specs.MessageViews.{parsed};
ghost use Rattle.irc_link_reader.specs.Loops.Readings.{TellsRow, found, takes_memory};
ghost use Rattle.irc_link_reader.specs.Loops.Tellings.{done_told, told_found};

use crate::arrival::Arrival;
use crate::deed::Deed;
use crate::reading_channels::{join_line, kick_line, part_line, topic_line};
use crate::reading_modes::mode_line;
use crate::reading_users::{invite_line, nick_line, quit_line, say_line};
use irc_batch::CloseReason;
use irc_line::Message;
use irc_link_words::{EffectCommand, Params};
use irc_room::Effect;
use std::alloc::{AllocError, Global};

/// What a line of a command tells that came by a link: a deed, or nothing where a nickname in it
/// is nobody's; or why it closes the link.
///
/// # Errors
/// Where memory runs out, which takes a MODE.
pub fn tell_effect(
    alloc: Global,
    at: Arrival<'_>,
    command: EffectCommand,
    message: &Message<'_>,
) -> Result<Result<Option<Deed>, CloseReason>, AllocError>
    ensures told { IfOk result (λ told. TellsRow command at.entry
        (parsed message.now).prefix (parsed message.now).params told) }
    ensures memory { OnErr result (takes_memory command ≡ true) }
{
    let params = Params::new(message.params.as_slice());
    match (command, message.prefix) {
        (EffectCommand::Nick, prefix) => Ok(done(nick_line(at, prefix, params))),
        (_, None) => Ok(Err(CloseReason::Parameters)),
        (EffectCommand::Quit, Some(name)) => Ok(done(quit_line(at, name, params))),
        (EffectCommand::Join, Some(name)) => Ok(done(join_line(at, name, params))),
        (EffectCommand::Part, Some(name)) => Ok(done(part_line(at, name, params))),
        (EffectCommand::Kick, Some(name)) => Ok(done(kick_line(at, name, params))),
        (EffectCommand::Mode, Some(name)) => mode_line(alloc, at, name, params),
        (EffectCommand::Topic, Some(name)) => Ok(topic_line(at, name, params)),
        (EffectCommand::Say(notice), Some(name)) => Ok(done(say_line(at, notice, name, params))),
        (EffectCommand::Invite, Some(name)) => Ok(done(invite_line(at, name, params))),
    }
}

/// What is done, as a deed.
pub(crate) fn done(read: Result<Option<Effect>, CloseReason>) -> Result<Option<Deed>, CloseReason>
    ensures { told_found result ≡ done_told (found read) }
{
    match read? {
        Some(effect) => Ok(Some(Deed::Does(effect))),
        None => Ok(None),
    }
}
