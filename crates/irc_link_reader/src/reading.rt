//! Lines of a link read as effects (RFC 2813 section 4).
ghost use Rattle.std.specs.Prelude.{◌≡◌, IfOk, option_to_list};
ghost use Rattle.std.specs.Option.{option_map};
ghost use Rattle.irc_line.specs.MessageViews.{parsed};
ghost use Rattle.irc_link_reader.specs.Loops.Readings.{IsGiven, row};
ghost use Rattle.irc_link_reader.specs.Loops.Tellings.{told_of_deed, effect_of_told, effects_of};
ghost use Rattle.irc_link_reader.specs.Means.{IsMeantIn, wire_row_of};

use crate::arrival::Arrival;
use crate::deed::{Deed, ModeSetting, Topic};
use crate::telling::tell_effect;
use irc_batch::CloseReason;
use irc_line::Message;
use irc_link_words::{EffectCommand, LinkCommand, WireFault, command_of};
use irc_room::{By, Effect, Room};
use irc_routes::Routes;
use std::alloc::{AllocError, Global};

/// What a line means that came by a link: the effects that it tells of. Where a nickname in it is
/// nobody's, there are none.
///
/// # Errors
/// In this order: [`WireFault::UnknownCommand`] where no line that tells of an effect has the
/// command; [`WireFault::Parameters`] where there are too few or too many parameters, or one breaks
/// its rule or limit; [`WireFault::BadToken`] where the number in it stands for no server;
/// [`WireFault::WrongDirection`] where the server or user that it is from is not behind the link;
/// [`WireFault::BadName`] where a word in the place of a name is none. [`WireFault::Memory`] where
/// memory runs out, which takes a line that means something, or a MODE: it is never told in place
/// of another line's fault.
pub fn read_effect(
    alloc: Global,
    message: &Message<'_>,
    room: &Room,
    routes: &Routes,
    link: u64,
) -> Result<Vec<Effect, Global>, WireFault>
    ensures { IsMeantIn room.now.room routes.now link (parsed message.now) result }
{
    let at = Arrival { room, routes, link };
    let Some(command) = effect_command(message.command) else {
        return Err(WireFault::UnknownCommand);
    };
    match tell_effect(alloc, at, command, message) {
        Ok(told) => given(alloc, told),
        Err(_) => Err(WireFault::Memory),
    }
}

/// The command that a word is, if it is one of a line that tells of an effect.
#[tactic(auto, using(crate::specs::Lemmas::EffectRows::effect_rows))]
fn effect_command(word: &[u8]) -> Option<EffectCommand>
    ensures { option_map row result ≡ wire_row_of word.now }
{
    match command_of(word) {
        Some(LinkCommand::OfEffects(command)) => Some(command),
        Some(LinkCommand::OfServers(_)) => None,
        None => None,
    }
}

/// The effect of what is told, or the fault that its reason is.
fn given(
    alloc: Global,
    told: Result<Option<Deed>, CloseReason>,
) -> Result<Vec<Effect, Global>, WireFault>
    ensures { IsGiven told result }
{
    match told {
        Ok(deed) => match listed(alloc, deed) {
            Ok(effects) => Ok(effects),
            Err(_) => Err(WireFault::Memory),
        },
        Err(reason) => Err(WireFault::from(reason)),
    }
}

/// The effect of a deed alone, or none.
fn listed(alloc: Global, deed: Option<Deed>) -> Result<Vec<Effect, Global>, AllocError>
    ensures { IfOk result (λ effects. effects.items ≡ effects_of deed) }
{
    let mut effects = Vec::new(alloc);
    if let Some(deed) = deed {
        if let Some(effect) = effect_of(deed) {
            effects.push(effect)?;
        }
    }
    Ok(effects)
}

/// The effect of a deed, if it is one of a line that tells of effects.
fn effect_of(deed: Deed) -> Option<Effect>
    ensures { option_to_list result ≡ effect_of_told (told_of_deed deed) }
{
    match deed {
        Deed::Does(effect) => Some(effect),
        Deed::Modes(
            ModeSetting {
                channel,
                changes,
                ..
            },
        ) => Some(Effect::ChangeModes {
            by: By::Home,
            channel,
            changes,
        }),
        Deed::Topic(Topic { channel, text, .. }) => Some(Effect::SetTopic {
            by: By::Home,
            channel,
            text,
        }),
        _ => None,
    }
}
