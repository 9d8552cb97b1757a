//! The users of a server that is lost quit.
ghost use Rattle.std.specs.Prelude.{◌≡◌, map, IfOk};
ghost use Rattle.irc_merge.specs.Quits.{users_at};
ghost use Rattle.irc_room.specs.effect.Effect.TheVariants.{Quit};
ghost use Rattle.irc_stage.specs.EffectTold.{all_changed, changed_if};
ghost use Rattle.irc_server.specs.Loops.Telling.{quits_by};

use irc_burst::Loss;
use irc_channels::Words;
use irc_names::{Nick, ServerName};
use irc_room::{Effect, Room};
use irc_stage::{Link, Serving};
use std::alloc::{AllocError, Global};

/// All users of a lost server quit, in folded order of their nicknames.
///
/// # Errors
/// Where memory runs out.
pub(crate) fn quit_all(mut serving: Serving, link: Link, loss: &Loss) -> Result<Serving, AllocError>
    ensures { IfOk result
        (λ left. left ≡ all_changed (quits_by loss.now serving.state) serving) }
{
    let view = serving.view();
    let nicks = nicks_at(view.alloc(), view.room(), &loss.name)?;
    for nick in &nicks {
        serving = quit(serving, link, nick, &loss.text)?;
    }
    Ok(serving)
}

/// The nicknames of the users of a server, in folded order.
fn nicks_at(alloc: Global, room: &Room, home: &ServerName) -> Result<Vec<Nick, Global>, AllocError>
    ensures { IfOk result (λ nicks. nicks.items
        ≡ map (λ user. user.nick) (users_at home.now room.now.room)) }
{
    let mut nicks = Vec::new(alloc);
    let users = room.users_at(home)?;
    for user in &users {
        nicks.push(user.nick.copy())?;
    }
    Ok(nicks)
}

/// A user quits.
fn quit(serving: Serving, link: Link, nick: &Nick, text: &Words) -> Result<Serving, AllocError>
    ensures { IfOk result (λ left. left ≡ changed_if (Quit nick.now text.now) serving) }
{
    let quit = Effect::Quit {
        nick: nick.copy(),
        text: text.copy(),
    };
    serving.take_effect(link, &quit)
}
