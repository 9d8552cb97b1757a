//! WHOWAS.
ghost use Rattle.std.specs.Prelude.{IfOk};
ghost use Rattle.irc_line.specs.PartViews.{words_now};
ghost use Rattle.irc_commands.specs.RegisteringViews.{AreDecided};
ghost use Rattle.irc_commands.specs.Whowas.{whowas_steps};

use irc_acts::words::client_words;
use irc_acts::{Act, only, put};
use irc_numerics::Reply;
use std::alloc::{AllocError, Global};

/// What a WHOWAS does (RFC 2812 section 3.6.3): nobody is known to have had the name.
#[tactic(auto, unfolding(crate::specs::Whowas::whowas_steps))]
pub(crate) fn steps(alloc: Global, params: &[&[u8]]) -> Result<Vec<Act, Global>, AllocError>
    ensures { IfOk result (AreDecided (whowas_steps (words_now params.now))) }
{
    let Some(name) = params.first() else {
        return only(alloc, Act::Answer(Reply::NoNicknameGiven));
    };
    let unknown = Reply::WasNoSuchNick {
        name: client_words(name),
    };
    let end = Reply::EndOfWhoWas {
        name: client_words(name),
    };
    let mut steps = only(alloc, Act::Answer(unknown))?;
    put(&mut steps, Act::Answer(end))?;
    Ok(steps)
}
