//! QUIT of a registered user.
ghost use Rattle.std.specs.Prelude.{IfOk};
ghost use Rattle.irc_line.specs.PartViews.{words_now};
ghost use Rattle.irc_commands.specs.CodeViews.{IsDecidedIn};
ghost use Rattle.irc_commands.specs.Quit.{quit_decided};

use crate::closing::error;
use crate::decision::Decision;
use irc_acts::words::reason_given;
use irc_acts::{Act, Context, only, put};
use irc_room::Effect;
use std::alloc::AllocError;

/// What a QUIT does: others see it first, then the client is told and closed (RFC 2812 section
/// 3.1.7).
#[tactic(auto, unfolding(crate::specs::CodeViews::asked_steps))]
pub(crate) fn decided(context: &Context<'_>, params: &[&[u8]]) -> Result<Decision, AllocError>
    ensures { IfOk result (IsDecidedIn context.now (words_now params.now)
        (quit_decided context.now.me.now (words_now params.now))) }
{
    let nick = context.me.nick.copy();
    let text = reason_given(params, nick.as_bytes());
    let told = Act::Raw(error(&text));
    let mut steps = only(context.alloc, Act::Do(Effect::Quit { nick, text }))?;
    put(&mut steps, told)?;
    Ok(Decision {
        steps,
        query: None,
        close: true,
    })
}
