//! NICK of a registered user.
ghost use Rattle.std.specs.Prelude.{◌≡◌, IfOk, option_to_list};
ghost use Rattle.irc_line.specs.PartViews.{words_now};
ghost use Rattle.irc_commands.specs.Nick.{is_anothers, nick_steps, nick_taken};
ghost use Rattle.irc_commands.specs.CodeViews.{nick_here};
ghost use Rattle.irc_commands.specs.RegisteringViews.{AreDecided};

use irc_acts::words::client_words;
use irc_acts::{Act, Context, put};
use irc_names::{Nick, same};
use irc_numerics::Reply;
use irc_room::Effect;
use std::alloc::{AllocError, Global};

/// What a NICK does (RFC 2812 section 3.1.2).
pub(crate) fn steps(context: &Context<'_>, params: &[&[u8]]) -> Result<Vec<Act, Global>, AllocError>
    ensures { IfOk result (AreDecided (nick_here context.now (words_now params.now))) }
{
    let mut steps = Vec::new(context.alloc);
    if let Some(act) = step(context, params) {
        put(&mut steps, act)?;
    }
    Ok(steps)
}

/// The one step of a NICK, if it has one.
#[tactic(auto, unfolding(crate::specs::Nick::nick_steps))]
fn step(context: &Context<'_>, params: &[&[u8]]) -> Option<Act>
    ensures { nick_steps context.now.room.now.room context.now.me.now (words_now params.now)
        ≡ option_to_list result }
{
    match params.first() {
        Some(given) if !given.is_empty() => take(context, given),
        _ => Some(Act::Answer(Reply::NoNicknameGiven)),
    }
}

/// Takes a nickname that is not empty, if it is one and nobody else has it.
fn take(context: &Context<'_>, given: &[u8]) -> Option<Act>
    ensures { nick_taken context.now.room.now.room context.now.me.now given.now
        ≡ option_to_list result }
{
    let Some(new) = Nick::read(given) else {
        let nick = client_words(given);
        return Some(Act::Answer(Reply::ErroneousNickname { nick }));
    };
    if is_anothers(context, given) {
        return Some(Act::Answer(Reply::NicknameInUse { nick: new }));
    }
    // Nicknames are equal where their folds are; here the spelling counts.
    let nick = &context.me.nick;
    if given == nick.as_bytes() {
        return None;
    }
    let nick = nick.copy();
    Some(Act::Do(Effect::Rename { nick, new }))
}

/// Whether another user has a nickname.
fn is_anothers(context: &Context<'_>, nickname: &[u8]) -> bool
    ensures { result ≡ is_anothers context.now.room.now.room context.now.me.now nickname.now }
{
    context.room.user(nickname).is_some() && !same(nickname, context.me.nick.as_bytes())
}
