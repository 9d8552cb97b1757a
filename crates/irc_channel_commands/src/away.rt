//! AWAY.
ghost use Rattle.std.specs.Prelude.{◌≡◌};
ghost use Rattle.irc_line.specs.PartViews.{words_now};
ghost use Rattle.irc_acts.specs.Steps.{AddsTo, Yields};
ghost use Rattle.irc_channel_commands.specs.Away.{
  away_given,
  away_reply,
  away_steps,
  is_same_text,
  made_away,
};
ghost use Rattle.irc_channel_commands.specs.Laws.AwayLaw.{AwayDoesSomething, AwayIsOwn};
ghost use Rattle.irc_channel_commands.specs.Laws.AwayLaw.{AwayIsSendable};

use irc_acts::{Act, Context, put};
use irc_channels::Words;
use irc_names::AwayText;
use irc_numerics::Reply;
use irc_room::Effect;
use irc_users::{User, UserChange};
use std::alloc::{AllocError, Global};

/// What an AWAY does: the user is away, with the text that the first parameter is, or back where
/// there is none (RFC 2812 section 4.1).
///
/// # Errors
/// Where memory runs out.
#[tactic(auto, unfolding(crate::specs::Away::away_steps))]
pub fn steps(context: &Context<'_>, params: &[&[u8]]) -> Result<Vec<Act, Global>, AllocError>
    ensures { Yields result (away_steps context.now.me.now (words_now params.now)) }
{
    let text = away_given(params);
    let mut steps = Vec::new(context.alloc);
    put(&mut steps, Act::Answer(away_reply(&text)))?;
    make_away(context.me, text, &mut steps)?;
    Ok(steps)
}

/// The text that is given, cut; none where it is empty.
fn away_given(params: &[&[u8]]) -> Option<AwayText>
    ensures { result ≡ away_given (words_now params.now) }
{
    match params.first() {
        Some(words) => AwayText::read(Words::cut(words).as_bytes()),
        None => None,
    }
}

/// What a user is told, also where it was so already.
fn away_reply(text: &Option<AwayText>) -> Reply
    ensures { result ≡ away_reply text.now }
{
    match text {
        Some(_) => Reply::NowAway,
        None => Reply::UnAway,
    }
}

/// Appends what makes a user away with a text, or back without one, where it is not so already.
fn make_away(
    me: &User,
    text: Option<AwayText>,
    steps: &mut Vec<Act, Global>,
) -> Result<(), AllocError>
    ensures { AddsTo result steps.old steps.new (made_away me.now text) }
{
    if !is_same_text(&me.set.away, &text) {
        let nick = me.nick.copy();
        let change = UserChange::Away(text);
        put(steps, Act::Do(Effect::ChangeUser { nick, change }))?;
    }
    Ok(())
}

/// Whether two texts are the same, or both none.
fn is_same_text(one: &Option<AwayText>, other: &Option<AwayText>) -> bool
    ensures { result ≡ is_same_text one.now other.now }
{
    match (one, other) {
        (None, None) => true,
        (Some(one), Some(other)) => one.as_bytes() == other.as_bytes(),
        _ => false,
    }
}

/// A law: each effect of an AWAY is its user's own.
#[tactic(auto, using(crate::specs::Laws::AwayLaw::away_is_own))]
pub fn is_own()
    ensures { AwayIsOwn }
{}

/// A law: an AWAY leaves its user another than it was, or has no effect.
#[tactic(auto, using(crate::specs::Laws::AwayLaw::away_does_something))]
pub fn does_something()
    ensures { AwayDoesSomething }
{}

/// A law: in a room within limits what an AWAY sets can be sent.
#[tactic(auto, using(crate::specs::Laws::AwayLaw::away_is_sendable))]
pub fn is_sendable()
    ensures { AwayIsSendable }
{}
