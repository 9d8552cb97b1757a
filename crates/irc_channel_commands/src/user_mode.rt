//! MODE of a user.
ghost use Rattle.std.specs.Prelude.{◌≡◌, true, [], ◌∷◌};
ghost use Rattle.std.specs.List.{list_any};
ghost use Rattle.irc_line.specs.PartViews.{words_now};
ghost use Rattle.irc_modes.specs.ModeWords.{is_sign};
ghost use Rattle.irc_acts.specs.Steps.{AddsTo, Yields};
ghost use Rattle.irc_channel_commands.specs.UserMode.{
  invisible_after,
  invisible_by,
  is_unknown_flag,
  made_invisible,
  own_mode,
  sign_after,
  unknown_told,
  user_mode,
};

use irc_acts::{Act, Context, only, put};
use irc_names::same;
use irc_numerics::Reply;
use irc_room::Effect;
use irc_users::{User, UserChange};
use std::alloc::{AllocError, Global};

/// What a MODE of a nickname does: a user sees and changes its own mode alone (RFC 2812 section
/// 3.1.5).
#[tactic(auto, unfolding(crate::specs::UserMode::user_mode))]
pub(crate) fn steps(
    context: &Context<'_>,
    target: &[u8],
    more: &[&[u8]],
) -> Result<Vec<Act, Global>, AllocError>
    ensures { Yields result (user_mode context.now.me.now target.now (words_now more.now)) }
{
    let me = context.me;
    if !same(target, me.nick.as_bytes()) {
        return only(context.alloc, Act::Answer(Reply::UsersDontMatch));
    }
    match more.first() {
        Some(letters) => change(context, letters),
        None => {
            let invisible = me.invisible;
            only(context.alloc, Act::Answer(Reply::UserModeIs { invisible }))
        }
    }
}

/// What letters do to a user's own mode.
fn change(context: &Context<'_>, letters: &[u8]) -> Result<Vec<Act, Global>, AllocError>
    ensures { Yields result (own_mode context.now.me.now (letters.now ∷ [])) }
{
    let mut steps = Vec::new(context.alloc);
    tell_unknown(letters, &mut steps)?;
    let invisible = invisible_after(context.me.invisible, letters);
    make_invisible(context.me, invisible, &mut steps)?;
    Ok(steps)
}

/// Appends one reply for all bytes that are no mode, if there are any.
fn tell_unknown(letters: &[u8], steps: &mut Vec<Act, Global>) -> Result<(), AllocError>
    ensures { AddsTo result steps.old steps.new (unknown_told letters.now) }
{
    if has_unknown_flag(letters) {
        put(steps, Act::Answer(Reply::UModeUnknownFlag))?;
    }
    Ok(())
}

fn has_unknown_flag(letters: &[u8]) -> bool
    ensures { result ≡ list_any is_unknown_flag letters.now }
{
    letters.iter().any(|byte| is_unknown_flag(*byte))
}

/// Whether a byte is neither a sign nor a mode.
fn is_unknown_flag(byte: u8) -> bool
    ensures { result ≡ is_unknown_flag byte }
{
    !is_sign(byte) && byte != b'i'
}

fn is_sign(byte: u8) -> bool
    ensures { result ≡ is_sign byte }
{
    byte == b'+' || byte == b'-'
}

/// Whether mode i is set once the letters were read; the first sign is `+`.
fn invisible_after(before: bool, letters: &[u8]) -> bool
    ensures { result ≡ invisible_after true before letters.now }
{
    let mut plus = true;
    let mut invisible = before;
    for byte in letters {
        invisible = invisible_by(plus, invisible, *byte);
        plus = sign_after(plus, *byte);
    }
    invisible
}

/// The sign that holds behind a byte.
fn sign_after(plus: bool, byte: u8) -> bool
    ensures { result ≡ sign_after plus byte }
{
    if is_sign(byte) { byte == b'+' } else { plus }
}

/// Whether mode i is set behind a byte, by the sign that holds there.
fn invisible_by(plus: bool, before: bool, byte: u8) -> bool
    ensures { result ≡ invisible_by plus before byte }
{
    if byte == b'i' { plus } else { before }
}

/// Appends what makes a user invisible, or visible, where it is not so already.
fn make_invisible(
    me: &User,
    invisible: bool,
    steps: &mut Vec<Act, Global>,
) -> Result<(), AllocError>
    ensures { AddsTo result steps.old steps.new (made_invisible me.now invisible) }
{
    if me.invisible != invisible {
        let nick = me.nick.copy();
        let change = UserChange::Invisible(invisible);
        put(steps, Act::Do(Effect::ChangeUser { nick, change }))?;
    }
    Ok(())
}
