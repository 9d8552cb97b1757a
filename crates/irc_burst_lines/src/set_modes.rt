//! The changes that set what is set of a channel's modes.
ghost use Rattle.std.specs.Prelude.{◌≡◌, ◌∷◌, [], Some, IfOk, OnOk};
ghost use Rattle.std.specs.Option.{option_copied};
ghost use Rattle.irc_modes.specs.ModesSet.{ban_changes, flag_set, key_set, limit_set, privacy_set};
ghost use Rattle.irc_modes.specs.ModesSet.{set, set_changes};
ghost use Rattle.irc_modes.specs.Texts.{IsModeWord};
ghost use Rattle.irc_burst_lines.specs.Loops.Telling.{Grew};

use irc_modes::{Key, ModeChange, ModeLetter, ModeWord, Modes, Privacy};
use irc_names::BanMask;
use itoa::Buffer;
use std::alloc::{AllocError, Global};

/// The changes that set what is set but bans, in the order of the letters.
pub(crate) fn set_changes(
    alloc: Global,
    modes: &Modes,
) -> Result<Vec<ModeChange, Global>, AllocError>
    ensures { IfOk result (λ changes. changes.items ≡ set_changes modes.now) }
{
    let mut changes = Vec::new(alloc);
    push_flag(&mut changes, modes.invite_only, ModeLetter::InviteOnly)?;
    push_flag(&mut changes, modes.moderated, ModeLetter::Moderated)?;
    push_flag(&mut changes, modes.no_outside, ModeLetter::NoOutside)?;
    push_privacy(&mut changes, modes.privacy)?;
    push_flag(&mut changes, modes.topic_locked, ModeLetter::TopicLocked)?;
    push_key(&mut changes, modes.key.as_ref())?;
    push_limit(&mut changes, modes.limit)?;
    Ok(changes)
}

/// The changes that set some bans, in their order.
pub(crate) fn ban_changes(
    alloc: Global,
    bans: &[BanMask],
) -> Result<Vec<ModeChange, Global>, AllocError>
    ensures { IfOk result (λ changes. changes.items ≡ ban_changes bans.now) }
{
    let mut changes = Vec::new(alloc);
    for mask in bans {
        push_worded(&mut changes, ModeLetter::Ban, mask.as_bytes())?;
    }
    Ok(changes)
}

/// Appends the change that sets a mode without a parameter, if it is set.
fn push_flag(
    changes: &mut Vec<ModeChange, Global>,
    on: bool,
    letter: ModeLetter,
) -> Result<(), AllocError>
    ensures { OnOk result (Grew changes.old (flag_set on letter) changes.new) }
{
    if on {
        changes.push(ModeChange {
            plus: true,
            letter,
            word: None,
        })?;
    }
    Ok(())
}

/// Appends the change that sets p or s, if one of them is set.
fn push_privacy(changes: &mut Vec<ModeChange, Global>, privacy: Privacy) -> Result<(), AllocError>
    ensures { OnOk result (Grew changes.old (privacy_set privacy) changes.new) }
{
    match privacy {
        Privacy::Public => Ok(()),
        Privacy::Private => push_flag(changes, true, ModeLetter::Private),
        Privacy::Secret => push_flag(changes, true, ModeLetter::Secret),
    }
}

/// Appends the change that sets a key, if there is one.
fn push_key(changes: &mut Vec<ModeChange, Global>, key: Option<&Key>) -> Result<(), AllocError>
    ensures { OnOk result (Grew changes.old (key_set (option_copied key.entry)) changes.new) }
{
    match key {
        Some(key) => push_worded(changes, ModeLetter::Key, key.as_bytes()),
        None => Ok(()),
    }
}

/// Appends the change that sets a limit, if there is one.
#[tactic(auto, using(crate::proofs::LimitWritten::limit_fits))]
fn push_limit(changes: &mut Vec<ModeChange, Global>, limit: Option<u16>) -> Result<(), AllocError>
    ensures { OnOk result (Grew changes.old (limit_set limit) changes.new) }
{
    match limit {
        Some(limit) => {
            let mut digits = Buffer::new();
            push_worded(changes, ModeLetter::Limit, digits.format(limit).as_bytes())
        }
        None => Ok(()),
    }
}

/// Appends the change that sets a mode with a parameter.
fn push_worded(
    changes: &mut Vec<ModeChange, Global>,
    letter: ModeLetter,
    word: &[u8],
) -> Result<(), AllocError>
    requires { IsModeWord word.now }
    ensures { OnOk result (Grew changes.old (set letter (Some word.now) ∷ []) changes.new) }
{
    let Some(word) = ModeWord::read(word) else {
        unreachable!();
    };
    changes.push(ModeChange {
        plus: true,
        letter,
        word: Some(word),
    })?;
    Ok(())
}
