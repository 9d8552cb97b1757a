//! The changes of a channel's modes that a command makes, and what they leave of the channel, which
//! is neither changed nor copied.
ghost use Rattle.std.specs.Prelude.{◌≡◌, ◌<◌, ◌-◌, ◌^◌, [], ◌∷◌, find, fold, length, OnOk};
ghost use Rattle.irc_names.specs.Fold.{same};
ghost use Rattle.irc_acts.specs.Steps.{AddsTo};
ghost use Rattle.irc_modes.specs.Bans.{IsBanList};
ghost use Rattle.irc_modes.specs.Modes.{ban_mask, mask_in};
ghost use Rattle.std.specs.Option.{option_copied};
ghost use Rattle.irc_modes.specs.Loops.ManyChanges.{setting_step};
ghost use Rattle.irc_channel_commands.specs.Loops.KeptChanges.{
  ban_by,
  ban_by_all,
  count_by,
  flags_by,
  flags_by_all,
  op_set,
  voice_set,
  without_bans,
  AreSetBy,
};

use irc_channels::{Channel, Flags};
use irc_modes::{BanList, ModeChange, ModeLetter, Modes};
use irc_names::{BanMask, same};
use std::alloc::{AllocError, Global};
use std::slice;

/// The changes that are made so far.
#[derive(Drop)]
pub struct KeptChanges {
    /// The changes, in order.
    pub changes: Vec<ModeChange, Global>,
    /// The modes of the channel behind them, without its bans.
    pub settings: Modes,
}

impl KeptChanges {
    /// No changes of a channel.
    pub fn none(alloc: Global, channel: &Channel) -> Self
        ensures changes { result.changes.items ≡ [] }
        ensures settings { result.settings ≡ without_bans channel.now.modes }
    {
        let modes = &channel.modes;
        let key = match &modes.key {
            Some(key) => Some(key.copy()),
            None => None,
        };
        KeptChanges {
            changes: Vec::new(alloc),
            settings: Modes {
                invite_only: modes.invite_only,
                moderated: modes.moderated,
                no_outside: modes.no_outside,
                topic_locked: modes.topic_locked,
                privacy: modes.privacy,
                key,
                limit: modes.limit,
                bans: BanList::new(alloc),
            },
        }
    }

    /// Adds a change.
    ///
    /// # Errors
    /// Where memory runs out.
    pub fn keep(&mut self, change: ModeChange) -> Result<(), AllocError>
        ensures changes { AddsTo result self.old.changes self.new.changes (change ∷ []) }
        ensures settings { AreSetBy (change ∷ []) self.old self.new result }
    {
        set(&mut self.settings, &change)?;
        push(&mut self.changes, change)
    }
}

fn push(changes: &mut Vec<ModeChange, Global>, change: ModeChange) -> Result<(), AllocError>
    ensures { AddsTo result changes.old changes.new (change ∷ []) }
{
    changes.push(change)?;
    Ok(())
}

/// Makes a change, if it is not of a ban.
fn set(settings: &mut Modes, change: &ModeChange) -> Result<(), AllocError>
    ensures { OnOk result (settings.new ≡ setting_step settings.old change.now) }
{
    match change.letter {
        ModeLetter::Ban => Ok(()),
        _ => settings.change(slice::from_ref(change)),
    }
}

/// The bans of a channel stand in folded order.
pub fn know_bans_rise(channel: &Channel)
    ensures { IsBanList channel.now.modes.bans }
{
    channel.modes.bans.as_slice();
}

/// The flags of the user of a nickname in a channel behind some changes, if it is a member.
pub(crate) fn flags(channel: &Channel, changes: &[ModeChange], nick: &[u8]) -> Option<Flags>
    ensures { result ≡ flags_by_all channel.now changes.now nick.now }
{
    let mut flags = channel.members.get(nick).copied();
    for change in changes {
        flags = flags_by(change, nick, flags);
    }
    flags
}

/// The flags behind one change.
fn flags_by(change: &ModeChange, nick: &[u8], before: Option<Flags>) -> Option<Flags>
    ensures { result ≡ flags_by nick.now before change.now }
{
    let Some(word) = change.word_bytes() else {
        return before;
    };
    let flags = before?;
    match change.letter {
        ModeLetter::Operator if same(word, nick) => Some(op_set(change.plus, flags)),
        ModeLetter::Voice if same(word, nick) => Some(voice_set(change.plus, flags)),
        _ => before,
    }
}

fn op_set(plus: bool, flags: Flags) -> Flags
    ensures { result ≡ op_set plus flags }
{
    Flags {
        op: plus,
        voice: flags.voice,
    }
}

fn voice_set(plus: bool, flags: Flags) -> Flags
    ensures { result ≡ voice_set plus flags }
{
    Flags {
        op: flags.op,
        voice: plus,
    }
}

/// The ban of a channel behind some changes that is the same as a mask, if one is there.
pub(crate) fn ban(channel: &Channel, changes: &[ModeChange], mask: &BanMask) -> Option<BanMask>
    ensures { result ≡ ban_by_all channel.now changes.now mask.now }
{
    let mut ban = found(&channel.modes.bans, mask);
    for change in changes {
        ban = ban_by(change, mask, ban);
    }
    ban
}

fn found(bans: &BanList, mask: &BanMask) -> Option<BanMask>
    ensures { result ≡ find (same mask.now) bans.now }
{
    match bans.find(mask) {
        Some(ban) => Some(ban.copy()),
        None => None,
    }
}

/// The ban behind one change.
fn ban_by(change: &ModeChange, mask: &BanMask, before: Option<BanMask>) -> Option<BanMask>
    ensures { result ≡ ban_by mask.now before change.now }
{
    let Some(word) = mask_of(change) else {
        return before;
    };
    if !same(word.as_bytes(), mask.as_bytes()) {
        return before;
    }
    if change.plus { Some(word) } else { None }
}

/// The mask that a change of a ban names; none where it changes no ban.
fn mask_of(change: &ModeChange) -> Option<BanMask>
    ensures { result ≡ ban_mask change.now.letter change.now.word }
{
    match change.letter {
        ModeLetter::Ban => mask_in(change.word_bytes()),
        _ => None,
    }
}

/// The mask that a word is, if it is one.
pub(crate) fn mask_in(word: Option<&[u8]>) -> Option<BanMask>
    ensures { result ≡ mask_in (option_copied word.entry) }
{
    Some(BanMask::read(word?)?)
}

/// How many bans a channel has behind some changes, of which each that is of a ban adds one or
/// takes one out.
pub(crate) fn count(channel: &Channel, changes: &[ModeChange]) -> usize
    ensures { result ≡ fold count_by (length channel.now.modes.bans) changes.now }
{
    let mut count = channel.modes.bans.as_slice().len();
    for change in changes {
        count = count_by(change, count);
    }
    count
}

/// How many bans there are behind one change.
fn count_by(change: &ModeChange, before: usize) -> usize
    requires { before < 2 ^ 64 - 1 }
    ensures { result ≡ count_by before change.now }
{
    match change.letter {
        ModeLetter::Ban if change.plus => before + 1,
        ModeLetter::Ban => before.saturating_sub(1),
        _ => before,
    }
}
