//! Changes of a channel's bans, made where there is room for the bans that they add.
ghost use Rattle.std.specs.Prelude.{◌≡◌, ◌+◌, ◌<◌, ◌≤◌, false, length, filter, position, vec_len};
ghost use Rattle.std.specs.Prelude.{vec_capacity, IsTrue};
ghost use Rattle.std.specs.List.{list_any};
ghost use Rattle.std.specs.Option.{option_copied};
ghost use Rattle.irc_names.specs.Fold.{same};
ghost use Rattle.irc_modes.specs.Bans.{before, IsBanList};
ghost use Rattle.irc_modes.specs.Modes.{adds_ban, ban_mask, mask_in, with_ban, without_ban};
ghost use Rattle.irc_modes.specs.Loops.ManyChanges.{ban_step, bans_after};

use crate::modes::{ModeChange, ModeLetter};
use irc_names::BanMask;
use std::alloc::Global;

/// How many of the changes set a ban that is not there.
pub(crate) fn additions(bans: &[BanMask], changes: &[ModeChange]) -> usize
    ensures { result ≡ length (filter (adds_ban bans.now) changes.now) }
{
    changes
        .iter()
        .filter(|change| adds_ban(bans, change))
        .count()
}

/// Makes the changes that are of bans, one after another. There is room for as many bans as they
/// set that are not there.
pub(crate) fn change_all(bans: &mut Vec<BanMask, Global>, changes: &[ModeChange])
    requires ordered { IsBanList bans.old.items }
    requires room { vec_len bans.old + length (filter (adds_ban bans.old.items) changes.now)
        ≤ vec_capacity bans.old }
    ensures value { bans.new.items ≡ bans_after changes.now bans.old.items }
    ensures ordered { IsBanList bans.new.items }
{
    for change in changes {
        change_one(bans, change);
    }
}

/// Makes a change, if it is of a ban. There is room for a ban that it adds.
fn change_one(bans: &mut Vec<BanMask, Global>, change: &ModeChange)
    requires ordered { IsBanList bans.old.items }
    requires room { IsTrue (adds_ban bans.old.items change.now)
        → vec_len bans.old < vec_capacity bans.old }
    ensures value { bans.new.items ≡ ban_step bans.old.items change.now }
    ensures ordered { IsBanList bans.new.items }
    ensures capacity { vec_capacity bans.old ≤ vec_capacity bans.new }
{
    let Some(named) = mask_of(change) else { return };
    if change.plus {
        set(bans, named);
    } else {
        take(bans, &named);
    }
}

/// Sets a ban in its place. One that is the same under the fold goes: the new spelling is kept, and
/// no room is taken.
fn set(bans: &mut Vec<BanMask, Global>, mask: BanMask)
    requires ordered { IsBanList bans.old.items }
    requires room { list_any (same mask) bans.old.items ≡ false
        → vec_len bans.old < vec_capacity bans.old }
    ensures value { bans.new.items ≡ with_ban mask bans.old.items }
    ensures ordered { IsBanList bans.new.items }
    ensures capacity { vec_capacity bans.old ≤ vec_capacity bans.new }
{
    take(bans, &mask);
    let place = place_of(bans, &mask);
    // There is room, so this cannot fail.
    let _ = bans.insert(place, mask);
}

/// Takes the ban out that is the same under the fold, if there is one.
fn take(bans: &mut Vec<BanMask, Global>, mask: &BanMask)
    requires ordered { IsBanList bans.old.items }
    ensures value { bans.new.items ≡ without_ban mask.now bans.old.items }
    ensures ordered { IsBanList bans.new.items }
    ensures capacity { vec_capacity bans.old ≤ vec_capacity bans.new }
{
    if let Some(place) = position_of(bans, mask) {
        bans.remove(place);
    }
}

/// Whether a change sets a ban that is not there.
fn adds_ban(bans: &[BanMask], change: &ModeChange) -> bool
    ensures { result ≡ adds_ban bans.now change.now }
{
    match mask_of(change) {
        Some(mask) => !has(bans, &mask) && change.plus,
        None => false,
    }
}

/// The mask that a change of a ban names; none where it changes no ban, or its parameter is no
/// mask.
fn mask_of(change: &ModeChange) -> Option<BanMask>
    ensures { result ≡ ban_mask change.now.letter change.now.word }
{
    match change.letter {
        ModeLetter::Ban => mask_in(change.word_bytes()),
        _ => None,
    }
}

fn mask_in(word: Option<&[u8]>) -> Option<BanMask>
    ensures { result ≡ mask_in (option_copied word.entry) }
{
    Some(BanMask::read(word?)?)
}

/// Whether a ban is there that is the same under the fold.
fn has(bans: &[BanMask], mask: &BanMask) -> bool
    ensures { result ≡ list_any (same mask.now) bans.now }
{
    bans.iter().any(|ban| mask == ban)
}

/// Where the ban stands that is the same under the fold.
fn position_of(bans: &[BanMask], mask: &BanMask) -> Option<usize>
    ensures { result ≡ position (same mask.now) bans.now }
{
    bans.iter().position(|ban| mask == ban)
}

/// How many bans stand before a mask.
fn place_of(bans: &[BanMask], mask: &BanMask) -> usize
    ensures value { result ≡ length (filter (λ ban. before ban mask.now) bans.now) }
    ensures within { result ≤ length bans.now }
{
    bans.iter().filter(|ban| (*ban).cmp(mask).is_lt()).count()
}
