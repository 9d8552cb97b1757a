//! A channel's bans.
ghost use Rattle.std.specs.Prelude.{◌≡◌, [], false, length, find, IfOk, IsOk, OnOk, OnErr};
ghost use Rattle.std.specs.List.{list_any};
ghost use Rattle.std.specs.Option.{option_copied};
ghost use Rattle.irc_names.specs.Fold.{same};
ghost use Rattle.irc_modes.specs.Bans.{IsBanList, some_matches};
ghost use Rattle.irc_modes.specs.Modes.{adds_ban, is_nil};
ghost use Rattle.irc_modes.specs.Loops.ManyChanges.{bans_after};

use crate::ban_changing::{additions, change_all};
use crate::modes::ModeChange;
use irc_names::{BanMask, mask_matches, same};
use std::alloc::{AllocError, Global};
use std::marker::Model;

/// The masks of a channel's bans, in folded order, no two of them alike under the fold.
#[derive(Drop)]
pub struct BanList {
    masks: Vec<BanMask, Global>,
}

/// In a clause it is the list of its masks.
impl Model for BanList {
    ghost use Rattle.std.specs.Prelude.{ℕ, List};
    ghost use Rattle.irc_modes.specs.Bans.{IsBanList};

    ghost Value = { List (List ℕ) };

    ghost view = { λ bans. bans.masks.items };

    ghost invariant = { λ bans. IsBanList bans.masks.items };
}

impl BanList {
    /// No bans.
    pub fn new(alloc: Global) -> Self
        ensures { result ≡ [] }
    {
        BanList {
            masks: Vec::new(alloc),
        }
    }

    /// How many bans there are.
    pub fn len(&self) -> usize
        ensures { result ≡ length self.now }
    {
        self.masks.len()
    }

    /// Whether there is none.
    pub fn is_empty(&self) -> bool
        ensures { result ≡ is_nil self.now }
    {
        self.masks.is_empty()
    }

    /// The masks, in folded order.
    pub fn as_slice(&self) -> &[BanMask]
        ensures value { result.now ≡ self.now }
        ensures ordered { IsBanList self.now }
    {
        self.masks.as_slice()
    }

    /// The same bans once more.
    ///
    /// # Errors
    /// Where memory runs out.
    pub fn copy(&self) -> Result<Self, AllocError>
        ensures { IfOk result (λ copy. copy ≡ self.now) }
    {
        Ok(BanList {
            masks: self.masks.clone()?,
        })
    }

    /// The ban that is the same under the fold, as it is spelled here.
    pub fn find(&self, mask: &BanMask) -> Option<&BanMask>
        ensures { option_copied result ≡ find (same mask.now) self.now }
    {
        self.masks.iter().find(|ban| mask == *ban)
    }

    /// The ban that is the same as these bytes under the fold, as it is spelled here.
    pub(crate) fn spelled(&self, bytes: &[u8]) -> Option<&BanMask>
        ensures { option_copied result ≡ find (same bytes.now) self.now }
    {
        self.masks.iter().find(|ban| same(bytes, ban.as_bytes()))
    }

    /// What the list takes its memory from.
    pub(crate) fn allocator(&self) -> Global {
        *self.masks.allocator()
    }

    /// Whether some ban matches a text, as `nick!user@host`.
    pub fn matches_any(&self, text: &[u8]) -> bool
        ensures { result ≡ some_matches self.now text.now }
    {
        self.masks
            .iter()
            .any(|ban| mask_matches(ban.as_bytes(), text))
    }

    /// Makes the changes that are of bans, one after another; however many bans there are, a ban is
    /// added. Room for those that are added is made before the first change, so where there is no
    /// memory nothing has changed.
    ///
    /// # Errors
    /// Where memory runs out; nothing has changed then.
    pub fn change(&mut self, changes: &[ModeChange]) -> Result<(), AllocError>
        ensures ok { OnOk result (self.new ≡ bans_after changes.now self.old) }
        ensures refused { OnErr result (self.new ≡ self.old) }
        ensures none_added { list_any (adds_ban self.old) changes.now ≡ false → IsOk result }
    {
        self.masks.reserve(additions(&self.masks, changes))?;
        change_all(&mut self.masks, changes);
        Ok(())
    }
}
