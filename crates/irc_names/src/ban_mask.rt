//! Masks of bans.
ghost use Rattle.std.specs.Prelude.{◌≡◌, ◌≤◌, length, ⊤};
ghost use Rattle.std.specs.Option.{SomeIff};
ghost use Rattle.irc_names.specs.Names.{IsBanMask};

use crate::name_bytes::NameBytes;
use crate::{MAX_BAN_MASK, is_ban_mask};
use std::alloc::AllocError;
use std::marker::Model;

/// The mask of a ban: at most [`MAX_BAN_MASK`] bytes that [`is_ban_mask`] takes, as spelled. Two
/// are equal where their folds are, and stand in the order of their folds.
#[derive(Drop, Eq, Hash, Ord, PartialEq, PartialOrd)]
pub struct BanMask(NameBytes<MAX_BAN_MASK>);

/// In a clause it is the list of its bytes, of which its rule holds always.
impl Model for BanMask {
    ghost use Rattle.std.specs.Prelude.{ℕ, List};
    ghost use Rattle.irc_names.specs.Names.{IsBanMask};

    ghost Value = { List ℕ };

    ghost view = { λ mask. mask.0 };

    ghost invariant = { λ mask. IsBanMask mask.0 };

    ghost inverse = { λ bytes. record { 0 = bytes } };
}

impl BanMask {
    /// The mask that these bytes are, where [`is_ban_mask`] takes them.
    #[tactic(auto, using(crate::specs::Lemmas::RuleFacts::lengths))]
    pub fn read(bytes: &[u8]) -> Option<Self>
        ensures { SomeIff result (IsBanMask bytes.now) bytes.now }
    {
        if is_ban_mask(bytes) {
            Some(BanMask(NameBytes::of(bytes)))
        } else {
            None
        }
    }

    /// The bytes of the mask.
    pub fn as_bytes(&self) -> &[u8]
        ensures value { result.now ≡ self.now }
        ensures rule { IsBanMask self.now }
        ensures fits { length result.now ≤ MAX_BAN_MASK }
    {
        self.0.as_bytes()
    }

    /// The same mask once more. It takes no memory and cannot fail.
    pub fn copy(&self) -> Self
        ensures { result ≡ self.now }
    {
        BanMask(NameBytes::of(self.as_bytes()))
    }
}

impl Clone for BanMask {
    ghost is_clone = { λ mask clone. clone ≡ mask };

    ghost is_infallible = { λ _. ⊤ };

    fn clone(&self) -> Result<Self, AllocError> {
        Ok(self.copy())
    }
}
