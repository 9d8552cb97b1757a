//! Bytes that are compared by their fold.
ghost use Rattle.std.specs.Prelude.{◌≡◌, ◌≤◌, length, refl};
ghost use Rattle.std.specs.Ordering.{as_partial_cmp};
ghost use Rattle.std.specs.Cmp.{partial_equiv_from_equiv, po};
ghost use Rattle.irc_names.specs.Fold.{same, name_cmp};
ghost use Rattle.irc_names.specs.FoldLaws.{same-equivalence, name_cmp-total, same-ties, folds_fed};
ghost use Rattle.irc_names.specs.FoldLaws.{same-fed};

use crate::{compare, copied, hash_folds, same};
use arrayvec::ArrayVec;
use std::cmp::Ordering;
use std::hash::{Hash, Hasher};
use std::marker::Model;

/// At most `N` bytes, as spelled. Two are equal where their folds are, and stand in the order of
/// their folds.
#[derive(Drop)]
pub struct NameBytes<const N: usize>(ArrayVec<u8, N>);

/// In a clause it is the list of its bytes.
impl<const N: usize> Model for NameBytes<N> {
    ghost use Rattle.std.specs.Prelude.{ℕ, List};

    ghost Value = { List ℕ };

    ghost view = { λ bytes. bytes.0.items };

    ghost inverse = { λ bytes. record { 0 = record { items = bytes } } };
}

impl<const N: usize> NameBytes<N> {
    /// Bytes that fit, as spelled.
    pub fn of(bytes: &[u8]) -> Self
        requires { length bytes.now ≤ N }
        ensures { result ≡ bytes.now }
    {
        NameBytes(copied(bytes))
    }

    /// The bytes, as spelled.
    pub fn as_bytes(&self) -> &[u8]
        ensures value { result.now ≡ self.now }
        ensures fits { length result.now ≤ N }
    {
        self.0.as_slice()
    }
}

impl<const N: usize> PartialEq for NameBytes<N> {
    ghost eq = { same };

    ghost laws = { partial_equiv_from_equiv same-equivalence };

    fn eq(&self, other: &Self) -> bool {
        same(self.as_bytes(), other.as_bytes())
    }
}

impl<const N: usize> Eq for NameBytes<N> {
    ghost laws = { same-equivalence };
}

impl<const N: usize> PartialOrd for NameBytes<N> {
    ghost partial_cmp = { as_partial_cmp name_cmp };

    ghost laws = { po name_cmp-total same-ties };

    fn partial_cmp(&self, other: &Self) -> Option<Ordering> {
        Some(self.cmp(other))
    }
}

impl<const N: usize> Ord for NameBytes<N> {
    ghost cmp = { name_cmp };

    ghost total = { name_cmp-total };

    ghost matches_partial_cmp = { λ _ _. refl };

    ghost matches_eq = { same-ties };

    fn cmp(&self, other: &Self) -> Ordering {
        compare(self.as_bytes(), other.as_bytes())
    }
}

impl<const N: usize> Hash for NameBytes<N> {
    ghost hash_input = { folds_fed };

    ghost respects_eq = { same-fed };

    fn hash<H: Hasher>(&self, state: &mut H) {
        hash_folds(self.as_bytes(), state);
    }
}
