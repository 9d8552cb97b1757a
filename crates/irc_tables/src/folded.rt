//! Names, told from one another by their folds alone.
ghost use Rattle.std.specs.Prelude.{◌≡◌, ◌≤◌, Some, refl, length, nat_eq};
ghost use Rattle.std.specs.Cmp.{partial_equiv_from_equiv};
ghost use Rattle.std.specs.Cmp.Lexicographic.{pointwise, slice_cmp, nat_list_eq_equiv};
ghost use Rattle.std.specs.Cmp.Lexicographic.{nat_list_cmp_total, texts_po, texts_ties};
ghost use Rattle.std.specs.Ordering.{nat_cmp};
ghost use Rattle.irc_names.specs.Fold.{key};

use arrayvec::ArrayVec;
use irc_names::{MAX_CHANNEL, compare, copied, same};
use std::cmp::Ordering;
use std::marker::Model;

/// A name that is no longer than the longest of a channel, told from others by its fold alone.
#[derive(Drop)]
pub struct Folded {
    name: ArrayVec<u8, MAX_CHANNEL>,
}

/// In a clause it is the fold.
impl Model for Folded {
    ghost use Rattle.std.specs.Prelude.{ℕ, List};
    ghost use Rattle.irc_names.specs.Fold.{key};
    ghost use Rattle.irc_tables.specs.FoldedRows.{coded_name};

    ghost Value = { List ℕ };

    ghost coded = { coded_name };

    ghost view = { λ folded. key folded.name.items };
}

impl Folded {
    /// That of a name.
    pub(crate) fn of(name: &[u8]) -> Self
        requires { length name.now ≤ MAX_CHANNEL }
        ensures { result ≡ key name.now }
    {
        Folded { name: copied(name) }
    }
}

impl PartialEq for Folded {
    ghost eq = { λ one other. pointwise nat_eq one other };

    ghost laws = { partial_equiv_from_equiv nat_list_eq_equiv };

    fn eq(&self, other: &Self) -> bool {
        same(&self.name, &other.name)
    }
}

impl Eq for Folded {
    ghost laws = { nat_list_eq_equiv };
}

impl PartialOrd for Folded {
    ghost partial_cmp = { λ one other. Some (slice_cmp nat_cmp one other) };

    ghost laws = { texts_po };

    fn partial_cmp(&self, other: &Self) -> Option<Ordering> {
        Some(self.cmp(other))
    }
}

impl Ord for Folded {
    ghost cmp = { λ one other. slice_cmp nat_cmp one other };

    ghost total = { nat_list_cmp_total };

    ghost matches_partial_cmp = { λ one other. refl };

    ghost matches_eq = { λ one other. texts_ties one other };

    fn cmp(&self, other: &Self) -> Ordering {
        compare(&self.name, &other.name)
    }
}
