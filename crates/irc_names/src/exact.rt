//! Names told apart by their spelling.
ghost use Rattle.std.specs.Prelude.{◌≡◌, ◌++◌, ℕ, List, refl};
ghost use Rattle.std.specs.Ordering.{on, as_partial_cmp};
ghost use Rattle.std.specs.Cmp.{on_equiv, on_total, partial_equiv_from_equiv, po};
ghost use Rattle.std.specs.Hash as fed;
ghost use Rattle.irc_names.specs.Spellings.{exactly_same, exact_cmp, exactly_same-equivalence};
ghost use Rattle.irc_names.specs.Spellings.{exact_cmp-total, exactly_same-ties, bytes_fed};
ghost use Rattle.irc_names.specs.Spellings.{exactly_same-fed};

use crate::{BanMask, ChannelName, Nick, compare};
use std::cmp::Ordering;
use std::hash::{Hash, Hasher};

/// A kind of name that is compared by its fold, and keeps its spelling.
pub trait Folded: Drop {
    /// The bytes as spelled, for clauses.
    ghost spelling: { Self → List ℕ };

    /// The bytes as spelled.
    fn as_bytes(&self) -> &[u8]
        ensures { result.now ≡ spelling self.now };
}

impl Folded for Nick {
    ghost spelling = { λ nick. nick };

    fn as_bytes(&self) -> &[u8] {
        Nick::as_bytes(self)
    }
}

impl Folded for ChannelName {
    ghost spelling = { λ channel. channel };

    fn as_bytes(&self) -> &[u8] {
        ChannelName::as_bytes(self)
    }
}

impl Folded for BanMask {
    ghost spelling = { λ mask. mask };

    fn as_bytes(&self) -> &[u8] {
        BanMask::as_bytes(self)
    }
}

/// A name compared by its fold first and by its bytes after it: two are equal where they are
/// spelled alike, and spellings of one name stand side by side.
#[derive(Clone, Drop)]
pub struct Exact<T>(pub T);

impl<T: Folded> PartialEq for Exact<T> {
    ghost eq = { on (λ exact. T.spelling exact.0) exactly_same };

    ghost laws = { partial_equiv_from_equiv
        (on_equiv (λ exact. T.spelling exact.0) exactly_same-equivalence) };

    fn eq(&self, other: &Self) -> bool {
        self.0.as_bytes() == other.0.as_bytes()
    }
}

impl<T: Folded> Eq for Exact<T> {
    ghost laws = { on_equiv (λ exact. T.spelling exact.0) exactly_same-equivalence };
}

impl<T: Folded> PartialOrd for Exact<T> {
    ghost partial_cmp = { as_partial_cmp (on (λ exact. T.spelling exact.0) exact_cmp) };

    ghost laws = { po (on_total (λ exact. T.spelling exact.0) exact_cmp-total)
        (λ left right. exactly_same-ties (T.spelling left.0) (T.spelling right.0)) };

    fn partial_cmp(&self, other: &Self) -> Option<Ordering> {
        Some(self.cmp(other))
    }
}

impl<T: Folded> Ord for Exact<T> {
    ghost cmp = { on (λ exact. T.spelling exact.0) exact_cmp };

    ghost total = { on_total (λ exact. T.spelling exact.0) exact_cmp-total };

    ghost matches_partial_cmp = { λ _ _. refl };

    ghost matches_eq = { λ left right. exactly_same-ties (T.spelling left.0) (T.spelling right.0) };

    fn cmp(&self, other: &Self) -> Ordering {
        let mine = self.0.as_bytes();
        let theirs = other.0.as_bytes();
        compare(mine, theirs).then(mine.cmp(theirs))
    }
}

impl<T: Folded> Hash for Exact<T> {
    ghost hash_input = { λ exact. bytes_fed (T.spelling exact.0) };

    ghost respects_eq = { λ left right. exactly_same-fed (T.spelling left.0) (T.spelling right.0) };

    fn hash<H: Hasher>(&self, state: &mut H) {
        self.0.as_bytes().hash(state);
    }
}
