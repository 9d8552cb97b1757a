//! What a name feeds a hasher.
ghost use Rattle.std.specs.Prelude.{◌≡◌, fold};
ghost use Rattle.irc_names.specs.FoldLaws.{folds_fed};

use crate::fold;
use std::hash::Hasher;

/// Feeds the length of a name, and each byte of its fold: names that are the same feed alike.
pub fn hash_folds<H: Hasher>(name: &[u8], state: &mut H)
    ensures { state.new ≡ fold H.write state.old (folds_fed name.now) }
{
    state.write_usize(name.len());
    for byte in name {
        state.write_u8(fold(*byte));
    }
}
