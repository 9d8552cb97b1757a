//! The case fold of names.
ghost use Rattle.std.specs.Prelude.{◌≡◌};
ghost use Rattle.std.specs.Ordering.{nat_cmp};
ghost use Rattle.irc_names.specs.Fold.{fold, same, name_cmp};

use std::cmp::Ordering;

/// The lower case of a byte of a name (RFC 2812, section 2.2): that of a letter, and for `[`, `]`,
/// `\` and `~` the bytes `{`, `}`, `|` and `^`.
#[tactic(auto, using(crate::specs::Lemmas::FoldsByRanges::folds))]
pub fn fold(byte: u8) -> u8
    ensures { result ≡ fold byte }
{
    match byte {
        b'A'..=b'Z' => byte - b'A' + b'a',
        b'[' => b'{',
        b']' => b'}',
        b'\\' => b'|',
        b'~' => b'^',
        other => other,
    }
}

/// The order of two bytes: that of their folds. Where names are looked for most bytes are the same
/// as they stand.
fn compare_bytes(first: u8, other: u8) -> Ordering
    ensures { result ≡ nat_cmp (fold first) (fold other) }
{
    if first == other {
        Ordering::Equal
    } else {
        fold(first).cmp(&fold(other))
    }
}

/// The order of two names: that of their folds, byte by byte.
pub fn compare(left: &[u8], right: &[u8]) -> Ordering
    ensures { result ≡ name_cmp left.now right.now }
{
    let mut mine = left;
    let mut theirs = right;
    while let Some((first, my_rest)) = mine.split_first() {
        let Some((other, their_rest)) = theirs.split_first() else {
            return Ordering::Greater;
        };
        match compare_bytes(*first, *other) {
            Ordering::Equal => {}
            unequal => return unequal,
        }
        mine = my_rest;
        theirs = their_rest;
    }
    if theirs.is_empty() {
        Ordering::Equal
    } else {
        Ordering::Less
    }
}

/// Whether two names are the same: their folds are equal.
pub fn same(left: &[u8], right: &[u8]) -> bool
    ensures { result ≡ same left.now right.now }
{
    left.len() == right.len() && compare(left, right).is_eq()
}
