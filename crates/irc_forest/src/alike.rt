//! Whether two channels are alike but for who is in them.
ghost use Rattle.std.specs.Prelude.{◌≡◌};
ghost use Rattle.std.specs.Cmp.Lexicographic.{pointwise};
ghost use Rattle.irc_names.specs.Spellings.{exactly_same};
ghost use Rattle.irc_merge.specs.Agreeing.{are_alike, same_flag, same_key, same_limit, same_modes};
ghost use Rattle.irc_merge.specs.Agreeing.{same_privacy};

use irc_channels::Channel;
use irc_modes::{Key, Modes, Privacy};
use irc_names::BanMask;

/// Whether two channels have one name by bytes, the same modes with key, limit and bans, and one
/// topic.
pub(crate) fn are_alike(one: &Channel, other: &Channel) -> bool
    ensures { result ≡ are_alike one.now other.now }
{
    one.name.as_bytes() == other.name.as_bytes()
        && same_modes(&one.modes, &other.modes)
        && one.topic.as_bytes() == other.topic.as_bytes()
}

/// Whether the modes of two channels are the same; what they are set to is compared by bytes.
fn same_modes(one: &Modes, other: &Modes) -> bool
    ensures { result ≡ same_modes one.now other.now }
{
    same_flag(one.invite_only, other.invite_only)
        && same_flag(one.moderated, other.moderated)
        && same_flag(one.no_outside, other.no_outside)
        && same_flag(one.topic_locked, other.topic_locked)
        && same_privacy(one.privacy, other.privacy)
        && same_key(&one.key, &other.key)
        && same_limit(one.limit, other.limit)
        && same_bans(one.bans.as_slice(), other.bans.as_slice())
}

/// Whether a flag is set on both sides or on none.
fn same_flag(one: bool, other: bool) -> bool
    ensures { result ≡ same_flag one other }
{
    one == other
}

/// Whether two channels are equally private.
fn same_privacy(one: Privacy, other: Privacy) -> bool
    ensures { result ≡ same_privacy one other }
{
    one == other
}

/// Whether there is one key on both sides, or none.
fn same_key(one: &Option<Key>, other: &Option<Key>) -> bool
    ensures { result ≡ same_key one.now other.now }
{
    match (one, other) {
        (Some(one), Some(other)) => one.as_bytes() == other.as_bytes(),
        (None, None) => true,
        _ => false,
    }
}

/// Whether there is one limit on both sides, or none.
fn same_limit(one: Option<u16>, other: Option<u16>) -> bool
    ensures { result ≡ same_limit one other }
{
    one == other
}

/// Whether bans are the same, one by one, as they are spelled.
fn same_bans(one: &[BanMask], other: &[BanMask]) -> bool
    ensures { result ≡ pointwise exactly_same one.now other.now }
{
    let mut mine = one;
    let mut theirs = other;
    while let Some((ban, my_rest)) = mine.split_first() {
        let Some((mask, their_rest)) = theirs.split_first() else {
            return false;
        };
        if ban.as_bytes() != mask.as_bytes() {
            return false;
        }
        mine = my_rest;
        theirs = their_rest;
    }
    theirs.is_empty()
}
