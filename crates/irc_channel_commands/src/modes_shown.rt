//! How the modes of a channel are told.
ghost use Rattle.std.specs.Prelude.{◌≡◌, ◌≤◌, ◌<◌, ◌+◌, [], ◌∷◌, ◌++◌, codes, length};
ghost use Rattle.std.specs.Prelude.{if◌then◌else◌};
ghost use Rattle.std.specs.Option.{option_copied, option_map};
ghost use Rattle.irc_acts.specs.Acts.{bytes_kept};
ghost use Rattle.irc_acts.specs.Steps.{AddsTo};
ghost use Rattle.irc_channel_commands.specs.ModesShown.{ban_shown, bans_shown, key_shown};
ghost use Rattle.irc_channel_commands.specs.ModesShown.{letters_set, modes_shown, privacy_letter};

use irc_acts::{Act, put};
use irc_channels::Channel;
use irc_modes::{Modes, Privacy};
use irc_names::{BanMask, Key, copied};
use irc_numerics::limits::MAX_MODE_LETTERS;
use irc_numerics::{ModeLetters, Reply};
use irc_users::User;
use std::alloc::{AllocError, Global};

/// The modes of a channel as a user is told them (RFC 2812 section 3.2.3).
pub(crate) fn modes_shown(me: &User, channel: &Channel) -> Act
    ensures { result ≡ modes_shown me.now channel.now }
{
    Act::Answer(Reply::ChannelModeIs {
        channel: channel.name.copy(),
        modes: letters_set(&channel.modes),
        key: key_told(channel.has_member(&me.nick), channel.modes.key.as_ref()),
        limit: channel.modes.limit,
    })
}

/// The key of a channel, if it has one.
fn key_told(member: bool, key: Option<&Key>) -> Option<Key>
    ensures { result ≡ option_map (key_shown member) (option_copied key.entry) }
{
    match key {
        Some(key) => Some(key_shown(member, key)),
        None => None,
    }
}

/// A key as a user is told it: who is no member sees `*` in its place.
fn key_shown(member: bool, key: &Key) -> Key
    ensures { result ≡ key_shown member key.now }
{
    if member { key.copy() } else { star() }
}

/// What stands in the place of a key.
#[tactic(auto, unfolding(irc_names::specs::Names::is_key))]
fn star() -> Key
    ensures { result ≡ codes "*" }
{
    let Some(star) = Key::read(b"*") else {
        unreachable!();
    };
    star
}

/// `+`, and the letters of the modes that are set.
fn letters_set(modes: &Modes) -> ModeLetters
    ensures { result ≡ bytes_kept (letters_set modes.now) }
{
    let mut letters = copied(b"+");
    add_if(modes.invite_only, b'i', &mut letters);
    add_if(modes.moderated, b'm', &mut letters);
    add_if(modes.no_outside, b'n', &mut letters);
    add_privacy(modes.privacy, &mut letters);
    add_if(modes.topic_locked, b't', &mut letters);
    add_if(modes.key.is_some(), b'k', &mut letters);
    add_if(modes.limit.is_some(), b'l', &mut letters);
    letters
}

/// Appends the letter of a mode, if it is set. There is room for it.
fn add_if(set: bool, letter: u8, letters: &mut ModeLetters)
    requires { length letters.old.items < MAX_MODE_LETTERS }
    ensures value { letters.new.items ≡ letters.old.items ++ (if set then letter ∷ [] else []) }
    ensures one { length letters.new.items ≤ length letters.old.items + 1 }
{
    if set {
        let _ = letters.try_push(letter);
    }
}

/// Appends the letter of the privacy of a channel, which has one or none. There is room for it.
fn add_privacy(privacy: Privacy, letters: &mut ModeLetters)
    requires { length letters.old.items < MAX_MODE_LETTERS }
    ensures value { letters.new.items ≡ letters.old.items ++ privacy_letter privacy }
    ensures one { length letters.new.items ≤ length letters.old.items + 1 }
{
    match privacy {
        Privacy::Public => {}
        Privacy::Private => add_if(true, b'p', letters),
        Privacy::Secret => add_if(true, b's', letters),
    }
}

/// Appends the bans of a channel, in folded order, as they are stored, and the end of their list.
pub(crate) fn put_bans(channel: &Channel, steps: &mut Vec<Act, Global>) -> Result<(), AllocError>
    ensures { AddsTo result steps.old steps.new (bans_shown channel.now) }
{
    for mask in channel.modes.bans.as_slice() {
        put(steps, ban_shown(channel, mask))?;
    }
    let channel = channel.name.copy();
    put(steps, Act::Answer(Reply::EndOfBanList { channel }))
}

/// A ban in the list.
fn ban_shown(channel: &Channel, mask: &BanMask) -> Act
    ensures { result ≡ ban_shown channel.now.name mask.now }
{
    Act::Answer(Reply::BanList {
        channel: channel.name.copy(),
        mask: mask.copy(),
    })
}
