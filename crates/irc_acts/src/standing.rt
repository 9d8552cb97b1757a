//! How a user stands to a channel.
ghost use Rattle.std.specs.Prelude.{◌≡◌};
ghost use Rattle.std.specs.List.{list_any};
ghost use Rattle.irc_names.specs.Fold.{key};
ghost use Rattle.irc_channels.specs.Channels.{has_member};
ghost use Rattle.irc_acts.specs.Standing.{channels_now, is_banned, is_known, is_listed};
ghost use Rattle.irc_acts.specs.Standing.{is_operator, is_seen_from, mark_of, mask_of};
ghost use Rattle.irc_acts.specs.Standing.{visibility_of};

use arrayvec::ArrayVec;
use irc_channels::{Channel, Flags, Stored};
use irc_modes::Privacy;
use irc_names::{MAX_HOST, MAX_NICK, MAX_USER_NAME, Nick};
use irc_numerics::{MemberMark, Visibility};
use irc_tables::Row;
use irc_users::User;

/// The bytes of `nick!user@host` that part its three names.
const MARKS: usize = 2;

/// The longest `nick!user@host`.
const MAX_FULL_NAME: usize = MAX_NICK + MAX_USER_NAME + MAX_HOST + MARKS;

/// What a member is shown as: an operator, else a member with voice, else a member.
pub fn mark_of(flags: Flags) -> MemberMark
    ensures { result ≡ mark_of flags }
{
    if flags.op {
        MemberMark::Operator
    } else if flags.voice {
        MemberMark::Voiced
    } else {
        MemberMark::Plain
    }
}

/// Whether a user is an operator, by its flags, if it is a member.
pub fn is_operator(flags: Option<Flags>) -> bool
    ensures { result ≡ is_operator flags }
{
    match flags {
        Some(flags) => flags.op,
        None => false,
    }
}

/// Who may know of a channel (RFC 2811 section 4.2.6).
pub fn visibility_of(privacy: Privacy) -> Visibility
    ensures { result ≡ visibility_of privacy }
{
    match privacy {
        Privacy::Public => Visibility::Public,
        Privacy::Private => Visibility::Private,
        Privacy::Secret => Visibility::Secret,
    }
}

/// Whether a channel is listed for a user: for its members, and for others where it is neither
/// private nor secret.
pub fn is_listed(user: &User, channel: &Channel) -> bool
    ensures { result ≡ is_listed user.now channel.now }
{
    matches!(channel.modes.privacy, Privacy::Public) || channel.has_member(&user.nick)
}

/// Whether a channel is known to a user: to its members, and to others where it is not secret.
pub fn is_known(user: &User, channel: &Channel) -> bool
    ensures { result ≡ is_known user.now channel.now }
{
    !matches!(channel.modes.privacy, Privacy::Secret) || channel.has_member(&user.nick)
}

/// Whether a user is seen by another, whose own channels are given: itself, a user without mode i,
/// and one that is in one of these channels (RFC 2812 section 3.6.1).
pub fn is_seen(me: &User, own: &[&Row<Stored>], user: &User) -> bool
    ensures { result ≡ is_seen_from (channels_now own.now) me.now user.now }
{
    me.nick == user.nick || !user.invisible || is_in_one(own, user)
}

/// Whether a user is in one of some channels.
fn is_in_one(channels: &[&Row<Stored>], user: &User) -> bool
    ensures { result ≡ list_any (has_member (key user.now.nick)) (channels_now channels.now) }
{
    is_in_row(channels, &user.nick)
}

fn is_in_row(channels: &[&Row<Stored>], nick: &Nick) -> bool
    ensures { result ≡ list_any (λ row. has_member (key nick.now) row.now.value) channels.now }
{
    channels
        .iter()
        .any(|row| row.value.channel().has_member(nick))
}

/// Whether a ban of a channel matches a user.
pub fn is_banned(user: &User, channel: &Channel) -> bool
    ensures { result ≡ is_banned user.now channel.now }
{
    channel.modes.bans.matches_any(mask_of(user).as_slice())
}

/// The text that bans are held against: `nick!user@host`.
fn mask_of(user: &User) -> ArrayVec<u8, MAX_FULL_NAME>
    ensures { result.items ≡ mask_of user.now }
{
    let mut text = ArrayVec::new();
    let _ = text.try_extend_from_slice(user.nick.as_bytes());
    let _ = text.try_extend_from_slice(b"!");
    let _ = text.try_extend_from_slice(user.user.as_bytes());
    let _ = text.try_extend_from_slice(b"@");
    let _ = text.try_extend_from_slice(user.host.as_bytes());
    text
}
