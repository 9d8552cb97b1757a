//! Who is kept out of a channel.
ghost use Rattle.std.specs.Prelude.{◌≡◌};
ghost use Rattle.irc_channel_commands.specs.Join.{is_full, kept_out, opens};
ghost use Rattle.std.specs.Option.{option_copied};

use irc_acts::Act;
use irc_acts::standing::is_banned;
use irc_channels::Channel;
use irc_modes::Key;
use irc_numerics::Reply;
use irc_users::User;

/// Why a user is kept out of a channel that it asks for with a key, if it is (RFC 2811 sections
/// 4.2.2, 4.2.9, 4.2.10 and 4.3.1).
pub(crate) fn kept_out(me: &User, given: &[u8], channel: &Channel) -> Option<Act>
    ensures { result ≡ kept_out me.now given.now channel.now }
{
    let modes = &channel.modes;
    let name = channel.name.copy();
    if modes.invite_only && channel.invited.get(me.nick.as_bytes()).is_none() {
        Some(Act::Answer(Reply::InviteOnlyChan { channel: name }))
    } else if is_banned(me, channel) {
        Some(Act::Answer(Reply::BannedFromChan { channel: name }))
    } else if !opens(modes.key.as_ref(), given) {
        Some(Act::Answer(Reply::BadChannelKey { channel: name }))
    } else if is_full(modes.limit, channel) {
        Some(Act::Answer(Reply::ChannelIsFull { channel: name }))
    } else {
        None
    }
}

/// Whether a key opens a channel: where one is set, no other does.
fn opens(key: Option<&Key>, given: &[u8]) -> bool
    ensures { result ≡ opens (option_copied key.entry) given.now }
{
    match key {
        None => true,
        Some(key) => key.as_bytes() == given,
    }
}

/// Whether a channel has as many members as its limit, or more.
fn is_full(limit: Option<u16>, channel: &Channel) -> bool
    ensures { result ≡ is_full limit channel.now }
{
    match limit {
        None => false,
        Some(limit) => usize::from(limit) <= channel.members.len(),
    }
}
