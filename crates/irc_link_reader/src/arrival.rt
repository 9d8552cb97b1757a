//! What is asked where a line is read that came by a link.
ghost use Rattle.std.specs.Prelude.{◌≡◌, Ok, Err, is_some, true, if◌then◌else◌, option_to_list};
ghost use Rattle.std.specs.List.{list_any};
ghost use Rattle.std.specs.Option.{option_copied, option_map_or};
ghost use Rattle.irc_batch.specs.declared.close_reason.CloseReason.TheVariants.{WrongDirection};
ghost use Rattle.irc_names.specs.Fold.{key};
ghost use Rattle.irc_room.specs.Readers.{channel_at};
ghost use Rattle.irc_room.specs.Effects.{needs_users};
ghost use Rattle.irc_link_reader.specs.Loops.Readings.{are_there, has_home, is_far_user};
ghost use Rattle.irc_link_reader.specs.Loops.Readings.{is_member_far, reader};
ghost use Rattle.irc_link_reader.specs.Means.{if_there, is_distance_of};
ghost use Rattle.irc_link_reader.specs.Reader.{may_come};

use irc_batch::CloseReason;
use irc_channels::Flags;
use irc_names::{Nick, ServerName, is_nick, is_server};
use irc_room::{Effect, Room};
use irc_routes::Routes;
use irc_tables::Row;

/// Where a line came, and by which link.
#[derive(Clone, Copy)]
pub struct Arrival<'a> {
    /// The room.
    pub room: &'a Room,
    /// The servers that are known.
    pub routes: &'a Routes,
    /// The link.
    pub link: u64,
}

/// The server that the user of a nickname is connected to.
fn home<'a>(at: Arrival<'a>, nick: &[u8]) -> Option<&'a ServerName>
    ensures { option_copied result ≡ (reader at.entry).home nick.now }
{
    match at.room.user(nick) {
        Some(user) => Some(&user.home),
        None => None,
    }
}

/// Whether the user of a nickname is there.
fn is_known(at: Arrival<'_>, nick: &[u8]) -> bool
    ensures { result ≡ has_home at.entry nick.now }
{
    home(at, nick).is_some()
}

/// Whether a server is behind the link.
pub fn is_far(at: Arrival<'_>, name: &[u8]) -> bool
    ensures { result ≡ (reader at.entry).is_far name.now }
{
    match at.routes.next_hop(name) {
        Some(link) => link == at.link,
        None => false,
    }
}

/// Whether a line from this name may come by the link.
fn may_come(at: Arrival<'_>, name: &[u8]) -> bool
    ensures { result ≡ may_come (reader at.entry) name.now }
{
    if is_server(name) {
        is_far(at, name)
    } else if is_nick(name) {
        match home(at, name) {
            Some(home) => is_far(at, home.as_bytes()),
            None => true,
        }
    } else {
        true
    }
}

/// Refuses a line from a name that may not come by the link.
///
/// # Errors
/// [`CloseReason::WrongDirection`] where the name is that of a server that is not behind the link,
/// or of a user that is at home on one.
pub fn expect_from(at: Arrival<'_>, name: &[u8]) -> Result<(), CloseReason>
    ensures { result ≡ (if may_come (reader at.entry) name.now then Ok tt else Err WrongDirection) }
{
    if may_come(at, name) {
        Ok(())
    } else {
        Err(CloseReason::WrongDirection)
    }
}

/// The server that a number of the neighbour stands for.
pub fn server<'a>(at: Arrival<'a>, number: u32) -> Option<&'a ServerName>
    ensures { option_copied result ≡ (reader at.entry).server number }
{
    at.routes.token_in(at.link, number)
}

/// Whether this is the distance of a server; one that is not known is not looked at.
pub(crate) fn is_distance_of(at: Arrival<'_>, home: Option<&ServerName>, number: u32) -> bool
    ensures { result ≡ is_distance_of (reader at.entry) (option_copied home.entry) number }
{
    match home {
        Some(home) => match at.routes.distance(home.as_bytes()) {
            Some(distance) => distance == number,
            None => true,
        },
        None => true,
    }
}

/// The effect, where all users are there that it names.
pub(crate) fn if_there(at: Arrival<'_>, effect: Effect) -> Option<Effect>
    ensures { option_to_list result ≡ if_there (reader at.entry) effect }
{
    if are_there(at, &effect) {
        Some(effect)
    } else {
        None
    }
}

/// Whether all users are there that an effect names.
fn are_there(at: Arrival<'_>, effect: &Effect) -> bool
    ensures { result ≡ are_there at.entry (needs_users effect.now) }
{
    let [doer, other] = effect.users();
    is_there(at, doer) && is_there(at, other)
}

/// Whether the user is there, if one is named.
fn is_there(at: Arrival<'_>, nick: Option<&Nick>) -> bool
    ensures { result ≡ option_map_or (has_home at.entry) (option_copied nick.entry) true }
{
    match nick {
        Some(nick) => is_known(at, nick.as_bytes()),
        None => true,
    }
}

/// Whether a channel is there, and has a member behind the link.
pub(crate) fn has_far(at: Arrival<'_>, name: &[u8]) -> bool
    ensures { result ≡ (reader at.entry).has_far name.now }
{
    has_channel(at, name) && is_any_far(at, at.room.members_of(name))
}

fn has_channel(at: Arrival<'_>, name: &[u8]) -> bool
    ensures { result ≡ is_some (channel_at at.entry.room.now.room (key name.now)) }
{
    at.room.channel(name).is_some()
}

/// Whether some of these members are behind the link.
fn is_any_far(at: Arrival<'_>, members: &[Row<Flags>]) -> bool
    ensures { result ≡ list_any (is_member_far (reader at.entry)) members.now }
{
    members
        .iter()
        .any(|member| is_member_far(at, member.name.as_slice()))
}

/// Whether the user under a fold is behind the link.
fn is_member_far(at: Arrival<'_>, fold: &[u8]) -> bool
    ensures { result ≡ is_far_user (reader at.entry) fold.now }
{
    match home(at, fold) {
        Some(home) => is_far(at, home.as_bytes()),
        None => false,
    }
}
