//! Lines that speak of servers (RFC 2813 section 4.1).
ghost use Rattle.std.specs.Prelude.{◌≡◌, is_none, Ok, Err, Some, if◌then◌else◌};
ghost use Rattle.irc_batch.specs.declared.close_reason.CloseReason.TheVariants.{BadName, BadToken};
ghost use Rattle.irc_batch.specs.declared.close_reason.CloseReason.TheVariants.{Parameters};
ghost use Rattle.irc_batch.specs.declared.close_reason.CloseReason.TheVariants.{WrongDirection};
ghost use Rattle.irc_line.specs.MessageViews.{optional_now};
ghost use Rattle.irc_link_reader.specs.Loops.Readings.{reader};
ghost use Rattle.irc_routes.specs.Info.{is_info};
ghost use Rattle.irc_routes.specs.Known.{is_known};
ghost use Rattle.irc_burst.specs.DeedsMeant.{only_first, pass_line};
ghost use Rattle.irc_burst.specs.Loops.Deeds.{is_next_at, is_one_further, may_be_lost};
ghost use Rattle.irc_burst.specs.Loops.Deeds.{server_judged_at, server_line_at, squit_line_at};
ghost use Rattle.irc_burst.specs.Loops.Deeds.{GivesTold};

use irc_batch::CloseReason;
use irc_link_reader::{Arrival, Deed, Loss, NewServer, expect_from, is_far, server};
use irc_link_words::{
    MAX_NUMBER, Params, not_taken, read_greeting, read_number, read_password, read_server,
    read_words,
};
use irc_routes::Info;

/// What a SERVER tells: a server that came, where the line is from a name. Without one it is the
/// line by which a neighbour names itself, which stands at the beginning of a link alone.
pub(crate) fn server_line(
    at: Arrival<'_>,
    prefix: Option<&[u8]>,
    params: Params<'_>,
) -> Result<Option<Deed>, CloseReason>
    ensures { GivesTold (server_line_at at.entry (optional_now prefix.entry) params.entry) result }
{
    match prefix {
        Some(uplink) => later_server(at, uplink, params),
        None => only_first(read_greeting(params.rest()).is_some()),
    }
}

/// The words of a SERVER.
#[derive(Clone, Copy)]
struct ServerWords<'a> {
    name: &'a [u8],
    distance: &'a [u8],
    token: &'a [u8],
    info: &'a [u8],
}

/// Reads the words of a SERVER from `uplink`, the server to which the new one is linked, and judges
/// them.
fn later_server(
    at: Arrival<'_>,
    uplink: &[u8],
    mut params: Params<'_>,
) -> Result<Option<Deed>, CloseReason>
    ensures { GivesTold (server_line_at at.entry (Some uplink.now) params.entry) result }
{
    let name = params.next()?;
    let distance = params.next()?;
    let token = params.next()?;
    let info = params.next()?;
    params.end()?;
    let words = ServerWords {
        name,
        distance,
        token,
        info,
    };
    server_told(at, uplink, words)
}

/// Judges these words of a SERVER from `uplink`: the server that came, or the first reason against
/// it.
fn server_told(
    at: Arrival<'_>,
    uplink: &[u8],
    words: ServerWords<'_>,
) -> Result<Option<Deed>, CloseReason>
    ensures { GivesTold (server_judged_at at.entry uplink.now words.entry) result }
{
    let distance = read_number(words.distance)?;
    let token = read_number(words.token)?;
    let info = read_info(words.info)?;
    expect_next_distance(at, uplink, distance)?;
    expect_free(at, token)?;
    expect_from(at, uplink)?;
    let uplink = read_server(uplink)?;
    let name = read_server(words.name)?;
    match not_taken(at.routes, words.name) {
        Some(reason) => Err(reason),
        None => Ok(Some(Deed::Server(NewServer {
            uplink,
            name,
            distance,
            token,
            info,
        }))),
    }
}

/// How a server describes itself.
fn read_info(bytes: &[u8]) -> Result<Info, CloseReason>
    ensures { result ≡ (if is_info bytes.now then Ok bytes.now else Err Parameters) }
{
    match Info::read(bytes) {
        Some(info) => Ok(info),
        None => Err(CloseReason::Parameters),
    }
}

/// Refuses a distance that is not one more than that of the server to which the new one is linked.
fn expect_next_distance(at: Arrival<'_>, uplink: &[u8], distance: u32) -> Result<(), CloseReason>
    ensures { result ≡ (if is_next_at at.entry uplink.now distance then Ok tt else Err Parameters) }
{
    if is_one_further(at, uplink, distance) && distance < MAX_NUMBER {
        Ok(())
    } else {
        Err(CloseReason::Parameters)
    }
}

/// Whether a distance is one more than that of a server; one that is not known is not looked at.
fn is_one_further(at: Arrival<'_>, uplink: &[u8], distance: u32) -> bool
    ensures { result ≡ is_one_further at.entry uplink.now distance }
{
    match at.routes.distance(uplink) {
        Some(links) => u64::from(distance) == u64::from(links) + 1,
        None => true,
    }
}

/// Refuses a number that the neighbour has given to a server already.
fn expect_free(at: Arrival<'_>, token: u32) -> Result<(), CloseReason>
    ensures { result ≡ (if is_none ((reader at.entry).server token) then Ok tt else Err BadToken) }
{
    match server(at, token) {
        Some(_) => Err(CloseReason::BadToken),
        None => Ok(()),
    }
}

/// Refuses a PASS, for the link has begun: by its words alone, or by its place.
pub(crate) fn pass_line(
    prefix: Option<&[u8]>,
    params: Params<'_>,
) -> Result<Option<Deed>, CloseReason>
    ensures { GivesTold (pass_line (optional_now prefix.entry) params.entry) result }
{
    match prefix {
        Some(_) => Err(CloseReason::Parameters),
        None => only_first(read_password(params.rest()).is_some()),
    }
}

/// Refuses a line that stands at the beginning of a link alone: by its place where its parameters
/// are such a line's, else by them. It is never read as anything.
fn only_first(are_parameters: bool) -> Result<Option<Deed>, CloseReason>
    ensures { GivesTold (only_first are_parameters) result }
{
    if are_parameters {
        Err(CloseReason::Order)
    } else {
        Err(CloseReason::Parameters)
    }
}

/// Reads a SQUIT from `server`, and judges it: the server that is lost, or the first reason against
/// the line.
pub(crate) fn squit_line(
    at: Arrival<'_>,
    server: &[u8],
    mut params: Params<'_>,
) -> Result<Option<Deed>, CloseReason>
    ensures { GivesTold (squit_line_at at.entry server.now params.entry) result }
{
    let name = params.next()?;
    let text = params.next()?;
    params.end()?;
    let text = read_words(text)?;
    expect_from(at, server)?;
    expect_lost(at, name)?;
    let server = read_server(server)?;
    let name = read_server(name)?;
    expect_known(at, name.as_bytes())?;
    Ok(Some(Deed::Lost(Loss { server, name, text })))
}

/// Refuses a server that is known and not behind the link.
fn expect_lost(at: Arrival<'_>, name: &[u8]) -> Result<(), CloseReason>
    ensures { result ≡ (if may_be_lost at.entry name.now then Ok tt else Err WrongDirection) }
{
    if !at.routes.is_known(name) || is_far(at, name) {
        Ok(())
    } else {
        Err(CloseReason::WrongDirection)
    }
}

/// Refuses a server that is not known.
fn expect_known(at: Arrival<'_>, name: &[u8]) -> Result<(), CloseReason>
    ensures { result ≡ (if is_known at.entry.routes.now name.now then Ok tt else Err BadName) }
{
    if at.routes.is_known(name) {
        Ok(())
    } else {
        Err(CloseReason::BadName)
    }
}
