//! KILL: a nickname that two users have (RFC 2812 section 3.7.1).
ghost use Rattle.std.specs.Prelude.{◌≡◌, Ok, Err, codes, if◌then◌else◌};
ghost use Rattle.std.specs.Str.{bytes_eq};
ghost use Rattle.irc_batch.specs.declared.close_reason.CloseReason.TheVariants.{Parameters};
ghost use Rattle.irc_burst.specs.Loops.Deeds.{GivesTold, kill_line_at, killed_at, told_if};

use irc_batch::CloseReason;
use irc_link_reader::{Arrival, Deed, Killing, expect_from};
use irc_link_words::{Params, read_nick, read_server};
use irc_names::ServerName;

/// Reads a KILL from `server`: the holder of the nickname who is killed, or the first reason
/// against the line. It tells nothing where nobody has the nickname.
pub(crate) fn kill_line(
    at: Arrival<'_>,
    server: &[u8],
    mut params: Params<'_>,
) -> Result<Option<Deed>, CloseReason>
    ensures { GivesTold (kill_line_at at.entry server.now params.entry) result }
{
    let nick = params.next()?;
    let text = params.next()?;
    params.end()?;
    expect_collision(text)?;
    expect_from(at, server)?;
    let server = read_server(server)?;
    read_nick(nick)?;
    Ok(killed(at, server, nick))
}

/// Refuses another text than that of a collision.
fn expect_collision(text: &[u8]) -> Result<(), CloseReason>
    ensures { result ≡ (if bytes_eq text.now (codes "Nick collision") then Ok tt
        else Err Parameters) }
{
    if text == b"Nick collision".as_slice() {
        Ok(())
    } else {
        Err(CloseReason::Parameters)
    }
}

/// What tells that the holder of a nickname is killed, if there is one.
fn killed(at: Arrival<'_>, server: ServerName, nick: &[u8]) -> Option<Deed>
    ensures { told_if result ≡ killed_at at.entry server nick.now }
{
    match at.room.user(nick) {
        Some(user) => Some(Deed::Kill(Killing {
            server,
            nick: user.nick.copy(),
        })),
        None => None,
    }
}
