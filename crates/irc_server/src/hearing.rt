//! Lines of a link, read by what its end knows (RFC 2813 sections 4.1 and 5).
ghost use Rattle.std.specs.Prelude.{◌≡◌};
ghost use Rattle.irc_line.specs.MessageViews.{parsed};
ghost use Rattle.irc_line.specs.Reading.{read_of};
ghost use Rattle.irc_burst.specs.Loops.Deeds.{deeds_read};
ghost use Rattle.irc_server.specs.Heard.{heard, message_heard, of_met};
ghost use Rattle.irc_server.specs.Loops.Hearing.{given_of, greeted, heard_of, opened_as, IsHeard};

use crate::heard::Heard;
use irc_batch::CloseReason;
use irc_burst::{Deed, read_handshake_line, read_line};
use irc_line::{LineFault, Message, parse};
use irc_link_reader::Arrival;
use irc_link_words::{Opening, refusal};
use irc_names::ServerName;
use irc_routes::Info;
use irc_stage::{Link, LinkEnd, View};
use std::alloc::{AllocError, Global};

/// What a line is that came by a link. Before the server at the other end has named itself, its
/// two lines of the handshake are taken; afterwards what it tells.
///
/// # Errors
/// Where memory runs out.
#[tactic(auto, unfolding(crate::specs::Heard::heard))]
pub(crate) fn hear(
    view: &View<'_>,
    link: Link,
    end: &LinkEnd,
    line: &[u8],
) -> Result<Heard, AllocError>
    ensures { IsHeard result (heard view.now link end.now (read_of line.now)) }
{
    match parse(line) {
        Ok(message) => hear_message(view, link, end, &message),
        Err(LineFault::Empty) => Ok(Heard::Nothing),
        Err(_) => Ok(Heard::Closes(CloseReason::Parameters)),
    }
}

/// What a message is that came by a link.
fn hear_message(
    view: &View<'_>,
    link: Link,
    end: &LinkEnd,
    message: &Message<'_>,
) -> Result<Heard, AllocError>
    ensures { IsHeard result (message_heard view.now link end.now (parsed message.now)) }
{
    let at = Arrival {
        room: view.room(),
        routes: view.routes(),
        link: link.number(),
    };
    if end.is_met() {
        return Ok(told(read_line(view.alloc(), at, message)?));
    }
    match read_handshake_line(view.alloc(), message, at, end.password().is_some())? {
        Ok(opening) => Ok(open(view, end, opening)),
        Err(reason) => Ok(Heard::Closes(reason)),
    }
}

/// What is read behind the handshake.
fn told(read: Result<Vec<Deed, Global>, CloseReason>) -> Heard
    ensures { heard_of result ≡ of_met (deeds_read read) }
{
    match read {
        Ok(deeds) => Heard::Tells(deeds),
        Err(reason) => Heard::Closes(reason),
    }
}

/// What is read of the handshake.
fn open(view: &View<'_>, end: &LinkEnd, opening: Opening) -> Heard
    ensures { heard_of result ≡ opened_as view.now end.now opening }
{
    match opening {
        Opening::Password(password) => Heard::Password(password),
        Opening::Greeting { name, info } => greet(view, end, name, info),
    }
}

/// The server at the other end names itself: it is to be a peer that gave its password, and one
/// server more.
fn greet(view: &View<'_>, end: &LinkEnd, name: ServerName, info: Info) -> Heard
    ensures { heard_of result ≡ greeted view.now end.now name info }
{
    let kept = view.password_for(name.as_bytes());
    match refusal(kept, given(end), view.routes(), name.as_bytes()) {
        Some(reason) => Heard::Closes(reason),
        None => Heard::Meets { name, info },
    }
}

/// The password that the other end has given, or nothing.
fn given(end: &LinkEnd) -> &[u8]
    ensures { result.now ≡ given_of end.now }
{
    match end.password() {
        Some(password) => password.as_bytes(),
        None => &[],
    }
}
