//! What comes to light of links by an event.
ghost use Rattle.std.specs.Prelude.{◌≡◌, OnOk};
ghost use Rattle.std.specs.Option.{option_copied};
ghost use Rattle.irc_journal.specs.Signs.{EntersAll};
ghost use Rattle.irc_engine.specs.Noting.{event_signs, far_of};

use irc_journal::Journal;
use irc_names::ServerName;
use irc_server::{Event, Server};
use std::alloc::AllocError;

/// The number that each server has for itself on a link (RFC 2813 section 4.1.2).
const ITS_OWN: u32 = 1;

/// Enters what comes to light by an event; the server has handled it.
pub(crate) fn note(journal: &mut Journal, event: &Event, server: &Server) -> Result<(), AllocError>
    ensures { OnOk result (EntersAll (event_signs event.now server.now) journal.old journal.new) }
{
    match event {
        Event::LinkUp(link, called) => journal.open(*link, called.as_ref()),
        Event::LinkLine(link, line) => {
            journal.hear(*link, line.as_slice());
            journal.meet(*link, far_of(server, *link))
        }
        Event::LinkDown(link) => journal.lose(*link),
        Event::Connect(_, _) | Event::Line(_, _) | Event::Gone(_) => Ok(()),
    }
}

/// The server that is known at the other end of a link.
fn far_of(server: &Server, link: u64) -> Option<&ServerName>
    ensures { option_copied result ≡ far_of server.now link }
{
    match server.routes() {
        Some(routes) => routes.token_in(link, ITS_OWN),
        None => None,
    }
}
