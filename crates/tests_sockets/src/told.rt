//! What client 1 is told, of machines that are given one event after another.
use irc_batch::{Batch, Out};

/// What al is told who registers from h: the replies of RFC 2812 section 5.1 as docs/PROFILE.md
/// words them.
pub(crate) const WELCOME: &str = "\
:a.net 001 al :Welcome to the Internet Relay Network al!u@h\r\n\
:a.net 002 al :Your host is a.net, running version treeircd-1\r\n\
:a.net 003 al :This server was created 2024-01-01\r\n\
:a.net 004 al a.net treeircd-1 i biklmnopstv\r\n\
:a.net 422 al :MOTD File is missing\r\n";

/// Whether just this is put out, and all of it for client 1: lines, and `closed`.
pub(crate) fn is_told(out: &Batch, told: &str) -> bool {
    let mut rest = told.as_bytes();
    for place in 0..out.len() {
        match behind(out.get(place), rest) {
            Some(more) => rest = more,
            None => return false,
        }
    }
    rest.is_empty()
}

/// What is left of a text behind what is put out.
fn behind<'a>(sent: Option<Out<'_>>, text: &'a [u8]) -> Option<&'a [u8]> {
    match sent? {
        Out::Line(1, line) => text.strip_prefix(line),
        Out::Close(1) => text.strip_prefix(b"closed"),
        _ => None,
    }
}
