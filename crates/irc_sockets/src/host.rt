//! The host of an address.
use arrayvec::ArrayVec;
use irc_names::Host;
use std::io::Write;
use std::net::IpAddr;

/// No address text is longer, with a zero before it.
const LONGEST: usize = 64;

/// The text of an address, which stands for the host's name (our own choice). No parameter of a
/// message may begin with a colon, so there is a `0` before an address that does.
pub(crate) fn host_of(address: IpAddr) -> Option<Host> {
    let mut text = ArrayVec::<u8, LONGEST>::new();
    write!(text, "0{address}").ok()?;
    match text.as_slice() {
        [_, rest @ ..] if rest.first() != Some(&b':') => Host::read(rest),
        whole => Host::read(whole),
    }
}
