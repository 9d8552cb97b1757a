//! What an engine says where nobody hears it, and what a wire has to tell.
use crate::running::{all_tell, holds_telling};
use std::io;
use std::io::{ErrorKind, Write};

/// A writer that takes nothing.
#[derive(Drop)]
struct Closed;

impl Write for Closed {
    fn write(&mut self, _bytes: &[u8]) -> io::Result<usize> {
        Err(io::Error::from(ErrorKind::BrokenPipe))
    }

    fn flush(&mut self) -> io::Result<()> {
        Err(io::Error::from(ErrorKind::BrokenPipe))
    }
}

/// b.net links, and cannot be told of; it is answered all the same.
const LINKED: &str = "\
turns 20
link-room 4096
link 7
room 7 9999
bytes 7 PASS pw 0210010001 TREE|;SERVER b.net 1 1 :B;
hears 7 PASS pw 0210010001 TREE|;SERVER a.net 1 1 :Test server;
";

#[test]
fn a_closed_standard_error_ends_nothing(rt: HostRuntime) {
    assert!(rt; holds_telling(rt.alloc(), LINKED, &mut Closed));
}

/// Nothing happens, but that a call has failed.
const NOT_REACHED: &str = "\
unreached
turns 3
says ircd: link to b.net: not reached: connection refused
";

#[test]
fn a_call_that_fails_is_told_once(rt: HostRuntime) {
    assert!(rt; all_tell(rt.alloc(), NOT_REACHED));
}

/// No connection can be taken, and then they can again.
const NO_DESCRIPTORS: &str = "\
descriptors
turns 3
says ircd: no descriptor or memory for another connection
says ircd: connections are taken again
";

#[test]
fn that_no_connection_is_taken_is_told_once(rt: HostRuntime) {
    assert!(rt; all_tell(rt.alloc(), NO_DESCRIPTORS));
}
