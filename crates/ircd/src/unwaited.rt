//! Standard error, which nobody waits for.
use libc::STDERR_FILENO;
use libc::net::{POLLOUT, poll};
use libc::types::pollfd;
use std::io;
use std::io::{ErrorKind, Stderr, Write};

/// Standard error. Where it takes nothing at once, as a pipe that nobody reads and that is full, a
/// write fails.
#[derive(Drop)]
pub(crate) struct Unwaited {
    pub errors: Stderr,
}

impl Write for Unwaited {
    fn write(&mut self, bytes: &[u8]) -> io::Result<usize> {
        if takes_some() {
            self.errors.write(bytes)
        } else {
            Err(io::Error::from(ErrorKind::WouldBlock))
        }
    }

    fn flush(&mut self) -> io::Result<()> {
        self.errors.flush()
    }
}

/// Whether standard error takes bytes at once. A pipe that does takes 4096 bytes at least, and no
/// line of the program is longer than that.
fn takes_some() -> bool {
    let mut asked = [pollfd {
        fd: STDERR_FILENO,
        events: POLLOUT,
        revents: 0,
    }];
    poll(&mut asked, 0) == 1 && asked[0].revents & POLLOUT == POLLOUT
}
