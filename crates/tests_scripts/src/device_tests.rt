//! Readers and writers that fail, that are slow, and that never end.
use irc_script::{SimFault, run_sim};
use std::alloc::Global;
use std::cmp::min;
use std::io;
use std::io::{ErrorKind, Read, Write};

const PING: &[u8] = b"server a.net\nconnect a.net h\nsay 1 PING x";

/// Whether nothing is run where a read fails behind the whole script.
fn breaks_unread(alloc: Global) -> bool {
    let mut input = Breaking { rest: PING };
    let mut output = Vec::new(alloc);
    run_sim(alloc, &mut input, &mut output) == Err(SimFault::Device) && output.is_empty()
}

/// The bytes of three lines `1 :a.net PONG a.net :x`, with their LF.
const PRINTED: usize = 69;

/// Whether the run fails where the writer takes so many bytes and no more.
fn breaks_unwritten(alloc: Global, room: usize) -> bool {
    let mut input: &[u8] = b"server a.net\nconnect a.net h\nsay 1 PING x\rPING y\rPING z\n";
    let mut output = Filling { room };
    run_sim(alloc, &mut input, &mut output) == Err(SimFault::Device)
}

fn all_break(alloc: Global) -> bool {
    for room in 0..PRINTED {
        if !breaks_unwritten(alloc, room) {
            return false;
        }
    }
    true
}

#[test]
fn devices_that_fail(rt: HostRuntime) {
    assert!(rt; breaks_unread(rt.alloc()) && all_break(rt.alloc()));
}

/// Whether a run that a slow writer takes is printed whole, and arrives.
fn arrives(alloc: Global) -> bool {
    let mut input: &[u8] = PING;
    let mut output = Slow {
        taken: Vec::new(alloc),
        arrived: 0,
        was_interrupted: false,
    };
    run_sim(alloc, &mut input, &mut output).is_ok()
        && output.taken.as_slice() == b"1 :a.net PONG a.net :x\n".as_slice()
        && output.arrived == output.taken.len()
}

#[test]
fn a_slow_writer_takes_all(rt: HostRuntime) {
    assert!(rt; arrives(rt.alloc()));
}

/// Whether a script without an end is given up, as a device that fails.
fn is_given_up(alloc: Global) -> bool {
    let mut output = Vec::new(alloc);
    run_sim(alloc, &mut Endless, &mut output) == Err(SimFault::Device) && output.is_empty()
}

#[test]
fn a_script_without_an_end(rt: HostRuntime) {
    assert!(rt; is_given_up(rt.alloc()));
}

/// A reader that gives some bytes, and breaks behind the last.
#[derive(Drop)]
struct Breaking<'a> {
    rest: &'a [u8],
}

impl Read for Breaking<'_> {
    fn read(&mut self, buf: &mut [u8]) -> io::Result<usize> {
        if self.rest.is_empty() {
            return Err(io::Error::from(ErrorKind::Other));
        }
        let count = min(buf.len(), self.rest.len());
        let (piece, rest) = self.rest.split_at(count);
        buf[..count].copy_from_slice(piece);
        self.rest = rest;
        Ok(count)
    }
}

/// A writer that takes some bytes, and breaks then.
#[derive(Drop)]
struct Filling {
    room: usize,
}

impl Write for Filling {
    fn write(&mut self, buf: &[u8]) -> io::Result<usize> {
        if self.room == 0 {
            return Err(io::Error::from(ErrorKind::Other));
        }
        let count = min(self.room, buf.len());
        self.room -= count;
        Ok(count)
    }

    fn flush(&mut self) -> io::Result<()> {
        Ok(())
    }
}

/// A writer that takes one byte at a time, and is interrupted before each. What it took arrives
/// once it is flushed.
#[derive(Drop)]
struct Slow {
    taken: Vec<u8, Global>,
    arrived: usize,
    was_interrupted: bool,
}

impl Write for Slow {
    fn write(&mut self, buf: &[u8]) -> io::Result<usize> {
        self.was_interrupted = !self.was_interrupted;
        if self.was_interrupted {
            return Err(io::Error::from(ErrorKind::Interrupted));
        }
        let Some(byte) = buf.first() else {
            return Ok(0);
        };
        match self.taken.push(*byte) {
            Ok(()) => Ok(1),
            Err(_) => Err(io::Error::from(ErrorKind::OutOfMemory)),
        }
    }

    fn flush(&mut self) -> io::Result<()> {
        self.arrived = self.taken.len();
        Ok(())
    }
}

/// A reader that never ends.
#[derive(Drop)]
struct Endless;

impl Read for Endless {
    fn read(&mut self, buf: &mut [u8]) -> io::Result<usize> {
        if buf.is_empty() {
            return Ok(0);
        }
        buf[0] = b'\n';
        Ok(1)
    }
}
