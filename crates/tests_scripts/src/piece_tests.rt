//! Links carry bytes, which come in pieces cut anywhere (RFC 2813 section 3.3, RFC 2812 section
//! 2.3).
use crate::network_tests::LINKED;
use crate::running::{add_parts, is_run, prints_network};
use std::alloc::{AllocError, Global};

/// The CR of the first line comes, and with it the line; its LF is on its way still. Then all that
/// is left comes, and is answered with two lines.
const HANDSHAKE: &str = "\
> server a.net
> server b.net
> link a.net b.net
> bytes a.net b.net 25
= 25
> link a.net b.net
! 1
> bytes a.net b.net 1000
= 32
> settle
= 2
";

#[test]
fn a_line_comes_without_its_line_feed(rt: HostRuntime) {
    assert!(rt; prints_network(rt.alloc(), HANDSHAKE));
}

/// A line feed that completes nothing is delivered, and nothing is where no byte is on its way; a
/// part of a line is on its way all the same.
const ALONE: &str = "\
> server a.net
> server b.net
> server c.net
> bytes a.net b.net 1
! 4
> bytes a.net d.net 1
! 2
> link a.net b.net
> bytes a.net b.net 0
= 0
> bytes a.net b.net 25
= 25
> deliver a.net b.net
= 1
> bytes a.net b.net 3
= 3
> link b.net c.net
! 1
> deliver a.net b.net
= 1
> deliver a.net b.net
= 0
> bytes a.net b.net 5
= 0
> settle
= 2
";

#[test]
fn a_line_feed_alone(rt: HostRuntime) {
    assert!(rt; prints_network(rt.alloc(), ALONE));
}

/// What each client of two servers receives as two bursts cross.
static RECEIVED: [&str; 4] = [
    "1 :bo!u@h JOIN #c\n1 :a.net MODE #c +o bo\n",
    "",
    "3 :al!u@h JOIN #c\n3 :b.net MODE #c +o al\n",
    "",
];

/// Appends so many pieces of so many bytes to a script in each direction, one and the other in
/// turn.
fn add_pieces(count: usize, size: &str, script: &mut Vec<u8>) -> Result<(), AllocError> {
    for _ in 0..count {
        for direction in &["a.net b.net", "b.net a.net"] {
            script.extend_from_slice(b"bytes ")?;
            script.extend_from_slice(direction.as_bytes())?;
            script.extend_from_slice(b" ")?;
            script.extend_from_slice(size.as_bytes())?;
            script.extend_from_slice(b"\n")?;
        }
    }
    script.extend_from_slice(b"settle\n")
}

/// Appends the lines of a client to a text.
fn add_lines(client: u8, output: &[u8], lines: &mut Vec<u8>) -> Result<(), AllocError> {
    for line in output.split(|byte: &u8| *byte == b'\n') {
        if line.starts_with(&[client]) {
            lines.extend_from_slice(line)?;
            lines.extend_from_slice(b"\n")?;
        }
    }
    Ok(())
}

/// Whether a client has received just its lines of these.
fn has_received(alloc: Global, client: u8, received: &str, output: &[u8]) -> bool {
    let mut lines = Vec::new(alloc);
    add_lines(client, output, &mut lines).is_ok() && lines.as_slice() == received.as_bytes()
}

/// Whether each client of these, the first one first, has received just its lines.
fn have_received(alloc: Global, received: &[&str], output: &[u8]) -> bool {
    for (client, lines) in b"1234".iter().zip(received) {
        if !has_received(alloc, *client, lines, output) {
            return false;
        }
    }
    true
}

/// Whether the bursts of a link cross in so many pieces of so many bytes, and each client receives
/// its lines by them, none left for the settle.
pub fn crosses(
    alloc: Global,
    linked: &[&str],
    received: &[&str],
    count: usize,
    size: &str,
) -> bool {
    let mut script = Vec::new(alloc);
    let mut printed = Vec::new(alloc);
    let mut output = Vec::new(alloc);
    if add_parts(linked, &mut script, &mut printed).is_err()
        || add_pieces(count, size, &mut script).is_err()
        || !is_run(alloc, &script, usize::MAX, &mut output)
    {
        return false;
    }
    let Some(behind) = output.strip_prefix(printed.as_slice()) else {
        return false;
    };
    behind.ends_with(b"= 0\n= 0\n") && have_received(alloc, received, behind)
}

#[test]
fn bursts_cross_in_pieces(rt: HostRuntime) {
    assert!(rt; crosses(rt.alloc(), &[LINKED], &RECEIVED, 200, "1"));
    assert!(rt; crosses(rt.alloc(), &[LINKED], &RECEIVED, 100, "2"));
    assert!(rt; crosses(rt.alloc(), &[LINKED], &RECEIVED, 5, "509"));
}
