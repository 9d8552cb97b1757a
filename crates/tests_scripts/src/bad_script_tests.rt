//! Scripts that are bad, each named by its first bad line.
use irc_script::{SimFault, run_sim};
use itoa::Buffer;
use std::alloc::{AllocError, Global};

/// Scripts, each with its first line that no script can have.
static BAD_SCRIPTS: [(&[u8], u64); 44] = [
    (b"\n", 1),
    (b"server a.net\n\n", 2),
    (b"server a\n", 1),
    (b"server A.net\n", 1),
    (b"server a.net \n", 1),
    (b"server a.net b.net\n", 1),
    (b"server a.net\nserver a.net\n", 2),
    (b"server a.net\nserver b.net\nserver a.net\n", 3),
    (b"gone 1\nserver a.net\n", 2),
    (b"server a.net\nlink a.net b.net\nserver b.net\n", 3),
    (b"connect a h\n", 1),
    (b"server a.net\nconnect A.net h\n", 2),
    (b"server a.net\nconnect a.net\n", 2),
    (b"server a.net\nconnect a.net :h\n", 2),
    (b"server a.net\nconnect a.net h h\n", 2),
    (b"server a.net\nconnect a.net h\nsay 1\n", 3),
    (b"say 00 x\n", 1),
    (b"say 01 x\n", 1),
    (b"say +1 x\n", 1),
    (b"say  x\n", 1),
    (b"say 18446744073709551616 x\n", 1),
    (b"gone 1 \n", 1),
    (b"gone 1\nGONE 1\n", 2),
    (b"gone 1\r\n", 1),
    (b"link a.net\n", 1),
    (b"link a.net b\n", 1),
    (b"link a b.net\n", 1),
    (b"link a.net b.net \n", 1),
    (b"link  a.net b.net\n", 1),
    (b"cut a.net\n", 1),
    (b"cut a.net b.net c.net\n", 1),
    (b"deliver a.net\n", 1),
    (b"deliver a.net b.net c.net\n", 1),
    (b"deliver b.net A.net", 1),
    (b"bytes a.net b.net\n", 1),
    (b"bytes a.net b.net \n", 1),
    (b"bytes a.net b.net 01\n", 1),
    (b"bytes a.net b.net 1 \n", 1),
    (b"bytes a.net 1\n", 1),
    (b"bytes a.net b 1\n", 1),
    (b"bytes A.net b.net 1\n", 1),
    (b"settle x\n", 1),
    (b"gone 1\nsettle ", 2),
    (b"settle\nsettled\n", 2),
];

/// How a run of a script ends, and whether nothing is printed.
fn ends(alloc: Global, script: &[u8]) -> (Result<(), SimFault>, bool) {
    let mut input = script;
    let mut output = Vec::new(alloc);
    let end = run_sim(alloc, &mut input, &mut output);
    (end, output.is_empty())
}

/// Whether a script is refused for this line, and nothing is run.
fn is_bad_at(alloc: Global, script: &[u8], line: u64) -> bool {
    ends(alloc, script) == (Err(SimFault::BadScript(line)), true)
}

fn are_bad(alloc: Global) -> bool {
    for (script, line) in &BAD_SCRIPTS {
        if !is_bad_at(alloc, script, *line) {
            return false;
        }
    }
    true
}

#[test]
fn bad_scripts_are_named_by_their_line(rt: HostRuntime) {
    assert!(rt; are_bad(rt.alloc()));
}

/// The lines of so many servers, `0.net` and so on.
fn add_servers(count: u64, script: &mut Vec<u8, Global>) -> Result<(), AllocError> {
    for number in 0..count {
        add_server(number, script)?;
    }
    Ok(())
}

fn add_server(number: u64, script: &mut Vec<u8, Global>) -> Result<(), AllocError> {
    script.extend_from_slice(b"server ")?;
    script.extend_from_slice(Buffer::new().format(number).as_bytes())?;
    script.extend_from_slice(b".net\n")
}

/// What may follow the servers of a script, but for its second line, which nothing is.
const BEHIND: &[u8] = b"gone 1\n\n";

/// Whether a script may name as many servers as there may be, and not one more.
fn are_bounded(alloc: Global) -> bool {
    let mut most = Vec::new(alloc);
    let mut more = Vec::new(alloc);
    add_servers(256, &mut most).is_ok()
        && add_servers(257, &mut more).is_ok()
        && most.extend_from_slice(BEHIND).is_ok()
        && is_bad_at(alloc, &most, 258)
        && is_bad_at(alloc, &more, 257)
}

#[test]
fn a_script_names_so_many_servers(rt: HostRuntime) {
    assert!(rt; are_bounded(rt.alloc()));
}
