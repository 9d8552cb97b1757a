//! How a test runs a script, and how it is written. What is expected is that of the RFC's replies
//! in the wording of docs/PROFILE.md, none of it taken from the program.
//!
//! A text is a script and what it prints. A line behind `> ` is a line of the script, and below it
//! stands what is printed there, in order; all that is printed is compared.
//! `%` stands for 160 bytes `x`, which is the most of a topic and of the text of a PART, a KICK or
//! a QUIT.
use irc_script::run_sim;
use std::alloc::{AllocError, Global};
use std::cmp::min;
use std::io;
use std::io::Read;

/// The first clients, each as it registers.
static CLIENTS: [&str; 3] = [AL, BO, CY];

const AL: &str = "\
> server a.net
> connect a.net h
> say 1 NICK al
> say 1 USER u 0 * :Al
1 :a.net 001 al :Welcome to the Internet Relay Network al!u@h
1 :a.net 002 al :Your host is a.net, running version treeircd-1
1 :a.net 003 al :This server was created 2024-01-01
1 :a.net 004 al a.net treeircd-1 i biklmnopstv
1 :a.net 422 al :MOTD File is missing
";

const BO: &str = "\
> connect a.net h
> say 2 NICK bo
> say 2 USER u 0 * :Bo
2 :a.net 001 bo :Welcome to the Internet Relay Network bo!u@h
2 :a.net 002 bo :Your host is a.net, running version treeircd-1
2 :a.net 003 bo :This server was created 2024-01-01
2 :a.net 004 bo a.net treeircd-1 i biklmnopstv
2 :a.net 422 bo :MOTD File is missing
";

const CY: &str = "\
> connect a.net h
> say 3 NICK cy
> say 3 USER u 0 * :Cy
3 :a.net 001 cy :Welcome to the Internet Relay Network cy!u@h
3 :a.net 002 cy :Your host is a.net, running version treeircd-1
3 :a.net 003 cy :This server was created 2024-01-01
3 :a.net 004 cy a.net treeircd-1 i biklmnopstv
3 :a.net 422 cy :MOTD File is missing
";

/// Whether the script of a text, behind the registration of so many clients, is run to its end and
/// prints just what the text says.
pub fn prints(alloc: Global, clients: usize, text: &str) -> bool {
    prints_in_pieces(alloc, usize::MAX, clients, text)
}

/// The same of a text alone, with the servers that it names.
pub fn prints_network(alloc: Global, text: &str) -> bool {
    prints(alloc, 0, text)
}

/// The same of texts, one behind the other.
pub fn prints_parts(alloc: Global, parts: &[&str]) -> bool {
    let mut script = Vec::new(alloc);
    let mut printed = Vec::new(alloc);
    let mut output = Vec::new(alloc);
    add_parts(parts, &mut script, &mut printed).is_ok()
        && is_run(alloc, &script, usize::MAX, &mut output)
        && output == printed
}

/// Whether the script of a text, behind the registration of so many clients, is run so where a read
/// gives at most so many bytes.
pub fn prints_in_pieces(alloc: Global, size: usize, clients: usize, text: &str) -> bool {
    let mut script = Vec::new(alloc);
    let mut printed = Vec::new(alloc);
    let mut output = Vec::new(alloc);
    add_clients(clients, &mut script, &mut printed).is_ok()
        && add_text(text, &mut script, &mut printed).is_ok()
        && is_run(alloc, &script, size, &mut output)
        && output == printed
}

/// Whether a script is run to its end, where a read gives at most so many bytes.
pub fn is_run(alloc: Global, script: &[u8], size: usize, output: &mut Vec<u8>) -> bool {
    let mut input = Pieces { rest: script, size };
    run_sim(alloc, &mut input, output).is_ok()
}

fn add_clients(
    clients: usize,
    script: &mut Vec<u8>,
    printed: &mut Vec<u8>,
) -> Result<(), AllocError> {
    for client in CLIENTS.iter().take(clients) {
        add_text(client, script, printed)?;
    }
    Ok(())
}

/// Appends texts, one behind the other.
pub fn add_parts(
    parts: &[&str],
    script: &mut Vec<u8>,
    printed: &mut Vec<u8>,
) -> Result<(), AllocError> {
    for part in parts {
        add_text(part, script, printed)?;
    }
    Ok(())
}

/// Appends the two parts of a text.
pub fn add_text(text: &str, script: &mut Vec<u8>, printed: &mut Vec<u8>) -> Result<(), AllocError> {
    for line in text.split('\n') {
        add_line(line.as_bytes(), script, printed)?;
    }
    Ok(())
}

/// Appends a line to the part that it belongs to. What follows the last LF is no line.
fn add_line(line: &[u8], script: &mut Vec<u8>, printed: &mut Vec<u8>) -> Result<(), AllocError> {
    if line.is_empty() {
        return Ok(());
    }
    match line.strip_prefix(b"> ") {
        Some(said) => spell_out(said, script),
        None => spell_out(line, printed),
    }
}

fn spell_out(line: &[u8], part: &mut Vec<u8>) -> Result<(), AllocError> {
    for byte in line {
        spell_byte(*byte, part)?;
    }
    part.extend_from_slice(b"\n")
}

fn spell_byte(byte: u8, part: &mut Vec<u8>) -> Result<(), AllocError> {
    if byte == b'%' {
        part.extend_from_slice(&[b'x'; 160])
    } else {
        part.extend_from_slice(&[byte])
    }
}

/// A reader that gives at most so many bytes at a time.
#[derive(Drop)]
struct Pieces<'a> {
    rest: &'a [u8],
    size: usize,
}

impl Read for Pieces<'_> {
    fn read(&mut self, buf: &mut [u8]) -> io::Result<usize> {
        let count = min(self.size, min(buf.len(), self.rest.len()));
        let (piece, rest) = self.rest.split_at(count);
        buf[..count].copy_from_slice(piece);
        self.rest = rest;
        Ok(count)
    }
}
