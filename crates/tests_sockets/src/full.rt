//! A server more than the 256 that may be known: the link that tells of it is closed, and all that
//! it has told of is lost with it.
use crate::hostile::{AFTERWARDS, ARE_TWO, BEFORE, GREETS, OPENS};
use crate::running::holds;
use crate::script::add_part;
use itoa::Buffer;
use std::alloc::{AllocError, Global};
use std::string::String;

/// Servers are named by numbers from this on, and numbered so too: their names stand in the order
/// of these.
const FIRST: u32 = 101;

/// a.net numbers them from this on.
const FIRST_OF_A: u32 = 4;

/// How many servers are told of where a.net, b.net and c.net are known, and no more may be.
const BESIDE_THREE: u32 = 253;

/// A number comes behind a script.
fn add_number(script: &mut String<Global>, number: u32) -> Result<(), AllocError> {
    let mut digits = Buffer::new();
    script.push_str(digits.format(number))
}

/// A line of the server at a place comes behind a script. `$` in it stands for that server's
/// number, and `&` for the number that a.net gives it.
fn add_server(script: &mut String<Global>, line: &str, place: u32) -> Result<(), AllocError> {
    for letter in line.chars() {
        match letter {
            '$' => add_number(script, FIRST.saturating_add(place))?,
            '&' => add_number(script, FIRST_OF_A.saturating_add(place))?,
            _ => script.push(letter)?,
        }
    }
    Ok(())
}

/// A row comes behind a script that begins so, with a line of each of so many servers.
fn add_servers(
    script: &mut String<Global>,
    verb: &str,
    line: &str,
    count: u32,
) -> Result<(), AllocError> {
    script.push_str(verb)?;
    for place in 0..count {
        add_server(script, line, place)?;
    }
    script.push_str("\n")
}

/// What al is answered where c.net has told of its servers.
const ARE_ALL: &str = "\
hears 1 :a.net 251 al :There are 2 users and 0 services on 256 servers;
hears 1 :a.net 254 al 1 :channels formed;
hears 1 :a.net 255 al :I have 1 clients and 1 servers;
";

/// c.net tells of one more than that, and b.net names itself: it is told nothing.
fn add_stranger(script: &mut String<Global>) -> Result<(), AllocError> {
    script.push_str(BEFORE)?;
    add_servers(
        script,
        "bytes 8 ",
        ":c.net SERVER n$.net 2 $ :N;",
        BESIDE_THREE + 1,
    )?;
    script.push_str(OPENS)?;
    script.push_str(ARE_ALL)?;
    add_part(
        script,
        AFTERWARDS,
        "PASS pw 0210010001 TREE|;SERVER b.net 1 1 :B;",
    )
}

fn turns_away(alloc: Global) -> bool {
    let mut script = String::new(alloc);
    add_stranger(&mut script).is_ok() && holds(alloc, script.as_str())
}

#[test]
fn a_peer_beyond_the_last_server_is_closed(rt: HostRuntime) {
    assert!(rt; turns_away(rt.alloc()));
}

/// b.net names itself, tells of so many, and of one more; c.net is told of all behind it, and of
/// the loss of each.
fn add_peer(script: &mut String<Global>) -> Result<(), AllocError> {
    script.push_str(BEFORE)?;
    script.push_str(OPENS)?;
    script.push_str(GREETS)?;
    add_all(script)?;
    script.push_str(ARE_TWO)?;
    add_part(script, AFTERWARDS, ":b.net SERVER g.net 2 2 :G;")
}

fn add_all(script: &mut String<Global>) -> Result<(), AllocError> {
    add_servers(
        script,
        "bytes 7 ",
        ":b.net SERVER n$.net 2 $ :N;",
        BESIDE_THREE,
    )?;
    add_servers(
        script,
        "hears 8 ",
        ":b.net SERVER n$.net 3 & :N;",
        BESIDE_THREE,
    )?;
    script.push_str("hears 8 :a.net SQUIT b.net :a.net b.net;\n")?;
    add_servers(
        script,
        "hears 8 ",
        ":a.net SQUIT n$.net :a.net b.net;",
        BESIDE_THREE,
    )
}

fn loses(alloc: Global) -> bool {
    let mut script = String::new(alloc);
    add_peer(&mut script).is_ok() && holds(alloc, script.as_str())
}

#[test]
fn who_tells_of_a_server_beyond_the_last_is_closed(rt: HostRuntime) {
    assert!(rt; loses(rt.alloc()));
}
