//! A network of two servers, of which one calls the other.
use crate::configs::two;
use crate::{begun, give, let_come, lines, lines_taken, rooms, settle};
use irc_names::{Host, ServerName};
use irc_net::{ClientNumber, Item, Kept, Net, NetFault};
use irc_routes::Programs;
use std::alloc::Global;

const ONE: &[u8] = b"a.net";

const OTHER: &[u8] = b"b.net";

/// They are linked, byte by byte at first; nothing is given while a byte is on its way, and
/// somebody can connect then.
fn meet(
    net: &mut Net<Kept>,
    one: &ServerName,
    other: &ServerName,
    host: &Host,
) -> Result<bool, NetFault> {
    give(net, Item::Link(one.copy(), other.copy()))?;
    for _ in 0..20 {
        let_come(net, one, other, 1)?;
    }
    let early = give(net, Item::Connect(one.copy(), host.copy()));
    settle(net)?;
    let answer = give(net, Item::Connect(one.copy(), host.copy()))?;
    let gone = give(net, Item::Gone(ClientNumber::of(2)));
    rooms(net);
    Ok(
        matches!(early, Err(NetFault::NotAtRest))
            && answer.client == Some(ClientNumber::of(1))
            && matches!(gone, Err(NetFault::NoSuchClient))
            && lines_taken(net) == 0
            && lines(net, ClientNumber::of(1)).is_empty(),
    )
}

fn two_meet(alloc: Global, programs: Programs) -> Option<bool> {
    let mut net = begun(alloc, two(alloc).ok()?, programs).ok()?;
    meet(
        &mut net,
        &ServerName::read(ONE)?,
        &ServerName::read(OTHER)?,
        &Host::read(b"h")?,
    )
    .ok()
}

#[test]
fn two_servers_meet(rt: HostRuntime) {
    assert!(rt; two_meet(rt.alloc(), Programs::Off) == Some(true));
    assert!(rt; two_meet(rt.alloc(), Programs::On) == Some(true));
}
