//! The bytes with which a proxy says for whom it comes: the PROXY protocol, version 2
//! (proxy-protocol.txt section 2.2).
ghost use Rattle.std.specs.Prelude.{◌≡◌, ◌≤◌, true};
ghost use Rattle.irc_entrance.specs.Proxying.{NamesBy, TellsBy};
ghost use Rattle.irc_entrance.specs.ProxyBytes.{IsBytes, behind, byte_at, has_ends, ipv4_of};
ghost use Rattle.irc_entrance.specs.ProxyBytes.{ipv6_of};
ghost use Rattle.irc_entrance.specs.ProxyBytes.{is_local, is_taken, is_tcp4, is_tcp6, is_whole};
ghost use Rattle.irc_entrance.specs.ProxyBytes.{more_of_bytes, source_in};

use crate::proxy_header::ProxyHeader;
use std::net::{IpAddr, Ipv4Addr, Ipv6Addr};

/// How many bytes say what follows, and how many may follow (our own choice).
const FIXED: usize = 16;

const MOST_BEHIND: usize = 512;

/// Where these have the command, the family, and how many follow.
const COMMAND_AT: usize = 12;

const FAMILY_AT: usize = 13;

const LENGTH_AT: usize = 14;

/// Version 2, and that the proxy comes for itself, or for somebody.
const LOCAL: u8 = 0x20;

const PROXY: u8 = 0x21;

/// The families, and how many bytes the addresses and ports of each have.
const TCP4: u8 = 0x11;

const TCP4_ENDS: usize = 12;

const TCP6: u8 = 0x21;

const TCP6_ENDS: usize = 36;

/// What these bytes are so far.
pub(crate) fn read_bytes(bytes: &[u8]) -> ProxyHeader
    ensures { TellsBy (more_of_bytes bytes.now) (IsBytes bytes.now) result }
{
    let more = more_of_bytes(bytes);
    if more > 0 {
        return ProxyHeader::Wants(more);
    }
    if is_whole(bytes) {
        named(bytes)
    } else {
        ProxyHeader::Bad
    }
}

/// How many more a header has at least, of which these are the first.
fn more_of_bytes(bytes: &[u8]) -> usize
    ensures { result ≡ more_of_bytes bytes.now }
{
    if bytes.len() < FIXED {
        return FIXED - bytes.len();
    }
    if !is_taken(bytes) {
        return 0;
    }
    (FIXED + behind(bytes)).saturating_sub(bytes.len())
}

/// Whether these are a header and nothing else.
fn is_whole(bytes: &[u8]) -> bool
    ensures { result ≡ is_whole bytes.now }
{
    is_taken(bytes) && bytes.len() == FIXED + behind(bytes)
}

/// Whether a header is taken, by its first bytes.
fn is_taken(bytes: &[u8]) -> bool
    ensures { result ≡ is_taken bytes.now }
{
    behind(bytes) <= MOST_BEHIND && (is_local(bytes) || has_ends(bytes))
}

/// Whether the proxy comes for itself.
fn is_local(bytes: &[u8]) -> bool
    ensures { result ≡ is_local bytes.now }
{
    byte_at(bytes, COMMAND_AT) == LOCAL
}

/// Whether it comes for somebody, with as many bytes as the addresses have.
fn has_ends(bytes: &[u8]) -> bool
    ensures { result ≡ has_ends bytes.now }
{
    byte_at(bytes, COMMAND_AT) == PROXY && (is_tcp4(bytes) || is_tcp6(bytes))
}

fn is_tcp4(bytes: &[u8]) -> bool
    ensures { result ≡ is_tcp4 bytes.now }
{
    byte_at(bytes, FAMILY_AT) == TCP4 && behind(bytes) >= TCP4_ENDS
}

fn is_tcp6(bytes: &[u8]) -> bool
    ensures { result ≡ is_tcp6 bytes.now }
{
    byte_at(bytes, FAMILY_AT) == TCP6 && behind(bytes) >= TCP6_ENDS
}

/// How many bytes follow the first 16.
fn behind(bytes: &[u8]) -> usize
    ensures value { result ≡ behind bytes.now }
    ensures bound { result ≤ 65535 }
{
    usize::from(byte_at(bytes, LENGTH_AT)) * 256 + usize::from(byte_at(bytes, LENGTH_AT + 1))
}

/// The byte at a place; 0 where there is none.
fn byte_at(bytes: &[u8], place: usize) -> u8
    ensures { result ≡ byte_at place bytes.now }
{
    match bytes.get(place) {
        Some(byte) => *byte,
        None => 0,
    }
}

/// Whom a whole header names.
fn named(bytes: &[u8]) -> ProxyHeader
    requires { is_whole bytes.now ≡ true }
    ensures { NamesBy (IsBytes bytes.now) result }
{
    if is_local(bytes) {
        return ProxyHeader::Unnamed;
    }
    match source(bytes) {
        Some(source) => ProxyHeader::Names(source),
        None => unreachable!(),
    }
}

/// The source behind the first bytes.
fn source(bytes: &[u8]) -> Option<IpAddr>
    ensures { result ≡ source_in bytes.now }
{
    let ends = &bytes[FIXED.min(bytes.len())..];
    if is_tcp4(bytes) {
        of_ipv4(ends)
    } else {
        of_ipv6(ends)
    }
}

/// The address of IPv4 with which some bytes begin.
fn of_ipv4(bytes: &[u8]) -> Option<IpAddr>
    ensures { result ≡ ipv4_of bytes.now }
{
    let (octets, _rest) = bytes.split_first_chunk::<4>()?;
    Some(IpAddr::V4(Ipv4Addr::from_octets(*octets)))
}

/// And that of IPv6.
fn of_ipv6(bytes: &[u8]) -> Option<IpAddr>
    ensures { result ≡ ipv6_of bytes.now }
{
    let (octets, _rest) = bytes.split_first_chunk::<16>()?;
    Some(IpAddr::V6(Ipv6Addr::from_octets(*octets)))
}
