//! The line with which a proxy says for whom it comes: the PROXY protocol, version 1
//! (proxy-protocol.txt section 2.1).
ghost use Rattle.std.specs.Prelude.{◌≡◌, ◌<◌, ◌∷◌, [], IfSome, MatchOption};
ghost use Rattle.std.specs.Prelude.{false, length, position, true};
ghost use Rattle.irc_entrance.specs.Proxying.{NamesBy, TellsBy};
ghost use Rattle.irc_entrance.specs.ProxyLines.{AreWords, FindsAddress, FindsSource, IsLine};
ghost use Rattle.irc_entrance.specs.ProxyLines.{IsNamed};
ghost use Rattle.irc_entrance.specs.ProxyLines.{IsSource};
ghost use Rattle.irc_entrance.specs.ProxyLines.{family_of, is_line, is_port, is_space};
ghost use Rattle.irc_entrance.specs.ProxyLines.{is_unknown, more_of_line, words_of};

use crate::proxy_header::ProxyHeader;
use irc_decimals::read_number;
use std::net::{IpAddr, Ipv4Addr, Ipv6Addr};

/// The least bytes of a line, and the most.
const SHORTEST: usize = 15;

const LONGEST: usize = 107;

/// How lines begin that name an address, and how long that is.
const TCP4: &[u8] = b"PROXY TCP4 ";

const TCP6: &[u8] = b"PROXY TCP6 ";

const FAMILY_END: usize = 11;

/// The line that names nobody, and how it begins where more stands in it.
const UNKNOWN: &[u8] = b"PROXY UNKNOWN";

const UNKNOWN_MORE: &[u8] = b"PROXY UNKNOWN ";

/// The greatest port.
const LAST_PORT: u64 = 65_535;

/// Of what family the addresses of a line are.
#[derive(Clone, Copy, Drop)]
pub enum LineFamily {
    Tcp4,
    Tcp6,
    /// It names nobody.
    Unknown,
    /// It is no line of a proxy.
    Other,
}

/// The words behind the family.
#[derive(Clone, Copy, Drop)]
pub struct LineEnds<'a> {
    pub source: &'a [u8],
    pub destination: &'a [u8],
    pub source_port: &'a [u8],
    pub destination_port: &'a [u8],
}

/// What the bytes of a line are so far.
pub(crate) fn read_line(bytes: &[u8]) -> ProxyHeader
    ensures { TellsBy (more_of_line bytes.now) (IsLine bytes.now) result }
{
    let more = more_of_line(bytes);
    if more > 0 {
        return ProxyHeader::Wants(more);
    }
    if !is_line(bytes) {
        return ProxyHeader::Bad;
    }
    named(&bytes[..bytes.len() - 2])
}

/// How many more bytes a line has at least, of which these are the first. It ends with the first
/// CR LF: so no more than that may be asked for.
fn more_of_line(bytes: &[u8]) -> usize
    ensures { result ≡ more_of_line bytes.now }
{
    if bytes.len() < SHORTEST {
        return SHORTEST - bytes.len();
    }
    if bytes.ends_with(b"\r\n") {
        return 0;
    }
    let least = if bytes.ends_with(b"\r") { 1 } else { 2 };
    least.min(LONGEST.saturating_sub(bytes.len()))
}

/// Whether these are a line, whatever it says.
fn is_line(bytes: &[u8]) -> bool
    ensures { result ≡ is_line bytes.now }
{
    bytes.ends_with(b"\r\n") && bytes.len() <= LONGEST
}

/// Whom a line names, without its CR LF.
fn named(text: &[u8]) -> ProxyHeader
    ensures { NamesBy (IsNamed (family_of text.now) text.now) result }
{
    match family(text) {
        LineFamily::Tcp4 => named_source(&text[FAMILY_END..], true),
        LineFamily::Tcp6 => named_source(&text[FAMILY_END..], false),
        LineFamily::Unknown => ProxyHeader::Unnamed,
        LineFamily::Other => ProxyHeader::Bad,
    }
}

/// Of what family a line is.
fn family(text: &[u8]) -> LineFamily
    ensures { result ≡ family_of text.now }
{
    if text.starts_with(TCP4) {
        LineFamily::Tcp4
    } else if text.starts_with(TCP6) {
        LineFamily::Tcp6
    } else if is_unknown(text) {
        LineFamily::Unknown
    } else {
        LineFamily::Other
    }
}

/// Whether a line names nobody.
fn is_unknown(text: &[u8]) -> bool
    ensures { result ≡ is_unknown text.now }
{
    text == UNKNOWN || text.starts_with(UNKNOWN_MORE)
}

/// Whom a line names by what stands behind its family.
fn named_source(text: &[u8], is_of_ipv4: bool) -> ProxyHeader
    ensures { NamesBy (IsSource is_of_ipv4 text.now) result }
{
    match source(text, is_of_ipv4) {
        Some(source) => ProxyHeader::Names(source),
        None => ProxyHeader::Bad,
    }
}

/// The source that is named behind a family.
fn source(text: &[u8], is_of_ipv4: bool) -> Option<IpAddr>
    ensures { FindsSource is_of_ipv4 text.now result }
{
    let ends = ends(text)?;
    let source = address(ends.source, is_of_ipv4)?;
    let _destination = address(ends.destination, is_of_ipv4)?;
    if is_port(ends.source_port) && is_port(ends.destination_port) {
        Some(source)
    } else {
        None
    }
}

/// The words of a text, if they are four.
fn ends<'a>(text: &'a [u8]) -> Option<LineEnds<'a>>
    ensures { AreWords text.now result }
{
    let (source, rest) = next_word(text)?;
    let (destination, rest) = next_word(rest)?;
    let (source_port, destination_port) = next_word(rest)?;
    match next_word(destination_port) {
        Some(_) => None,
        None => Some(LineEnds {
            source,
            destination,
            source_port,
            destination_port,
        }),
    }
}

/// The word in front of the first space, and what is behind it.
fn next_word<'a>(text: &'a [u8]) -> Option<(&'a [u8], &'a [u8])>
    ensures { MatchOption result (words_of text.now ≡ text.now ∷ [])
        (λ word. words_of text.now ≡ word.0.now ∷ words_of word.1.now) }
{
    match space_at(text) {
        Some(place) => Some((&text[..place], &text[place + 1..])),
        None => None,
    }
}

/// Where the first space stands.
fn space_at(text: &[u8]) -> Option<usize>
    ensures place { result ≡ position is_space text.now }
    ensures bound { IfSome result (λ place. place < length text.now) }
{
    text.iter().position(|byte| *byte == b' ')
}

/// The address of a family that a word is.
fn address(word: &[u8], is_of_ipv4: bool) -> Option<IpAddr>
    ensures { FindsAddress is_of_ipv4 word.now result }
{
    if is_of_ipv4 { ipv4(word) } else { ipv6(word) }
}

/// The address of IPv4 that a word is.
fn ipv4(word: &[u8]) -> Option<IpAddr>
    ensures { FindsAddress true word.now result }
{
    match Ipv4Addr::parse_ascii(word) {
        Ok(address) => Some(IpAddr::V4(address)),
        Err(_) => None,
    }
}

/// The address of IPv6 that a word is.
fn ipv6(word: &[u8]) -> Option<IpAddr>
    ensures { FindsAddress false word.now result }
{
    match Ipv6Addr::parse_ascii(word) {
        Ok(address) => Some(IpAddr::V6(address)),
        Err(_) => None,
    }
}

/// Whether a word is a port.
fn is_port(word: &[u8]) -> bool
    ensures { result ≡ is_port word.now }
{
    match read_number(word) {
        Some(port) => port <= LAST_PORT,
        None => false,
    }
}
