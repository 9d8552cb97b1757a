//! The header with which a proxy says for whom it comes: the PROXY protocol of haproxy's
//! proxy-protocol.txt.
ghost use Rattle.std.specs.Prelude.{◌≡◌};
ghost use Rattle.irc_entrance.specs.Proxying.{Tells, agrees, kind_of};

use crate::proxy_bytes::read_bytes;
use crate::proxy_line::read_line;
use std::net::IpAddr;

/// With what a header of version 1 begins, and one of version 2.
const WORD: &[u8] = b"PROXY ";

const SIGNATURE: &[u8] = b"\r\n\r\n\0\r\nQUIT\n";

/// What the bytes so far are.
#[derive(Clone, Copy, Drop)]
pub enum ProxyHeader {
    /// The front of a header, which has so many bytes more at least.
    Wants(usize),
    /// No header, whatever follows.
    Bad,
    /// A header that names nobody: the proxy comes for itself.
    Unnamed,
    /// A header that names the address of somebody.
    Names(IpAddr),
}

/// Of which version a header is.
#[derive(Clone, Copy, Drop)]
pub enum HeaderKind {
    /// Version 1: a line.
    Line,
    /// Version 2.
    Bytes,
    /// It is none.
    Neither,
}

/// What the bytes so far are. Nothing of what follows a header is wanted.
pub fn read_header(bytes: &[u8]) -> ProxyHeader
    ensures { Tells bytes.now result }
{
    match kind(bytes) {
        HeaderKind::Line => read_line(bytes),
        HeaderKind::Bytes => read_bytes(bytes),
        HeaderKind::Neither => ProxyHeader::Bad,
    }
}

/// Of which version a header can be that begins with these bytes.
fn kind(bytes: &[u8]) -> HeaderKind
    ensures { result ≡ kind_of bytes.now }
{
    if agrees(bytes, WORD) {
        HeaderKind::Line
    } else if agrees(bytes, SIGNATURE) {
        HeaderKind::Bytes
    } else {
        HeaderKind::Neither
    }
}

/// Whether one of these begins with the other.
fn agrees(bytes: &[u8], mark: &[u8]) -> bool
    ensures { result ≡ agrees bytes.now mark.now }
{
    bytes.starts_with(mark) || mark.starts_with(bytes)
}
