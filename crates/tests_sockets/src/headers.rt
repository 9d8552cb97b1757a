//! Headers of proxies and ranges of addresses, good ones and such as break one rule each.
use irc_entrance::{AddressRange, ProxyHeader, read_header};
use std::net::IpAddr;

/// Lines that end as they should, and name nobody.
const BAD_LINES: [&[u8]; 23] = [
    b"PROXY tcp4 192.0.2.7 192.0.2.1 51000 6667\r\n",
    b"PROXY UDP4 192.0.2.7 192.0.2.1 51000 6667\r\n",
    b"PROXY  TCP4 192.0.2.7 192.0.2.1 51000 6667\r\n",
    b"PROXY UNKNOWNS\r\n",
    b"PROXY TCP4 2001:db8::7 2001:db8::1 51000 6667\r\n",
    b"PROXY TCP4 192.0.2.7 2001:db8::1 51000 6667\r\n",
    b"PROXY TCP6 192.0.2.7 192.0.2.1 51000 6667\r\n",
    b"PROXY TCP6 2001:db8::7 192.0.2.1 51000 6667\r\n",
    b"PROXY TCP6 2001:db8:::7 2001:db8::1 51000 6667\r\n",
    b"PROXY TCP6 12001:db8::7 2001:db8::1 51000 6667\r\n",
    b"PROXY TCP4 192.0.2.256 192.0.2.1 51000 6667\r\n",
    b"PROXY TCP4 192.0.2.07 192.0.2.1 51000 6667\r\n",
    b"PROXY TCP4 192.0.2 192.0.2.1 51000 6667\r\n",
    b"PROXY TCP4 localhost 192.0.2.1 51000 6667\r\n",
    b"PROXY TCP4  192.0.2.1 51000 6667\r\n",
    b"PROXY TCP4 192.0.2.7  192.0.2.1 51000 6667\r\n",
    b"PROXY TCP4 192.0.2.7 192.0.2.1 51000 6667 \r\n",
    b"PROXY TCP4 192.0.2.7 192.0.2.1 51000\r\n",
    b"PROXY TCP4 192.0.2.7 192.0.2.1 51000 6667 1\r\n",
    b"PROXY TCP4 192.0.2.7 192.0.2.1 65536 6667\r\n",
    b"PROXY TCP4 192.0.2.7 192.0.2.1 51000 06667\r\n",
    b"PROXY TCP4 192.0.2.7 192.0.2.1 +1 6667\r\n",
    b"PROXY TCP4 192.0.2.7 192.0.2.1 51000 \r\n",
];

/// Texts of no range.
const BAD_RANGES: [&str; 14] = [
    "",
    "/8",
    "localhost",
    "10.1/16",
    "10.1.0.0/",
    "10.1.0.0/33",
    "10.1.0.0/016",
    "10.1.0.0/+1",
    "10.1.0.0/16/16",
    "10.1.0.0 /16",
    "2001:db8::/129",
    "[::1]",
    "127.0.0.1:1",
    "1.2.3.4/x",
];

/// Whether the text of an address is named by a header.
fn names(header: &[u8], text: &str) -> bool {
    match (read_header(header), text.parse::<IpAddr>()) {
        (ProxyHeader::Names(named), Ok(address)) => named == address,
        _ => false,
    }
}

fn is_bad(header: &[u8]) -> bool {
    matches!(read_header(header), ProxyHeader::Bad)
}

/// Whether an address is in the range that a text writes.
fn has(range: &str, address: &str) -> bool {
    match (AddressRange::read(range), address.parse::<IpAddr>()) {
        (Some(range), Ok(address)) => range.has(address),
        _ => false,
    }
}

#[test]
fn a_line_names_its_source(rt: HostRuntime) {
    let first = b"PROXY TCP4 192.0.2.7 192.0.2.1 65535 0\r\n";
    assert!(rt; names(first, "192.0.2.7"));
    let second = b"PROXY TCP6 2001:0DB8::7 :: 51000 6667\r\n";
    assert!(rt; names(second, "2001:db8::7"));
    assert!(rt; matches!(read_header(b"PROXY UNKNOWN x\r\n"), ProxyHeader::Unnamed));
}

#[test]
fn bytes_name_their_source(rt: HostRuntime) {
    let header = b"\r\n\r\n\0\r\nQUIT\n\x21\x11\0\x0c\xc0\0\x02\x07\xc0\0\x02\x01\xc7\x38\x1a\x0b";
    assert!(rt; names(header, "192.0.2.7"));
    assert!(rt; is_bad(b"\r\n\r\n\0\r\nQUIT\n\x21\x12\0\x0c"));
}

#[test]
fn bad_lines_name_nobody(rt: HostRuntime) {
    assert!(rt; BAD_LINES.iter().all(|line| is_bad(line)));
}

#[test]
fn bad_texts_are_no_ranges(rt: HostRuntime) {
    assert!(rt;
        BAD_RANGES
            .iter()
            .all(|text| AddressRange::read(text).is_none())
    );
}

#[test]
fn ranges_have_who_begins_alike(rt: HostRuntime) {
    assert!(rt; has("10.1.2.3/16", "10.1.255.0") && !has("10.1.2.3/16", "10.2.0.0"));
    assert!(rt; has("2001:db8::/32", "2001:db8:1::1") && !has("2001:db8::/32", "2001:db9::1"));
    assert!(rt; has("10.1.2.3", "::ffff:10.1.2.3") && !has("10.1.2.3", "10.1.2.2"));
}
