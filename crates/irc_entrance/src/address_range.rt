//! Addresses that begin with the same bits.
ghost use Rattle.std.specs.Prelude.{◌≡◌, ◌/◌, ◌^◌, ◌<◌, ◌++◌, ◌∷◌, [], IfOk, IfSome};
ghost use Rattle.std.specs.Prelude.{OnOk, length, map, position, string_bytes};
ghost use Rattle.std.specs.Option.{option_copied};
ghost use Rattle.irc_entrance.specs.Ranges.{ReadsRange, ReadsRanges, WritesAddress, before_slash};
ghost use Rattle.irc_entrance.specs.Ranges.{behind_slash, bits_said};
ghost use Rattle.irc_entrance.specs.Ranges.{is_slash, is_within, is_within_any, range_of, width_of};

use crate::crowd::number_of;
use irc_decimals::read_number;
use std::alloc::{AllocError, Global};
use std::net::IpAddr;

/// How many bits an address of IPv4 has, and how many one of IPv6.
const IPV4_BITS: u8 = 32;

const IPV6_BITS: u8 = 128;

/// Addresses whose numbers begin with the same bits.
#[derive(Clone, Copy, Drop)]
pub struct AddressRange {
    /// The number of one of them.
    pub base: u128,
    /// How many of the last bits may be any.
    pub free: u8,
}

impl AddressRange {
    /// The range that a text writes: an address, and behind a slash how many of its first bits
    /// count, or all do. Bits behind these may be set: they count for nothing.
    pub fn read(text: &str) -> Option<AddressRange>
        ensures { ReadsRange text.now result }
    {
        let text = text.as_bytes();
        let address = address_in(before_slash(text))?;
        let bits = bits_in(address, behind_slash(text))?;
        Some(range_of(address, bits))
    }

    /// Whether an address is one of these.
    pub fn has(&self, address: IpAddr) -> bool
        ensures { result ≡ is_within address self.now }
    {
        front(number_of(address), self.free) == front(self.base, self.free)
    }
}

/// The ranges that texts write; nothing, where one of them writes none.
///
/// # Errors
/// Where memory runs out.
pub fn read_ranges(
    alloc: Global,
    texts: &[String],
) -> Result<Option<Vec<AddressRange, Global>>, AllocError>
    ensures { IfOk result (λ ranges. ReadsRanges (map string_bytes texts.now) ranges) }
{
    let mut ranges = Vec::new(alloc);
    let mut rest = texts;
    while let Some((text, more)) = rest.split_first() {
        let Some(range) = AddressRange::read(text.as_str()) else {
            return Ok(None);
        };
        add(&mut ranges, range)?;
        rest = more;
    }
    Ok(Some(ranges))
}

/// Appends a range.
fn add(ranges: &mut Vec<AddressRange, Global>, range: AddressRange) -> Result<(), AllocError>
    ensures { OnOk result (ranges.new.items ≡ ranges.old.items ++ range ∷ []) }
{
    ranges.push(range)?;
    Ok(())
}

/// Whether an address is in any of some ranges.
pub(crate) fn is_within_any(address: IpAddr, ranges: &[AddressRange]) -> bool
    ensures { result ≡ is_within_any address ranges.now }
{
    ranges.iter().any(|range| range.has(address))
}

/// What stands in front of the first slash, or all.
fn before_slash(text: &[u8]) -> &[u8]
    ensures { result.now ≡ before_slash text.now }
{
    match slash_at(text) {
        Some(place) => &text[..place],
        None => text,
    }
}

/// What stands behind the first slash, if there is one.
fn behind_slash(text: &[u8]) -> Option<&[u8]>
    ensures { option_copied result ≡ behind_slash text.now }
{
    match slash_at(text) {
        Some(place) => Some(&text[place + 1..]),
        None => None,
    }
}

/// Where the first slash stands.
fn slash_at(text: &[u8]) -> Option<usize>
    ensures place { result ≡ position is_slash text.now }
    ensures bound { IfSome result (λ place. place < length text.now) }
{
    text.iter().position(|byte| *byte == b'/')
}

/// The address that a text writes.
fn address_in(text: &[u8]) -> Option<IpAddr>
    ensures { WritesAddress text.now result }
{
    IpAddr::parse_ascii(text).ok()
}

/// How many of an address's first bits count: as many as are written, if it has so many, or all.
fn bits_in(address: IpAddr, digits: Option<&[u8]>) -> Option<u8>
    ensures { result ≡ bits_said address (option_copied digits.entry) }
{
    let width = width(address);
    let Some(digits) = digits else {
        return Some(width);
    };
    let bits = u8::try_from(read_number(digits)?).ok()?;
    if bits <= width { Some(bits) } else { None }
}

/// How many bits an address has.
fn width(address: IpAddr) -> u8
    ensures { result ≡ width_of address }
{
    match address {
        IpAddr::V4(_) => IPV4_BITS,
        IpAddr::V6(_) => IPV6_BITS,
    }
}

/// The range of those that have so many first bits with an address.
fn range_of(address: IpAddr, bits: u8) -> AddressRange
    ensures { result ≡ range_of address bits }
{
    AddressRange {
        base: number_of(address),
        free: width(address).saturating_sub(bits),
    }
}

/// A number without so many of its last bits.
fn front(number: u128, free: u8) -> u128
    ensures { result ≡ number / 2 ^ free }
{
    if free < IPV6_BITS { number >> free } else { 0 }
}
