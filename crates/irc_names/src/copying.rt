//! Bytes into storage of a fixed size.
ghost use Rattle.std.specs.Prelude.{◌≡◌, ◌≤◌, length, take};

use arrayvec::ArrayVec;

/// A copy of bytes that fit.
pub fn copied<const N: usize>(bytes: &[u8]) -> ArrayVec<u8, N>
    requires { length bytes.now ≤ N }
    ensures { result.items ≡ bytes.now }
{
    let mut copy = ArrayVec::new();
    let Ok(()) = copy.try_extend_from_slice(bytes) else {
        unreachable!();
    };
    copy
}

/// A copy of the first bytes, as many as fit.
pub fn cut_copy<const N: usize>(bytes: &[u8]) -> ArrayVec<u8, N>
    ensures { result.items ≡ take N bytes.now }
{
    copied(first_bytes(bytes, N))
}

/// The first `count` bytes, or all where there are fewer.
pub fn first_bytes(bytes: &[u8], count: usize) -> &[u8]
    ensures value { result.now ≡ take count bytes.now }
    ensures fits { length result.now ≤ count }
{
    if bytes.len() <= count {
        bytes
    } else {
        &bytes[..count]
    }
}
