//! Bytes put at the end of a line, as far as it has room.
ghost use Rattle.std.specs.Prelude.{◌≡◌, ◌≤◌, ◌++◌, length, take};
ghost use Rattle.arrayvec.specs.ArrayVec.{array_vec_len};
ghost use Rattle.irc_line.specs.Bytes.{cut};

use crate::limits::MAX_LINE;
use arrayvec::ArrayVec;

/// Appends bytes, and drops those past [`MAX_LINE`].
pub fn push_cut<const N: usize>(line: &mut ArrayVec<u8, N>, bytes: &[u8])
    requires room { MAX_LINE ≤ N }
    requires is_cut { array_vec_len line.old ≤ MAX_LINE }
    ensures appended { line.new.items ≡ cut (line.old.items ++ bytes.now) }
    ensures still_cut { array_vec_len line.new ≤ MAX_LINE }
{
    let room = MAX_LINE - line.len();
    let _ = line.try_extend_from_slice(front(bytes, room));
}

/// The first `room` bytes, or all where there are fewer.
fn front(bytes: &[u8], room: usize) -> &[u8]
    ensures value { result.now ≡ take room bytes.now }
    ensures fits { length result.now ≤ room }
{
    if bytes.len() <= room {
        bytes
    } else {
        &bytes[..room]
    }
}
