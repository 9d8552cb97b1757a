//! The front of a line that is written piece by piece.
ghost use Rattle.std.specs.Prelude.{◌≡◌, ◌≤◌, []};
ghost use Rattle.arrayvec.specs.ArrayVec.{array_vec_len};
ghost use Rattle.irc_line.specs.Bytes.{cut};
ghost use Rattle.irc_line.specs.Limits.{max_line};
ghost use Rattle.irc_link_writer.specs.Loops.Families.{head_text};

use irc_line::{Text, push_cut};

/// Appends what stands before the second parameter of a line about a channel; the command has a
/// space before and behind it.
pub fn push_head(line: &mut Text, name: &[u8], command: &[u8], channel: &[u8])
    requires { line.old.items ≡ [] }
    ensures head { line.new.items ≡ cut (head_text name.now command.now channel.now) }
    ensures still_cut { array_vec_len line.new ≤ max_line }
{
    push_cut(line, b":");
    push_cut(line, name);
    push_cut(line, command);
    push_cut(line, channel);
    push_cut(line, b" ");
}
