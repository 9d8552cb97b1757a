//! NJOIN (RFC 2813 section 4.2.2). As many members as there may be, it takes no memory.
ghost use Rattle.std.specs.Prelude.{◌≡◌, ◌≤◌, ◌++◌, [], codes, if◌then◌else◌};
ghost use Rattle.arrayvec.specs.ArrayVec.{array_vec_len};
ghost use Rattle.irc_line.specs.Bytes.{cut};
ghost use Rattle.irc_line.specs.Limits.{max_line};
ghost use Rattle.irc_line.specs.Messages.{text};
ghost use Rattle.irc_burst_lines.specs.DeedLines.{member_text, more_text, njoin_parts};
ghost use Rattle.irc_burst_lines.specs.Loops.Telling.{told_member, told_members, told_text};

use irc_channels::Flags;
use irc_line::{Text, push_cut};
use irc_link_reader::NewMember;
use irc_link_writer::push_head;
use irc_names::{ChannelName, ServerName};

/// The line that brings members of a channel, each with its flags: `:a.net NJOIN #c
/// :@al,+bo,@+cy,dee`.
pub fn njoin_text(server: &ServerName, channel: &ChannelName, members: &[NewMember]) -> Text
    ensures { result.items ≡ text (njoin_parts server.now channel.now (told_members members.now)) }
{
    let mut line = Text::new();
    push_head(&mut line, server.as_bytes(), b" NJOIN ", channel.as_bytes());
    push_cut(&mut line, b":");
    push_members(&mut line, members);
    let _ = line.try_extend_from_slice(b"\r\n");
    line
}

/// Appends members, each but the first after a comma.
fn push_members(line: &mut Text, members: &[NewMember])
    requires { array_vec_len line.old ≤ max_line }
    ensures pushed { line.new.items ≡ cut (line.old.items ++ told_text members.now) }
    ensures still_cut { array_vec_len line.new ≤ max_line }
{
    match members.split_first() {
        Some((first, more)) => {
            push_member(line, first);
            push_more(line, more);
        }
        None => push_cut(line, b""),
    }
}

/// Appends members, each after a comma.
fn push_more(line: &mut Text, members: &[NewMember])
    requires { array_vec_len line.old ≤ max_line }
    ensures pushed { line.new.items ≡ cut (line.old.items ++ more_text (told_members members.now)) }
    ensures still_cut { array_vec_len line.new ≤ max_line }
{
    push_cut(line, b"");
    for member in members {
        push_cut(line, b",");
        push_member(line, member);
    }
}

/// Appends a member: `@` before an operator, `+` before who may speak.
fn push_member(line: &mut Text, member: &NewMember)
    requires { array_vec_len line.old ≤ max_line }
    ensures pushed { line.new.items ≡ cut (line.old.items ++ member_text (told_member member.now)) }
    ensures still_cut { array_vec_len line.new ≤ max_line }
{
    push_cut(line, operator_mark(member.flags));
    push_cut(line, voice_mark(member.flags));
    push_cut(line, member.nick.as_bytes());
}

/// What stands before an operator.
fn operator_mark(flags: Flags) -> &'static [u8]
    ensures { result.now ≡ (if flags.op then codes "@" else []) }
{
    if flags.op { b"@" } else { b"" }
}

/// What stands before a member that may speak.
fn voice_mark(flags: Flags) -> &'static [u8]
    ensures { result.now ≡ (if flags.voice then codes "+" else []) }
{
    if flags.voice { b"+" } else { b"" }
}
