//! The pieces that a reply is made of, and how they are written.
ghost use Rattle.std.specs.Prelude.{◌≡◌, ◌≤◌, ◌++◌, map, decimal};
ghost use Rattle.std.specs.List.{flat_map};
ghost use Rattle.arrayvec.specs.ArrayVec.{array_vec_len};
ghost use Rattle.irc_line.specs.Bytes.{cut};
ghost use Rattle.irc_line.specs.Messages.{last_text};
ghost use Rattle.irc_numerics.specs.Loops.Heads.{piece_now, text_now};

use crate::replies::{Listed, OnChannel};
use crate::texts::{channels_text, names_text};
use irc_line::limits::MAX_LINE;
use irc_line::{Text, push_cut};
use itoa::Buffer;

/// A piece of a reply.
#[derive(Clone, Copy)]
pub(crate) enum Piece<'a> {
    /// Bytes as they are.
    Bytes(&'a [u8]),
    /// A number in decimal.
    Number(usize),
    /// Members of a channel.
    Members(&'a [Listed]),
    /// Channels of a user.
    Places(&'a [OnChannel]),
}

/// Appends the pieces, each behind these bytes.
pub(crate) fn push_each(line: &mut Text, before: &[u8], pieces: &[Piece<'_>])
    requires { array_vec_len line.old ≤ MAX_LINE }
    ensures pushed { line.new.items ≡ cut (line.old.items
        ++ flat_map (λ bytes. before.now ++ bytes) (map piece_now pieces.now)) }
    ensures still_cut { array_vec_len line.new ≤ MAX_LINE }
{
    for piece in pieces {
        push_cut(line, before);
        push_piece(line, piece);
    }
}

/// Appends the pieces of a text behind a colon, if there is one.
pub(crate) fn push_text(line: &mut Text, text: Option<&[Piece<'_>]>)
    requires { array_vec_len line.old ≤ MAX_LINE }
    ensures pushed { line.new.items ≡ cut (line.old.items ++ last_text (text_now text.entry)) }
    ensures still_cut { array_vec_len line.new ≤ MAX_LINE }
{
    match text {
        None => push_cut(line, b""),
        Some(pieces) => {
            push_cut(line, b" :");
            push_each(line, b"", pieces);
        }
    }
}

fn push_piece(line: &mut Text, piece: &Piece<'_>)
    requires { array_vec_len line.old ≤ MAX_LINE }
    ensures pushed { line.new.items ≡ cut (line.old.items ++ piece_now piece.now) }
    ensures still_cut { array_vec_len line.new ≤ MAX_LINE }
{
    match piece {
        Piece::Bytes(bytes) => push_cut(line, bytes),
        Piece::Number(number) => push_number(line, *number),
        Piece::Members(names) => push_cut(line, &names_text(names)),
        Piece::Places(channels) => push_cut(line, &channels_text(channels)),
    }
}

fn push_number(line: &mut Text, number: usize)
    requires { array_vec_len line.old ≤ MAX_LINE }
    ensures pushed { line.new.items ≡ cut (line.old.items ++ decimal number) }
    ensures still_cut { array_vec_len line.new ≤ MAX_LINE }
{
    let mut digits = Buffer::new();
    push_cut(line, digits.format(number).as_bytes());
}
