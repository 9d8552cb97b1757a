//! Masks against texts (RFC 2812, section 2.5).
ghost use Rattle.std.specs.Prelude.{◌≡◌, ◌<◌, ◌≤◌, ◌↔◌, length, IsTrue, MatchOption, IfSome};
ghost use Rattle.irc_names.specs.Masks.{Matches};
ghost use Rattle.irc_names.specs.Loops.Fronts.{Empty, Begins, front, front_after_backslash};
ghost use Rattle.irc_names.specs.Loops.Fronts.{accepts};
ghost use Rattle.irc_names.specs.MaskLaws.{Somewhere, matches};
ghost use Rattle.irc_names.specs.Loops.Walks.{Tells, IsShorter, IsFirst};

use crate::fold;

/// What one part of a mask stands for.
#[derive(Clone, Copy)]
enum Part {
    /// `*`: any run of bytes.
    Run,
    /// `?`: one byte.
    AnyByte,
    /// `\*` or `\?`: that byte.
    Escaped(u8),
    /// Any other byte, and each byte with an equal fold.
    Plain(u8),
}

/// How far a mask was followed along a text.
#[derive(Clone, Copy)]
enum Walk<'a> {
    /// To a `*`: the mask after it, and the text that is left.
    Star(&'a [u8], &'a [u8]),
    /// To the end of both.
    Done,
    /// To a place where they differ.
    Differs,
}

/// Whether a mask matches a text: `*` stands for any run of bytes, `?` for one byte, `\*` and `\?`
/// for those bytes, and any other byte for each byte with an equal fold (RFC 2812, section 2.5; our
/// own choice: any other backslash is itself).
///
/// At each `*` the first place where the mask matches up to the next `*` is as good as any later
/// one, so none is tried again: the time is at most that of one pass over the mask for each byte of
/// the text.
pub fn mask_matches(mask: &[u8], text: &[u8]) -> bool
    ensures told { IsTrue result ↔ Matches mask.now text.now }
    ensures value { result ≡ matches mask.now text.now }
{
    let mut reached = follow(mask, text);
    while let Walk::Star(mask_left, text_left) = reached {
        reached = first_place(mask_left, text_left);
    }
    matches!(reached, Walk::Done)
}

/// Follows a mask from the first byte of a text from which it can be followed to the next `*`, or
/// to the end of both.
fn first_place<'a>(mask: &'a [u8], text: &'a [u8]) -> Walk<'a>
    ensures told { Tells result (Somewhere mask.now text.now) }
    ensures shorter { IsShorter result mask.now }
{
    let mut rest = text;
    loop {
        match follow(mask, rest) {
            Walk::Differs => {}
            reached => return reached,
        }
        let Some((_, more)) = rest.split_first() else {
            return Walk::Differs;
        };
        rest = more;
    }
}

/// Follows a mask along a text, from the first byte of both to the next `*`.
fn follow<'a>(mask: &'a [u8], text: &'a [u8]) -> Walk<'a>
    ensures told { Tells result (Matches mask.now text.now) }
    ensures shorter { IsShorter result mask.now }
    ensures first { IsFirst result mask.now text.now }
{
    let mut mask_left = mask;
    let mut text_left = text;
    while let Some((part, mask_after)) = front(mask_left) {
        if let Part::Run = part {
            return Walk::Star(mask_after, text_left);
        }
        let Some((byte, text_after)) = text_left.split_first() else {
            return Walk::Differs;
        };
        if !accepts(part, *byte) {
            return Walk::Differs;
        }
        mask_left = mask_after;
        text_left = text_after;
    }
    if text_left.is_empty() {
        Walk::Done
    } else {
        Walk::Differs
    }
}

/// Whether a part stands for one byte, and for this one.
fn accepts(part: Part, byte: u8) -> bool
    ensures { result ≡ accepts part byte }
{
    match part {
        Part::Run => false,
        Part::AnyByte => true,
        Part::Escaped(own) => own == byte,
        Part::Plain(own) => fold(own) == fold(byte),
    }
}

/// The first part of a mask and the mask after it, where the mask is not empty.
fn front(mask: &[u8]) -> Option<(Part, &[u8])>
    ensures value { MatchOption result (front mask.now ≡ Empty)
        (λ found. front mask.now ≡ Begins found.0 found.1.now) }
    ensures shorter { IfSome result (λ found. length found.1.now < length mask.now) }
{
    let (first, rest) = mask.split_first()?;
    match *first {
        b'*' => Some((Part::Run, rest)),
        b'?' => Some((Part::AnyByte, rest)),
        b'\\' => Some(front_after_backslash(rest)),
        byte => Some((Part::Plain(byte), rest)),
    }
}

/// The first part of a mask that begins with a backslash, and the mask after it, by what follows
/// the backslash.
fn front_after_backslash(rest: &[u8]) -> (Part, &[u8])
    ensures value { front_after_backslash rest.now ≡ Begins result.0 result.1.now }
    ensures within { length result.1.now ≤ length rest.now }
{
    match rest.split_first() {
        Some((wild, after)) if matches!(*wild, b'*' | b'?') => (Part::Escaped(*wild), after),
        _ => (Part::Plain(b'\\'), rest),
    }
}
