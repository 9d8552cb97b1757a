//! Changes of modes, written into a line (RFC 2812 section 3.2.3). As many changes as there may be,
//! it takes no memory.
ghost use Rattle.std.specs.Prelude.{◌≡◌, ◌≤◌, ◌++◌};
ghost use Rattle.arrayvec.specs.ArrayVec.{array_vec_len};
ghost use Rattle.irc_line.specs.Bytes.{cut};
ghost use Rattle.irc_line.specs.Limits.{max_line};
ghost use Rattle.irc_line.specs.MessageViews.{optional_now};
ghost use Rattle.irc_modes.specs.ModeWritten.{letter_text, letters_text, parameter_text};
ghost use Rattle.irc_modes.specs.ModeWritten.{sign_between};

use crate::ModeChange;
use irc_line::{Text, push_cut};

/// Appends the letters of changes in order, with a sign before the first and wherever it differs
/// from the one before.
pub fn push_letters(line: &mut Text, changes: &[ModeChange])
    requires { array_vec_len line.old ≤ max_line }
    ensures pushed { line.new.items ≡ cut (line.old.items ++ letters_text changes.now) }
    ensures still_cut { array_vec_len line.new ≤ max_line }
{
    let mut sign = None;
    push_cut(line, b"");
    for change in changes {
        push_change(line, sign, change);
        sign = Some(change.plus);
    }
}

/// The letter of one change, behind another with this sign if there is one.
fn push_change(line: &mut Text, sign: Option<bool>, change: &ModeChange)
    requires { array_vec_len line.old ≤ max_line }
    ensures pushed { line.new.items ≡ cut (line.old.items ++ letter_text sign change.now) }
    ensures still_cut { array_vec_len line.new ≤ max_line }
{
    push_cut(line, sign_text(sign, change.plus));
    push_cut(line, &[change.letter.byte()]);
}

/// The sign in front of a letter, if it has one there.
pub fn sign_text(before: Option<bool>, plus: bool) -> &'static [u8]
    ensures { result.now ≡ sign_between before plus }
{
    match before {
        Some(sign) if sign == plus => b"",
        _ => if plus { b"+" } else { b"-" },
    }
}

/// Appends the parameter of one change behind a space, if the change has one.
pub fn push_parameter(line: &mut Text, word: Option<&[u8]>)
    requires { array_vec_len line.old ≤ max_line }
    ensures pushed { line.new.items
        ≡ cut (line.old.items ++ parameter_text (optional_now word.entry)) }
    ensures still_cut { array_vec_len line.new ≤ max_line }
{
    match word {
        Some(word) => {
            push_cut(line, b" ");
            push_cut(line, word);
        }
        None => push_cut(line, b""),
    }
}
