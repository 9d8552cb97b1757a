//! Changes of modes as they are written (RFC 2812 section 3.2.3). As many changes as there may be,
//! it takes no memory.
ghost use Rattle.std.specs.Prelude.{◌≡◌, ◌≤◌, ◌++◌};
ghost use Rattle.arrayvec.specs.ArrayVec.{array_vec_len};
ghost use Rattle.irc_line.specs.Bytes.{cut};
ghost use Rattle.irc_line.specs.Limits.{max_line};
ghost use Rattle.irc_line.specs.Messages.{middle_text};
ghost use Rattle.irc_line.specs.MessageViews.{optional_now};
ghost use Rattle.irc_effects.specs.Seen.{changes_text, written_word, written_words};

use crate::Tables;
use irc_line::{Text, push_cut};
use irc_modes::{ModeChange, push_letters, push_parameter};

/// Appends the letters of changes, and then the parameter of each behind a space.
pub fn push_changes(tables: &Tables, line: &mut Text, changes: &[ModeChange])
    requires { array_vec_len line.old ≤ max_line }
    ensures pushed { line.new.items ≡ cut (line.old.items ++ changes_text tables.now changes.now) }
    ensures still_cut { array_vec_len line.new ≤ max_line }
{
    push_letters(line, changes);
    push_words(tables, line, changes);
}

/// The parameters of changes in order, each behind a space.
fn push_words(tables: &Tables, line: &mut Text, changes: &[ModeChange])
    requires { array_vec_len line.old ≤ max_line }
    ensures pushed { line.new.items
        ≡ cut (line.old.items ++ middle_text (written_words tables.now changes.now)) }
    ensures still_cut { array_vec_len line.new ≤ max_line }
{
    push_cut(line, b"");
    for change in changes {
        push_parameter(line, written_word(tables, change));
    }
}

/// The parameter of a change, if it has one: a member's nickname as it is stored, anything else as
/// it was given.
fn written_word<'a>(tables: &'a Tables, change: &'a ModeChange) -> Option<&'a [u8]>
    ensures { optional_now result ≡ written_word tables.now change.now }
{
    match &change.word {
        Some(word) if change.letter.names_member() => Some(tables.stored_nick(word.as_bytes())),
        Some(word) => Some(word.as_bytes()),
        None => None,
    }
}
