//! MODE of a channel (RFC 2812 section 3.2.3). As many changes as there may be, it takes no memory.
ghost use Rattle.std.specs.Prelude.{◌≡◌, ◌≤◌, ◌++◌};
ghost use Rattle.arrayvec.specs.ArrayVec.{array_vec_len};
ghost use Rattle.irc_line.specs.Bytes.{cut};
ghost use Rattle.irc_line.specs.Limits.{max_line};
ghost use Rattle.irc_line.specs.Messages.{middle_text, text};
ghost use Rattle.irc_line.specs.MessageViews.{optional_now};
ghost use Rattle.irc_link_words.specs.Words.{parameters};
ghost use Rattle.irc_burst_lines.specs.DeedLines.{mode_parts};

use irc_line::{Text, push_cut};
use irc_link_writer::push_head;
use irc_modes::{ModeChange, push_letters, push_parameter};
use irc_names::ChannelName;

/// The line in which somebody changes modes of a channel, with the words that the changes have:
/// `:a.net MODE #m +ntl 5`.
pub fn mode_text(doer: &[u8], channel: &ChannelName, changes: &[ModeChange]) -> Text
    ensures { result.items ≡ text (mode_parts doer.now channel.now changes.now) }
{
    let mut line = Text::new();
    push_head(&mut line, doer, b" MODE ", channel.as_bytes());
    push_letters(&mut line, changes);
    push_words(&mut line, changes);
    let _ = line.try_extend_from_slice(b"\r\n");
    line
}

/// The parameters of changes in order, each after a space.
fn push_words(line: &mut Text, changes: &[ModeChange])
    requires { array_vec_len line.old ≤ max_line }
    ensures pushed { line.new.items ≡ cut (line.old.items ++ middle_text (parameters changes.now)) }
    ensures still_cut { array_vec_len line.new ≤ max_line }
{
    push_cut(line, b"");
    for change in changes {
        push_parameter(line, written_word(change));
    }
}

/// The parameter of a change, if it has one.
fn written_word(change: &ModeChange) -> Option<&[u8]>
    ensures { optional_now result ≡ change.now.word }
{
    match &change.word {
        Some(word) => Some(word.as_bytes()),
        None => None,
    }
}
