//! Messages written as lines.
ghost use Rattle.std.specs.Prelude.{◌≡◌, ℕ, ◌≤◌, List, ◌++◌, length};
ghost use Rattle.arrayvec.specs.ArrayVec.{array_vec_len};
ghost use Rattle.irc_line.specs.Bytes.{cut, crlf};
ghost use Rattle.irc_line.specs.Messages.{text, line_text, prefix_text, prefix_of, middle_text};
ghost use Rattle.irc_line.specs.Messages.{last_text, full_name};
ghost use Rattle.irc_line.specs.PartViews.{written, sender, words_now};
ghost use Rattle.irc_line.specs.MessageViews.{optional_now};

use crate::cutting::push_cut;
use crate::limits::{MAX_LINE, MAX_TEXT};
use arrayvec::ArrayVec;

/// A line with its CR LF, as it is sent.
pub type Text = ArrayVec<u8, MAX_TEXT>;

const LINE_END: &[u8] = b"\r\n";

/// Who sends a message (RFC 2812 section 2.3.1).
#[derive(Clone, Copy)]
pub enum Prefix<'a> {
    /// The line has no prefix.
    Nothing,
    /// A server's name, or a nickname.
    Name(&'a [u8]),
    /// A user, written as `nick!user@host`.
    Full {
        /// Its nickname.
        nick: &'a [u8],
        /// Its user name.
        user: &'a [u8],
        /// Its host.
        host: &'a [u8],
    },
}

/// The parts of a message.
#[derive(Clone, Copy)]
pub struct Parts<'a> {
    /// Who sends it.
    pub prefix: Prefix<'a>,
    /// The command, or the three digits of a reply.
    pub command: &'a [u8],
    /// The parameters without a space in them.
    pub middle: &'a [&'a [u8]],
    /// The last parameter, which is written behind a colon and may hold spaces.
    pub last: Option<&'a [u8]>,
}

/// Writes a message as a line with its CR LF. What goes past [`MAX_LINE`] bytes is cut off before
/// them (our own choice).
pub fn write_message(parts: &Parts<'_>) -> Text
    ensures { result.items ≡ text (written parts.now) }
{
    let mut line = ArrayVec::new();
    push_prefix(&mut line, &parts.prefix);
    push_cut(&mut line, parts.command);
    push_words(&mut line, parts.middle);
    push_last(&mut line, parts.last);
    let _ = line.try_extend_from_slice(LINE_END);
    line
}

/// Appends who sends a message as the front of a line: a colon, the name, a space (RFC 2812 section
/// 2.3.1); nothing where nobody does.
pub fn push_prefix(line: &mut Text, prefix: &Prefix<'_>)
    requires { array_vec_len line.old ≤ MAX_LINE }
    ensures pushed { line.new.items
        ≡ cut (line.old.items ++ prefix_text (prefix_of (sender prefix.now))) }
    ensures still_cut { array_vec_len line.new ≤ MAX_LINE }
{
    match prefix {
        Prefix::Nothing => {
            push_cut(line, b"");
        }
        Prefix::Name(name) => {
            push_cut(line, b":");
            push_cut(line, name);
            push_cut(line, b" ");
        }
        Prefix::Full { nick, user, host } => {
            push_cut(line, b":");
            push_full(line, nick, user, host);
            push_cut(line, b" ");
        }
    }
}

fn push_full(line: &mut Text, nick: &[u8], user: &[u8], host: &[u8])
    requires { array_vec_len line.old ≤ MAX_LINE }
    ensures pushed { line.new.items ≡ cut (line.old.items ++ full_name nick.now user.now host.now) }
    ensures still_cut { array_vec_len line.new ≤ MAX_LINE }
{
    push_cut(line, nick);
    push_cut(line, b"!");
    push_cut(line, user);
    push_cut(line, b"@");
    push_cut(line, host);
}

fn push_words(line: &mut Text, words: &[&[u8]])
    requires { array_vec_len line.old ≤ MAX_LINE }
    ensures pushed { line.new.items ≡ cut (line.old.items ++ middle_text (words_now words.now)) }
    ensures still_cut { array_vec_len line.new ≤ MAX_LINE }
{
    for word in words {
        push_cut(line, b" ");
        push_cut(line, word);
    }
}

fn push_last(line: &mut Text, last: Option<&[u8]>)
    requires { array_vec_len line.old ≤ MAX_LINE }
    ensures pushed { line.new.items ≡ cut (line.old.items ++ last_text (optional_now last.entry)) }
    ensures still_cut { array_vec_len line.new ≤ MAX_LINE }
{
    match last {
        None => push_cut(line, b""),
        Some(last) => {
            push_cut(line, b" :");
            push_cut(line, last);
        }
    }
}

/// A text without its CR LF.
pub fn body(text: &Text) -> &[u8]
    ensures line { (line : List ℕ) → text.now.items ≡ line ++ crlf → result.now ≡ line }
    // Anything else is given whole.
    ensures other { ((line : List ℕ) → text.now.items ≡ line ++ crlf → ⊥)
        → result.now ≡ text.now.items }
{
    let bytes = text.as_slice();
    bytes.strip_suffix(LINE_END).unwrap_or(bytes)
}
