//! Replies written as lines.
ghost use Rattle.std.specs.Prelude.{◌≡◌, ◌+◌, ◌<◌, [], ◌∷◌, ◌++◌, map};
ghost use Rattle.irc_line.specs.Bytes.{cut, space};
ghost use Rattle.irc_line.specs.MessageViews.{optional_now};
ghost use Rattle.irc_numerics.specs.Loops.Heads.{line_behind, row_now, one_text, piece_now};
ghost use Rattle.irc_numerics.specs.Replies.{reply_text, three_digits, mark_text};

use crate::pieces::{Piece, push_each, push_text};
use crate::replies::{ClientWords, MemberMark, Reply};
use crate::table::table_line;
use arrayvec::ArrayVec;
use irc_line::limits::MAX_LINE;
use irc_line::{Line, Prefix, Text, push_cut, push_prefix};
use irc_names::{ChannelName, Nick, ServerName, first_bytes};

const NO_NAME: &[u8] = b"*";

const LINE_END: &[u8] = b"\r\n";

/// The first number that has more than three digits.
const END_OF_NUMBERS: u16 = 1000;

/// The line of a reply to a client, from its own server (RFC 2812 section 5). The reply name is the
/// client's nickname, or `*` before it has one. A line that would be longer than a line can be is
/// cut.
#[tactic(auto, unfolding(crate::specs::Loops::Heads::line_behind, crate::specs::Replies::reply_number, crate::specs::Replies::words))]
pub fn reply_line(server: &ServerName, nick: Option<&Nick>, reply: &Reply) -> Text
    ensures { result.items ≡ reply_text server.now (optional_now nick.entry) reply.now }
{
    let name = match nick {
        None => NO_NAME,
        Some(nick) => nick.as_bytes(),
    };
    let head = ReplyHead {
        server: server.as_bytes(),
        name,
    };
    table_line(head, reply)
}

/// What is the same in each reply to a client: its server's name, and the reply name.
#[derive(Clone, Copy)]
pub(crate) struct ReplyHead<'a> {
    pub(crate) server: &'a [u8],
    pub(crate) name: &'a [u8],
}

impl ReplyHead<'_> {
    /// The line of a row of a text of the server's own.
    pub(crate) fn said(self, number: u16, text: &str) -> Text
        requires { number < END_OF_NUMBERS }
        ensures { result.items ≡ line_behind self.entry (one_text number [] text.now) }
    {
        self.says(number, &[], text)
    }

    /// The line of a row of a channel and such a text.
    pub(crate) fn on(self, number: u16, channel: &ChannelName, text: &str) -> Text
        requires { number < END_OF_NUMBERS }
        ensures { result.items
            ≡ line_behind self.entry (one_text number (channel.now ∷ []) text.now) }
    {
        self.says(number, &[Piece::Bytes(channel.as_bytes())], text)
    }

    /// The line of a row of a client's words and such a text.
    pub(crate) fn about(self, number: u16, words: &ClientWords, text: &str) -> Text
        requires { number < END_OF_NUMBERS }
        ensures { result.items
            ≡ line_behind self.entry (one_text number (words.now.items ∷ []) text.now) }
    {
        self.says(number, &[Piece::Bytes(words)], text)
    }

    /// The line of a row of words and such a text.
    pub(crate) fn says(self, number: u16, words: &[Piece<'_>], text: &str) -> Text
        requires { number < END_OF_NUMBERS }
        ensures { result.items
            ≡ line_behind self.entry (one_text number (map piece_now words.now) text.now) }
    {
        self.row(number, words, Some(&[Piece::Bytes(text.as_bytes())]))
    }

    /// The line of a row: a number, words, and the pieces of a text.
    #[tactic(auto, unfolding(crate::specs::Loops::Heads::line_behind))]
    pub(crate) fn row(self, number: u16, words: &[Piece<'_>], text: Option<&[Piece<'_>]>) -> Text
        requires { number < END_OF_NUMBERS }
        ensures { result.items ≡ line_behind self.entry (row_now number words.now text.entry) }
    {
        let mut line = ArrayVec::new();
        push_prefix(&mut line, &Prefix::Name(self.server));
        push_cut(&mut line, &digits_of(number));
        push_cut(&mut line, b" ");
        push_cut(&mut line, self.name);
        push_each(&mut line, b" ", words);
        push_text(&mut line, text);
        let _ = line.try_extend_from_slice(LINE_END);
        line
    }
}

fn digits_of(number: u16) -> [u8; 3]
    requires { number < END_OF_NUMBERS }
    ensures { result ≡ three_digits number }
{
    [
        digit(number / 100),
        digit(number / 10 % 10),
        digit(number % 10),
    ]
}

fn digit(value: u16) -> u8
    requires { value < 10 }
    ensures { result ≡ 48 + value }
{
    b'0' + value as u8
}

/// Appends bytes, and drops those past [`MAX_LINE`].
fn push(text: &mut Line, bytes: &[u8])
    ensures { text.new.items ≡ cut (text.old.items ++ bytes.now) }
{
    let room = MAX_LINE - text.len();
    let _ = text.try_extend_from_slice(first_bytes(bytes, room));
}

/// Appends an entry of a list, which one space parts from the entry before it.
pub(crate) fn push_entry(text: &mut Line, place: usize, mark: MemberMark, name: &[u8])
    ensures first { place ≡ 0
        → text.new.items ≡ cut (text.old.items ++ (mark_text mark ++ name.now)) }
    ensures later { 0 < place
        → text.new.items ≡ cut (text.old.items ++ (space ∷ (mark_text mark ++ name.now))) }
{
    if place == 0 {
        push_marked(text, mark, name);
    } else {
        push(text, b" ");
        push_marked(text, mark, name);
    }
}

/// Appends a name behind its mark.
fn push_marked(text: &mut Line, mark: MemberMark, name: &[u8])
    ensures { text.new.items ≡ cut (text.old.items ++ (mark_text mark ++ name.now)) }
{
    push(text, mark.as_bytes());
    push(text, name);
}
