//! The members that an NJOIN names: nicknames with their marks, parted by commas (RFC 2813 section
//! 4.2.2). Nothing here takes memory.
ghost use Rattle.std.specs.Prelude.{◌≡◌, ◌<◌, Ok, Err, count_by, length, if◌then◌else◌};
ghost use Rattle.std.specs.List.{after_first, before_first, list_all, position_or_len, slice_split};
ghost use Rattle.irc_channels.specs.declared.flags.Flags.{Flags};
ghost use Rattle.irc_batch.specs.declared.close_reason.CloseReason.TheVariants.{BadName};
ghost use Rattle.irc_batch.specs.declared.close_reason.CloseReason.TheVariants.{Parameters};
ghost use Rattle.irc_burst.specs.DeedsMeant.{has_mark, is_comma, member_of, without_mark};
ghost use Rattle.irc_burst.specs.Loops.Deeds.{are_few, are_named, has_member_nick};

use irc_batch::CloseReason;
use irc_burst_lines::MEMBERS_A_LINE;
use irc_channels::Flags;
use irc_names::is_nick;

/// Refuses more members than one line may bring.
#[tactic(auto, using(crate::proofs::MemberWords::few_told))]
pub(crate) fn expect_few(text: &[u8]) -> Result<(), CloseReason>
    ensures { result ≡ (if are_few text.now then Ok tt else Err Parameters) }
{
    if commas(text) < MEMBERS_A_LINE {
        Ok(())
    } else {
        Err(CloseReason::Parameters)
    }
}

/// How many commas there are.
fn commas(text: &[u8]) -> usize
    ensures { result ≡ count_by is_comma text.now }
{
    text.iter().filter(|byte| **byte == b',').count()
}

/// Refuses members of whom one has no nickname.
#[tactic(auto, using(crate::proofs::MemberWords::nicks_told))]
pub(crate) fn expect_nicks(text: &[u8]) -> Result<(), CloseReason>
    ensures { result ≡ (if are_named text.now then Ok tt else Err BadName) }
{
    if are_nicks(text) {
        Ok(())
    } else {
        Err(CloseReason::BadName)
    }
}

/// Whether each word between commas is a nickname behind its marks.
fn are_nicks(text: &[u8]) -> bool
    ensures { result ≡ list_all has_member_nick (slice_split is_comma text.now) }
{
    let mut rest = text;
    while first_comma(rest) < rest.len() {
        if !has_nick(before_comma(rest)) {
            return false;
        }
        rest = after_comma(rest);
    }
    has_nick(rest)
}

/// What is before the first comma.
fn before_comma(text: &[u8]) -> &[u8]
    requires { position_or_len is_comma text.now < length text.now }
    ensures { result.now ≡ before_first is_comma text.now }
{
    &text[..first_comma(text)]
}

/// What is after the first comma.
fn after_comma(text: &[u8]) -> &[u8]
    requires { position_or_len is_comma text.now < length text.now }
    ensures { result.now ≡ after_first is_comma text.now }
{
    &text[first_comma(text) + 1..]
}

/// Where the first comma is, or how long the text is where there is none.
fn first_comma(text: &[u8]) -> usize
    ensures { result ≡ position_or_len is_comma text.now }
{
    text.iter().take_while(|byte| **byte != b',').count()
}

/// Whether a word is a nickname behind its marks.
fn has_nick(word: &[u8]) -> bool
    ensures { result ≡ has_member_nick word.now }
{
    is_nick(nick_of(word))
}

/// The nickname of a member.
pub(crate) fn nick_of(word: &[u8]) -> &[u8]
    ensures { result.now ≡ (member_of word.now).0 }
{
    without_mark(b'+', without_mark(b'@', word))
}

/// What a member may do.
pub(crate) fn flags_of(word: &[u8]) -> Flags
    ensures { result ≡ (member_of word.now).1 }
{
    Flags {
        op: has_mark(b'@', word),
        voice: has_mark(b'+', without_mark(b'@', word)),
    }
}

/// Whether a word begins with a mark.
fn has_mark(mark: u8, word: &[u8]) -> bool
    ensures { result ≡ has_mark mark word.now }
{
    match word.first() {
        Some(first) => *first == mark,
        None => false,
    }
}

/// A word without this mark in front.
fn without_mark(mark: u8, word: &[u8]) -> &[u8]
    ensures { result.now ≡ without_mark mark word.now }
{
    match word.split_first() {
        Some((first, rest)) if *first == mark => rest,
        _ => word,
    }
}
