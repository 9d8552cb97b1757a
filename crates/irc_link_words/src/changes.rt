//! Changes of modes, as the words of a MODE tell of them (RFC 2812 section 3.2.3).
ghost use Rattle.std.specs.Prelude.{◌≡◌, ◌≤◌, drop, length, true, IfOk, OnOk, Some};
ghost use Rattle.std.specs.List.{list_all};
ghost use Rattle.std.specs.Option.{IfSome};
ghost use Rattle.std.specs.Cmp.Lexicographic.{pointwise};
ghost use Rattle.std.specs.Str.{bytes_eq};
ghost use Rattle.irc_line.specs.PartViews.{words_now};
ghost use Rattle.irc_modes.specs.ModeViews.{asked};
ghost use Rattle.irc_modes.specs.ModeWritten.{changes_written, letter_text, letters_text};
ghost use Rattle.irc_link_words.specs.Loops.Changes.{Grew, IsKeptWord, behind_bytes, behind_word};
ghost use Rattle.irc_link_words.specs.Loops.Changes.{bytes_left, if_written, words_left};
ghost use Rattle.irc_link_words.specs.Words.{changes_of, is_mode_word, made, parameters};
ghost use Rattle.irc_link_words.specs.Words.{told_changes};

use crate::mode_parameters::keep_words;
use crate::words::is_mode_word;
use irc_modes::{ModeChange, ModeItem, read_modes, sign_text};
use irc_room::ModeChanges;
use std::alloc::{AllocError, Global};

/// The changes that words tell of, where these are what the changes are written as, and the words
/// of the changes keep the rules of their letters. Whether o and v name members by nicknames is not
/// looked at.
///
/// # Errors
/// Where memory runs out.
pub fn read_changes(alloc: Global, words: &[&[u8]]) -> Result<Option<ModeChanges>, AllocError>
    ensures { IfOk result (λ changes. changes ≡ told_changes (words_now words.now)) }
{
    if !are_mode_words(words) {
        return Ok(None);
    }
    let changes = read_kept(alloc, words)?;
    Ok(written_so(words, changes))
}

/// The changes, where their words keep their rules and they are written as these words.
fn written_so(words: &[&[u8]], changes: Vec<ModeChange, Global>) -> Option<ModeChanges>
    ensures { result ≡ if_written changes.items (words_now words.now) }
{
    if keep_words(changes.as_slice()) && are_written(changes.as_slice(), words) {
        Some(ModeChanges::new(changes))
    } else {
        None
    }
}

/// Whether words are the letters of changes, and behind them their parameters.
fn are_written(changes: &[ModeChange], words: &[&[u8]]) -> bool
    ensures { result ≡ pointwise bytes_eq (changes_written changes.now) (words_now words.now) }
{
    match words.split_first() {
        Some((first, more)) => are_letters_of(changes, first) && are_words_of(changes, more),
        None => false,
    }
}

/// Whether each of the words can be one of a MODE.
fn are_mode_words(words: &[&[u8]]) -> bool
    ensures { result ≡ list_all is_mode_word (words_now words.now) }
{
    pass_as_mode_words(words)
}

/// The same, word by word where each lies.
fn pass_as_mode_words(words: &[&[u8]]) -> bool
    ensures { result ≡ list_all (λ word. is_mode_word word.now) words.now }
{
    words.iter().all(|word| is_mode_word(word))
}

/// The changes that words of a MODE ask for, in order.
fn read_kept(alloc: Global, words: &[&[u8]]) -> Result<Vec<ModeChange, Global>, AllocError>
    requires { list_all is_mode_word (words_now words.now) ≡ true }
    ensures { IfOk result (λ changes. changes.items ≡ changes_of (words_now words.now)) }
{
    let items = read_modes(alloc, words)?;
    let mut changes = Vec::new(alloc);
    for item in items.as_slice() {
        push_made(&mut changes, *item)?;
    }
    Ok(changes)
}

/// Appends the change that is asked for, if it is one.
fn push_made(changes: &mut Vec<ModeChange, Global>, item: ModeItem<'_>) -> Result<(), AllocError>
    requires { IsKeptWord (asked item) }
    ensures { OnOk result (Grew changes.old.items (made (asked item.entry)) changes.new.items) }
{
    if let ModeItem::Change(asked) = item {
        if let Some(change) = asked.kept() {
            changes.push(change)?;
        }
    }
    Ok(())
}

/// Whether a word is the letters of changes in order, with a sign before the first and wherever it
/// differs from the one before.
fn are_letters_of(changes: &[ModeChange], word: &[u8]) -> bool
    ensures { result ≡ bytes_eq (letters_text changes.now) word.now }
{
    let mut sign = None;
    let mut used = 0;
    for change in changes {
        let Some(more) = used_by_letter(sign, change, word, used) else {
            return false;
        };
        used = more;
        sign = Some(change.plus);
    }
    used == word.len()
}

/// How many bytes of a word are used once a change has taken its sign and its letter, where these
/// are the next of them.
fn used_by_letter(
    sign: Option<bool>,
    change: &ModeChange,
    word: &[u8],
    used: usize,
) -> Option<usize>
    requires { used ≤ length word.now }
    ensures bytes { bytes_left word.now result ≡ behind_bytes (letter_text sign change.now)
        (drop used word.now) }
    ensures within { IfSome result (λ n. n ≤ length word.now) }
{
    let signed = used_by_bytes(sign_text(sign, change.plus), word, used)?;
    used_by_bytes(&[change.letter.byte()], word, signed)
}

/// How many bytes of a word are used once these are taken, where they are the next of them.
fn used_by_bytes(bytes: &[u8], word: &[u8], used: usize) -> Option<usize>
    requires { used ≤ length word.now }
    ensures bytes { bytes_left word.now result ≡ behind_bytes bytes.now (drop used word.now) }
    ensures within { IfSome result (λ n. n ≤ length word.now) }
{
    if word[used..].starts_with(bytes) {
        Some(used + bytes.len())
    } else {
        None
    }
}

/// Whether words are the parameters of changes, in order.
fn are_words_of(changes: &[ModeChange], words: &[&[u8]]) -> bool
    ensures { result ≡ pointwise bytes_eq (parameters changes.now) (words_now words.now) }
{
    let mut used = 0;
    for change in changes {
        let Some(more) = used_by(change, words, used) else {
            return false;
        };
        used = more;
    }
    used == words.len()
}

/// How many words are used once a change has taken its parameter, where that is the next of them.
fn used_by(change: &ModeChange, words: &[&[u8]], used: usize) -> Option<usize>
    requires { used ≤ length words.now }
    ensures words { words_left words.now result ≡ behind_word change.now.word
        (words_now (drop used words.now)) }
    ensures within { IfSome result (λ n. n ≤ length words.now) }
{
    match &change.word {
        None => Some(used),
        Some(word) => used_by_word(word.as_bytes(), words, used),
    }
}

/// How many words are used once a parameter is taken, where that is the next of them.
fn used_by_word(word: &[u8], words: &[&[u8]], used: usize) -> Option<usize>
    requires { used ≤ length words.now }
    ensures words { words_left words.now result ≡ behind_word (Some word.now)
        (words_now (drop used words.now)) }
    ensures within { IfSome result (λ n. n ≤ length words.now) }
{
    if used == words.len() {
        return None;
    }
    if word == words[used] {
        Some(used + 1)
    } else {
        None
    }
}
