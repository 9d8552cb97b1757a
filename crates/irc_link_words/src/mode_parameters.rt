//! The words of changes of a channel's modes, by the rules of their letters (RFC 2811 section 4).
ghost use Rattle.std.specs.Prelude.{◌≡◌, Ok, Err, decimal, if◌then◌else◌};
ghost use Rattle.std.specs.List.{list_all};
ghost use Rattle.std.specs.Str.{bytes_eq};
ghost use Rattle.irc_batch.specs.declared.close_reason.CloseReason.TheVariants.{BadName};
ghost use Rattle.irc_modes.specs.Readable.{has_its_word, has_parameter, is_parameter};
ghost use Rattle.irc_modes.specs.Readable.{is_written_limit};
ghost use Rattle.irc_link_words.specs.Words.{are_members_named, keeps_word, names_nick};

use irc_batch::CloseReason;
use irc_modes::{ModeChange, ModeLetter, read_limit};
use irc_names::{is_ban_mask, is_key, is_nick};
use itoa::Buffer;

/// Refuses changes of which o or v has a word that is no nickname.
///
/// # Errors
/// [`CloseReason::BadName`] where one has.
pub fn expect_members(changes: &[ModeChange]) -> Result<(), CloseReason>
    ensures { result ≡ (if are_members_named changes.now then Ok tt else Err BadName) }
{
    if are_members_named(changes) {
        Ok(())
    } else {
        Err(CloseReason::BadName)
    }
}

fn are_members_named(changes: &[ModeChange]) -> bool
    ensures { result ≡ are_members_named changes.now }
{
    changes.iter().all(|change| names_nick(change))
}

fn names_nick(change: &ModeChange) -> bool
    ensures { result ≡ names_nick change.now }
{
    if change.letter.names_member() {
        has_its_word(change)
    } else {
        true
    }
}

/// Whether each change has a word where its letter takes one, by the rule of that letter; of o and
/// v it is not asked whether it is a nickname.
pub(crate) fn keep_words(changes: &[ModeChange]) -> bool
    ensures { result ≡ list_all keeps_word changes.now }
{
    changes.iter().all(|change| keeps_word(change))
}

fn keeps_word(change: &ModeChange) -> bool
    ensures { result ≡ keeps_word change.now }
{
    if change.letter.names_member() {
        change.word.is_some()
    } else {
        has_its_word(change)
    }
}

fn has_its_word(change: &ModeChange) -> bool
    ensures { result ≡ has_its_word change.now }
{
    match &change.word {
        Some(word) => {
            has_parameter(change.plus, change.letter)
                && is_parameter(change.letter, word.as_bytes())
        }
        None => !has_parameter(change.plus, change.letter),
    }
}

/// Whether a letter is written with a word, behind this sign.
fn has_parameter(plus: bool, letter: ModeLetter) -> bool
    ensures { result ≡ has_parameter plus letter }
{
    match letter {
        ModeLetter::Key => true,
        ModeLetter::Limit => plus,
        ModeLetter::Ban => true,
        ModeLetter::Operator => true,
        ModeLetter::Voice => true,
        _ => false,
    }
}

/// Whether a word is a key, a limit, a mask or a nickname, as its letter wants it.
fn is_parameter(letter: ModeLetter, word: &[u8]) -> bool
    ensures { result ≡ is_parameter letter word.now }
{
    match letter {
        ModeLetter::Key => is_key(word),
        ModeLetter::Limit => is_written_limit(word),
        ModeLetter::Ban => is_ban_mask(word),
        ModeLetter::Operator => is_nick(word),
        ModeLetter::Voice => is_nick(word),
        _ => false,
    }
}

/// Whether digits are a limit as it is written: without leading zeros.
fn is_written_limit(digits: &[u8]) -> bool
    ensures { result ≡ is_written_limit digits.now }
{
    match read_limit(digits) {
        Some(limit) => is_written_so(limit, digits),
        None => false,
    }
}

/// Whether digits are those that a number is written with.
fn is_written_so(number: u16, digits: &[u8]) -> bool
    ensures { result ≡ bytes_eq digits.now (decimal number) }
{
    let mut buffer = Buffer::new();
    digits == buffer.format(number).as_bytes()
}
