//! What a user changes of itself, as the words of a MODE (RFC 2812 section 3.1.5).
ghost use Rattle.std.specs.Prelude.{◌≡◌, if◌then◌else◌, None, Some};
ghost use Rattle.irc_line.specs.MessageViews.{optional_now};
ghost use Rattle.irc_line.specs.PartViews.{words_now};
ghost use Rattle.irc_names.specs.UserTexts.{is_away};
ghost use Rattle.irc_users.specs.declared.user_change.UserChange.TheVariants.{Away};
ghost use Rattle.irc_link_words.specs.UserChanges.{change_letters, change_text, user_change_of};

use crate::words::{is_with_a, is_with_i, is_without_a, is_without_i};
use irc_names::AwayText;
use irc_users::UserChange;

/// The letters of a change.
pub fn change_letters(change: &UserChange) -> &'static [u8]
    ensures { result.now ≡ change_letters change.now }
{
    match change {
        UserChange::Invisible(true) => b"+i",
        UserChange::Invisible(false) => b"-i",
        UserChange::Away(Some(_)) => b"+a",
        UserChange::Away(None) => b"-a",
    }
}

/// The text behind them, where the change has one.
pub fn change_text(change: &UserChange) -> Option<&[u8]>
    ensures { optional_now result ≡ change_text change.now }
{
    match change {
        UserChange::Away(Some(text)) => Some(text.as_bytes()),
        UserChange::Invisible(_) | UserChange::Away(None) => None,
    }
}

/// The change that these words behind the nickname tell of, if they tell of one.
pub fn read_user_change(words: &[&[u8]]) -> Option<UserChange>
    ensures { result ≡ user_change_of (words_now words.now) }
{
    match words {
        [letters] if is_with_i(letters) => Some(UserChange::Invisible(true)),
        [letters] if is_without_i(letters) => Some(UserChange::Invisible(false)),
        [letters] if is_without_a(letters) => Some(UserChange::Away(None)),
        [letters, text] if is_with_a(letters) => read_away(text),
        _ => None,
    }
}

/// That a user is away, with this text, if it can be one.
fn read_away(text: &[u8]) -> Option<UserChange>
    ensures { result ≡ (if is_away text.now then Some (Away (Some text.now)) else None) }
{
    match AwayText::read(text) {
        Some(text) => Some(UserChange::Away(Some(text))),
        None => None,
    }
}
