//! The texts that clients give.
ghost use Rattle.std.specs.Prelude.{◌≡◌, drop};
ghost use Rattle.irc_line.specs.PartViews.{words_now};
ghost use Rattle.irc_acts.specs.Acts.{client_words};
ghost use Rattle.irc_acts.specs.Words.{names_channel, reason_given, word_at};

use irc_channels::Words;
use irc_names::cut_copy;
use irc_numerics::ClientWords;

/// What a channel's name begins with (RFC 2812 section 1.3).
const HASH: u8 = b'#';

/// The parameter at a place, which is empty where a line has no more.
pub fn word_at<'a>(params: &[&'a [u8]], place: usize) -> &'a [u8]
    ensures { result.now ≡ word_at (words_now params.now) place }
{
    match params.get(place) {
        Some(word) => word,
        None => &[],
    }
}

/// The parameters behind the first ones, which are so many, or all that there are.
pub fn words_behind<'p, 'a>(params: &'p [&'a [u8]], first: usize) -> &'p [&'a [u8]]
    ensures { words_now result.now ≡ drop first (words_now params.now) }
{
    &params[first.min(params.len())..]
}

/// Whether a word stands for a channel: it begins with `#`.
pub fn names_channel(word: &[u8]) -> bool
    ensures { result ≡ names_channel word.now }
{
    match word.first() {
        Some(first) => *first == HASH,
        None => false,
    }
}

/// The first parameter, or another text where it is absent or empty; cut.
pub fn reason_given(params: &[&[u8]], other: &[u8]) -> Words
    ensures { result ≡ reason_given (words_now params.now) other.now }
{
    match params.first() {
        Some(given) if !given.is_empty() => Words::cut(given),
        _ => Words::cut(other),
    }
}

/// A client's own words, as much of them as a line holds.
#[tactic(auto, unfolding(irc_line::specs::Bytes::cut))]
pub fn client_words(words: &[u8]) -> ClientWords
    ensures { result ≡ client_words words.now }
{
    cut_copy(words)
}
