//! The words by which two ends agree, behind the options of PASS (RFC 2813 section 4.1.1):
//! `PASS pw 0210010001 TREE| away1 exact1`.
ghost use Rattle.std.specs.Prelude.{◌≡◌};
ghost use Rattle.irc_link_end.specs.Offers.{has_words, offer_in, with_words, without_words, words};

use arrayvec::ArrayVec;
use irc_line::{Text, push_cut};

const PASS: &[u8] = b"PASS ";

const LINE_END: &[u8] = b"\r\n";

/// What a PASS offers by words.
#[derive(Clone, Copy, Debug, Drop, PartialEq, Eq)]
pub enum Offer {
    /// ` exact1`: pieces are counted.
    Pieces,
    /// ` away1 exact1`: pieces are counted, and lines tell who is away.
    Away,
}

fn words(offer: Offer) -> &'static [u8]
    ensures { result.now ≡ words offer }
{
    match offer {
        Offer::Pieces => b" exact1",
        Offer::Away => b" away1 exact1",
    }
}

/// The PASS of an end that offers something: this line, without its CR LF, with the words behind
/// it, and CR LF.
pub fn with_words(offer: Offer, line: &[u8]) -> Text
    ensures { result.items ≡ with_words offer line.now }
{
    let mut text = ArrayVec::new();
    push_cut(&mut text, line);
    push_cut(&mut text, words(offer));
    let _ = text.try_extend_from_slice(LINE_END);
    text
}

/// What a line offers, without its CR LF, if it is a PASS with words.
pub fn offer_in(line: &[u8]) -> Option<Offer>
    ensures { result ≡ offer_in line.now }
{
    if has_words(Offer::Away, line) {
        Some(Offer::Away)
    } else if has_words(Offer::Pieces, line) {
        Some(Offer::Pieces)
    } else {
        None
    }
}

/// Whether a line is a PASS with these words.
fn has_words(offer: Offer, line: &[u8]) -> bool
    ensures { result ≡ has_words offer line.now }
{
    line.starts_with(PASS) && line.ends_with(words(offer))
}

/// What is left of a PASS without the words that it has; both without CR LF.
pub fn without_words(offer: Offer, line: &[u8]) -> &[u8]
    ensures { result.now ≡ without_words offer line.now }
{
    &line[..line.len().saturating_sub(words(offer).len())]
}
