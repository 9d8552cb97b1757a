//! The texts that people write.
ghost use Rattle.std.specs.Prelude.{◌≡◌, ◌≤◌, length};
ghost use Rattle.irc_channels.specs.Texts.{cut_words};

use arrayvec::ArrayVec;
use irc_names::{MAX_WORDS, copied, cut_copy};
use std::marker::Model;

/// A topic, or the text of a quit, a part or a kick: at most [`MAX_WORDS`] bytes (our own choice).
#[derive(Drop)]
pub struct Words(ArrayVec<u8, MAX_WORDS>);

/// In a clause it is the list of its bytes.
impl Model for Words {
    ghost use Rattle.std.specs.Prelude.{ℕ, List};
    ghost use Rattle.irc_channels.specs.Texts.{IsWords};

    ghost Value = { List ℕ };

    ghost view = { λ words. words.0.items };

    ghost invariant = { λ words. IsWords words.0.items };

    ghost inverse = { λ bytes. record { 0 = record { items = bytes } } };
}

impl Words {
    /// The text made of any bytes: those past [`MAX_WORDS`] are cut off.
    #[tactic(auto, unfolding(crate::specs::Texts::cut_words))]
    pub fn cut(bytes: &[u8]) -> Self
        ensures { result ≡ cut_words bytes.now }
    {
        Words(cut_copy(bytes))
    }

    /// Its bytes.
    pub fn as_bytes(&self) -> &[u8]
        ensures value { result.now ≡ self.now }
        ensures fits { length result.now ≤ MAX_WORDS }
    {
        self.0.as_slice()
    }

    /// The same text once more. It takes no memory and cannot fail.
    pub fn copy(&self) -> Self
        ensures { result ≡ self.now }
    {
        Words(copied(self.as_bytes()))
    }
}
