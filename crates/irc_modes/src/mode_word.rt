//! The parameter of a mode.
ghost use Rattle.std.specs.Prelude.{◌≡◌, ◌≤◌, length};
ghost use Rattle.std.specs.Option.{SomeIff};
ghost use Rattle.irc_modes.specs.Texts.{IsModeWord};

use crate::MAX_MODE_WORD;
use arrayvec::ArrayVec;
use irc_names::copied;
use std::marker::Model;

/// The parameter of a mode: a nickname, a key, a limit or a mask, as it is written, of at most
/// [`MAX_MODE_WORD`] bytes.
#[derive(Drop)]
pub struct ModeWord(ArrayVec<u8, MAX_MODE_WORD>);

/// In a clause it is the list of its bytes.
impl Model for ModeWord {
    ghost use Rattle.std.specs.Prelude.{ℕ, List};
    ghost use Rattle.irc_modes.specs.Texts.{IsModeWord};

    ghost Value = { List ℕ };

    ghost view = { λ word. word.0.items };

    ghost invariant = { λ word. IsModeWord word.0.items };

    ghost inverse = { λ bytes. record { 0 = record { items = bytes } } };
}

impl ModeWord {
    /// The word that these bytes are, where they are no more than [`MAX_MODE_WORD`].
    pub fn read(bytes: &[u8]) -> Option<Self>
        ensures { SomeIff result (IsModeWord bytes.now) bytes.now }
    {
        if bytes.len() <= MAX_MODE_WORD {
            Some(ModeWord(copied(bytes)))
        } else {
            None
        }
    }

    /// The bytes of the word.
    pub fn as_bytes(&self) -> &[u8]
        ensures value { result.now ≡ self.now }
        ensures fits { length result.now ≤ MAX_MODE_WORD }
    {
        self.0.as_slice()
    }

    /// The same word once more. It takes no memory and cannot fail.
    pub fn copy(&self) -> Self
        ensures { result ≡ self.now }
    {
        ModeWord(copied(self.as_bytes()))
    }
}
