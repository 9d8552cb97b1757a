//! What is told of users who are away.
ghost use Rattle.std.specs.Prelude.{◌≡◌, ◌≤◌, length};
ghost use Rattle.std.specs.Option.{SomeIff};
ghost use Rattle.irc_names.specs.UserTexts.{IsAway};

use crate::{MAX_WORDS, copied, is_away};
use arrayvec::ArrayVec;
use std::marker::Model;

/// What is told of a user who is away, which [`is_away`] takes (RFC 2812 section 4.1).
#[derive(Drop)]
pub struct AwayText(ArrayVec<u8, MAX_WORDS>);

/// In a clause it is the list of its bytes.
impl Model for AwayText {
    ghost use Rattle.std.specs.Prelude.{ℕ, List};
    ghost use Rattle.irc_names.specs.UserTexts.{IsAway};

    ghost Value = { List ℕ };

    ghost view = { λ text. text.0.items };

    ghost invariant = { λ text. IsAway text.0.items };

    ghost inverse = { λ bytes. record { 0 = record { items = bytes } } };
}

impl AwayText {
    /// The text that these bytes are, where [`is_away`] takes them.
    #[tactic(auto, using(crate::specs::Lemmas::RuleFacts::lengths))]
    pub fn read(bytes: &[u8]) -> Option<Self>
        ensures { SomeIff result (IsAway bytes.now) bytes.now }
    {
        if is_away(bytes) {
            Some(AwayText(copied(bytes)))
        } else {
            None
        }
    }

    /// Its bytes.
    pub fn as_bytes(&self) -> &[u8]
        ensures value { result.now ≡ self.now }
        ensures rule { IsAway self.now }
        ensures fits { length result.now ≤ MAX_WORDS }
    {
        self.0.as_slice()
    }

    /// The same text once more. It takes no memory and cannot fail.
    pub fn copy(&self) -> Self
        ensures { result ≡ self.now }
    {
        AwayText(copied(self.as_bytes()))
    }
}
