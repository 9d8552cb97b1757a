//! Real names.
ghost use Rattle.std.specs.Prelude.{◌≡◌, ◌≤◌, length};
ghost use Rattle.irc_names.specs.UserTexts.{cut_real, IsRealName};

use crate::{MAX_REAL_NAME, copied, cut_copy};
use arrayvec::ArrayVec;
use std::marker::Model;

/// A real name: at most [`MAX_REAL_NAME`] bytes (our own choice).
#[derive(Drop)]
pub struct RealName(ArrayVec<u8, MAX_REAL_NAME>);

/// In a clause it is the list of its bytes.
impl Model for RealName {
    ghost use Rattle.std.specs.Prelude.{ℕ, List};
    ghost use Rattle.irc_names.specs.UserTexts.{IsRealName};

    ghost Value = { List ℕ };

    ghost view = { λ name. name.0.items };

    ghost invariant = { λ name. IsRealName name.0.items };

    ghost inverse = { λ bytes. record { 0 = record { items = bytes } } };
}

impl RealName {
    /// The real name made of any bytes: those past [`MAX_REAL_NAME`] are cut off.
    #[tactic(auto, unfolding(crate::specs::UserTexts::cut_real))]
    pub fn cut(bytes: &[u8]) -> Self
        ensures { result ≡ cut_real bytes.now }
    {
        RealName(cut_copy(bytes))
    }

    /// Its bytes.
    pub fn as_bytes(&self) -> &[u8]
        ensures value { result.now ≡ self.now }
        ensures rule { IsRealName self.now }
        ensures fits { length result.now ≤ MAX_REAL_NAME }
    {
        self.0.as_slice()
    }

    /// The same name once more.
    pub fn copy(&self) -> Self
        ensures { result ≡ self.now }
    {
        RealName(copied(self.as_bytes()))
    }
}
