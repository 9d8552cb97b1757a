//! What a user changes of itself.
ghost use Rattle.std.specs.Prelude.{◌≡◌};
ghost use Rattle.irc_users.specs.UserTable.{is_shown, with_change};

use crate::user::{User, away_copy};
use irc_names::AwayText;

/// A change of what a user has set of itself (RFC 2812 sections 3.1.5 and 4.1).
#[derive(Drop)]
pub enum UserChange {
    /// Mode i: whether it is set.
    Invisible(bool),
    /// What is told of it while it is away; without a text it is back.
    Away(Option<AwayText>),
}

impl UserChange {
    /// The same change once more.
    pub fn copy(&self) -> Self
        ensures { result ≡ self.now }
    {
        match self {
            UserChange::Invisible(invisible) => UserChange::Invisible(*invisible),
            UserChange::Away(text) => UserChange::Away(away_copy(text)),
        }
    }

    /// Makes it in the user.
    pub(crate) fn set_in(&self, user: &mut User)
        ensures { user.new ≡ with_change self.now user.old }
    {
        match self {
            UserChange::Invisible(invisible) => user.invisible = *invisible,
            UserChange::Away(text) => user.set.away = away_copy(text),
        }
    }

    /// Whether the user is told of it by a line of its own, as of mode i (RFC 2812 section 3.1.5).
    /// Who is away is told so by a reply (section 4.1).
    pub fn is_shown(&self) -> bool
        ensures { result ≡ is_shown self.now }
    {
        match self {
            UserChange::Invisible(_) => true,
            UserChange::Away(_) => false,
        }
    }
}
