//! A user.
ghost use Rattle.std.specs.Prelude.{◌≡◌};
ghost use Rattle.irc_users.specs.UserTable.{is_home, is_found_by, new_user, nothing_set};

use irc_names::{AwayText, Host, Nick, RealName, ServerName, UserName, mask_matches};

/// What a user has set of itself, but for mode i.
#[derive(Drop)]
pub struct UserSet {
    /// What is told of it, where it is away (RFC 2812 section 4.1).
    pub away: Option<AwayText>,
}

impl UserSet {
    /// Nothing.
    pub fn fresh() -> Self
        ensures { result ≡ nothing_set }
    {
        UserSet { away: None }
    }

    /// The same once more.
    pub fn copy(&self) -> Self
        ensures { result ≡ self.now }
    {
        UserSet {
            away: away_copy(&self.away),
        }
    }
}

/// The same text once more, where there is one.
pub(crate) fn away_copy(text: &Option<AwayText>) -> Option<AwayText>
    ensures { result ≡ text.now }
{
    match text {
        Some(text) => Some(text.copy()),
        None => None,
    }
}

/// A registered user (RFC 2812 sections 3.1.2 and 3.1.3).
#[derive(Drop)]
pub struct User {
    /// Its nickname, as spelled.
    pub nick: Nick,
    /// Its user name.
    pub user: UserName,
    /// The host that it connected from.
    pub host: Host,
    /// Its real name.
    pub real: RealName,
    /// The server that it is connected to.
    pub home: ServerName,
    /// Whether it has set mode i.
    pub invisible: bool,
    /// What it has set beside that.
    pub set: UserSet,
}

impl User {
    /// A user who has set nothing of itself.
    pub fn new(nick: Nick, user: UserName, host: Host, real: RealName, home: ServerName) -> Self
        ensures { result ≡ new_user nick user host real home }
    {
        User {
            nick,
            user,
            host,
            real,
            home,
            invisible: false,
            set: UserSet::fresh(),
        }
    }

    /// The same user once more.
    pub fn copy(&self) -> Self
        ensures { result ≡ self.now }
    {
        User {
            nick: self.nick.copy(),
            user: self.user.copy(),
            host: self.host.copy(),
            real: self.real.copy(),
            home: self.home.copy(),
            invisible: self.invisible,
            set: self.set.copy(),
        }
    }

    /// Whether it is connected to a server.
    pub fn is_home(&self, home: &ServerName) -> bool
        ensures { result ≡ is_home home.now self.now }
    {
        self.home.as_bytes() == home.as_bytes()
    }

    /// Whether a mask matches its nickname, its host, its server or its real name. Any bytes are a
    /// mask (RFC 2812 section 3.6.1).
    pub fn is_found_by(&self, mask: &[u8]) -> bool
        ensures { result ≡ is_found_by mask.now self.now }
    {
        mask_matches(mask, self.nick.as_bytes())
            || mask_matches(mask, self.host.as_bytes())
            || mask_matches(mask, self.home.as_bytes())
            || mask_matches(mask, self.real.as_bytes())
    }
}
