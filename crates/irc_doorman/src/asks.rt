//! What is asked of clients.
ghost use Rattle.std.specs.Prelude.{◌≡◌};
ghost use Rattle.irc_doorman.specs.Guests.{asks_anything, is_right};

use crate::password::ClientPassword;
use irc_names::ServerName;

/// What is asked of clients.
#[derive(Drop)]
pub struct Asks {
    /// The server's name, which stands before what is said to them.
    pub server: ServerName,
    /// The password that each has to give, if one is asked for.
    pub password: Option<ClientPassword>,
    /// After how many seconds one that says nothing is asked whether it is there, if it is.
    pub ping_after: Option<u16>,
}

impl Asks {
    /// Whether anything is asked.
    pub(crate) fn asks_anything(&self) -> bool
        ensures { result ≡ asks_anything self.now }
    {
        self.password.is_some() || self.ping_after.is_some()
    }

    /// Whether a word is the password that is asked for; any is where none is.
    pub(crate) fn is_password(&self, word: &[u8]) -> bool
        ensures { result ≡ is_right self.now.password word.now }
    {
        match &self.password {
            Some(password) => password.is(word),
            None => true,
        }
    }
}
