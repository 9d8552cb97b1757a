//! The ends of a server's links. What an end knows of the other, by the two lines with which that
//! begins (RFC 2813 section 4.1):
//!
//! ```text
//! Fresh  --- PASS --->  PasswordKnown  --- SERVER --->  Met: the link counts
//! ```
//!
//! The end that calls writes its own two as the link is opened, and the end that is called as that
//! SERVER comes. Until a link counts, an empty line is nothing, and any other line closes it, as
//! does a SERVER of one that may not link.
ghost use Rattle.std.specs.Prelude.{◌≡◌, Some};
ghost use Rattle.std.specs.Option.{option_copied};
ghost use Rattle.irc_stage.specs.Ends.{fresh_end, is_met};
ghost use Rattle.irc_stage.specs.Loops.Handshakes.{far_in, password_in};

use irc_link_words::Password;
use irc_names::ServerName;
use std::marker::Model;
use std::mem;

/// How far the handshake has come: the picture above.
#[derive(Drop)]
enum Handshake {
    /// Nothing has come.
    Fresh,
    /// PASS has come, with this password.
    PasswordKnown(Password),
    /// SERVER has come: the link counts.
    Met {
        /// The password that was given, if any was.
        password: Option<Password>,
        /// The server that has named itself.
        far: ServerName,
    },
}

/// One end of an open link (RFC 2813 section 4.1).
#[derive(Drop)]
pub struct LinkEnd {
    starts: Option<ServerName>,
    handshake: Handshake,
}

/// In a clause it is what this end knows of the other.
impl Model for LinkEnd {
    ghost use Rattle.irc_stage.specs.Ends.{End};
    ghost use Rattle.irc_stage.specs.Loops.Handshakes.{far_in, password_in};

    ghost Value = { End };

    ghost view = { λ e. record {
      starts = e.starts;
      password = password_in e.handshake;
      far = far_in e.handshake;
    } };
}

impl LinkEnd {
    /// An end at which nothing has come yet. It calls the server of this name, or is called.
    pub fn new(starts: Option<ServerName>) -> Self
        ensures { result ≡ fresh_end starts }
    {
        LinkEnd {
            starts,
            handshake: Handshake::Fresh,
        }
    }

    /// The server that this end calls; none where it is called.
    pub fn starts(&self) -> Option<&ServerName>
        ensures { option_copied result ≡ self.now.starts }
    {
        self.starts.as_ref()
    }

    /// The password that the other end has given, if it has.
    pub fn password(&self) -> Option<&Password>
        ensures { option_copied result ≡ self.now.password }
    {
        match &self.handshake {
            Handshake::Fresh => None,
            Handshake::PasswordKnown(password) => Some(password),
            Handshake::Met { password, .. } => password.as_ref(),
        }
    }

    /// The server at the other end, once it has named itself.
    pub fn far(&self) -> Option<&ServerName>
        ensures { option_copied result ≡ self.now.far }
    {
        match &self.handshake {
            Handshake::Met { far, .. } => Some(far),
            _ => None,
        }
    }

    /// Whether the server at the other end has named itself: from then on the link counts.
    pub fn is_met(&self) -> bool
        ensures { result ≡ is_met self.now }
    {
        matches!(self.handshake, Handshake::Met { .. })
    }

    /// The other end has given this password.
    pub fn take_password(&mut self, password: Password)
        ensures { self.new ≡ record self.old { password = Some password } }
    {
        let before = mem::replace(&mut self.handshake, Handshake::Fresh);
        self.handshake = before.with_password(password);
    }

    /// The server at the other end has named itself so.
    pub fn meet(&mut self, name: ServerName)
        ensures { self.new ≡ record self.old { far = Some name } }
    {
        let before = mem::replace(&mut self.handshake, Handshake::Fresh);
        self.handshake = before.with_far(name);
    }
}

impl Handshake {
    /// PASS comes.
    fn with_password(self, password: Password) -> Self
        ensures password { password_in result ≡ Some password }
        ensures far { far_in result ≡ far_in self }
    {
        match self {
            Handshake::Met { far, .. } => Handshake::Met {
                password: Some(password),
                far,
            },
            _ => Handshake::PasswordKnown(password),
        }
    }

    /// SERVER comes.
    fn with_far(self, far: ServerName) -> Self
        ensures password { password_in result ≡ password_in self }
        ensures far { far_in result ≡ Some far }
    {
        let password = match self {
            Handshake::Fresh => None,
            Handshake::PasswordKnown(password) => Some(password),
            Handshake::Met { password, .. } => password,
        };
        Handshake::Met { password, far }
    }
}
