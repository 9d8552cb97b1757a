//! What is known of a client.
ghost use Rattle.std.specs.Prelude.{◌≡◌};
ghost use Rattle.irc_line.specs.MessageViews.{parsed};
ghost use Rattle.irc_doorman.specs.Guests.{begins_registration, standing_after, standing_behind};
ghost use Rattle.irc_doorman.specs.Guests.{fate_behind, fate_of, guest_hearing, is_silent};
ghost use Rattle.irc_doorman.specs.Guests.{lacks_password, new_guest, password_behind};

use crate::asks::Asks;
use irc_line::{Message, parse};
use irc_link_words::is_command;
use irc_moments::Moment;

/// Where a client stands with the password.
#[derive(Clone, Copy, Drop)]
pub(crate) enum Standing {
    /// It is asked for none, or has given it.
    Free,
    /// It is asked for it, and has given none, or a wrong one.
    Asked,
    /// It has given it, and neither NICK nor USER since.
    Given,
}

/// What becomes of a line.
#[derive(Clone, Copy, Drop)]
pub(crate) enum Fate {
    /// The server is given it.
    Passes,
    /// So it is, and the client is told that a PASS wants a password.
    LacksWord,
    /// The client is turned away.
    TurnedAway,
}

/// What is known of a client.
#[derive(Clone, Copy, Drop)]
pub(crate) struct Guest {
    /// Where it stands with the password.
    pub standing: Standing,
    /// When it said something last, or was asked whether it is there.
    pub since: Moment,
    /// Whether it was asked, and has said nothing since.
    pub is_asked: bool,
}

impl Guest {
    /// One that comes at a moment.
    pub fn new(asks: &Asks, now: Moment) -> Self
        ensures { result ≡ new_guest asks.now now }
    {
        let standing = if asks.password.is_some() {
            Standing::Asked
        } else {
            Standing::Free
        };
        Guest {
            standing,
            since: now,
            is_asked: false,
        }
    }

    /// What it is behind a line at a moment.
    pub fn hearing(self, asks: &Asks, line: &[u8], now: Moment) -> Self
        ensures { result ≡ guest_hearing asks.now line.now now self }
    {
        Guest {
            standing: self.standing.after(asks, line),
            since: now,
            is_asked: false,
        }
    }

    /// Whether it has said nothing for so many milliseconds.
    pub fn is_silent(self, silence: u64, now: Moment) -> bool
        ensures { result ≡ is_silent silence now self }
    {
        !now.is_before(self.since.later(silence))
    }
}

impl Standing {
    /// Where it stands behind a line.
    fn after(self, asks: &Asks, line: &[u8]) -> Self
        ensures { result ≡ standing_after asks.now line.now self }
    {
        match self {
            Standing::Free => self,
            Standing::Asked | Standing::Given => match parse(line) {
                Ok(message) => self.behind(asks, &message),
                Err(_) => self,
            },
        }
    }

    fn behind(self, asks: &Asks, message: &Message<'_>) -> Self
        ensures { result ≡ standing_behind asks.now (parsed message.now) self }
    {
        if is_command(b"PASS", message.command) {
            self.behind_password(asks, message)
        } else if begins_registration(message) {
            Standing::Free
        } else {
            self
        }
    }

    fn behind_password(self, asks: &Asks, message: &Message<'_>) -> Self
        ensures { result ≡ password_behind asks.now (parsed message.now) self }
    {
        match message.params.as_slice().first() {
            Some(word) if asks.is_password(word) => Standing::Given,
            Some(_) => Standing::Asked,
            None => self,
        }
    }

    /// What becomes of a line.
    pub fn fate(self, line: &[u8]) -> Fate
        ensures { result ≡ fate_of line.now self }
    {
        match self {
            Standing::Free => Fate::Passes,
            Standing::Asked | Standing::Given => match parse(line) {
                Ok(message) => self.fate_behind(&message),
                Err(_) => Fate::Passes,
            },
        }
    }

    fn fate_behind(self, message: &Message<'_>) -> Fate
        ensures { result ≡ fate_behind (parsed message.now) self }
    {
        if is_command(b"PASS", message.command) && message.params.is_empty() {
            Fate::LacksWord
        } else if begins_registration(message) && self.lacks_password() {
            Fate::TurnedAway
        } else {
            Fate::Passes
        }
    }

    /// Whether it has yet to give the password.
    fn lacks_password(self) -> bool
        ensures { result ≡ lacks_password self }
    {
        match self {
            Standing::Asked => true,
            Standing::Given | Standing::Free => false,
        }
    }
}

/// Whether a line is NICK or USER.
fn begins_registration(message: &Message<'_>) -> bool
    ensures { result ≡ begins_registration (parsed message.now) }
{
    is_command(b"NICK", message.command) || is_command(b"USER", message.command)
}
