//! What a connection has given before it is registered.
ghost use Rattle.std.specs.Prelude.{◌≡◌, None, []};

use irc_acts::Act;
use irc_names::{Host, Nick};
use irc_users::{RealName, UserName};
use std::alloc::Global;

/// A connection that is not registered (RFC 2812 section 3.1).
#[derive(Drop)]
pub struct Pending {
    /// The nickname that it has chosen, if it has one.
    pub nick: Option<Nick>,
    /// Its user name, once it has given one.
    pub user: Option<UserName>,
    /// Its real name, empty before it has given a user name.
    pub real: RealName,
    /// The host that it comes from.
    pub host: Host,
}

/// What a line of such a connection does.
#[derive(Drop)]
pub struct Registration {
    /// What it has given now.
    pub pending: Pending,
    /// The steps, in order.
    pub steps: Vec<Act, Global>,
    /// Whether it is registered now.
    pub registered: bool,
    /// Whether it is closed after the steps.
    pub close: bool,
}

impl Pending {
    /// A connection from this host that has given nothing.
    #[tactic(auto, unfolding(irc_names::specs::UserTexts::cut_real))]
    pub fn new(host: Host) -> Self
        ensures { result ≡ record { nick = None; user = None; real = []; host = host } }
    {
        Pending {
            nick: None,
            user: None,
            real: RealName::cut(b""),
            host,
        }
    }

    /// The same once more.
    pub fn copy(&self) -> Self
        ensures { result ≡ self.now }
    {
        Pending {
            nick: self.nick.as_ref().map(|nick| nick.copy()),
            user: self.user.as_ref().map(|user| user.copy()),
            real: self.real.copy(),
            host: self.host.copy(),
        }
    }
}
