//! How a door speaks to clients.
ghost use Rattle.std.specs.Prelude.{◌≡◌};
ghost use Rattle.irc_door.specs.Manners.{is_off, is_plain};

use crate::motd::Motd;
use irc_routes::Programs;

/// How a door speaks to clients.
#[derive(Drop)]
pub struct Manner {
    /// Whether what the machine says is turned as programs expect it.
    pub programs: Programs,
    /// What it says in place of 422, if there is a message of the day.
    pub motd: Option<Motd>,
}

impl Manner {
    /// Whether what the machine says goes as it is.
    pub(crate) fn is_plain(&self) -> bool
        ensures { result ≡ is_plain self.now }
    {
        is_off(self.programs) && self.motd.is_none()
    }
}

fn is_off(programs: Programs) -> bool
    ensures { result ≡ is_off programs }
{
    match programs {
        Programs::Off => true,
        Programs::On => false,
    }
}
