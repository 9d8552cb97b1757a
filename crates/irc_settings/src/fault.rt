//! Why a text gives no settings.
ghost use Rattle.std.specs.Prelude.{◌≡◌};
ghost use Rattle.irc_settings.specs.declared.fault.SettingsFault.TheVariants.{Memory};

use std::alloc::AllocError;
use thiserror::Error;

/// Why a text gives no settings.
#[derive(Clone, Copy, Debug, Drop, PartialEq, Eq, Error)]
pub enum SettingsFault {
    /// It is no TOML document, or a key is missing, unknown, or has what may not stand there.
    #[error("bad configuration")]
    BadConfiguration,
    /// Memory ran out.
    #[error("out of memory")]
    Memory,
}

impl From<AllocError> for SettingsFault {
    ghost from_gives = { λ _ fault. fault ≡ Memory };

    fn from(_error: AllocError) -> Self {
        SettingsFault::Memory
    }
}
