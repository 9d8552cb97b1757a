//! What ends a script's run before its end.
ghost use Rattle.std.specs.Prelude.{◌≡◌};
ghost use Rattle.irc_script.specs.declared.fault.SimFault.TheVariants.{Failed};
ghost use Rattle.irc_script.specs.declared.fault.Trouble.TheVariants.{Device, Memory};
ghost use Rattle.irc_script.specs.Faults.{fault_of};

use std::alloc::AllocError;
use thiserror::Error;

/// What can go wrong with any script.
#[derive(Clone, Copy, Drop, PartialEq, Eq)]
pub enum Trouble {
    /// Memory ran out.
    Memory,
    /// A read or a write failed, or the script did not end.
    Device,
}

impl From<AllocError> for Trouble {
    ghost from_gives = { λ _ trouble. trouble ≡ Memory };

    fn from(_error: AllocError) -> Self {
        Trouble::Memory
    }
}

/// What was printed could not be written. Printing takes no memory, so there is no other cause.
#[derive(Clone, Copy, Drop, PartialEq, Eq)]
pub struct Unwritten;

impl From<Unwritten> for Trouble {
    ghost from_gives = { λ _ trouble. trouble ≡ Device };

    fn from(_fault: Unwritten) -> Self {
        Trouble::Device
    }
}

/// Why a script is not run to its end.
#[derive(Clone, Copy, Debug, Drop, Error, PartialEq, Eq)]
pub enum SimFault {
    /// A line is none that a script can have: the first such line, counted from 1. Nothing was run.
    #[error("line {0}: bad script")]
    BadScript(u64),
    /// Memory ran out.
    #[error("out of memory")]
    Failed,
    /// A read or a write failed, or the script did not end.
    #[error("a read or a write failed")]
    Device,
}

impl From<AllocError> for SimFault {
    ghost from_gives = { λ _ fault. fault ≡ Failed };

    fn from(_error: AllocError) -> Self {
        SimFault::Failed
    }
}

impl From<Trouble> for SimFault {
    ghost from_gives = { λ trouble fault. fault ≡ fault_of trouble };

    fn from(trouble: Trouble) -> Self {
        match trouble {
            Trouble::Memory => SimFault::Failed,
            Trouble::Device => SimFault::Device,
        }
    }
}
