//! What holds of the program's constant. The law is a function that does nothing, and its contract
//! is the law.
ghost use Rattle.std.specs.Prelude.{◌≡◌};
ghost use Rattle.irc_endings.specs.Limits.{max_bad_script};

use crate::fault::MAX_BAD_SCRIPT;

/// The constant of the code is the number that the definitions name.
pub fn limits_are_so()
    ensures bad_script { MAX_BAD_SCRIPT ≡ max_bad_script }
{}
