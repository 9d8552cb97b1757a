//! How far apart servers call that have lost others at the same moment.
ghost use Rattle.std.specs.Prelude.{◌≡◌};
ghost use Rattle.irc_turns.specs.Spreads.{name_spread, spread_on};

/// Spreads are below this, a prime, and so below the second that is the shortest wait.
const SPREADS: u64 = 797;

/// Whatever two spreads are apart, less than five steps by this factor have them apart by 150 at
/// least.
const FACTOR: u64 = 319;

/// How many milliseconds a server of this name waits more before the first call that it makes
/// again.
pub fn name_spread(name: &[u8]) -> u64
    ensures { result ≡ name_spread name.now }
{
    let mut spread = 0;
    for byte in name {
        spread = spread_on(spread, *byte);
    }
    spread
}

/// The spread behind one more byte of the name, or behind a call.
pub fn spread_on(spread: u64, byte: u8) -> u64
    ensures { result ≡ spread_on spread byte }
{
    (spread % SPREADS + u64::from(byte)) * FACTOR % SPREADS
}
