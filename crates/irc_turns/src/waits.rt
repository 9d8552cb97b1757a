//! How long to wait for something to do.
ghost use Rattle.std.specs.Prelude.{◌≡◌};
ghost use Rattle.irc_turns.specs.Waits.{wait_for};

/// How many milliseconds a wait lasts at most.
const LONGEST_MS: u64 = 100;

/// And how many while a moment is waited for: so late what is due then is done at most.
const SHORT_MS: u64 = 10;

/// How many milliseconds to wait: none, where there is something to do; and not for long while a
/// moment is waited for, as while somebody is held back, or a server is to be called again.
pub fn wait_for(is_busy: bool, is_awaited: bool) -> u64
    ensures { result ≡ wait_for is_busy is_awaited }
{
    if is_busy {
        0
    } else if is_awaited {
        SHORT_MS
    } else {
        LONGEST_MS
    }
}
