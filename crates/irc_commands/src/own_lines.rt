//! Whether a line of a client is its own.
ghost use Rattle.std.specs.Prelude.{◌≡◌};
ghost use Rattle.irc_line.specs.MessageViews.{optional_now};
ghost use Rattle.irc_commands.specs.OwnLines.{is_from};

use irc_names::{Nick, same};

/// Whether a line is the client's own: it has no prefix, or its own nickname as one.
pub fn is_own(prefix: Option<&[u8]>, nick: Option<&Nick>) -> bool
    ensures { result ≡ is_from (optional_now prefix.entry) (optional_now nick.entry) }
{
    match (prefix, nick) {
        (None, _) => true,
        (Some(_), None) => false,
        (Some(prefix), Some(nick)) => same(prefix, nick.as_bytes()),
    }
}
