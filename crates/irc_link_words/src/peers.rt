//! Who may link (RFC 2813 section 4.1).
ghost use Rattle.std.specs.Prelude.{◌≡◌};
ghost use Rattle.irc_line.specs.MessageViews.{optional_now};
ghost use Rattle.irc_link_words.specs.Peers.{not_taken, refusal};

use irc_batch::CloseReason;
use irc_routes::Routes;

/// Why a neighbour that names itself is refused, if it is. `kept` is the password that is kept for
/// a peer of its name, if there is such a peer, and `given` the one that it gave.
pub fn refusal(
    kept: Option<&[u8]>,
    given: &[u8],
    routes: &Routes,
    name: &[u8],
) -> Option<CloseReason>
    ensures { result ≡ refusal (optional_now kept.entry) given.now routes.now name.now }
{
    match kept {
        None => Some(CloseReason::UnknownPeer),
        Some(kept) if kept == given => not_taken(routes, name),
        Some(_) => Some(CloseReason::Password),
    }
}

/// Why a server more is not taken, if it is not (RFC 2813 section 4.1.2).
pub fn not_taken(routes: &Routes, name: &[u8]) -> Option<CloseReason>
    ensures { result ≡ not_taken routes.now name.now }
{
    if routes.is_known(name) {
        Some(CloseReason::AlreadyKnown)
    } else if routes.is_full() {
        Some(CloseReason::Full)
    } else {
        None
    }
}
