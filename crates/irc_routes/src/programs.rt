//! Whether a server has what programs expect.

/// Whether the clients of a server have the commands that their programs expect beside the profile:
/// AWAY, USERHOST and WHOWAS (RFC 2812 sections 4.1, 4.8 and 3.6.3).
#[derive(Clone, Copy, Debug, Drop, PartialEq, Eq)]
pub enum Programs {
    /// They are unknown commands, and nothing is shown of who is away.
    Off,
    /// They are there.
    On,
}
