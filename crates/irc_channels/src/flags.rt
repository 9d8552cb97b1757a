//! What a member may do in a channel.

/// A member's flags (RFC 2811 section 4.1).
#[derive(Clone, Copy, PartialEq, Eq)]
pub struct Flags {
    /// It is a channel operator: mode o.
    pub op: bool,
    /// It may speak in a moderated channel: mode v.
    pub voice: bool,
}
