//! What has come along a link.

/// What has come from one server to another by one call.
#[derive(Clone, Copy, Drop)]
pub struct DeliveryCounts {
    /// How many bytes have come.
    pub bytes: usize,
    /// How many lines they have completed.
    pub lines: usize,
}
