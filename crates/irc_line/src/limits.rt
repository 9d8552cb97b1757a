//! The limits of a line, each said once.

/// The most bytes of a line, without its CR LF (RFC 2812 section 2.3: 512 with them).
pub const MAX_LINE: usize = 510;

/// The most bytes of a line with its CR LF (RFC 2812 section 2.3).
pub const MAX_TEXT: usize = 512;

/// The most parameters of a message (RFC 2812 section 2.3).
pub const MAX_PARAMETERS: usize = 15;
