//! The limits of a reply, each said once. Those of names stand in irc_names.

/// The most nicknames in one 353 (our own choice).
pub const MAX_NAMES: usize = 10;

/// The most channels in one 319 (our own choice).
pub const MAX_WHOIS_CHANNELS: usize = 5;

/// The most bytes of a channel's modes in a 324: `+`, and each of i m n p s t k l once (p and s are
/// never set together).
pub const MAX_MODE_LETTERS: usize = 8;
