//! Names of an IRC network, each kind a type of its own, and the rules of names: their case fold,
//! what each kind is, masks, how long each may be; and the digits of a number.
#![tactic(auto)]

mod away_text;
mod ban_mask;
mod case_fold;
mod channel_name;
mod copying;
mod digits;
mod exact;
mod hashing;
mod host;
mod key;
pub mod laws;
mod matching;
mod name_bytes;
mod nick;
mod real_name;
mod rules;
mod server_name;
mod user_name;

pub use away_text::AwayText;
pub use ban_mask::BanMask;
pub use case_fold::{compare, fold, same};
pub use channel_name::ChannelName;
pub use copying::{copied, cut_copy, first_bytes};
pub use digits::{are_digits, number_of};
pub use exact::{Exact, Folded};
pub use hashing::hash_folds;
pub use host::Host;
pub use key::Key;
pub use matching::mask_matches;
pub use nick::Nick;
pub use real_name::RealName;
pub use rules::{
    is_away, is_ban_mask, is_channel, is_host, is_key, is_nick, is_server, is_user_byte,
};
pub use server_name::ServerName;
pub use user_name::UserName;

// How long names may be, in bytes. Each limit of the code stands here alone; the definitions have
// the same numbers in `specs/Limits.antt`.

/// The longest nickname (our own choice; RFC 2812, section 1.2.1 has nine).
pub const MAX_NICK: usize = 30;

/// The longest channel name, with its `#` (RFC 2812, section 1.3).
pub const MAX_CHANNEL: usize = 50;

/// The longest host (our own choice: as long as a server's name).
pub const MAX_HOST: usize = 63;

/// The longest server name (RFC 2812, section 1.1).
pub const MAX_SERVER: usize = 63;

/// The longest key of a channel (RFC 2812, section 2.3.1).
pub const MAX_KEY: usize = 23;

/// The longest mask of a ban (our own choice).
pub const MAX_BAN_MASK: usize = 90;

/// The longest user name (our own choice).
pub const MAX_USER_NAME: usize = 10;

/// The longest real name (our own choice).
pub const MAX_REAL_NAME: usize = 50;

/// The longest topic, and the longest text of a quit, a part, a kick or of who is away (our own
/// choice).
pub const MAX_WORDS: usize = 160;

/// The longest text in which a server describes itself (our own choice).
pub const MAX_INFO: usize = 63;

/// The longest text that says when a server was created (our own choice).
pub const MAX_CREATED: usize = 30;

/// The most digits of a number in a line (our own choice: as many as the greatest `u32` has).
pub const MAX_DIGITS: usize = 10;
