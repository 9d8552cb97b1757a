//! The modes of a channel: what is set, what each change does, and the words of a MODE, read as
//! changes and written.
#![tactic(auto)]

mod ban_changing;
mod bans;
pub mod laws;
mod limit;
mod mode_changing;
mod mode_text;
mod mode_word;
mod mode_words;
mod modes;
mod raising;

pub use bans::BanList;
pub use irc_names::Key;
pub use limit::read_limit;
pub use mode_text::{push_letters, push_parameter, sign_text};
pub use mode_word::ModeWord;
pub use mode_words::{ModeItem, read_modes};
pub use modes::{AskedChange, ModeChange, ModeLetter, Modes, Privacy, sign_byte};

/// How many letters of one MODE count that take a parameter (RFC 2812 section 3.2.3).
pub const MAX_MODE_PARAMETERS: usize = 3;

/// The most bans that a client's MODE may set on a channel (our own choice). A change that is
/// applied knows no such limit.
pub const MAX_BANS: usize = 30;

/// The longest parameter that any mode takes: the mask of a ban.
pub const MAX_MODE_WORD: usize = irc_names::MAX_BAN_MASK;

/// The greatest limit of members that a channel can have (our own choice).
pub const MAX_LIMIT: u16 = 65_535;

/// The most digits of a limit (our own choice: as many as [`MAX_LIMIT`] has).
pub const MAX_LIMIT_DIGITS: usize = 5;
