//! The words of the lines of a link (RFC 2813 section 4): a cursor over them, and a reader for
//! each kind of word, which gives what the word says or why the line is refused; the two lines with
//! which a link begins, written and read, and who may link (section 4.1). Definitions are in
//! `specs/`.
#![tactic(auto)]

mod changes;
mod commands;
mod fault;
mod greeting_lines;
pub mod laws;
mod mode_parameters;
mod numbers;
mod openings;
mod params;
mod password;
mod peers;
mod user_changes;
mod words;

pub use changes::read_changes;
pub use commands::{EffectCommand, LinkCommand, ServerCommand, command_of};
pub use fault::WireFault;
pub use greeting_lines::{greeting_text, pass_text};
pub use mode_parameters::expect_members;
pub use numbers::read_number;
pub use openings::{Greeting, Opening, read_greeting, read_opening, read_password, told_first};
pub use params::Params;
pub use password::{Password, is_password};
pub use peers::{not_taken, refusal};
pub use user_changes::{change_letters, change_text, read_user_change};
pub use words::{
    OPERATOR_MARK, is_come_mode, is_command, is_for_channel, is_marked, is_real_name, is_user_name,
    is_with_i, read_channel, read_host, read_line, read_nick, read_server, read_target, read_words,
    real_name, unmarked, user_name,
};

/// The version that PASS tells of (RFC 2813 section 4.1.1). It changes with what servers write to
/// each other.
pub const VERSION: &[u8] = b"0210010001";

/// The name of what servers agree on, without flags (RFC 2813 section 4.1.1; the name is our own
/// choice).
pub const AGREEMENT: &[u8] = b"TREE|";

/// The most bytes of a password (our own choice).
pub const MAX_PASSWORD: usize = 20;

/// The greatest number in a line of a link (our own choice).
pub const MAX_NUMBER: u32 = 4_294_967_295;

/// The most digits of such a number.
pub const MAX_NUMBER_DIGITS: usize = 10;
