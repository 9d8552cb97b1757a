//! The settings of the daemon: what stands in its configuration file.
#![tactic(auto)]

mod fault;
mod finding;
mod fixed;
mod pace;
mod peers;
mod settings;
mod texts;

pub use fault::SettingsFault;
pub use fixed::{FixedKey, fixed_keys};
pub use settings::{LinesPace, PeerSettings, Settings, read_settings};

/// The least number of bytes that may wait for a client or a link: one line's (our own choice).
pub const LEAST_ROOM: usize = 512;

/// The most bytes that may wait for a client (our own choice).
pub const MOST_CLIENT_ROOM: usize = 1_048_576;

/// The most bytes that may wait for a link (our own choice).
pub const MOST_LINK_ROOM: usize = 16_777_216;

/// The most seconds after which a server is called again: an hour (our own choice).
pub const MOST_RETRY: u16 = 3_600;

/// The most connections that one address may be allowed: one for each of its ports.
pub const MOST_CONNECTIONS: u16 = 65_535;

/// The most seconds that who connects for links may have to name itself: an hour (our own choice).
pub const MOST_NAME_WITHIN: u16 = 3_600;

/// How many seconds these are where the configuration does not say (our own choice).
pub const NAME_WITHIN: u16 = 10;

/// How many connections that have not named themselves one address may have at the door for links,
/// where the configuration does not say (our own choice).
pub const LINKS_PER_ADDRESS: u16 = 16;

/// The most seconds that a client may have to become a user: an hour (our own choice).
pub const MOST_REGISTER_WITHIN: u16 = 3_600;

/// The most seconds after which a client that says nothing is asked whether it is there: an hour
/// (our own choice).
pub const MOST_PING_AFTER: u16 = 3_600;

/// The most lines of a client that may be taken in a second, or at once (our own choice).
pub const MOST_LINES: u16 = 1_000;

/// How many are taken at once where the configuration does not say (our own choice).
pub const BURST_LINES: u16 = 10;
