//! What stands in the configuration file of the daemon.
ghost use Rattle.toml.specs.View.{table_view};
ghost use Rattle.irc_settings.specs.Configuration.{AreSettingsOf};
ghost use Rattle.irc_settings.specs.Loops.Finding.{IsParsedAs, ReadsKeys, ReadsSettings};

use crate::finding::{flag, has_only, limit, optional_number, optional_text, room, text};
use crate::pace::{bursts_are_paced, pace};
use crate::peers::peers;
use crate::texts::texts;
use crate::{
    LINKS_PER_ADDRESS, MOST_CLIENT_ROOM, MOST_CONNECTIONS, MOST_LINK_ROOM, MOST_NAME_WITHIN,
    MOST_PING_AFTER, MOST_REGISTER_WITHIN, NAME_WITHIN, SettingsFault,
};
use std::alloc::Global;
use toml::Table;

/// The keys of the document.
const SERVER_KEYS: [&str; 20] = [
    "name",
    "info",
    "created",
    "listen",
    "client_room",
    "link_room",
    "listen_links",
    "connections_per_address",
    "name_within",
    "links_per_address",
    "register_within",
    "lines_per_second",
    "burst_lines",
    "programs",
    "motd",
    "password",
    "ping_after",
    "deny",
    "proxies",
    "peer",
];

/// What stands in the configuration file, a field for each key.
#[derive(Drop)]
pub struct Settings {
    /// The server's name.
    pub name: String,
    /// How it describes itself.
    pub info: String,
    /// When it was created.
    pub created: String,
    /// The address at which it listens for clients.
    pub listen: String,
    /// How many bytes may wait for a client: [`crate::LEAST_ROOM`] to [`MOST_CLIENT_ROOM`].
    pub client_room: usize,
    /// How many bytes may wait for a link: [`crate::LEAST_ROOM`] to [`MOST_LINK_ROOM`].
    pub link_room: usize,
    /// The address at which it listens for links, if it does.
    pub listen_links: Option<String>,
    /// How many clients may be connected from one address, if there is a limit: 1 to
    /// [`MOST_CONNECTIONS`].
    pub connections_per_address: Option<u16>,
    /// For how many seconds who connects for links may stay without naming itself, if there is a
    /// limit: 1 to [`MOST_NAME_WITHIN`].
    pub name_within: Option<u16>,
    /// How many connections for links that have not named themselves may be there from one address,
    /// if there is a limit: 1 to [`MOST_CONNECTIONS`].
    pub links_per_address: Option<u16>,
    /// For how many seconds a client may stay without becoming a user, if there is a limit: 1 to
    /// [`MOST_REGISTER_WITHIN`].
    pub register_within: Option<u16>,
    /// How many lines of a client are taken, if there is a limit.
    pub pace: Option<LinesPace>,
    /// Whether clients are told what their programs expect beside the profile.
    pub programs: bool,
    /// The file whose text clients are told as they register, if there is one.
    pub motd: Option<String>,
    /// The password that each client has to give, if one is asked for.
    pub password: Option<String>,
    /// After how many seconds a client that says nothing is asked whether it is there, if it is: 1
    /// to [`MOST_PING_AFTER`].
    pub ping_after: Option<u16>,
    /// The addresses and ranges from which no client comes in.
    pub deny: Vec<String, Global>,
    /// The addresses and ranges from which proxies come, which say for whom they do.
    pub proxies: Vec<String, Global>,
    /// The servers that may be linked to: the tables `peer`, in order.
    pub peers: Vec<PeerSettings, Global>,
}

/// How many lines of a client are taken.
#[derive(Clone, Copy, Drop)]
pub struct LinesPace {
    /// In a second, on the average: 1 to [`crate::MOST_LINES`].
    pub per_second: u16,
    /// At once: 1 to [`crate::MOST_LINES`].
    pub burst: u16,
}

/// A server that may be linked to.
#[derive(Drop)]
pub struct PeerSettings {
    /// Its name.
    pub name: String,
    /// The password that both give each other.
    pub password: String,
    /// The address at which it is called, if it is called.
    pub connect: Option<String>,
    /// After how many seconds it is called again, if it is: 1 to [`crate::MOST_RETRY`]. Only a
    /// server that is called has it.
    pub retry: Option<u16>,
    /// Whether it is called without the words by which two servers agree to count pieces and to tell
    /// who is away (`exact1` and `away1` in PASS): one that does not know a word refuses a call that
    /// has it. Only a server that is called has it.
    pub plain: bool,
}

/// Reads a configuration file: a TOML document with the keys that [`Settings`] and [`PeerSettings`]
/// have as fields, and no others; the pace stands at `lines_per_second` and `burst_lines`.
/// What is an `Option`, a list or a `bool` here may be left out. `name_within` is [`NAME_WITHIN`]
/// then, `links_per_address` [`LINKS_PER_ADDRESS`], `burst_lines` [`crate::BURST_LINES`], and
/// `programs` and `plain` false; 0 at the first two is no limit. `burst_lines` stands only beside
/// `lines_per_second`, and a peer's `retry` and `plain` beside `connect`. Names, passwords, files
/// and addresses are any texts here.
///
/// # Errors
/// Where the text is no such document; where memory runs out, which may come first.
pub fn read_settings(alloc: Global, text: &str) -> Result<Settings, SettingsFault>
    ensures { AreSettingsOf text.now result }
{
    let document = document(alloc, text)?;
    settings_of(alloc, &document)
}

/// The TOML document that a text is.
fn document(alloc: Global, text: &str) -> Result<Table, SettingsFault>
    ensures { IsParsedAs text.now result }
{
    match toml::table_from_str(alloc, text) {
        Ok(document) => Ok(document),
        Err(error) if error.is_memory() => Err(SettingsFault::Memory),
        Err(_) => Err(SettingsFault::BadConfiguration),
    }
}

/// What a document tells.
fn settings_of(alloc: Global, document: &Table) -> Result<Settings, SettingsFault>
    ensures { ReadsSettings (table_view document.now) result }
{
    if !bursts_are_paced(document) {
        return Err(SettingsFault::BadConfiguration);
    }
    settings_in(alloc, document)
}

/// What a document tells at its keys.
fn settings_in(alloc: Global, document: &Table) -> Result<Settings, SettingsFault>
    ensures { ReadsKeys (table_view document.now) result }
{
    if !has_only(document, &SERVER_KEYS) {
        return Err(SettingsFault::BadConfiguration);
    }
    Ok(Settings {
        client_room: room(document, "client_room", MOST_CLIENT_ROOM)?,
        link_room: room(document, "link_room", MOST_LINK_ROOM)?,
        name: text(alloc, document, "name")?,
        info: text(alloc, document, "info")?,
        created: text(alloc, document, "created")?,
        listen: text(alloc, document, "listen")?,
        listen_links: optional_text(alloc, document, "listen_links")?,
        connections_per_address: optional_number(
            document,
            "connections_per_address",
            MOST_CONNECTIONS,
        )?,
        name_within: limit(document, "name_within", MOST_NAME_WITHIN, NAME_WITHIN)?,
        links_per_address: limit(
            document,
            "links_per_address",
            MOST_CONNECTIONS,
            LINKS_PER_ADDRESS,
        )?,
        register_within: optional_number(document, "register_within", MOST_REGISTER_WITHIN)?,
        pace: pace(document)?,
        programs: flag(document, "programs")?,
        motd: optional_text(alloc, document, "motd")?,
        password: optional_text(alloc, document, "password")?,
        ping_after: optional_number(document, "ping_after", MOST_PING_AFTER)?,
        deny: texts(alloc, document, "deny")?,
        proxies: texts(alloc, document, "proxies")?,
        peers: peers(alloc, document)?,
    })
}
