//! What a server keeps until it starts again, whatever its file says meanwhile.
ghost use Rattle.std.specs.Prelude.{◌≡◌, ◌≤◌, length, option_map, string_bytes};
ghost use Rattle.std.specs.Cmp.Lexicographic.{pointwise};
ghost use Rattle.irc_settings.specs.Fixed.{differs_at, fixed_keys, key_name, same_flag};
ghost use Rattle.irc_settings.specs.Fixed.{same_number, same_peer};
ghost use Rattle.irc_settings.specs.Fixed.{same_text, same_text_if};

use crate::{PeerSettings, Settings};

/// A key of the file of which a change waits for the next start of the server.
#[derive(Clone, Copy, Drop)]
pub enum FixedKey {
    Name,
    Info,
    Created,
    Listen,
    ListenLinks,
    ClientRoom,
    LinkRoom,
    NameWithin,
    RegisterWithin,
    Programs,
    Password,
    PingAfter,
    Peer,
}

/// All of them, in the order of the settings.
const FIXED_KEYS: [FixedKey; 13] = [
    FixedKey::Name,
    FixedKey::Info,
    FixedKey::Created,
    FixedKey::Listen,
    FixedKey::ListenLinks,
    FixedKey::ClientRoom,
    FixedKey::LinkRoom,
    FixedKey::NameWithin,
    FixedKey::RegisterWithin,
    FixedKey::Programs,
    FixedKey::Password,
    FixedKey::PingAfter,
    FixedKey::Peer,
];

/// All keys of which a change waits for the next start, in the order of the settings.
pub fn fixed_keys() -> &'static [FixedKey]
    ensures { result.now ≡ fixed_keys }
{
    &FIXED_KEYS
}

impl FixedKey {
    /// Its name in the file.
    pub fn name(self) -> &'static str
        ensures name { result.now ≡ key_name self }
        ensures fits { length result.now ≤ 32 }
    {
        match self {
            FixedKey::Name => "name",
            FixedKey::Info => "info",
            FixedKey::Created => "created",
            FixedKey::Listen => "listen",
            FixedKey::ListenLinks => "listen_links",
            FixedKey::ClientRoom => "client_room",
            FixedKey::LinkRoom => "link_room",
            FixedKey::NameWithin => "name_within",
            FixedKey::RegisterWithin => "register_within",
            FixedKey::Programs => "programs",
            FixedKey::Password => "password",
            FixedKey::PingAfter => "ping_after",
            FixedKey::Peer => "peer",
        }
    }
}

impl Settings {
    /// Whether others have something else at a key.
    pub fn differs_at(&self, key: FixedKey, other: &Settings) -> bool
        ensures { result ≡ differs_at key self.now other.now }
    {
        !match key {
            FixedKey::Name => same_text(&self.name, &other.name),
            FixedKey::Info => same_text(&self.info, &other.info),
            FixedKey::Created => same_text(&self.created, &other.created),
            FixedKey::Listen => same_text(&self.listen, &other.listen),
            FixedKey::ListenLinks => same_text_if(&self.listen_links, &other.listen_links),
            FixedKey::ClientRoom => self.client_room == other.client_room,
            FixedKey::LinkRoom => self.link_room == other.link_room,
            FixedKey::NameWithin => same_number(self.name_within, other.name_within),
            FixedKey::RegisterWithin => same_number(self.register_within, other.register_within),
            FixedKey::Programs => same_flag(self.programs, other.programs),
            FixedKey::Password => same_text_if(&self.password, &other.password),
            FixedKey::PingAfter => same_number(self.ping_after, other.ping_after),
            FixedKey::Peer => same_peers(&self.peers, &other.peers),
        }
    }
}

/// Whether two texts are the same.
fn same_text(one: &String, other: &String) -> bool
    ensures { result ≡ same_text (string_bytes one.now) (string_bytes other.now) }
{
    one.as_bytes() == other.as_bytes()
}

/// Whether there is the same text on both sides, or none.
fn same_text_if(one: &Option<String>, other: &Option<String>) -> bool
    ensures { result
        ≡ same_text_if (option_map string_bytes one.now) (option_map string_bytes other.now) }
{
    match (one, other) {
        (Some(one), Some(other)) => one.as_bytes() == other.as_bytes(),
        (None, None) => true,
        _ => false,
    }
}

/// Whether there is the same number on both sides, or none.
fn same_number(one: Option<u16>, other: Option<u16>) -> bool
    ensures { result ≡ same_number one other }
{
    one == other
}

/// Whether a flag is set on both sides or on none.
fn same_flag(one: bool, other: bool) -> bool
    ensures { result ≡ same_flag one other }
{
    one == other
}

/// Whether the same peers stand on both sides, in the same order.
fn same_peers(one: &[PeerSettings], other: &[PeerSettings]) -> bool
    ensures { result ≡ pointwise same_peer one.now other.now }
{
    let mut mine = one;
    let mut theirs = other;
    while let Some((peer, my_rest)) = mine.split_first() {
        let Some((same, their_rest)) = theirs.split_first() else {
            return false;
        };
        if !same_peer(peer, same) {
            return false;
        }
        mine = my_rest;
        theirs = their_rest;
    }
    theirs.is_empty()
}

/// Whether all stands on both sides that there is to say of a peer.
fn same_peer(one: &PeerSettings, other: &PeerSettings) -> bool
    ensures { result ≡ same_peer one.now other.now }
{
    same_text(&one.name, &other.name)
        && same_text(&one.password, &other.password)
        && same_text_if(&one.connect, &other.connect)
        && same_number(one.retry, other.retry)
        && same_flag(one.plain, other.plain)
}
