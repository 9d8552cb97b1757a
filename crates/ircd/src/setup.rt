//! What a configuration sets up: the server, where it listens, whom it calls, and how clients are
//! spoken to.
ghost use Rattle.std.specs.Prelude.{◌≡◌, ◌++◌, ◌∷◌, [], IfOk, OnOk, map, option_map};
ghost use Rattle.std.specs.Prelude.{option_to_list, string_bytes};
ghost use Rattle.irc_stage.specs.View.{known_peer};
ghost use Rattle.irc_turns.specs.Spreads.{name_spread};
ghost use Rattle.ircd.specs.Serving.{AreCallsOf, AreLimitsOf, Configures, IsListeningOf};
ghost use Rattle.ircd.specs.Serving.{IsReadSettings, IsServerOf, IsSpeechOf, SetsUp, SetsUpPart};
ghost use Rattle.ircd.specs.Serving.{pace_set, peer_set, plain_name, plain_names, programs_set};
ghost use Rattle.ircd.specs.Loops.SettingUp.{FindsAddress, FindsAsks, FindsCallee, FindsCallees};
ghost use Rattle.ircd.specs.Loops.SettingUp.{FindsName, FindsOptional, FindsPassword};
ghost use Rattle.ircd.specs.Loops.SettingUp.{FindsRanges};

use irc_doorman::{Asks, ClientPassword};
use irc_endings::Stop;
use irc_entrance::{AddressRange, read_ranges};
use irc_names::ServerName;
use irc_routes::{Own, Programs};
use irc_server::{Config, Peer, Server};
use irc_settings::{PeerSettings, Settings, read_settings};
use irc_sockets::{Callee, Limits, Listening};
use irc_turns::{LinesPace, name_spread};
use std::alloc::{AllocError, Global};
use std::net::SocketAddr;

/// What a configuration sets up.
#[derive(Drop)]
pub struct Setup {
    /// The server, which nobody is connected to.
    pub server: Server,
    /// Where it listens, who comes in there, and how much of each is taken.
    pub listening: Listening,
    /// Whom it calls.
    pub calls: Calls,
    /// How clients are spoken to.
    pub speech: Speech,
}

/// Whom a server calls.
#[derive(Drop)]
pub struct Calls {
    /// The servers that it calls, in the order of its peers.
    pub callees: Vec<Callee, Global>,
    /// Those of its peers that know no pieces, and are called without the word for them.
    pub plain: Vec<ServerName, Global>,
    /// How many milliseconds more it waits before the first call that it makes again, by its own
    /// name.
    pub spread: u64,
}

/// How clients are spoken to.
#[derive(Drop)]
pub struct Speech {
    /// Whether they have what programs expect, as the server says it too.
    pub programs: Programs,
    /// The file whose text they are told as the message of the day, if there is one.
    pub motd: Option<String>,
    /// What they are asked.
    pub asks: Asks,
}

/// What a text says.
///
/// # Errors
/// [`Stop::BadConfiguration`] where the text is no configuration; [`Stop::Failed`] where memory
/// runs out.
pub fn settings_in(alloc: Global, text: &str) -> Result<Settings, Stop>
    ensures { IsReadSettings text.now result }
{
    let settings = read_settings(alloc, text)?;
    Ok(settings)
}

/// What settings set up.
///
/// # Errors
/// [`Stop::BadConfiguration`] where an address or a range in them is none, or no server is made of
/// them; [`Stop::Failed`] where memory runs out.
pub fn set_up(alloc: Global, settings: &Settings) -> Result<Setup, Stop>
    ensures { SetsUp settings.now result }
{
    Ok(Setup {
        calls: calls_of(alloc, settings)?,
        listening: listening_of(alloc, settings)?,
        server: server_of(alloc, settings)?,
        speech: speech_of(alloc, settings)?,
    })
}

/// The server, which nobody is connected to; its clients have what programs expect, or not.
fn server_of(alloc: Global, settings: &Settings) -> Result<Server, Stop>
    ensures { SetsUpPart (IsServerOf settings.now) settings.now result }
{
    let programs = programs(settings.programs);
    let server = Server::serving(alloc, config(alloc, settings)?, programs)?;
    Ok(server)
}

/// Where it listens, and how many it takes there.
fn listening_of(alloc: Global, settings: &Settings) -> Result<Listening, Stop>
    ensures { SetsUpPart (IsListeningOf settings.now) settings.now result }
{
    Ok(Listening {
        clients: address(settings.listen.as_str())?,
        links: optional_address(settings.listen_links.as_ref())?,
        client_room: settings.client_room,
        link_room: settings.link_room,
        name_within: settings.name_within,
        register_within: settings.register_within,
        limits: limits_of(alloc, settings)?,
    })
}

/// Who comes in, and how much of each is taken.
fn limits_of(alloc: Global, settings: &Settings) -> Result<Limits, Stop>
    ensures { SetsUpPart (AreLimitsOf settings.now) settings.now result }
{
    Ok(Limits {
        connections_per_address: settings.connections_per_address,
        links_per_address: settings.links_per_address,
        pace: pace(settings),
        deny: ranges(alloc, &settings.deny)?,
        proxies: ranges(alloc, &settings.proxies)?,
    })
}

/// Whom it calls.
fn calls_of(alloc: Global, settings: &Settings) -> Result<Calls, Stop>
    ensures { SetsUpPart (AreCallsOf settings.now) settings.now result }
{
    Ok(Calls {
        callees: callees(alloc, &settings.peers)?,
        plain: plain_names(alloc, &settings.peers)?,
        spread: own_spread(settings),
    })
}

/// How clients are spoken to.
fn speech_of(alloc: Global, settings: &Settings) -> Result<Speech, Stop>
    ensures { SetsUpPart (IsSpeechOf settings.now) settings.now result }
{
    Ok(Speech {
        programs: programs(settings.programs),
        motd: optional_text(alloc, settings.motd.as_ref())?,
        asks: asks(settings)?,
    })
}

/// The same text, if there is one.
fn optional_text(alloc: Global, text: Option<&String>) -> Result<Option<String>, AllocError>
    ensures { IfOk result (λ own. option_map string_bytes own
        ≡ option_map (λ text. string_bytes text.now) text.entry) }
{
    match text {
        Some(text) => Ok(Some(String::from_str(alloc, text.as_str())?)),
        None => Ok(None),
    }
}

/// Whether clients have what programs expect beside the profile.
fn programs(are_asked_for: bool) -> Programs
    ensures { result ≡ programs_set are_asked_for }
{
    if are_asked_for {
        Programs::On
    } else {
        Programs::Off
    }
}

/// What clients are asked.
fn asks(settings: &Settings) -> Result<Asks, Stop>
    ensures { FindsAsks settings.now result }
{
    Ok(Asks {
        server: server_name(settings.name.as_str())?,
        password: client_password(settings.password.as_ref())?,
        ping_after: settings.ping_after,
    })
}

/// The password of clients that a text is, if there is a text.
fn client_password(text: Option<&String>) -> Result<Option<ClientPassword>, Stop>
    ensures { FindsPassword (option_map (λ text. string_bytes text.now) text.entry) result }
{
    let Some(text) = text else {
        return Ok(None);
    };
    match ClientPassword::read(text.as_bytes()) {
        Some(password) => Ok(Some(password)),
        None => Err(Stop::BadConfiguration),
    }
}

/// To which pace of lines clients keep, if to one.
fn pace(settings: &Settings) -> Option<LinesPace>
    ensures { result ≡ pace_set settings.now.pace }
{
    let pace = settings.pace?;
    Some(LinesPace {
        per_second: pace.per_second,
        burst: pace.burst,
    })
}

/// How many milliseconds more it waits before a call, by its own name.
fn own_spread(settings: &Settings) -> u64
    ensures { result ≡ name_spread (string_bytes settings.now.name) }
{
    name_spread(settings.name.as_bytes())
}

/// What the server is configured to be.
fn config(alloc: Global, settings: &Settings) -> Result<Config, AllocError>
    ensures { IfOk result (λ config. Configures settings.now config) }
{
    let own = Own {
        name: Vec::from_slice(alloc, settings.name.as_bytes())?,
        info: Vec::from_slice(alloc, settings.info.as_bytes())?,
        created: Vec::from_slice(alloc, settings.created.as_bytes())?,
    };
    Ok(Config {
        own,
        peers: peers(alloc, &settings.peers)?,
    })
}

fn peers(alloc: Global, settings: &[PeerSettings]) -> Result<Vec<Peer, Global>, AllocError>
    ensures { IfOk result (λ peers. map known_peer peers.items ≡ map peer_set settings.now) }
{
    let mut peers = Vec::new(alloc);
    for peer in settings {
        add(&mut peers, peer_of(alloc, peer)?)?;
    }
    Ok(peers)
}

/// Appends a peer.
fn add(peers: &mut Vec<Peer, Global>, peer: Peer) -> Result<(), AllocError>
    ensures { OnOk result (peers.new.items ≡ peers.old.items ++ peer ∷ []) }
{
    peers.push(peer)?;
    Ok(())
}

/// A peer as its settings have it.
fn peer_of(alloc: Global, settings: &PeerSettings) -> Result<Peer, AllocError>
    ensures { IfOk result (λ peer. known_peer peer ≡ peer_set settings.now) }
{
    Ok(Peer {
        name: Vec::from_slice(alloc, settings.name.as_bytes())?,
        password: Vec::from_slice(alloc, settings.password.as_bytes())?,
    })
}

/// Whom it calls: each peer that has an address for that.
fn callees(alloc: Global, peers: &[PeerSettings]) -> Result<Vec<Callee, Global>, Stop>
    ensures { FindsCallees peers.now result }
{
    let mut callees = Vec::new(alloc);
    let mut rest = peers;
    while let Some((peer, more)) = rest.split_first() {
        add_callee(&mut callees, callee_of(peer)?)?;
        rest = more;
    }
    Ok(callees)
}

fn add_callee(callees: &mut Vec<Callee, Global>, callee: Option<Callee>) -> Result<(), AllocError>
    ensures { OnOk result (callees.new.items ≡ callees.old.items ++ option_to_list callee) }
{
    match callee {
        Some(callee) => {
            callees.push(callee)?;
            Ok(())
        }
        None => Ok(()),
    }
}

/// A peer as one that is called, if it has an address for that.
fn callee_of(peer: &PeerSettings) -> Result<Option<Callee>, Stop>
    ensures { FindsCallee peer.now result }
{
    match optional_address(peer.connect.as_ref())? {
        Some(address) => {
            let name = server_name(peer.name.as_str())?;
            Ok(Some(Callee {
                name,
                address,
                retry: peer.retry,
            }))
        }
        None => Ok(None),
    }
}

/// The names of those peers that know no pieces.
fn plain_names(alloc: Global, peers: &[PeerSettings]) -> Result<Vec<ServerName, Global>, AllocError>
    ensures { IfOk result (λ names. names.items ≡ plain_names peers.now) }
{
    let mut names = Vec::new(alloc);
    for peer in peers {
        add_name(&mut names, plain_name(peer))?;
    }
    Ok(names)
}

fn add_name(names: &mut Vec<ServerName, Global>, name: Option<ServerName>) -> Result<(), AllocError>
    ensures { OnOk result (names.new.items ≡ names.old.items ++ option_to_list name) }
{
    match name {
        Some(name) => {
            names.push(name)?;
            Ok(())
        }
        None => Ok(()),
    }
}

/// The name of a peer that knows no pieces. A name that is no server's is of nobody who is called.
fn plain_name(peer: &PeerSettings) -> Option<ServerName>
    ensures { result ≡ plain_name peer.now }
{
    if peer.plain {
        ServerName::read(peer.name.as_bytes())
    } else {
        None
    }
}

/// The server's name that a text is.
fn server_name(text: &str) -> Result<ServerName, Stop>
    ensures { FindsName text.now result }
{
    match ServerName::read(text.as_bytes()) {
        Some(name) => Ok(name),
        None => Err(Stop::BadConfiguration),
    }
}

/// The ranges that texts are.
fn ranges(alloc: Global, texts: &[String]) -> Result<Vec<AddressRange, Global>, Stop>
    ensures { FindsRanges (map string_bytes texts.now) result }
{
    match read_ranges(alloc, texts) {
        Ok(Some(ranges)) => Ok(ranges),
        Ok(None) => Err(Stop::BadConfiguration),
        Err(_) => Err(Stop::Failed),
    }
}

/// The address that a text is, if there is a text.
fn optional_address(text: Option<&String>) -> Result<Option<SocketAddr>, Stop>
    ensures { FindsOptional (option_map (λ text. string_bytes text.now) text.entry) result }
{
    match text {
        Some(text) => Ok(Some(address(text.as_str())?)),
        None => Ok(None),
    }
}

/// The address that a text is.
fn address(text: &str) -> Result<SocketAddr, Stop>
    ensures { FindsAddress text.now result }
{
    match text.parse::<SocketAddr>() {
        Ok(address) => Ok(address),
        Err(_) => Err(Stop::BadConfiguration),
    }
}
