//! The servers that may be linked to.
ghost use Rattle.std.specs.Prelude.{◌≡◌, ◌++◌, ◌∷◌, [], OnOk, map};
ghost use Rattle.toml.specs.View.{view, table_view};
ghost use Rattle.irc_settings.specs.Keys.{is_called_if_told_how};
ghost use Rattle.irc_settings.specs.Loops.Finding.{FindsPeers, ReadsAsPeer, ReadsAsPeers};
ghost use Rattle.irc_settings.specs.Loops.Finding.{ReadsEachPeer, ReadsPeer};

use crate::finding::{flag, has_only, optional_number, optional_text, text, value_at};
use crate::{MOST_RETRY, PeerSettings, SettingsFault};
use std::alloc::{AllocError, Global};
use toml::{Table, Value};

/// The keys of a table `peer`.
const PEER_KEYS: [&str; 5] = ["name", "password", "connect", "retry", "plain"];

/// What the tables `peer` tell; nothing where there are none.
///
/// # Errors
/// Where something else than such tables is there; where memory runs out.
pub(crate) fn peers(
    alloc: Global,
    table: &Table,
) -> Result<Vec<PeerSettings, Global>, SettingsFault>
    ensures { FindsPeers (table_view table.now) result }
{
    match value_at(table, "peer") {
        Some(value) => listed_peers(alloc, value),
        None => Ok(Vec::new(alloc)),
    }
}

/// What the tables in an array tell.
fn listed_peers(alloc: Global, value: &Value) -> Result<Vec<PeerSettings, Global>, SettingsFault>
    ensures { ReadsAsPeers (view value.now) result }
{
    match value.as_array() {
        Some(values) => all_peers(alloc, values),
        None => Err(SettingsFault::BadConfiguration),
    }
}

/// What each of these values tells, which have to be tables.
fn all_peers(alloc: Global, values: &[Value]) -> Result<Vec<PeerSettings, Global>, SettingsFault>
    ensures { ReadsEachPeer (map view values.now) result }
{
    let mut found = Vec::new(alloc);
    for value in values {
        add(&mut found, peer_in(alloc, value)?)?;
    }
    Ok(found)
}

/// Appends a peer.
fn add(found: &mut Vec<PeerSettings, Global>, peer: PeerSettings) -> Result<(), AllocError>
    ensures { OnOk result (found.new.items ≡ found.old.items ++ peer ∷ []) }
{
    found.push(peer)?;
    Ok(())
}

/// What a value tells, which has to be a table.
fn peer_in(alloc: Global, value: &Value) -> Result<PeerSettings, SettingsFault>
    ensures { ReadsAsPeer (view value.now) result }
{
    match value.as_table() {
        Some(table) => peer_of(alloc, table),
        None => Err(SettingsFault::BadConfiguration),
    }
}

/// What a table tells of a peer.
fn peer_of(alloc: Global, table: &Table) -> Result<PeerSettings, SettingsFault>
    ensures { ReadsPeer (table_view table.now) result }
{
    if !has_only(table, &PEER_KEYS) {
        return Err(SettingsFault::BadConfiguration);
    }
    if !is_called_if_told_how(table) {
        return Err(SettingsFault::BadConfiguration);
    }
    Ok(PeerSettings {
        name: text(alloc, table, "name")?,
        password: text(alloc, table, "password")?,
        connect: optional_text(alloc, table, "connect")?,
        retry: optional_number(table, "retry", MOST_RETRY)?,
        plain: flag(table, "plain")?,
    })
}

/// Whether a server of which it is said how it is called is one that is called.
fn is_called_if_told_how(table: &Table) -> bool
    ensures { result ≡ is_called_if_told_how (table_view table.now) }
{
    (value_at(table, "retry").is_none() && value_at(table, "plain").is_none())
        || value_at(table, "connect").is_some()
}
