//! Of which configurations a network is made.
ghost use Rattle.std.specs.Prelude.{◌≡◌, ◌≤◌, length, map, IfOk};
ghost use Rattle.std.specs.List.{AllByRecursion, list_any};
ghost use Rattle.std.specs.List.Sorted.{IsPermutation, IsSortedByKey};
ghost use Rattle.std.specs.Cmp.Lexicographic.{slice_cmp};
ghost use Rattle.std.specs.Ordering.{nat_cmp};
ghost use Rattle.irc_net.specs.Making.{config_name, configs_fault, has_name_twice, is_bad_config};
ghost use Rattle.irc_net.specs.Making.{everywhere, is_config_of, is_double, new_node};
ghost use Rattle.irc_net.specs.Loops.Ordering.{IsServerConfig, new_forest};

use irc_forest::{Forest, MAX_SERVERS};
use irc_names::ServerName;
use irc_network::Node;
use irc_routes::Programs;
use irc_server::{Config, ConfigFault, Server, config_fault};
use std::alloc::{AllocError, Global};
use std::cmp::Ordering;
use thiserror::Error;

/// Why no network is made of configurations, in the order in which causes are looked for; each has
/// its number.
#[derive(Clone, Copy, Debug, Drop, Error, PartialEq, Eq)]
pub enum NetConfigFault {
    /// A name, a text or a password is outside its limits.
    #[error("a name, text or password outside its limits")]
    BadName = 1,
    /// Two servers have one name, a peer is there twice, or a server is its own peer.
    #[error("a server or a peer is there twice")]
    DoubleName = 2,
    /// There are more than 256 servers.
    #[error("too many servers")]
    TooMany = 3,
    /// Memory ran out.
    #[error("out of memory")]
    Memory = 4,
}

impl From<AllocError> for NetConfigFault {
    ghost use Rattle.std.specs.Prelude.{◌≡◌};
    ghost use Rattle.irc_net.specs.declared.making.NetConfigFault.TheVariants.{Memory};

    ghost from_gives = { λ _ fault. fault ≡ Memory };

    fn from(_: AllocError) -> Self {
        NetConfigFault::Memory
    }
}

/// Why no network is made of these configurations, if it is not for want of memory.
pub(crate) fn configs_fault(configs: &[Config]) -> Option<NetConfigFault>
    ensures { result ≡ configs_fault configs.now }
{
    if has_bad(configs) {
        return Some(NetConfigFault::BadName);
    }
    if has_double(configs) || has_name_twice(configs) {
        return Some(NetConfigFault::DoubleName);
    }
    if configs.len() > MAX_SERVERS {
        return Some(NetConfigFault::TooMany);
    }
    None
}

fn has_bad(configs: &[Config]) -> bool
    ensures { result ≡ list_any is_bad_config configs.now }
{
    configs.iter().any(is_bad)
}

fn has_double(configs: &[Config]) -> bool
    ensures { result ≡ list_any is_double configs.now }
{
    configs.iter().any(is_double)
}

/// Whether a name, a text or a password of a configuration is outside its limits.
fn is_bad(config: &Config) -> bool
    ensures { result ≡ is_bad_config config.now }
{
    config_fault(config) == Some(ConfigFault::BadName)
}

/// Whether a configuration has a peer twice, or itself.
fn is_double(config: &Config) -> bool
    ensures { result ≡ is_double config.now }
{
    config_fault(config) == Some(ConfigFault::DoubleName)
}

/// Whether two of these have one name.
fn has_name_twice(configs: &[Config]) -> bool
    ensures { result ≡ has_name_twice configs.now }
{
    let mut rest = configs;
    while let Some((config, more)) = rest.split_first() {
        if is_among(config, more) {
            return true;
        }
        rest = more;
    }
    false
}

/// Whether one of these has the name of this one.
fn is_among(config: &Config, others: &[Config]) -> bool
    ensures { result ≡ list_any (is_config_of (config_name config.now)) others.now }
{
    others.iter().any(|other| other.own.name.as_slice() == config.own.name.as_slice())
}

/// Configurations in the order of their names.
pub(crate) fn in_order(configs: Vec<Config, Global>) -> Vec<Config, Global>
    ensures ones { IsPermutation configs.items result.items }
    ensures sorted { IsSortedByKey config_name (slice_cmp nat_cmp) result.items }
{
    let mut ordered = configs;
    ordered.sort_unstable_by(
        |one: &Config, other: &Config| -> Ordering
            ensures { result ≡ slice_cmp nat_cmp (config_name one.entry.now)
                (config_name other.entry.now) }
        { one.own.name.as_slice().cmp(other.own.name.as_slice()) },
    );
    ordered
}

/// Servers of these configurations, not linked.
pub(crate) fn forest_of(alloc: Global, configs: &[Config]) -> Result<Forest, AllocError>
    requires named { AllByRecursion IsServerConfig configs.now }
    requires few { length configs.now ≤ 256 }
    ensures { IfOk result (λ forest. forest ≡ new_forest configs.now) }
{
    let mut names = Vec::new(alloc);
    for config in configs {
        names.push(name_of(config))?;
    }
    Ok(Forest::new(alloc, names))
}

fn name_of(config: &Config) -> ServerName
    requires { IsServerConfig config.now }
    ensures { result ≡ config_name config.now }
{
    let Some(name) = ServerName::read(&config.own.name) else {
        unreachable!();
    };
    name
}

/// A node for each of these configurations, in turn.
pub(crate) fn nodes_of(
    alloc: Global,
    configs: Vec<Config, Global>,
    programs: Programs,
) -> Result<Vec<Node, Global>, AllocError>
    ensures { IfOk result
        (λ nodes. nodes.items ≡ map (new_node (everywhere programs)) configs.items) }
{
    let mut nodes = Vec::new(alloc);
    let mut rest = configs.into_iter();
    while let Some(config) = rest.next() {
        nodes.push(node_of(alloc, config, programs)?)?;
    }
    Ok(nodes)
}

fn node_of(alloc: Global, config: Config, programs: Programs) -> Result<Node, AllocError>
    ensures { IfOk result (λ node. node ≡ new_node (everywhere programs) config) }
{
    match Server::serving(alloc, config, programs) {
        Ok(server) => Ok(Node::new(alloc, server)),
        Err(_) => Err(AllocError),
    }
}
