//! Why a network at rest refuses what it is asked for.

/// Why a network at rest refuses what it is asked for, in the order in which causes are looked for.
/// A refusal changes nothing.
#[derive(Clone, Copy, Debug, Drop, PartialEq, Eq)]
pub enum Refusal {
    /// No server has this name.
    NoSuchServer,
    /// No client of this number is connected.
    NoSuchClient,
    /// No link is between the two servers.
    NotLinked,
    /// The two servers are in one part already, or do not keep one password for each other.
    LinkRefused,
}
