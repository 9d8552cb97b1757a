//! Under which numbers the system reports.

/// The door of clients.
pub(crate) const CLIENTS: usize = 0;

/// That of links.
pub(crate) const LINKS: usize = 1;

/// Calls that are under way.
pub(crate) const CALLS: usize = 2;

/// Connections of proxies whose headers are awaited, each by its place.
pub(crate) const FIRST_PROXIED: usize = 3;

/// Sockets have their own numbers behind these.
pub(crate) const FIRST_SOCKET: usize = 259;
