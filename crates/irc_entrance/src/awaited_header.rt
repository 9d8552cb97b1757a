//! A header of a proxy that is awaited, and until when.
ghost use Rattle.std.specs.Prelude.{◌≡◌};
ghost use Rattle.irc_entrance.specs.Awaiting.{may_await_one_more};

use crate::proxy_header::{ProxyHeader, read_header};
use irc_moments::Moment;
use std::alloc::{AllocError, Global};

/// How many headers may be awaited at once (our own choice).
const MOST_AWAITED: usize = 256;

/// How many milliseconds each has (our own choice).
const WITHIN_MS: u64 = 10_000;

/// A header that is awaited.
#[derive(Drop)]
pub struct AwaitedHeader {
    /// What has come of it.
    pub bytes: Vec<u8, Global>,
    /// When it is to be whole.
    pub until: Moment,
}

impl AwaitedHeader {
    ghost use Rattle.std.specs.Prelude.{◌≡◌, ◌++◌, [], OnOk, nat_lt, not};
    ghost use Rattle.irc_moments.specs.Moments.{later};
    ghost use Rattle.irc_entrance.specs.Proxying.{Tells};

    /// Nothing has come at this moment.
    pub fn new(alloc: Global, now: Moment) -> Self
        ensures bytes { result.bytes.items ≡ [] }
        ensures until { result.until ≡ later now 10000 }
    {
        AwaitedHeader {
            bytes: Vec::new(alloc),
            until: now.later(WITHIN_MS),
        }
    }

    /// What has come so far.
    pub fn read(&self) -> ProxyHeader
        ensures { Tells self.now.bytes.items result }
    {
        read_header(&self.bytes)
    }

    /// More has come.
    ///
    /// # Errors
    /// Where memory runs out.
    pub fn add(&mut self, more: &[u8]) -> Result<(), AllocError>
        ensures bytes { OnOk result (self.new.bytes.items ≡ self.old.bytes.items ++ more.now) }
        ensures until { self.new.until ≡ self.old.until }
    {
        self.bytes.extend_from_slice(more)
    }

    /// Whether its time is over at a moment.
    pub fn is_over(&self, now: Moment) -> bool
        ensures { result ≡ not (nat_lt now self.now.until) }
    {
        !now.is_before(self.until)
    }
}

/// Whether one more may be awaited beside so many.
pub fn may_await_one_more(awaited: usize) -> bool
    ensures { result ≡ may_await_one_more awaited }
{
    awaited < MOST_AWAITED
}
