//! Of which addresses a line was said lately: one fills no log.
ghost use Rattle.std.specs.Prelude.{◌≡◌, ◌<◌, [], ◌++◌, ◌∷◌, length};
ghost use Rattle.std.specs.Option.{option_copied};
ghost use Rattle.irc_journal.specs.Pace.{count_at, count_if, count_then, is_of, is_too_soon};
ghost use Rattle.irc_journal.specs.Pace.{kept_also, last_of, last_then, others_than, place_of};
ghost use Rattle.irc_journal.specs.Pace.{rows_after, rows_if, with_room};

use arrayvec::ArrayVec;
use irc_moments::Moment;
use irc_names::Host;

/// How many milliseconds lie between two lines of one address.
const PACE: u64 = 1000;

/// Of how many addresses it is kept what was said.
const ADDRESSES: usize = 64;

/// What was said last of an address.
#[derive(Drop)]
pub struct LastSaid {
    /// The address.
    pub host: Host,
    /// When a line was said of it.
    pub at: Moment,
    /// How many were left out since.
    pub left_out: u64,
}

/// A blank, such as stands behind the last address in the storage of all.
impl Default for LastSaid {
    #[tactic(auto, unfolding(irc_names::specs::Names::is_host))]
    fn default() -> Self {
        let Some(host) = Host::read(b"x") else {
            unreachable!();
        };
        LastSaid {
            host,
            at: Moment::of(0),
            left_out: 0,
        }
    }
}

/// What was said lately, address by address. It takes no memory but its own.
#[derive(Drop)]
pub struct Lately {
    /// The addresses, the one of which something was to be said last behind the others.
    pub rows: ArrayVec<LastSaid, ADDRESSES>,
}

/// Whether this is the address.
fn is_of(last: &LastSaid, host: &Host) -> bool
    ensures { result ≡ is_of host.now last.now }
{
    last.host.as_bytes() == host.as_bytes()
}

/// Whether a line of an address is left out at this moment.
#[tactic(auto, unfolding(crate::specs::Pace::pace))]
fn is_too_soon(last: &LastSaid, moment: Moment) -> bool
    ensures { result ≡ is_too_soon moment last.now }
{
    moment.since(last.at) < PACE
}

/// How many lines were left out before one at this moment; none, where that one is left out too.
fn count_then(last: &Option<LastSaid>, moment: Moment) -> Option<u64>
    ensures { result ≡ count_then moment last.now }
{
    match last {
        Some(last) if is_too_soon(last, moment) => None,
        Some(last) => Some(last.left_out),
        None => Some(0),
    }
}

/// What was said last of an address behind that one.
fn last_then(last: Option<LastSaid>, host: &Host, moment: Moment) -> LastSaid
    ensures { result ≡ last_then host.now moment last }
{
    match last {
        Some(last) if is_too_soon(&last, moment) => LastSaid {
            left_out: last.left_out.saturating_add(1),
            host: last.host,
            at: last.at,
        },
        _ => LastSaid {
            host: host.copy(),
            at: moment,
            left_out: 0,
        },
    }
}

impl Lately {
    /// Nothing was said.
    pub(crate) fn new() -> Self
        ensures { result.rows.items ≡ [] }
    {
        Lately {
            rows: ArrayVec::new(),
        }
    }

    /// There is a line to say of an address, if it is known. Tells how many of it were left out
    /// before; none, where this one is to be left out too.
    pub(crate) fn count(&mut self, host: Option<&Host>, moment: Moment) -> Option<u64>
        ensures count { result ≡ count_if (option_copied host.entry) moment self.old.rows.items }
        ensures rows { self.new.rows.items
            ≡ rows_if (option_copied host.entry) moment self.old.rows.items }
    {
        match host {
            Some(host) => self.count_at(host, moment),
            None => Some(0),
        }
    }

    /// The same of one that is known.
    fn count_at(&mut self, host: &Host, moment: Moment) -> Option<u64>
        ensures count { result ≡ count_at host.now moment self.old.rows.items }
        ensures rows { self.new.rows.items ≡ rows_after host.now moment self.old.rows.items }
    {
        let last = self.take(host);
        let count = count_then(&last, moment);
        self.keep(last_then(last, host, moment));
        count
    }

    /// Where an address stands, if it does.
    fn place_of(&self, host: &Host) -> Option<usize>
        ensures { result ≡ place_of host.now self.now.rows.items }
    {
        self.rows
            .as_slice()
            .iter()
            .position(|last| is_of(last, host))
    }

    /// Takes out what was said last of an address, if anything was.
    fn take(&mut self, host: &Host) -> Option<LastSaid>
        ensures last { result ≡ last_of host.now self.old.rows.items }
        ensures others { self.new.rows.items ≡ others_than host.now self.old.rows.items }
    {
        match self.place_of(host) {
            Some(place) => self.rows.pop_at(place),
            None => None,
        }
    }

    /// Keeps one more, behind the others.
    fn keep(&mut self, last: LastSaid)
        ensures { self.new.rows.items ≡ kept_also last self.old.rows.items }
    {
        self.make_room();
        let Ok(()) = self.rows.try_push(last) else {
            unreachable!();
        };
    }

    /// Where there is no room for one more, the first goes.
    #[tactic(auto, unfolding(crate::specs::Pace::most_addresses))]
    fn make_room(&mut self)
        ensures rows { self.new.rows.items ≡ with_room self.old.rows.items }
        ensures room { length self.new.rows.items < ADDRESSES }
    {
        if self.rows.is_full() {
            self.rows.remove(0);
        }
    }
}
