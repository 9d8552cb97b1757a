//! When a server is called again.
ghost use Rattle.std.specs.Prelude.{◌≡◌, ◌&&◌};

use irc_moments::Moment;

/// A server that is called, and how its last call stands.
#[derive(Drop)]
pub struct Retry {
    /// How many milliseconds it is unknown at least before it is called again; none where it is
    /// called once.
    pub after: Option<u64>,
    /// Whether a call is under way.
    pub is_calling: bool,
    /// The link that a call has become, and that is open still.
    pub link: Option<u64>,
    /// How many servers had connected as the last call began.
    pub visits: u64,
    /// Whether one has connected until that call ended: it may be the same server, and where two
    /// calls cross both links end.
    pub has_crossed: bool,
    /// Since when it is unknown, as far as is seen, with no call under way and no link of one open:
    /// since the last one failed or ended, or since it was seen to be.
    pub since: Option<Moment>,
}

impl Retry {
    ghost use Rattle.irc_turns.specs.Retries.{not_called, call_begun, call_reached, call_ended};
    ghost use Rattle.irc_turns.specs.Retries.{is_free, is_due, has_waited, unknown_since, seen};

    /// A server that was not called yet.
    pub fn new(after: Option<u64>) -> Self
        ensures { result ≡ not_called after }
    {
        Retry {
            after,
            is_calling: false,
            link: None,
            visits: 0,
            has_crossed: false,
            since: None,
        }
    }

    /// A call begins, where so many servers have connected so far.
    pub fn begin(&mut self, visits: u64)
        ensures { self.new ≡ call_begun self.old visits }
    {
        self.is_calling = true;
        self.link = None;
        self.visits = visits;
        self.since = None;
    }

    /// The call is through, and is a link of this number now.
    pub fn reach(&mut self, link: u64)
        ensures { self.new ≡ call_reached self.old link }
    {
        self.is_calling = false;
        self.link = Some(link);
    }

    /// The call has failed, or its link has ended, where so many servers have connected so far.
    pub fn end(&mut self, visits: u64, now: Moment)
        ensures { self.new ≡ call_ended self.old visits now }
    {
        self.has_crossed = self.visits != visits;
        self.is_calling = false;
        self.link = None;
        self.since = Some(now);
    }

    /// Whether no call is under way, and no link of one is open.
    pub fn is_free(&self) -> bool
        ensures { result ≡ is_free self.now }
    {
        !self.is_calling && self.link.is_none()
    }

    /// Takes in whether the server is known at a moment. It may be that it is to be called then:
    /// this side yields where both should not call at the same time again, and waits so much
    /// longer, as no other of its network does if that can be had.
    pub fn see(&mut self, now: Moment, is_known: bool, yields: bool, spread: u64) -> bool
        ensures due { result ≡ is_due self.old now is_known yields spread }
        ensures seen { self.new ≡ seen self.old now is_known }
    {
        let is_away = self.is_free() && !is_known;
        let is_due = is_away && self.has_waited(now, yields, spread);
        self.since = self.unknown_since(now, is_away);
        self.has_crossed = self.has_crossed && !is_known;
        is_due
    }

    /// Whether it was unknown for long enough.
    fn has_waited(&self, now: Moment, yields: bool, spread: u64) -> bool
        ensures { result ≡ has_waited self.now.after self.now.since
            (self.now.has_crossed && yields) spread now }
    {
        match (self.after, self.since) {
            (Some(after), Some(since)) => {
                let apart = after.saturating_add(spread);
                let wait = if self.has_crossed && yields {
                    apart.saturating_mul(2)
                } else {
                    apart
                };
                now.since(since) >= wait
            }
            _ => false,
        }
    }

    /// Since when it is unknown, where it is at this moment, or is not.
    fn unknown_since(&self, now: Moment, is_away: bool) -> Option<Moment>
        ensures { result ≡ unknown_since self.now.since now is_away }
    {
        if !is_away {
            return None;
        }
        match self.since {
            Some(since) => Some(since),
            None => Some(now),
        }
    }
}
