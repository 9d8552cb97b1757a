//! An example of a network whose deliveries meet the laws: servers in a tree that relay news.

ghost use Rattle.std.specs.Prelude.{◌≡◌, ◌≢◌, ◌++◌, [], ◌∷◌, slice_set, IfOk, OnOk, IfSome, IfNone};
ghost use Rattle.std.specs.Prelude.{IsTrue, IsFalse, MatchBool, position};
ghost use Rattle.irc_relay.specs.Queue.{queue_of};
ghost use Rattle.irc_relay.specs.Links.{IsForest};
ghost use Rattle.irc_relay.specs.Relay.{IsAtRest, GoesAway};
ghost use Rattle.irc_relay.specs.NewsNet.{net_of, links_of, streams_of, HasSettled};
ghost use Rattle.irc_relay.specs.NewsNet.{PublishedGoesAway, name, news_parts, SendsItem, SendsOn};
ghost use Rattle.irc_relay.specs.NewsNet.{ShowsItem, DeliversNews, KeepsNews, ShowAlike};
ghost use Rattle.irc_relay.specs.NewsNet.{HasAnnounced};
ghost use Rattle.irc_relay.specs.Loops.Taking.{is_between, TakesNone, TakesOldest};

use std::alloc::{AllocError, Global};

/// A link between two servers.
#[derive(Clone, Copy)]
pub struct Edge {
    pub near: u8,
    pub far: u8,
}

/// A news item on its way.
#[derive(Clone, Copy)]
pub struct NewsSent {
    pub from: u8,
    pub to: u8,
    pub item: u8,
}

/// A news item that a server has shown.
#[derive(Clone, Copy)]
pub struct Shown {
    pub at: u8,
    pub item: u8,
}

/// The servers: how they are linked, what each showed last, what they showed, and what is under
/// way, in the order of sending.
#[derive(Drop)]
pub struct News {
    pub edges: Vec<Edge>,
    pub latest: [u8; 256],
    pub shown: Vec<Shown>,
    pub flying: Vec<NewsSent>,
}

// Where the first item from one server to another stands.
fn first_between(flying: &[NewsSent], from: u8, to: u8) -> Option<usize>
    ensures { result ≡ position (is_between from to) flying.now }
{
    flying.iter().position(|s| s.from == from && s.to == to)
}

// Takes the oldest item on its way from one server to another out of what is under way.
fn take_oldest(flying: &mut Vec<NewsSent>, from: u8, to: u8) -> Option<u8>
    ensures some { IfSome result
        (λ item. TakesOldest from to item flying.old.items flying.new.items) }
    ensures none { IfNone result (TakesNone from to flying.old.items flying.new.items) }
{
    let index = first_between(flying, from, to)?;
    let taken = flying.remove(index);
    Some(taken.item)
}

// Sends an item that came from one neighbour to all others.
fn send_on(
    edges: &[Edge],
    at: u8,
    from: u8,
    item: u8,
    flying: &mut Vec<NewsSent>,
) -> Result<(), AllocError>
    ensures sent { OnOk result (SendsOn edges.now at from item flying.old.items flying.new.items) }
{
    for edge in edges {
        if edge.near == at && edge.far != from {
            flying.push(NewsSent {
                from: at,
                to: edge.far,
                item,
            })?;
        } else if edge.far == at && edge.near != from {
            flying.push(NewsSent {
                from: at,
                to: edge.near,
                item,
            })?;
        }
    }
    Ok(())
}

impl News {
    /// Servers that are linked in this way, and have shown nothing.
    pub fn new(alloc: Global, edges: Vec<Edge>) -> News
        ensures edges { result.edges.items ≡ edges.items }
        ensures rest { IsAtRest (net_of result) }
    {
        News {
            edges,
            latest: [0; 256],
            shown: Vec::new(alloc),
            flying: Vec::new(alloc),
        }
    }

    /// Gives a news item to a server, which shows it and sends it to all its neighbours.
    pub fn publish(&mut self, at: u8, item: u8) -> Result<(), AllocError>
        ensures shown { OnOk result (ShowsItem at item self.old self.new) }
        ensures sent { OnOk result (SendsItem at item self.old self.new) }
        ensures latest { OnOk result (self.new.latest ≡ slice_set self.old.latest at item) }
        ensures goes_away { OnOk result (PublishedGoesAway at self.old self.new) }
        ensures edges { OnOk result (self.new.edges.items ≡ self.old.edges.items) }
    {
        self.latest[usize::from(at)] = item;
        self.shown.push(Shown { at, item })?;
        send_on(&self.edges, at, at, item, &mut self.flying)
    }

    /// Delivers the oldest item on its way from one server to another, and says whether there was
    /// one.
    pub fn deliver(&mut self, from: u8, to: u8) -> Result<bool, AllocError>
        requires { from ≢ to }
        ensures taken { IfOk result
            (λ taken. MatchBool taken (DeliversNews from to self.old self.new)
            (queue_of news_parts self.old.flying.items (name from) (name to) ≡ [])) }
        ensures kept { IfOk result (λ _. KeepsNews self.old self.new) }
        ensures edges { OnOk result (self.new.edges.items ≡ self.old.edges.items) }
    {
        let Some(item) = take_oldest(&mut self.flying, from, to) else {
            return Ok(false);
        };
        let place = usize::from(to);
        if item != self.latest[place] {
            self.latest[place] = item;
            self.shown.push(Shown { at: to, item })?;
            send_on(&self.edges, to, from, item, &mut self.flying)?;
        }
        Ok(true)
    }

    /// Delivers what has come from one server, in the order of sending, until nothing is under way.
    pub fn settle(&mut self, source: u8) -> Result<(), AllocError>
        requires forest { IsForest (links_of self.old.edges.items) }
        requires goes_away { GoesAway (streams_of self.old source) (net_of self.old) }
        ensures settled { OnOk result (HasSettled source self.old self.new) }
    {
        while !self.flying.is_empty() {
            let next = self.flying[0];
            self.deliver(next.from, next.to)?;
        }
        Ok(())
    }

    /// Gives a news item to a server and delivers until nothing is under way. Whoever links join to
    /// that server has shown the item then, unless it is the one that they all showed last.
    pub fn announce(&mut self, source: u8, item: u8) -> Result<(), AllocError>
        requires forest { IsForest (links_of self.old.edges.items) }
        requires rest { IsAtRest (net_of self.old) }
        requires alike { ShowAlike source self.old }
        ensures announced { OnOk result (HasAnnounced source item self.old self.new) }
    {
        self.publish(source, item)?;
        self.settle(source)
    }
}
