//! The links behind which a channel has members, kept for as long as nothing changes.
ghost use Rattle.std.specs.Prelude.{◌≡◌, None, option_to_list, OnOk};
ghost use Rattle.std.specs.Option.{option_copied};
ghost use Rattle.irc_routes.specs.Known.{next_hop};
ghost use Rattle.irc_stage.specs.Loops.Around.{hop_of};
ghost use Rattle.irc_stage.specs.Loops.Branching.{Added, AreBranches, hops_of, is_of, link_toward};
ghost use Rattle.irc_stage.specs.Loops.Branching.{links_of};

use crate::numbers::Link;
use irc_names::{ChannelName, Nick};
use irc_room::Room;
use irc_routes::Routes;
use irc_users::User;
use std::alloc::{AllocError, Global};

/// The links behind which a member is of the channel that something was said in last: so a text
/// does not walk the servers of the members.
#[derive(Drop)]
pub(crate) struct Branches {
    /// The channel; none once a user, a channel or a server has changed.
    pub channel: Option<ChannelName>,
    /// The links, by number, each once.
    pub links: Vec<Link, Global>,
}

impl Branches {
    /// Those of no channel.
    pub(crate) fn new(alloc: Global) -> Self
        ensures { result.channel ≡ None }
    {
        Branches {
            channel: None,
            links: Vec::new(alloc),
        }
    }

    /// Something has changed: they are to be found anew.
    pub(crate) fn clear(&mut self)
        ensures { self.new.channel ≡ None }
    {
        self.channel = None;
    }

    /// Whether they are those of this channel.
    fn are_of(&self, channel: &ChannelName) -> bool
        ensures { result ≡ is_of self.now channel.now }
    {
        match &self.channel {
            Some(name) => *name == *channel,
            None => false,
        }
    }

    /// Those of this channel, which are found anew unless they are known.
    ///
    /// # Errors
    /// Where memory runs out.
    pub(crate) fn refresh(
        &mut self,
        room: &Room,
        routes: &Routes,
        channel: &ChannelName,
    ) -> Result<(), AllocError>
        requires { AreBranches self.old room.now.room routes.now }
        ensures found { OnOk result
            (self.new.links.items ≡ links_of room.now.room routes.now channel.now) }
        ensures so { OnOk result (AreBranches self.new room.now.room routes.now) }
    {
        if self.are_of(channel) {
            return Ok(());
        }
        self.clear();
        self.links.clear();
        let nicks = room.member_nicks(channel)?;
        add_hops(room, routes, nicks.as_slice(), &mut self.links)?;
        self.links.sort_unstable();
        self.links.dedup();
        self.channel = Some(channel.copy());
        Ok(())
    }
}

/// Adds the link toward each of these users that is one of another server.
fn add_hops(
    room: &Room,
    routes: &Routes,
    nicks: &[Nick],
    links: &mut Vec<Link, Global>,
) -> Result<(), AllocError>
    ensures { OnOk result (Added links.old (hops_of room.now.room routes.now nicks.now) links.new) }
{
    for nick in nicks {
        add_link(links, toward(room, routes, nick))?;
    }
    Ok(())
}

/// Adds a link, if there is one.
pub(crate) fn add_link(links: &mut Vec<Link, Global>, link: Option<Link>) -> Result<(), AllocError>
    ensures { OnOk result (Added links.old (option_to_list link) links.new) }
{
    if let Some(link) = link {
        links.push(link)?;
    }
    Ok(())
}

/// The link toward a user, where there is such a user, and it is one of another server.
fn toward(room: &Room, routes: &Routes, nick: &Nick) -> Option<Link>
    ensures { result ≡ link_toward room.now.room routes.now nick.now }
{
    hop(routes, room.user(nick.as_bytes()))
}

/// The same of a user that was found, if one was.
pub(crate) fn hop(routes: &Routes, user: Option<&User>) -> Option<Link>
    ensures { result ≡ hop_of routes.now (option_copied user.entry) }
{
    match user {
        Some(user) => routes.next_hop(user.home.as_bytes()).map(Link::of),
        None => None,
    }
}
