//! On which links a line goes.
ghost use Rattle.std.specs.Prelude.{◌≡◌, ℕ, List, ◌++◌, option_to_list, OnOk};
ghost use Rattle.irc_stage.specs.Ways.{but};
ghost use Rattle.irc_stage.specs.Loops.Around.{AreEndsIn, IsAtHand, IsNamedIn, IsOther};
ghost use Rattle.irc_stage.specs.Loops.Branching.{Added, IsRight, KnowsNothing, but_met};
ghost use Rattle.irc_stage.specs.Loops.Branching.{but_toward, toward_members, ways_around};
ghost use Rattle.irc_stage.specs.Loops.Parts.{lines_on};

use crate::branches::{Branches, hop};
use crate::clients::ClientTable;
use crate::link_end::LinkEnd;
use crate::numbers::Link;
use crate::parts::send_on_all;
use irc_batch::Batch;
use irc_line::Text;
use irc_link_writer::effect_text;
use irc_names::ChannelName;
use irc_room::{Effect, Named, Room, Target};
use irc_routes::Routes;
use std::alloc::{AllocError, Global};
use std::collections::BTreeMap;

/// What an effect meets at a server in which it has changed nothing yet. What it names in the room
/// was found once, and is lent to all who ask.
#[derive(Clone, Copy)]
pub struct Around<'a> {
    /// The room.
    pub room: &'a Room,
    /// The servers that are known.
    pub routes: &'a Routes,
    /// The ends of the open links, each by the number of its link.
    pub ends: &'a BTreeMap<Link, LinkEnd, Global>,
    /// The clients.
    pub(crate) clients: &'a ClientTable,
    /// What it names in the room.
    pub named: Named<'a>,
}

/// The links on which a line goes.
#[derive(Drop)]
pub struct Ways {
    /// Those of the line at hand, by number.
    pub links: Vec<Link, Global>,
    /// The links behind which the channel has members that something was said in last.
    branches: Branches,
}

impl Ways {
    /// No links, and nothing is known of a channel's members.
    pub fn new(alloc: Global) -> Self
        ensures { KnowsNothing result }
    {
        Ways {
            links: Vec::new(alloc),
            branches: Branches::new(alloc),
        }
    }

    /// Something has changed: where a channel has members is to be found anew.
    pub fn forget(&mut self)
        ensures forgotten { KnowsNothing self.new }
        ensures same { self.new.links ≡ self.old.links }
    {
        self.branches.clear();
    }

    /// Finds the links that count, but for the one by which a line came.
    ///
    /// # Errors
    /// Where memory runs out.
    pub fn find_met(
        &mut self,
        arrival: Option<Link>,
        ends: &BTreeMap<Link, LinkEnd, Global>,
    ) -> Result<(), AllocError>
        ensures found { OnOk result (self.new.links.items ≡ but_met arrival ends.now) }
        ensures same { self.new.branches ≡ self.old.branches }
    {
        self.links.clear();
        add_met(&mut self.links, arrival, ends)
    }

    /// Finds the links on which an effect is told, but for the one by which it came, and writes its
    /// line where there are any. Where no link is open none is looked for.
    ///
    /// # Errors
    /// Where memory runs out.
    pub(crate) fn ready(
        &mut self,
        around: Around<'_>,
        arrival: Option<Link>,
        effect: &Effect,
        line: &mut Text,
    ) -> Result<(), AllocError>
        requires right { IsRight self.old around }
        requires named { IsNamedIn around effect.now }
        requires met { AreEndsIn around }
        ensures at_hand { OnOk result
            (IsAtHand around.entry arrival effect.now self.new.links line.new) }
        ensures so { OnOk result (IsRight self.new around.entry) }
    {
        self.links.clear();
        if around.ends.is_empty() {
            return Ok(());
        }
        self.find(around, arrival, effect)?;
        if self.links.is_empty() {
            return Ok(());
        }
        *line = effect_text(effect, around.named, around.room, around.routes);
        Ok(())
    }

    /// The line at hand goes on its links.
    ///
    /// # Errors
    /// Where memory runs out.
    pub(crate) fn tell(&self, line: &Text, out: &mut Batch) -> Result<(), AllocError>
        ensures { OnOk result (out.new.outs
            ≡ out.old.outs ++ lines_on self.now.links.items line.now.items) }
    {
        send_on_all(line, self.links.as_slice(), out)
    }

    /// Finds the links on which an effect is told, but for the one by which it came.
    ///
    /// # Errors
    /// Where memory runs out.
    pub fn find(
        &mut self,
        around: Around<'_>,
        arrival: Option<Link>,
        effect: &Effect,
    ) -> Result<(), AllocError>
        requires right { IsRight self.old around }
        requires named { IsNamedIn around effect.now }
        ensures found { OnOk result
            (self.new.links.items ≡ ways_around around.entry arrival effect.now) }
        ensures so { OnOk result (IsRight self.new around.entry) }
    {
        self.links.clear();
        match effect {
            Effect::Say {
                target: Target::Channel(channel),
                ..
            } => self.add_branches(around, arrival, channel),
            Effect::Say {
                target: Target::User(_),
                ..
            } => add_toward(&mut self.links, around, arrival),
            Effect::Invite { .. } => add_toward(&mut self.links, around, arrival),
            _ => add_met(&mut self.links, arrival, around.ends),
        }
    }

    /// Adds the links behind which a channel has members.
    fn add_branches(
        &mut self,
        around: Around<'_>,
        arrival: Option<Link>,
        channel: &ChannelName,
    ) -> Result<(), AllocError>
        requires { IsRight self.old around }
        ensures found { OnOk result
            (self.new.links.items ≡ self.old.links.items
            ++ but arrival (toward_members around.entry channel.now)) }
        ensures so { OnOk result (IsRight self.new around.entry) }
    {
        self.branches.refresh(around.room, around.routes, channel)?;
        add_others(&mut self.links, arrival, self.branches.links.as_slice())
    }
}

/// Adds these links, but for the one by which the line came.
fn add_others(
    links: &mut Vec<Link, Global>,
    arrival: Option<Link>,
    more: &[Link],
) -> Result<(), AllocError>
    ensures { OnOk result (Added links.old (but arrival more.now) links.new) }
{
    for link in more {
        add_unless(links, &arrival, Some(*link))?;
    }
    Ok(())
}

/// Adds the link toward the server of the user that an effect is for, where that is another server.
fn add_toward(
    links: &mut Vec<Link, Global>,
    around: Around<'_>,
    arrival: Option<Link>,
) -> Result<(), AllocError>
    ensures { (nick : List ℕ) → IsOther around.entry nick
        → OnOk result (Added links.old (but_toward around.entry arrival nick) links.new) }
{
    add_unless(links, &arrival, hop(around.routes, around.named.other))
}

/// Adds the links that count.
fn add_met(
    links: &mut Vec<Link, Global>,
    arrival: Option<Link>,
    ends: &BTreeMap<Link, LinkEnd, Global>,
) -> Result<(), AllocError>
    ensures { OnOk result (Added links.old (but_met arrival ends.now) links.new) }
{
    for (link, end) in ends.iter() {
        if end.is_met() {
            add_unless(links, &arrival, Some(*link))?;
        }
    }
    Ok(())
}

/// Adds a link, unless it is the one by which the line came.
fn add_unless(
    links: &mut Vec<Link, Global>,
    arrival: &Option<Link>,
    link: Option<Link>,
) -> Result<(), AllocError>
    ensures { OnOk result (Added links.old (but arrival.now (option_to_list link)) links.new) }
{
    match link {
        Some(link) if *arrival != Some(link) => {
            links.push(link)?;
            Ok(())
        }
        _ => Ok(()),
    }
}
