//! Networks that are made, played and read. What is shown of them rests on what the calls of `Net`
//! promise, so that none of it can be promised less.
#![tactic(auto)]

ghost use Rattle.std.specs.Prelude.{◌≡◌, true, map, OnOk};
ghost use Rattle.irc_net.specs.ByteNetwork.{is_byte_rest};
ghost use Rattle.irc_net.specs.Calls.{IsGivable};
ghost use Rattle.irc_net.specs.Faults.{is_refusal};
ghost use Rattle.irc_net.specs.Making.{everywhere};
ghost use Rattle.irc_net.specs.NetworkViews.{item_of, line_bytes};
ghost use Rattle.tests_networks.specs.Played.{AnswersAsOwed, Begins, GoesOn, IsWhole, PlaysOn};
ghost use Rattle.tests_networks.specs.Played.{ReadsOwed, RunsAreOwed, TookFew};

#[cfg(test)]
mod agreeing;
#[cfg(test)]
mod configs;
#[cfg(test)]
mod making;
#[cfg(test)]
mod tests;

use irc_line::Text;
use irc_names::ServerName;
use irc_net::{Answer, ClientNumber, Config, Item, Kept, Net, NetConfigFault, NetFault};
use irc_routes::Programs;
use std::alloc::Global;

/// A network of these configurations, to which nothing was given.
///
/// # Errors
/// As of [`Net::serving`].
pub fn begun(
    alloc: Global,
    configs: Vec<Config, Global>,
    programs: Programs,
) -> Result<Net<Kept>, NetConfigFault>
    ensures { Begins (everywhere programs) configs.items result }
{
    Net::serving(alloc, configs, programs)
}

/// Gives an item. At rest it is refused just where it has to be, and for that cause.
///
/// # Errors
/// As of [`Net::item`].
pub fn give(net: &mut Net<Kept>, item: Item) -> Result<Answer, NetFault>
    requires line { IsGivable (item_of item) }
    ensures answered { AnswersAsOwed net.old (item_of item) result }
    ensures played { PlaysOn net.old (item_of item) result net.new }
{
    irc_net::laws::every_network_is_one_room();
    net.item(item)
}

/// Lets so many bytes come, if the two servers are linked.
///
/// # Errors
/// Here and below: where memory runs out.
pub fn let_come(
    net: &mut Net<Kept>,
    from: &ServerName,
    to: &ServerName,
    count: usize,
) -> Result<(), NetFault>
    ensures { OnOk result (GoesOn net.old net.new) }
{
    match net.deliver_bytes(from, to, count) {
        Ok(_) => Ok(()),
        Err(fault) => unless_refused(fault),
    }
}

/// A refusal changes nothing.
fn unless_refused(fault: NetFault) -> Result<(), NetFault>
    ensures { OnOk result (is_refusal fault ≡ true) }
{
    if fault.is_refusal() {
        Ok(())
    } else {
        Err(fault)
    }
}

/// Lets all come that is on its way.
pub fn settle(net: &mut Net<Kept>) -> Result<(), NetFault>
    ensures goes { OnOk result (GoesOn net.old net.new) }
    ensures rest { OnOk result (is_byte_rest net.new.network ≡ true) }
{
    net.settle()?;
    Ok(())
}

/// What a client has received: a front of what it is owed by all that was given, and at rest all
/// of it.
pub fn lines(net: &Net<Kept>, client: ClientNumber) -> &[Text]
    ensures { ReadsOwed net.now client (map line_bytes result.now) }
{
    irc_net::laws::every_network_is_one_room();
    net.received(client)
}

/// How many lines were taken since the last item: no more than servers need.
pub fn lines_taken(net: &Net<Kept>) -> u64
    ensures { TookFew net.now result }
{
    irc_net::laws::every_network_is_one_room();
    net.lines_taken()
}

/// What a network has run to is owed by its configurations and its items, by the law alone.
pub fn runs_are_owed()
    ensures { RunsAreOwed }
{
    irc_net::laws::every_network_is_one_room();
}

/// Each client of a network at rest has received what it is owed, each server has what is in its
/// part, and none closes a link.
pub fn rooms(net: &Net<Kept>)
    ensures { IsWhole net.now }
{
    irc_net::laws::every_network_is_one_room();
    net.one_room();
}
