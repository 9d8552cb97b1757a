//! A network of servers, as those above have it.
ghost use Rattle.std.specs.Prelude.{◌≡◌, true, false, [], ◌∷◌, ◌++◌, map, IfOk, OnOk};
ghost use Rattle.std.specs.Option.{option_map};
ghost use Rattle.irc_network.specs.ByteNetwork.{is_byte_rest};
ghost use Rattle.irc_routes.specs.declared.programs.Programs.TheVariants.{Off};
ghost use Rattle.irc_net.specs.declared.step.Step.TheVariants.{Bytes, Deliver, Give, Settle};
ghost use Rattle.irc_net.specs.Calls.{step_refused, ArePlayable, ArePlayed, BytesTaken};
ghost use Rattle.irc_net.specs.Calls.{IsDelivered, IsGivable, IsGiven, IsPlayable, IsSettled};
ghost use Rattle.irc_net.specs.Calls.{IsStepDone};
ghost use Rattle.irc_net.specs.Faults.{deliver_fault, do_agree, fault_by, item_fault};
ghost use Rattle.irc_net.specs.Making.{IsNetMade, everywhere};
ghost use Rattle.irc_net.specs.Loops.Answering.{KeepsAnswer};
ghost use Rattle.irc_net.specs.Loops.Coming.{AreLinkedEnds, HaveComeTo};
ghost use Rattle.irc_net.specs.Loops.Settling.{HasComeToRest};
ghost use Rattle.irc_net.specs.OneRoom.{IsKeptSound, IsOneRoomNet, IsOwed, RefusesAsTheWorld};
ghost use Rattle.irc_net.specs.OneRoom.{TakesFew};
ghost use Rattle.irc_net.specs.Views.{answers_now, counted_now, delivered_now};
ghost use Rattle.irc_network.specs.Network.{received_by};
ghost use Rattle.irc_network.specs.Views.{item_of, items_of, line_bytes, refusal_of};
ghost use Rattle.irc_world.specs.WithinLimits.{IsItemWithin};

use crate::answer::Answer;
use crate::fault::NetFault;
use crate::making::{NetConfigFault, configs_fault, forest_of, in_order, nodes_of};
use crate::step::{Step, StepAnswer};
use irc_forest::EndPlaces;
use irc_items::laws;
use irc_line::Text;
use irc_names::ServerName;
use irc_network::{CallOutput, ClientNumber, History, Item, Kept, Network, Receipt, Refusal};
use irc_routes::Programs;
use irc_server::Config;
use std::alloc::{AllocError, Global};
use std::marker::Model;

/// A network of servers: what is given to it is done by the servers, each of which knows of the
/// others by the bytes of lines alone, and those come in pieces and in any order that one asks for.
/// What was given, and what its clients have received, is kept where its history is [`Kept`].
#[derive(Drop)]
pub struct Net<H: History> {
    alloc: Global,
    failed: bool,
    network: Network<H>,
}

/// In a clause it is the network, and whether memory ran out for it. Until then it is sound.
impl<H: History> Model for Net<H> {
    ghost use Rattle.std.specs.Prelude.{◌≡◌, false};
    ghost use Rattle.irc_net.specs.Calls.{NetView};
    ghost use Rattle.irc_net.specs.Loops.Codes.{net_code};
    ghost use Rattle.irc_net.specs.OneRoom.{IsKeptSound};

    ghost Value = { NetView };

    ghost coded = { net_code };

    ghost view = { λ net. record { failed = net.failed; network = net.network } };

    ghost invariant = { λ net. net.failed ≡ false → IsKeptSound net.network };
}

impl Net<Kept> {
    /// What a client has received, whole lines; also once it is closed. Nothing for a number that
    /// was never given. They are a front of the lines that one room machine for its joined part
    /// sends it, and at rest all of them.
    pub fn received(&self, client: ClientNumber) -> &[Text]
        ensures lines { map line_bytes result.now ≡ received_by self.now.network.network client }
        ensures owed { IsOwed self.now client (map line_bytes result.now) }
    {
        laws::received_is_front();
        laws::rest_is_one_room();
        irc_network::laws::rest_as_lines();
        self.network.received(client)
    }

    /// What was given, in turn.
    pub fn items(&self) -> &[Item]
        ensures { items_of result.now ≡ self.now.network.network.items }
    {
        self.network.items()
    }
}

impl<H: History> Net<H> {
    /// Servers that are not linked, and no client. Links tell who is away, and clients have the
    /// commands of the profile alone.
    ///
    /// # Errors
    /// [`NetConfigFault`]s 1 to 3 for their causes in this order; [`NetConfigFault::Memory`] where
    /// memory runs out.
    pub fn new(alloc: Global, configs: Vec<Config, Global>) -> Result<Self, NetConfigFault>
        ensures { IsNetMade (everywhere Off) configs.items result }
    {
        Net::serving(alloc, configs, Programs::Off)
    }

    /// The same of servers whose clients all have what programs expect, or all not.
    ///
    /// # Errors
    /// Those of [`Net::new`].
    pub fn serving(
        alloc: Global,
        configs: Vec<Config, Global>,
        programs: Programs,
    ) -> Result<Self, NetConfigFault>
        ensures { IsNetMade (everywhere programs) configs.items result }
    {
        crate::laws::networks_stay_sound();
        if let Some(fault) = configs_fault(&configs) {
            return Err(fault);
        }
        let ordered = in_order(configs);
        let forest = forest_of(alloc, &ordered)?;
        let nodes = nodes_of(alloc, ordered, programs)?;
        Ok(Net {
            alloc,
            failed: false,
            network: Network::new(alloc, forest, nodes)?,
        })
    }

    /// Whether no byte is on its way between servers, and no part of a line has come to one.
    pub fn at_rest(&self) -> bool
        ensures { result ≡ is_byte_rest self.now.network }
    {
        self.network.is_at_rest()
    }

    /// How many lines were taken since the last item, at most 2^64 - 1. They are no more than
    /// servers need to tell each other of that item.
    pub fn lines_taken(&self) -> u64
        ensures taken { result ≡ self.now.network.network.taken }
        ensures few { TakesFew self.now result }
    {
        laws::taken_are_few();
        self.network.lines_taken()
    }

    /// Whether two servers agree on all channels that both would have if they were linked; false
    /// where no server has one of these names. A link asks for no agreement: it joins what both
    /// have.
    pub fn agrees(&self, one: &ServerName, other: &ServerName) -> bool
        ensures { result ≡ do_agree self.now.network.network one.now other.now }
    {
        self.network.agrees(one, other)
    }

    /// An item is given. At rest just that is refused which the network as its people know it
    /// refuses.
    ///
    /// # Errors
    /// [`NetFault`]s 1 to 5, with nothing changed, and 7 and 8.
    pub fn item(&mut self, item: Item) -> Result<Answer, NetFault>
        requires line { IsGivable (item_of item) }
        ensures given { IsGiven self.old (item_of item) result self.new }
        ensures refused { RefusesAsTheWorld self.old (item_of item) }
    {
        crate::laws::networks_stay_sound();
        laws::refusals_are_the_worlds();
        irc_network::laws::rest_as_lines();
        keeps_limits(&item);
        if self.failed {
            return Err(NetFault::Failed);
        }
        if let Some(fault) = item_fault(&self.network, &item) {
            return Err(fault);
        }
        let client = self.network.number_given(&item);
        let mut output = CallOutput::new(self.alloc);
        self.failed = true;
        self.network.give(item, &mut output)?;
        self.failed = false;
        Ok(Answer {
            client,
            lines: output.lines,
        })
    }

    /// The bytes up to and with the next LF come from one server to another, if one is on its way.
    /// Answers whether one was, and what clients have received by the line that they complete, if
    /// they do.
    ///
    /// # Errors
    /// [`NetFault::NoSuchServer`], then [`NetFault::NotLinked`], with nothing changed;
    /// [`NetFault::Memory`], [`NetFault::Failed`].
    pub fn deliver(
        &mut self,
        from: &ServerName,
        to: &ServerName,
    ) -> Result<(bool, Vec<Receipt, Global>), NetFault>
        ensures { IsDelivered self.old from.now to.now (delivered_now result) self.new }
    {
        let ends = self.ends_linked(from, to)?;
        let count = self.network.through_line_feed(ends.near, ends.far);
        if count == 0 {
            return Ok((false, Vec::new(self.alloc)));
        }
        let (_, lines) = self.come(ends, count)?;
        Ok((true, lines))
    }

    /// So many bytes come from one server to another, or all that are on their way where there are
    /// fewer. Answers how many came, and what clients have received by the lines that they
    /// complete.
    ///
    /// # Errors
    /// [`NetFault::NoSuchServer`], then [`NetFault::NotLinked`], with nothing changed;
    /// [`NetFault::Memory`], [`NetFault::Failed`].
    pub fn deliver_bytes(
        &mut self,
        from: &ServerName,
        to: &ServerName,
        count: usize,
    ) -> Result<(usize, Vec<Receipt, Global>), NetFault>
        ensures { BytesTaken self.old from.now to.now count (counted_now result) self.new }
    {
        let ends = self.ends_linked(from, to)?;
        self.come(ends, count)
    }

    /// Where two linked servers are.
    ///
    /// # Errors
    /// As above.
    fn ends_linked(&self, from: &ServerName, to: &ServerName) -> Result<EndPlaces, NetFault>
        ensures { AreLinkedEnds self.now from.now to.now result }
    {
        if self.failed {
            return Err(NetFault::Failed);
        }
        if let Some(fault) = deliver_fault(&self.network, from, to) {
            return Err(fault);
        }
        match self.network.ends_of(from, to) {
            Some(ends) => Ok(ends),
            None => Err(NetFault::NoSuchServer),
        }
    }

    /// So many bytes come from the first of two linked servers to the other.
    ///
    /// # Errors
    /// Where memory runs out.
    fn come(
        &mut self,
        ends: EndPlaces,
        count: usize,
    ) -> Result<(usize, Vec<Receipt, Global>), NetFault>
        requires stands { self.old.failed ≡ false }
        ensures { HaveComeTo self.old ends count (counted_now result) self.new }
    {
        crate::laws::networks_stay_sound();
        let mut output = CallOutput::new(self.alloc);
        self.failed = true;
        let came = self.network.come(ends, count, &mut output)?;
        self.failed = false;
        Ok((came.bytes, output.lines))
    }

    /// Bytes come in turn, each time those up to and with the next LF in the first direction, by
    /// the names of its ends, in which one is on its way, until nothing is. Answers how many lines
    /// they completed, at most 2^64 - 1, and what clients have received by them.
    ///
    /// # Errors
    /// [`NetFault::Memory`], [`NetFault::Failed`].
    pub fn settle(&mut self) -> Result<(u64, Vec<Receipt, Global>), NetFault>
        ensures settled { IsSettled self.old (counted_now result) self.new }
        ensures rest { IfOk result (λ _. is_byte_rest self.new.network ≡ true) }
    {
        crate::laws::networks_stay_sound();
        if self.failed {
            return Err(NetFault::Failed);
        }
        let mut output = CallOutput::new(self.alloc);
        self.failed = true;
        let count = take_all(&mut self.network, &mut output)?;
        self.failed = false;
        Ok((count, output.lines))
    }

    /// At rest a network is one room: each server knows all that there is to know in its part of
    /// the network, and each client has received just the lines that it is owed: those that one
    /// room machine for its joined part sends it. While lines are on their way, that is what it
    /// comes to once they are taken, in whatever order, and no server closes a link, upon one that
    /// is delivered or as the link is made. It is told of every network for which memory never ran
    /// out, whatever was given to it.
    pub fn one_room(&self)
        ensures { IsOneRoomNet self.now }
    {
        laws::rest_is_one_room();
        laws::no_link_is_closed();
        laws::new_link_is_open();
        irc_network::laws::rest_as_lines();
        let _ = &self.network;
    }

    /// Does steps one after another. A refusal 1 to 5 is that step's answer.
    ///
    /// # Errors
    /// [`NetFault::Memory`], [`NetFault::Failed`]: those before it are done, and those behind it
    /// are not. Where it is the answers that memory is wanting for, that step is done too.
    pub fn play(&mut self, steps: &[Step]) -> Result<Vec<StepAnswer, Global>, NetFault>
        requires lines { ArePlayable steps.now }
        ensures { ArePlayed self.old steps.now (answers_now result) self.new }
    {
        let mut answers = Vec::new(self.alloc);
        for step in steps {
            let answer = self.do_step(step)?;
            self.keep_answer(answer, &mut answers)?;
        }
        Ok(answers)
    }

    /// Keeps a step's answer behind those before it. Where memory runs out the step is done all the
    /// same, and the network has failed.
    fn keep_answer(
        &mut self,
        answer: StepAnswer,
        answers: &mut Vec<StepAnswer, Global>,
    ) -> Result<(), NetFault>
        ensures { KeepsAnswer self.old answer answers.old answers.new result self.new }
    {
        match push_answer(answers, answer) {
            Ok(()) => Ok(()),
            Err(_) => {
                self.failed = true;
                Err(NetFault::Memory)
            }
        }
    }

    /// Does one step.
    fn do_step(&mut self, step: &Step) -> Result<StepAnswer, NetFault>
        requires line { IsPlayable step.now }
        ensures { IsStepDone self.old step.now result self.new }
    {
        match step {
            Step::Give(item) => self.step_by_item(item),
            Step::Deliver(from, to) => self.step_by_delivery(from, to),
            Step::Bytes(from, to, count) => self.step_by_bytes(from, to, *count),
            Step::Settle => self.step_by_settling(),
        }
    }

    /// Gives an item, as a step.
    fn step_by_item(&mut self, item: &Item) -> Result<StepAnswer, NetFault>
        requires line { IsGivable (item_of item.now) }
        ensures { IsStepDone self.old (Give item.now) result self.new }
    {
        match self.item(item.copy()) {
            Ok(answer) => Ok(StepAnswer::Given(answer)),
            Err(fault) => refused(fault),
        }
    }

    /// Lets bytes come, as a step.
    fn step_by_bytes(
        &mut self,
        from: &ServerName,
        to: &ServerName,
        count: usize,
    ) -> Result<StepAnswer, NetFault>
        ensures { IsStepDone self.old (Bytes from.now to.now count) result self.new }
    {
        match self.deliver_bytes(from, to, count) {
            Ok((taken, lines)) => Ok(StepAnswer::Taken(taken, lines)),
            Err(fault) => refused(fault),
        }
    }

    /// Delivers a line, as a step.
    fn step_by_delivery(
        &mut self,
        from: &ServerName,
        to: &ServerName,
    ) -> Result<StepAnswer, NetFault>
        ensures { IsStepDone self.old (Deliver from.now to.now) result self.new }
    {
        match self.deliver(from, to) {
            Ok((was_taken, lines)) => Ok(StepAnswer::Delivered(was_taken, lines)),
            Err(fault) => refused(fault),
        }
    }

    /// Settles, as a step.
    fn step_by_settling(&mut self) -> Result<StepAnswer, NetFault>
        ensures { IsStepDone self.old Settle result self.new }
    {
        match self.settle() {
            Ok((count, lines)) => Ok(StepAnswer::Settled(count, lines)),
            Err(fault) => Err(fault),
        }
    }
}

/// Lets bytes of a sound network come in turn until nothing is on its way, and counts the lines
/// that they complete. They come to an end since each of those leaves fewer.
fn take_all<H: History>(
    network: &mut Network<H>,
    output: &mut CallOutput,
) -> Result<u64, AllocError>
    requires sound { IsKeptSound network.old }
    ensures { IfOk result
        (λ count. HasComeToRest count network.old output.old network.new output.new) }
{
    laws::delivery_keeps_sound();
    laws::turn_leaves_fewer();
    laws::waiting_are_lines();
    irc_network::laws::turn_as_lines();
    irc_network::laws::rest_as_lines();
    let mut count: u64 = 0;
    while let Some(lines) = network.come_to_line(output)? {
        count = count.saturating_add(lines as u64);
    }
    Ok(count)
}

/// The host from which a client connects is one, and so is the line that a client says.
fn keeps_limits(item: &Item)
    requires line { IsGivable (item_of item.now) }
    ensures { IsItemWithin (item_of item.now) }
{
    if let Item::Connect(_, host) = item {
        let _ = host.as_bytes();
    }
}

/// Why an item is not taken, if it is not.
#[tactic(auto, unfolding(crate::specs::Faults::item_fault))]
fn item_fault<H: History>(network: &Network<H>, item: &Item) -> Option<NetFault>
    ensures { result ≡ item_fault network.now (item_of item.now) }
{
    if !network.is_at_rest() {
        return Some(NetFault::NotAtRest);
    }
    fault_of(network.refusal(item))
}

/// Why nothing comes from one server to another, if it does not.
#[tactic(auto, unfolding(crate::specs::Faults::deliver_fault))]
fn deliver_fault<H: History>(
    network: &Network<H>,
    from: &ServerName,
    to: &ServerName,
) -> Option<NetFault>
    ensures { result ≡ deliver_fault network.now from.now to.now }
{
    fault_of(network.way_refusal(from, to))
}

/// A refusal of the network as one of those above.
fn fault_of(refusal: Option<Refusal>) -> Option<NetFault>
    ensures { result ≡ option_map fault_by (option_map refusal_of refusal) }
{
    match refusal {
        Some(refusal) => Some(NetFault::from(refusal)),
        None => None,
    }
}

/// A refusal is the answer of a step, and want of memory ends the play.
fn refused(fault: NetFault) -> Result<StepAnswer, NetFault>
    ensures { result ≡ step_refused fault }
{
    if fault.is_refusal() {
        Ok(StepAnswer::Refused(fault))
    } else {
        Err(fault)
    }
}

fn push_answer(answers: &mut Vec<StepAnswer, Global>, answer: StepAnswer) -> Result<(), AllocError>
    ensures { OnOk result (answers.new.items ≡ answers.old.items ++ answer ∷ []) }
{
    match answers.push(answer) {
        Ok(()) => Ok(()),
        Err(_) => Err(AllocError),
    }
}
