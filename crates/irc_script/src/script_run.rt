//! A script as it runs: the network that it is played on, and what it does to it.
ghost use Rattle.std.specs.Prelude.{◌≡◌, [], ◌∷◌, IfOk};
ghost use Rattle.irc_net.specs.Calls.{IsGivable};
ghost use Rattle.irc_net.specs.NetworkViews.{item_of};
ghost use Rattle.irc_script.specs.Loops.Steps.{PlaysMoves, taken_count};
ghost use Rattle.irc_script.specs.Moves.{delivers_line, gives, lines_said, moves_of, settles_all};
ghost use Rattle.irc_script.specs.Moves.{takes_bytes};
ghost use Rattle.irc_script.specs.Networks.{first_net};
ghost use Rattle.irc_script.specs.ScriptViews.{request};

use crate::commands::ScriptCommand;
use crate::configs::configs_of;
use crate::fault::Trouble;
use crate::lines::lines_said;
use crate::printing::{print_fault, print_receipts, print_taken, written};
use crate::sink::PrintBuffer;
use irc_names::ServerName;
use irc_net::{ClientNumber, Forgotten, Item, Net};
use std::alloc::Global;
use std::io::Write;

/// A script as it runs: the network that it is played on.
#[derive(Drop)]
pub struct ScriptRun {
    alloc: Global,
    pub(crate) net: Net<Forgotten>,
}

impl ScriptRun {
    /// A network of servers with these names: none is linked, and nobody is connected.
    ///
    /// # Errors
    /// Where memory runs out.
    pub fn new(alloc: Global, servers: &[ServerName]) -> Result<Self, Trouble>
        ensures { IfOk result (λ run. run.net.network ≡ first_net servers.now) }
    {
        let configs = configs_of(alloc, servers)?;
        match Net::new(alloc, configs) {
            Ok(net) => Ok(ScriptRun { alloc, net }),
            Err(_) => Err(Trouble::Memory),
        }
    }

    /// Makes the moves of a command on the network, and prints what comes of each.
    ///
    /// # Errors
    /// Here and below: where memory runs out, and where the writer fails.
    pub fn perform<W: Write>(
        &mut self,
        command: &ScriptCommand<'_>,
        waiting: &mut PrintBuffer,
        output: &mut W,
    ) -> Result<(), Trouble>
        ensures { PlaysMoves W.contents result (moves_of (request command.now))
            self.old output.old waiting.old self.new output.new waiting.new }
    {
        match command {
            ScriptCommand::Connect(server, host) => {
                self.give(Item::Connect(server.copy(), host.copy()), waiting, output)
            }
            ScriptCommand::Say(client, rest) => self.say(*client, rest, waiting, output),
            ScriptCommand::Gone(client) => self.give(Item::Gone(*client), waiting, output),
            ScriptCommand::Link(near, far) => {
                self.give(Item::Link(near.copy(), far.copy()), waiting, output)
            }
            ScriptCommand::Cut(near, far) => {
                self.give(Item::Cut(near.copy(), far.copy()), waiting, output)
            }
            ScriptCommand::Deliver(from, to) => self.deliver(from, to, waiting, output),
            ScriptCommand::Bytes(from, to, count) => {
                self.deliver_bytes(from, to, *count, waiting, output)
            }
            ScriptCommand::Settle => self.settle(waiting, output),
        }
    }

    /// Gives the lines that a client says.
    fn say<W: Write>(
        &mut self,
        client: ClientNumber,
        rest: &[u8],
        waiting: &mut PrintBuffer,
        output: &mut W,
    ) -> Result<(), Trouble>
        ensures { PlaysMoves W.contents result (lines_said client rest.now)
            self.old output.old waiting.old self.new output.new waiting.new }
    {
        let lines = lines_said(self.alloc, rest)?;
        let mut left = lines.into_iter();
        while let Some(line) = left.next() {
            self.give(Item::Line(client, line), waiting, output)?;
        }
        Ok(())
    }

    /// Gives one item, and prints the lines that clients receive by it, or the number of its
    /// refusal.
    fn give<W: Write>(
        &mut self,
        item: Item,
        waiting: &mut PrintBuffer,
        output: &mut W,
    ) -> Result<(), Trouble>
        requires { IsGivable (item_of item) }
        ensures { PlaysMoves W.contents result (gives (item_of item) ∷ [])
            self.old output.old waiting.old self.new output.new waiting.new }
    {
        match self.net.item(item) {
            Ok(answer) => written(print_receipts(&answer.lines, waiting, output)),
            Err(fault) => print_fault(fault, waiting, output),
        }
    }

    /// Lets the bytes up to and with the next LF come, if one is on its way, and prints the lines
    /// that clients receive by them and whether one was, or the number of the refusal.
    fn deliver<W: Write>(
        &mut self,
        from: &ServerName,
        to: &ServerName,
        waiting: &mut PrintBuffer,
        output: &mut W,
    ) -> Result<(), Trouble>
        ensures { PlaysMoves W.contents result (delivers_line from.now to.now ∷ [])
            self.old output.old waiting.old self.new output.new waiting.new }
    {
        match self.net.deliver(from, to) {
            Ok((was_taken, lines)) => {
                let count = count_taken(was_taken);
                written(print_taken(count, &lines, waiting, output))
            }
            Err(fault) => print_fault(fault, waiting, output),
        }
    }

    /// Lets so many bytes come, or all that are on their way where there are fewer, and prints the
    /// lines that clients receive by them and how many came, or the number of the refusal.
    fn deliver_bytes<W: Write>(
        &mut self,
        from: &ServerName,
        to: &ServerName,
        count: u64,
        waiting: &mut PrintBuffer,
        output: &mut W,
    ) -> Result<(), Trouble>
        ensures { PlaysMoves W.contents result (takes_bytes from.now to.now count ∷ [])
            self.old output.old waiting.old self.new output.new waiting.new }
    {
        match self.net.deliver_bytes(from, to, count as usize) {
            Ok((came, lines)) => written(print_taken(came as u64, &lines, waiting, output)),
            Err(fault) => print_fault(fault, waiting, output),
        }
    }

    /// Lets bytes come in turn until nothing is on its way, and prints the lines that clients
    /// receive by them and how many lines they completed, at most 2^64 - 1.
    fn settle<W: Write>(&mut self, waiting: &mut PrintBuffer, output: &mut W) -> Result<(), Trouble>
        ensures { PlaysMoves W.contents result (settles_all ∷ [])
            self.old output.old waiting.old self.new output.new waiting.new }
    {
        match self.net.settle() {
            Ok((count, lines)) => written(print_taken(count, &lines, waiting, output)),
            Err(_) => Err(Trouble::Memory),
        }
    }
}

/// Whether bytes came by a delivery, as a number.
fn count_taken(was_taken: bool) -> u64
    ensures { result ≡ taken_count was_taken }
{
    if was_taken { 1 } else { 0 }
}
