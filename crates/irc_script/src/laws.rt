//! What holds of scripts, and of the constants. Each law is a function that does nothing, and its
//! contract is the law.
ghost use Rattle.std.specs.Prelude.{◌≡◌};
ghost use Rattle.irc_script.specs.Limits.{max_reads, max_script_servers, max_writes, read_size};
ghost use Rattle.irc_script.specs.Limits.{waiting_room};
ghost use Rattle.irc_script.specs.Loops.Steps.{ScriptsRunOn};
ghost use Rattle.irc_script.specs.RunLaws.{EachRuns, OrderIsSo, PrintsOneRoom, RunsOneWay};
ghost use Rattle.irc_script.specs.RunLaws.{SettlesToRest};

use crate::script::MAX_SERVERS;
use crate::sim::{MAX_READS, READ_SIZE};
use crate::sink::{MAX_WRITES, WAITING_ROOM};

/// How many servers a script may name is the number of the definitions.
#[tactic(auto, unfolding(crate::specs::Limits::max_script_servers))]
pub fn most_servers_are_so()
    ensures { MAX_SERVERS ≡ max_script_servers }
{}

/// So is how much is read and written, and may wait.
#[tactic(auto, unfolding(crate::specs::Limits::max_reads, crate::specs::Limits::max_writes))]
pub fn limits_are_so()
    ensures reads { MAX_READS ≡ max_reads }
    ensures read { READ_SIZE ≡ read_size }
    ensures writes { MAX_WRITES ≡ max_writes }
    ensures waiting { WAITING_ROOM ≡ waiting_room }
{}

/// Each script can be run to its end, and runs in one way: what it prints, and where it comes to,
/// is one.
pub fn scripts_run_one_way()
    ensures each { EachRuns }
    ensures one_way { RunsOneWay }
{
    irc_net::laws::networks_stay_sound();
    irc_net::laws::each_settles();
}

/// Whatever of a script was begun can be run to its end, and what was printed is a front of what
/// the whole script prints.
pub(crate) fn scripts_run_on()
    ensures { ScriptsRunOn }
{
    irc_net::laws::networks_stay_sound();
    irc_net::laws::each_settles();
}

/// The servers of a script's network are those that it names, and stand in order.
pub fn servers_are_in_order()
    ensures { OrderIsSo }
{}

/// Whatever a script asks for, what it prints is what each client receives of one room.
pub fn scripts_print_one_room()
    ensures { PrintsOneRoom }
{
    irc_net::laws::networks_stay_sound();
    irc_net::laws::answers_are_received();
    irc_net::network_laws::receipts_are_received();
    irc_net::laws::kept_is_owed();
    irc_net::laws::settings_stay();
}

/// Behind a `settle` nothing is on its way.
pub fn settling_leaves_rest()
    ensures { SettlesToRest }
{}
