//! The program, on whatever streams it is given.
ghost use Rattle.std.specs.Prelude.{◌≡◌};
ghost use Rattle.irc_endings.specs.declared.fault.Stop.TheVariants.{Usage};
ghost use Rattle.ircd.specs.Endings.{AsksForRun, AsksNothing, EndsRunOn, EndsServingOn, IsStatus};
ghost use Rattle.ircd.specs.Endings.{TellsUsage, WhereServing};
ghost use Rattle.irc_endings.specs.Statuses.{ending_of, status_of};

use crate::serve::serve;
use irc_endings::{SimFault, Stop, Task, end_with, run_sim, stop_with};
use std::alloc::Global;
use std::fs::Files;
use std::io::{Read, Write};
use std::net::Net;

/// Does what the words behind the program's name ask for, and gives the exit status. Where that is
/// not 0, the reason is written to `errors`. Wrong words are found before anything is read.
pub fn run<T: AllocGlobal + Files + Net, R: Read, O: Write, E: Write>(
    rt: &T,
    words: &[String],
    input: &mut R,
    output: &mut O,
    errors: &mut E,
) -> u8
    ensures status { IsStatus result }
    ensures usage { AsksNothing words.now → result ≡ status_of Usage }
    ensures usage_told { AsksNothing words.now → TellsUsage E.contents errors.old errors.new }
    ensures unread { AsksNothing words.now → input.new ≡ input.old }
    ensures unwritten { AsksNothing words.now → output.new ≡ output.old }
    ensures sim { AsksForRun words.now → EndsRunOn R.remaining O.contents E.contents
        result input.old output.old output.new errors.old errors.new }
    ensures serve { WhereServing words.now (λ file turns. EndsServingOn O.contents E.contents turns
        result output.old output.new errors.old errors.new) }
    ensures serve_unread { WhereServing words.now (λ file turns. input.new ≡ input.old) }
{
    match Task::read(words) {
        Some(Task::Sim) => run_script(rt.alloc(), input, output, errors),
        Some(Task::Serve(file, turns)) => run_server(rt, file, turns, output, errors),
        None => stop_with(Stop::Usage, errors),
    }
}

fn run_script<R: Read, O: Write, E: Write>(
    alloc: Global,
    input: &mut R,
    output: &mut O,
    errors: &mut E,
) -> u8
    ensures { EndsRunOn R.remaining O.contents E.contents
        result input.old output.old output.new errors.old errors.new }
{
    let ended = run_sim(alloc, input, output);
    end_with(stopped(ended), errors)
}

/// How the end of a script's run ends the program.
fn stopped(ended: Result<(), SimFault>) -> Result<(), Stop>
    ensures { result ≡ ending_of ended }
{
    match ended {
        Ok(()) => Ok(()),
        Err(fault) => Err(Stop::from(fault)),
    }
}

fn run_server<T: AllocGlobal + Files + Net, O: Write, E: Write>(
    rt: &T,
    file: &str,
    turns: u64,
    output: &mut O,
    errors: &mut E,
) -> u8
    ensures { EndsServingOn O.contents E.contents turns
        result output.old output.new errors.old errors.new }
{
    let ended = serve(rt, file, turns, output, errors);
    end_with(ended, errors)
}
