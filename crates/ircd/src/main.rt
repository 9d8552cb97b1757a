//! `ircd sim` runs a script of clients on networks of IRC servers; `ircd serve` serves clients and
//! linked servers on TCP sockets.
#![tactic(auto)]

ghost use Rattle.std.specs.Process.{exit_status};
ghost use Rattle.ircd.specs.Endings.{IsStatus};

mod closed_door;
mod front;
mod program;
#[cfg(test)]
mod program_tests;
mod rereading;
mod serve;
#[cfg(test)]
mod serve_tests;
mod setup;
mod unwaited;

use irc_endings::{stop_with, words_given};
use program::run;
use std::process::ExitCode;
use unwaited::Unwaited;

fn main(rt: HostRuntime) -> ExitCode {
    run_words(&rt)
}

/// Does what the words of the command line ask for. The status is one of how the program may end.
fn run_words(rt: &HostRuntime) -> ExitCode
    ensures { IsStatus (exit_status result) }
{
    ExitCode::from(run_given(rt))
}

/// The same, as a number. What is said goes to the process's own streams.
fn run_given(rt: &HostRuntime) -> u8
    ensures { IsStatus result }
{
    let mut errors = Unwaited {
        errors: rt.stderr(),
    };
    match words_given(rt) {
        Ok(words) => run(rt, &words, &mut rt.stdin(), &mut rt.stdout(), &mut errors),
        Err(stop) => stop_with(stop, &mut errors),
    }
}
