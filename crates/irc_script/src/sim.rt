//! `ircd sim`: a script is read to its end, and run.
ghost use Rattle.std.specs.Prelude.{◌≡◌, ◌≤◌, [], length, IfOk};
ghost use Rattle.std.specs.Io.KnownBytes.{IsAtEnd};
ghost use Rattle.irc_script.specs.Limits.{read_size};
ghost use Rattle.irc_script.specs.Loops.Reading.{Draws, IsReadTo};
ghost use Rattle.irc_script.specs.Loops.Steps.{PerformsAll, RunsAll};
ghost use Rattle.irc_script.specs.Runs.{Ran, IsTextOf};

use crate::commands::ScriptCommand;
use crate::fault::{SimFault, Trouble};
use crate::laws;
use crate::printing::written;
use crate::script::read_script;
use crate::script_run::ScriptRun;
use crate::sink::{PrintBuffer, flush, write_waiting};
use std::alloc::Global;
use std::io::{Read, Write};

/// How many reads a script may take.
pub const MAX_READS: u32 = 16_777_216;

/// How many bytes are asked for in one read.
pub const READ_SIZE: usize = 4096;

/// Runs a script on the network of its servers, and prints what comes of it: each line that a
/// client receives, as the client's number and the line; `= 1` or `= 0` for a delivery; `= M` for
/// bytes that come, M how many came; `= K` for a settling, K the lines that were completed, at most
/// 2^64 - 1; `! NUMBER` for a refusal.
///
/// The network is one room: the lines that are printed for a client are a front of those, in order,
/// that one room machine for its joined part of the network sends it, and all of them where the
/// script is run to its end and nothing is on its way between servers.
///
/// # Errors
/// - [`SimFault::BadScript`] where a line is none that a script can have. Then nothing was run and
/// nothing printed.
/// - [`SimFault::Failed`] where memory runs out.
/// - [`SimFault::Device`] where a read or a write fails, or [`MAX_READS`] reads do not end the
/// script.
pub fn run_sim<R: Read, W: Write>(
    alloc: Global,
    input: &mut R,
    output: &mut W,
) -> Result<(), SimFault>
    ensures { Ran (R.remaining input.old) result (W.contents output.old) (W.contents output.new) }
{
    laws::scripts_print_one_room();
    laws::scripts_run_on();
    let text = read_text(alloc, input)?;
    let script = read_script(alloc, &text)?;
    let mut script_run = ScriptRun::new(alloc, &script.servers)?;
    run_all(&mut script_run, &script.commands, output)?;
    Ok(())
}

/// All that a reader gives.
fn read_text<R: Read>(alloc: Global, input: &mut R) -> Result<Vec<u8, Global>, Trouble>
    ensures { IfOk result (λ text. IsTextOf text.items (R.remaining input.old)) }
{
    let mut text = Vec::new(alloc);
    if reads_to_end(input, &mut text)? {
        Ok(text)
    } else {
        Err(Trouble::Device)
    }
}

/// Reads into an empty text until the reader has no more, in at most [`MAX_READS`] reads. Says
/// whether it came to the end.
fn reads_to_end<R: Read>(input: &mut R, text: &mut Vec<u8, Global>) -> Result<bool, Trouble>
    requires { text.old.items ≡ [] }
    ensures { IfOk result (λ ended. IsReadTo ended text.new.items (R.remaining input.old)) }
{
    let mut piece = [0; READ_SIZE];
    for _ in 0..MAX_READS {
        let count = read_some(input, &mut piece)?;
        if count == 0 {
            return Ok(true);
        }
        text.extend_from_slice(&piece[..count])?;
    }
    Ok(false)
}

/// One read: how many bytes it gave, none only where the reader has no more.
fn read_some<R: Read>(input: &mut R, piece: &mut [u8]) -> Result<usize, Trouble>
    requires { length piece.old ≡ read_size }
    ensures within { IfOk result (λ count. count ≤ length piece.new) }
    ensures bytes { IfOk result (λ count. Draws R.remaining count piece.new input.old input.new) }
    ensures end { IfOk result (λ count. count ≡ 0 → IsAtEnd (R.remaining input.new)) }
{
    input.read(piece).map_err(|_| Trouble::Device)
}

/// Runs commands, and writes all that they print; also where memory runs out, what was printed
/// before that.
fn run_all<W: Write>(
    run: &mut ScriptRun,
    commands: &[ScriptCommand<'_>],
    output: &mut W,
) -> Result<(), Trouble>
    ensures { RunsAll W.contents result commands.now run.old output.old run.new output.new }
{
    let mut waiting = PrintBuffer::new();
    let performed = perform_all(run, commands, &mut waiting, output);
    write_waiting(&mut waiting, output)?;
    performed?;
    written(flush(output))
}

fn perform_all<W: Write>(
    run: &mut ScriptRun,
    commands: &[ScriptCommand<'_>],
    waiting: &mut PrintBuffer,
    output: &mut W,
) -> Result<(), Trouble>
    ensures { PerformsAll W.contents result commands.now
        run.old output.old waiting.old run.new output.new waiting.new }
{
    for command in commands {
        run.perform(command, waiting, output)?;
    }
    Ok(())
}
