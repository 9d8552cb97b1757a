//! What is printed.
ghost use Rattle.std.specs.Prelude.{◌≡◌};
ghost use Rattle.irc_script.specs.Faults.{of_writing};
ghost use Rattle.irc_script.specs.Loops.Steps.{PrintsFault, PrintsText, came_text, receipt_text};
ghost use Rattle.irc_script.specs.Loops.Steps.{receipts_text};
ghost use Rattle.irc_script.specs.Printing.{body_of, count_line, refusal_line, refusal_number};

use crate::fault::{Trouble, Unwritten};
use crate::sink::{PrintBuffer, print_pieces};
use irc_net::{NetFault, Receipt};
use itoa::Buffer;
use std::io::Write;

/// The number by which a refusal is printed. None where it is no refusal, but want of memory.
fn refusal_number(fault: NetFault) -> Option<u64>
    ensures { result ≡ refusal_number fault }
{
    match fault {
        NetFault::NotAtRest => Some(1),
        NetFault::NoSuchServer => Some(2),
        NetFault::NoSuchClient => Some(3),
        NetFault::NotLinked => Some(4),
        NetFault::LinkRefused => Some(5),
        NetFault::Memory | NetFault::Failed => None,
    }
}

/// Prints the number of a refusal.
///
/// # Errors
/// Here and below: where a write fails. Here also where it is no refusal, but want of memory:
/// nothing is printed then.
pub fn print_fault<W: Write>(
    fault: NetFault,
    waiting: &mut PrintBuffer,
    output: &mut W,
) -> Result<(), Trouble>
    ensures { PrintsFault W.contents result fault output.old waiting.old output.new waiting.new }
{
    match refusal_number(fault) {
        Some(number) => written(print_refusal(number, waiting, output)),
        None => Err(Trouble::Memory),
    }
}

/// What could not be written ends the run.
pub fn written(printed: Result<(), Unwritten>) -> Result<(), Trouble>
    ensures { result ≡ of_writing printed }
{
    match printed {
        Ok(()) => Ok(()),
        Err(Unwritten) => Err(Trouble::Device),
    }
}

fn print_refusal<W: Write>(
    number: u64,
    waiting: &mut PrintBuffer,
    output: &mut W,
) -> Result<(), Unwritten>
    ensures { PrintsText W.contents result (refusal_line number)
        output.old waiting.old output.new waiting.new }
{
    let mut digits = Buffer::new();
    let number = digits.format(number).as_bytes();
    print_pieces(&[b"! ", number, b"\n"], waiting, output)
}

/// Prints each line that a client has received, in order, and behind them how many lines or bytes
/// came.
pub fn print_taken<W: Write>(
    count: u64,
    lines: &[Receipt],
    waiting: &mut PrintBuffer,
    output: &mut W,
) -> Result<(), Unwritten>
    ensures { PrintsText W.contents result (came_text count lines.now)
        output.old waiting.old output.new waiting.new }
{
    print_receipts(lines, waiting, output)?;
    print_count(count, waiting, output)
}

fn print_count<W: Write>(
    count: u64,
    waiting: &mut PrintBuffer,
    output: &mut W,
) -> Result<(), Unwritten>
    ensures { PrintsText W.contents result (count_line count)
        output.old waiting.old output.new waiting.new }
{
    let mut digits = Buffer::new();
    let number = digits.format(count).as_bytes();
    print_pieces(&[b"= ", number, b"\n"], waiting, output)
}

/// Prints each line that a client has received, in order.
pub fn print_receipts<W: Write>(
    lines: &[Receipt],
    waiting: &mut PrintBuffer,
    output: &mut W,
) -> Result<(), Unwritten>
    ensures { PrintsText W.contents result (receipts_text lines.now)
        output.old waiting.old output.new waiting.new }
{
    for line in lines {
        print_receipt(line, waiting, output)?;
    }
    Ok(())
}

/// Prints a line that a client has received: the number of the client, a space, and the line.
fn print_receipt<W: Write>(
    line: &Receipt,
    waiting: &mut PrintBuffer,
    output: &mut W,
) -> Result<(), Unwritten>
    ensures { PrintsText W.contents result (receipt_text line.now)
        output.old waiting.old output.new waiting.new }
{
    let mut digits = Buffer::new();
    let number = digits.format(line.client.number()).as_bytes();
    print_pieces(
        &[number, b" ", line_body(&line.text), b"\n"],
        waiting,
        output,
    )
}

/// A text without its CR LF (RFC 2812 section 2.3).
fn line_body(text: &[u8]) -> &[u8]
    ensures { result.now ≡ body_of text.now }
{
    text.strip_suffix(b"\r\n").unwrap_or(text)
}
