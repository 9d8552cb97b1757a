//! How text goes out: it waits until there is much of it, and then goes out in one write.
ghost use Rattle.std.specs.Prelude.{◌≡◌, [], IfOk, OnOk, OnErr};
ghost use Rattle.std.specs.Io.KnownBytes.{Appends, Keeps};
ghost use Rattle.arrayvec.specs.ArrayVec.{array_vec_len};
ghost use Rattle.irc_script.specs.Loops.Steps.{IsRest, PrintsText, pieces_text};
ghost use Rattle.irc_script.specs.Sinks.{Wrote};

use crate::fault::Unwritten;
use arrayvec::ArrayVec;
use std::io::{ErrorKind, Write};

/// How many bytes may wait.
pub const WAITING_ROOM: usize = 16_384;

/// How many writes one text may take: a writer may take less than it is given, and may be
/// interrupted.
pub const MAX_WRITES: u32 = 16_777_216;

/// What is printed and not yet written.
pub type PrintBuffer = ArrayVec<u8, WAITING_ROOM>;

/// Prints pieces of a text, one behind another.
///
/// # Errors
/// Here and below: where a write fails.
pub fn print_pieces<W: Write>(
    pieces: &[&[u8]],
    waiting: &mut PrintBuffer,
    output: &mut W,
) -> Result<(), Unwritten>
    ensures { PrintsText W.contents result (pieces_text pieces.now)
        output.old waiting.old output.new waiting.new }
{
    for piece in pieces {
        print_bytes(piece, waiting, output)?;
    }
    Ok(())
}

/// Prints bytes: they wait where there is room for them; else all that waits is written, and then
/// they are.
fn print_bytes<W: Write>(
    bytes: &[u8],
    waiting: &mut PrintBuffer,
    output: &mut W,
) -> Result<(), Unwritten>
    ensures { PrintsText W.contents result bytes.now output.old waiting.old output.new waiting.new }
{
    match waiting.try_extend_from_slice(bytes) {
        Ok(()) => Ok(()),
        Err(_) => {
            write_waiting(waiting, output)?;
            write_whole(bytes, output)
        }
    }
}

/// Writes all that waits.
///
/// # Errors
/// Where the write fails. Then nothing waits either.
pub fn write_waiting<W: Write>(waiting: &mut PrintBuffer, output: &mut W) -> Result<(), Unwritten>
    ensures prints { PrintsText W.contents result [] output.old waiting.old output.new waiting.new }
    ensures none { waiting.new.items ≡ [] }
    ensures len { array_vec_len waiting.new ≡ 0 }
{
    let written = write_whole(waiting.as_slice(), output);
    waiting.clear();
    written
}

/// Writes all of a text, in as many writes as the writer wants.
///
/// # Errors
/// Where a write fails, or [`MAX_WRITES`] do not end it. What was written then is a front of the
/// text.
pub fn write_whole<W: Write>(text: &[u8], output: &mut W) -> Result<(), Unwritten>
    ensures whole { OnOk result (Appends (W.contents output.old) (W.contents output.new) text.now) }
    ensures front { Wrote (W.contents output.old) (W.contents output.new) text.now }
{
    let mut rest = text;
    for _ in 0..MAX_WRITES {
        if rest.is_empty() {
            return Ok(());
        }
        rest = write_some(rest, output)?;
    }
    Err(Unwritten)
}

/// One write: what is left of the text then. An interrupted one leaves it whole.
fn write_some<'a, W: Write>(text: &'a [u8], output: &mut W) -> Result<&'a [u8], Unwritten>
    ensures some { IfOk result (λ rest. IsRest W.contents output.old text.now output.new rest.now) }
    ensures none { OnErr result (Keeps (W.contents output.old) (W.contents output.new)) }
{
    match output.write(text) {
        Ok(0) => Err(Unwritten),
        Ok(count) => Ok(&text[count..]),
        Err(error) if error.kind() == ErrorKind::Interrupted => Ok(text),
        Err(_) => Err(Unwritten),
    }
}

/// Sees to it that all that was written arrives.
///
/// # Errors
/// Where that fails.
pub fn flush<W: Write>(output: &mut W) -> Result<(), Unwritten>
    ensures { Keeps (W.contents output.old) (W.contents output.new) }
{
    output.flush().map_err(|_| Unwritten)
}
