//! What the program says before it serves.
ghost use Rattle.std.specs.Prelude.{OnOk};
ghost use Rattle.irc_script.specs.Sinks.{Wrote};
ghost use Rattle.irc_endings.specs.Ready.{ready_text};
ghost use Rattle.irc_endings.specs.Saying.{Utters};

use irc_script::{Unwritten, flush, write_whole};
use std::io::Write;

/// What is printed once clients can connect.
const READY: &[u8] = b"ready\n";

/// Says `ready`, and sees to it that it arrives.
///
/// # Errors
/// Where that fails. What was written then is a front of the line.
pub fn say_ready<O: Write>(output: &mut O) -> Result<(), Unwritten>
    ensures whole { OnOk result (Utters O.contents ready_text output.old output.new) }
    ensures front { Wrote (O.contents output.old) (O.contents output.new) ready_text }
{
    write_whole(READY, output)?;
    flush(output)
}
