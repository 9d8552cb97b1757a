//! The last that the program does.
ghost use Rattle.std.specs.Prelude.{◌≡◌};
ghost use Rattle.irc_script.specs.Sinks.{Wrote};
ghost use Rattle.irc_endings.specs.Statuses.{ending_text, exit_status, status_of, stop_line};

use crate::fault::Stop;
use std::io::Write;

/// The exit status of an ending. Where the work was not done, the reason is written.
pub fn end_with<E: Write>(ended: Result<(), Stop>, errors: &mut E) -> u8
    ensures status { result ≡ exit_status ended }
    ensures tells { Wrote (E.contents errors.old) (E.contents errors.new) (ending_text ended) }
{
    match ended {
        Ok(()) => 0,
        Err(stop) => stop_with(stop, errors),
    }
}

/// Says why the program ends, and gives the exit status.
pub fn stop_with<E: Write>(stop: Stop, errors: &mut E) -> u8
    ensures status { result ≡ status_of stop }
    ensures tells { Wrote (E.contents errors.old) (E.contents errors.new) (stop_line stop) }
{
    // Where even this cannot be written, the status alone tells.
    let _ = stop.tell(errors);
    stop.status()
}
