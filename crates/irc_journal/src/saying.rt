//! What there is to tell is said, line by line. Each line is said by one write. Of one that the
//! writer does not take whole the rest is lost: who cannot be told keeps nobody waiting.
ghost use Rattle.std.specs.Prelude.{◌≡◌, None};
ghost use Rattle.std.specs.Option.{option_copied};
ghost use Rattle.irc_journal.specs.Lines.{connections_line};
ghost use Rattle.irc_journal.specs.Saying.{IsFrontSaid, IsSaid};

use crate::tidings::Tidings;
use irc_names::Host;
use std::io::Write;

/// Says this in a line, with the address that is shown, and how many lines were left out before.
pub(crate) fn say<E: Write>(tidings: &Tidings, host: Option<&Host>, more: u64, errors: &mut E)
    ensures { IsSaid tidings.now (option_copied host.entry) more (E.contents errors.old)
        (E.contents errors.new) }
{
    let line = tidings.line(host, more);
    let _lost = errors.write(line.as_slice());
}

/// Says this of a call, which has no address to be shown.
pub fn say_call<E: Write>(tidings: &Tidings, errors: &mut E)
    ensures { IsSaid tidings.now None 0 (E.contents errors.old) (E.contents errors.new) }
{
    say(tidings, None, 0, errors);
}

/// Says whether connections can be taken.
pub fn say_connections<E: Write>(are_taken: bool, errors: &mut E)
    ensures { IsFrontSaid (connections_line are_taken) (E.contents errors.old)
        (E.contents errors.new) }
{
    let _lost = errors.write(connections_line(are_taken));
}

/// The line that tells whether connections can be taken.
fn connections_line(are_taken: bool) -> &'static [u8]
    ensures { result.now ≡ connections_line are_taken }
{
    if are_taken {
        b"ircd: connections are taken again\n"
    } else {
        b"ircd: no descriptor or memory for another connection\n"
    }
}
