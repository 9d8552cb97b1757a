//! What a client says, as lines.
ghost use Rattle.std.specs.Prelude.{◌≡◌, ◌∷◌, ◌++◌, [], IfOk};
ghost use Rattle.irc_line.specs.Bytes.{line_feed};
ghost use Rattle.irc_line.specs.Framed.{bytes_of};
ghost use Rattle.irc_line.specs.Lines.{lines};

use irc_line::{Line, lines_of_pieces};
use std::alloc::{AllocError, Global};

/// What ends the line of each `say`.
const LINE_END: &[u8] = b"\n";

/// The lines of what a client says. It goes through a framer of its own, with an LF behind it: as
/// that ends every line, nothing is left in the framer for the client's next `say`.
///
/// # Errors
/// Where memory runs out.
pub fn lines_said(alloc: Global, rest: &[u8]) -> Result<Vec<Line, Global>, AllocError>
    ensures { IfOk result (λ said. bytes_of said.items ≡ lines (rest.now ++ line_feed ∷ [])) }
{
    let pieces = [rest, LINE_END];
    lines_of_pieces(alloc, &pieces)
}
