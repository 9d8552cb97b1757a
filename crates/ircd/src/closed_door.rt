//! What is said of an address at which the system lets nobody listen.
ghost use Rattle.std.specs.Prelude.{◌≡◌, IfSome};
ghost use Rattle.std.specs.Net.Text.{socket_text};
ghost use Rattle.ircd.specs.ClosedDoors.{SaysClosed, closed_line};

use arrayvec::ArrayVec;
use std::io;
use std::io::Write;
use std::net::SocketAddr;

/// The text of an address: the longest has this many bytes, with a scope and a port.
type AddressText = ArrayVec<u8, 58>;

/// The words of an error. What is longer is cut.
type ErrorWords = ArrayVec<u8, 128>;

/// A line, with its line feed: the parts around the words come to 84 bytes at most.
type ClosedLine = ArrayVec<u8, 256>;

/// Says that the system lets nobody listen at an address, and why, in a line and by one write. Of a
/// line that the writer does not take whole the rest is lost.
pub(crate) fn say_closed<E: Write>(address: SocketAddr, error: io::Error, errors: &mut E)
    ensures { SaysClosed address (E.contents errors.old) (E.contents errors.new) }
{
    let Some(address) = address_text(address) else {
        return;
    };
    let line = closed_line(&address, &error_words(error));
    let _lost = errors.write(line.as_slice());
}

/// The text of an address, if there is room for it, as there is for each.
fn address_text(address: SocketAddr) -> Option<AddressText>
    ensures { IfSome result (λ text. text.items ≡ socket_text address) }
{
    let mut text = AddressText::new();
    match write!(text, "{address}") {
        Ok(()) => Some(text),
        Err(_) => None,
    }
}

/// What the system says of an error.
fn error_words(error: io::Error) -> ErrorWords {
    let mut words = ErrorWords::new();
    let _cut = write!(words, "{error}");
    words
}

/// The line of the text of an address, and of these words.
fn closed_line(address: &AddressText, words: &ErrorWords) -> ClosedLine
    ensures { result.items ≡ closed_line address.now.items words.now.items }
{
    let mut line = ClosedLine::new();
    let _ = line.try_extend_from_slice(b"ircd: cannot listen on ");
    let _ = line.try_extend_from_slice(address.as_slice());
    let _ = line.try_extend_from_slice(b": ");
    let _ = line.try_extend_from_slice(words.as_slice());
    let _ = line.try_extend_from_slice(b"\n");
    line
}
