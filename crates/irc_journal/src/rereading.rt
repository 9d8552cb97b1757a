//! What is said of a configuration that is read again while the server runs.
ghost use Rattle.std.specs.Prelude.{◌≡◌, ◌≤◌, length};
ghost use Rattle.irc_journal.specs.Rereadings.{rereading_line, restart_line};
ghost use Rattle.irc_journal.specs.Saying.{IsFrontSaid};

use crate::tidings::JournalLine;
use std::io::Write;

/// What has come of reading a configuration again.
#[derive(Clone, Copy, Drop)]
pub enum Rereading {
    /// What may change while the server runs is now as the file says.
    Taken,
    /// The file cannot be read.
    Unreadable,
    /// It is no configuration.
    Bad,
    /// The message of the day that it names cannot be read, is none, or has no room.
    BadMotd,
    /// Memory ran out.
    NoMemory,
    /// What asks for it cannot be taken away, and so the file is not read.
    Stuck,
}

/// Says what has come of it.
pub fn say_rereading<E: Write>(what: Rereading, errors: &mut E)
    ensures { IsFrontSaid (rereading_line what) (E.contents errors.old) (E.contents errors.new) }
{
    say_line(rereading_line(what), errors);
}

/// Says that what the file has at a key waits for the next start of the server.
pub fn say_restart<E: Write>(key: &str, errors: &mut E)
    requires { length key.now ≤ 32 }
    ensures { IsFrontSaid (restart_line key.now) (E.contents errors.old) (E.contents errors.new) }
{
    say_line(restart_line(key).as_slice(), errors);
}

/// Says a line.
fn say_line<E: Write>(line: &[u8], errors: &mut E)
    ensures { IsFrontSaid line.now (E.contents errors.old) (E.contents errors.new) }
{
    let _lost = errors.write(line);
}

/// The line that tells it.
fn rereading_line(what: Rereading) -> &'static [u8]
    ensures { result.now ≡ rereading_line what }
{
    match what {
        Rereading::Taken => b"ircd: configuration: read again\n",
        Rereading::Unreadable => b"ircd: configuration: not read again: it cannot be read\n",
        Rereading::Bad => b"ircd: configuration: not read again: it is bad\n",
        Rereading::BadMotd => b"ircd: configuration: not read again: its motd is bad\n",
        Rereading::NoMemory => b"ircd: configuration: not read again: no memory\n",
        Rereading::Stuck => {
            b"ircd: configuration: not read again: what asks for it cannot be taken away\n"
        }
    }
}

/// The line that tells of a key.
fn restart_line(key: &str) -> JournalLine
    requires { length key.now ≤ 32 }
    ensures { result.items ≡ restart_line key.now }
{
    let mut line = JournalLine::new();
    let _ = line.try_extend_from_slice(b"ircd: configuration: ");
    let _ = line.try_extend_from_slice(key.as_bytes());
    let _ = line.try_extend_from_slice(b" has changed: that wants a restart\n");
    line
}
