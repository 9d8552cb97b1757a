//! Why the program ends before its work is done, what it says then, and its exit status.
ghost use Rattle.std.specs.Prelude.{◌≡◌, OnOk};
ghost use Rattle.irc_endings.specs.declared.fault.Stop.TheVariants.{BadScript};
ghost use Rattle.irc_script.specs.Sinks.{Wrote};
ghost use Rattle.irc_endings.specs.Saying.{Utters};
ghost use Rattle.irc_endings.specs.Statuses.{status_of, stop_line, stop_of, stopped};
ghost use Rattle.irc_endings.specs.Statuses.{stop_of_settings, stop_of_config};

use arrayvec::ArrayVec;
use irc_script::{SimFault, Unwritten, write_whole};
use irc_server::ConfigFault;
use irc_settings::SettingsFault;
use itoa::Buffer;
use std::alloc::AllocError;
use std::io::Write;

/// Why the program ends with another status than 0.
#[derive(Clone, Copy, Drop, PartialEq, Eq)]
pub enum Stop {
    /// The words of the command line ask for nothing that the program does.
    Usage,
    /// This line of the script, counted from 1, is bad.
    BadScript(u64),
    /// The file is no configuration of a server.
    BadConfiguration,
    /// Memory ran out, a read or a write failed, or the system let nobody listen.
    Failed,
}

impl From<SimFault> for Stop {
    ghost from_gives = { λ fault stop. stop ≡ stop_of fault };

    fn from(fault: SimFault) -> Self {
        match fault {
            SimFault::BadScript(line) => Stop::BadScript(line),
            SimFault::Failed | SimFault::Device => Stop::Failed,
        }
    }
}

impl From<AllocError> for Stop {
    ghost from_gives = { λ _ stop. stop ≡ stopped };

    fn from(_error: AllocError) -> Self {
        Stop::Failed
    }
}

impl From<Unwritten> for Stop {
    ghost from_gives = { λ _ stop. stop ≡ stopped };

    fn from(_fault: Unwritten) -> Self {
        Stop::Failed
    }
}

impl From<SettingsFault> for Stop {
    ghost from_gives = { λ fault stop. stop ≡ stop_of_settings fault };

    fn from(fault: SettingsFault) -> Self {
        match fault {
            SettingsFault::BadConfiguration => Stop::BadConfiguration,
            SettingsFault::Memory => Stop::Failed,
        }
    }
}

impl From<ConfigFault> for Stop {
    ghost from_gives = { λ fault stop. stop ≡ stop_of_config fault };

    fn from(fault: ConfigFault) -> Self {
        match fault {
            ConfigFault::BadName | ConfigFault::DoubleName => Stop::BadConfiguration,
            ConfigFault::Memory => Stop::Failed,
        }
    }
}

/// The exit status where the words are wrong.
const STATUS_OF_USAGE: u8 = 2;

/// The exit status where the script, or the configuration, is bad.
const STATUS_OF_BAD_INPUT: u8 = 3;

/// The exit status where the program failed.
const STATUS_OF_FAILURE: u8 = 4;

impl Stop {
    /// The exit status.
    pub fn status(self) -> u8
        ensures { result ≡ status_of self }
    {
        match self {
            Stop::Usage => STATUS_OF_USAGE,
            Stop::BadScript(_) | Stop::BadConfiguration => STATUS_OF_BAD_INPUT,
            Stop::Failed => STATUS_OF_FAILURE,
        }
    }

    /// Says why the program ends, in one line.
    ///
    /// # Errors
    /// Where the write fails. What was written then is a front of the line.
    pub fn tell<E: Write>(self, errors: &mut E) -> Result<(), Unwritten>
        ensures whole { OnOk result (Utters E.contents (stop_line self) errors.old errors.new) }
        ensures front { Wrote (E.contents errors.old) (E.contents errors.new) (stop_line self) }
    {
        match self {
            Stop::Usage => write_whole(
                b"ircd: usage: ircd sim | ircd serve FILE [TURNS]\n",
                errors,
            ),
            Stop::BadScript(line) => tell_bad_script(line, errors),
            Stop::BadConfiguration => write_whole(b"ircd: bad configuration\n", errors),
            Stop::Failed => write_whole(b"ircd: failed\n", errors),
        }
    }
}

fn tell_bad_script<E: Write>(line: u64, errors: &mut E) -> Result<(), Unwritten>
    ensures whole { OnOk result
        (Utters E.contents (stop_line (BadScript line)) errors.old errors.new) }
    ensures front { Wrote (E.contents errors.old) (E.contents errors.new)
        (stop_line (BadScript line)) }
{
    let text = bad_script(line);
    write_whole(text.as_slice(), errors)
}

/// The longest line on a bad script: the greatest number has 20 digits.
pub const MAX_BAD_SCRIPT: usize = 44;

/// What is said of a script whose line with this number is bad.
fn bad_script(line: u64) -> ArrayVec<u8, MAX_BAD_SCRIPT>
    ensures { result.items ≡ stop_line (BadScript line) }
{
    let mut text = ArrayVec::new();
    let _ = text.try_extend_from_slice(b"ircd: line ");
    let _ = text.try_extend_from_slice(Buffer::new().format(line).as_bytes());
    let _ = text.try_extend_from_slice(b": bad script\n");
    text
}
