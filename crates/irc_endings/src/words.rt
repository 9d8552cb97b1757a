//! What the words of the command line ask for.
ghost use Rattle.std.specs.Prelude.{◌≡◌, option_map, IfErr, IfOk};
ghost use Rattle.irc_endings.specs.declared.fault.Stop.TheVariants.{Failed};
ghost use Rattle.irc_decimals.specs.Numbers.{written_number};
ghost use Rattle.irc_endings.specs.Words.{behind_name, errand, serves, task_of, texts_of, AreGiven};
ghost use Rattle.irc_endings.specs.Words.{AreWordsOf};
ghost use Rattle.irc_endings.specs.Statuses.{stop_unread};

use crate::fault::Stop;
use irc_decimals::read_number;
use std::alloc::Global;
use std::env::{Args, Env, args};
use std::io;
use std::io::ErrorKind;

/// What the program is asked to do.
#[derive(Clone, Copy)]
pub enum Task<'a> {
    /// To run the script on standard input.
    Sim,
    /// To serve as this file says, for so many turns.
    Serve(&'a str, u64),
}

impl<'a> Task<'a> {
    /// What the words behind the program's name ask for; none where they are no words of a task.
    #[tactic(auto, unfolding(irc_decimals::specs::Numbers::max_number))]
    pub fn read(words: &'a [String]) -> Option<Self>
        ensures { option_map errand result ≡ task_of (texts_of words.now) }
    {
        match words {
            [word] if word.as_str() == "sim" => Some(Task::Sim),
            [word, file] if word.as_str() == "serve" => {
                Some(Task::Serve(file.as_str(), u64::MAX))
            }
            [word, file, turns] if word.as_str() == "serve" => serve_for(
                file.as_str(),
                turns.as_bytes(),
            ),
            _ => None,
        }
    }
}

/// To serve as a file says, for as many turns as a word is a number of.
fn serve_for<'a>(file: &'a str, turns: &[u8]) -> Option<Task<'a>>
    ensures { option_map errand result ≡ option_map (serves file.now) (written_number turns.now) }
{
    match read_number(turns) {
        Some(turns) => Some(Task::Serve(file, turns)),
        None => None,
    }
}

/// The words behind the program's name.
///
/// # Errors
/// [`Stop::Usage`] where a word is no text; [`Stop::Failed`] where memory runs out.
pub fn words_given<T: Env + AllocGlobal>(rt: &T) -> Result<Vec<String>, Stop>
    ensures { AreGiven result }
{
    words_of(rt.alloc(), args(rt))
}

/// The words behind the first of those that the system gives, which is the program's name.
fn words_of(alloc: Global, given: io::Result<Args>) -> Result<Vec<String>, Stop>
    ensures { AreWordsOf given result }
{
    match given {
        Ok(words) => behind_first(alloc, words),
        Err(error) => Err(unread(error.kind())),
    }
}

/// The words behind the first.
fn behind_first(alloc: Global, words: Args) -> Result<Vec<String>, Stop>
    ensures kept { IfOk result (λ kept. kept.items ≡ behind_name words) }
    ensures failed { IfErr result (λ stop. stop ≡ Failed) }
{
    match words.skip(1).collect(alloc) {
        Ok(words) => Ok(words),
        Err(_) => Err(Stop::Failed),
    }
}

/// How the program ends where the system does not give its words.
fn unread(kind: ErrorKind) -> Stop
    ensures { result ≡ stop_unread kind }
{
    match kind {
        ErrorKind::InvalidData => Stop::Usage,
        _ => Stop::Failed,
    }
}
