//! Lines read as messages.
ghost use Rattle.std.specs.Prelude.{◌≡◌, ◌≢◌, ◌≤◌, false, [], length, Result};
ghost use Rattle.irc_line.specs.Bytes.{is_space, begins, has_nul};
ghost use Rattle.irc_line.specs.Messages.{Parsed};
ghost use Rattle.irc_line.specs.MessageViews.{parsed_result, params_now, optional_now};
ghost use Rattle.irc_line.specs.Limits.{max_parameters};
ghost use Rattle.irc_line.specs.Grammar.{IsReadAs, CommandAt, ReadsParams};
ghost use Rattle.irc_line.specs.Reading.{read_of};
ghost use Rattle.irc_line.specs.Loops.Reading.{AfterGap, WordAt};
ghost use Rattle.irc_line.specs.declared.reading.LineFault.{LineFault};

use crate::limits::MAX_PARAMETERS;
use arrayvec::ArrayVec;
use thiserror::Error;

const NUL: u8 = 0;

const SPACE: u8 = b' ';

const COLON: u8 = b':';

/// Why a line is no message.
#[derive(Clone, Copy, Debug, Drop, Error, PartialEq, Eq)]
pub enum LineFault {
    /// There is nothing in it but spaces.
    #[error("the line is empty")]
    Empty,

    /// There is a prefix, and nothing behind it.
    #[error("the line has no command")]
    NoCommand,

    /// There is a NUL in it.
    #[error("the line has a NUL")]
    HasNul,
}

/// A line read as a message (RFC 2812 section 2.3.1). Its words are slices of the line.
#[derive(Drop)]
pub struct Message<'a> {
    /// What stands between a first colon and the next space.
    pub prefix: Option<&'a [u8]>,
    /// The command as it was given, in whatever case.
    pub command: &'a [u8],
    /// The parameters, of which the last may hold spaces.
    pub params: ArrayVec<&'a [u8], MAX_PARAMETERS>,
}

/// Reads a line, without its CR LF, as a message.
///
/// # Errors
/// A NUL is looked for first; then a line with nothing in it is empty, and one with a prefix alone
/// has no command.
pub fn parse(line: &[u8]) -> Result<Message<'_>, LineFault>
    // What it gives is read so, and a fault is given only where the line has it.
    ensures given { IsReadAs line.now (parsed_result result) }
    // What the line is read as is given, and so is the fault that it has.
    ensures only { (read : Result Parsed LineFault) → IsReadAs line.now read
        → parsed_result result ≡ read }
    // It is what the line is read as from left to right.
    ensures as_function { parsed_result result ≡ read_of line.now }
{
    if line.contains(&NUL) {
        return Err(LineFault::HasNul);
    }
    let start = skip_spaces(line);
    let Some((first, behind_colon)) = start.split_first() else {
        return Err(LineFault::Empty);
    };
    let mut prefix = None;
    let mut text = start;
    if *first == COLON {
        let (word, more) = split_word(behind_colon);
        prefix = Some(word);
        text = skip_spaces(more);
        if text.is_empty() {
            return Err(LineFault::NoCommand);
        }
    }
    Ok(read_command(prefix, text))
}

/// Reads the command that a text begins with, and its parameters.
fn read_command<'a>(prefix: Option<&'a [u8]>, text: &'a [u8]) -> Message<'a>
    requires some { text.now ≢ [] }
    requires no_space { begins is_space text.now ≡ false }
    ensures prefix { optional_now result.prefix ≡ optional_now prefix.entry }
    ensures command { CommandAt text.now result.command.now (params_now result.params) }
{
    let (command, more) = split_word(text);
    let mut message = Message {
        prefix,
        command,
        params: ArrayVec::new(),
    };
    read_params(more, &mut message.params);
    message
}

/// Reads the parameters behind a command, in their place: they are a quarter of a kilobyte, and so
/// are not moved.
fn read_params<'a>(text: &'a [u8], params: &mut ArrayVec<&'a [u8], MAX_PARAMETERS>)
    requires { params.old.items ≡ [] }
    ensures { ReadsParams max_parameters text.now (params_now params.new) }
{
    let mut rest = skip_spaces(text);
    while let Some((first, behind_colon)) = rest.split_first() {
        if *first == COLON {
            params.push(behind_colon);
            return;
        }
        if params.len() + 1 == MAX_PARAMETERS {
            params.push(rest);
            return;
        }
        let (word, more) = split_word(rest);
        params.push(word);
        rest = skip_spaces(more);
    }
}

/// The text behind the spaces at its front.
fn skip_spaces(text: &[u8]) -> &[u8]
    ensures after { AfterGap text.now result.now }
    ensures shorter { length result.now ≤ length text.now }
{
    for (i, byte) in text.iter().enumerate() {
        if *byte != SPACE {
            return &text[i..];
        }
    }
    &[]
}

/// The word at the front of a text, and what follows it.
fn split_word(text: &[u8]) -> (&[u8], &[u8])
    ensures { WordAt text.now result.0.now result.1.now }
{
    for (i, byte) in text.iter().enumerate() {
        if *byte == SPACE {
            return (&text[..i], &text[i..]);
        }
    }
    (text, &[])
}
