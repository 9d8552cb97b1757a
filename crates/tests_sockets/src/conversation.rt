//! A conversation of two, line by line, what is written to each of them for it (the replies of RFC
//! 2812 section 5.1 and the lines of its section 3 as docs/PROFILE.md words them), and what is
//! written where one of them is lost within it.
use crate::running::holds;
use crate::script::{ScriptRow, add_part, row_of};
use std::alloc::{AllocError, Global};
use std::string::String;

/// The connections of al and bo.
pub(crate) const AL: u64 = 1;

pub(crate) const BO: u64 = 2;

/// The conversation as a script ([`crate::script`]), with an empty line between two things that
/// happen. al's socket takes `%` bytes. What is written to somebody is
/// `together` where the other is there, and `alone` where the other is gone.
const CONVERSATION: &str = "\
client 1

room 1 %

client 2

room 2 65536

bytes 1 NICK al;

bytes 1 USER u 0 * :Al;
welcome 1 al

bytes 2 NICK bo;

bytes 2 USER u 0 * :Bo;
welcome 2 bo

bytes 1 JOIN #c;
hears 1 :al!u@h JOIN #c;:a.net 353 al = #c :@al;:a.net 366 al #c :End of NAMES list;

bytes 2 JOIN #c;
together 1 :bo!u@h JOIN #c;
together 2 :bo!u@h JOIN #c;:a.net 353 bo = #c :@al bo;:a.net 366 bo #c :End of NAMES list;
alone 2 :bo!u@h JOIN #c;:a.net 353 bo = #c :@bo;:a.net 366 bo #c :End of NAMES list;

bytes 1 PRIVMSG #c :hi;
together 2 :al!u@h PRIVMSG #c :hi;

bytes 2 PRIVMSG #c :ho;
together 1 :bo!u@h PRIVMSG #c :ho;
";

/// How many things happen: something more may happen before each of them, and behind all.
pub(crate) const HAPPENINGS: usize = 12;

/// How many things happen before the first line of al, and before both are in the channel.
pub(crate) const OPENINGS: usize = 4;

const BOTH_ARE_IN: usize = 10;

/// Who is lost: what the first `written` things call for was written to it, and what the first
/// `told` do to the other, who is told behind that.
#[derive(Clone, Copy)]
pub(crate) struct ConnectionLoss {
    pub conn: u64,
    pub written: usize,
    pub told: usize,
}

/// Something more in the conversation: before which of the things it happens, its rows in two
/// pieces, who is lost by that, and how many bytes al's socket takes.
#[derive(Clone, Copy)]
pub(crate) struct Disturbance<'a> {
    pub place: usize,
    pub row: &'a str,
    pub end: &'a str,
    pub loss: Option<ConnectionLoss>,
    pub room: &'a str,
}

impl ConnectionLoss {
    /// Whether a row of the thing at a place is of the conversation with this loss.
    fn has(self, row: ScriptRow<'_>, at: usize) -> bool {
        let is_lost = row.number == self.conn;
        match row.verb {
            "welcome" | "hears" => !is_lost || at < self.written,
            "together" if is_lost => at < self.written,
            "together" => at < self.told,
            "alone" => !is_lost && at >= self.told,
            _ => true,
        }
    }

    /// What the other is told before the thing at a place: nothing where they were not both in the
    /// channel.
    fn told(self, at: usize) -> &'static str {
        if at != self.told || at < BOTH_ARE_IN {
            ""
        } else if self.conn == AL {
            "hears 2 :al!u@h QUIT :Connection closed;\n"
        } else {
            "hears 1 :bo!u@h QUIT :Connection closed;\n"
        }
    }

    fn closed(self) -> &'static str {
        if self.conn == AL {
            "closed 1\n"
        } else {
            "closed 2\n"
        }
    }
}

impl<'a> Disturbance<'a> {
    /// Whether a row of the thing at a place is of the conversation that is disturbed so.
    fn has(self, row: ScriptRow<'_>, at: usize) -> bool {
        match self.loss {
            Some(loss) => loss.has(row, at),
            None => row.verb != "alone",
        }
    }

    /// What the other is told of the loss before the thing at a place.
    fn told(self, at: usize) -> &'static str {
        match self.loss {
            Some(loss) => loss.told(at),
            None => "",
        }
    }

    fn closed(self) -> &'static str {
        match self.loss {
            Some(loss) => loss.closed(),
            None => "",
        }
    }
}

/// The rows of the thing at a place; none behind the last.
pub(crate) fn rows_at(at: usize) -> &'static str {
    CONVERSATION.split("\n\n").nth(at).unwrap_or("")
}

/// The rows of the thing at a place come behind a script, as far as they are of the conversation
/// that is disturbed so.
fn add_rows(
    script: &mut String<Global>,
    rows: &str,
    at: usize,
    disturbance: Disturbance<'_>,
) -> Result<(), AllocError> {
    for line in rows.lines() {
        if disturbance.has(row_of(line), at) {
            add_part(script, line, disturbance.room)?;
            script.push_str("\n")?;
        }
    }
    Ok(())
}

/// What happens more, and what is told, before the thing at a place.
fn add_before(
    script: &mut String<Global>,
    at: usize,
    disturbance: Disturbance<'_>,
) -> Result<(), AllocError> {
    if at == disturbance.place {
        script.push_str(disturbance.row)?;
        script.push_str(disturbance.end)?;
    }
    script.push_str(disturbance.told(at))
}

fn add_conversation(
    script: &mut String<Global>,
    disturbance: Disturbance<'_>,
) -> Result<(), AllocError> {
    for at in 0..HAPPENINGS + 1 {
        add_before(script, at, disturbance)?;
        add_rows(script, rows_at(at), at, disturbance)?;
    }
    script.push_str(disturbance.closed())
}

/// Whether the conversation that is disturbed so is held, and who is lost by that is lost.
pub(crate) fn is_held(alloc: Global, disturbance: Disturbance<'_>) -> bool {
    let mut script = String::new(alloc);
    add_conversation(&mut script, disturbance).is_ok() && holds(alloc, script.as_str())
}
