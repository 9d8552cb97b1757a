//! The two lines with which a link begins, written (RFC 2813 section 4.1). Nothing here takes
//! memory.
ghost use Rattle.std.specs.Prelude.{◌≡◌};
ghost use Rattle.irc_line.specs.Messages.{text};
ghost use Rattle.irc_line.specs.MessageViews.{optional_now};
ghost use Rattle.irc_line.specs.PartViews.{words_now};
ghost use Rattle.irc_link_words.specs.GreetingLines.{from_nobody, greeting, pass_parts};

use crate::{AGREEMENT, VERSION};
use irc_line::{Parts, Prefix, Text, write_message};
use irc_routes::{Info, Routes};

/// The first line of a link: `PASS pw 0210010001 TREE|` (RFC 2813 section 4.1.1).
pub fn pass_text(password: &[u8]) -> Text
    ensures { result.items ≡ text (pass_parts password.now) }
{
    plain_line(b"PASS", &[password, VERSION, AGREEMENT], None)
}

/// The second line of a link, by which a server names itself: `SERVER a.net 1 1 :A` (RFC 2813
/// section 4.1.2).
pub fn greeting_text(routes: &Routes) -> Text
    ensures { result.items ≡ text (greeting routes.now) }
{
    plain_line(
        b"SERVER",
        &[routes.name().as_bytes(), b"1", b"1"],
        Some(own_info(routes).as_bytes()),
    )
}

/// A line from nobody.
fn plain_line<'a>(command: &'a [u8], middle: &'a [&'a [u8]], last: Option<&'a [u8]>) -> Text
    ensures { result.items ≡ text
        (from_nobody command.now (words_now middle.now) (optional_now last.entry)) }
{
    write_message(&Parts {
        prefix: Prefix::Nothing,
        command,
        middle,
        last,
    })
}

/// How a server describes itself.
#[tactic(auto, using(crate::proofs::OwnName::own_info_known))]
fn own_info(routes: &Routes) -> &Info
    ensures { result.now ≡ routes.now.about.info }
{
    match routes.info(routes.name().as_bytes()) {
        Some(info) => info,
        None => unreachable!(),
    }
}
