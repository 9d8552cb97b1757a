//! PING.
ghost use Rattle.std.specs.Prelude.{◌≡◌, IfOk};
ghost use Rattle.irc_line.specs.PartViews.{words_now};
ghost use Rattle.irc_routes.specs.Known.{place_of};
ghost use Rattle.irc_commands.specs.Ping.{ping_steps, pong_line};
ghost use Rattle.irc_commands.specs.RegisteringViews.{AreDecided};

use irc_acts::{Act, only};
use irc_line::{Parts, Prefix, Text, write_message};
use irc_numerics::Reply;
use irc_routes::Routes;
use std::alloc::{AllocError, Global};

/// What a PING does: the server answers (RFC 2812 section 3.7.2).
///
/// # Errors
/// Where memory runs out.
#[tactic(auto, unfolding(crate::specs::Ping::ping_steps))]
pub fn steps(
    alloc: Global,
    routes: &Routes,
    params: &[&[u8]],
) -> Result<Vec<Act, Global>, AllocError>
    ensures { IfOk result (AreDecided (ping_steps (place_of routes.now) (words_now params.now))) }
{
    let answer = match params.first() {
        None => Act::Answer(Reply::NoOrigin),
        Some(word) => Act::Raw(pong(routes.name().as_bytes(), word)),
    };
    only(alloc, answer)
}

/// The line that answers a PING.
fn pong(server: &[u8], word: &[u8]) -> Text
    ensures { result.items ≡ pong_line server.now word.now }
{
    write_message(&Parts {
        prefix: Prefix::Name(server),
        command: b"PONG",
        middle: &[server],
        last: Some(word),
    })
}
