//! Lines of a link whose neighbour has not named itself yet (RFC 2813 section 4.1).
ghost use Rattle.std.specs.Prelude.{◌≡◌, true, IfOk, OnErr};
ghost use Rattle.irc_line.specs.MessageViews.{parsed};
ghost use Rattle.irc_link_reader.specs.Means.{is_mode_line};
ghost use Rattle.irc_burst.specs.HandshakeMeant.{out_of_place};
ghost use Rattle.irc_burst.specs.Loops.Deeds.{meant_at};
ghost use Rattle.irc_burst.specs.Loops.Handshakes.{opening_at};

use crate::reading::read_line;
use irc_batch::CloseReason;
use irc_line::Message;
use irc_link_reader::Arrival;
use irc_link_words::{Opening, is_command, read_opening, told_first};
use std::alloc::{AllocError, Global};

/// What a line says that came by a link before the neighbour named itself, or why it closes the
/// link. `has_password` is whether the neighbour has given a password. Reasons are looked for in
/// this order: UnknownCommand, Parameters, Order, UnknownPeer where the neighbour gives itself a
/// name that is no server's. Whether it is a peer, and gave its password, is not looked at: that is
/// [`irc_link_words::refusal`].
///
/// # Errors
/// Where memory runs out, which takes a MODE.
#[tactic(auto, using(crate::proofs::OutOfPlace::opened_so))]
pub fn read_handshake_line(
    alloc: Global,
    message: &Message<'_>,
    at: Arrival<'_>,
    has_password: bool,
) -> Result<Result<Opening, CloseReason>, AllocError>
    ensures meant { IfOk result (λ read.
        read ≡ opening_at has_password at.entry (parsed message.now)) }
    ensures memory { OnErr result (is_mode_line (parsed message.now) ≡ true) }
{
    match read_opening(message, has_password) {
        Some(read) => Ok(read),
        None => Ok(Err(closed_for(alloc, message, at)?)),
    }
}

/// Why a line closes the link that is none with which it begins.
fn closed_for(
    alloc: Global,
    message: &Message<'_>,
    at: Arrival<'_>,
) -> Result<CloseReason, AllocError>
    ensures reason { IfOk result (λ reason.
        reason ≡ out_of_place (meant_at at.entry (parsed message.now))) }
    ensures memory { OnErr result (is_mode_line (parsed message.now) ≡ true) }
{
    match read_line(alloc, at, message) {
        Ok(Ok(_)) => Ok(CloseReason::Order),
        Ok(Err(reason)) => Ok(told_first(reason)),
        Err(_) => {
            // Memory ran out, so the line would mean something, or is a MODE.
            if is_command(b"MODE", message.command) {
                Err(AllocError)
            } else {
                Ok(CloseReason::Order)
            }
        }
    }
}
