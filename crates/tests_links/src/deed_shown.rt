//! The words for why a line of a link is refused, as the rows of a test show them.
use irc_batch::CloseReason;
use irc_burst::BurstFault;

/// The word for a reason to close a link.
pub fn close_word(reason: CloseReason) -> &'static [u8] {
    match reason {
        CloseReason::UnknownCommand => b"unknown",
        CloseReason::Parameters => b"parameters",
        CloseReason::BadToken => b"token",
        CloseReason::WrongDirection => b"direction",
        CloseReason::BadName => b"name",
        CloseReason::Password => b"password",
        CloseReason::UnknownPeer => b"peer",
        CloseReason::AlreadyKnown => b"known",
        CloseReason::Order => b"order",
        CloseReason::Full => b"full",
    }
}

/// The word for why a line is not read.
pub fn reason_word(fault: BurstFault) -> &'static [u8] {
    match fault {
        BurstFault::Closes(reason) => close_word(reason),
        BurstFault::Memory => b"memory",
    }
}
