//! What is played on a network.
use crate::answer::Answer;
use crate::fault::NetFault;
use irc_names::ServerName;
use irc_network::{Item, Receipt};
use std::alloc::Global;

/// One thing that is asked of a network.
#[derive(Drop)]
pub enum Step {
    /// An item is given.
    Give(Item),
    /// The bytes up to and with the next LF come from the first server to the second.
    Deliver(ServerName, ServerName),
    /// So many bytes come from the first server to the second, or all that are on their way where
    /// there are fewer.
    Bytes(ServerName, ServerName, usize),
    /// Bytes come in turn until nothing is on its way.
    Settle,
}

/// What comes of a step.
#[derive(Drop)]
pub enum StepAnswer {
    /// The item is taken.
    Given(Answer),
    /// Whether a byte was on its way, and what clients have received.
    Delivered(bool, Vec<Receipt, Global>),
    /// How many bytes came, and what clients have received by them.
    Taken(usize, Vec<Receipt, Global>),
    /// How many lines came, and what clients have received by them.
    Settled(u64, Vec<Receipt, Global>),
    /// It is refused, and nothing has changed.
    Refused(NetFault),
}
