//! A channel in memory of its own.
ghost use Rattle.std.specs.Prelude.{◌≡◌, IfOk};

use crate::channel::Channel;
use std::alloc::{AllocError, Global};
use std::marker::Model;

/// A channel in memory of its own. So the rows of a table of channels are short, and little moves
/// as a channel comes or goes.
#[derive(Drop)]
pub struct Stored {
    pub(crate) channel: Box<Channel, Global>,
}

/// In a clause it is the channel.
impl Model for Stored {
    ghost use Rattle.irc_channels.specs.declared.channel.Channel.{Channel};
    ghost use Rattle.irc_channels.specs.contracts.channel.Channel.{the_row as channel_row};

    ghost Value = { Channel };

    ghost coded = { channel_row.coded };

    ghost view = { λ stored. stored.channel.value };
}

impl Stored {
    /// A channel that is put into memory of its own.
    ///
    /// # Errors
    /// Where memory runs out.
    pub(crate) fn new(alloc: Global, channel: Channel) -> Result<Self, AllocError>
        ensures { IfOk result (λ stored. stored ≡ channel) }
    {
        let channel = Box::new(alloc, channel)?;
        Ok(Stored { channel })
    }

    /// The channel.
    pub fn channel(&self) -> &Channel
        ensures { result.now ≡ self.now }
    {
        &self.channel
    }
}
