//! Replies by which several commands refuse.
ghost use Rattle.std.specs.Prelude.{◌≡◌};
ghost use Rattle.irc_numerics.specs.declared.replies.Reply.TheVariants.{NeedMoreParams};
ghost use Rattle.irc_numerics.specs.declared.replies.Reply.TheVariants.{NoSuchChannel};
ghost use Rattle.irc_numerics.specs.declared.replies.Reply.TheVariants.{NotOnChannel};
ghost use Rattle.irc_acts.specs.declared.act.Act.TheVariants.{Answer};
ghost use Rattle.irc_acts.specs.Acts.{client_words};

use crate::act::Act;
use crate::words::client_words;
use irc_channels::Channel;
use irc_numerics::Reply;

/// A command that has too few parameters, by its name in capitals.
pub fn need_more_params(command: &[u8]) -> Act
    ensures { result ≡ Answer (NeedMoreParams (client_words command.now)) }
{
    Act::Answer(Reply::NeedMoreParams {
        command: client_words(command),
    })
}

/// A channel that is not there is named as it was given.
pub fn no_such_channel(name: &[u8]) -> Act
    ensures { result ≡ Answer (NoSuchChannel (client_words name.now)) }
{
    Act::Answer(Reply::NoSuchChannel {
        name: client_words(name),
    })
}

/// A channel that is there is named as it is stored.
pub fn not_on_channel(channel: &Channel) -> Act
    ensures { result ≡ Answer (NotOnChannel channel.now.name) }
{
    let channel = channel.name.copy();
    Act::Answer(Reply::NotOnChannel { channel })
}
