//! What holds of the modes of channels. Each law is a function that does nothing, and its contract
//! is the law: the check proves it, and a crate above may cite it.
ghost use Rattle.irc_channels.specs.ModeLaws.{ChangedIsWithinLimits, NewIsWithinLimits};

/// A new channel has modes within limits.
pub fn new_is_within_limits()
    ensures { NewIsWithinLimits }
{}

/// Changes leave modes within limits, whatever their words are.
pub fn changed_is_within_limits()
    ensures { ChangedIsWithinLimits }
{}
