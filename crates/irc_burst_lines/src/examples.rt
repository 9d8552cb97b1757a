//! What a server tells a new neighbour, by example.
ghost use Rattle.irc_burst_lines.specs.Examples.{OneSideIsTold};

/// A user alone in a channel with modes, four bans and a topic is told in six lines.
pub fn one_side_is_told()
    ensures { OneSideIsTold }
{}
