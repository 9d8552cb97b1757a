//! No line of servers is cut. The law is a function that does nothing, and its contract is the law.
ghost use Rattle.irc_burst_lines.specs.WholeLines.{FittingIsWhole, KillFits, MembersAreShort};
ghost use Rattle.irc_burst_lines.specs.WholeLines.{MembersFit, ServerFits, SquitFits};

/// What a server tells of servers, of a collision, and of as many members as one line brings, fits
/// a line by the limits; and what fits is written whole. The longest NJOIN has 452 bytes, and its
/// CR LF.
pub fn lines_fit()
    ensures servers { ServerFits }
    ensures squits { SquitFits }
    ensures kills { KillFits }
    ensures members { MembersFit }
    ensures longest { MembersAreShort }
    ensures whole { FittingIsWhole }
{}
