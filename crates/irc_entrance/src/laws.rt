//! Who is in a range, and what a header is, computed. A law is a function that does nothing, and
//! its contract is the law: the check proves it.
ghost use Rattle.irc_entrance.specs.Examples.{BytesAreRead, LinesAreWanted, RangesHave};
ghost use Rattle.irc_entrance.specs.ProxyLaws.{HeadersAreTaken, NothingBehindIsWanted};

/// Addresses in ranges and beside them.
pub fn ranges_have()
    ensures { RangesHave }
{}

/// Fronts of headers, and headers.
pub fn headers_are_read()
    ensures lines { LinesAreWanted }
    ensures bytes { BytesAreRead }
{}

/// Nothing of what follows a header is wanted.
pub fn nothing_behind_is_wanted()
    ensures { NothingBehindIsWanted }
{}

/// A whole header is taken.
pub fn headers_are_taken()
    ensures { HeadersAreTaken }
{}
