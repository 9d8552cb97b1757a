//! Neither line with which a link begins is cut. The law is a function that does nothing, and its
//! contract is the law.
ghost use Rattle.irc_link_words.specs.WholeLines.{GreetingFits, PassFits};

/// A password and a name that keep their rules fit a line.
pub fn lines_fit()
    ensures passwords { PassFits }
    ensures names { GreetingFits }
{}
