//! What holds of all pipes. Each law is a function that does nothing, and its contract is the law.
ghost use Rattle.irc_pipes.specs.Pipes.{SamePipes};

/// Pipes of as many servers, none of which is kept while it is still, are the same where they carry
/// the same.
pub fn same_pipes()
    ensures { SamePipes }
{}
