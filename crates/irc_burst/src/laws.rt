//! What holds of what is read and of what is written. The law is a function that does nothing, and
//! its contract is the law.
ghost use Rattle.irc_burst.specs.GoingOn.{MembersGoOn, ModesGoOn, TopicsGoOn};

/// What is read of a MODE or a TOPIC of a server goes on as the line that it came by, and so does
/// an NJOIN of which nobody is left out, and whose nicknames are spelled as they are stored.
pub fn line_goes_on_as_it_came()
    ensures modes { ModesGoOn }
    ensures topics { TopicsGoOn }
    ensures members { MembersGoOn }
{}
