//! What holds of the greater of two texts by their bytes. Each law is a function that does
//! nothing, and its contract is the law: the check proves it, and a crate above may cite it.
ghost use Rattle.irc_names.specs.GreaterLaws.{GreaterAssociates, GreaterIsEven, GreaterWithItself};

/// Which of two texts is named first makes no difference.
pub fn greater_is_even()
    ensures { GreaterIsEven }
{}

/// Of three texts it makes no difference which two are taken first.
pub fn greater_associates()
    ensures { GreaterAssociates }
{}

/// A text is the greater of itself and itself.
pub fn greater_with_itself()
    ensures { GreaterWithItself }
{}
