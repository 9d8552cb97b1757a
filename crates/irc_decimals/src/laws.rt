//! What holds of numbers that are written and read. Each law is a function that does nothing, and
//! its contract is the law: the check proves it, and a crate above may cite it.
ghost use Rattle.irc_decimals.specs.Laws.{NumbersAreDigits, WrittenIsRead};

/// A number of at most 64 bits is read of what it is written as.
pub fn written_is_read()
    ensures { WrittenIsRead }
{}

/// It is written as 1 to 20 digits.
pub fn numbers_are_digits()
    ensures { NumbersAreDigits }
{}
