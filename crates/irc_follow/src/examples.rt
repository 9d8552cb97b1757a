//! Numbers of servers, computed. Each example is a function that does nothing, and its contract is
//! the example.
ghost use Rattle.irc_follow.specs.Examples.{NumbersOfThree};

/// Of three servers in a row the first two come to know the third: both give it the number 3, and
/// each keeps the number by which it was told of it.
pub fn numbers_of_three()
    ensures { NumbersOfThree }
{}
