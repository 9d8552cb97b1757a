//! Tests of servers in their layers between which lines cross.
#![tactic(auto)]

#[cfg(test)]
mod crossing;
#[cfg(test)]
mod pair;
