//! Tests of names, lines and replies, and of rooms and what they stand on: what the standard and
//! the tables of replies and effects say of them, row by row. And of the servers that links join.
#![tactic(auto)]

#[cfg(test)]
mod channels;
#[cfg(test)]
mod forest;
#[cfg(test)]
mod halves;
#[cfg(test)]
mod lines;
#[cfg(test)]
mod names;
#[cfg(test)]
mod raising;
#[cfg(test)]
mod relay;
#[cfg(test)]
mod replies;
#[cfg(test)]
mod room;
#[cfg(test)]
mod routes;
#[cfg(test)]
mod script;
#[cfg(test)]
mod users;
