//! Tests of links: the lines that go over them, which effects these tell of, why one is refused;
//! handshakes, bursts, and lines in which servers speak of each other; one server with links.
#![tactic(auto)]

#[cfg(test)]
mod away;
#[cfg(test)]
mod bursting;
#[cfg(test)]
mod closings;
#[cfg(test)]
mod collisions;
#[cfg(test)]
mod deed_reading;
#[cfg(test)]
mod deed_shown;
#[cfg(test)]
mod events;
#[cfg(test)]
mod greetings;
#[cfg(test)]
mod handshake;
#[cfg(test)]
mod joining;
#[cfg(test)]
mod losses;
#[cfg(test)]
mod reading;
#[cfg(test)]
mod shown;
#[cfg(test)]
mod stage;
#[cfg(test)]
mod ways;
