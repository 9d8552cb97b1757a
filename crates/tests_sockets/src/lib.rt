//! Tests of an engine: over TCP sockets, and over a wire in memory.
#![tactic(auto)]

#[cfg(test)]
mod asking;
#[cfg(test)]
mod calling;
#[cfg(test)]
mod calling_again;
#[cfg(test)]
mod calls;
#[cfg(test)]
mod conversation;
#[cfg(test)]
mod crowd;
#[cfg(test)]
mod cut_short;
#[cfg(test)]
mod failing;
#[cfg(test)]
mod full;
#[cfg(test)]
mod headers;
#[cfg(test)]
mod holding;
#[cfg(test)]
mod hostile;
#[cfg(test)]
mod lent;
#[cfg(test)]
mod links;
#[cfg(test)]
mod loopback;
#[cfg(test)]
mod memory;
#[cfg(test)]
mod overflows;
#[cfg(test)]
mod running;
#[cfg(test)]
mod script;
#[cfg(test)]
mod server;
#[cfg(test)]
mod sockets;
#[cfg(test)]
mod spreads;
#[cfg(test)]
mod tellings;
#[cfg(test)]
mod told;
#[cfg(test)]
mod unheard;
