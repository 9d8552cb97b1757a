//! Tests of commands, by scripts and what they print; and of scripts that are bad, and devices that
//! fail.
#![tactic(auto)]

#[cfg(test)]
mod bad_script_tests;
#[cfg(test)]
mod channel_tests;
#[cfg(test)]
mod clash_tests;
#[cfg(test)]
mod device_tests;
#[cfg(test)]
mod invite_tests;
#[cfg(test)]
mod joined_tests;
#[cfg(test)]
mod kick_tests;
#[cfg(test)]
mod leaving_tests;
#[cfg(test)]
mod message_tests;
#[cfg(test)]
mod mode_tests;
#[cfg(test)]
mod network_tests;
#[cfg(test)]
mod nickname_tests;
#[cfg(test)]
mod piece_tests;
#[cfg(test)]
mod query_tests;
#[cfg(test)]
mod registration_tests;
#[cfg(test)]
mod running;
#[cfg(test)]
mod script_tests;
#[cfg(test)]
mod secrecy_tests;
