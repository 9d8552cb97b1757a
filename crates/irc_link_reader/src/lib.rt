//! Lines of a link read as what they tell (RFC 2813 section 4): as deeds, and as the effects of
//! these. Definitions are in `specs/`.
#![tactic(auto)]

mod arrival;
mod deed;
mod reading;
mod reading_channels;
mod reading_modes;
mod reading_users;
mod telling;

pub use arrival::{Arrival, expect_from, is_far, server};
pub use deed::{Deed, Killing, Loss, ModeSetting, NewMember, NewMembers, NewServer, Topic};
pub use reading::read_effect;
pub use telling::tell_effect;
