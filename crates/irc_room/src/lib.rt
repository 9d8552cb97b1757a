//! One room as one server keeps it: its users and channels, what an effect makes of them, and who
//! is shown which line by it. What a room and an effect mean is defined in irc_effects, whose types
//! and definitions are passed on here.
#![tactic(auto)]

mod changing;
mod effect_lines;
mod gone;
mod home_count;
mod idle;
mod indexed_channels;
mod lines;
mod mode_letters;
mod name_index;
mod named;
mod own_channels;
mod performing;
mod refusing;
mod room;
mod showing;
mod tables;
mod viewer_names;
mod viewers;

pub use effect_lines::{effect_line, target_name};
pub use idle::{does, is_idle};
pub use indexed_channels::IndexedChannels;
pub use irc_effects::{
    By, Effect, ModeChanges, RoomFault, ShownLine, Target, examples, invitation_laws, laws,
};
pub use mode_letters::push_changes;
pub use named::Named;
pub use room::Room;
pub use showing::show;
pub use tables::Tables;
pub use viewer_names::{audience, member_nicks};
