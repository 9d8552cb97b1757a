//! The numeric replies of an IRC server to its clients (RFC 2812 section 5), each with its words.
#![tactic(auto)]

pub mod laws;
pub mod limits;
mod name_list;
mod pieces;
mod replies;
mod table;
mod texts;
mod writing;

pub use name_list::NameList;
pub use replies::{
    ClientWords, Created, InfoText, Listed, MemberMark, ModeLetters, OnChannel, Reply, TopicText,
    Visibility,
};
pub use writing::reply_line;
