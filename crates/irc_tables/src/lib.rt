//! Tables by name, as code: rows in folded order of their names, and maps by name and by nickname.
#![tactic(auto)]

mod folded;
mod name_map;
mod nick_map;
mod table;

pub use folded::Folded;
pub use name_map::NameMap;
pub use nick_map::NickMap;
pub use table::{NameTable, Row, RowAttempt, RowChange};
