//! The names that one 353 carries.
ghost use Rattle.std.specs.Prelude.{◌≡◌, IfOk};

use crate::limits::MAX_NAMES;
use crate::replies::Listed;
use arrayvec::ArrayVec;
use std::alloc::{AllocError, Global};
use std::marker::Model;

/// The names of one 353, in memory of their own: a reply is copied often, and few replies are 353.
#[derive(Drop)]
pub struct NameList {
    names: Box<ArrayVec<Listed, MAX_NAMES>, Global>,
}

/// In a clause it is the list of its names.
impl Model for NameList {
    ghost use Rattle.std.specs.Prelude.{List};
    ghost use Rattle.irc_numerics.specs.declared.replies.Listed.{Listed};

    ghost Value = { List Listed };

    ghost view = { λ list. list.names.value.items };
}

impl NameList {
    /// These names.
    ///
    /// # Errors
    /// Where memory runs out.
    pub fn new(alloc: Global, names: ArrayVec<Listed, MAX_NAMES>) -> Result<Self, AllocError>
        ensures { IfOk result (λ list. list ≡ names.items) }
    {
        let names = Box::new(alloc, names)?;
        Ok(NameList { names })
    }

    /// The names, in order.
    pub fn as_slice(&self) -> &[Listed]
        ensures { result.now ≡ self.now }
    {
        self.names.as_slice()
    }
}
