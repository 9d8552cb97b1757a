//! The steps of a line.
ghost use Rattle.std.specs.Prelude.{◌≡◌, [], ◌∷◌, ◌++◌, IfOk, OnOk};

use irc_line::Text;
use irc_numerics::Reply;
use irc_room::Effect;
use std::alloc::{AllocError, Global};

/// One step of what a line does.
#[derive(Drop)]
pub enum Act {
    /// A reply to the client.
    Answer(Reply),
    /// A line to the client that is no numeric reply.
    Raw(Text),
    /// A change of the room.
    Do(Effect),
}

/// Appends a step.
///
/// # Errors
/// Where memory runs out.
pub fn put(steps: &mut Vec<Act, Global>, act: Act) -> Result<(), AllocError>
    ensures { OnOk result (steps.new.items ≡ steps.old.items ++ act ∷ []) }
{
    steps.push(act)?;
    Ok(())
}

/// One step and no more.
///
/// # Errors
/// Where memory runs out.
pub fn only(alloc: Global, act: Act) -> Result<Vec<Act, Global>, AllocError>
    ensures { IfOk result (λ steps. steps.items ≡ act ∷ []) }
{
    let mut steps = Vec::new(alloc);
    put(&mut steps, act)?;
    Ok(steps)
}
