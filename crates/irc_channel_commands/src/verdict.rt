//! What comes of a change that is asked for.
use irc_modes::ModeChange;
use irc_numerics::Reply;

/// What comes of a change of a mode that an operator asks for.
#[derive(Drop)]
pub enum Verdict {
    /// It is refused.
    Says(Reply),
    /// It is made, as it is written here.
    Keeps(ModeChange),
    /// It is ignored, or would change nothing.
    Nothing,
}
