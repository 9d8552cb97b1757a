//! The laws of changes as edits.

ghost use Rattle.irc_crossed_edits.specs.Examples.{KickIsFollowed, TwoTakeOneName};
ghost use Rattle.irc_crossed_edits.specs.Laws.{CrossedStands};

/// What becomes of a change of users and members behind another one stands for what becomes of the
/// edit.
pub fn crossed_stands()
    ensures { CrossedStands }
{}

/// Who is kicked was renamed meanwhile: by the rules as by the edits that one is out.
pub fn kick_is_followed()
    ensures { KickIsFollowed }
{}

/// Two take one nickname: by the rules as by the edits both are gone.
pub fn two_take_one_name()
    ensures { TwoTakeOneName }
{}
