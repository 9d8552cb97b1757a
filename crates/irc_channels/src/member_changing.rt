//! Changes of the flags of a channel's members.
ghost use Rattle.std.specs.Prelude.{◌≡◌, Some, if◌then◌else◌};
ghost use Rattle.irc_channels.specs.Loops.ManyChanges.{flag_changed, members_step, members_after};

use crate::flags::Flags;
use irc_modes::{ModeChange, ModeLetter};
use irc_tables::{NameTable, RowChange};

/// A flag that is set or cleared.
#[derive(Drop)]
struct FlagChange {
    plus: bool,
    letter: ModeLetter,
}

impl RowChange<Flags> for FlagChange {
    ghost changed = { λ change flags. Some (flag_changed change.plus change.letter flags) };

    fn change(&self, flags: &mut Flags) -> bool {
        match self.letter {
            ModeLetter::Operator => flags.op = self.plus,
            ModeLetter::Voice => flags.voice = self.plus,
            _ => {}
        }
        true
    }
}

/// Makes the changes that are of members, one after another. They take no memory.
pub(crate) fn change_members(members: &mut NameTable<Flags>, changes: &[ModeChange])
    ensures { members.new ≡ members_after changes.now members.old }
{
    for change in changes {
        change_member(members, change);
    }
}

fn change_member(members: &mut NameTable<Flags>, change: &ModeChange)
    ensures { members.new ≡ members_step members.old change.now }
{
    let Some(word) = change.word_bytes() else {
        return;
    };
    match change.letter {
        ModeLetter::Operator | ModeLetter::Voice => {
            let flag = FlagChange {
                plus: change.plus,
                letter: change.letter,
            };
            members.change_at(word, &flag);
        }
        _ => {}
    }
}
