//! Which changes of a channel's modes raise something: those that a server makes of what another
//! side tells of the channel.
ghost use Rattle.std.specs.Prelude.{◌≡◌, [], ◌∷◌, ◌++◌, true, IfOk, OnOk};
ghost use Rattle.std.specs.Option.{option_copied};
ghost use Rattle.std.specs.Ordering.{is_lt};
ghost use Rattle.irc_names.specs.Greater.{bytes_cmp};
ghost use Rattle.irc_modes.specs.declared.modes.ModeLetter.TheVariants as letter;
ghost use Rattle.irc_modes.specs.Raised.{raise_step, raised_of, raises, raising};

use crate::limit::read_limit;
use crate::modes::{ModeChange, ModeLetter, Modes, Privacy};
use std::alloc::{AllocError, Global};
use std::slice;

impl Modes {
    /// Of changes one after another those that raise something, each judged by the modes as those
    /// before it would leave them: what is not set, a greater key, limit or spelling of a ban. It
    /// changes nothing here, and fails only where there is no memory for the answer or for the
    /// modes that it tries them on.
    pub fn raising(&self, changes: &[ModeChange]) -> Result<Vec<ModeChange, Global>, AllocError>
        ensures { IfOk result (λ raised. raised.items ≡ raising changes.now self.now) }
    {
        let mut now = self.copy()?;
        let mut raised = Vec::new(self.bans.allocator());
        for change in changes {
            raise(&mut now, &mut raised, change)?;
        }
        Ok(raised)
    }
}

/// Makes a change and notes it, where it raises something.
fn raise(
    now: &mut Modes,
    raised: &mut Vec<ModeChange, Global>,
    change: &ModeChange,
) -> Result<(), AllocError>
    ensures made { OnOk result (now.new ≡ raise_step now.old change.now) }
    ensures noted { OnOk result
        (raised.new.items ≡ raised.old.items ++ raised_of change.now now.old) }
{
    if !raises(change, now) {
        return Ok(());
    }
    now.change(slice::from_ref(change))?;
    note(raised, change.copy())
}

fn note(raised: &mut Vec<ModeChange, Global>, change: ModeChange) -> Result<(), AllocError>
    ensures { OnOk result (raised.new.items ≡ raised.old.items ++ change ∷ []) }
{
    match raised.push(change) {
        Ok(()) => Ok(()),
        Err(_) => Err(AllocError),
    }
}

/// Whether a change raises something. What is taken away counts always, and so does a mode of a
/// member.
fn raises(change: &ModeChange, modes: &Modes) -> bool
    ensures { result ≡ raises change.now.plus change.now.letter change.now.word modes.now }
{
    if !change.plus {
        return true;
    }
    let word = change.word_bytes();
    match change.letter {
        ModeLetter::InviteOnly => !modes.invite_only,
        ModeLetter::Moderated => !modes.moderated,
        ModeLetter::NoOutside => !modes.no_outside,
        ModeLetter::TopicLocked => !modes.topic_locked,
        ModeLetter::Private => modes.privacy == Privacy::Public,
        ModeLetter::Secret => modes.privacy != Privacy::Secret,
        ModeLetter::Key => raises_key(word, modes),
        ModeLetter::Limit => raises_limit(word, modes),
        ModeLetter::Ban => raises_ban(word, modes),
        ModeLetter::Operator | ModeLetter::Voice => true,
    }
}

fn raises_key(word: Option<&[u8]>, modes: &Modes) -> bool
    ensures { result ≡ raises true letter.Key (option_copied word.entry) modes.now }
{
    let Some(new) = word else { return true };
    match &modes.key {
        Some(key) => is_less(key.as_bytes(), new),
        None => true,
    }
}

/// Limits are compared by their numbers, however they are written.
fn raises_limit(word: Option<&[u8]>, modes: &Modes) -> bool
    ensures { result ≡ raises true letter.Limit (option_copied word.entry) modes.now }
{
    let Some(bytes) = word else { return true };
    let Some(new) = read_limit(bytes) else {
        return true;
    };
    match modes.limit {
        Some(limit) => limit < new,
        None => true,
    }
}

/// A ban that is the same under the fold is compared by its bytes.
fn raises_ban(word: Option<&[u8]>, modes: &Modes) -> bool
    ensures { result ≡ raises true letter.Ban (option_copied word.entry) modes.now }
{
    let Some(new) = word else { return true };
    match modes.bans.spelled(new) {
        Some(ban) => is_less(ban.as_bytes(), new),
        None => true,
    }
}

/// Whether a text is less than another by its bytes.
fn is_less(text: &[u8], other: &[u8]) -> bool
    ensures { result ≡ is_lt (bytes_cmp text.now other.now) }
{
    text.cmp(other).is_lt()
}
