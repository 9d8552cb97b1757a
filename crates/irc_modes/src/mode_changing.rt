//! Changes of a channel's modes.
ghost use Rattle.std.specs.Prelude.{◌≡◌, false, IfOk, IsOk, OnOk, OnErr};
ghost use Rattle.std.specs.List.{list_any};
ghost use Rattle.std.specs.Option.{option_copied};
ghost use Rattle.irc_modes.specs.Modes.{adds_ban, no_modes, modes_after, private_changed};
ghost use Rattle.irc_modes.specs.Modes.{secret_changed, key_changed, limit_changed};
ghost use Rattle.irc_modes.specs.Loops.ManyChanges.{setting_step, settings_after};

use crate::bans::BanList;
use crate::limit::read_limit;
use crate::modes::{ModeChange, ModeLetter, Modes, Privacy};
use irc_names::Key;
use std::alloc::{AllocError, Global};

impl Modes {
    /// No mode is set.
    pub fn none(alloc: Global) -> Self
        ensures { result ≡ no_modes }
    {
        Modes {
            invite_only: false,
            moderated: false,
            no_outside: false,
            topic_locked: false,
            privacy: Privacy::Public,
            key: None,
            limit: None,
            bans: BanList::new(alloc),
        }
    }

    /// The same modes once more.
    ///
    /// # Errors
    /// Where memory runs out.
    pub fn copy(&self) -> Result<Self, AllocError>
        ensures { IfOk result (λ copy. copy ≡ self.now) }
    {
        Ok(Modes {
            invite_only: self.invite_only,
            moderated: self.moderated,
            no_outside: self.no_outside,
            topic_locked: self.topic_locked,
            privacy: self.privacy,
            key: copy_key(&self.key),
            limit: self.limit,
            bans: self.bans.copy()?,
        })
    }

    /// Changes modes of the channel, one after another. The letters o and v are modes of a member,
    /// and change nothing here. Only a ban that is added takes memory; where there is none nothing
    /// has changed.
    ///
    /// # Errors
    /// Where memory runs out; nothing has changed then.
    #[tactic(auto, using(crate::proofs::SettingsParted::modes_parted))]
    pub fn change(&mut self, changes: &[ModeChange]) -> Result<(), AllocError>
        ensures ok { OnOk result (self.new ≡ modes_after changes.now self.old) }
        ensures refused { OnErr result (self.new ≡ self.old) }
        ensures none_added { list_any (adds_ban self.old.bans) changes.now ≡ false → IsOk result }
    {
        self.bans.change(changes)?;
        change_settings(self, changes);
        Ok(())
    }
}

/// Makes the changes but for those of bans, one after another. They take no memory.
fn change_settings(modes: &mut Modes, changes: &[ModeChange])
    ensures { modes.new ≡ settings_after changes.now modes.old }
{
    for change in changes {
        change_setting(modes, change);
    }
}

fn change_setting(modes: &mut Modes, change: &ModeChange)
    ensures { modes.new ≡ setting_step modes.old change.now }
{
    let plus = change.plus;
    let word = change.word_bytes();
    match change.letter {
        ModeLetter::InviteOnly => modes.invite_only = plus,
        ModeLetter::Moderated => modes.moderated = plus,
        ModeLetter::NoOutside => modes.no_outside = plus,
        ModeLetter::TopicLocked => modes.topic_locked = plus,
        ModeLetter::Private => modes.privacy = private_changed(plus, modes.privacy),
        ModeLetter::Secret => modes.privacy = secret_changed(plus, modes.privacy),
        ModeLetter::Key => change_key(&mut modes.key, plus, word),
        ModeLetter::Limit => change_limit(&mut modes.limit, plus, word),
        ModeLetter::Ban | ModeLetter::Operator | ModeLetter::Voice => {}
    }
}

impl ModeChange {
    /// The same change once more. It takes no memory and cannot fail.
    pub fn copy(&self) -> Self
        ensures { result ≡ self.now }
    {
        ModeChange {
            plus: self.plus,
            letter: self.letter,
            word: match &self.word {
                Some(word) => Some(word.copy()),
                None => None,
            },
        }
    }

    /// The bytes of the parameter, if there is one.
    pub fn word_bytes(&self) -> Option<&[u8]>
        ensures { option_copied result ≡ self.now.word }
    {
        match &self.word {
            Some(word) => Some(word.as_bytes()),
            None => None,
        }
    }
}

fn copy_key(key: &Option<Key>) -> Option<Key>
    ensures { result ≡ key.now }
{
    match key {
        Some(key) => Some(key.copy()),
        None => None,
    }
}

/// Mode p is set only where nothing is, and cleared only where it is set (our own choice).
fn private_changed(plus: bool, before: Privacy) -> Privacy
    ensures { result ≡ private_changed plus before }
{
    match (plus, before) {
        (true, Privacy::Public) => Privacy::Private,
        (false, Privacy::Private) => Privacy::Public,
        _ => before,
    }
}

/// Mode s is set in any case, and cleared only where it is set (our own choice).
fn secret_changed(plus: bool, before: Privacy) -> Privacy
    ensures { result ≡ secret_changed plus before }
{
    match (plus, before) {
        (true, _) => Privacy::Secret,
        (false, Privacy::Secret) => Privacy::Public,
        (false, _) => before,
    }
}

/// Mode k: a parameter that is no key changes nothing.
fn change_key(key: &mut Option<Key>, plus: bool, word: Option<&[u8]>)
    ensures { key.new ≡ key_changed plus (option_copied word.entry) key.old }
{
    if !plus {
        *key = None;
        return;
    }
    let Some(bytes) = word else { return };
    if let Some(new) = Key::read(bytes) {
        *key = Some(new);
    }
}

/// Mode l: a parameter that is no limit changes nothing.
fn change_limit(limit: &mut Option<u16>, plus: bool, word: Option<&[u8]>)
    ensures { limit.new ≡ limit_changed plus (option_copied word.entry) limit.old }
{
    if !plus {
        *limit = None;
        return;
    }
    let Some(bytes) = word else { return };
    if let Some(new) = read_limit(bytes) {
        *limit = Some(new);
    }
}
