//! The letters of a MODE of a channel.
ghost use Rattle.std.specs.Prelude.{◌≡◌, [], ◌∷◌, ◌++◌, IfOk, OnOk, Some};
ghost use Rattle.irc_line.specs.MessageViews.{optional_now, parsed};
ghost use Rattle.irc_line.specs.PartViews.{words_now};
ghost use Rattle.irc_crossing.specs.Letters.{is_same_word, letters_left, set_mode};
ghost use Rattle.irc_crossing.specs.Lines.{channel_modes, modes_in};
ghost use Rattle.irc_crossing.specs.Loops.LettersLeft.{added, left_of, with_log};

use crate::change::Change;
use crate::log::Log;
use crate::setting::Setting;
use irc_line::Message;
use irc_link_words::{is_command, read_changes};
use irc_modes::ModeChange;
use irc_names::ChannelName;
use irc_room::ModeChanges;
use std::alloc::{AllocError, Global};

/// What a MODE of a channel changes.
#[derive(Drop)]
pub(crate) struct ChannelModes {
    /// Which channel.
    pub channel: ChannelName,
    /// What of it, in order.
    pub changes: ModeChanges,
}

/// What is left of the letters of a MODE.
#[derive(Drop)]
pub(crate) struct LettersLeft {
    /// The letters, each with its word.
    pub changes: Vec<ModeChange, Global>,
    /// Whether all are left, each with the word that it had.
    pub are_all: bool,
}

/// What a line changes as a MODE of a channel, if it is one.
///
/// # Errors
/// Where memory runs out.
pub(crate) fn channel_modes(
    alloc: Global,
    message: &Message<'_>,
) -> Result<Option<ChannelModes>, AllocError>
    ensures { IfOk result (λ modes. modes ≡ channel_modes (parsed message.now)) }
{
    if is_command(b"MODE", message.command) {
        modes_in(alloc, message.params.as_slice())
    } else {
        Ok(None)
    }
}

fn modes_in(alloc: Global, words: &[&[u8]]) -> Result<Option<ChannelModes>, AllocError>
    ensures { IfOk result (λ modes. modes ≡ modes_in (words_now words.now)) }
{
    let Some((channel, words)) = words.split_first() else {
        return Ok(None);
    };
    let Some(channel) = ChannelName::read(channel) else {
        return Ok(None);
    };
    match read_changes(alloc, words)? {
        Some(changes) => Ok(Some(ChannelModes { channel, changes })),
        None => Ok(None),
    }
}

impl Log {
    /// The letters of a MODE of the other end pass what was put out, in order: what is left of
    /// them.
    ///
    /// # Errors
    /// Where memory runs out.
    pub(crate) fn pass_modes(&mut self, modes: &ChannelModes) -> Result<LettersLeft, AllocError>
        ensures { IfOk result (λ left. with_log self.new (left_of left)
            ≡ letters_left modes.now.channel modes.now.changes self.old) }
    {
        let mut left = LettersLeft {
            changes: Vec::new(self.alloc()),
            are_all: true,
        };
        for change in modes.changes.as_slice() {
            let became = self.pass(Some(set_mode(&modes.channel, change)));
            left.add(change, became)?;
        }
        Ok(left)
    }
}

/// One letter is set in a channel.
pub(crate) fn set_mode(channel: &ChannelName, change: &ModeChange) -> Change
    ensures { Some result ≡ set_mode channel.now change.now }
{
    Change::Set(Setting::Mode {
        channel: channel.copy(),
        change: change.copy(),
    })
}

impl LettersLeft {
    /// One letter more, by what is left of it.
    fn add(&mut self, change: &ModeChange, became: Option<Change>) -> Result<(), AllocError>
        ensures { OnOk result (left_of self.new ≡ added change.now became (left_of self.old)) }
    {
        match became {
            Some(Change::Set(Setting::Mode { change: now, .. })) => {
                let is_same = is_same_word(now.word_bytes(), change.word_bytes());
                self.are_all = self.are_all && is_same;
                self.put(now)
            }
            _ => {
                self.are_all = false;
                Ok(())
            }
        }
    }

    fn put(&mut self, change: ModeChange) -> Result<(), AllocError>
        ensures put { OnOk result (self.new.changes.items ≡ self.old.changes.items ++ change ∷ []) }
        ensures stays { self.new.are_all ≡ self.old.are_all }
    {
        match self.changes.push(change) {
            Ok(()) => Ok(()),
            Err(_) => Err(AllocError),
        }
    }
}

fn is_same_word(one: Option<&[u8]>, other: Option<&[u8]>) -> bool
    ensures { result ≡ is_same_word (optional_now one.entry) (optional_now other.entry) }
{
    match (one, other) {
        (Some(one), Some(other)) => one == other,
        (None, None) => true,
        _ => false,
    }
}
