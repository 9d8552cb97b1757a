//! What becomes of a line that comes by a link.
ghost use Rattle.std.specs.Prelude.{◌≡◌, ◌-◌, ◌≤◌, length, slice_get, take, IfOk, OnOk};
ghost use Rattle.std.specs.Cmp.Lexicographic.{pointwise};
ghost use Rattle.std.specs.Option.{option_copied, option_map, option_map_or};
ghost use Rattle.std.specs.Str.{bytes_eq};
ghost use Rattle.irc_line.specs.Limits.{max_parameters};
ghost use Rattle.irc_line.specs.MessageViews.{optional_now, params_now, parsed};
ghost use Rattle.irc_line.specs.Messages.{text};
ghost use Rattle.irc_line.specs.PartViews.{sender, words_now};
ghost use Rattle.irc_crossing.specs.Hearing.{brought, doer_now, given, given_by, given_from};
ghost use Rattle.irc_crossing.specs.Hearing.{given_if, given_with, is_brought, log_after};
ghost use Rattle.irc_crossing.specs.Hearing.{log_after_message, message_given, met_given};
ghost use Rattle.irc_crossing.specs.Hearing.{mode_set, modes_by, modes_from, modes_given};
ghost use Rattle.irc_crossing.specs.Hearing.{nick_given, sender_again, set_given, stays};
ghost use Rattle.irc_crossing.specs.Hearing.{word_now, words_left, words_now_at, written_with};
ghost use Rattle.irc_crossing.specs.Letters.{letters_left};
ghost use Rattle.irc_crossing.specs.Logs.{log_behind, means_as, through};
ghost use Rattle.irc_crossing.specs.Lines.{change_of, is_same_prefix, word_at};
ghost use Rattle.irc_crossing.specs.Loops.Hearings.{IsPutRight};
ghost use Rattle.std.specs.Prelude.{List};
ghost use Rattle.irc_crossing.specs.declared.log.Entry.{Entry};
ghost use Rattle.irc_crossing.specs.Loops.LettersLeft.{left_of, with_log};
ghost use Rattle.irc_crossing.specs.declared.hearing.Given.TheVariants.{AsItCame};

use crate::change::Change;
use crate::lines::{brings_nobody, change_of, is_for_somebody, word_at};
use crate::log::Log;
use crate::modes::{ChannelModes, LettersLeft, channel_modes};
use arrayvec::ArrayVec;
use irc_burst_lines::mode_text;
use irc_line::limits::MAX_PARAMETERS;
use irc_line::{Message, Parts, Prefix, Text, parse, write_message};
use irc_link_words::{is_command, is_marked, unmarked};
use irc_names::{ChannelName, Nick, is_nick, same};
use std::alloc::AllocError;

/// The words of a line.
pub(crate) type LineWords<'a> = ArrayVec<&'a [u8], MAX_PARAMETERS>;

/// What a server is given for a line.
#[derive(Drop)]
pub enum Given {
    /// The line as it came.
    AsItCame,
    /// This line, with its CR LF.
    Changed(Text),
    /// Nothing.
    LeftOut,
    /// That the users of these nicknames are killed: two have had one nickname.
    Kills(Nick, Option<Nick>),
    /// That a user has come to a channel, as an operator or not, which is spelled so where its name
    /// there is not the greater: one that was begun at both ends, or is asked for.
    Brings(Nick, ChannelName, bool),
    /// This line of the server at the other end, with its CR LF, which does what it says: for who
    /// has done it is gone here.
    Sets(Text),
}

impl Log {
    /// Hears a line that comes from the other end, without its CR LF: what the server is given for
    /// it. `peer` is the name of the server there. `is_held` is whether what the line brings is
    /// there already: the nickname of a NICK, for somebody who is not behind the link, or the
    /// channel of a JOIN.
    ///
    /// # Errors
    /// Where memory runs out.
    pub fn hear(&mut self, line: &[u8], peer: &[u8], is_held: bool) -> Result<Given, AllocError>
        ensures given { IfOk result (λ became. became ≡ given self.old peer.now is_held line.now) }
        ensures behind { OnOk result (self.new ≡ log_after self.old line.now) }
    {
        if self.is_empty() {
            return Ok(Given::AsItCame);
        }
        match parse(line) {
            Ok(message) => self.hear_message(&message, peer, is_held),
            Err(_) => Ok(Given::AsItCame),
        }
    }

    fn hear_message(
        &mut self,
        message: &Message<'_>,
        peer: &[u8],
        is_held: bool,
    ) -> Result<Given, AllocError>
        ensures given { IfOk result (λ became. became
            ≡ message_given self.old peer.now is_held (parsed message.now)) }
        ensures behind { OnOk result (self.new ≡ log_after_message self.old (parsed message.now)) }
    {
        if let Some(modes) = channel_modes(self.alloc(), message)? {
            return self.hear_modes(message, &modes, peer);
        }
        if is_command(b"NICK", message.command) {
            return Ok(self.hear_nick(message, is_held));
        }
        let given = self.given_by(message, peer, is_held);
        let _became = self.pass(change_of(message));
        Ok(given)
    }

    /// Hears that a user comes, or takes another nickname.
    fn hear_nick(&mut self, message: &Message<'_>, is_held: bool) -> Given
        ensures given { result ≡ option_map_or
            (λ change. nick_given is_held (parsed message.now) (through (Some change) self.old))
            (change_of (parsed message.now)) AsItCame }
        ensures behind { self.new ≡ log_behind (change_of (parsed message.now)) self.old }
    {
        let Some(change) = change_of(message) else {
            return Given::AsItCame;
        };
        let became = self.pass(Some(change));
        nick_given(message, became, is_held)
    }

    /// Hears a MODE of a channel.
    fn hear_modes(
        &mut self,
        message: &Message<'_>,
        modes: &ChannelModes,
        peer: &[u8],
    ) -> Result<Given, AllocError>
        ensures given { IfOk result (λ became. became
            ≡ modes_by (parsed message.now) peer.now modes.now.channel
            (letters_left modes.now.channel modes.now.changes self.old)
            (optional_now message.now.prefix)) }
        ensures behind { OnOk result
            (self.new ≡ (letters_left modes.now.channel modes.now.changes self.old).log) }
    {
        let left = self.pass_modes(modes)?;
        let Some(doer) = message.prefix else {
            return Ok(given_with(message, None, message.params.as_slice()));
        };
        match self.doer_now(message, doer) {
            Some(doer) => Ok(left.given(message, doer, &modes.channel)),
            None => Ok(left.set_by(peer, &modes.channel)),
        }
    }

    /// What a line that is neither is given as.
    fn given_by(&self, message: &Message<'_>, peer: &[u8], is_held: bool) -> Given
        ensures { result ≡ given_by self.now peer.now is_held (parsed message.now)
            (optional_now message.now.prefix) }
    {
        match message.prefix {
            Some(doer) => match self.doer_now(message, doer) {
                Some(now) if self.is_brought(message, peer, is_held) => {
                    self.brought(message, now)
                }
                Some(now) => self.given_from(message, Some(now)),
                None => self.set_given(message, peer),
            },
            None => self.given_from(message, None),
        }
    }

    /// Whether somebody comes to a channel that is not the same at both ends.
    fn is_brought(&self, message: &Message<'_>, peer: &[u8], is_held: bool) -> bool
        ensures { result ≡ is_brought self.now peer.now is_held (parsed message.now) }
    {
        is_command(b"JOIN", message.command)
            && ((is_held && is_marked(word_at(message, 0)))
                || self.asked_message(message, peer, is_held).is_some())
    }

    /// What is given for a JOIN by which somebody does.
    fn brought(&self, message: &Message<'_>, doer: &[u8]) -> Given
        ensures { result ≡ brought self.now (parsed message.now) doer.now }
    {
        let word = word_at(message, 0);
        match (Nick::read(doer), ChannelName::read(unmarked(word))) {
            (Some(nick), Some(channel)) => {
                Given::Brings(nick, self.spelled(channel), is_marked(word))
            }
            _ => given_with(message, Some(doer), message.params.as_slice()),
        }
    }

    /// What a line from this one is given as.
    fn given_from(&self, message: &Message<'_>, prefix: Option<&[u8]>) -> Given
        ensures { result ≡ given_if (parsed message.now) (optional_now prefix.entry)
            (words_left self.now (parsed message.now)) }
    {
        match self.words_left(message) {
            Some(words) => given_with(message, prefix, words.as_slice()),
            None => Given::LeftOut,
        }
    }

    /// The words of a line; none where whom it is for is gone, or what it sets is not left.
    fn words_left<'a>(&'a self, message: &Message<'a>) -> Option<LineWords<'a>>
        ensures { option_map params_now result ≡ words_left self.now (parsed message.now) }
    {
        if is_command(b"KICK", message.command) {
            self.words_at(message, 1, Some(word_at(message, 0)))
        } else if is_for_somebody(message) {
            self.words_at(message, 0, None)
        } else if self.stays(message) {
            Some(copy_of(message.params.as_slice()))
        } else {
            None
        }
    }

    /// The words of a line of which the one at a place is somebody's, as a member of a channel if
    /// there is one.
    fn words_at<'a>(
        &'a self,
        message: &Message<'a>,
        place: usize,
        channel: Option<&[u8]>,
    ) -> Option<LineWords<'a>>
        ensures { option_map params_now result
            ≡ words_now_at place (means_as self.now (optional_now channel.entry))
            (parsed message.now).params }
    {
        let mut words = copy_of(message.params.as_slice());
        if self.put_right_at(place, channel, words.as_mut_slice()) {
            Some(words)
        } else {
            None
        }
    }

    /// Whether what a line sets is left: a topic, or how a channel is spelled.
    fn stays(&self, message: &Message<'_>) -> bool
        ensures { result ≡ stays self.now (parsed message.now) }
    {
        if !is_command(b"TOPIC", message.command) && !brings_nobody(message) {
            return true;
        }
        match change_of(message) {
            Some(change) => self.would_pass(change).is_some(),
            None => true,
        }
    }

    /// What is given for a KICK or a TOPIC of somebody who is gone here: the same by the server at
    /// the other end. Of any other line nothing is.
    fn set_given(&self, message: &Message<'_>, peer: &[u8]) -> Given
        ensures { result ≡ set_given self.now peer.now (parsed message.now) }
    {
        if !is_command(b"KICK", message.command) && !is_command(b"TOPIC", message.command) {
            return Given::LeftOut;
        }
        match self.words_left(message) {
            Some(words) => Given::Sets(written_with(Some(peer), message, words.as_slice())),
            None => Given::LeftOut,
        }
    }

    /// The word at a place is put right: whether somebody is there whom it names.
    fn put_right_at<'a>(
        &'a self,
        place: usize,
        channel: Option<&[u8]>,
        words: &mut [&'a [u8]],
    ) -> bool
        ensures { IsPutRight place (means_as self.now (optional_now channel.entry))
            (words_now words.old) result (words_now words.new) }
    {
        if place >= words.len() {
            return true;
        }
        match self.word_now(channel, words[place]) {
            Some(word) => {
                words[place] = word;
                true
            }
            None => false,
        }
    }

    /// The nickname now of whom a word means, as a member of a channel if there is one; a word that
    /// is no nickname stays.
    pub(crate) fn word_now<'a>(&'a self, channel: Option<&[u8]>, word: &'a [u8]) -> Option<&'a [u8]>
        ensures { option_copied result
            ≡ word_now (means_as self.now (optional_now channel.entry)) word.now }
    {
        if !is_nick(word) {
            return Some(word);
        }
        match channel {
            Some(channel) => self.means_in(channel, word),
            None => self.means(word),
        }
    }

    /// Who a line is from; none where that one is gone.
    fn doer_now<'a>(&'a self, message: &Message<'_>, doer: &'a [u8]) -> Option<&'a [u8]>
        ensures { option_copied result ≡ doer_now self.now (parsed message.now) doer.now }
    {
        if is_command(b"PART", message.command) {
            self.word_now(Some(word_at(message, 0)), doer)
        } else {
            self.word_now(None, doer)
        }
    }
}

/// What a NICK is given as, by what is left of the change that it tells of.
fn nick_given(message: &Message<'_>, became: Option<Change>, is_held: bool) -> Given
    ensures { result ≡ nick_given is_held (parsed message.now) became }
{
    match became {
        Some(Change::Come(_)) => Given::AsItCame,
        Some(Change::Rename { nick, .. }) => {
            given_with(message, Some(nick.as_bytes()), message.params.as_slice())
        }
        Some(Change::Go { nick, other }) => met_given(message, nick, other, is_held),
        Some(Change::Out { .. } | Change::Join { .. } | Change::Set(_)) | None => Given::LeftOut,
    }
}

/// What a NICK is given as, where two have one nickname.
fn met_given(message: &Message<'_>, nick: Nick, other: Option<Nick>, is_held: bool) -> Given
    ensures { result ≡ met_given is_held (parsed message.now) nick other }
{
    let is_still = is_held && same(nick.as_bytes(), word_at(message, 0));
    match other {
        Some(other) if is_still => {
            given_with(message, Some(other.as_bytes()), message.params.as_slice())
        }
        None if is_still && message.prefix.is_none() => Given::AsItCame,
        other => Given::Kills(nick, other),
    }
}

impl LettersLeft {
    /// What a MODE is given as, from this one.
    fn given(&self, message: &Message<'_>, doer: &[u8], channel: &ChannelName) -> Given
        ensures { (log : List Entry) → result ≡ modes_given (parsed message.now) doer.now
            channel.now (with_log log (left_of self.now)) }
    {
        if self.are_all && is_same_prefix(Some(doer), message.prefix) {
            Given::AsItCame
        } else if self.changes.is_empty() {
            Given::LeftOut
        } else {
            Given::Changed(mode_text(doer, channel, self.changes.as_slice()))
        }
    }

    /// What is given for a MODE of somebody who is gone.
    fn set_by(&self, peer: &[u8], channel: &ChannelName) -> Given
        ensures { (log : List Entry) → result ≡ mode_set peer.now channel.now
            (with_log log (left_of self.now)) }
    {
        if self.changes.is_empty() {
            Given::LeftOut
        } else {
            Given::Sets(mode_text(peer, channel, self.changes.as_slice()))
        }
    }
}

/// The line from this one, with these parameters; as it came, where both are as they were.
fn given_with(message: &Message<'_>, prefix: Option<&[u8]>, words: &[&[u8]]) -> Given
    ensures { result ≡ given_with (parsed message.now) (optional_now prefix.entry)
        (words_now words.now) }
{
    if is_same_prefix(prefix, message.prefix) && are_same(words, message.params.as_slice()) {
        Given::AsItCame
    } else {
        Given::Changed(written_with(prefix, message, words))
    }
}

pub(crate) fn is_same_prefix(one: Option<&[u8]>, other: Option<&[u8]>) -> bool
    ensures { result ≡ is_same_prefix (optional_now one.entry) (optional_now other.entry) }
{
    match (one, other) {
        (Some(one), Some(other)) => one == other,
        (None, None) => true,
        _ => false,
    }
}

fn are_same(words: &[&[u8]], others: &[&[u8]]) -> bool
    ensures { result ≡ pointwise bytes_eq (words_now words.now) (words_now others.now) }
{
    words == others
}

/// A line from this one, with these parameters.
pub(crate) fn written_with(prefix: Option<&[u8]>, message: &Message<'_>, words: &[&[u8]]) -> Text
    ensures { result.items ≡ text (written_with (optional_now prefix.entry) (parsed message.now)
        (words_now words.now)) }
{
    write_message(&Parts {
        prefix: sender_again(prefix),
        command: message.command,
        middle: before_last(words),
        last: last_of(words),
    })
}

/// Who a line is from, as it is written again.
fn sender_again(prefix: Option<&[u8]>) -> Prefix<'_>
    ensures { sender result ≡ sender_again (optional_now prefix.entry) }
{
    match prefix {
        Some(name) => Prefix::Name(name),
        None => Prefix::Nothing,
    }
}

/// The words but the last.
fn before_last<'w, 'a>(words: &'w [&'a [u8]]) -> &'w [&'a [u8]]
    ensures { result.now ≡ take (length words.now - 1) words.now }
{
    &words[..words.len().saturating_sub(1)]
}

/// The last word, if there is one.
fn last_of<'a>(words: &[&'a [u8]]) -> Option<&'a [u8]>
    ensures { optional_now result ≡ optional_now (slice_get words.now (length words.now - 1)) }
{
    words.last().copied()
}

/// The words once more.
fn copy_of<'a>(words: &[&'a [u8]]) -> LineWords<'a>
    requires { length words.now ≤ max_parameters }
    ensures { params_now result ≡ words_now words.now }
{
    let mut all = LineWords::new();
    let _ = all.try_extend_from_slice(words);
    all
}
