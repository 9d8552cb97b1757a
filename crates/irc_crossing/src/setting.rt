//! What is set in a channel, and which of two settings of one thing stays.
ghost use Rattle.std.specs.Prelude.{◌≡◌};
ghost use Rattle.std.specs.Option.{option_copied};
ghost use Rattle.irc_crossing.specs.Settings.{are_greater_bytes, are_same_words, is_by_word};
ghost use Rattle.irc_crossing.specs.Settings.{is_greater_change, is_greater_limit, is_greater_set};
ghost use Rattle.irc_crossing.specs.Settings.{is_above, is_in, is_one_place, is_secret, limit_of};
ghost use Rattle.irc_crossing.specs.Settings.{place_of, yields};

use irc_channels::Words;
use irc_modes::{ModeChange, ModeLetter, read_limit};
use irc_names::{ChannelName, same};

/// What is set in a channel, or taken away.
#[derive(Drop)]
pub enum Setting {
    /// A mode, or a flag of a member: one letter of `:al MODE #c +ko x bo`.
    Mode {
        /// Which channel.
        channel: ChannelName,
        /// What of it.
        change: ModeChange,
    },
    /// The topic: `:al TOPIC #c :hello`.
    Topic {
        /// Which channel.
        channel: ChannelName,
        /// The topic; an empty one is none.
        text: Words,
    },
    /// How the channel is spelled: `:a.net NJOIN #c :`, which brings nobody.
    Spelling {
        /// The channel, spelled so.
        channel: ChannelName,
    },
}

impl Setting {
    /// Whether it gives way to one of the other end, which was made beside it: both set one thing,
    /// and it is not the greater.
    pub(crate) fn yields(&self, other: &Setting) -> bool
        ensures { result ≡ yields self.now other.now }
    {
        match (self, other) {
            (
                Setting::Mode { channel, change },
                Setting::Mode {
                    channel: at,
                    change: theirs,
                },
            ) => {
                same(channel.as_bytes(), at.as_bytes())
                    && is_one_place(change, theirs)
                    && !is_greater_change(change, theirs)
            }
            (
                Setting::Topic { channel, text },
                Setting::Topic {
                    channel: at,
                    text: theirs,
                },
            ) => {
                same(channel.as_bytes(), at.as_bytes())
                    && !theirs.as_bytes().cmp(text.as_bytes()).is_lt()
            }
            (Setting::Spelling { channel }, Setting::Spelling { channel: theirs }) => {
                same(channel.as_bytes(), theirs.as_bytes())
                    && !theirs.as_bytes().cmp(channel.as_bytes()).is_lt()
            }
            _ => false,
        }
    }

    /// Whether it is set in this channel.
    pub(crate) fn is_in(&self, channel: &ChannelName) -> bool
        ensures { result ≡ is_in channel.now self.now }
    {
        match self {
            Setting::Mode { channel: at, .. }
            | Setting::Topic { channel: at, .. }
            | Setting::Spelling { channel: at } => same(channel.as_bytes(), at.as_bytes()),
        }
    }

    /// The same once more.
    pub(crate) fn copy(&self) -> Setting
        ensures { result ≡ self.now }
    {
        match self {
            Setting::Mode { channel, change } => Setting::Mode {
                channel: channel.copy(),
                change: change.copy(),
            },
            Setting::Topic { channel, text } => Setting::Topic {
                channel: channel.copy(),
                text: text.copy(),
            },
            Setting::Spelling { channel } => Setting::Spelling {
                channel: channel.copy(),
            },
        }
    }
}

/// Whether two changes of modes are of one thing.
fn is_one_place(one: &ModeChange, other: &ModeChange) -> bool
    ensures { result ≡ is_one_place one.now other.now }
{
    place_of(one.letter).byte() == place_of(other.letter).byte()
        && (!is_by_word(one.letter) || are_same_words(one.word_bytes(), other.word_bytes()))
}

/// The letter that stands for all of one place: p and s are one.
fn place_of(letter: ModeLetter) -> ModeLetter
    ensures { result ≡ place_of letter }
{
    match letter {
        ModeLetter::Secret => ModeLetter::Private,
        other => other,
    }
}

/// Whether a letter's word tells which of several it is of.
fn is_by_word(letter: ModeLetter) -> bool
    ensures { result ≡ is_by_word letter }
{
    match letter {
        ModeLetter::Ban => true,
        other => other.names_member(),
    }
}

fn are_same_words(one: Option<&[u8]>, other: Option<&[u8]>) -> bool
    ensures { result ≡ are_same_words (option_copied one.entry) (option_copied other.entry) }
{
    match (one, other) {
        (Some(one), Some(other)) => same(one, other),
        _ => false,
    }
}

/// Whether the first of two changes of one thing is the greater.
fn is_greater_change(one: &ModeChange, other: &ModeChange) -> bool
    ensures { result ≡ is_greater_change one.now other.now }
{
    one.plus && (!other.plus || is_greater_set(one, other))
}

/// The same of two that set it.
fn is_greater_set(one: &ModeChange, other: &ModeChange) -> bool
    ensures { result ≡ is_greater_set one.now.letter one.now other.now }
{
    match one.letter {
        ModeLetter::Secret => !is_secret(other.letter),
        ModeLetter::Key | ModeLetter::Ban => {
            are_greater_bytes(one.word_bytes(), other.word_bytes())
        }
        ModeLetter::Limit => is_greater_limit(one.word_bytes(), other.word_bytes()),
        _ => false,
    }
}

fn is_secret(letter: ModeLetter) -> bool
    ensures { result ≡ is_secret letter }
{
    matches!(letter, ModeLetter::Secret)
}

fn are_greater_bytes(one: Option<&[u8]>, other: Option<&[u8]>) -> bool
    ensures { result ≡ are_greater_bytes (option_copied one.entry) (option_copied other.entry) }
{
    match (one, other) {
        (Some(one), Some(other)) => other.cmp(one).is_lt(),
        _ => false,
    }
}

/// Limits are compared by their numbers, however they are written.
fn is_greater_limit(one: Option<&[u8]>, other: Option<&[u8]>) -> bool
    ensures { result ≡ is_greater_limit (option_copied one.entry) (option_copied other.entry) }
{
    match (one, other) {
        (Some(one), Some(other)) => is_above(limit_of(one), limit_of(other)),
        _ => false,
    }
}

/// The limit that a word writes, if it writes one.
fn limit_of(word: &[u8]) -> Option<u16>
    ensures { result ≡ limit_of word.now }
{
    read_limit(word)
}

/// Whether the first number is there and above the other, if that is there.
fn is_above(one: Option<u16>, other: Option<u16>) -> bool
    ensures { result ≡ is_above one other }
{
    match (one, other) {
        (Some(one), Some(other)) => other < one,
        (Some(_), None) => true,
        (None, _) => false,
    }
}
