//! A channel's modes, and a change of one.
ghost use Rattle.std.specs.Prelude.{◌≡◌};
ghost use Rattle.std.specs.Option.{option_copied, SomeIff};
ghost use Rattle.irc_modes.specs.Letters.{letter_byte, names_member, sign_byte};
ghost use Rattle.irc_modes.specs.Modes.{kept_change};
ghost use Rattle.irc_modes.specs.Texts.{IsKept};

use crate::bans::BanList;
use crate::mode_word::ModeWord;
use irc_names::Key;

/// Who is told that a channel is there (RFC 2811 section 4.2.6).
#[derive(Clone, Copy, PartialEq, Eq)]
pub enum Privacy {
    /// Everybody.
    Public,
    /// Mode p.
    Private,
    /// Mode s.
    Secret,
}

/// The modes of a channel (RFC 2811 section 4.2). Nothing is set in a new one.
#[derive(Drop)]
pub struct Modes {
    /// Mode i: who joins must have been invited.
    pub invite_only: bool,
    /// Mode m: only operators and voiced members speak.
    pub moderated: bool,
    /// Mode n: only members speak.
    pub no_outside: bool,
    /// Mode t: only operators set the topic.
    pub topic_locked: bool,
    /// Modes p and s, which are one value.
    pub privacy: Privacy,
    /// Mode k: who joins must give this key.
    pub key: Option<Key>,
    /// Mode l: from this many members on nobody joins.
    pub limit: Option<u16>,
    /// Mode b: whom these masks match may not join, nor speak without voice.
    pub bans: BanList,
}

/// A mode that a channel or a member can have, by its letter.
#[derive(Clone, Copy, PartialEq, Eq)]
pub enum ModeLetter {
    /// `i`
    InviteOnly,
    /// `m`
    Moderated,
    /// `n`
    NoOutside,
    /// `t`
    TopicLocked,
    /// `p`
    Private,
    /// `s`
    Secret,
    /// `k`
    Key,
    /// `l`
    Limit,
    /// `b`
    Ban,
    /// `o`
    Operator,
    /// `v`
    Voice,
}

impl ModeLetter {
    /// The letter as it is written.
    pub fn byte(self) -> u8
        ensures { result ≡ letter_byte self }
    {
        match self {
            ModeLetter::InviteOnly => b'i',
            ModeLetter::Moderated => b'm',
            ModeLetter::NoOutside => b'n',
            ModeLetter::TopicLocked => b't',
            ModeLetter::Private => b'p',
            ModeLetter::Secret => b's',
            ModeLetter::Key => b'k',
            ModeLetter::Limit => b'l',
            ModeLetter::Ban => b'b',
            ModeLetter::Operator => b'o',
            ModeLetter::Voice => b'v',
        }
    }

    /// Whether its parameter is the nickname of a member.
    pub fn names_member(self) -> bool
        ensures { result ≡ names_member self }
    {
        matches!(self, ModeLetter::Operator | ModeLetter::Voice)
    }
}

/// The sign that is written before a letter: `+` for a mode that is set, `-` for one that is taken
/// away.
pub fn sign_byte(plus: bool) -> u8
    ensures { result ≡ sign_byte plus }
{
    if plus { b'+' } else { b'-' }
}

/// A change of one mode as a command asks for it (RFC 2811 section 4): its parameter is one of the
/// command's, whole.
#[derive(Clone, Copy)]
pub struct AskedChange<'a> {
    /// Whether it is to be set, or taken away.
    pub plus: bool,
    /// Which mode.
    pub letter: ModeLetter,
    /// Its parameter as it was given, if it has one.
    pub word: Option<&'a [u8]>,
}

impl<'a> AskedChange<'a> {
    /// The change with a parameter of its own; none where the parameter is longer than any mode
    /// takes. It takes no memory.
    pub fn kept(&self) -> Option<ModeChange>
        ensures { SomeIff result (IsKept (option_copied self.now.word)) (kept_change self.now) }
    {
        let word = match self.word {
            Some(bytes) => Some(ModeWord::read(bytes)?),
            None => None,
        };
        Some(ModeChange {
            plus: self.plus,
            letter: self.letter,
            word,
        })
    }
}

/// A change of one mode (RFC 2811 section 4).
#[derive(Drop)]
pub struct ModeChange {
    /// Whether it is set, or taken away.
    pub plus: bool,
    /// Which mode.
    pub letter: ModeLetter,
    /// Its parameter, if it has one.
    pub word: Option<ModeWord>,
}
