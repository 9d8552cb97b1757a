//! What a line changes of who has which nickname, of who is in which channel, and of what is set
//! there.
ghost use Rattle.std.specs.Prelude.{◌≡◌};
ghost use Rattle.std.specs.Option.{option_and_then, option_copied};
ghost use Rattle.irc_crossing.specs.Changes.{are_met, behind, both_go, crossed, gone_of, is_gone};
ghost use Rattle.irc_crossing.specs.Changes.{join_behind, member_now, mode_now, nick_now};
ghost use Rattle.irc_crossing.specs.Changes.{renamed_now};
ghost use Rattle.irc_crossing.specs.Changes.{setting_behind, setting_now, taken_by};
ghost use Rattle.irc_crossing.specs.Lines.{begun_if};
ghost use Rattle.irc_crossing.specs.Loops.Standings.{name_of};

use crate::setting::Setting;
use irc_modes::{ModeChange, ModeWord};
use irc_names::{ChannelName, Nick, same};

/// A change of who has which nickname, of who is in which channel, or of what is set there.
#[derive(Drop)]
pub enum Change {
    /// A user comes: `NICK al 1 u h 1 + :Al`.
    Come(Nick),
    /// A user takes another nickname: `:al NICK ally`.
    Rename {
        /// The nickname that it had.
        nick: Nick,
        /// The one that it has.
        new: Nick,
    },
    /// A user is gone: `:al QUIT :bye`, or `:a.net KILL al :..`.
    Go {
        /// Who.
        nick: Nick,
        /// Another one who is, where two had one nickname.
        other: Option<Nick>,
    },
    /// A member is out of a channel: `:al PART #c :bye`, or `:bo KICK #c al :out`.
    Out {
        /// Who.
        nick: Nick,
        /// Which channel.
        channel: ChannelName,
    },
    /// Somebody comes to a channel: `:al JOIN #c`, or `:a.net NJOIN #c :al`.
    Join {
        /// Which channel.
        channel: ChannelName,
        /// Whether it begins by that: `:al JOIN #c\7o`.
        begins: bool,
    },
    /// Something is set in a channel: a letter of `:al MODE #c +k x`, or `:al TOPIC #c :hello`.
    Set(Setting),
}

/// What has become of whoever had a nickname.
pub enum Standing<'a> {
    /// It has it still.
    Stays,
    /// It has this one now.
    Renamed(&'a Nick),
    /// It is gone.
    Gone,
}

impl Change {
    /// The nickname that somebody has by it, and had not before.
    fn taken(&self) -> Option<&Nick>
        ensures { option_copied result ≡ taken_by self.now }
    {
        match self {
            Change::Come(nick) => Some(nick),
            Change::Rename { nick, new } if !same(nick.as_bytes(), new.as_bytes()) => Some(new),
            _ => None,
        }
    }

    /// What has become of whoever had a nickname.
    pub fn standing(&self, nick: &[u8]) -> Standing<'_>
        ensures { name_of result nick.now ≡ nick_now self.now nick.now }
    {
        match self {
            Change::Come(taken) if same(taken.as_bytes(), nick) => Standing::Gone,
            Change::Rename { nick: old, new } => renamed(old, new, nick),
            Change::Go { nick: gone, other } if is_gone(gone, other.as_ref(), nick) => {
                Standing::Gone
            }
            _ => Standing::Stays,
        }
    }

    /// What has become of whoever had a nickname, as a member of a channel.
    pub fn standing_in(&self, channel: &[u8], nick: &[u8]) -> Standing<'_>
        ensures { name_of result nick.now ≡ member_now self.now channel.now nick.now }
    {
        match self {
            Change::Out {
                nick: out,
                channel: from,
            } => {
                if same(out.as_bytes(), nick) && same(from.as_bytes(), channel) {
                    Standing::Gone
                } else {
                    Standing::Stays
                }
            }
            other => other.standing(nick),
        }
    }

    /// What becomes of it behind a change of the other end, which was made beside it.
    pub fn crossed(&self, other: &Change) -> Option<Change>
        ensures { result ≡ crossed self.now other.now }
    {
        if are_met(self.taken(), other.taken()) {
            Some(self.both_go())
        } else {
            self.behind(other)
        }
    }

    /// The same, by which the channel begins, if any does.
    pub(crate) fn begun_if(self, is_begun: bool) -> Change
        ensures { result ≡ begun_if is_begun self }
    {
        match self {
            Change::Join { channel, begins } => Change::Join {
                channel,
                begins: is_begun || begins,
            },
            other => other,
        }
    }

    /// The same once more.
    pub(crate) fn copy(&self) -> Change
        ensures { result ≡ self.now }
    {
        match self {
            Change::Come(nick) => Change::Come(nick.copy()),
            Change::Rename { nick, new } => Change::Rename {
                nick: nick.copy(),
                new: new.copy(),
            },
            Change::Go { nick, other } => Change::Go {
                nick: nick.copy(),
                other: copied(other.as_ref()),
            },
            Change::Out { nick, channel } => Change::Out {
                nick: nick.copy(),
                channel: channel.copy(),
            },
            Change::Join { channel, begins } => Change::Join {
                channel: channel.copy(),
                begins: *begins,
            },
            Change::Set(setting) => Change::Set(setting.copy()),
        }
    }

    /// Both go who would have one nickname.
    fn both_go(&self) -> Change
        ensures { result ≡ both_go self.now }
    {
        match self {
            Change::Come(nick) => Change::Go {
                nick: nick.copy(),
                other: None,
            },
            Change::Rename { nick, new } => Change::Go {
                nick: new.copy(),
                other: Some(nick.copy()),
            },
            other => other.copy(),
        }
    }

    /// What becomes of it behind another, where these two do not give one nickname to two.
    fn behind(&self, other: &Change) -> Option<Change>
        ensures { result ≡ behind self.now other.now }
    {
        match self {
            Change::Come(nick) => Some(Change::Come(nick.copy())),
            Change::Rename { nick, new } => {
                let nick = other.nick_now(nick)?;
                let new = new.copy();
                Some(Change::Rename { nick, new })
            }
            Change::Go {
                nick,
                other: second,
            } => { gone_of(other.nick_now(nick), other.second_now(second.as_ref())) }
            Change::Out { nick, channel } => {
                let nick = other.member_now(channel, nick)?;
                let channel = channel.copy();
                Some(Change::Out { nick, channel })
            }
            Change::Join { channel, begins } => Some(other.join_behind(channel, *begins)),
            Change::Set(setting) => Some(Change::Set(other.setting_behind(setting)?)),
        }
    }

    /// What becomes behind it of somebody's coming to a channel: where both ends begin one, or one
    /// is there at the other end, it begins no more.
    fn join_behind(&self, channel: &ChannelName, begins: bool) -> Change
        ensures { result ≡ join_behind channel.now begins self.now }
    {
        let is_one = match self {
            Change::Join { channel: at, .. } => same(channel.as_bytes(), at.as_bytes()),
            _ => false,
        };
        Change::Join {
            channel: channel.copy(),
            begins: begins && !is_one,
        }
    }

    /// What becomes behind it of what the other end has set beside it.
    fn setting_behind(&self, theirs: &Setting) -> Option<Setting>
        ensures { result ≡ setting_behind self.now theirs.now }
    {
        match self {
            Change::Set(setting) if theirs.yields(setting) => None,
            Change::Set(_) => Some(theirs.copy()),
            Change::Join {
                channel,
                begins: true,
            } if theirs.is_in(channel) => None,
            _ => self.setting_now(theirs),
        }
    }

    /// A setting with the nickname now of the member whom it is of, if it is of one; none where
    /// that one is out of the channel.
    fn setting_now(&self, setting: &Setting) -> Option<Setting>
        ensures { result ≡ setting_now self.now setting.now }
    {
        match setting {
            Setting::Mode { channel, change } if change.letter.names_member() => {
                let change = self.mode_now(channel, change)?;
                let channel = channel.copy();
                Some(Setting::Mode { channel, change })
            }
            other => Some(other.copy()),
        }
    }

    /// The same of a letter of a member.
    fn mode_now(&self, channel: &ChannelName, change: &ModeChange) -> Option<ModeChange>
        ensures { result ≡ mode_now self.now channel.now change.now change.now.word }
    {
        let Some(word) = change.word_bytes() else {
            return Some(change.copy());
        };
        match self.standing_in(channel.as_bytes(), word) {
            Standing::Stays => Some(change.copy()),
            Standing::Renamed(new) => Some(ModeChange {
                plus: change.plus,
                letter: change.letter,
                word: ModeWord::read(new.as_bytes()),
            }),
            Standing::Gone => None,
        }
    }

    /// The nickname now of whoever had this one.
    fn nick_now(&self, nick: &Nick) -> Option<Nick>
        ensures { result ≡ nick_now self.now nick.now }
    {
        self.standing(nick.as_bytes()).name(nick)
    }

    /// The same, if there is one.
    fn second_now(&self, nick: Option<&Nick>) -> Option<Nick>
        ensures { result ≡ option_and_then (nick_now self.now) (option_copied nick.entry) }
    {
        match nick {
            Some(nick) => self.nick_now(nick),
            None => None,
        }
    }

    /// The nickname now of whoever had this one, as a member of a channel.
    fn member_now(&self, channel: &ChannelName, nick: &Nick) -> Option<Nick>
        ensures { result ≡ member_now self.now channel.now nick.now }
    {
        self.standing_in(channel.as_bytes(), nick.as_bytes())
            .name(nick)
    }
}

impl<'a> Standing<'a> {
    /// The nickname now of whoever had this one.
    fn name(self, nick: &Nick) -> Option<Nick>
        ensures { result ≡ name_of self.entry nick.now }
    {
        match self {
            Standing::Stays => Some(nick.copy()),
            Standing::Renamed(new) => Some(new.copy()),
            Standing::Gone => None,
        }
    }

    /// The nickname now of whom a word names.
    pub(crate) fn word(self, word: &'a [u8]) -> Option<&'a [u8]>
        ensures { option_copied result ≡ name_of self.entry word.now }
    {
        match self {
            Standing::Stays => Some(word),
            Standing::Renamed(new) => Some(new.as_bytes()),
            Standing::Gone => None,
        }
    }
}

/// What has become of whoever had a nickname, behind a change of one.
fn renamed<'a>(old: &Nick, new: &'a Nick, nick: &[u8]) -> Standing<'a>
    ensures { name_of result nick.now ≡ renamed_now old.now new.now nick.now }
{
    if same(old.as_bytes(), new.as_bytes()) {
        Standing::Stays
    } else if same(old.as_bytes(), nick) {
        Standing::Renamed(new)
    } else if same(new.as_bytes(), nick) {
        Standing::Gone
    } else {
        Standing::Stays
    }
}

/// Whether a nickname is one of these.
fn is_gone(gone: &Nick, other: Option<&Nick>, nick: &[u8]) -> bool
    ensures { result ≡ is_gone gone.now (option_copied other.entry) nick.now }
{
    same(gone.as_bytes(), nick)
        || match other {
            Some(other) => same(other.as_bytes(), nick),
            None => false,
        }
}

/// Whether two users would have one nickname.
fn are_met(theirs: Option<&Nick>, ours: Option<&Nick>) -> bool
    ensures { result ≡ are_met (option_copied theirs.entry) (option_copied ours.entry) }
{
    match (theirs, ours) {
        (Some(theirs), Some(ours)) => same(theirs.as_bytes(), ours.as_bytes()),
        _ => false,
    }
}

/// Those of two who are there go.
fn gone_of(one: Option<Nick>, other: Option<Nick>) -> Option<Change>
    ensures { result ≡ gone_of one other }
{
    match (one, other) {
        (Some(nick), other) => Some(Change::Go { nick, other }),
        (None, Some(nick)) => Some(Change::Go { nick, other: None }),
        (None, None) => None,
    }
}

fn copied(nick: Option<&Nick>) -> Option<Nick>
    ensures { result ≡ option_copied nick.entry }
{
    Some(nick?.copy())
}
