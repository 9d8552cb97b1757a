//! What comes of a change of a channel's modes that an operator asks for.
ghost use Rattle.std.specs.Prelude.{◌≡◌, true, false, Some, nat_eq};
ghost use Rattle.std.specs.Option.{option_copied, option_map_or};
ghost use Rattle.irc_modes.specs.Texts.{IsModeWord};
ghost use Rattle.irc_modes.specs.declared.modes.ModeLetter.TheVariants.{Ban as BanLetter};
ghost use Rattle.irc_channel_commands.specs.declared.verdict.Verdict.TheVariants.{Keeps};
ghost use Rattle.irc_channel_commands.specs.Judging.{
  ban_judged,
  change_made,
  flag_judged,
  flag_of,
  kept_if,
  key_judged,
  limit_judged,
  turned,
  turns_private,
  turns_secret,
  without_zeros,
};
ghost use Rattle.irc_channel_commands.specs.Loops.Judged.{
  channel_behind,
  judge_asked,
  key_asked,
  mask_asked,
  setting_asked,
  word_asked,
};
ghost use Rattle.irc_channel_commands.specs.Loops.KeptChanges.{Follows};

use crate::kept_changes::{KeptChanges, ban, count, flags, mask_in};
use crate::verdict::Verdict;
use irc_acts::words::client_words;
use irc_channels::{Channel, Flags};
use irc_modes::{
    AskedChange, Key, MAX_BANS, ModeChange, ModeLetter, ModeWord, Modes, Privacy, read_limit,
};
use irc_names::{BanMask, ChannelName, Nick, copied};
use irc_numerics::Reply;
use irc_room::Room;

/// What comes of a change in the channel as the changes so far have left it (RFC 2811 section 4,
/// RFC 2812 section 3.2.3).
pub fn judge(room: &Room, channel: &Channel, kept: &KeptChanges, asked: &AskedChange<'_>) -> Verdict
    requires { Follows channel.now kept.now.changes.items kept.now.settings }
    ensures { result ≡ judge_asked room.now (channel_behind kept.now channel.now) asked.now }
{
    match asked.letter {
        ModeLetter::Ban => mask_judged(channel, kept, asked),
        ModeLetter::Operator | ModeLetter::Voice => word_judged(room, channel, kept, asked),
        _ => setting_judged(&channel.name, &kept.settings, asked),
    }
}

/// What comes of a change of a mode of the channel itself that is no ban.
fn setting_judged(name: &ChannelName, modes: &Modes, asked: &AskedChange<'_>) -> Verdict
    ensures { result ≡ setting_asked name.now modes.now asked.now }
{
    let plus = asked.plus;
    match asked.letter {
        ModeLetter::InviteOnly => turned(plus, ModeLetter::InviteOnly, modes.invite_only),
        ModeLetter::Moderated => turned(plus, ModeLetter::Moderated, modes.moderated),
        ModeLetter::NoOutside => turned(plus, ModeLetter::NoOutside, modes.no_outside),
        ModeLetter::TopicLocked => turned(plus, ModeLetter::TopicLocked, modes.topic_locked),
        ModeLetter::Private => kept_if(
            turns_private(plus, modes.privacy),
            plus,
            ModeLetter::Private,
            None,
        ),
        ModeLetter::Secret => kept_if(
            turns_secret(plus, modes.privacy),
            plus,
            ModeLetter::Secret,
            None,
        ),
        ModeLetter::Key => key_judged(name, plus, asked.word, modes.key.as_ref()),
        ModeLetter::Limit => limit_judged(plus, asked.word, modes.limit),
        ModeLetter::Ban | ModeLetter::Operator | ModeLetter::Voice => Verdict::Nothing,
    }
}

/// A change, if it is made.
fn kept_if(test: bool, plus: bool, letter: ModeLetter, word: Option<ModeWord>) -> Verdict
    ensures { result ≡ kept_if test (change_made plus letter word) }
{
    if test {
        Verdict::Keeps(ModeChange { plus, letter, word })
    } else {
        Verdict::Nothing
    }
}

/// A mode that is set or not.
fn turned(plus: bool, letter: ModeLetter, before: bool) -> Verdict
    ensures { result ≡ turned plus letter before }
{
    kept_if(plus != before, plus, letter, None)
}

/// Mode p is set where nothing is, and cleared where it is set (our own choice).
fn turns_private(plus: bool, before: Privacy) -> bool
    ensures { result ≡ turns_private plus before }
{
    match before {
        Privacy::Public => plus,
        Privacy::Private => !plus,
        Privacy::Secret => false,
    }
}

/// Mode s is set wherever it is not, and cleared where it is (our own choice).
fn turns_secret(plus: bool, before: Privacy) -> bool
    ensures { result ≡ turns_secret plus before }
{
    match before {
        Privacy::Secret => !plus,
        _ => plus,
    }
}

/// The word of a change that is made.
fn mode_word(bytes: &[u8]) -> ModeWord
    requires { IsModeWord bytes.now }
    ensures { result ≡ bytes.now }
{
    let Some(word) = ModeWord::read(bytes) else {
        unreachable!();
    };
    word
}

/// What comes of mode k, by the key that is set. It is taken away with that key, whatever word
/// came.
fn key_judged(name: &ChannelName, plus: bool, word: Option<&[u8]>, before: Option<&Key>) -> Verdict
    ensures { result ≡ key_asked name.now plus word.entry before.entry }
{
    if plus {
        return match word {
            Some(word) => key_set(name, word, before),
            None => Verdict::Nothing,
        };
    }
    match before {
        Some(key) => kept_if(
            true,
            false,
            ModeLetter::Key,
            Some(mode_word(key.as_bytes())),
        ),
        None => Verdict::Nothing,
    }
}

/// What comes of a key that is to be set.
fn key_set(name: &ChannelName, word: &[u8], before: Option<&Key>) -> Verdict
    ensures { result ≡ key_judged name.now true (Some (word.now)) (option_copied before.entry) }
{
    let Some(key) = Key::read(word) else {
        return Verdict::Nothing;
    };
    if before.is_some() {
        let channel = name.copy();
        return Verdict::Says(Reply::KeySet { channel });
    }
    kept_if(true, true, ModeLetter::Key, Some(mode_word(key.as_bytes())))
}

/// What comes of mode l, by the limit that is set.
fn limit_judged(plus: bool, word: Option<&[u8]>, before: Option<u16>) -> Verdict
    ensures { result ≡ limit_judged plus (option_copied word.entry) before }
{
    if !plus {
        return kept_if(before.is_some(), false, ModeLetter::Limit, None);
    }
    match word {
        Some(digits) => limit_set(digits, before),
        None => Verdict::Nothing,
    }
}

/// What comes of a limit that is to be set; it is written without leading zeros.
#[tactic(auto, using(crate::proofs::LimitWords::limit_fits))]
fn limit_set(digits: &[u8], before: Option<u16>) -> Verdict
    ensures { result ≡ limit_judged true (Some (digits.now)) before }
{
    let Some(limit) = read_limit(digits) else {
        return Verdict::Nothing;
    };
    let word = mode_word(without_zeros(digits));
    kept_if(
        !is_limit(limit, before),
        true,
        ModeLetter::Limit,
        Some(word),
    )
}

/// Whether a limit is the one that is set.
fn is_limit(limit: u16, before: Option<u16>) -> bool
    ensures { result ≡ option_map_or (nat_eq limit) before false }
{
    match before {
        Some(before) => limit == before,
        None => false,
    }
}

/// Digits without the zeros in front.
fn without_zeros(digits: &[u8]) -> &[u8]
    ensures { result.now ≡ without_zeros digits.now }
{
    for (i, digit) in digits.iter().enumerate() {
        if *digit != b'0' {
            return &digits[i..];
        }
    }
    &[]
}

/// What comes of a ban in the channel as the changes so far have left it.
fn mask_judged(channel: &Channel, kept: &KeptChanges, asked: &AskedChange<'_>) -> Verdict
    requires { Follows channel.now kept.now.changes.items kept.now.settings }
    ensures { result ≡ mask_asked channel.now (channel_behind kept.now channel.now) asked.now }
{
    let Some(mask) = mask_in(asked.word) else {
        return Verdict::Nothing;
    };
    let changes = kept.changes.as_slice();
    let there = ban(channel, changes, &mask);
    ban_judged(
        &channel.name,
        asked.plus,
        &mask,
        there,
        count(channel, changes),
    )
}

/// What comes of a ban, by the one that is the same under the fold, if one is there, and by how
/// many are.
fn ban_judged(
    name: &ChannelName,
    plus: bool,
    mask: &BanMask,
    there: Option<BanMask>,
    count: usize,
) -> Verdict
    ensures { result ≡ ban_judged name.now plus mask.now there count }
{
    match there {
        Some(_) if plus => Verdict::Nothing,
        Some(stored) => ban_kept(false, &stored),
        None if !plus => Verdict::Nothing,
        None if count >= MAX_BANS => Verdict::Says(Reply::BanListFull {
            channel: name.copy(),
        }),
        None => ban_kept(true, mask),
    }
}

/// A change of a ban.
fn ban_kept(plus: bool, mask: &BanMask) -> Verdict
    ensures { result ≡ Keeps (change_made plus BanLetter (Some (mask.now))) }
{
    let word = Some(mode_word(mask.as_bytes()));
    Verdict::Keeps(ModeChange {
        plus,
        letter: ModeLetter::Ban,
        word,
    })
}

/// What comes of mode o or v in the channel as the changes so far have left it.
fn word_judged(
    room: &Room,
    channel: &Channel,
    kept: &KeptChanges,
    asked: &AskedChange<'_>,
) -> Verdict
    requires { Follows channel.now kept.now.changes.items kept.now.settings }
    ensures { result ≡ word_asked room.now (channel_behind kept.now channel.now) asked.now }
{
    let Some(word) = asked.word else {
        return Verdict::Nothing;
    };
    let Some(user) = room.user(word) else {
        let name = client_words(word);
        return Verdict::Says(Reply::NoSuchNick { name });
    };
    let flags = flags(channel, kept.changes.as_slice(), word);
    flag_judged(&channel.name, &user.nick, asked, flags)
}

/// What comes of mode o or v of a user, by its flags, if it is a member.
fn flag_judged(
    name: &ChannelName,
    nick: &Nick,
    asked: &AskedChange<'_>,
    flags: Option<Flags>,
) -> Verdict
    ensures { result ≡ flag_judged name.now nick.now asked.now.plus asked.now.letter flags }
{
    let Some(flags) = flags else {
        return Verdict::Says(Reply::UserNotInChannel {
            nick: copied(nick.as_bytes()),
            channel: name.copy(),
        });
    };
    let word = mode_word(nick.as_bytes());
    kept_if(
        asked.plus != flag_of(asked.letter, flags),
        asked.plus,
        asked.letter,
        Some(word),
    )
}

/// The flag that o, or v, is of.
fn flag_of(letter: ModeLetter, flags: Flags) -> bool
    ensures { result ≡ flag_of letter flags }
{
    match letter {
        ModeLetter::Voice => flags.voice,
        _ => flags.op,
    }
}
