//! The words of a MODE of a channel (RFC 2811 section 4, RFC 2812 section 3.2.3).
ghost use Rattle.std.specs.Prelude.{◌≡◌, ◌≤◌, [], ◌∷◌, ◌++◌, true, drop, length, IfOk};
ghost use Rattle.std.specs.Prelude.{if◌then◌else◌};
ghost use Rattle.std.specs.Option.{option_copied};
ghost use Rattle.irc_line.specs.PartViews.{words_now};
ghost use Rattle.irc_modes.specs.ModeWords.{answer, change, is_sign, letter_asks, mode_of};
ghost use Rattle.irc_modes.specs.ModeWords.{modes_read, needs, next_word, once, reading};
ghost use Rattle.irc_modes.specs.ModeWords.{takes, words_after};
ghost use Rattle.irc_modes.specs.ModeViews.{all_asked, asked, letter_read};
ghost use Rattle.irc_modes.specs.Loops.ModeLimits.{Judges};

use crate::{AskedChange, MAX_MODE_PARAMETERS, ModeLetter};
use std::alloc::{AllocError, Global};

/// What a letter of a MODE asks for. Its words are those of the command, whole.
#[derive(Clone, Copy)]
pub enum ModeItem<'a> {
    /// A change of a mode.
    Change(AskedChange<'a>),
    /// The list of the bans.
    List,
    /// Nothing, for want of the parameter that the letter needs.
    NoWord,
    /// Nothing, since no mode has this letter.
    Unknown(u8),
}

/// What a letter asks of the parameters that are left.
#[derive(Clone, Copy)]
enum Asks {
    /// None.
    Nothing,
    /// The next one.
    Word,
    /// The next one, if one is left.
    WordIfAny,
    /// The next one; if none is left, it is a request of the list.
    WordOrList,
}

/// A letter as it was read.
#[derive(Clone, Copy)]
struct ReadLetter<'a> {
    /// The letter itself.
    byte: u8,
    /// Whether it is one of the letters that take a parameter.
    takes: bool,
    /// Whether only the first such letter of a command counts.
    once: bool,
    /// What it asks for, if it counts.
    item: ModeItem<'a>,
}

/// What the limits of one command need to know of the letters before.
#[derive(Drop)]
struct Limits {
    /// How many letters with a parameter may still count.
    room: usize,
    /// The letters that count once, of which one was there.
    met: Vec<u8, Global>,
}

/// What the words of a MODE after the channel ask for: the first word has the letters, the others
/// are parameters.
///
/// Each letter in turn takes its parameter, whether it will count or not. Of the letters that take
/// a parameter only the first three count, and of each of i, m, n, p, s, t, k, l and a request of
/// the list only the first. Words that no letter takes are ignored. A word is lent as it was given,
/// whatever its length and whether or not its mode takes it.
///
/// # Errors
/// Where memory runs out.
pub fn read_modes<'a>(alloc: Global, params: &[&'a [u8]]) -> Result<Vec<ModeItem<'a>>, AllocError>
    ensures { IfOk result (λ items. all_asked items.items ≡ modes_read (words_now params.now)) }
{
    match params.split_first() {
        Some((letters, words)) => read_letters(alloc, letters, words),
        None => Ok(Vec::new(alloc)),
    }
}

/// What letters ask for, with these parameters.
fn read_letters<'a>(
    alloc: Global,
    letters: &[u8],
    words: &[&'a [u8]],
) -> Result<Vec<ModeItem<'a>>, AllocError>
    ensures { IfOk result
        (λ items. all_asked items.items ≡ modes_read (letters.now ∷ words_now words.now)) }
{
    let mut plus = true;
    let mut used = 0;
    let mut limits = Limits {
        room: MAX_MODE_PARAMETERS,
        met: Vec::new(alloc),
    };
    let mut items = Vec::new(alloc);
    for byte in letters {
        if is_sign(*byte) {
            plus = *byte == b'+';
            continue;
        }
        let read = read_letter(plus, *byte, next_word(words, used));
        used = used_after(plus, *byte, used, words);
        let verdict = judge(&mut limits, &read)?;
        add_if(verdict, read.item, &mut items)?;
    }
    Ok(items)
}

/// Whether a letter counts; it is remembered, whether it does or not.
fn judge(limits: &mut Limits, reading: &ReadLetter<'_>) -> Result<bool, AllocError>
    ensures { IfOk result
        (λ verdict. Judges limits.old (letter_read reading.now) verdict limits.new) }
{
    let has_room = limits.room > 0;
    let is_met = limits.met.contains(&reading.byte);
    limits.room = limits.room.saturating_sub(usize::from(reading.takes));
    meet(reading.once && !is_met, reading.byte, &mut limits.met)?;
    Ok((!reading.takes || has_room) && !(reading.once && is_met))
}

/// Adds a letter to those that were there, if it is to be added.
fn meet(wanted: bool, byte: u8, met: &mut Vec<u8>) -> Result<(), AllocError>
    ensures { IfOk result
        (λ _. met.new.items ≡ met.old.items ++ (if wanted then byte ∷ [] else [])) }
{
    if wanted {
        met.push(byte)?;
    }
    Ok(())
}

/// Adds an item, if it counts.
fn add_if<'a>(
    counts: bool,
    item: ModeItem<'a>,
    items: &mut Vec<ModeItem<'a>>,
) -> Result<(), AllocError>
    ensures { IfOk result
        (λ _. items.new.items ≡ items.old.items ++ (if counts then item.entry ∷ [] else [])) }
{
    if counts {
        items.push(item)?;
    }
    Ok(())
}

/// What a letter is read as, before the next parameter.
fn read_letter(plus: bool, byte: u8, next: Option<&[u8]>) -> ReadLetter<'_>
    ensures { letter_read result ≡ reading plus byte (option_copied next.entry) }
{
    match mode_of(byte) {
        Some(letter) => {
            let asks = needs(plus, letter);
            ReadLetter {
                byte,
                takes: takes(asks, next.is_some()),
                once: once(letter, next.is_some()),
                item: answer(asks, plus, letter, next),
            }
        }
        None => ReadLetter {
            byte,
            takes: false,
            once: false,
            item: ModeItem::Unknown(byte),
        },
    }
}

/// The next parameter, if one is left after those that were used.
#[tactic(auto, using(crate::proofs::ModeSteps::word_places))]
fn next_word<'a>(words: &[&'a [u8]], used: usize) -> Option<&'a [u8]>
    ensures { option_copied result ≡ next_word (drop used (words_now words.now)) }
{
    if used < words.len() {
        Some(words[used])
    } else {
        None
    }
}

/// How many parameters are used once a letter has taken its own.
#[tactic(auto, using(crate::proofs::ModeSteps::word_places))]
fn used_after(plus: bool, byte: u8, used: usize, words: &[&[u8]]) -> usize
    requires { used ≤ length words.now }
    ensures after { drop result (words_now words.now) ≡ words_after plus byte
        (drop used (words_now words.now)) }
    ensures within { result ≤ length words.now }
{
    if !takes_next(plus, byte) {
        return used;
    }
    if used < words.len() { used + 1 } else { used }
}

/// Whether a letter takes the next parameter, where one is left.
fn takes_next(plus: bool, byte: u8) -> bool
    ensures { result ≡ letter_asks plus (mode_of byte) }
{
    match mode_of(byte) {
        Some(letter) => match needs(plus, letter) {
            Asks::Nothing => false,
            _ => true,
        },
        None => false,
    }
}

/// Whether a byte sets the sign.
fn is_sign(byte: u8) -> bool
    ensures { result ≡ is_sign byte }
{
    byte == b'+' || byte == b'-'
}

/// The mode that a letter names.
fn mode_of(byte: u8) -> Option<ModeLetter>
    ensures { result ≡ mode_of byte }
{
    match byte {
        b'i' => Some(ModeLetter::InviteOnly),
        b'm' => Some(ModeLetter::Moderated),
        b'n' => Some(ModeLetter::NoOutside),
        b't' => Some(ModeLetter::TopicLocked),
        b'p' => Some(ModeLetter::Private),
        b's' => Some(ModeLetter::Secret),
        b'k' => Some(ModeLetter::Key),
        b'l' => Some(ModeLetter::Limit),
        b'b' => Some(ModeLetter::Ban),
        b'o' => Some(ModeLetter::Operator),
        b'v' => Some(ModeLetter::Voice),
        _ => None,
    }
}

/// What a mode asks of the parameters that are left.
fn needs(plus: bool, letter: ModeLetter) -> Asks
    ensures { result ≡ needs plus letter }
{
    match letter {
        ModeLetter::Key if plus => Asks::Word,
        ModeLetter::Key => Asks::WordIfAny,
        ModeLetter::Limit if plus => Asks::Word,
        ModeLetter::Ban => Asks::WordOrList,
        ModeLetter::Operator | ModeLetter::Voice => Asks::Word,
        _ => Asks::Nothing,
    }
}

/// Whether a letter is one of those that take a parameter.
fn takes(asks: Asks, has_next: bool) -> bool
    ensures { result ≡ takes asks has_next }
{
    match asks {
        Asks::Nothing => false,
        Asks::Word | Asks::WordIfAny => true,
        Asks::WordOrList => has_next,
    }
}

/// Whether only the first such letter of a command counts.
fn once(letter: ModeLetter, has_next: bool) -> bool
    ensures { result ≡ once letter has_next }
{
    match letter {
        ModeLetter::Ban => !has_next,
        ModeLetter::Operator | ModeLetter::Voice => false,
        _ => true,
    }
}

/// A change of a mode.
fn change(plus: bool, letter: ModeLetter, word: Option<&[u8]>) -> ModeItem<'_>
    ensures { asked result ≡ change plus letter (option_copied word.entry) }
{
    ModeItem::Change(AskedChange { plus, letter, word })
}

/// What comes of a letter, by what it asks and the next parameter.
fn answer(asks: Asks, plus: bool, letter: ModeLetter, next: Option<&[u8]>) -> ModeItem<'_>
    ensures { asked result ≡ answer asks plus letter (option_copied next.entry) }
{
    if let Asks::Nothing = asks {
        return change(plus, letter, None);
    }
    match (next, asks) {
        (Some(word), _) => change(plus, letter, Some(word)),
        (None, Asks::Word) => ModeItem::NoWord,
        (None, Asks::WordOrList) => ModeItem::List,
        (None, _) => change(plus, letter, None),
    }
}
