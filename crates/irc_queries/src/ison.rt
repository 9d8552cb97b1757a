//! ISON.
ghost use Rattle.std.specs.Prelude.{◌≡◌, ◌<◌, ◌∷◌, ◌++◌, map, option_to_list, IfOk, OnOk};
ghost use Rattle.std.specs.List.{slice_split};
ghost use Rattle.irc_names.specs.Fold.{key};
ghost use Rattle.irc_names.specs.Tables.{row};
ghost use Rattle.irc_line.specs.Bytes.{cut, is_space, space};
ghost use Rattle.irc_line.specs.PartViews.{words_now};
ghost use Rattle.irc_numerics.specs.Replies.{spaced};
ghost use Rattle.irc_queries.specs.Ison.{users_named, users_on, users_under};
ghost use Rattle.irc_queries.specs.Loops.Telling.{AddsUsers, all_named, ison_here, users_now};
ghost use Rattle.irc_queries.specs.Laws.IsonLaw.{IsonOnlyAnswers};

use arrayvec::ArrayVec;
use irc_acts::{Act, Context, only};
use irc_line::Line;
use irc_line::limits::MAX_LINE;
use irc_names::first_bytes;
use irc_numerics::Reply;
use irc_room::Room;
use irc_users::User;
use std::alloc::{AllocError, Global};

const SPACE: u8 = b' ';

/// What an ISON of the nicknames in some parameters does (RFC 2812 section 4.9).
///
/// # Errors
/// Where memory runs out.
#[tactic(auto, unfolding(crate::specs::Ison::ison_steps))]
pub fn steps(context: &Context<'_>, params: &[&[u8]]) -> Result<Vec<Act, Global>, AllocError>
    ensures { IfOk result (λ steps. steps.items ≡ ison_here context.now (words_now params.now)) }
{
    let users = users_named(context, params)?;
    only(context.alloc, users_on(users.as_slice()))
}

/// The reply of these users.
fn users_on(users: &[&User]) -> Act
    ensures { result ≡ users_on (users_now users.now) }
{
    Act::Answer(Reply::IsOn {
        nicks: nicks_text(users),
    })
}

/// Their nicknames in a row, as far as a line has room.
fn nicks_text(users: &[&User]) -> Line
    ensures { result.items ≡ cut (spaced (map (λ user. user.nick) (users_now users.now))) }
{
    let mut text = ArrayVec::new();
    for (i, user) in users.iter().enumerate() {
        push_word(&mut text, i, user.nick.as_bytes());
    }
    text
}

/// Appends a word, which one space parts from the one before it.
pub(crate) fn push_word(text: &mut Line, place: usize, word: &[u8])
    ensures first { place ≡ 0 → text.new.items ≡ cut (text.old.items ++ word.now) }
    ensures later { 0 < place → text.new.items ≡ cut (text.old.items ++ (space ∷ word.now)) }
{
    if place == 0 {
        push(text, word);
    } else {
        push(text, &[SPACE]);
        push(text, word);
    }
}

/// Appends bytes, and drops those past [`MAX_LINE`].
fn push(text: &mut Line, bytes: &[u8])
    ensures { text.new.items ≡ cut (text.old.items ++ bytes.now) }
{
    let room = MAX_LINE - text.len();
    let _ = text.try_extend_from_slice(first_bytes(bytes, room));
}

/// The users whose nicknames stand in some parameters, in the order given. Each word is looked up.
fn users_named<'a>(
    context: &Context<'a>,
    params: &[&[u8]],
) -> Result<Vec<&'a User, Global>, AllocError>
    ensures { IfOk result
        (λ users. users_now users.items ≡ all_named context.now (words_now params.now)) }
{
    let mut users = Vec::new(context.alloc);
    for words in params {
        add_named(context.alloc, context.room, words, &mut users)?;
    }
    Ok(users)
}

/// Appends the users whose nicknames stand in a parameter.
fn add_named<'a>(
    alloc: Global,
    room: &'a Room,
    words: &[u8],
    users: &mut Vec<&'a User, Global>,
) -> Result<(), AllocError>
    ensures { OnOk result (AddsUsers (users_named room.now.room words.now) users.old users.new) }
{
    let nicks = words_of(alloc, words)?;
    add_all(room, nicks.as_slice(), users)
}

/// The words of a parameter, which spaces part.
pub(crate) fn words_of(alloc: Global, words: &[u8]) -> Result<Vec<&[u8], Global>, AllocError>
    ensures { IfOk result (λ nicks. words_now nicks.items ≡ slice_split is_space words.now) }
{
    words.split(|byte| *byte == SPACE).collect(alloc)
}

/// Appends the users of these nicknames.
pub(crate) fn add_all<'a>(
    room: &'a Room,
    nicks: &[&[u8]],
    users: &mut Vec<&'a User, Global>,
) -> Result<(), AllocError>
    ensures { OnOk result
        (AddsUsers (users_under room.now.room (words_now nicks.now)) users.old users.new) }
{
    for nick in nicks {
        add_one(room, nick, users)?;
    }
    Ok(())
}

/// Appends the user of a nickname, if it is there.
fn add_one<'a>(
    room: &'a Room,
    nick: &[u8],
    users: &mut Vec<&'a User, Global>,
) -> Result<(), AllocError>
    ensures { OnOk result
        (AddsUsers (option_to_list (row room.now.room.users (key nick.now))) users.old users.new) }
{
    if let Some(user) = room.user(nick) {
        users.push(user)?;
    }
    Ok(())
}

/// A law: an ISON has no effect, whatever the room is.
#[tactic(auto, using(crate::specs::Laws::IsonLaw::ison_only_answers))]
pub fn only_answers()
    ensures { IsonOnlyAnswers }
{}
