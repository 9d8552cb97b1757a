//! USERHOST.
ghost use Rattle.std.specs.Prelude.{◌≡◌, length, map, take, IfOk, OnOk};
ghost use Rattle.irc_line.specs.Bytes.{cut};
ghost use Rattle.irc_line.specs.PartViews.{words_now};
ghost use Rattle.irc_numerics.specs.Replies.{spaced};
ghost use Rattle.irc_queries.specs.Limits.{max_hosts_asked};
ghost use Rattle.irc_queries.specs.Userhost.{host_shown, hosts_told, presence_sign, words_in};
ghost use Rattle.irc_queries.specs.Userhost.{words_of_all};
ghost use Rattle.irc_queries.specs.Loops.Telling.{AddsWords, asked_here, userhost_here, users_now};
ghost use Rattle.irc_queries.specs.Laws.UserhostLaw.{UserhostOnlyAnswers};

use crate::ison::{add_all, push_word, words_of};
use arrayvec::ArrayVec;
use irc_acts::away::is_shown_away;
use irc_acts::{Act, Context, only};
use irc_line::Line;
use irc_names::{MAX_HOST, MAX_NICK, MAX_USER_NAME};
use irc_numerics::Reply;
use irc_routes::Programs;
use irc_users::User;
use std::alloc::{AllocError, Global};

/// The most words that are served (RFC 2812 section 4.8).
const MAX_HOSTS_ASKED: usize = 5;

/// The bytes of `nick=+user@host` that part its names.
const MARKS: usize = 3;

/// The longest `nick=+user@host`.
const MAX_HOST_SHOWN: usize = MAX_NICK + MAX_USER_NAME + MAX_HOST + MARKS;

/// What a USERHOST of the nicknames in some parameters does (RFC 2812 section 4.8).
///
/// # Errors
/// Where memory runs out.
#[tactic(auto, unfolding(crate::specs::Userhost::userhost_steps))]
pub fn steps(context: &Context<'_>, params: &[&[u8]]) -> Result<Vec<Act, Global>, AllocError>
    ensures { IfOk result
        (λ steps. steps.items ≡ userhost_here context.now (words_now params.now)) }
{
    let users = users_asked(context, params)?;
    let told = hosts_told(context.routes.programs(), users.as_slice());
    only(context.alloc, told)
}

/// The reply of these users.
fn hosts_told(programs: Programs, users: &[&User]) -> Act
    ensures { result ≡ hosts_told programs (users_now users.now) }
{
    Act::Answer(Reply::UserHost {
        users: hosts_text(programs, users),
    })
}

/// These users in a row, as far as a line has room.
fn hosts_text(programs: Programs, users: &[&User]) -> Line
    ensures { result.items ≡ cut (spaced (map (host_shown programs) (users_now users.now))) }
{
    let mut text = ArrayVec::new();
    for (i, user) in users.iter().enumerate() {
        push_word(&mut text, i, host_shown(programs, user).as_slice());
    }
    text
}

/// A user as it stands in the answer: `al=+user@host`.
fn host_shown(programs: Programs, user: &User) -> ArrayVec<u8, MAX_HOST_SHOWN>
    ensures { result.items ≡ host_shown programs user.now }
{
    let mut text = ArrayVec::new();
    let _ = text.try_extend_from_slice(user.nick.as_bytes());
    let _ = text.try_extend_from_slice(b"=");
    let _ = text.try_extend_from_slice(presence_sign(is_shown_away(programs, user)));
    let _ = text.try_extend_from_slice(user.user.as_bytes());
    let _ = text.try_extend_from_slice(b"@");
    let _ = text.try_extend_from_slice(user.host.as_bytes());
    text
}

/// `-` for who is shown as being away, `+` for who is here.
fn presence_sign(away: bool) -> &'static [u8]
    ensures sign { result.now ≡ presence_sign away }
    ensures one { length result.now ≡ 1 }
{
    if away { b"-" } else { b"+" }
}

/// The users whose nicknames are among the first words. Each of these is looked up.
fn users_asked<'a>(
    context: &Context<'a>,
    params: &[&[u8]],
) -> Result<Vec<&'a User, Global>, AllocError>
    ensures { IfOk result
        (λ users. users_now users.items ≡ asked_here context.now (words_now params.now)) }
{
    let words = words_of_all(context.alloc, params)?;
    let mut users = Vec::new(context.alloc);
    add_all(context.room, served(words.as_slice()), &mut users)?;
    Ok(users)
}

/// The first of some words, as many as are served.
fn served<'p, 'a>(words: &'p [&'a [u8]]) -> &'p [&'a [u8]]
    ensures { words_now result.now ≡ take max_hosts_asked (words_now words.now) }
{
    &words[..MAX_HOSTS_ASKED.min(words.len())]
}

/// The words of some parameters, which spaces part.
fn words_of_all<'a>(alloc: Global, params: &[&'a [u8]]) -> Result<Vec<&'a [u8], Global>, AllocError>
    ensures { IfOk result
        (λ words. words_now words.items ≡ words_of_all (words_now params.now)) }
{
    let mut words = Vec::new(alloc);
    for parameter in params {
        let pieces = words_of(alloc, parameter)?;
        add_words(&mut words, pieces.as_slice())?;
    }
    Ok(words)
}

/// Appends those of some pieces that are not empty.
fn add_words<'a>(words: &mut Vec<&'a [u8], Global>, pieces: &[&'a [u8]]) -> Result<(), AllocError>
    ensures { OnOk result (AddsWords (words_now pieces.now) words.old words.new) }
{
    for piece in pieces {
        if !piece.is_empty() {
            words.push(piece)?;
        }
    }
    Ok(())
}

/// A law: a USERHOST has no effect, whatever the room is.
#[tactic(auto, using(crate::specs::Laws::UserhostLaw::userhost_only_answers))]
pub fn only_answers()
    ensures { UserhostOnlyAnswers }
{}
