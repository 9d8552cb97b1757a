//! Lines of users (RFC 2813 section 4).
ghost use Rattle.std.specs.Prelude.{◌≡◌, None, Some, IsOk, true};
ghost use Rattle.irc_line.specs.MessageViews.{optional_now};
ghost use Rattle.irc_link_reader.specs.Loops.Readings.{IsNewcomer, IsOwnChange, IsUserMode};
ghost use Rattle.irc_link_reader.specs.Loops.Readings.{ReadsEffect};
ghost use Rattle.irc_link_reader.specs.Loops.Readings.{are_right, home_now, home_or_fault};
ghost use Rattle.irc_link_reader.specs.Loops.Readings.{reader};
ghost use Rattle.irc_link_reader.specs.Means.{invite_line, is_itself_or_none, is_told_of};
ghost use Rattle.irc_link_reader.specs.Means.{nick_line, quit_line, say_line};

use crate::arrival::{Arrival, expect_from, if_there, is_distance_of, server};
use irc_batch::CloseReason;
use irc_link_words::{
    Params, is_come_mode, is_real_name, is_user_name, is_with_i, read_channel, read_host,
    read_line, read_nick, read_number, read_target, read_user_change, read_words, real_name,
    user_name,
};
use irc_names::{ServerName, is_nick, same};
use irc_room::Effect;
use irc_users::{User, UserChange, UserSet};

/// A user leaves.
pub(crate) fn quit_line(
    at: Arrival<'_>,
    nick: &[u8],
    mut params: Params<'_>,
) -> Result<Option<Effect>, CloseReason>
    ensures { ReadsEffect quit_line at.entry (Some nick.now) params.entry result }
{
    let text = params.next()?;
    params.end()?;
    let text = read_words(text)?;
    expect_from(at, nick)?;
    let nick = read_nick(nick)?;
    Ok(if_there(at, Effect::Quit { nick, text }))
}

/// A text is said.
pub(crate) fn say_line(
    at: Arrival<'_>,
    notice: bool,
    by: &[u8],
    mut params: Params<'_>,
) -> Result<Option<Effect>, CloseReason>
    ensures { ReadsEffect (say_line notice) at.entry (Some by.now) params.entry result }
{
    let target = params.next()?;
    let text = params.next()?;
    params.end()?;
    let text = read_line(text)?;
    expect_from(at, by)?;
    let by = read_nick(by)?;
    let target = read_target(target)?;
    Ok(if_there(
        at,
        Effect::Say {
            by,
            notice,
            target,
            text,
        },
    ))
}

/// A user is invited.
pub(crate) fn invite_line(
    at: Arrival<'_>,
    by: &[u8],
    mut params: Params<'_>,
) -> Result<Option<Effect>, CloseReason>
    ensures { ReadsEffect invite_line at.entry (Some by.now) params.entry result }
{
    let nick = params.next()?;
    let channel = params.next()?;
    params.end()?;
    expect_from(at, by)?;
    let by = read_nick(by)?;
    let nick = read_nick(nick)?;
    let channel = read_channel(channel)?;
    Ok(if_there(at, Effect::Invite { by, nick, channel }))
}

/// A user comes, or takes another nickname.
pub(crate) fn nick_line(
    at: Arrival<'_>,
    prefix: Option<&[u8]>,
    params: Params<'_>,
) -> Result<Option<Effect>, CloseReason>
    ensures { ReadsEffect nick_line at.entry (optional_now prefix.entry) params.entry result }
{
    match prefix {
        Some(nick) => rename_line(at, nick, params),
        None => introduction_line(at, params),
    }
}

/// A user takes another nickname.
fn rename_line(
    at: Arrival<'_>,
    nick: &[u8],
    mut params: Params<'_>,
) -> Result<Option<Effect>, CloseReason>
    ensures { ReadsEffect nick_line at.entry (Some nick.now) params.entry result }
{
    let new = params.next()?;
    params.end()?;
    expect_from(at, nick)?;
    let nick = read_nick(nick)?;
    let new = read_nick(new)?;
    Ok(if_there(at, Effect::Rename { nick, new }))
}

/// The words of the line that a user comes with.
#[derive(Clone, Copy)]
struct IntroductionWords<'a> {
    nick: &'a [u8],
    distance: &'a [u8],
    user: &'a [u8],
    host: &'a [u8],
    token: &'a [u8],
    mode: &'a [u8],
    real: &'a [u8],
}

/// The words of the line that a user comes with.
fn words_of_newcomer(mut params: Params<'_>) -> Result<IntroductionWords<'_>, CloseReason>
    ensures { IsNewcomer params.entry result }
{
    let nick = params.next()?;
    let distance = params.next()?;
    let user = params.next()?;
    let host = params.next()?;
    let token = params.next()?;
    let mode = params.next()?;
    let real = params.next()?;
    params.end()?;
    Ok(IntroductionWords {
        nick,
        distance,
        user,
        host,
        token,
        mode,
        real,
    })
}

/// A user comes (RFC 2813 section 4.1.3).
fn introduction_line(at: Arrival<'_>, params: Params<'_>) -> Result<Option<Effect>, CloseReason>
    ensures { ReadsEffect nick_line at.entry None params.entry result }
{
    let words = words_of_newcomer(params)?;
    let home = read_home(at, words)?;
    let nick = read_nick(words.nick)?;
    let host = read_host(words.host)?;
    Ok(Some(Effect::AddUser(User {
        nick,
        user: user_name(words.user),
        host,
        real: real_name(words.real),
        home: home.copy(),
        invisible: is_with_i(words.mode),
        set: UserSet::fresh(),
    })))
}

/// The server that a user comes from, where the words of the line keep their rules.
fn read_home<'a>(
    at: Arrival<'a>,
    words: IntroductionWords<'_>,
) -> Result<&'a ServerName, CloseReason>
    ensures home { home_now result ≡ home_or_fault (reader at.entry) words.entry }
    ensures right { IsOk result → are_right words.entry ≡ true }
{
    let distance = read_number(words.distance)?;
    let token = read_number(words.token)?;
    let home = server(at, token);
    if !are_right(words) || !is_distance_of(at, home, distance) {
        return Err(CloseReason::Parameters);
    }
    home.ok_or(CloseReason::BadToken)
}

/// Whether the words that are neither names nor numbers keep their rules.
fn are_right(words: IntroductionWords<'_>) -> bool
    ensures { result ≡ are_right words.entry }
{
    is_user_name(words.user) && is_come_mode(words.mode) && is_real_name(words.real)
}

/// A user changes what it has set of itself.
pub(crate) fn user_mode_line(
    at: Arrival<'_>,
    nick: &[u8],
    target: &[u8],
    params: Params<'_>,
) -> Result<Option<Effect>, CloseReason>
    ensures { IsUserMode at.entry nick.now target.now params.entry result }
{
    match read_user_change(params.rest()) {
        Some(change) => change_line(at, nick, target, change),
        None => Err(CloseReason::Parameters),
    }
}

/// The same of a change that was read.
fn change_line(
    at: Arrival<'_>,
    nick: &[u8],
    target: &[u8],
    change: UserChange,
) -> Result<Option<Effect>, CloseReason>
    ensures { IsOwnChange at.entry nick.now target.now (Some change) result }
{
    if !is_told_of(at, &change) || !is_itself_or_none(nick, target) {
        return Err(CloseReason::Parameters);
    }
    expect_from(at, nick)?;
    let nick = read_nick(nick)?;
    read_nick(target)?;
    Ok(if_there(at, Effect::ChangeUser { nick, change }))
}

/// Whether a change may be told on links: of who is away, where these tell it.
fn is_told_of(at: Arrival<'_>, change: &UserChange) -> bool
    ensures { result ≡ is_told_of (reader at.entry) change.now }
{
    match change {
        UserChange::Away(_) => at.routes.tells_away(),
        UserChange::Invisible(_) => true,
    }
}

/// Whether these are no two nicknames of different users.
fn is_itself_or_none(nick: &[u8], target: &[u8]) -> bool
    ensures { result ≡ is_itself_or_none nick.now target.now }
{
    !(is_nick(nick) && is_nick(target)) || same(nick, target)
}
