//! WHO.
ghost use Rattle.std.specs.Prelude.{◌≡◌, ◌&&◌, None, Some, [], ◌∷◌, OnOk};
ghost use Rattle.irc_batch.specs.Growing.{Grew};
ghost use Rattle.irc_line.specs.PartViews.{words_now};
ghost use Rattle.irc_tables.specs.RowViews.{row_entry};
ghost use Rattle.irc_numerics.specs.declared.replies.MemberMark.TheVariants.{Plain};
ghost use Rattle.irc_routes.specs.Known.{place_of};
ghost use Rattle.irc_acts.specs.declared.act.Act.TheVariants.{Answer};
ghost use Rattle.irc_queries.specs.Who.{asks_for_operators, end_of_who, hops_to, is_asked_for};
ghost use Rattle.irc_queries.specs.Who.{user_line};
ghost use Rattle.irc_queries.specs.Loops.Saying.{AnswersWho, SaysAll, SaysAllMembers, SaysAllUsers};
ghost use Rattle.irc_queries.specs.Loops.Saying.{SaysFound, SaysMembers, SaysSeen, SaysTold};
ghost use Rattle.irc_queries.specs.Loops.Saying.{SaysUsers};
ghost use Rattle.irc_queries.specs.Laws.WhoLaw.{WhoOnlyAnswers};

use crate::own_rows::own_rows;
use crate::saying::say;
use irc_acts::Context;
use irc_acts::away::is_shown_away;
use irc_acts::standing::{is_known, is_seen, mark_of};
use irc_acts::words::{client_words, names_channel};
use irc_batch::Batch;
use irc_channels::{Channel, Flags, Stored};
use irc_names::{ChannelName, ServerName};
use irc_numerics::{MemberMark, Reply};
use irc_routes::{Routes, laws};
use irc_tables::Row;
use irc_users::User;
use std::alloc::AllocError;

/// What asks for all users.
const ALL: &[u8] = b"0";

/// What asks for operators of the network alone.
const OPERATORS: &[u8] = b"o";

/// Puts out what a WHO is answered with (RFC 2812 section 3.6.1), to the user that asks.
///
/// # Errors
/// Where memory runs out; nothing that was put out before has changed then.
#[tactic(auto, unfolding(crate::specs::Who::who_steps))]
pub(crate) fn answer(
    context: &Context<'_>,
    params: &[&[u8]],
    conn: u64,
    out: &mut Batch,
) -> Result<(), AllocError>
    ensures ok { OnOk result (AnswersWho context.now (words_now params.now) conn out.old out.new) }
    ensures grew { Grew out.old.outs out.new.outs }
{
    let Some((asked, more)) = params.split_first() else {
        return say_to_the_end(context, ALL, b"*", conn, out);
    };
    if asks_for_operators(more) {
        say(context, &end_of_who(asked), conn, out)
    } else {
        say_to_the_end(context, asked, asked, conn, out)
    }
}

/// Whether operators of the network alone are asked for; there are none.
fn asks_for_operators(more: &[&[u8]]) -> bool
    ensures { result ≡ asks_for_operators (words_now more.now) }
{
    match more.first() {
        Some(word) => *word == OPERATORS,
        None => false,
    }
}

/// Puts out what is told of whom a word asks for, and the end with another.
fn say_to_the_end(
    context: &Context<'_>,
    asked: &[u8],
    given: &[u8],
    conn: u64,
    out: &mut Batch,
) -> Result<(), AllocError>
    ensures ok { OnOk result (SaysAll context.now asked.now given.now conn out.old out.new) }
    ensures grew { Grew out.old.outs out.new.outs }
{
    say_whom(context, asked, conn, out)?;
    say(context, &end_of_who(given), conn, out)
}

/// Puts out what is told of whom a word asks for.
fn say_whom(
    context: &Context<'_>,
    asked: &[u8],
    conn: u64,
    out: &mut Batch,
) -> Result<(), AllocError>
    ensures ok { OnOk result (SaysTold context.now asked.now conn out.old out.new) }
    ensures grew { Grew out.old.outs out.new.outs }
{
    let own = own_rows(context.room, context.me)?;
    say_told(context, own.as_slice(), asked, conn, out)
}

/// The end, with what was given.
fn end_of_who(given: &[u8]) -> Reply
    ensures { Answer result ≡ end_of_who given.now }
{
    Reply::EndOfWho {
        name: client_words(given),
    }
}

/// Puts out what is told of whom a word asks for, to a user that is in these channels.
fn say_told(
    context: &Context<'_>,
    own: &[&Row<Stored>],
    asked: &[u8],
    conn: u64,
    out: &mut Batch,
) -> Result<(), AllocError>
    ensures ok { OnOk result (SaysSeen context.now own.now asked.now conn out.old out.new) }
    ensures grew { Grew out.old.outs out.new.outs }
{
    if names_channel(asked) {
        say_channel(context, own, asked, conn, out)
    } else {
        say_users(context, own, asked, conn, out)
    }
}

/// Puts out the members of a channel that is there and known, where they are seen.
fn say_channel(
    context: &Context<'_>,
    own: &[&Row<Stored>],
    asked: &[u8],
    conn: u64,
    out: &mut Batch,
) -> Result<(), AllocError>
    ensures ok { OnOk result (SaysFound context.now own.now asked.now conn out.old out.new) }
    ensures grew { Grew out.old.outs out.new.outs }
{
    match context.room.channel(asked) {
        Some(channel) if is_known(context.me, channel) => {
            say_members(context, own, channel, conn, out)
        }
        _ => Ok(()),
    }
}

/// Puts out the members of a channel that are seen.
fn say_members(
    context: &Context<'_>,
    own: &[&Row<Stored>],
    channel: &Channel,
    conn: u64,
    out: &mut Batch,
) -> Result<(), AllocError>
    ensures ok { OnOk result
        (SaysAllMembers context.now own.now channel.now conn out.old out.new) }
    ensures grew { Grew out.old.outs out.new.outs }
{
    for row in channel.members.as_slice() {
        say_member(context, own, channel, row, conn, out)?;
    }
    Ok(())
}

/// Puts out a member of a channel, if it is seen.
fn say_member(
    context: &Context<'_>,
    own: &[&Row<Stored>],
    channel: &Channel,
    member: &Row<Flags>,
    conn: u64,
    out: &mut Batch,
) -> Result<(), AllocError>
    ensures ok { OnOk result
        (SaysMembers context.now own.now channel.now
        (row_entry member.now ∷ []) conn out.old out.new) }
    ensures grew { Grew out.old.outs out.new.outs }
{
    match context.room.user(member.name.as_slice()) {
        Some(user) if is_seen(context.me, own, user) => {
            let name = Some(channel.name.copy());
            let line = user_line(context.routes, name, mark_of(member.value), user);
            say(context, &line, conn, out)
        }
        _ => Ok(()),
    }
}

/// Puts out the users that a mask asks for and that are seen.
fn say_users(
    context: &Context<'_>,
    own: &[&Row<Stored>],
    mask: &[u8],
    conn: u64,
    out: &mut Batch,
) -> Result<(), AllocError>
    ensures ok { OnOk result (SaysAllUsers context.now own.now mask.now conn out.old out.new) }
    ensures grew { Grew out.old.outs out.new.outs }
{
    let users = context.room.users()?;
    for user in users.as_slice() {
        say_user(context, own, mask, user, conn, out)?;
    }
    Ok(())
}

/// Puts out a user, if a mask asks for it and it is seen.
fn say_user(
    context: &Context<'_>,
    own: &[&Row<Stored>],
    mask: &[u8],
    user: &User,
    conn: u64,
    out: &mut Batch,
) -> Result<(), AllocError>
    ensures ok { OnOk result
        (SaysUsers context.now own.now mask.now (user.now ∷ []) conn out.old out.new) }
    ensures grew { Grew out.old.outs out.new.outs }
{
    if is_asked_for(mask, user) && is_seen(context.me, own, user) {
        let line = user_line(context.routes, None, MemberMark::Plain, user);
        say(context, &line, conn, out)
    } else {
        Ok(())
    }
}

/// Whether a mask asks for a user: a 0 asks for all.
fn is_asked_for(mask: &[u8], user: &User) -> bool
    ensures { result ≡ is_asked_for mask.now user.now }
{
    mask == ALL || user.is_found_by(mask)
}

/// A user, whether it is shown as being away, and what it is in the channel that was asked for, if
/// one was.
fn user_line(routes: &Routes, channel: Option<ChannelName>, mark: MemberMark, user: &User) -> Reply
    ensures { Answer result ≡ user_line (place_of routes.now) channel mark user.now }
{
    Reply::WhoReply {
        channel,
        user: user.user.copy(),
        host: user.host.copy(),
        server: user.home.copy(),
        nick: user.nick.copy(),
        away: is_shown_away(routes.programs(), user),
        mark,
        hops: hops_to(routes, &user.home),
        real: user.real.copy(),
    }
}

/// How many links away the server of a name is.
fn hops_to(routes: &Routes, home: &ServerName) -> u32
    ensures { result ≡ hops_to (place_of routes.now) home.now }
{
    laws::place_tells();
    routes.created();
    routes.distance(home.as_bytes()).unwrap_or(0)
}

/// A law: a WHO has no effect, whatever the room is.
#[tactic(auto, using(crate::specs::Laws::WhoLaw::who_only_answers))]
pub fn only_answers()
    ensures { WhoOnlyAnswers }
{}
