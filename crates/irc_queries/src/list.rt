//! LIST.
ghost use Rattle.std.specs.Prelude.{◌≡◌, [], ◌∷◌, filter, length, OnOk};
ghost use Rattle.irc_batch.specs.Growing.{Grew};
ghost use Rattle.irc_line.specs.PartViews.{words_now};
ghost use Rattle.irc_acts.specs.CommaLists.{entries};
ghost use Rattle.irc_acts.specs.declared.act.Act.TheVariants.{Answer};
ghost use Rattle.irc_queries.specs.List.{channel_entry};
ghost use Rattle.irc_queries.specs.Loops.Saying.{AnswersList, SaysAllListed, SaysEntry, SaysListed};
ghost use Rattle.irc_queries.specs.Loops.Saying.{SaysNamed, is_named_row, named_here};
ghost use Rattle.irc_queries.specs.Laws.ListLaw.{ListOnlyAnswers};

use crate::saying::say;
use irc_acts::Context;
use irc_acts::comma_lists::next_entry;
use irc_acts::standing::{is_known, is_listed};
use irc_batch::Batch;
use irc_channels::{Channel, Flags};
use irc_names::copied;
use irc_numerics::Reply;
use irc_room::Room;
use irc_tables::Row;
use std::alloc::AllocError;

/// Puts out what a LIST is answered with (RFC 2812 section 3.2.6), to the user that asks.
///
/// # Errors
/// Where memory runs out; nothing that was put out before has changed then.
#[tactic(auto, unfolding(crate::specs::List::list_steps))]
pub(crate) fn answer(
    context: &Context<'_>,
    params: &[&[u8]],
    conn: u64,
    out: &mut Batch,
) -> Result<(), AllocError>
    ensures ok { OnOk result (AnswersList context.now (words_now params.now) conn out.old out.new) }
    ensures grew { Grew out.old.outs out.new.outs }
{
    match params.first() {
        Some(list) => say_list(context, list, conn, out)?,
        None => say_listed(context, conn, out)?,
    }
    say(context, &Reply::ListEnd, conn, out)
}

/// Puts out the entry of every channel that is listed for a user.
fn say_listed(context: &Context<'_>, conn: u64, out: &mut Batch) -> Result<(), AllocError>
    ensures ok { OnOk result (SaysAllListed context.now conn out.old out.new) }
    ensures grew { Grew out.old.outs out.new.outs }
{
    for row in context.room.channels() {
        say_if_listed(context, row.value.channel(), conn, out)?;
    }
    Ok(())
}

/// Puts out the entry of a channel, if it is listed for a user.
fn say_if_listed(
    context: &Context<'_>,
    channel: &Channel,
    conn: u64,
    out: &mut Batch,
) -> Result<(), AllocError>
    ensures ok { OnOk result (SaysListed context.now (channel.now ∷ []) conn out.old out.new) }
    ensures grew { Grew out.old.outs out.new.outs }
{
    if is_listed(context.me, channel) {
        say(context, &channel_entry(context, channel), conn, out)
    } else {
        Ok(())
    }
}

/// Puts out the entries of the channels of a comma list.
fn say_list(
    context: &Context<'_>,
    list: &[u8],
    conn: u64,
    out: &mut Batch,
) -> Result<(), AllocError>
    ensures ok { OnOk result (SaysNamed context.now (entries list.now) conn out.old out.new) }
    ensures grew { Grew out.old.outs out.new.outs }
{
    let mut rest = list;
    while let Some((asked, behind)) = next_entry(rest) {
        say_asked(context, asked, conn, out)?;
        rest = behind;
    }
    Ok(())
}

/// Puts out the entry of the channel that is asked for, where it is there and known to the user.
fn say_asked(
    context: &Context<'_>,
    asked: &[u8],
    conn: u64,
    out: &mut Batch,
) -> Result<(), AllocError>
    ensures ok { OnOk result (SaysEntry context.now asked.now conn out.old out.new) }
    ensures grew { Grew out.old.outs out.new.outs }
{
    match context.room.channel(asked) {
        Some(channel) if is_known(context.me, channel) => {
            say(context, &channel_entry(context, channel), conn, out)
        }
        _ => Ok(()),
    }
}

/// A channel, with how many of its members a user may know of, and its topic.
fn channel_entry(context: &Context<'_>, channel: &Channel) -> Reply
    ensures { Answer result
        ≡ channel_entry context.now.room.now.room.users context.now.me.now channel.now }
{
    Reply::List {
        channel: channel.name.copy(),
        count: named_count(context, channel),
        topic: copied(channel.topic.as_bytes()),
    }
}

/// How many members of a channel NAMES would name to a user.
fn named_count(context: &Context<'_>, channel: &Channel) -> usize
    ensures { result ≡ named_here context.now channel.now }
{
    let all = channel.has_member(&context.me.nick);
    named_among(context.room, all, channel.members.as_slice())
}

/// How many of some members are named, where all are or only those without mode i.
fn named_among(room: &Room, all: bool, members: &[Row<Flags>]) -> usize
    ensures { result ≡ length (filter (λ row. is_named_row room.now.room all row) members.now) }
{
    let mut count = 0;
    for member in members {
        if is_named(room, all, member) {
            count += 1;
        }
    }
    count
}

/// Whether a member is named.
fn is_named(room: &Room, all: bool, member: &Row<Flags>) -> bool
    ensures { result ≡ is_named_row room.now.room all member.now }
{
    match room.is_visible(member.name.as_slice()) {
        Some(visible) => all || visible,
        None => false,
    }
}

/// A law: a LIST has no effect, whatever the room is.
#[tactic(auto, using(crate::specs::Laws::ListLaw::list_only_answers))]
pub fn only_answers()
    ensures { ListOnlyAnswers }
{}
