//! NJOIN: users become members of a channel (RFC 2813 section 4.2.2).
ghost use Rattle.std.specs.Prelude.{◌≡◌, [], fold, map, IfOk, IsOk, OnErr, OnOk};
ghost use Rattle.std.specs.List.{list_any, slice_split};
ghost use Rattle.irc_line.specs.PartViews.{words_now};
ghost use Rattle.irc_names.specs.Fold.{same};
ghost use Rattle.irc_room.specs.Room.{IsWellFormed};
ghost use Rattle.irc_link_reader.specs.Loops.Tellings.{told_members};
ghost use Rattle.irc_link_reader.specs.Loops.Readings.{reader};
ghost use Rattle.irc_burst.specs.DeedsMeant.{first_reason, is_comma, member_of};
ghost use Rattle.irc_burst.specs.Loops.Deeds.{
  is_member_among,
  members_brought,
  members_found,
  new_members_at,
  new_nick,
  njoin_line_at,
  taken_at,
  told_if,
  GivesTold,
};

use crate::member_words::{expect_few, expect_nicks, flags_of, nick_of};
use irc_batch::CloseReason;
use irc_link_reader::{Arrival, Deed, NewMember, NewMembers, expect_from, is_far};
use irc_link_words::{Params, read_channel, read_server};
use irc_names::{ChannelName, Nick, ServerName, same};
use std::alloc::{AllocError, Global};

/// Reads an NJOIN from `server`: who becomes a member, or the first reason against the line. It
/// tells nothing where nobody does.
pub(crate) fn njoin_line(
    alloc: Global,
    at: Arrival<'_>,
    server: &[u8],
    params: Params<'_>,
) -> Result<Result<Option<Deed>, CloseReason>, AllocError>
    ensures told { IfOk result (λ told.
        GivesTold (njoin_line_at at.entry server.now params.entry) told) }
    ensures memory { OnErr result
        (IsOk (first_reason (njoin_line_at at.entry server.now params.entry))) }
{
    let words = match member_words(at, server, params) {
        Ok(words) => words,
        Err(reason) => return Ok(Err(reason)),
    };
    let members = new_members(alloc, at, words.channel.as_bytes(), words.text)?;
    Ok(Ok(brought(words.server, words.channel, members)))
}

/// What tells of these members of a channel, if there are any.
fn brought(
    server: ServerName,
    channel: ChannelName,
    members: Vec<NewMember, Global>,
) -> Option<Deed>
    ensures { told_if result ≡ members_brought server channel members.items }
{
    if members.is_empty() {
        None
    } else {
        Some(Deed::Members(NewMembers {
            server,
            channel,
            members,
        }))
    }
}

/// The words of an NJOIN.
#[derive(Drop)]
struct MemberWords<'a> {
    server: ServerName,
    channel: ChannelName,
    text: &'a [u8],
}

/// The words of an NJOIN, once they have kept their rules.
fn member_words<'a>(
    at: Arrival<'_>,
    server: &[u8],
    mut params: Params<'a>,
) -> Result<MemberWords<'a>, CloseReason>
    ensures { members_found (reader at.entry) at.entry.room.now.room result
        ≡ first_reason (njoin_line_at at.entry server.now params.entry) }
{
    let channel = params.next()?;
    let text = params.next()?;
    params.end()?;
    expect_few(text)?;
    expect_from(at, server)?;
    let server = read_server(server)?;
    let channel = read_channel(channel)?;
    expect_nicks(text)?;
    Ok(MemberWords {
        server,
        channel,
        text,
    })
}

/// The words between commas.
fn split(alloc: Global, text: &[u8]) -> Result<Vec<&[u8], Global>, AllocError>
    ensures { IfOk result (λ words. words_now words.items ≡ slice_split is_comma text.now) }
{
    text.split(|byte| *byte == b',').collect(alloc)
}

/// Those who become members, in order.
fn new_members(
    alloc: Global,
    at: Arrival<'_>,
    channel: &[u8],
    text: &[u8],
) -> Result<Vec<NewMember, Global>, AllocError>
    ensures { IfOk result (λ members. told_members members.items
        ≡ new_members_at at.entry channel.now text.now) }
{
    let words = split(alloc, text)?;
    members_in_turn(alloc, at, channel, words.as_slice())
}

/// Those who become members by these words, one word a user, in order.
fn members_in_turn(
    alloc: Global,
    at: Arrival<'_>,
    channel: &[u8],
    words: &[&[u8]],
) -> Result<Vec<NewMember, Global>, AllocError>
    ensures ones { IfOk result (λ members. told_members members.items
        ≡ fold (taken_at at.entry channel.now) [] (map member_of (words_now words.now))) }
    ensures well { IsWellFormed at.entry.room.now.room }
{
    at.room.own();
    let mut members = Vec::new(alloc);
    for word in words {
        push_new(&mut members, at, channel, word)?;
    }
    Ok(members)
}

/// Appends the user of a word, if it becomes a member and is none of those before.
fn push_new(
    members: &mut Vec<NewMember, Global>,
    at: Arrival<'_>,
    channel: &[u8],
    word: &[u8],
) -> Result<(), AllocError>
    ensures { OnOk result (told_members members.new.items
        ≡ taken_at at.entry channel.now (told_members members.old.items) (member_of word.now)) }
{
    let among = is_among(members.as_slice(), nick_of(word));
    match new_nick(at, channel, nick_of(word)) {
        Some(nick) if !among => {
            let flags = flags_of(word);
            members.push(NewMember { nick, flags })?;
        }
        _ => {}
    }
    Ok(())
}

/// Whether a nickname is one of those of some members.
#[tactic(auto, using(crate::proofs::MembersInTurn::among_told))]
fn is_among(members: &[NewMember], nick: &[u8]) -> bool
    ensures { result ≡ is_member_among (told_members members.now) nick.now }
{
    is_named(members, nick)
}

/// The same, member by member where each lies.
fn is_named(members: &[NewMember], nick: &[u8]) -> bool
    ensures { result ≡ list_any (λ member. same member.nick nick.now) members.now }
{
    members
        .iter()
        .any(|member| same(member.nick.as_bytes(), nick))
}

/// The nickname, as it is stored, of one who becomes a member: a user behind the link who is none
/// yet.
fn new_nick(at: Arrival<'_>, channel: &[u8], nick: &[u8]) -> Option<Nick>
    ensures { result ≡ new_nick at.entry nick.now channel.now }
{
    match at.room.user(nick) {
        Some(user) if is_far(at, user.home.as_bytes()) && at.room.member(nick, channel).is_none() =>
            { Some(user.nick.copy()) }
        _ => None,
    }
}
