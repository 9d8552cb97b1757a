//! WHOIS.
ghost use Rattle.std.specs.Prelude.{◌≡◌, [], ◌∷◌, IfOk, OnOk};
ghost use Rattle.irc_line.specs.PartViews.{words_now};
ghost use Rattle.irc_numerics.specs.declared.replies.Reply.TheVariants.{NoSuchNick, WhoisUser};
ghost use Rattle.irc_routes.specs.Known.{place_of};
ghost use Rattle.irc_acts.specs.declared.act.Act.TheVariants.{Answer};
ghost use Rattle.irc_acts.specs.Acts.{client_words};
ghost use Rattle.irc_acts.specs.Away.{away_told};
ghost use Rattle.irc_acts.specs.CommaLists.{entries};
ghost use Rattle.irc_queries.specs.Whois.{channels_line, info_of, place_in};
ghost use Rattle.irc_queries.specs.Loops.Telling.{AddsSteps, CameChannels, CameListed};
ghost use Rattle.irc_queries.specs.Loops.Telling.{channels_now, each_here, lines_of, list_here};
ghost use Rattle.irc_queries.specs.Loops.Telling.{one_here, places_here, home_told, user_here};
ghost use Rattle.irc_queries.specs.Loops.Telling.{whois_here};
ghost use Rattle.irc_queries.specs.Laws.WhoisLaw.{WhoisOnlyAnswers};

use crate::own_rows::own_rows;
use arrayvec::ArrayVec;
use irc_acts::away::away_told;
use irc_acts::comma_lists::next_entry;
use irc_acts::standing::{is_listed, mark_of};
use irc_acts::words::client_words;
use irc_acts::{Act, Context, only, put};
use irc_channels::{Channel, Stored};
use irc_names::{ServerName, copied};
use irc_numerics::limits::MAX_WHOIS_CHANNELS;
use irc_numerics::{InfoText, OnChannel, Reply};
use irc_routes::{Routes, laws};
use irc_tables::Row;
use irc_users::User;
use std::alloc::{AllocError, Global};

/// The channels of the line that is being filled.
type LineChannels = ArrayVec<OnChannel, MAX_WHOIS_CHANNELS>;

/// What a WHOIS does (RFC 2812 section 3.6.2).
///
/// # Errors
/// Where memory runs out.
#[tactic(auto, unfolding(crate::specs::Whois::whois_steps))]
pub fn steps(context: &Context<'_>, params: &[&[u8]]) -> Result<Vec<Act, Global>, AllocError>
    ensures { IfOk result
        (λ steps. steps.items ≡ whois_here context.now (words_now params.now)) }
{
    match params {
        [] => only(context.alloc, Act::Answer(Reply::NoNicknameGiven)),
        [list] => told_of_list(context, list),
        [_, list, ..] => told_of_list(context, list),
    }
}

/// What is told of the users of a comma list, and one end behind all.
fn told_of_list(context: &Context<'_>, list: &[u8]) -> Result<Vec<Act, Global>, AllocError>
    ensures { IfOk result (λ steps. steps.items ≡ list_here context.now list.now) }
{
    let mut steps = Vec::new(context.alloc);
    put_list(&mut steps, context, list)?;
    let nick = client_words(list);
    put(&mut steps, Act::Answer(Reply::EndOfWhois { nick }))?;
    Ok(steps)
}

/// Appends what is told of the users of a comma list.
fn put_list(
    steps: &mut Vec<Act, Global>,
    context: &Context<'_>,
    list: &[u8],
) -> Result<(), AllocError>
    ensures { OnOk result
        (AddsSteps (each_here context.now (entries list.now)) steps.old steps.new) }
{
    let mut rest = list;
    while let Some((nick, behind)) = next_entry(rest) {
        put_one(steps, context, nick)?;
        rest = behind;
    }
    Ok(())
}

/// Appends what is told of the user of a nickname, or that there is none.
fn put_one(
    steps: &mut Vec<Act, Global>,
    context: &Context<'_>,
    nick: &[u8],
) -> Result<(), AllocError>
    ensures { OnOk result (AddsSteps (one_here context.now nick.now) steps.old steps.new) }
{
    match context.room.user(nick) {
        Some(user) => put_told(steps, context, user),
        None => put(steps, no_such_nick(nick)),
    }
}

/// A user that is not there is named as it was given.
fn no_such_nick(nick: &[u8]) -> Act
    ensures { result ≡ Answer (NoSuchNick (client_words nick.now)) }
{
    Act::Answer(Reply::NoSuchNick {
        name: client_words(nick),
    })
}

/// Appends what is told of a user.
fn put_told(
    steps: &mut Vec<Act, Global>,
    context: &Context<'_>,
    user: &User,
) -> Result<(), AllocError>
    ensures { OnOk result (AddsSteps (user_here context.now user.now) steps.old steps.new) }
{
    put(steps, user_line(user))?;
    put(steps, server_line(context.routes, user))?;
    put_away(steps, context.routes, user)?;
    put_channels(steps, context, user)
}

/// Appends that a user is away, where that is shown.
fn put_away(steps: &mut Vec<Act, Global>, routes: &Routes, user: &User) -> Result<(), AllocError>
    ensures { OnOk result
        (AddsSteps (away_told (place_of routes.now).about.programs user.now) steps.old steps.new) }
{
    match away_told(routes.programs(), user) {
        Some(told) => put(steps, told),
        None => Ok(()),
    }
}

/// What a user says of itself.
fn user_line(user: &User) -> Act
    ensures { result ≡ Answer (WhoisUser user.now.nick user.now.user user.now.host user.now.real) }
{
    Act::Answer(Reply::WhoisUser {
        nick: user.nick.copy(),
        user: user.user.copy(),
        host: user.host.copy(),
        real: user.real.copy(),
    })
}

/// The server of a user, and how it describes itself.
fn server_line(routes: &Routes, user: &User) -> Act
    ensures { result ≡ home_told (place_of routes.now) user.now }
{
    Act::Answer(Reply::WhoisServer {
        nick: user.nick.copy(),
        server: user.home.copy(),
        info: info_of(routes, &user.home),
    })
}

/// How the server of a name describes itself.
fn info_of(routes: &Routes, home: &ServerName) -> InfoText
    ensures { result.items ≡ info_of (place_of routes.now) home.now }
{
    laws::place_tells();
    routes.created();
    match routes.info(home.as_bytes()) {
        Some(info) => copied(info.as_bytes()),
        None => ArrayVec::new(),
    }
}

/// Appends the channels of a user that are listed for the asker. No other channel is looked at.
fn put_channels(
    steps: &mut Vec<Act, Global>,
    context: &Context<'_>,
    user: &User,
) -> Result<(), AllocError>
    ensures { OnOk result
        (AddsSteps (lines_of user.now (places_here context.now user.now)) steps.old steps.new) }
{
    let rows = own_rows(context.room, user)?;
    let mut held = ArrayVec::new();
    add_channels(steps, &mut held, context.me, user, rows.as_slice())?;
    finish(steps, held, user)
}

/// Adds those of some channels of a user that are listed for the asker.
fn add_channels(
    steps: &mut Vec<Act, Global>,
    held: &mut LineChannels,
    me: &User,
    user: &User,
    rows: &[&Row<Stored>],
) -> Result<(), AllocError>
    ensures { OnOk result
        (CameListed me.now user.now (channels_now rows.now) steps.old held.old steps.new held.new) }
{
    for row in rows {
        add_channel(steps, held, me, user, row.value.channel())?;
    }
    Ok(())
}

/// Adds a channel of a user, if it is listed for the asker.
fn add_channel(
    steps: &mut Vec<Act, Global>,
    held: &mut LineChannels,
    me: &User,
    user: &User,
    channel: &Channel,
) -> Result<(), AllocError>
    ensures { OnOk result
        (CameListed me.now user.now (channel.now ∷ []) steps.old held.old steps.new held.new) }
{
    match place_in(me, user, channel) {
        Some(place) => add_place(steps, held, user, place),
        None => Ok(()),
    }
}

/// What a user is in a channel, where that is listed for the asker.
fn place_in(me: &User, user: &User, channel: &Channel) -> Option<OnChannel>
    ensures { result ≡ place_in me.now user.now channel.now }
{
    match channel.members.get(user.nick.as_bytes()) {
        Some(flags) if is_listed(me, channel) => Some(OnChannel {
            mark: mark_of(*flags),
            channel: channel.name.copy(),
        }),
        _ => None,
    }
}

/// Adds a channel to the line; one that is full is sent before.
fn add_place(
    steps: &mut Vec<Act, Global>,
    held: &mut LineChannels,
    user: &User,
    place: OnChannel,
) -> Result<(), AllocError>
    ensures { OnOk result
        (CameChannels user.now (place ∷ []) steps.old held.old steps.new held.new) }
{
    if held.is_full() {
        put(steps, channels_line(user, held.take()))?;
    }
    held.push(place);
    Ok(())
}

/// Sends the last line, if there is a channel for it.
fn finish(steps: &mut Vec<Act, Global>, held: LineChannels, user: &User) -> Result<(), AllocError>
    ensures { OnOk result (AddsSteps (lines_of user.now held.items) steps.old steps.new) }
{
    if held.as_slice().is_empty() {
        return Ok(());
    }
    put(steps, channels_line(user, held))
}

/// A line of channels.
fn channels_line(user: &User, channels: LineChannels) -> Act
    ensures { result ≡ channels_line user.now channels.items }
{
    Act::Answer(Reply::WhoisChannels {
        nick: user.nick.copy(),
        channels,
    })
}

/// A law: a WHOIS has no effect, whatever the room is.
#[tactic(auto, using(crate::specs::Laws::WhoisLaw::whois_only_answers))]
pub fn only_answers()
    ensures { WhoisOnlyAnswers }
{}
