//! What a line of a link tells is done, and told on to the others (RFC 2813 sections 4 and 5).
ghost use Rattle.std.specs.Prelude.{◌≡◌, Some, IfOk};
ghost use Rattle.std.specs.FinMap.{get};
ghost use Rattle.irc_burst.specs.Loops.Deeds.{told_of_deed, told_of_deeds, loss_told, topic_told};
ghost use Rattle.irc_link_reader.specs.Loops.Tellings.{killing_told, server_told, setting_told};
ghost use Rattle.irc_merge.specs.Deeds.{changes_made, is_greater_topic, raised_in};
ghost use Rattle.irc_stage.specs.EffectTold.{all_changed};
ghost use Rattle.irc_stage.specs.Ways.{IsMetEnd};
ghost use Rattle.irc_server.specs.DeedTold.{all_told, deed_told, told_by};
ghost use Rattle.irc_server.specs.Loops.Telling.{topped_by};

use crate::members::bring;
use crate::quitting::quit_all;
use irc_burst::{Deed, Killing, Loss, ModeSetting, NewServer, Topic};
use irc_burst_lines::{kill_text, mode_text, server_text, squit_text, topic_text};
use irc_channels::Words;
use irc_modes::ModeChange;
use irc_names::ChannelName;
use irc_room::{By, Effect, ModeChanges, Room};
use irc_routes::Newcomer;
use irc_stage::{Link, Serving};
use std::alloc::{AllocError, Global};

/// The text with which a user quits whose nickname another has too (our own).
const COLLISION: &[u8] = b"Killed (Nick collision)";

/// All that a line of a link tells is done, one after another.
///
/// # Errors
/// Where memory runs out.
pub(crate) fn tell_all(
    mut serving: Serving,
    link: Link,
    deeds: &[Deed],
) -> Result<Serving, AllocError>
    requires met { IsMetEnd (get serving.state.ends link) }
    ensures { IfOk result (λ told. told ≡ all_told link (told_of_deeds deeds.now) serving) }
{
    for deed in deeds {
        serving = tell(serving, link, deed)?;
    }
    Ok(serving)
}

/// What a line tells is done.
#[tactic(auto, unfolding(crate::specs::DeedTold::told_by, crate::specs::DeedTold::deed_told))]
fn tell(serving: Serving, link: Link, deed: &Deed) -> Result<Serving, AllocError>
    requires met { IsMetEnd (get serving.state.ends link) }
    ensures { IfOk result (λ told. told ≡ told_by link (told_of_deed deed.now) serving) }
{
    match deed {
        Deed::Does(effect) => serving.come(link, effect),
        Deed::Server(server) => gain(serving, link, server),
        Deed::Lost(loss) => lose(serving, link, loss),
        Deed::Kill(killing) => kill(serving, link, killing),
        Deed::Members(arrivals) => bring(serving, link, arrivals),
        Deed::Modes(setting) => set(serving, link, setting),
        Deed::Topic(topic) => top(serving, link, topic),
    }
}

/// A server more is known from now on, and told of to the others.
pub(crate) fn gain(serving: Serving, link: Link, server: &NewServer) -> Result<Serving, AllocError>
    requires met { IsMetEnd (get serving.state.ends link) }
    ensures { IfOk result (λ told. told ≡ told_by link (server_told server.now) serving) }
{
    let newcomer = Newcomer {
        uplink: &server.uplink,
        name: server.name.as_bytes(),
        distance: server.distance,
        token: server.token,
        info: &server.info,
    };
    let (serving, is_known) = serving.add_server(link, &newcomer)?;
    if !is_known {
        return Ok(serving);
    }
    let routes = serving.view().routes();
    let line = server_text(routes, &server.uplink, &server.name, &server.info);
    serving.tell_all(Some(link), &line)
}

/// A server is lost: its users quit, and the others are told.
pub(crate) fn lose(serving: Serving, link: Link, loss: &Loss) -> Result<Serving, AllocError>
    ensures { IfOk result
        (λ told. told ≡ deed_told (Some link) (loss_told loss.now) serving) }
{
    let line = squit_text(&loss.server, &loss.name, &loss.text);
    let serving = quit_all(serving, link, loss)?;
    serving
        .remove_server(&loss.name)
        .tell_all(Some(link), &line)
}

/// The user of a nickname is taken out that another has too. The KILL goes on to the others; one of
/// our own goes back as well, for the server there has the other user.
fn kill(serving: Serving, link: Link, killing: &Killing) -> Result<Serving, AllocError>
    ensures { IfOk result (λ told. told ≡ told_by link (killing_told killing.now) serving) }
{
    let line = kill_text(&killing.server, &killing.nick);
    let is_own = killing.server.as_bytes() == serving.view().routes().name().as_bytes();
    let arrival = if is_own { None } else { Some(link) };
    let serving = serving.remove_user(&killing.nick, &Words::cut(COLLISION))?;
    serving.tell_all(arrival, &line)
}

/// A server sets modes of a channel: of its changes those are made that raise something, and all go
/// on as they came.
fn set(serving: Serving, link: Link, setting: &ModeSetting) -> Result<Serving, AllocError>
    ensures { IfOk result
        (λ told. told ≡ deed_told (Some link) (setting_told setting.now) serving) }
{
    let changes = setting.changes.as_slice();
    let view = serving.view();
    let raised = raised(view.alloc(), view.room(), &setting.channel, changes)?;
    let line = mode_text(setting.server.as_bytes(), &setting.channel, changes);
    make(serving, link, &setting.channel, raised)?.tell_all(Some(link), &line)
}

/// Of these changes those that raise something in the channel that is there.
fn raised(
    alloc: Global,
    room: &Room,
    channel: &ChannelName,
    changes: &[ModeChange],
) -> Result<Vec<ModeChange, Global>, AllocError>
    ensures { IfOk result (λ raised. raised.items
        ≡ raised_in room.now.room channel.now changes.now) }
{
    match room.channel(channel.as_bytes()) {
        Some(channel) => channel.modes.raising(changes),
        None => Ok(Vec::new(alloc)),
    }
}

/// A server makes changes of a channel's modes, where there are any.
fn make(
    serving: Serving,
    link: Link,
    channel: &ChannelName,
    changes: Vec<ModeChange, Global>,
) -> Result<Serving, AllocError>
    ensures { IfOk result
        (λ made. made ≡ all_changed (changes_made channel.now changes.items) serving) }
{
    if changes.is_empty() {
        return Ok(serving);
    }
    let effect = Effect::ChangeModes {
        by: By::Home,
        channel: channel.copy(),
        changes: ModeChanges::new(changes),
    };
    serving.take_effect(link, &effect)
}

/// A server sets a channel's topic: it is set where it is greater than the one that is there, and
/// goes on as it came.
fn top(serving: Serving, link: Link, topic: &Topic) -> Result<Serving, AllocError>
    ensures { IfOk result
        (λ told. told ≡ deed_told (Some link) (topic_told topic.now) serving) }
{
    let line = topic_text(&topic.server, &topic.channel, &topic.text);
    raise_topic(serving, link, topic)?.tell_all(Some(link), &line)
}

/// A channel's topic is set, where it is greater than the one that is there.
fn raise_topic(serving: Serving, link: Link, topic: &Topic) -> Result<Serving, AllocError>
    ensures { IfOk result
        (λ made. made ≡ all_changed (topped_by topic.now serving.state) serving) }
{
    if !is_greater(serving.view().room(), &topic.channel, &topic.text) {
        return Ok(serving);
    }
    let effect = Effect::SetTopic {
        by: By::Home,
        channel: topic.channel.copy(),
        text: topic.text.copy(),
    };
    serving.take_effect(link, &effect)
}

/// Whether a topic is greater by bytes than that of the channel that is there.
fn is_greater(room: &Room, channel: &ChannelName, topic: &Words) -> bool
    ensures { result ≡ is_greater_topic room.now.room channel.now topic.now }
{
    match room.channel(channel.as_bytes()) {
        Some(channel) => channel.topic.as_bytes().cmp(topic.as_bytes()).is_lt(),
        None => false,
    }
}
