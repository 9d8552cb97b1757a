//! What a server sets is done as it is written, and told on to the others.
ghost use Rattle.std.specs.Prelude.{◌≡◌, Some, IfOk, option_to_list};
ghost use Rattle.std.specs.FinMap.{get};
ghost use Rattle.irc_line.specs.Messages.{text};
ghost use Rattle.irc_line.specs.PartViews.{words_now};
ghost use Rattle.irc_line.specs.Reading.{read_of};
ghost use Rattle.irc_link_writer.specs.Written.{from};
ghost use Rattle.irc_stage.specs.EffectTold.{all_changed};
ghost use Rattle.irc_server.specs.LinesThatSet.{line_set, setting_effects, setting_followed};
ghost use Rattle.irc_server.specs.LinesThatSet.{setting_parts, setting_told, spelled_by};

use crate::losing::lose_link;
use crate::reading_settings::read_setting;
use crate::serving::hear_line;
use crate::setting::Setting;
use irc_batch::CloseReason;
use irc_burst_lines::{mode_text, njoin_text, topic_text};
use irc_line::{Parts, Prefix, Text, write_message};
use irc_names::ServerName;
use irc_room::{By, Effect};
use irc_stage::{Link, Serving, Stage};
use std::alloc::AllocError;

/// A line comes by an open link, by which a server may set.
///
/// # Errors
/// Where memory runs out.
pub(crate) fn set_line(stage: Stage, link: Link, line: &[u8]) -> Result<Serving, AllocError>
    ensures { IfOk result (λ served. served
        ≡ line_set stage link (read_of line.now) (get stage.ends link)) }
{
    let view = stage.view();
    let Some(end) = view.end(link) else {
        return Ok(stage.begin());
    };
    match read_setting(&view, link, end, line)? {
        Some(read) => follow_setting(stage, link, read),
        None => hear_line(stage, link, line),
    }
}

/// What is read of a line that sets is done.
fn follow_setting(
    stage: Stage,
    link: Link,
    read: Result<Option<Setting>, CloseReason>,
) -> Result<Serving, AllocError>
    ensures { IfOk result (λ served. served ≡ setting_followed stage link read) }
{
    let serving = stage.begin();
    match read {
        Err(reason) => lose_link(serving.close_link(link, reason)?, link),
        Ok(None) => Ok(serving),
        Ok(Some(setting)) => set(serving, link, setting),
    }
}

/// It is done, and its line goes on to the other links.
fn set(serving: Serving, link: Link, setting: Setting) -> Result<Serving, AllocError>
    ensures { IfOk result (λ told. told ≡ setting_told link setting serving) }
{
    let line = setting_text(&setting);
    let serving = spell(serving, &setting);
    change(serving, link, effect_of(setting))?.tell_all(Some(link), &line)
}

/// A channel takes a spelling, where one is set.
fn spell(serving: Serving, setting: &Setting) -> Serving
    ensures { result ≡ spelled_by setting.now serving }
{
    match setting {
        Setting::Spelling { channel, .. } => serving.respell(channel),
        _ => serving,
    }
}

/// The line in which a server sets this.
fn setting_text(setting: &Setting) -> Text
    ensures { result.items ≡ text (setting_parts setting.now) }
{
    match setting {
        Setting::Modes {
            server,
            channel,
            changes,
        } => mode_text(server.as_bytes(), channel, changes.as_slice()),
        Setting::Topic {
            server,
            channel,
            text,
        } => topic_text(server, channel, text),
        Setting::Spelling { server, channel } => njoin_text(server, channel, &[]),
        Setting::Removal {
            server,
            channel,
            nick,
            text,
        } => line(
            server,
            b"KICK",
            &[channel.as_bytes(), nick.as_bytes()],
            text.as_bytes(),
        ),
    }
}

/// A line from a server, with a last parameter.
fn line(server: &ServerName, command: &[u8], middle: &[&[u8]], last: &[u8]) -> Text
    ensures { result.items ≡ text
        (from server.now command.now (words_now middle.now) (Some last.now)) }
{
    write_message(&Parts {
        prefix: Prefix::Name(server.as_bytes()),
        command,
        middle,
        last: Some(last),
    })
}

/// What it does in the room; nothing, where there are no changes.
fn effect_of(setting: Setting) -> Option<Effect>
    ensures { option_to_list result ≡ setting_effects setting }
{
    match setting {
        Setting::Modes {
            channel,
            changes,
            ..
        } => {
            if changes.as_slice().is_empty() {
                return None;
            }
            Some(Effect::ChangeModes {
                by: By::Home,
                channel,
                changes,
            })
        }
        Setting::Topic { channel, text, .. } => Some(Effect::SetTopic {
            by: By::Home,
            channel,
            text,
        }),
        Setting::Spelling { .. } => None,
        Setting::Removal {
            channel,
            nick,
            text,
            ..
        } => Some(Effect::Part {
            nick,
            channel,
            text,
        }),
    }
}

/// The room changes, where it counts.
fn change(serving: Serving, link: Link, effect: Option<Effect>) -> Result<Serving, AllocError>
    ensures { IfOk result
        (λ changed. changed ≡ all_changed (option_to_list effect) serving) }
{
    match effect {
        Some(effect) => serving.take_effect(link, &effect),
        None => Ok(serving),
    }
}
