//! The line that each kind of effect shows (RFC 2812 section 3). Where the doer is not there, there
//! is none.
ghost use Rattle.std.specs.Prelude.{◌≡◌, None, Some, [], ◌∷◌, codes};
ghost use Rattle.std.specs.Option.{option_map};
ghost use Rattle.irc_line.specs.Messages.{text};
ghost use Rattle.irc_line.specs.MessageViews.{optional_now};
ghost use Rattle.irc_line.specs.PartViews.{sender, words_now};
ghost use Rattle.irc_effects.specs.Seen.{change_parts};
ghost use Rattle.irc_room.specs.Loops.LineViews.{invisible_word, mode_params, mode_parts};
ghost use Rattle.irc_room.specs.Loops.LineViews.{line_if, say_command, Writes};

use crate::Tables;
use crate::mode_letters::push_changes;
use irc_line::{Parts, Prefix, Text, push_cut, push_prefix, write_message};
use irc_modes::ModeChange;
use irc_users::UserChange;

/// Writes the line with these tables, if there is somebody who sends it. Here and below: tells
/// whether it did.
fn write_line(
    doer: Option<Prefix<'_>>,
    command: &[u8],
    middle: &[&[u8]],
    last: Option<&[u8]>,
    line: &mut Text,
) -> bool
    ensures { Writes result line.new doer.entry command.now (words_now middle.now)
        (optional_now last.entry) }
{
    match doer {
        None => false,
        Some(prefix) => {
            *line = write_message(&Parts {
                prefix,
                command,
                middle,
                last,
            });
            true
        }
    }
}

/// A user has another nickname (RFC 2812 section 3.1.2).
pub(crate) fn nick_line(doer: Option<Prefix<'_>>, new: &[u8], line: &mut Text) -> bool
    ensures { Writes result line.new doer.entry (codes "NICK") (new.now ∷ []) None }
{
    write_line(doer, b"NICK", &[new], None, line)
}

/// A user leaves (RFC 2812 section 3.1.7).
pub(crate) fn quit_line(doer: Option<Prefix<'_>>, reason: &[u8], line: &mut Text) -> bool
    ensures { Writes result line.new doer.entry (codes "QUIT") [] (Some reason.now) }
{
    write_line(doer, b"QUIT", &[], Some(reason), line)
}

/// A user joins a channel (RFC 2812 section 3.2.1).
pub(crate) fn join_line(doer: Option<Prefix<'_>>, channel: &[u8], line: &mut Text) -> bool
    ensures { Writes result line.new doer.entry (codes "JOIN") (channel.now ∷ []) None }
{
    write_line(doer, b"JOIN", &[channel], None, line)
}

/// A member leaves a channel (RFC 2812 section 3.2.2).
pub(crate) fn part_line(
    doer: Option<Prefix<'_>>,
    channel: &[u8],
    reason: &[u8],
    line: &mut Text,
) -> bool
    ensures { Writes result line.new doer.entry (codes "PART") (channel.now ∷ [])
        (Some reason.now) }
{
    write_line(doer, b"PART", &[channel], Some(reason), line)
}

/// A member is made to leave a channel (RFC 2812 section 3.2.8).
pub(crate) fn kick_line<'a>(
    doer: Option<Prefix<'_>>,
    channel: &'a [u8],
    nick: &'a [u8],
    reason: &[u8],
    line: &mut Text,
) -> bool
    ensures { Writes result line.new doer.entry (codes "KICK") (channel.now ∷ nick.now ∷ [])
        (Some reason.now) }
{
    write_line(doer, b"KICK", &[channel, nick], Some(reason), line)
}

/// A channel's modes change (RFC 2812 section 3.2.3).
pub(crate) fn mode_line(
    tables: &Tables,
    doer: Option<Prefix<'_>>,
    channel: &[u8],
    changes: &[ModeChange],
    line: &mut Text,
) -> bool
    ensures { Writes result line.new doer.entry (codes "MODE")
        (mode_params tables.now channel.now changes.now) None }
{
    match doer {
        None => false,
        Some(prefix) => {
            *line = mode_text(tables, prefix, channel, changes);
            true
        }
    }
}

/// The same line, from somebody who is there.
fn mode_text(tables: &Tables, doer: Prefix<'_>, channel: &[u8], changes: &[ModeChange]) -> Text
    ensures { result.items ≡ text
        (mode_parts tables.now (sender doer.entry) channel.now changes.now) }
{
    let mut line = Text::new();
    push_prefix(&mut line, &doer);
    push_cut(&mut line, b"MODE ");
    push_cut(&mut line, channel);
    push_cut(&mut line, b" ");
    push_changes(tables, &mut line, changes);
    let _ = line.try_extend_from_slice(b"\r\n");
    line
}

/// A channel's topic changes (RFC 2812 section 3.2.4).
pub(crate) fn topic_line(
    doer: Option<Prefix<'_>>,
    channel: &[u8],
    topic: &[u8],
    line: &mut Text,
) -> bool
    ensures { Writes result line.new doer.entry (codes "TOPIC") (channel.now ∷ [])
        (Some topic.now) }
{
    write_line(doer, b"TOPIC", &[channel], Some(topic), line)
}

/// A text is said (RFC 2812 section 3.3).
pub(crate) fn say_line(
    doer: Option<Prefix<'_>>,
    notice: bool,
    target: &[u8],
    words: &[u8],
    line: &mut Text,
) -> bool
    ensures { Writes result line.new doer.entry (say_command notice) (target.now ∷ [])
        (Some words.now) }
{
    let command: &[u8] = if notice { b"NOTICE" } else { b"PRIVMSG" };
    write_line(doer, command, &[target], Some(words), line)
}

/// A user is invited to a channel (RFC 2812 section 3.2.7).
pub(crate) fn invite_line<'a>(
    doer: Option<Prefix<'_>>,
    nick: &'a [u8],
    channel: &'a [u8],
    line: &mut Text,
) -> bool
    ensures { Writes result line.new doer.entry (codes "INVITE")
        (nick.now ∷ channel.now ∷ []) None }
{
    write_line(doer, b"INVITE", &[nick, channel], None, line)
}

/// A user changes what it has set of itself (RFC 2812 section 3.1.5). A change that is not shown
/// has no line.
pub(crate) fn change_line(
    doer: Option<Prefix<'_>>,
    nick: &[u8],
    change: &UserChange,
    line: &mut Text,
) -> bool
    ensures { line_if result line.new
        ≡ option_map text (change_parts nick.now change.now (option_map sender doer.entry)) }
{
    match change {
        UserChange::Invisible(invisible) => user_mode_line(doer, nick, *invisible, line),
        UserChange::Away(_) => false,
    }
}

/// A user's mode i changes (RFC 2812 section 3.1.5).
fn user_mode_line(doer: Option<Prefix<'_>>, nick: &[u8], invisible: bool, line: &mut Text) -> bool
    ensures { Writes result line.new doer.entry (codes "MODE")
        (nick.now ∷ invisible_word invisible ∷ []) None }
{
    let mode = if invisible { b"+i" } else { b"-i" };
    write_line(doer, b"MODE", &[nick, mode], None, line)
}
