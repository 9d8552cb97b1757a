//! PRIVMSG and NOTICE.
ghost use Rattle.std.specs.Prelude.{◌≡◌, ◌+◌, ◌≤◌, [], ◌∷◌, ◌++◌, length, IfOk, OnOk};
ghost use Rattle.std.specs.Option.{option_copied};
ghost use Rattle.irc_line.specs.PartViews.{words_now};
ghost use Rattle.irc_numerics.specs.declared.replies.Reply.TheVariants.{NoSuchNick};
ghost use Rattle.irc_acts.specs.Acts.{client_words};
ghost use Rattle.irc_room.specs.effect.Target.TheVariants as target;
ghost use Rattle.irc_acts.specs.declared.act.Act.TheVariants.{Answer};
ghost use Rattle.irc_commands.specs.CodeViews.{one_said_here, said_here, say_here, user_said_here};
ghost use Rattle.irc_commands.specs.Say.{
  is_notice,
  is_raised,
  may_speak,
  said_text,
  say_command,
  say_text,
  to_channel,
  unless_notice,
};
ghost use Rattle.irc_commands.specs.RegisteringViews.{AreDecided};

use crate::MAX_TARGETS;
use irc_acts::away::away_told;
use irc_acts::comma_lists::next_entry;
use irc_acts::standing::is_banned;
use irc_acts::words::{client_words, names_channel};
use irc_acts::{Act, Context, put};
use irc_channels::{Channel, Flags};
use irc_line::Line;
use irc_line::limits::MAX_LINE;
use irc_names::{MAX_CHANNEL, copied, first_bytes};
use irc_numerics::Reply;
use irc_room::{Effect, Target};
use irc_users::User;
use std::alloc::{AllocError, Global};

/// Which of the two commands it is; the definition of what they do takes one.
#[derive(Clone, Copy)]
pub enum Verb {
    /// PRIVMSG
    Privmsg,
    /// NOTICE, which is never answered.
    Notice,
}

impl Verb {
    /// Whether it is a NOTICE.
    fn is_notice(self) -> bool
        ensures { result ≡ is_notice self }
    {
        match self {
            Verb::Privmsg => false,
            Verb::Notice => true,
        }
    }

    /// Its name in capitals.
    fn name(self) -> &'static [u8]
        ensures { result.now ≡ say_command self }
    {
        match self {
            Verb::Privmsg => b"PRIVMSG",
            Verb::Notice => b"NOTICE",
        }
    }
}

/// What is said to a target, cut so that the line which its clients see is not.
fn said_text(me: &User, verb: Verb, to: &[u8], words: &[u8]) -> Line
    requires { length to.now ≤ MAX_CHANNEL }
    ensures { result.items ≡ said_text me.now verb to.now words.now }
{
    let sender = me.nick.as_bytes().len() + me.user.as_bytes().len() + me.host.as_bytes().len();
    copied(first_bytes(
        words,
        MAX_LINE.saturating_sub(sender + verb.name().len() + to.len() + SEPARATORS),
    ))
}

/// The bytes of a line that part its sender, command, target and text: `:`, `!`, `@`, three spaces
/// and `:`.
const SEPARATORS: usize = 7;

/// Appends what a message to one target does, but no reply to a NOTICE.
fn put_said(
    steps: &mut Vec<Act, Global>,
    context: &Context<'_>,
    verb: Verb,
    words: &[u8],
    name: &[u8],
) -> Result<(), AllocError>
    ensures { OnOk result (steps.new.items ≡ steps.old.items
        ++ unless_notice verb (one_said_here context.now verb words.now name.now)) }
{
    if names_channel(name) {
        let said = to_channel(context.room.channel(name), context.me, verb, words, name);
        put_unless_notice(steps, verb, said)
    } else {
        put_to_user(steps, context, verb, words, name)
    }
}

/// Appends what a message to the user of a nickname does, if it is there, but no reply to a NOTICE.
/// Behind the text stands that the user is away, where that is shown.
fn put_to_user(
    steps: &mut Vec<Act, Global>,
    context: &Context<'_>,
    verb: Verb,
    words: &[u8],
    name: &[u8],
) -> Result<(), AllocError>
    ensures { OnOk result (steps.new.items ≡ steps.old.items
        ++ unless_notice verb (user_said_here context.now verb words.now name.now)) }
{
    let Some(user) = context.room.user(name) else {
        return put_unless_notice(steps, verb, missing(name));
    };
    put_unless_notice(steps, verb, to_user(context.me, verb, words, user))?;
    match away_told(context.routes.programs(), user) {
        Some(told) => put_unless_notice(steps, verb, told),
        None => Ok(()),
    }
}

/// What a message does to the channel that was found under a name, if one was.
fn to_channel(found: Option<&Channel>, me: &User, verb: Verb, words: &[u8], name: &[u8]) -> Act
    ensures { to_channel me.now verb name.now words.now (option_copied found.entry) ≡ result ∷ [] }
{
    let Some(channel) = found else {
        return missing(name);
    };
    if !may_speak(me, channel) {
        return Act::Answer(Reply::CannotSendToChan {
            channel: channel.name.copy(),
        });
    }
    Act::Do(Effect::Say {
        by: me.nick.copy(),
        notice: verb.is_notice(),
        target: Target::Channel(channel.name.copy()),
        text: said_text(me, verb, channel.name.as_bytes(), words),
    })
}

/// What is said to a user.
fn to_user(me: &User, verb: Verb, words: &[u8], user: &User) -> Act
    ensures { say_text me.now verb (target.User user.now.nick) user.now.nick words.now
        ≡ result ∷ [] }
{
    Act::Do(Effect::Say {
        by: me.nick.copy(),
        notice: verb.is_notice(),
        target: Target::User(user.nick.copy()),
        text: said_text(me, verb, user.nick.as_bytes(), words),
    })
}

/// A target that is not there is named as it was given.
fn missing(name: &[u8]) -> Act
    ensures { result ≡ Answer (NoSuchNick (client_words name.now)) }
{
    Act::Answer(Reply::NoSuchNick {
        name: client_words(name),
    })
}

/// Whether a user may speak in a channel (RFC 2811 sections 4.2.3, 4.2.4 and 4.3.1): no outsider
/// where mode n keeps them out; an operator or a voiced member alone where mode m moderates it; and
/// whom a ban matches only as one of these.
fn may_speak(user: &User, channel: &Channel) -> bool
    ensures { result ≡ may_speak user.now channel.now }
{
    let flags = channel.members.get(user.nick.as_bytes());
    let raised = is_raised(flags);
    (!channel.modes.no_outside || flags.is_some())
        && (!channel.modes.moderated || raised)
        && (raised || !is_banned(user, channel))
}

/// Whether these are the flags of an operator, or of a member with voice.
fn is_raised(flags: Option<&Flags>) -> bool
    ensures { result ≡ is_raised (option_copied flags.entry) }
{
    match flags {
        Some(flags) => flags.op || flags.voice,
        None => false,
    }
}

/// Appends a step, unless it is a reply to a NOTICE.
fn put_unless_notice(steps: &mut Vec<Act, Global>, verb: Verb, act: Act) -> Result<(), AllocError>
    ensures { OnOk result (steps.new.items ≡ steps.old.items ++ unless_notice verb (act ∷ [])) }
{
    if verb.is_notice() && matches!(&act, Act::Answer(_)) {
        return Ok(());
    }
    put(steps, act)
}

/// What a message to a comma list of targets does.
fn say_to(
    context: &Context<'_>,
    verb: Verb,
    targets: &[u8],
    words: &[u8],
) -> Result<Vec<Act, Global>, AllocError>
    ensures { IfOk result
        (AreDecided (unless_notice verb (said_here context.now verb targets.now words.now))) }
{
    let mut steps = Vec::new(context.alloc);
    let mut rest = targets;
    let mut served = 0;
    while let Some((target, behind)) = next_entry(rest) {
        if served == MAX_TARGETS {
            let target = client_words(target);
            let refusal = Act::Answer(Reply::TooManyTargets { target });
            put_unless_notice(&mut steps, verb, refusal)?;
            return Ok(steps);
        }
        put_said(&mut steps, context, verb, words, target)?;
        served += 1;
        rest = behind;
    }
    Ok(steps)
}

/// What a PRIVMSG or a NOTICE does (RFC 2812 section 3.3).
#[tactic(auto, unfolding(crate::specs::Say::say_steps))]
pub(crate) fn steps(
    context: &Context<'_>,
    verb: Verb,
    params: &[&[u8]],
) -> Result<Vec<Act, Global>, AllocError>
    ensures { IfOk result (AreDecided (say_here context.now verb (words_now params.now))) }
{
    let Some((targets, more)) = params.split_first() else {
        let command = client_words(verb.name());
        return refuse(context.alloc, verb, Reply::NoRecipient { command });
    };
    match more.first() {
        Some(words) if !words.is_empty() => say_to(context, verb, targets, words),
        _ => refuse(context.alloc, verb, Reply::NoTextToSend),
    }
}

/// One reply, unless it would be to a NOTICE.
fn refuse(alloc: Global, verb: Verb, reply: Reply) -> Result<Vec<Act, Global>, AllocError>
    ensures { IfOk result (λ steps. steps.items ≡ unless_notice verb (Answer reply ∷ [])) }
{
    let mut steps = Vec::new(alloc);
    put_unless_notice(&mut steps, verb, Act::Answer(reply))?;
    Ok(steps)
}
