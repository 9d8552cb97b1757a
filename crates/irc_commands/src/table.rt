//! The command table.
ghost use Rattle.std.specs.Prelude.{List, [], ◌∷◌, IfOk};
ghost use Rattle.irc_line.specs.MessageViews.{parsed};
ghost use Rattle.irc_line.specs.PartViews.{words_now};
ghost use Rattle.irc_acts.specs.declared.act.Act.{Act};
ghost use Rattle.irc_acts.specs.declared.act.Act.TheVariants.{Answer};
ghost use Rattle.irc_commands.specs.CodeViews.{GivesWithoutQuery, IsAsking, IsRowFor, IsRowOf};
ghost use Rattle.irc_commands.specs.CodeViews.{IsWithoutQuery};
ghost use Rattle.irc_commands.specs.Decisions.{does, nothing};
ghost use Rattle.irc_commands.specs.Table.{too_few, unknown};
ghost use Rattle.irc_commands.specs.RegisteringViews.{AreDecided};

use crate::decision::Decision;
use crate::say::Verb;
use crate::{Command, nick, ping, quit, say, topic, whowas};
use irc_acts::refusals::need_more_params;
use irc_acts::words::{client_words, word_at, words_behind};
use irc_acts::{Act, Context, names, only};
use irc_channel_commands::{away, invite, join, kick, mode, part};
use irc_line::Message;
use irc_numerics::Reply;
use irc_queries::{Query, ison, lusers, userhost, whois};
use std::alloc::{AllocError, Global};

/// What a line of a user does, by the row of its command. Too few parameters are answered here,
/// whatever the command.
pub(crate) fn decide_for(
    context: &Context<'_>,
    message: &Message<'_>,
) -> Result<Decision, AllocError>
    ensures { IfOk result (IsRowFor context.now (parsed message.now)) }
{
    let Some((name, command, least)) = Command::find(context.routes.programs(), message.command)
    else {
        return unknown(context.alloc, message.command);
    };
    let params = message.params.as_slice();
    if params.len() < least {
        return too_few(context.alloc, name);
    }
    obey(context, command, params)
}

/// What a command does with parameters that are as many as its row wants.
#[tactic(auto, unfolding(crate::specs::Table::command_row))]
fn obey(context: &Context<'_>, command: Command, params: &[&[u8]]) -> Result<Decision, AllocError>
    ensures { IfOk result (IsRowOf context.now command (words_now params.now)) }
{
    let first = word_at(params, 0);
    let second = word_at(params, 1);
    match command {
        Command::Pass | Command::User => answer(context.alloc, Reply::AlreadyRegistered),
        Command::Pong => Ok(nothing(context.alloc)),
        Command::Motd => answer(context.alloc, Reply::NoMotd),
        Command::Ping => stays(ping::steps(context.alloc, context.routes, params)),
        Command::Quit => quit::decided(context, params),
        Command::Privmsg => stays(say::steps(context, Verb::Privmsg, params)),
        Command::Notice => stays(say::steps(context, Verb::Notice, params)),
        Command::Nick => stays(nick::steps(context, params)),
        Command::Join => stays(join::steps(context, first, second)),
        Command::Part => stays(part::steps(context, first, words_behind(params, 1))),
        Command::Topic => stays(topic::steps(context, first, words_behind(params, 1))),
        Command::Names => stays(names::steps(context, params)),
        Command::Kick => stays(kick::steps(context, first, second, words_behind(params, 2))),
        Command::Invite => stays(invite::steps(context, first, second)),
        Command::Mode => stays(mode::steps(context, first, words_behind(params, 1))),
        Command::Ison => stays(ison::steps(context, params)),
        Command::Lusers => stays(lusers::steps(context)),
        Command::List => Ok(asks(context.alloc, Query::List)),
        Command::Whois => stays(whois::steps(context, params)),
        Command::Who => Ok(asks(context.alloc, Query::Who)),
        Command::Away => stays(away::steps(context, params)),
        Command::Userhost => stays(userhost::steps(context, params)),
        Command::Whowas => stays(whowas::steps(context.alloc, params)),
    }
}

/// Whatever the steps are, the client stays.
#[tactic(auto, unfolding(crate::specs::CodeViews::asked_steps))]
fn stays(steps: Result<Vec<Act, Global>, AllocError>) -> Result<Decision, AllocError>
    ensures { (want : List Act) → IfOk steps (AreDecided want)
        → GivesWithoutQuery (does want) result }
{
    let steps = steps?;
    Ok(Decision {
        steps,
        query: None,
        close: false,
    })
}

/// No step, and the client stays.
#[tactic(auto, unfolding(crate::specs::CodeViews::asked_steps))]
pub(crate) fn nothing(alloc: Global) -> Decision
    ensures { IsWithoutQuery nothing result }
{
    Decision {
        steps: Vec::new(alloc),
        query: None,
        close: false,
    }
}

/// No step but the answers of a query, and the client stays.
#[tactic(auto, unfolding(crate::specs::CodeViews::asked_steps))]
fn asks(alloc: Global, query: Query) -> Decision
    ensures { IsAsking query result }
{
    Decision {
        steps: Vec::new(alloc),
        query: Some(query),
        close: false,
    }
}

/// One reply, and the client stays.
fn answer(alloc: Global, reply: Reply) -> Result<Decision, AllocError>
    ensures { GivesWithoutQuery (does (Answer reply ∷ [])) result }
{
    stays(only(alloc, Act::Answer(reply)))
}

/// A command that is not in the table is named as it was given.
fn unknown(alloc: Global, word: &[u8]) -> Result<Decision, AllocError>
    ensures { GivesWithoutQuery (unknown word.now) result }
{
    let command = client_words(word);
    answer(alloc, Reply::UnknownCommand { command })
}

/// A command that wants more parameters is named in capitals.
fn too_few(alloc: Global, name: &[u8]) -> Result<Decision, AllocError>
    ensures { GivesWithoutQuery (too_few name.now) result }
{
    stays(only(alloc, need_more_params(name)))
}
