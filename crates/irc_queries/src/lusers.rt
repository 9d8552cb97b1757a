//! LUSERS.
ghost use Rattle.std.specs.Prelude.{◌≡◌, ◌++◌, IfOk, OnOk};
ghost use Rattle.irc_routes.specs.Known.{place_of};
ghost use Rattle.irc_queries.specs.Lusers.{channels_formed};
ghost use Rattle.irc_queries.specs.Loops.Telling.{lusers_here};
ghost use Rattle.irc_queries.specs.Laws.LusersLaw.{LusersOnlyAnswers};

use irc_acts::{Act, Context, put};
use irc_numerics::Reply;
use irc_routes::Routes;
use std::alloc::{AllocError, Global};

/// What a LUSERS does (RFC 2812 section 3.4.2).
///
/// # Errors
/// Where memory runs out.
#[tactic(auto, unfolding(crate::specs::Lusers::lusers_steps))]
pub fn steps(context: &Context<'_>) -> Result<Vec<Act, Global>, AllocError>
    ensures { IfOk result (λ steps. steps.items ≡ lusers_here context.now) }
{
    let links = link_count(context.routes)?;
    let clients = context.room.home_count(context.routes.name());
    let mut steps = Vec::new(context.alloc);
    let counted = Reply::LuserClient {
        users: context.room.user_count(),
        servers: context.routes.server_count(),
    };
    put(&mut steps, Act::Answer(counted))?;
    put_channels(&mut steps, context.room.channels().len())?;
    put(&mut steps, Act::Answer(Reply::LuserMe { clients, links }))?;
    Ok(steps)
}

/// Appends how many channels there are, if there is one.
fn put_channels(steps: &mut Vec<Act, Global>, channels: usize) -> Result<(), AllocError>
    ensures { OnOk result (steps.new.items ≡ steps.old.items ++ channels_formed channels) }
{
    if channels == 0 {
        return Ok(());
    }
    put(steps, Act::Answer(Reply::LuserChannels { channels }))
}

/// How many links the server has.
fn link_count(routes: &Routes) -> Result<usize, AllocError>
    ensures { IfOk result (λ count. count ≡ (place_of routes.now).links) }
{
    let links = routes.links()?;
    Ok(links.as_slice().len())
}

/// A law: a LUSERS has no effect, whatever the room is.
#[tactic(auto, using(crate::specs::Laws::LusersLaw::lusers_only_answers))]
pub fn only_answers()
    ensures { LusersOnlyAnswers }
{}
