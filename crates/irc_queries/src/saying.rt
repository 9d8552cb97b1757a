//! Replies that are put out at once, so that a query of many answers keeps no list of them.
ghost use Rattle.std.specs.Prelude.{[], ◌∷◌, OnOk};
ghost use Rattle.irc_batch.specs.Growing.{Grew};
ghost use Rattle.irc_acts.specs.declared.act.Act.TheVariants.{Answer};
ghost use Rattle.irc_queries.specs.Said.{SaysSteps};

use irc_acts::Context;
use irc_batch::Batch;
use irc_numerics::{Reply, reply_line};
use std::alloc::AllocError;

/// Puts out a reply to the user that asks, on its connection.
pub(crate) fn say(
    context: &Context<'_>,
    reply: &Reply,
    conn: u64,
    out: &mut Batch,
) -> Result<(), AllocError>
    ensures ok { OnOk result (SaysSteps context.now (Answer reply.now ∷ []) conn out.old out.new) }
    ensures grew { Grew out.old.outs out.new.outs }
{
    let line = reply_line(context.routes.name(), Some(&context.me.nick), reply);
    out.put(conn, &line)
}
