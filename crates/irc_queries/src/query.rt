//! Questions of many answers.
ghost use Rattle.std.specs.Prelude.{OnOk};
ghost use Rattle.irc_batch.specs.Growing.{Grew};
ghost use Rattle.irc_line.specs.PartViews.{words_now};
ghost use Rattle.irc_queries.specs.Said.{AnswersQuery};
ghost use Rattle.irc_queries.specs.Laws.QueryLaw.{QueryOnlyAnswers};

use crate::{list, who};
use irc_acts::Context;
use irc_batch::Batch;
use std::alloc::AllocError;

/// A question whose answers may be as many as the room has users or channels, so that they are put
/// out one by one and never listed (RFC 2812 sections 3.2.6 and 3.6.1).
#[derive(Clone, Copy)]
pub enum Query {
    /// LIST
    List,
    /// WHO
    Who,
}

/// Puts out the answers of a query, to the user that asks, each as it is made.
///
/// # Errors
/// Where memory runs out; nothing that was put out before has changed then.
pub fn answer(
    context: &Context<'_>,
    query: Query,
    params: &[&[u8]],
    conn: u64,
    out: &mut Batch,
) -> Result<(), AllocError>
    ensures ok { OnOk result
        (AnswersQuery context.now query (words_now params.now) conn out.old out.new) }
    ensures grew { Grew out.old.outs out.new.outs }
{
    match query {
        Query::List => list::answer(context, params, conn, out),
        Query::Who => who::answer(context, params, conn, out),
    }
}

/// A law: a query has no effect, whatever the room is.
#[tactic(auto, using(crate::specs::Laws::QueryLaw::query_only_answers))]
pub fn only_answers()
    ensures { QueryOnlyAnswers }
{}
