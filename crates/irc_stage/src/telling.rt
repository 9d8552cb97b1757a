//! What an effect shows to the clients of a server that it is still to change.
ghost use Rattle.std.specs.Prelude.{OnOk};
ghost use Rattle.irc_room.specs.After.{after};
ghost use Rattle.irc_stage.specs.Loops.Around.{machine_in, AreSoIn, IsHeard, IsLent};
ghost use Rattle.irc_stage.specs.Loops.Around.{IsSaidInChannel, IsUnheard};
ghost use Rattle.irc_stage.specs.Loops.Hearing.{IsUnsaid};
ghost use Rattle.irc_stage.specs.Loops.Listening.{index_after, AreSo, IsSaidTo};
ghost use Rattle.irc_stage.specs.Loops.Speaking.{IsSpoken};

use crate::audience::{tell_others, write};
use crate::clients::number_of;
use crate::listeners::Listeners;
use crate::origin::Origin;
use crate::ways::Around;
use irc_batch::Batch;
use irc_line::Text;
use irc_names::Nick;
use irc_room::{Effect, Target};
use std::alloc::AllocError;

impl Listeners {
    /// Puts out what an effect shows to the clients that see it, and follows it. What is said
    /// changes nothing, and there is the most of it: so it has ways of its own.
    ///
    /// # Errors
    /// Where memory runs out; it has been put out to some of them then.
    pub(crate) fn hear(
        &mut self,
        around: Around<'_>,
        origin: Origin<'_>,
        effect: &Effect,
        line: &mut Text,
        out: &mut Batch,
    ) -> Result<(), AllocError>
        requires so { AreSoIn self.old.lists around }
        requires lent { IsLent around effect.now }
        requires spoken { IsSpoken origin (machine_in around) effect.now }
        ensures shown { OnOk result (IsHeard around.entry effect.now out.old out.new) }
        ensures so { OnOk result
            (AreSo self.new.lists (after around.entry.room.now.room effect.now)
            (index_after effect.now around.entry.clients.now.by_nick)) }
    {
        match effect {
            Effect::Say {
                target: Target::Channel(_),
                ..
            } => {
                self.pass_on(around, origin, effect, line, out)?;
                self.follow(around.room, around.clients, effect)
            }
            Effect::Say {
                target: Target::User(nick),
                ..
            } => {
                tell_user(around, effect, nick, line, out)?;
                self.follow(around.room, around.clients, effect)
            }
            _ => self.show_line(around, effect, line, out),
        }
    }

    /// What is said in a channel is passed on to those who hear it there, but not to who says it.
    fn pass_on(
        &self,
        around: Around<'_>,
        origin: Origin<'_>,
        effect: &Effect,
        line: &mut Text,
        out: &mut Batch,
    ) -> Result<(), AllocError>
        requires so { AreSoIn self.now.lists around }
        requires lent { IsLent around effect.now }
        requires spoken { IsSpoken origin (machine_in around) effect.now }
        requires said { IsSaidInChannel effect.now }
        ensures { OnOk result (IsHeard around.entry effect.now out.old out.new) }
    {
        around.room.own();
        let Effect::Say {
            target: Target::Channel(channel),
            ..
        } = effect
        else {
            unreachable!()
        };
        let rows = self.of(channel.as_bytes());
        if rows.is_empty() {
            return Ok(());
        }
        if around.room.write_named(effect, around.named, line) {
            return tell_others(rows, origin.conn(), line, out);
        }
        Ok(())
    }

    /// The line of an effect, where it shows one, goes to all who see it, and it is known who of
    /// the clients listens where when it has changed the room.
    fn show_line(
        &mut self,
        around: Around<'_>,
        effect: &Effect,
        line: &mut Text,
        out: &mut Batch,
    ) -> Result<(), AllocError>
        requires so { AreSoIn self.old.lists around }
        requires lent { IsLent around effect.now }
        requires unsaid { IsUnsaid effect.now }
        ensures shown { OnOk result (IsHeard around.entry effect.now out.old out.new) }
        ensures unheard { OnOk result (IsUnheard around.entry effect.now out.old out.new) }
        ensures so { OnOk result
            (AreSo self.new.lists (after around.entry.room.now.room effect.now)
            (index_after effect.now around.entry.clients.now.by_nick)) }
    {
        around.room.own();
        if !write(around, effect, line) {
            return self.follow(around.room, around.clients, effect);
        }
        self.show(around.room, around.clients, effect, line, out)
    }
}

/// What is said to a user is told to it, where it is a client.
fn tell_user(
    around: Around<'_>,
    effect: &Effect,
    nick: &Nick,
    line: &mut Text,
    out: &mut Batch,
) -> Result<(), AllocError>
    requires lent { IsLent around effect.now }
    requires said { IsSaidTo nick.now effect.now }
    ensures { OnOk result (IsHeard around.entry effect.now out.old out.new) }
{
    around.room.own();
    let Some(conn) = number_of(around.clients, nick) else {
        return Ok(());
    };
    if around.room.write_named(effect, around.named, line) {
        return out.put(conn.number(), line);
    }
    Ok(())
}
