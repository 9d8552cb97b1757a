//! What a deed comes to, of which a line of a link tells: where two users would have one nickname,
//! they quit (RFC 2812 section 3.7.1).
ghost use Rattle.std.specs.Prelude.{◌≡◌, ◌∷◌, [], IfOk, OnOk};
ghost use Rattle.irc_room.specs.Seen.{stored_nick};
ghost use Rattle.irc_burst.specs.DeedsMeant.{takes_anothers};
ghost use Rattle.irc_burst.specs.Loops.Deeds.{
  told_of_deed,
  told_of_deeds,
  collide_at,
  collided_if,
  done_at,
  introduced_at,
  kills_at,
  renamed_at,
  told_if,
  Appended,
};

use irc_link_reader::{Arrival, Deed, Killing};
use irc_names::{Nick, compare, same};
use irc_room::Effect;
use irc_users::User;
use std::alloc::{AllocError, Global};

/// What a deed comes to, if there is one, of which a line of effects tells.
pub(crate) fn collided(
    alloc: Global,
    at: Arrival<'_>,
    deed: Option<Deed>,
) -> Result<Vec<Deed, Global>, AllocError>
    ensures { IfOk result
        (λ deeds. told_of_deeds deeds.items ≡ collided_if at.entry deed) }
{
    let mut deeds = Vec::new(alloc);
    if let Some(deed) = deed {
        push_collided(&mut deeds, at, deed)?;
    }
    Ok(deeds)
}

/// Appends what a deed comes to.
fn push_collided(
    deeds: &mut Vec<Deed, Global>,
    at: Arrival<'_>,
    deed: Deed,
) -> Result<(), AllocError>
    ensures { OnOk result (Appended deeds.old (collide_at at.entry (told_of_deed deed)) deeds.new) }
{
    match deed {
        Deed::Does(effect) => push_done(deeds, at, effect),
        other => put(deeds, other),
    }
}

/// Appends what an effect comes to.
fn push_done(
    deeds: &mut Vec<Deed, Global>,
    at: Arrival<'_>,
    effect: Effect,
) -> Result<(), AllocError>
    ensures { OnOk result (Appended deeds.old (done_at at.entry effect) deeds.new) }
{
    match effect {
        Effect::AddUser(user) => put(deeds, introduced(at, user)),
        Effect::Rename { nick, new } => push_renamed(deeds, at, nick, new),
        other => put(deeds, Deed::Does(other)),
    }
}

/// A deed alone, or none.
pub(crate) fn listed(alloc: Global, deed: Option<Deed>) -> Result<Vec<Deed, Global>, AllocError>
    ensures { IfOk result (λ deeds. told_of_deeds deeds.items ≡ told_if deed) }
{
    let mut deeds = Vec::new(alloc);
    if let Some(deed) = deed {
        deeds.push(deed)?;
    }
    Ok(deeds)
}

/// Appends a deed.
fn put(deeds: &mut Vec<Deed, Global>, deed: Deed) -> Result<(), AllocError>
    ensures { OnOk result (Appended deeds.old (told_of_deed deed ∷ []) deeds.new) }
{
    deeds.push(deed)?;
    Ok(())
}

/// What a user who is introduced comes to; where its nickname is held, the holder is killed, and it
/// is not taken.
fn introduced(at: Arrival<'_>, user: User) -> Deed
    ensures { told_of_deed result ∷ [] ≡ introduced_at at.entry user }
{
    match at.room.user(user.nick.as_bytes()) {
        Some(holder) => Deed::Kill(Killing {
            server: at.routes.name().copy(),
            nick: holder.nick.copy(),
        }),
        None => Deed::Does(Effect::AddUser(user)),
    }
}

/// Appends what a change of a nickname comes to; where somebody else has the new one, both are
/// killed, in folded order.
fn push_renamed(
    deeds: &mut Vec<Deed, Global>,
    at: Arrival<'_>,
    nick: Nick,
    new: Nick,
) -> Result<(), AllocError>
    ensures { OnOk result (Appended deeds.old (renamed_at at.entry nick new) deeds.new) }
{
    if !takes_anothers(at, &nick, &new) {
        return put(deeds, Deed::Does(Effect::Rename { nick, new }));
    }
    let nick = stored(at, nick);
    let new = stored(at, new);
    if compare(new.as_bytes(), nick.as_bytes()).is_lt() {
        kill_both(deeds, at, new, nick)
    } else {
        kill_both(deeds, at, nick, new)
    }
}

/// Appends that two users are killed in the name of this server.
fn kill_both(
    deeds: &mut Vec<Deed, Global>,
    at: Arrival<'_>,
    one: Nick,
    other: Nick,
) -> Result<(), AllocError>
    ensures { OnOk result (Appended deeds.old
        (kills_at at.entry one ∷ kills_at at.entry other ∷ []) deeds.new) }
{
    put(deeds, kill(at, one))?;
    put(deeds, kill(at, other))
}

/// What tells that a user is killed in the name of this server.
fn kill(at: Arrival<'_>, nick: Nick) -> Deed
    ensures { told_of_deed result ≡ kills_at at.entry nick }
{
    let server = at.routes.name().copy();
    Deed::Kill(Killing { server, nick })
}

/// Whether a user takes the nickname of another.
fn takes_anothers(at: Arrival<'_>, nick: &Nick, new: &Nick) -> bool
    ensures { result ≡ takes_anothers at.entry.room.now.room nick.now new.now }
{
    at.room.user(new.as_bytes()).is_some() && !same(nick.as_bytes(), new.as_bytes())
}

/// A nickname as it is stored, or as it was given where there is no such user.
fn stored(at: Arrival<'_>, nick: Nick) -> Nick
    ensures { result ≡ stored_nick at.entry.room.now.room nick }
{
    match at.room.user(nick.as_bytes()) {
        Some(user) => user.nick.copy(),
        None => nick,
    }
}
