//! A link is lost, or is closed (RFC 2813 section 4.1.6).
ghost use Rattle.std.specs.Prelude.{◌≡◌, Some, IfOk};
ghost use Rattle.std.specs.FinMap.{get};
ghost use Rattle.std.specs.Option.{option_copied};
ghost use Rattle.irc_burst.specs.Loops.Deeds.{loss_told};
ghost use Rattle.irc_merge.specs.Deeds.{loses};
ghost use Rattle.irc_routes.specs.Known.{names_behind};
ghost use Rattle.irc_server.specs.DeedTold.{deeds_told, link_lost, losses, lost_behind};
ghost use Rattle.irc_server.specs.DeedTold.{split_text};
ghost use Rattle.irc_server.specs.Loops.Serving.{far_of};

use crate::telling::lose;
use arrayvec::ArrayVec;
use irc_burst::Loss;
use irc_channels::Words;
use irc_names::ServerName;
use irc_stage::{Link, Serving, View};
use std::alloc::{AllocError, Global};

/// The two names of a lost link, and the space between them.
const MAX_SPLIT: usize = 127;

/// A link is open no more: each server behind it is lost, of which the others are told.
///
/// # Errors
/// Where memory runs out.
pub(crate) fn lose_link(serving: Serving, link: Link) -> Result<Serving, AllocError>
    ensures { IfOk result (λ lost. lost ≡ link_lost link serving) }
{
    Ok(lose_behind(serving, link)?.unlink(link))
}

/// Each server behind a link is lost, if the link counts.
fn lose_behind(serving: Serving, link: Link) -> Result<Serving, AllocError>
    ensures { IfOk result (λ lost. lost ≡ deeds_told (Some link)
        (lost_behind serving.state link (get serving.state.ends link)) serving) }
{
    match far_of(&serving.view(), link) {
        Some(far) => lose_all(serving, link, &far),
        None => Ok(serving),
    }
}

/// The server at the other end of a link, if it has named itself.
fn far_of(view: &View<'_>, link: Link) -> Option<ServerName>
    ensures { result ≡ far_of view.now link }
{
    match view.end(link) {
        Some(end) => copied(end.far()),
        None => None,
    }
}

/// The same server's name once more, where there is one.
fn copied(name: Option<&ServerName>) -> Option<ServerName>
    ensures { result ≡ option_copied name.entry }
{
    match name {
        Some(name) => Some(name.copy()),
        None => None,
    }
}

/// Each server behind a link is lost.
fn lose_all(mut serving: Serving, link: Link, far: &ServerName) -> Result<Serving, AllocError>
    ensures { IfOk result (λ lost. lost ≡ deeds_told (Some link)
        (losses serving.state.routes.name far.now (names_behind serving.state.routes link))
        serving) }
{
    let view = serving.view();
    let own = view.routes().name().copy();
    let names = names_behind(&view, link)?;
    let text = split_text(&own, far);
    for name in &names {
        serving = lose(serving, link, &lost(&own, name, &text))?;
    }
    Ok(serving)
}

/// A server that is lost, as a line of this one tells of it.
fn lost(own: &ServerName, name: &ServerName, text: &Words) -> Loss
    ensures { loss_told result ≡ loses own.now name.now text.now }
{
    Loss {
        server: own.copy(),
        name: name.copy(),
        text: text.copy(),
    }
}

/// The text with which the users of a lost side quit: the near end of the link, and the far one.
fn split_text(near: &ServerName, far: &ServerName) -> Words
    ensures { result ≡ split_text near.now far.now }
{
    let mut text: ArrayVec<u8, MAX_SPLIT> = ArrayVec::new();
    let _ = text.try_extend_from_slice(near.as_bytes());
    let _ = text.try_extend_from_slice(b" ");
    let _ = text.try_extend_from_slice(far.as_bytes());
    Words::cut(text.as_slice())
}

/// The names of the servers behind a link, in order.
fn names_behind(view: &View<'_>, link: Link) -> Result<Vec<ServerName, Global>, AllocError>
    ensures { IfOk result (λ names. names.items ≡ names_behind view.now.routes link) }
{
    let mut names = Vec::new(view.alloc());
    let found = view.routes().behind(link.number())?;
    for name in &found {
        names.push(name.copy())?;
    }
    Ok(names)
}
