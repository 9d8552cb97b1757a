//! What happens by a link: it is opened, a line comes by it, it is lost (RFC 2813 sections 4.1
//! and 5).
ghost use Rattle.std.specs.Prelude.{◌≡◌, [], None, true, is_some, unwrap_or, IfOk};
ghost use Rattle.std.specs.FinMap.{get};
ghost use Rattle.irc_line.specs.Reading.{read_of};
ghost use Rattle.irc_burst_lines.specs.Loops.Telling.{lines_now};
ghost use Rattle.irc_stage.specs.EffectTold.{with_sent};
ghost use Rattle.irc_stage.specs.View.{password_for};
ghost use Rattle.irc_server.specs.LinkServed.{after_heard, line_served, link_opened};
ghost use Rattle.irc_server.specs.LinkServed.{on_link, opening_parts, owes};
ghost use Rattle.irc_server.specs.Loops.Hearing.{heard_of};
ghost use Rattle.irc_server.specs.Loops.Serving.{greeting_of, lines_told, met_in, IsHearable};

use crate::heard::Heard;
use crate::hearing::hear;
use crate::losing::lose_link;
use crate::telling::{gain, tell_all};
use irc_batch::CloseReason;
use irc_burst::NewServer;
use irc_burst_lines::burst;
use irc_line::Text;
use irc_link_words::{greeting_text, pass_text};
use irc_names::ServerName;
use irc_routes::Info;
use irc_stage::{Link, Serving, Stage, View};
use std::alloc::AllocError;

/// A link is opened: this end calls the server of this name, and begins, or it is called, and
/// waits. A server that is no peer is not called.
///
/// # Errors
/// Where memory runs out.
pub(crate) fn open_link(
    stage: Stage,
    link: Link,
    starts: Option<ServerName>,
) -> Result<Serving, AllocError>
    requires new { get stage.ends link ≡ None }
    ensures { IfOk result (λ served. served ≡ link_opened stage link starts) }
{
    let serving = stage.begin();
    let Some(name) = starts else {
        return serving.open_link(link, None);
    };
    if serving.view().password_for(name.as_bytes()).is_none() {
        return serving.close_link(link, CloseReason::UnknownPeer);
    }
    begin(serving, link, &name)?.open_link(link, Some(name))
}

/// The two lines with which an end begins, to a peer of this name.
fn begin(serving: Serving, link: Link, name: &ServerName) -> Result<Serving, AllocError>
    ensures { IfOk result (λ begun. begun
        ≡ with_sent (on_link link (opening_parts serving.state name.now)) serving) }
{
    let view = serving.view();
    let pass = pass_text(password_to(&view, name));
    let greeting = greeting_text(view.routes());
    serving.tell_on(link, &pass)?.tell_on(link, &greeting)
}

/// The password that a peer of this name is given; nothing where there is no such peer.
fn password_to<'a>(view: &View<'a>, name: &ServerName) -> &'a [u8]
    ensures { result.now ≡ unwrap_or (password_for view.now name.now) [] }
{
    match view.password_for(name.as_bytes()) {
        Some(password) => password,
        None => &[],
    }
}

/// A line comes by an open link.
///
/// # Errors
/// Where memory runs out.
pub(crate) fn hear_line(stage: Stage, link: Link, line: &[u8]) -> Result<Serving, AllocError>
    ensures { IfOk result (λ served. served
        ≡ line_served stage link (read_of line.now) (get stage.ends link)) }
{
    let view = stage.view();
    let Some(end) = view.end(link) else {
        return Ok(stage.begin());
    };
    let heard = hear(&view, link, end, line)?;
    follow(stage, link, heard)
}

/// What a line is heard as is done.
fn follow(stage: Stage, link: Link, heard: Heard) -> Result<Serving, AllocError>
    requires hearable { IsHearable (get stage.ends link) (heard_of heard) }
    ensures { IfOk result (λ served. served ≡ after_heard stage link (heard_of heard)) }
{
    let serving = stage.begin();
    match heard {
        Heard::Nothing => Ok(serving),
        Heard::Closes(reason) => lose_link(serving.close_link(link, reason)?, link),
        Heard::Password(password) => Ok(serving.take_password(link, password)),
        Heard::Meets { name, info } => meet(serving, link, name, info),
        Heard::Tells(deeds) => tell_all(serving, link, deeds.as_slice()),
    }
}

/// The server at the other end names itself: it is answered, and told of to the others.
fn meet(serving: Serving, link: Link, name: ServerName, info: Info) -> Result<Serving, AllocError>
    requires there { is_some (get serving.state.ends link) ≡ true }
    ensures { IfOk result (λ served. served ≡ met_in link name info serving) }
{
    let uplink = serving.view().routes().name().copy();
    let serving = answer(serving, link, &name)?.meet(link, name.copy());
    let server = NewServer {
        uplink,
        name,
        distance: 1,
        token: 1,
        info,
    };
    gain(serving, link, &server)
}

/// What an end owes a server that has named itself: the end that is called begins now, and both
/// tell what their side holds.
fn answer(serving: Serving, link: Link, name: &ServerName) -> Result<Serving, AllocError>
    ensures { IfOk result (λ told. told
        ≡ with_sent (on_link link (owes serving.state link name.now)) serving) }
{
    let view = serving.view();
    let Some(end) = view.end(link) else {
        return Ok(serving);
    };
    let lines = burst(view.room(), view.routes(), link.number())?;
    let is_called = end.starts().is_none();
    let greeted = greet(serving, link, is_called, name)?;
    put_all(greeted, link, lines.as_slice())
}

/// The end that is called has said nothing yet, and begins now.
fn greet(
    serving: Serving,
    link: Link,
    is_called: bool,
    name: &ServerName,
) -> Result<Serving, AllocError>
    ensures { IfOk result (λ told. told
        ≡ with_sent (on_link link (greeting_of serving.state is_called name.now)) serving) }
{
    if is_called {
        begin(serving, link, name)
    } else {
        Ok(serving)
    }
}

/// These lines on a link, in order.
fn put_all(mut serving: Serving, link: Link, lines: &[Text]) -> Result<Serving, AllocError>
    ensures { IfOk result (λ told. told ≡ lines_told link (lines_now lines.now) serving) }
{
    for line in lines {
        serving = serving.tell_on(link, line)?;
    }
    Ok(serving)
}
