//! What a line brings, and whether that is there already.
ghost use Rattle.std.specs.Prelude.{◌≡◌};
ghost use Rattle.irc_line.specs.MessageViews.{parsed};
ghost use Rattle.irc_line.specs.Reading.{read_of};
ghost use Rattle.irc_crossing.specs.Lines.{word_at};
ghost use Rattle.irc_layer.specs.Holding.{brought, brought_by, is_channel_at, is_held_at};
ghost use Rattle.irc_layer.specs.Holding.{is_held, is_held_in, is_new, whether_held};

use irc_line::{Message, parse};
use irc_link_reader::{Arrival, is_far};
use irc_link_words::{is_command, unmarked};
use irc_server::Server;

/// What a line brings that comes by a link: the nickname of a NICK, or somebody to the channel of a
/// JOIN or NJOIN.
#[derive(Clone, Copy, Drop)]
pub(crate) enum Brought {
    /// Neither.
    Nothing,
    /// Somebody who is not behind the link has the nickname, or the channel is there.
    Held,
    /// That is not so.
    New,
}

impl Brought {
    pub fn is_held(self) -> bool
        ensures { result ≡ is_held self }
    {
        matches!(self, Brought::Held)
    }

    pub fn is_new(self) -> bool
        ensures { result ≡ is_new self }
    {
        matches!(self, Brought::New)
    }
}

/// What a line brings that comes by a link.
pub(crate) fn brought_by(server: &Server, link: u64, line: &[u8]) -> Brought
    ensures { result ≡ brought_by server.now link (read_of line.now) }
{
    match parse(line) {
        Ok(message) => brought_in(server, link, &message),
        Err(_) => Brought::Nothing,
    }
}

fn brought_in(server: &Server, link: u64, message: &Message<'_>) -> Brought
    ensures { result ≡ brought server.now link (parsed message.now) }
{
    if is_command(b"NICK", message.command) {
        whether_held(is_held_at(server, link, first_word(message)))
    } else if is_command(b"JOIN", message.command) || is_command(b"NJOIN", message.command) {
        whether_held(is_channel_at(server, unmarked(first_word(message))))
    } else {
        Brought::Nothing
    }
}

fn whether_held(is_held: bool) -> Brought
    ensures { result ≡ whether_held is_held }
{
    if is_held { Brought::Held } else { Brought::New }
}

pub(crate) fn first_word<'a>(message: &Message<'a>) -> &'a [u8]
    ensures { result.now ≡ word_at 0 (parsed message.now) }
{
    match message.params.as_slice().get(0) {
        Some(word) => word,
        None => &[],
    }
}

fn is_channel_at(server: &Server, name: &[u8]) -> bool
    ensures { result ≡ is_channel_at server.now name.now }
{
    match server.room() {
        Some(room) => room.channel(name).is_some(),
        None => false,
    }
}

/// Whether somebody who is not behind a link has a nickname.
fn is_held_at(server: &Server, link: u64, nick: &[u8]) -> bool
    ensures { result ≡ is_held_at server.now link nick.now }
{
    let Some(room) = server.room() else {
        return false;
    };
    let Some(routes) = server.routes() else {
        return false;
    };
    is_held_in(Arrival { room, routes, link }, nick)
}

fn is_held_in(at: Arrival<'_>, nick: &[u8]) -> bool
    ensures { result
        ≡ is_held_in at.entry.room.now.room at.entry.routes.now at.entry.link nick.now }
{
    match at.room.user(nick) {
        Some(user) => !is_far(at, user.home.as_bytes()),
        None => false,
    }
}
