//! What an end of a link has put out, and the other end had not read when it wrote last.
ghost use Rattle.std.specs.Prelude.{◌≡◌, [], ◌∷◌, drop, length, map, nat_eq, OnOk};
ghost use Rattle.std.specs.Option.{option_copied};
ghost use Rattle.irc_line.specs.MessageViews.{parsed};
ghost use Rattle.irc_crossing.specs.Hearing.{greater_by, logged_of, spelled_in};
ghost use Rattle.irc_crossing.specs.Asking.{has_begun, has_taken_out, has_told_of};
ghost use Rattle.irc_crossing.specs.Letters.{set_mode};
ghost use Rattle.irc_crossing.specs.Raising.{has_taken_from};
ghost use Rattle.irc_crossing.specs.Lines.{logged};
ghost use Rattle.irc_crossing.specs.Logs.{crossed_if, log_behind, means, means_in, member_behind};
ghost use Rattle.irc_crossing.specs.Loops.Comers.{are_comers};
ghost use Rattle.irc_crossing.specs.Logs.{is_first_read, nick_behind, put_out, through, unread};

use crate::asking::{begins_by, takes_out, tells_of};
use crate::change::Change;
use crate::lines::change_of;
use crate::modes::{ChannelModes, channel_modes, set_mode};
use crate::raising::takes_from;
use irc_line::{Message, parse};
use irc_link_words::is_command;
use irc_names::{ChannelName, same};
use std::alloc::{AllocError, Global};
use std::collections::VecDeque;
use std::marker::Model;

/// A change that was put out.
#[derive(Drop)]
pub struct Entry {
    /// The piece in which it was put out, counted from 1.
    pub piece: u64,
    /// What is left of it, behind what has come since.
    pub change: Option<Change>,
}

/// What was put out and is not read, in order.
#[derive(Drop)]
pub struct Log {
    entries: VecDeque<Entry, Global>,
    alloc: Global,
}

/// In a clause it is the list of its entries.
impl Model for Log {
    ghost use Rattle.std.specs.Prelude.{List};
    ghost use Rattle.irc_crossing.specs.declared.log.Entry.{Entry};

    ghost Value = { List Entry };

    ghost view = { λ log. log.entries.items };
}

impl Log {
    /// Nothing.
    pub fn new(alloc: Global) -> Self
        ensures { result ≡ [] }
    {
        Log {
            entries: VecDeque::new(alloc),
            alloc,
        }
    }

    /// Where it has its memory.
    pub(crate) fn alloc(&self) -> Global {
        self.alloc
    }

    /// How many changes are in it.
    pub fn len(&self) -> usize
        ensures { result ≡ length self.now }
    {
        self.entries.len()
    }

    /// Whether nothing is in it.
    pub fn is_empty(&self) -> bool
        ensures { result ≡ nat_eq (length self.now) 0 }
    {
        self.len() == 0
    }

    /// Nothing is in it any more.
    pub fn clear(&mut self)
        ensures { self.new ≡ [] }
    {
        self.entries.clear();
    }

    /// A line is put out in a piece, without its CR LF. `begins` is whether the channel begins to
    /// which it brings somebody, where a line of a link is passed on that does not say so.
    ///
    /// # Errors
    /// Where memory runs out.
    pub fn put_out(&mut self, piece: u64, line: &[u8], begins: bool) -> Result<(), AllocError>
        ensures { OnOk result (self.new ≡ put_out piece (logged_of begins line.now) self.old) }
    {
        match parse(line) {
            Ok(message) => self.put_message(piece, &message, begins),
            Err(_) => Ok(()),
        }
    }

    fn put_message(
        &mut self,
        piece: u64,
        message: &Message<'_>,
        begins: bool,
    ) -> Result<(), AllocError>
        ensures { OnOk result
            (self.new ≡ put_out piece (logged begins (parsed message.now)) self.old) }
    {
        if is_command(b"SQUIT", message.command) {
            return self.push(piece, None);
        }
        match channel_modes(self.alloc, message)? {
            Some(modes) => self.put_modes(piece, &modes),
            None => match change_of(message) {
                Some(change) => self.push(piece, Some(change.begun_if(begins))),
                None => Ok(()),
            },
        }
    }

    fn put_modes(&mut self, piece: u64, modes: &ChannelModes) -> Result<(), AllocError>
        ensures { OnOk result (self.new ≡ put_out piece
            (map (set_mode modes.now.channel) modes.now.changes) self.old) }
    {
        for change in modes.changes.as_slice() {
            self.push(piece, Some(set_mode(&modes.channel, change)))?;
        }
        Ok(())
    }

    fn push(&mut self, piece: u64, change: Option<Change>) -> Result<(), AllocError>
        ensures { OnOk result (self.new ≡ put_out piece (change ∷ []) self.old) }
    {
        match self.entries.push_back(Entry { piece, change }) {
            Ok(()) => Ok(()),
            Err(_) => Err(AllocError),
        }
    }

    /// The other end has read so many pieces.
    pub fn count(&mut self, read: u64)
        ensures { self.new ≡ unread read self.old }
    {
        while self.is_first_read(read) {
            self.drop_first();
        }
    }

    /// Whether the first change is read, where so many pieces are.
    fn is_first_read(&self, read: u64) -> bool
        ensures { result ≡ is_first_read read self.now }
    {
        match self.entries.front() {
            Some(entry) => entry.piece <= read,
            None => false,
        }
    }

    fn drop_first(&mut self)
        ensures { self.new ≡ drop 1 self.old }
    {
        let _read = self.entries.pop_front();
    }

    /// The other end has changed this, if anything: what becomes of it here. What becomes of the
    /// log by it stays in the log.
    pub fn pass(&mut self, theirs: Option<Change>) -> Option<Change>
        ensures became { result ≡ through theirs self.old }
        ensures behind { self.new ≡ log_behind theirs self.old }
    {
        let Some(theirs) = theirs else {
            return None;
        };
        pass_all(Some(theirs), self.entries.make_contiguous())
    }

    /// What would become here of this, if the other end had changed it.
    pub(crate) fn would_pass(&self, theirs: Change) -> Option<Change>
        ensures { result ≡ through (Some theirs) self.now }
    {
        let mut left = Some(theirs);
        for entry in self.entries.iter() {
            left = crossed_if(left.as_ref(), entry.change.as_ref());
        }
        left
    }

    /// The nickname now of whom the other end means by this one; none where it is gone.
    pub fn means<'a>(&'a self, nick: &'a [u8]) -> Option<&'a [u8]>
        ensures { option_copied result ≡ means self.now nick.now }
    {
        let mut now = nick;
        for entry in self.entries.iter() {
            let Some(next) = entry.nick_behind(now) else {
                return None;
            };
            now = next;
        }
        Some(now)
    }

    /// The nickname now of whom the other end means by this one as a member of a channel; none
    /// where it is gone, or out of that.
    pub fn means_in<'a>(&'a self, channel: &[u8], nick: &'a [u8]) -> Option<&'a [u8]>
        ensures { option_copied result ≡ means_in self.now channel.now nick.now }
    {
        let mut now = nick;
        for entry in self.entries.iter() {
            let Some(next) = entry.member_behind(channel, now) else {
                return None;
            };
            now = next;
        }
        Some(now)
    }

    /// Whether a channel has begun by what was put out.
    pub(crate) fn has_begun(&self, channel: &ChannelName) -> bool
        ensures { result ≡ has_begun self.now channel.now }
    {
        self.entries
            .iter()
            .any(|entry| begins_by(channel, entry.change.as_ref()))
    }

    /// Whether it tells of a channel.
    pub(crate) fn has_told_of(&self, channel: &ChannelName) -> bool
        ensures { result ≡ has_told_of self.now channel.now }
    {
        self.entries
            .iter()
            .any(|entry| tells_of(channel, entry.change.as_ref()))
    }

    /// Whether it takes anybody out of all channels.
    pub(crate) fn has_taken_out(&self) -> bool
        ensures { result ≡ has_taken_out self.now }
    {
        self.entries
            .iter()
            .any(|entry| takes_out(entry.change.as_ref()))
    }

    /// Whether it may have taken somebody out of a channel.
    pub(crate) fn has_taken_from(&self, channel: &[u8]) -> bool
        ensures { result ≡ has_taken_from self.now channel.now }
    {
        self.entries
            .iter()
            .any(|entry| takes_from(channel, entry.change.as_ref()))
    }

    /// The greatest spelling of a channel's name, of this one and those that were put out.
    pub(crate) fn spelled(&self, channel: ChannelName) -> ChannelName
        ensures { result ≡ spelled_in self.now channel }
    {
        let mut greatest = channel;
        for entry in self.entries.iter() {
            greatest = greater_by(entry.change.as_ref(), greatest);
        }
        greatest
    }
}

/// The greater spelling of a channel's name, of this one and that of a change.
fn greater_by(change: Option<&Change>, channel: ChannelName) -> ChannelName
    ensures { result ≡ greater_by (option_copied change.entry) channel }
{
    match change {
        Some(Change::Join { channel: at, .. })
            if same(channel.as_bytes(), at.as_bytes())
                && channel.as_bytes().cmp(at.as_bytes()).is_lt() => { at.copy() }
        _ => channel,
    }
}

impl Entry {
    fn nick_behind<'a>(&'a self, nick: &'a [u8]) -> Option<&'a [u8]>
        ensures { option_copied result ≡ nick_behind self.now nick.now }
    {
        match &self.change {
            Some(change) => change.standing(nick).word(nick),
            None => Some(nick),
        }
    }

    fn member_behind<'a>(&'a self, channel: &[u8], nick: &'a [u8]) -> Option<&'a [u8]>
        ensures { option_copied result ≡ member_behind self.now channel.now nick.now }
    {
        match &self.change {
            Some(change) => change.standing_in(channel, nick).word(nick),
            None => Some(nick),
        }
    }
}

/// A change of the other end passes all that was put out, and each of these passes it.
fn pass_all(theirs: Option<Change>, entries: &mut [Entry]) -> Option<Change>
    ensures became { result ≡ through theirs entries.old }
    ensures behind { entries.new ≡ log_behind theirs entries.old }
{
    let mut theirs = theirs;
    for entry in entries.iter_mut() {
        theirs = pass_one(theirs, &mut entry.change);
    }
    theirs
}

/// Two changes pass one another: what becomes of the first.
fn pass_one(theirs: Option<Change>, ours: &mut Option<Change>) -> Option<Change>
    ensures became { result ≡ crossed_if theirs ours.old }
    ensures behind { ours.new ≡ crossed_if ours.old theirs }
{
    if are_comers(theirs.as_ref(), ours.as_ref()) {
        return theirs;
    }
    let became = crossed_if(theirs.as_ref(), ours.as_ref());
    *ours = crossed_if(ours.as_ref(), theirs.as_ref());
    became
}

/// Whether two users come under two nicknames: neither changes anything for the other. Where two
/// sides are linked each tells of all of its own, so that most changes that cross are such.
fn are_comers(one: Option<&Change>, other: Option<&Change>) -> bool
    ensures { result ≡ are_comers (option_copied one.entry) (option_copied other.entry) }
{
    match (one, other) {
        (Some(Change::Come(one)), Some(Change::Come(other))) => {
            !same(one.as_bytes(), other.as_bytes()) && !same(other.as_bytes(), one.as_bytes())
        }
        _ => false,
    }
}

fn crossed_if(one: Option<&Change>, other: Option<&Change>) -> Option<Change>
    ensures { result ≡ crossed_if (option_copied one.entry) (option_copied other.entry) }
{
    match (one, other) {
        (Some(one), Some(other)) => one.crossed(other),
        (Some(one), None) => Some(one.copy()),
        (None, _) => None,
    }
}
