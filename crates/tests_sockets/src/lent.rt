//! A wire in memory that is lent to an engine, so that it can be looked at behind the engine's
//! turns.
ghost use Rattle.std.specs.Prelude.{⊤, ◌≤◌, length, IfOk};
ghost use Rattle.irc_outbox.specs.Calls.{Call, asks, reads, writes, closes, bytes_got, Adds};
ghost use Rattle.irc_outbox.specs.Calls.{FitsIn, Keeps};

use arrayvec::ArrayVec;
use irc_moments::Moment;
use irc_names::{Host, ServerName};
use irc_outbox::{Got, IoFault, MemoryWire, Notice, Ready, Wire};

/// How many milliseconds a turn takes.
const TURN: u64 = 100;

/// Whom an engine has closed, one after another, as far as there is room.
pub(crate) type Closings = ArrayVec<u64, 8>;

/// A wire in memory, lent.
#[derive(Drop)]
pub(crate) struct Lent<'a> {
    pub wire: &'a mut MemoryWire,
    pub closings: &'a mut Closings,
    /// What it has to tell, and what behind that.
    pub notice: Option<Notice>,
    pub later_notice: Option<Notice>,
    /// Whether it knows from where connections come.
    pub knows_addresses: bool,
    /// How many milliseconds have gone by.
    pub now: u64,
}

/// From where a connection comes.
fn address(conn: u64) -> &'static [u8] {
    match conn {
        9 => b"10.0.0.9",
        _ => b"10.0.0.5",
    }
}

/// It keeps no account of what was asked.
impl<'a> Wire for Lent<'a> {
    ghost is_after = { λ wire calls. ⊤ };

    fn ready(&mut self) -> Result<Ready, IoFault> {
        self.now = self.now.saturating_add(TURN);
        self.wire.ready()
    }

    fn read(&mut self, conn: u64, buffer: &mut [u8]) -> Result<Got, IoFault> {
        self.wire.read(conn, buffer)
    }

    fn write(&mut self, conn: u64, bytes: &[u8], behind: usize) -> Result<usize, IoFault> {
        self.wire.write(conn, bytes, behind)
    }

    fn close(&mut self, conn: u64) {
        let _noted = self.closings.try_push(conn);
        self.wire.close(conn)
    }

    fn would_call(&self) -> Option<&ServerName> {
        self.wire.would_call()
    }

    fn know(&mut self, is_known: bool, yields: bool) {
        self.wire.know(is_known, yields)
    }

    fn would_give_up(&self) -> Option<u64> {
        self.wire.would_give_up()
    }

    fn know_user(&mut self, is_user: bool) {
        self.wire.know_user(is_user)
    }

    fn named(&mut self, conn: u64) {
        self.wire.named(conn)
    }

    fn whence(&self, conn: u64) -> Option<Host> {
        if self.knows_addresses {
            Host::read(address(conn))
        } else {
            self.wire.whence(conn)
        }
    }

    fn moment(&self) -> Moment {
        Moment::of(self.now)
    }

    fn notice(&mut self) -> Option<Notice> {
        match self.notice.take() {
            Some(notice) => Some(notice),
            None => self.later_notice.take(),
        }
    }
}
