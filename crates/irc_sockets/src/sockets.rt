//! The sockets of connections, by the numbers of those who talk by them.
ghost use Rattle.std.specs.Prelude.{◌≡◌, ◌≤◌, ℕ, length, IfOk};
ghost use Rattle.irc_outbox.specs.Calls.{FitsIn};
ghost use Rattle.irc_sockets.specs.Answers.{unread_as, unwritten_as};

use irc_moments::Moment;
use irc_outbox::{Got, IoFault, Ready};
use irc_turns::{LinesPace, Marks, Readiness, Reading, Report, Round, Talker, Talkers};
use mio::event::Event;
use mio::net::TcpStream;
use std::alloc::Global;
use std::io::{ErrorKind, Read, Write};
use std::net::{IpAddr, Shutdown};

/// What is said to a link that is not read, so that its other end does not take this one for gone:
/// an empty line, of which no server takes notice (RFC 2813 section 3.3).
const SIGN: &[u8] = b"\r\n";

/// The socket of a connection.
#[derive(Drop)]
struct Socket {
    stream: TcpStream,
    /// From where the connection is.
    address: IpAddr,
    is_client: bool,
}

/// A connection that was closed, and from where it was.
#[derive(Drop)]
struct Gone {
    number: usize,
    address: IpAddr,
}

/// The sockets of connections. Whose turn it is with them is known of their talkers.
#[derive(Drop)]
pub(crate) struct Sockets {
    by_number: Vec<Option<Socket>, Global>,
    /// Those that were closed in this turn. Where there is no memory for one, it is not known.
    gone: Vec<Gone, Global>,
    pub talkers: Talkers,
}

impl Sockets {
    /// No sockets. By these marks much waits for one; clients keep to this pace, if there is one.
    pub fn new(alloc: Global, marks: Marks, pace: Option<LinesPace>) -> Self
        ensures marks { result.talkers.marks ≡ marks }
        ensures pace { result.talkers.pace ≡ pace }
    {
        Sockets {
            by_number: Vec::new(alloc),
            gone: Vec::new(alloc),
            talkers: Talkers::new(alloc, marks, pace),
        }
    }

    /// Takes the socket of a client or of a link in that has come at this moment from an address,
    /// and gives it a number. Where memory runs out it is closed.
    pub fn add(
        &mut self,
        stream: TcpStream,
        address: IpAddr,
        is_client: bool,
        now: Moment,
    ) -> Option<usize> {
        let number = self.talkers.add(is_client, now).ok()?;
        let socket = Socket {
            stream,
            address,
            is_client,
        };
        if self.put(number, socket).is_none() {
            self.talkers.remove(number);
            return None;
        }
        Some(number)
    }

    /// Puts a socket under the number of its talker, which is the lowest that is free.
    fn put(&mut self, number: usize, socket: Socket) -> Option<()> {
        if number == self.by_number.len() {
            return self.by_number.push(Some(socket)).ok();
        }
        *self.by_number.get_mut(number)? = Some(socket);
        Some(())
    }

    /// The stream under a number.
    pub fn stream(&mut self, number: usize) -> Option<&mut TcpStream> {
        let socket = self.by_number.get_mut(number)?.as_mut()?;
        Some(&mut socket.stream)
    }

    /// Above all numbers that sockets have.
    pub fn len(&self) -> usize {
        self.by_number.len()
    }

    /// From where the client under a number is, if there is one.
    pub fn client_address(&self, number: usize) -> Option<IpAddr> {
        match self.by_number.get(number) {
            Some(Some(socket)) if socket.is_client => Some(socket.address),
            _ => None,
        }
    }

    /// From where a connection is, or was that was closed in this turn.
    pub fn address(&self, number: usize) -> Option<IpAddr> {
        match self.by_number.get(number) {
            Some(Some(socket)) => Some(socket.address),
            _ => self.address_before(number),
        }
    }

    fn address_before(&self, number: usize) -> Option<IpAddr> {
        let gone = self.gone.iter().find(|gone| gone.number == number)?;
        Some(gone.address)
    }

    /// A turn begins: where they were from that were closed before is not asked any more.
    pub fn begin_turn(&mut self) {
        self.gone.clear();
    }

    /// Closes a socket. Its number is free again.
    pub fn remove(&mut self, number: usize) {
        if let Some(slot) = self.by_number.get_mut(number)
            && let Some(socket) = slot.take()
        {
            // where the other end has closed it already there is nothing to be done
            let _closed = socket.stream.shutdown(Shutdown::Both);
            let address = socket.address;
            let _noted = self.gone.push(Gone { number, address });
        }
        self.talkers.remove(number);
    }

    /// Takes in what the system tells of a socket at this moment, and whether somebody has come by
    /// it who was not waiting.
    pub fn note(&mut self, number: usize, event: &Event, now: Moment) -> bool {
        let told = Readiness {
            is_readable: event.is_readable(),
            is_over: event.is_read_closed() || event.is_error(),
            has_room: event.is_writable() || event.is_error(),
        };
        self.talkers.note(number, told, now)
    }

    /// The report of the one that is first in the queue.
    pub fn report(&mut self, round: &mut Round) -> Option<Ready> {
        match self.talkers.report(round)? {
            Report::Readable(number) => Some(Ready::Readable(number as u64)),
            Report::Writable(number) => Some(Ready::Writable(number as u64)),
        }
    }

    /// Gives a sign of life to each link that is not read, and for which nothing waits.
    pub fn give_signs(&mut self) {
        for number in 0..self.by_number.len() {
            if self.talkers.wants_signal(number) {
                self.give_sign(number);
            }
        }
    }

    fn give_sign(&mut self, number: usize) {
        let Some(Some(socket)) = self.by_number.get_mut(number) else {
            return;
        };
        // where it fails, the next read tells so
        let taken = socket.stream.write(SIGN).unwrap_or(0);
        if let Some(talker) = self.talkers.at(number) {
            talker.end_signal(taken, SIGN.len());
        }
    }

    /// Gives what is left of the last read of a socket, or reads from it: no more lines than its
    /// pace has for now. What is given counts by that.
    ///
    /// # Errors
    /// Where the socket failed, is given up, or is none.
    pub fn read(&mut self, number: usize, buffer: &mut [u8], round: &Round) -> Result<Got, IoFault>
        ensures { FitsIn result (length buffer.old) }
    {
        let most = self.talkers.allowed(number, round.began);
        let Some(talker) = self.talkers.at(number) else {
            return Err(IoFault::Failed);
        };
        if talker.is_given_up {
            return Err(IoFault::Failed);
        }
        let got = match talker.begin_read(buffer, round.visits, most) {
            Reading::Given(count) => Ok(Got::Bytes(count)),
            Reading::Anew(lines) => match self.by_number.get_mut(number) {
                Some(Some(socket)) => read_anew(&mut socket.stream, talker, buffer, lines),
                _ => Err(IoFault::Failed),
            },
        };
        talker.end_read();
        if let Ok(Got::Bytes(count)) = got {
            self.talkers.spend(number, &buffer[..count], round.began);
        }
        self.talkers.queue_again(number);
        got
    }

    /// Writes to a socket, or puts that off. So many bytes more wait behind these.
    ///
    /// # Errors
    /// Where the socket failed, is given up, or is none.
    pub fn write(
        &mut self,
        number: usize,
        bytes: &[u8],
        behind: usize,
        round: &mut Round,
    ) -> Result<usize, IoFault>
        ensures { IfOk result (λ count. count ≤ length bytes.now) }
    {
        let all = bytes.len().saturating_add(behind);
        let taken = match self.talkers.puts_off(number, all, round) {
            Some(true) => Ok(0),
            Some(false) => self.write_now(number, bytes),
            None => return Err(IoFault::Failed),
        };
        let count = match &taken {
            Ok(count) => Some(*count),
            Err(_) => None,
        };
        self.talkers.end_write(number, all, count, round);
        taken
    }

    fn write_now(&mut self, number: usize, bytes: &[u8]) -> Result<usize, IoFault>
        ensures { IfOk result (λ count. count ≤ length bytes.now) }
    {
        match (self.by_number.get_mut(number), self.talkers.at(number)) {
            (Some(Some(socket)), Some(talker)) => write_anew(&mut socket.stream, talker, bytes),
            _ => Err(IoFault::Failed),
        }
    }
}

/// Reads. What came fills the buffer, or is all that is there; or it is the end.
fn read_anew(
    stream: &mut TcpStream,
    talker: &mut Talker,
    buffer: &mut [u8],
    lines: usize,
) -> Result<Got, IoFault>
    ensures { FitsIn result (length buffer.old) }
{
    match stream.read(buffer) {
        Ok(0) if !buffer.is_empty() => {
            talker.keep_none(false);
            Ok(Got::End)
        }
        Ok(count) => {
            let is_whole = count == buffer.len();
            Ok(Got::Bytes(talker.keep(&buffer[..count], is_whole, lines)))
        }
        Err(error) => {
            talker.keep_none(error.kind() == ErrorKind::Interrupted);
            unread(error.kind())
        }
    }
}

/// What a read of no bytes tells.
fn unread(kind: ErrorKind) -> Result<Got, IoFault>
    ensures fits { (room : ℕ) → FitsIn result room }
    ensures result { result ≡ unread_as kind }
{
    match kind {
        ErrorKind::WouldBlock | ErrorKind::Interrupted => Ok(Got::Later),
        _ => Err(IoFault::Failed),
    }
}

/// Writes.
fn write_anew(stream: &mut TcpStream, talker: &mut Talker, bytes: &[u8]) -> Result<usize, IoFault>
    ensures { IfOk result (λ count. count ≤ length bytes.now) }
{
    match stream.write(bytes) {
        Ok(count) => {
            talker.take(count, bytes.len());
            Ok(count)
        }
        Err(error) => {
            talker.take_none(error.kind() == ErrorKind::WouldBlock);
            unwritten(error.kind())
        }
    }
}

/// What a write of no bytes tells.
fn unwritten(kind: ErrorKind) -> Result<usize, IoFault>
    ensures none { IfOk result (λ count. count ≡ 0) }
    ensures result { result ≡ unwritten_as kind }
{
    match kind {
        ErrorKind::WouldBlock | ErrorKind::Interrupted => Ok(0),
        _ => Err(IoFault::Failed),
    }
}
