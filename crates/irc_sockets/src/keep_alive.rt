//! Who vanishes without a word is asked after by the system.
ghost use Rattle.libc.specs.Net.{SockOption};

use libc::net as c;
use mio::net::TcpStream;
use std::os::fd::AsRawFd;

/// Behind how many seconds of silence the system asks whether the other end is there.
const SILENCE: i32 = 60;

/// How many seconds later it asks again, where nothing answers.
const AGAIN: i32 = 15;

/// How often it asks without an answer before the connection fails.
const TIMES: i32 = 4;

/// For how many milliseconds bytes may wait that the other end does not take: as long as silence
/// may last in all.
const UNTAKEN: i32 = (SILENCE + TIMES * AGAIN) * 1000;

/// How many bytes for a link the system holds: what waits is to wait here, where it is seen.
const HELD_FOR_LINK: i32 = 131_072;

/// How many bytes of an option's value are its number.
const NUMBER: u32 = 4;

/// Has the system end a connection whose other end has vanished.
pub(crate) fn ask_after(stream: &TcpStream) {
    set_number(stream, c::IPPROTO_TCP, c::TCP_KEEPIDLE, SILENCE);
    set_number(stream, c::IPPROTO_TCP, c::TCP_KEEPINTVL, AGAIN);
    set_number(stream, c::IPPROTO_TCP, c::TCP_KEEPCNT, TIMES);
    set_number(stream, c::IPPROTO_TCP, c::TCP_USER_TIMEOUT, UNTAKEN);
    set_number(stream, c::SOL_SOCKET, c::SO_KEEPALIVE, 1);
}

/// Has the system hold few bytes for a link.
pub(crate) fn narrow(stream: &TcpStream) {
    set_number(stream, c::SOL_SOCKET, c::SO_SNDBUF, HELD_FOR_LINK);
}

/// Sets an option of a socket. One that is refused is passed over: the connection serves without it
/// too.
fn set_number(stream: &TcpStream, level: i32, option: i32, number: i32)
    requires { SockOption level option }
{
    let mut value = [0; 16];
    value[..4].copy_from_slice(&number.to_ne_bytes());
    let _set = unsafe { c::setsockopt(stream.as_raw_fd(), level, option, &value, NUMBER) };
}
